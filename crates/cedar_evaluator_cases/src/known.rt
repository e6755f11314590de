//! Commands that make entities and a store of them.

use crate::desk::{Desk, Known, Made, Part};
use crate::evaluations;
use crate::said::{lay, two};
use cedar_expr_functions::Extensions;
use cedar_expr_leaves::SlotId;
use cedar_expr_partial::TryFromExpr;
use cedar_expr_values::Value;
use cedar_store_entities::{Entities, Entity};
use cedar_test_exprs::{expr, kept, made, uid, word};
use std::alloc::Global;
use std::rc::RcStr;

// Does the command, where it is one of these: `attr age 40`, `tag spoon $t`, `above Team::all`, `entity User::a`, `store`, `partial`,
// `absent User::a`, `slot User::a`, the uid that the principal's slot is bound to; or one that `evaluations` does.
pub fn done(
    desk: &mut Desk,
    table: &Extensions<'_>,
    verb: &str,
    rest: &str,
    wanted: &str,
    said: &mut String,
) -> Made<()> {
    let alloc = desk.alloc;
    let known = &mut desk.known;
    match verb {
        "attr" => lay(&mut known.attrs, part(alloc, rest)),
        "tag" => lay(&mut known.tags, part(alloc, rest)),
        "above" => lay(&mut known.above, uid(alloc, rest)),
        "entity" => {
            let made = entity(alloc, known, rest);
            lay(&mut known.entities, made)
        }
        "store" => store(alloc, known),
        "slot" => {
            let bound = kept(alloc, uid(alloc, rest))?;
            let _before = desk.slots.insert(SlotId::principal(), bound);
            Ok(())
        }
        "partial" => {
            let mut store = Entities::new(alloc);
            std::mem::swap(&mut store, &mut known.store);
            known.store = store.partial();
            Ok(())
        }
        "absent" => absent(alloc, known, rest),
        _ => evaluations::done(desk, table, verb, rest, wanted, said),
    }
}

// Records in the store that there is no entity of the uid.
fn absent(alloc: Global, known: &mut Known, rest: &str) -> Made<()> {
    made(known.store.add_absent(uid(alloc, rest)?))
}

// Makes the whole store of the entities at hand.
fn store(alloc: Global, known: &mut Known) -> Made<()> {
    let entities = all(alloc, &mut known.entities);
    known.store = made(Entities::from_entities(alloc, entities))?;
    Ok(())
}

// The whole pile.
fn all<T: Drop>(alloc: Global, pile: &mut Vec<T>) -> Vec<T> {
    let mut taken = Vec::new(alloc);
    std::mem::swap(&mut taken, pile);
    taken
}

// A name, and what the rest of the text writes: a value, or an expression that is none yet.
fn part(alloc: Global, text: &str) -> Made<(RcStr, Part)> {
    let (name, text) = two(text);
    let name = word(alloc, name)?;
    let e = expr(alloc, text)?;
    match Value::try_from_expr(alloc, &e) {
        Ok(value) => Ok((name, Part::Value(value))),
        Err(_) => Ok((name, Part::Residual(e))),
    }
}

// The entity of what was made for it.
fn entity(alloc: Global, known: &mut Known, text: &str) -> Made<Entity> {
    let attrs = all(alloc, &mut known.attrs);
    let tags = all(alloc, &mut known.tags);
    let above = all(alloc, &mut known.above);
    let uid = uid(alloc, text)?;
    Entity::new_with_attr_partial_value(alloc, uid, attrs, above, Vec::new(alloc), tags)
}

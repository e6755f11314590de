//! Commands that make what is known: entities, stores, requests, and values for unknowns.

use crate::contexts::residual;
use crate::desk::{Desk, Known, Made, Part};
use crate::groups;
use crate::said::{all, lay, two};
use cedar_evaluator_requests::{Context, EntityUIDEntry, Request};
use cedar_expr_functions::Extensions;
use cedar_expr_partial::{PartialValue, TryFromExpr};
use cedar_expr_values::{Value, ValueKind};
use cedar_store_entities::{Entities, Entity};
use cedar_test_exprs::{both, entity_type, expr, made, uid, value, word};
use std::alloc::{AllocError, Global};
use std::rc::RcStr;

// Does the command, where it is one of these: `attr ok true`, `attr foo $u`, `above E::parent`, `entity User::a`, `store`, `partial`;
// or one that `asked` does.
pub fn stored(
    desk: &mut Desk,
    table: &Extensions<'_>,
    verb: &str,
    rest: &str,
    wanted: &str,
    said: &mut String,
) -> Made<()> {
    let known = &mut desk.known;
    let alloc = known.alloc;
    match verb {
        "attr" => lay(&mut known.attrs, part(alloc, rest)),
        "above" => lay(&mut known.above, uid(alloc, rest)),
        "entity" => {
            let made = entity(known, rest);
            lay(&mut known.entities, made)
        }
        "store" | "partial" => keep(known, verb == "partial"),
        _ => asked(desk, table, verb, rest, wanted, said),
    }
}

// Keeps the store of the entities at hand: the whole one, or a partial one.
fn keep(known: &mut Known, is_partial: bool) -> Made<()> {
    let entities = all(known.alloc, &mut known.entities);
    let store = made(Entities::from_entities(known.alloc, entities))?;
    known.store = if is_partial { store.partial() } else { store };
    Ok(())
}

// Does the command, where it is one of these: `context 1 record=n`, `residual $t record=t`, `request User::a Action::view ?Doc`,
// `let t 5`, `limit 4`, or one that `groups` does. Of `?` nothing is known, and of `?Doc` the type.
fn asked(
    desk: &mut Desk,
    table: &Extensions<'_>,
    verb: &str,
    rest: &str,
    wanted: &str,
    said: &mut String,
) -> Made<()> {
    let known = &mut desk.known;
    match verb {
        "context" => lay(&mut known.contexts, of_value(known.alloc, rest)),
        "residual" => lay(&mut known.contexts, residual(known.alloc, rest)),
        "request" => request(known, rest),
        "let" => bind(known, rest),
        "limit" => limit(desk, rest),
        _ => groups::done(desk, table, verb, rest, wanted, said),
    }
}

// The limit from here on.
fn limit(desk: &mut Desk, text: &str) -> Made<()> {
    desk.limit = made(text.parse::<u32>())?;
    Ok(())
}

// A name, and what the rest of the text writes: a value, or an expression that is none yet.
fn part(alloc: Global, text: &str) -> Made<(RcStr, Part)> {
    let (name, text) = two(text);
    let name = word(alloc, name)?;
    let e = expr(alloc, text)?;
    match Value::try_from_expr(alloc, &e) {
        Ok(value) => Ok((name, PartialValue::Value(value))),
        Err(_) => Ok((name, PartialValue::Residual(e))),
    }
}

// The entity of what was made for it.
fn entity(known: &mut Known, text: &str) -> Made<Entity> {
    let alloc = known.alloc;
    let attrs = all(alloc, &mut known.attrs);
    let above = all(alloc, &mut known.above);
    let (parents, tags) = (Vec::new(alloc), Vec::new(alloc));
    Entity::new_with_attr_partial_value(alloc, uid(alloc, text)?, attrs, above, parents, tags)
}

// The context of a record of values.
fn of_value(alloc: Global, text: &str) -> Made<Context> {
    match value(alloc, text)?.value_kind() {
        ValueKind::Record(fields) => Ok(Context::Value(fields.clone()?)),
        ValueKind::Lit(_) | ValueKind::Set(_) | ValueKind::ExtensionValue(_) => Err(AllocError),
    }
}

// The entry of a uid, or of what is known of its type.
fn entry(alloc: Global, text: &str) -> Made<EntityUIDEntry> {
    match text.strip_prefix("?") {
        Some("") => Ok(EntityUIDEntry::unknown()),
        Some(of) => Ok(EntityUIDEntry::unknown_with_type(entity_type(alloc, of)?, None)),
        None => EntityUIDEntry::from_entity_uid(alloc, uid(alloc, text)?),
    }
}

// The request of these entries and the last context.
fn request(known: &mut Known, text: &str) -> Made<()> {
    let alloc = known.alloc;
    let (principal, rest) = two(text);
    let (action, resource) = two(rest);
    let entries = both(entry(alloc, principal), entry(alloc, action));
    let ((principal, action), resource) = both(entries, entry(alloc, resource))?;
    let made = Request::new_unchecked(principal, action, resource, known.contexts.pop());
    lay(&mut known.requests, Ok(made))
}

// A value for an unknown.
fn bind(known: &mut Known, text: &str) -> Made<()> {
    let (name, text) = two(text);
    let (name, value) = both(word(known.alloc, name), value(known.alloc, text))?;
    known.mapping.insert(name, value)?;
    Ok(())
}

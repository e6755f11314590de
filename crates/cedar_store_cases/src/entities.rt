//! Commands that make entities and stores of them, and say what they are.

use crate::desk::{Known, Made, Part, V};
use crate::made::{all, lay, put, say_place, say_placed, top, two};
use cedar_expr_partial::PartialValue;
use cedar_expr_trees::{Expr, ExprKind};
use cedar_expr_values::ValueKind;
use cedar_store_entities::{Dereference, Entities, Entity};
use cedar_store_parts::RequestType;
use cedar_test_exprs::{entity_type, expr, kept, refused, say, show, tell, uid, value, word};
use std::alloc::{AllocError, Global};
use std::rc::RcStr;

// Does the command: what an entity is made of, as `attr age 40`, `tag spoon $t`, `above Team::all`, `parent Team::red`; `entity User::a`,
// `bare User::a`, `copy`, `shown`, `below Team::all`; or one on stores.
pub fn done(known: &mut Known, command: (&str, &str), said: &mut String) -> Made<()> {
    let (verb, rest) = command;
    let alloc = known.alloc;
    match verb {
        "attr" => lay(&mut known.attrs, part(alloc, rest)),
        "tag" => lay(&mut known.tags, part(alloc, rest)),
        "above" => lay(&mut known.above, uid(alloc, rest)),
        "parent" => lay(&mut known.parents, uid(alloc, rest)),
        "entity" => put_entity(known, rest, said),
        "bare" => lay(&mut known.entities, bare(alloc, rest)),
        "copy" => put_copy(known),
        "shown" => say_entity(alloc, said, top(known.entities.as_slice())?),
        "below" => below(known, rest, said),
        _ => stored(known, command, said),
    }
}

fn put_entity(known: &mut Known, text: &str, said: &mut String) -> Made<()> {
    let made = entity(known, text);
    put(known.alloc, said, &mut known.entities, made)
}

// The entity of a uid alone.
fn bare(alloc: Global, text: &str) -> Made<Entity> {
    Ok(Entity::with_uid(alloc, uid(alloc, text)?))
}

// Whether the uid is a recorded ancestor of the last entity.
fn below(known: &Known, text: &str, said: &mut String) -> Made<()> {
    let uid = uid(known.alloc, text)?;
    tell(said, top(known.entities.as_slice())?.is_descendant_of(&uid))
}

// A copy of the last entity.
fn put_copy(known: &mut Known) -> Made<()> {
    let made = top(known.entities.as_slice())?.clone()?;
    known.entities.push(made)?;
    Ok(())
}

// Does the command: `add_parent Team::blue`, `add_above Team::top`, `store`, `partial`, `absent User::a`, `find User::a`,
// `request_type User Action::view Doc`.
fn stored(known: &mut Known, command: (&str, &str), said: &mut String) -> Made<()> {
    let (verb, rest) = command;
    match verb {
        "add_parent" | "add_above" => add(known, verb, rest, said),
        "store" => store(known, said),
        "partial" => partial(known),
        "absent" => absent(known, rest, said),
        "find" => find(known, rest, said),
        "request_type" => request_type(known.alloc, rest, said),
        _ => grown(known, verb, said),
    }
}

// Does the command: `more`, `concrete`, `mark`, `reset`, `copy_store`, `uids`.
fn grown(known: &mut Known, verb: &str, said: &mut String) -> Made<()> {
    match verb {
        "more" => more(known, said),
        "concrete" => concrete(known),
        "mark" => mark(known),
        "reset" => reset(known),
        "copy_store" => copy_store(known),
        "uids" => uids(known, said),
        _ => Err(AllocError),
    }
}

// A name, and what the rest of the text writes: a value, or an unknown.
fn part(alloc: Global, text: &str) -> Made<(RcStr, Part)> {
    let (name, text) = two(text);
    let name = word(alloc, name)?;
    if text.starts_with('$') {
        Ok((name, PartialValue::Residual(expr(alloc, text)?)))
    } else {
        Ok((name, PartialValue::Value(value(alloc, text)?)))
    }
}

// The entity of what was made for it.
fn entity(known: &mut Known, text: &str) -> Made<Entity> {
    let alloc = known.alloc;
    let uid = uid(alloc, text)?;
    let attrs = all(alloc, &mut known.attrs);
    let tags = all(alloc, &mut known.tags);
    let above = all(alloc, &mut known.above);
    let parents = all(alloc, &mut known.parents);
    Entity::new_with_attr_partial_value(alloc, uid, attrs, above, parents, tags)
}

// Adds a parent, or an ancestor that is no parent, to the last entity.
fn add(known: &mut Known, verb: &str, rest: &str, said: &mut String) -> Made<()> {
    let uid = uid(known.alloc, rest)?;
    let entity = known.entities.last_mut().ok_or(AllocError)?;
    let added = if verb == "add_parent" {
        entity.add_parent(uid)
    } else {
        entity.add_indirect_ancestor(uid)
    };
    refused(known.alloc, said, added)
}

// Makes the whole store of the entities at hand.
fn store(known: &mut Known, said: &mut String) -> Made<()> {
    let entities = all(known.alloc, &mut known.entities);
    match Entities::from_entities(known.alloc, entities) {
        Ok(store) => {
            known.store = store;
            say(said, "done")
        }
        Err(e) => show(known.alloc, said, &e),
    }
}

// Makes the store a partial one.
fn partial(known: &mut Known) -> Made<()> {
    let mut store = Entities::new(known.alloc);
    std::mem::swap(&mut store, &mut known.store);
    known.store = store.partial();
    Ok(())
}

// Makes the store a whole one.
fn concrete(known: &mut Known) -> Made<()> {
    let mut store = Entities::new(known.alloc);
    std::mem::swap(&mut store, &mut known.store);
    known.store = store.concrete();
    Ok(())
}

// Adds the entities at hand to the store.
fn more(known: &mut Known, said: &mut String) -> Made<()> {
    let entities = all(known.alloc, &mut known.entities);
    let added = known.store.add_new(entities);
    refused(known.alloc, said, added)
}

// Marks the store, and takes it back to the mark.
fn mark(known: &mut Known) -> Made<()> {
    known.mark = known.store.mark();
    Ok(())
}

fn reset(known: &mut Known) -> Made<()> {
    known.store.reset(known.mark);
    Ok(())
}

// A copy in the place of the store.
fn copy_store(known: &mut Known) -> Made<()> {
    known.store = known.store.clone()?;
    Ok(())
}

// The uids of the entities of the store.
fn uids(known: &Known, said: &mut String) -> Made<()> {
    for entity in known.store.iter() {
        show(known.alloc, said, entity.uid())?;
    }
    Ok(())
}

// Records that there is no entity of a uid.
fn absent(known: &mut Known, text: &str, said: &mut String) -> Made<()> {
    let uid = uid(known.alloc, text)?;
    let recorded = known.store.add_absent(uid);
    refused(known.alloc, said, recorded)
}

// What the store answers for a uid.
fn find(known: &Known, text: &str, said: &mut String) -> Made<()> {
    let uid = uid(known.alloc, text)?;
    match known.store.entity(known.alloc, &uid)? {
        Dereference::Data(entity) => say_entity(known.alloc, said, entity),
        Dereference::Residual(e) => say_residual(known.alloc, said, &e),
        Dereference::NoSuchEntity => say(said, "none"),
    }
}

// The text of an unknown, of its annotation and of its place.
fn say_residual(alloc: Global, said: &mut String, e: &Expr) -> Made<()> {
    let ExprKind::Unknown(u) = e.expr_kind() else {
        return Err(AllocError);
    };
    show(alloc, said, u)?;
    if let Some(of) = &u.type_annotation {
        show(alloc, said, of)?;
    }
    say_place(alloc, said, e.source_loc())
}

// The text of a value: of a literal its own, else the kind and how many stand in it.
fn say_value(alloc: Global, said: &mut String, v: &V) -> Made<()> {
    let (kind, count) = match v.value_kind() {
        ValueKind::Lit(literal) => return show(alloc, said, literal),
        ValueKind::Set(members) => ("set of", members.len()),
        ValueKind::Record(fields) => ("record of", fields.as_map().len()),
        ValueKind::ExtensionValue(_) => return say(said, "extension value"),
    };
    say(said, kind)?;
    show(alloc, said, &count)
}

// A name, and the text of what it has.
fn say_part(alloc: Global, said: &mut String, name: &str, part: &Part) -> Made<()> {
    say(said, name)?;
    match part {
        PartialValue::Value(v) => say_value(alloc, said, v),
        PartialValue::Residual(e) => say_residual(alloc, said, e),
    }
}

// An entity's uid, its attributes, its tags, and its ancestors, each with whether it is a parent, uids with their places.
fn say_entity(alloc: Global, said: &mut String, it: &Entity) -> Made<()> {
    say_placed(alloc, said, it.uid())?;
    for (name, part) in it.attrs() {
        say_part(alloc, said, name.as_str(), part)?;
    }
    for (name, part) in it.tags() {
        say(said, "tag")?;
        say_part(alloc, said, name.as_str(), part)?;
    }
    for uid in it.ancestors() {
        let is_parent = it.is_child_of(uid);
        say(said, if is_parent { "parent" } else { "above" })?;
        say_placed(alloc, said, uid)?;
    }
    Ok(())
}

// A copy of the types and the action of a request.
fn request_type(alloc: Global, rest: &str, said: &mut String) -> Made<()> {
    let (principal, rest) = two(rest);
    let (action, resource) = two(rest);
    let made = RequestType {
        principal: entity_type(alloc, principal)?,
        action: uid(alloc, action)?,
        resource: entity_type(alloc, resource)?,
    };
    let copy = kept(alloc, made.clone())?;
    show(alloc, said, &copy.principal)?;
    show(alloc, said, &copy.action)?;
    show(alloc, said, &copy.resource)
}

//! Commands that make what policies are made of.

use crate::desk::{Made, Parts};
use crate::made::{shared, two};
use cedar_expr_leaves::SlotId;
use cedar_expr_names::{AnyId, EntityUID, Loc};
use cedar_store_policies::{
    ActionConstraint, Annotation, Annotations, EntityReference, PrincipalOrResourceConstraint,
};
use cedar_test_exprs::{entity_type, expr, made, placed, word};
use std::alloc::{AllocError, Global};
use std::rc::Rc;

// What is asked, with commas between the parts of a scope, as `principal in User::a, resource == ?resource`. Of a part that lacks nothing
// is asked. A slot may have its place behind it, as `?resource@3`.
pub fn scope(parts: &mut Parts, text: &str) -> Made<()> {
    for part in text.split(", ") {
        if !part.is_empty() {
            scope_part(parts, part)?;
        }
    }
    Ok(())
}

fn scope_part(parts: &mut Parts, text: &str) -> Made<()> {
    let (variable, rest) = two(text);
    let alloc = parts.alloc;
    match variable {
        "principal" => parts.principals.push(asked(alloc, rest)?)?,
        "action" => parts.actions.push(asked_of_action(alloc, rest)?)?,
        "resource" => parts.resources.push(asked(alloc, rest)?)?,
        _ => return Err(AllocError),
    }
    Ok(())
}

// What is asked of principal or resource.
fn asked(alloc: Global, text: &str) -> Made<PrincipalOrResourceConstraint> {
    match two(text) {
        ("==", rest) => Ok(PrincipalOrResourceConstraint::Eq(named(alloc, rest)?)),
        ("in", rest) => Ok(PrincipalOrResourceConstraint::In(named(alloc, rest)?)),
        ("is", rest) => of_type(alloc, rest),
        _ => Ok(PrincipalOrResourceConstraint::Any),
    }
}

// The slot of the part, at its place; or the entity of this uid.
fn named(alloc: Global, text: &str) -> Made<EntityReference> {
    if text.starts_with('?') {
        let place: Option<Loc> = placed(text).1;
        return Ok(EntityReference::Slot(place));
    }
    Ok(EntityReference::EUID(shared(alloc, text)?))
}

// That it is of this type, and where something stands behind `in`, in what is named there.
fn of_type(alloc: Global, text: &str) -> Made<PrincipalOrResourceConstraint> {
    let (of, within) = text.split_once(" in ").unwrap_or((text, ""));
    let of = Rc::new(alloc, entity_type(alloc, of)?)?;
    if within.is_empty() {
        return Ok(PrincipalOrResourceConstraint::Is(of));
    }
    let within = named(alloc, within)?;
    Ok(PrincipalOrResourceConstraint::IsIn(of, within))
}

// What is asked of the action; behind `in` stand actions with spaces between them.
fn asked_of_action(alloc: Global, text: &str) -> Made<ActionConstraint> {
    match two(text) {
        ("==", rest) => Ok(ActionConstraint::Eq(shared(alloc, rest)?)),
        ("in", rest) => Ok(ActionConstraint::In(actions(alloc, rest)?)),
        _ => Ok(ActionConstraint::Any),
    }
}

fn actions(alloc: Global, text: &str) -> Made<Vec<Rc<EntityUID>>> {
    let mut actions = Vec::new(alloc);
    for text in text.split(' ') {
        actions.push(shared(alloc, text)?)?;
    }
    Ok(actions)
}

pub fn body(parts: &mut Parts, text: &str) -> Made<()> {
    parts.bodies.push(expr(parts.alloc, text)?)?;
    Ok(())
}

// Adds an annotation of a name and a text to those at hand.
pub fn note(parts: &mut Parts, rest: &str) -> Made<()> {
    let (name, text) = two(rest);
    let alloc = parts.alloc;
    let mut notes = parts.notes.pop().unwrap_or(Annotations::new(alloc));
    let name = made(AnyId::from_normalized_str(alloc, name))?;
    let val = word(alloc, text)?;
    notes.insert(name, Annotation { val, loc: None })?;
    parts.notes.push(notes)?;
    Ok(())
}

// Binds the principal's or the resource's slot to a uid, as `principal User::a`.
pub fn bind(parts: &mut Parts, rest: &str) -> Made<()> {
    let (variable, text) = two(rest);
    let uid = shared(parts.alloc, text)?;
    parts.bound.insert(slot(variable), uid);
    Ok(())
}

// The slot of the variable.
pub fn slot(variable: &str) -> SlotId {
    if variable == "principal" {
        SlotId::principal()
    } else {
        SlotId::resource()
    }
}

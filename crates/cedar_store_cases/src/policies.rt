//! Commands that make templates and policies of the parts at hand.

use crate::desk::{Command, Known, Made, Parts};
use crate::made::{lay, put};
use crate::parts::{bind, body, note, scope};
use crate::sets;
use cedar_store_policies::{
    ActionConstraint, Annotations, Effect, Policy, PolicyID, PrincipalConstraint,
    PrincipalOrResourceConstraint, ResourceConstraint, SlotEnv, StaticPolicy, Template,
    UnexpectedSlotError,
};
use cedar_test_exprs::one;
use std::alloc::{AllocError, Global};
use std::rc::Rc;

// Does the command: `forbid`, `scope principal in User::a, resource == ?resource`, `body context .n`, `note name text`,
// `bind principal User::a`, `template t`, `static z`, `whole`, `when p`, `linked l`, `get l`, or one on sets of policies.
pub fn done(
    parts: &mut Parts,
    known: &mut Known,
    command: Command<'_>,
    said: &mut String,
) -> Made<()> {
    let (verb, rest, _) = command;
    match verb {
        "forbid" => forbid(parts),
        "scope" => scope(parts, rest),
        "body" => body(parts, rest),
        "note" => note(parts, rest),
        "bind" => bind(parts, rest),
        "template" => put_template(parts, rest, said),
        "static" => put_static(parts, rest, said),
        "whole" => put_whole(parts),
        "when" => put_when(parts, rest),
        "linked" => put_linked(parts, rest),
        "get" => put_copy(parts, rest),
        _ => sets::done(parts, known, command, said),
    }
}

fn forbid(parts: &mut Parts) -> Made<()> {
    parts.effect = Effect::Forbid;
    Ok(())
}

fn put_template(parts: &mut Parts, id: &str, said: &mut String) -> Made<()> {
    let made = made(parts, id);
    put(parts.alloc, said, &mut parts.templates, made)
}

fn put_static(parts: &mut Parts, id: &str, said: &mut String) -> Made<()> {
    let made = bare(parts, id);
    put(parts.alloc, said, &mut parts.bare, made)
}

// The last static policy, as one that may stand among linked ones.
fn put_whole(parts: &mut Parts) -> Made<()> {
    let bare = one(&mut parts.bare)?;
    lay(
        &mut parts.policies,
        Policy::from_static_policy(parts.alloc, bare),
    )
}

// The policy of the last body.
fn put_when(parts: &mut Parts, text: &str) -> Made<()> {
    let made = when(parts, text);
    lay(&mut parts.policies, made)
}

fn put_linked(parts: &mut Parts, text: &str) -> Made<()> {
    let made = linked(parts, text);
    lay(&mut parts.policies, made)
}

fn put_copy(parts: &mut Parts, text: &str) -> Made<()> {
    let made = copied(parts, text);
    lay(&mut parts.policies, made)
}

/// The template `p` of this scope, written as in the rows, and this body. Fails where they write none, and when out of memory.
pub fn template(alloc: Global, asked: &str, text: &str) -> Made<Template> {
    let mut parts = Parts::new(alloc);
    scope(&mut parts, asked)?;
    body(&mut parts, text)?;
    made(&mut parts, "p")
}

// The template of the last scope, annotations and body.
fn made(parts: &mut Parts, text: &str) -> Made<Template> {
    let alloc = parts.alloc;
    let id = PolicyID::from_string(alloc, text)?;
    let principal = parts
        .principals
        .pop()
        .unwrap_or(PrincipalOrResourceConstraint::Any);
    let resource = parts
        .resources
        .pop()
        .unwrap_or(PrincipalOrResourceConstraint::Any);
    Template::new(
        alloc,
        id,
        None,
        parts.notes.pop().unwrap_or(Annotations::new(alloc)),
        parts.effect,
        PrincipalConstraint {
            constraint: principal,
        },
        parts.actions.pop().unwrap_or(ActionConstraint::Any),
        ResourceConstraint {
            constraint: resource,
        },
        parts.bodies.pop(),
    )
}

// The policy of these, where no slot stands in them.
fn bare(parts: &mut Parts, text: &str) -> Result<StaticPolicy, UnexpectedSlotError> {
    let alloc = parts.alloc;
    let id = PolicyID::from_string(alloc, text)?;
    let principal = parts
        .principals
        .pop()
        .unwrap_or(PrincipalOrResourceConstraint::Any);
    let resource = parts
        .resources
        .pop()
        .unwrap_or(PrincipalOrResourceConstraint::Any);
    StaticPolicy::new(
        alloc,
        id,
        None,
        parts.notes.pop().unwrap_or(Annotations::new(alloc)),
        parts.effect,
        PrincipalConstraint {
            constraint: principal,
        },
        parts.actions.pop().unwrap_or(ActionConstraint::Any),
        ResourceConstraint {
            constraint: resource,
        },
        parts.bodies.pop(),
    )
}

// The policy of the last body.
fn when(parts: &mut Parts, text: &str) -> Made<Policy> {
    let id = PolicyID::from_string(parts.alloc, text)?;
    let body = one(&mut parts.bodies)?;
    Policy::from_when_clause(parts.alloc, parts.effect, body, id, None)
}

// What the slots are bound to. They aren't bound any more.
pub fn bound(parts: &mut Parts) -> SlotEnv {
    let mut bound = SlotEnv::new();
    std::mem::swap(&mut bound, &mut parts.bound);
    bound
}

// The last template under this id, or under its own where there is none, with what the slots are bound to.
fn linked(parts: &mut Parts, text: &str) -> Made<Policy> {
    let template = Rc::new(parts.alloc, one(&mut parts.templates)?)?;
    if text.is_empty() {
        return Ok(Policy::new(template, None, bound(parts)));
    }
    let id = PolicyID::from_string(parts.alloc, text)?;
    Ok(Policy::new(template, Some(id), bound(parts)))
}

// A copy of the set's policy of this id.
fn copied(parts: &Parts, text: &str) -> Made<Policy> {
    let id = PolicyID::from_string(parts.alloc, text)?;
    match parts.set.get(&id) {
        Some(policy) => policy.clone(),
        None => Err(AllocError),
    }
}

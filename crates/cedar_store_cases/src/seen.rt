//! Commands that say what the last policy is, and texts of refusals.

use crate::desk::{Command, Known, Made, Parts};
use crate::entities;
use crate::made::top;
use crate::sets::say_policy;
use cedar_expr_trees::Expr;
use cedar_store_entities::EntitiesError;
use cedar_store_policies::{
    LinkingError, Policy, PolicySetError, PrincipalOrResource, UnexpectedSlotError,
};
use cedar_test_exprs::{is, show};
use std::alloc::{AllocError, Global};

// Does the command, where it is one of these. Of `policy` the answer is its text; of `condition`, `asked principal` and its like an
// expression, with its places.
pub fn done(
    parts: &mut Parts,
    known: &mut Known,
    command: Command<'_>,
    said: &mut String,
) -> Made<()> {
    let (verb, rest, wanted) = command;
    match verb {
        "policy" => say_policy(said, top(parts.policies.as_slice())?),
        "condition" => condition(parts, wanted, said),
        "asked" => constraint(parts, rest, wanted, said),
        "texts" => texts(parts.alloc, said),
        _ => entities::done(known, (verb, rest), said),
    }
}

// The condition of the last policy.
fn condition(parts: &Parts, wanted: &str, said: &mut String) -> Made<()> {
    let policy = top(parts.policies.as_slice())?;
    is(parts.alloc, said, policy.condition().clone(), wanted)
}

// What the last policy asks of the variable.
fn constraint(parts: &Parts, variable: &str, wanted: &str, said: &mut String) -> Made<()> {
    let policy = top(parts.policies.as_slice())?;
    is(
        parts.alloc,
        said,
        asked(parts.alloc, policy, variable),
        wanted,
    )
}

// What the policy asks of the variable.
fn asked(alloc: Global, policy: &Policy, variable: &str) -> Made<Expr> {
    match variable {
        "principal" => {
            let asked = policy.principal_constraint()?;
            asked
                .constraint
                .as_expr(alloc, PrincipalOrResource::Principal)
        }
        "resource" => {
            let asked = policy.resource_constraint()?;
            asked
                .constraint
                .as_expr(alloc, PrincipalOrResource::Resource)
        }
        "action" => policy.action_constraint().as_expr(alloc),
        _ => Err(AllocError),
    }
}

// What refusals when out of memory say, of a static policy, a set, a link and a store.
fn texts(alloc: Global, said: &mut String) -> Made<()> {
    show(alloc, said, &UnexpectedSlotError::OutOfMemory)?;
    show(alloc, said, &PolicySetError::OutOfMemory)?;
    show(alloc, said, &LinkingError::OutOfMemory)?;
    show(alloc, said, &EntitiesError::OutOfMemory)
}

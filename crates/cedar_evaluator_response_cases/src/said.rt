//! What is said of expressions, policies and ids.

use crate::desk::Made;
use cedar_expr_trees::Expr;
use cedar_store_policies::{Effect, Policy, PolicyID};
use cedar_test_exprs::{expr, say, show};
use std::alloc::{AllocError, Global};
use std::fmt::Display;

// What was made, laid on the pile. Says why it wasn't made.
pub fn put<T: Drop, E: Display + Drop>(
    alloc: Global,
    said: &mut String,
    pile: &mut Vec<T>,
    made: Result<T, E>,
) -> Made<()> {
    match made {
        Ok(made) => {
            pile.push(made)?;
            say(said, "done")
        }
        Err(e) => show(alloc, said, &e),
    }
}

// Lays what was made on the pile. Fails where it wasn't made.
pub fn lay<T: Drop>(pile: &mut Vec<T>, made: Made<T>) -> Made<()> {
    pile.push(made?)?;
    Ok(())
}

// The last of the pile, left there.
pub fn top<T>(pile: &[T]) -> Made<&T> {
    pile.last().ok_or(AllocError)
}

// The whole pile.
pub fn all<T: Drop>(alloc: Global, pile: &mut Vec<T>) -> Vec<T> {
    let mut taken = Vec::new(alloc);
    std::mem::swap(&mut taken, pile);
    taken
}

// Both words of a text, the second empty where there is one alone.
pub fn two(text: &str) -> (&str, &str) {
    text.split_once(' ').unwrap_or((text, ""))
}

// Says the expression that is wanted, where it is the one that was found.
pub fn same(alloc: Global, said: &mut String, found: &Expr, wanted: &str) -> Made<()> {
    if *found == expr(alloc, wanted)? {
        say(said, wanted)
    } else {
        say(said, "another expression")
    }
}

// Says the policy's effect, its id, and its annotations.
pub fn say_policy(said: &mut String, policy: &Policy) -> Made<()> {
    let effect = match policy.effect() {
        Effect::Permit => "permit",
        Effect::Forbid => "forbid",
    };
    say(said, effect)?;
    say(said, policy.id().as_str())?;
    for (name, note) in policy.annotations() {
        say(said, name.as_str())?;
        say(said, note.val.as_str())?;
    }
    Ok(())
}

// Says policies; of none `nothing`.
pub fn say_policies(said: &mut String, policies: &[Policy]) -> Made<()> {
    if policies.is_empty() {
        return say(said, "nothing");
    }
    for policy in policies {
        say_policy(said, policy)?;
    }
    Ok(())
}

// Says ids; of none `nothing`.
pub fn say_ids(said: &mut String, ids: &[&PolicyID]) -> Made<()> {
    if ids.is_empty() {
        return say(said, "nothing");
    }
    for id in ids {
        say(said, id.as_str())?;
    }
    Ok(())
}

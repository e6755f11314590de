//! Commands that evaluate a policy by itself.

use crate::answers;
use crate::desk::{Desk, Made};
use crate::said::{same, top};
use cedar_evaluator_core::Evaluator;
use cedar_expr_functions::Extensions;
use cedar_expr_trees::Expr;
use cedar_store_policies::Policy;
use cedar_test_exprs::{say, show};
use either::Either;
use std::alloc::{AllocError, Global};
use std::fmt::Display;

// Does the command, where it is one of these: `truth p`, whether the policy is true; `verdict p`, whether it is, or what is left of it.
// Of what is left the answer is an expression. Or does one that `answers` does.
pub fn done(
    desk: &Desk,
    table: &Extensions<'_>,
    verb: &str,
    rest: &str,
    wanted: &str,
    said: &mut String,
) -> Made<()> {
    match verb {
        "truth" => verdict(desk, table, rest, wanted, said, true),
        "verdict" => verdict(desk, table, rest, wanted, said, false),
        _ => {
            let response = top(desk.responses.as_slice())?;
            answers::done(desk.known.alloc, response, verb, rest, wanted, said)
        }
    }
}

// The policy of this id.
fn named<'a>(policies: &'a [Policy], id: &str) -> Made<&'a Policy> {
    for policy in policies {
        if policy.id().as_str() == id {
            return Ok(policy);
        }
    }
    Err(AllocError)
}

// Says a truth value.
fn tell(said: &mut String, is_true: bool) -> Made<()> {
    say(said, if is_true { "true" } else { "false" })
}

// Says whether the policy is true; or, where it need not be wholly known, what is left of it.
fn verdict(
    desk: &Desk,
    table: &Extensions<'_>,
    id: &str,
    wanted: &str,
    said: &mut String,
    is_whole: bool,
) -> Made<()> {
    let alloc = desk.known.alloc;
    let policy = named(desk.policies.as_slice(), id)?;
    let request = desk.known.request()?;
    let evaluator = Evaluator::new(request, &desk.known.store, table, desk.limit);
    let found = if is_whole {
        match evaluator.evaluate(alloc, policy) {
            Ok(is_true) => Ok(Either::Left(is_true)),
            Err(error) => Err(error),
        }
    } else {
        evaluator.partial_evaluate(alloc, policy)
    };
    say_verdict(alloc, said, found, wanted)
}

// Says a truth value, the expression that is left, or why there is neither.
fn say_verdict<E: Display + Drop>(
    alloc: Global,
    said: &mut String,
    found: Result<Either<bool, Expr>, E>,
    wanted: &str,
) -> Made<()> {
    match found {
        Ok(Either::Left(is_true)) => tell(said, is_true),
        Ok(Either::Right(e)) => same(alloc, said, &e, wanted),
        Err(error) => show(alloc, said, &error),
    }
}

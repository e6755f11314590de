//! Commands that ask the last response.

use crate::desk::Made;
use crate::responses::decision_text;
use crate::said::{same, say_ids, say_policies, say_policy};
use cedar_evaluator::PartialResponse;
use cedar_evaluator_requests::EntityUIDEntry;
use cedar_store_policies::{ActionConstraint, Policy, PolicyID, PrincipalOrResourceConstraint};
use cedar_test_exprs::{say, show};
use std::alloc::{AllocError, Global};

// Does the command: `decision`, `satisfied`, `may`, `must`, `left`, `left_forbids`, `all`, `erred`, `left_ids`, `get p`, `scope p`, `body p`,
// `asked`. Of `body` the answer is an expression. Fails where it is none of these.
pub fn done(
    alloc: Global,
    response: &PartialResponse,
    verb: &str,
    rest: &str,
    wanted: &str,
    said: &mut String,
) -> Made<()> {
    match verb {
        "decision" => decision(response, said),
        "erred" => {
            let ids = response.definitely_errored(alloc)?;
            say_ids(said, ids.as_slice())
        }
        "left_ids" => {
            let ids = response.nontrivial_residual_ids(alloc)?;
            say_ids(said, ids.as_slice())
        }
        "get" => found(alloc, response, rest, said),
        "scope" => scope(alloc, response, rest, said),
        "body" => body(alloc, response, rest, wanted, said),
        "asked" => asked(alloc, response, said),
        _ => listed(alloc, response, verb, said),
    }
}

// Says policies of the response.
fn listed(alloc: Global, response: &PartialResponse, verb: &str, said: &mut String) -> Made<()> {
    let policies = match verb {
        "satisfied" => response.definitely_satisfied(alloc),
        "may" => response.may_be_determining(alloc),
        "must" => response.must_be_determining(alloc),
        "left" => response.nontrivial_residuals(alloc),
        "left_forbids" => response.nontrivial_forbids(alloc),
        "all" => response.all_residuals(alloc),
        _ => Err(AllocError),
    };
    say_policies(said, policies?.as_slice())
}

// Says the decision, and whether the limit was met.
fn decision(response: &PartialResponse, said: &mut String) -> Made<()> {
    say(said, response.decision().map_or("None", decision_text))?;
    if response.met_limit() {
        say(said, "at the limit")?;
    }
    Ok(())
}

// The policy of an id.
fn of_id(alloc: Global, response: &PartialResponse, id: &str) -> Made<Option<Policy>> {
    let id = PolicyID::from_string(alloc, id)?;
    response.get(alloc, &id)
}

// Says the policy of an id.
fn found(alloc: Global, response: &PartialResponse, id: &str, said: &mut String) -> Made<()> {
    match of_id(alloc, response, id)? {
        Some(policy) => say_policy(said, &policy),
        None => say(said, "nothing"),
    }
}

fn scope(alloc: Global, response: &PartialResponse, id: &str, said: &mut String) -> Made<()> {
    let policy = of_id(alloc, response, id)?.ok_or(AllocError)?;
    say_scope(said, &policy)
}

// Says what the policy asks of principal, action and resource.
fn say_scope(said: &mut String, policy: &Policy) -> Made<()> {
    say_constraint(said, &policy.principal_constraint()?.constraint)?;
    say(
        said,
        match policy.action_constraint() {
            ActionConstraint::Any => "any",
            ActionConstraint::In(_) => "in",
            ActionConstraint::Eq(_) => "==",
        },
    )?;
    say_constraint(said, &policy.resource_constraint()?.constraint)
}

fn say_constraint(said: &mut String, asked: &PrincipalOrResourceConstraint) -> Made<()> {
    say(
        said,
        match asked {
            PrincipalOrResourceConstraint::Any => "any",
            PrincipalOrResourceConstraint::In(_) => "in",
            PrincipalOrResourceConstraint::Eq(_) => "==",
            PrincipalOrResourceConstraint::Is(_) => "is",
            PrincipalOrResourceConstraint::IsIn(_, _) => "is in",
        },
    )
}

// What the policy of an id asks beside its scope.
fn body(
    alloc: Global,
    response: &PartialResponse,
    id: &str,
    wanted: &str,
    said: &mut String,
) -> Made<()> {
    let policy = of_id(alloc, response, id)?.ok_or(AllocError)?;
    match policy.non_scope_constraints() {
        Some(body) => same(alloc, said, body, wanted),
        None => say(said, "no body"),
    }
}

// Says the uids of the response's request; of an unknown one its type, if that is known.
fn asked(alloc: Global, response: &PartialResponse, said: &mut String) -> Made<()> {
    let request = response.request();
    say_entry(alloc, said, request.principal())?;
    say_entry(alloc, said, request.action())?;
    say_entry(alloc, said, request.resource())
}

fn say_entry(alloc: Global, said: &mut String, entry: &EntityUIDEntry) -> Made<()> {
    match entry.uid() {
        Some(uid) => show(alloc, said, uid),
        None => match entry.get_type() {
            Some(of) => show(alloc, said, of),
            None => say(said, "?"),
        },
    }
}

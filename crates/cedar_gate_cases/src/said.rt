//! What calls come to, said in words.

use crate::setup::Made;
use cedar_evaluator_requests::{AuthorizationError, Decision, Response};
use cedar_expr_names::EntityUID;
use cedar_gate::Bounds;
use cedar_store_parts::PolicyID;
use cedar_test_exprs::{say, show};
use std::alloc::Global;

/// Whether what is said is what the row wants, which stands behind ` : `; one that wants `..` takes anything. Where it isn't, the row is
/// said too.
pub fn is_wanted(said: &mut String, row: &str) -> Made<bool> {
    let (_, wanted) = row.split_once(" : ").unwrap_or((row, ""));
    if said.as_str() == wanted || wanted == ".." {
        return Ok(true);
    }
    say(said, "is what is said in the row")?;
    say(said, row)?;
    Ok(false)
}

/// Says the uids, or that there is none.
pub fn say_uids(alloc: Global, said: &mut String, uids: &[EntityUID]) -> Made<()> {
    if uids.is_empty() {
        return say(said, "nothing");
    }
    for it in uids {
        show(alloc, said, it)?;
    }
    Ok(())
}

/// Says the uids of a round.
pub fn say_round(alloc: Global, said: &mut String, uids: &[EntityUID]) -> Made<()> {
    say(said, "round")?;
    say_uids(alloc, said, uids)
}

/// Says the uids of each round.
pub fn say_rounds(alloc: Global, said: &mut String, rounds: &[Vec<EntityUID>]) -> Made<()> {
    if rounds.is_empty() {
        return say(said, "nothing");
    }
    for uids in rounds {
        say_round(alloc, said, uids.as_slice())?;
    }
    Ok(())
}

fn say_ids(said: &mut String, ids: &[PolicyID]) -> Made<()> {
    for it in ids {
        say(said, it.as_str())?;
    }
    Ok(())
}

/// Says the ids, or that there is none.
pub fn say_policies(said: &mut String, ids: &[PolicyID]) -> Made<()> {
    if ids.is_empty() {
        return say(said, "none");
    }
    say_ids(said, ids)
}

/// Says that a call was done, or the number of its refusal.
pub fn say_done(alloc: Global, said: &mut String, refused: Option<u32>) -> Made<()> {
    match refused {
        None => say(said, "done"),
        Some(number) => {
            say(said, "refused")?;
            show(alloc, said, &number)
        }
    }
}

/// The word for a decision.
pub fn decision_word(decision: Option<Decision>) -> &'static str {
    match decision {
        None => "None",
        Some(Decision::Allow) => "Allow",
        Some(Decision::Deny) => "Deny",
    }
}

/// Says the bounds.
pub fn say_bounds(said: &mut String, bounds: &Bounds) -> Made<()> {
    say(said, "must")?;
    say_ids(said, bounds.must.as_slice())?;
    say(said, "may")?;
    say_ids(said, bounds.may.as_slice())
}

/// Says the decision, the reasons and the errors of a response.
pub fn say_response(alloc: Global, said: &mut String, response: &Response) -> Made<()> {
    say(said, decision_word(Some(response.decision)))?;
    for it in response.diagnostics.reason.iter() {
        say(said, it.as_str())?;
    }
    say_errors(alloc, said, response.diagnostics.errors.as_slice())
}

fn say_errors(alloc: Global, said: &mut String, errors: &[AuthorizationError]) -> Made<()> {
    for it in errors {
        say(said, "error")?;
        show(alloc, said, it)?;
    }
    Ok(())
}

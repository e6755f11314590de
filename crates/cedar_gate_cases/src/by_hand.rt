//! What a service does that fetches its entities itself, round by round, as the README shows it.

use crate::hosts::fetched;
use crate::said::{decision_word, say_uids};
use crate::setup::Made;
use cedar_evaluator_requests::{Decision, Request};
use cedar_gate::{Gate, Host, Session};
use cedar_test_exprs::{made, say};
use std::alloc::Global;

/// Says what is loaded by hand, and the decision.
pub fn say_loaded<H: Host>(
    alloc: Global,
    gate: &Gate<'_, '_, '_>,
    request: &Request,
    host: &mut H,
    said: &mut String,
) -> Made<()> {
    let mut session = made(gate.open(alloc, request.clone()?))?;
    let decision = decided(alloc, &mut session, gate.level(), host, said);
    drop(session);
    say(said, decision_word(Some(decision?)))
}

// Loads round by round, says what was loaded, and gives the decision as soon as there is one.
fn decided<H: Host>(
    alloc: Global,
    session: &mut Session<'_>,
    level: u32,
    host: &mut H,
    said: &mut String,
) -> Made<Decision> {
    for _ in 0..level {
        if session.wanted().is_empty() {
            break;
        }
        say_uids(alloc, said, session.wanted())?;
        let entities = fetched(alloc, host, session.wanted())?;
        made(session.supply(alloc, entities))?;
        if let Some(decision) = session.decision(alloc)? {
            return Ok(decision);
        }
    }
    let response = made(session.answer(alloc))?;
    Ok(response.decision)
}

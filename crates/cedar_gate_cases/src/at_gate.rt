//! Rows at a gate: a call, and behind ` : ` what it comes to.

use crate::by_hand::say_loaded;
use crate::hosts::KeepsRounds;
use crate::runs::say_run;
use crate::said::{is_wanted, say_done, say_policies, say_rounds};
use crate::setup::{Made, entity, entity_with_unknown, parted, request};
use cedar_evaluator_requests::Request;
use cedar_gate::{ConformFault, Gate, check_entity, check_request};
use cedar_store_parts::RequestType;
use cedar_test_exprs::{both, entity_type, say, show, uid};
use std::alloc::{AllocError, Global};

/// Whether all rows say what stands in them; the first that says something else is said.
pub fn hold<H: KeepsRounds>(
    alloc: Global,
    gate: &Gate<'_, '_, '_>,
    asked: &Request,
    host: &mut H,
    rows: &str,
    said: &mut String,
) -> Made<bool> {
    for row in rows.lines() {
        let (command, _) = row.split_once(" : ").unwrap_or((row, ""));
        said.clear();
        done(alloc, gate, asked, host, command, said)?;
        if !is_wanted(said, row)? {
            return Ok(false);
        }
    }
    Ok(true)
}

// Does one command, and says what it comes to. Of the row of `accept` the verb is cut off.
fn done<H: KeepsRounds>(
    alloc: Global,
    gate: &Gate<'_, '_, '_>,
    asked: &Request,
    host: &mut H,
    command: &str,
    said: &mut String,
) -> Made<()> {
    let (verb, rest) = parted(command);
    match verb {
        "" => say(said, "done"),
        "warnings" => say_policies(said, gate.warnings()),
        "policies_for" => say_policies_for(alloc, gate, rest, said),
        "open" => say_opened(alloc, gate, asked, said),
        "run" => say_run(alloc, gate, asked, host, rest, said),
        "by_hand" => say_loaded(alloc, gate, asked, host, said),
        "asked" => say_rounds(alloc, said, host.rounds()),
        "failures" => show(alloc, said, &host.failures()),
        _ => say_checked(alloc, gate, verb, rest, said),
    }
}

// Says which policies may decide a request of these types: `User Action::view Doc`.
fn say_policies_for(
    alloc: Global,
    gate: &Gate<'_, '_, '_>,
    words: &str,
    said: &mut String,
) -> Made<()> {
    let (principal, rest) = parted(words);
    let (action, resource) = parted(rest);
    let (principal, resource) = both(entity_type(alloc, principal), entity_type(alloc, resource))?;
    let kind = RequestType {
        principal,
        action: uid(alloc, action)?,
        resource,
    };
    let ids = gate.policies_for(alloc, &kind)?;
    say_policies(said, ids.as_slice())
}

// Says that a session of the request is opened, or the number of the refusal.
fn say_opened(
    alloc: Global,
    gate: &Gate<'_, '_, '_>,
    asked: &Request,
    said: &mut String,
) -> Made<()> {
    let refused = match gate.open(alloc, asked.clone()?) {
        Ok(_) => None,
        Err(fault) => Some(fault.number()),
    };
    say_done(alloc, said, refused)
}

// Says whether an entity or a request conforms, or the number of what is wrong.
fn say_checked(
    alloc: Global,
    gate: &Gate<'_, '_, '_>,
    verb: &str,
    rest: &str,
    said: &mut String,
) -> Made<()> {
    let refused = match checked(alloc, gate, verb, rest)? {
        Ok(()) => None,
        Err(fault) => Some(fault.number()),
    };
    say_done(alloc, said, refused)
}

fn checked(
    alloc: Global,
    gate: &Gate<'_, '_, '_>,
    verb: &str,
    rest: &str,
) -> Made<Result<(), ConformFault>> {
    match verb {
        "check_entity" => Ok(check_entity(gate.schema(), &entity(alloc, gate.table(), rest)?)),
        "check_unknown" => Ok(check_entity(gate.schema(), &entity_with_unknown(alloc, rest)?)),
        "check_request" => Ok(check_request(gate.schema(), &request(alloc, gate.table(), rest)?)),
        _ => Err(AllocError),
    }
}

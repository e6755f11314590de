//! Rows in a session: a call, and behind ` : ` what it comes to.

use crate::hosts::answers;
use crate::said::{decision_word, is_wanted, say_bounds, say_done, say_response, say_uids};
use crate::setup::{Made, parted};
use cedar_expr_functions::Extensions;
use cedar_gate::{Host, Session};
use cedar_test_exprs::{both, say, value, word};
use std::alloc::Global;

/// Whether all rows say what stands in them; the first that says something else is said.
pub fn hold<H: Host>(
    alloc: Global,
    session: &mut Session<'_>,
    table: &Extensions<'_>,
    host: &mut H,
    rows: &str,
    said: &mut String,
) -> Made<bool> {
    for row in rows.lines() {
        let (command, _) = row.split_once(" : ").unwrap_or((row, ""));
        said.clear();
        done(alloc, session, table, host, command, said)?;
        if !is_wanted(said, row)? {
            return Ok(false);
        }
    }
    Ok(true)
}

// Does one command, and says what it comes to.
fn done<H: Host>(
    alloc: Global,
    session: &mut Session<'_>,
    table: &Extensions<'_>,
    host: &mut H,
    command: &str,
    said: &mut String,
) -> Made<()> {
    let (verb, rest) = parted(command);
    match verb {
        "wanted" => say_uids(alloc, said, session.wanted()),
        "decision" => say(said, decision_word(session.decision(alloc)?)),
        "bounds" => bounds(alloc, session, said),
        "answer" => answer(alloc, session, said),
        "supply" => supply(alloc, session, table, host, rest, said),
        "bind" => bind(alloc, session, rest, said),
        _ => say(said, "no such command"),
    }
}

// Supplies the answers that these words write.
fn supply<H: Host>(
    alloc: Global,
    session: &mut Session<'_>,
    table: &Extensions<'_>,
    host: &mut H,
    words: &str,
    said: &mut String,
) -> Made<()> {
    let entities = answers(alloc, table, host, words)?;
    let refused = match session.supply(alloc, entities) {
        Ok(()) => None,
        Err(fault) => Some(fault.number()),
    };
    say_done(alloc, said, refused)
}

// Binds a name to a value.
fn bind(alloc: Global, session: &mut Session<'_>, words: &str, said: &mut String) -> Made<()> {
    let (name, text) = parted(words);
    let (name, value) = both(word(alloc, name), value(alloc, text))?;
    let refused = match session.bind(alloc, name, value) {
        Ok(()) => None,
        Err(fault) => Some(fault.number()),
    };
    say_done(alloc, said, refused)
}

fn answer(alloc: Global, session: &Session<'_>, said: &mut String) -> Made<()> {
    match session.answer(alloc) {
        Err(fault) => say_done(alloc, said, Some(fault.number())),
        Ok(response) => say_response(alloc, said, &response),
    }
}

fn bounds(alloc: Global, session: &Session<'_>, said: &mut String) -> Made<()> {
    match session.bounds(alloc)? {
        None => say(said, "None"),
        Some(bounds) => say_bounds(said, &bounds),
    }
}

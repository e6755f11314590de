//! Calls of a session. One that is refused, out of memory too, leaves it as it was. Those that only read lend it, and so can't change it.

use crate::told::{Made, Told};
use cedar_evaluator_requests::{Decision, Response};
use cedar_expr_names::EntityUID;
use cedar_expr_values::{ExtValue, Value};
use cedar_gate::{
    AnswerFault, BindFault, Bounds, Entry, Host, Session, Step, StoreHost, SupplyFault,
};
use cedar_gate_runs::copied;
use cedar_gate_runs::lines::{push_answer, push_entries, push_numbered};
use cedar_store_entities::Entity;
use cedar_store_parts::PolicyID;
use cedar_test_exprs::{both, made};
use std::alloc::{AllocError, Global};
use std::fmt::Write;
use std::rc::RcStr;

// What is answered to uids: each with its entity, where there is one.
type Answers = Vec<(EntityUID, Option<Entity>)>;

// No session has more rounds here.
const MOST_ROUNDS: u32 = 8;

/// Does the steps, loads until nothing is wanted, and answers; says what each call comes to.
pub fn say_session(
    alloc: Global,
    session: &mut Session<'_>,
    steps: &[Step],
    host: &mut StoreHost,
    told: &mut Told,
) -> Made<()> {
    for step in steps {
        match step {
            Step::Load => load(alloc, session, host, told)?,
            Step::Decide => decide(alloc, session, told)?,
            Step::Bind(name, value) => bind(alloc, session, name, value, told)?,
        }
    }
    for _ in 0..MOST_ROUNDS {
        load(alloc, session, host, told)?;
    }
    answer(alloc, session, told)
}

// What the session says: what is wanted, the decision, and the answer or why there is none.
fn state(alloc: Global, session: &Session<'_>) -> Made<String> {
    let mut text = String::new(alloc);
    for uid in session.wanted() {
        writeln!(text, "{uid}")?;
    }
    let entries = [Entry::Decided(session.decision(alloc)?)];
    push_entries(&mut text, &entries)?;
    match session.answer(alloc) {
        Ok(response) => push_answer(&mut text, &response)?,
        Err(AnswerFault::OutOfMemory) => return Err(AllocError),
        Err(fault) => push_numbered(&mut text, "answer", fault.number())?,
    }
    Ok(text)
}

// Loads what is wanted, if anything is.
fn load(
    alloc: Global,
    session: &mut Session<'_>,
    host: &mut StoreHost,
    told: &mut Told,
) -> Made<()> {
    if session.wanted().is_empty() {
        return Ok(());
    }
    let ids = copied(alloc, session.wanted())?;
    write!(told.text, "round")?;
    for uid in ids.iter() {
        write!(told.text, " {uid}")?;
    }
    told.say("")?;
    let first = made(host.fetch(alloc, ids.as_slice()))?;
    let again = made(host.fetch(alloc, ids.as_slice()))?;
    supply(alloc, session, first, again, told)
}

// Supplies this. Out of memory it is supplied again.
fn supply(
    alloc: Global,
    session: &mut Session<'_>,
    first: Answers,
    again: Answers,
    told: &mut Told,
) -> Made<()> {
    let before = state(alloc, session)?;
    let mut supplied = session.supply(alloc, first);
    if let Err(SupplyFault::OutOfMemory) = supplied {
        let after = state(alloc, session)?;
        told.say_refused("supply", after.as_str() == before.as_str())?;
        supplied = session.supply(alloc, again);
    }
    match supplied {
        Ok(()) => Ok(()),
        Err(fault) => push_numbered(&mut told.text, "supply", fault.number()),
    }
}

// Binds this. Out of memory it is bound again.
fn bind(
    alloc: Global,
    session: &mut Session<'_>,
    name: &RcStr,
    value: &Value<ExtValue>,
    told: &mut Told,
) -> Made<()> {
    let (first, again) = both(value.clone(), value.clone())?;
    let before = state(alloc, session)?;
    let mut bound = session.bind(alloc, name.clone()?, first);
    if let Err(BindFault::OutOfMemory) = bound {
        let after = state(alloc, session)?;
        told.say_refused("bind", after.as_str() == before.as_str())?;
        bound = session.bind(alloc, name.clone()?, again);
    }
    match bound {
        Ok(()) => told.say("bound"),
        Err(fault) => push_numbered(&mut told.text, "bind", fault.number()),
    }
}

// Says the decision and the bounds.
fn decide(alloc: Global, session: &Session<'_>, told: &mut Told) -> Made<()> {
    let entries = [Entry::Decided(decision(alloc, session, told)?)];
    push_entries(&mut told.text, &entries)?;
    match bounds(alloc, session, told)? {
        None => told.say("no bounds"),
        Some(bounds) => {
            say_ids(told, "must", bounds.must.as_slice())?;
            say_ids(told, "may", bounds.may.as_slice())
        }
    }
}

fn decision(alloc: Global, session: &Session<'_>, told: &mut Told) -> Made<Option<Decision>> {
    match session.decision(alloc) {
        Ok(decision) => Ok(decision),
        Err(_) => {
            told.say_again("decision")?;
            session.decision(alloc)
        }
    }
}

fn bounds(alloc: Global, session: &Session<'_>, told: &mut Told) -> Made<Option<Bounds>> {
    match session.bounds(alloc) {
        Ok(bounds) => Ok(bounds),
        Err(_) => {
            told.say_again("bounds")?;
            session.bounds(alloc)
        }
    }
}

fn say_ids(told: &mut Told, word: &str, ids: &[PolicyID]) -> Made<()> {
    write!(told.text, "{word}")?;
    for id in ids {
        write!(told.text, " {}", id.as_str())?;
    }
    told.say("")
}

// Says the answer, or why there is none.
fn answer(alloc: Global, session: &Session<'_>, told: &mut Told) -> Made<()> {
    match answered(alloc, session, told)? {
        Ok(response) => push_answer(&mut told.text, &response),
        Err(fault) => push_numbered(&mut told.text, "answer", fault.number()),
    }
}

fn answered(
    alloc: Global,
    session: &Session<'_>,
    told: &mut Told,
) -> Made<Result<Response, AnswerFault>> {
    match session.answer(alloc) {
        Err(AnswerFault::OutOfMemory) => {
            told.say_again("answer")?;
            Ok(session.answer(alloc))
        }
        answered => Ok(answered),
    }
}

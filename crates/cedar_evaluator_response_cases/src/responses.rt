//! Commands that make responses and answers.

use crate::desk::{Desk, Made};
use crate::policies::set_of;
use crate::said::{put, top};
use crate::verdicts;
use cedar_evaluator::{Authorizer, ConcretizationError, ReauthorizationError};
use cedar_evaluator_requests::{Decision, Response};
use cedar_expr_functions::{Extension, Extensions};
use cedar_test_exprs::{both, kept, made, name, one, say, show};
use std::alloc::Global;
use std::collections::HashMap;
use std::rc::Rc;

// Does the command, where it is one of these: `core`, the response to the policies; `answer`, their answer; `again`, the last
// response reauthorized with the values at hand; `copy`, a copy of it; `concrete`, its answer, after which it is gone; `lacking memory`;
// `shown a b`, an authorizer over the extensions of these names; or one that `verdicts` does.
pub fn done(
    desk: &mut Desk,
    table: &Extensions<'_>,
    verb: &str,
    rest: &str,
    wanted: &str,
    said: &mut String,
) -> Made<()> {
    match verb {
        "core" => core(desk, table, said),
        "answer" => answer(desk, table, said),
        "again" => again(desk, table, said),
        "copy" => copy(desk, table, said),
        "concrete" => concrete(desk, said),
        "lacking" => lacking(desk.known.alloc, said),
        "shown" => shown(desk.known.alloc, rest, said),
        _ => verdicts::done(desk, table, verb, rest, wanted, said),
    }
}

fn core(desk: &mut Desk, table: &Extensions<'_>, said: &mut String) -> Made<()> {
    let alloc = desk.known.alloc;
    let (set, request) = both(set_of(desk), desk.known.request())?;
    let authorizer = Authorizer::new(table, desk.limit);
    let made = authorizer.is_authorized_core(alloc, request, &set, &desk.known.store);
    put(alloc, said, &mut desk.responses, made)
}

fn answer(desk: &Desk, table: &Extensions<'_>, said: &mut String) -> Made<()> {
    let alloc = desk.known.alloc;
    let (set, request) = both(set_of(desk), desk.known.request())?;
    let authorizer = Authorizer::new(table, desk.limit);
    let answer = authorizer.is_authorized(alloc, request, &set, &desk.known.store);
    say_kept(alloc, said, kept(alloc, answer))
}

// The values are gone after it.
fn again(desk: &mut Desk, table: &Extensions<'_>, said: &mut String) -> Made<()> {
    let alloc = desk.known.alloc;
    let response = top(desk.responses.as_slice())?;
    let mut mapping = HashMap::new(alloc);
    std::mem::swap(&mut mapping, &mut desk.known.mapping);
    let authorizer = Authorizer::new(table, desk.limit);
    let made = response.reauthorize(alloc, &mapping, &authorizer, &desk.known.store);
    put(alloc, said, &mut desk.responses, made)
}

// A copy of the last response.
fn copy(desk: &mut Desk, table: &Extensions<'_>, said: &mut String) -> Made<()> {
    let _copied = Authorizer::new(table, desk.limit).clone()?;
    let made: Result<_, _> = top(desk.responses.as_slice())?.clone();
    put(desk.known.alloc, said, &mut desk.responses, made)
}

// The answer of the last response, which is gone after it.
fn concrete(desk: &mut Desk, said: &mut String) -> Made<()> {
    let alloc = desk.known.alloc;
    let answer = one(&mut desk.responses)?.concretize(alloc);
    say_kept(alloc, said, kept(alloc, answer))
}

// How out of memory is told.
fn lacking(alloc: Global, said: &mut String) -> Made<()> {
    show(alloc, said, &ReauthorizationError::OutOfMemory)?;
    show(alloc, said, &ConcretizationError::OutOfMemory)
}

// How an authorizer over extensions of these names is shown. They have no functions.
fn shown(alloc: Global, names: &str, said: &mut String) -> Made<()> {
    let mut extensions = Vec::new(alloc);
    for text in names.split(' ') {
        if !text.is_empty() {
            let functions = Vec::new(alloc);
            extensions.push(Extension::new(name(alloc, text)?, functions, Vec::new(alloc)))?;
        }
    }
    let table = made(Extensions::specific_extensions(alloc, extensions.as_slice()))?;
    let authorizer = Authorizer::new(&table, 16);
    let text = format!(in alloc; "{authorizer:?}")?;
    say(said, text.as_str())
}

// The text of a decision.
pub fn decision_text(decision: Decision) -> &'static str {
    match decision {
        Decision::Allow => "Allow",
        Decision::Deny => "Deny",
    }
}

// Says an answer that was made.
fn say_kept(alloc: Global, said: &mut String, answer: Made<Rc<Response>>) -> Made<()> {
    let answer = answer?;
    say_answer(alloc, said, &answer)
}

// Says an answer: its decision, its reasons, and its errors.
fn say_answer(alloc: Global, said: &mut String, answer: &Response) -> Made<()> {
    say(said, decision_text(answer.decision))?;
    for id in answer.diagnostics.reason.iter() {
        say(said, id.as_str())?;
    }
    for error in answer.diagnostics.errors.iter() {
        said.push(',')?;
        show(alloc, said, error)?;
    }
    Ok(())
}

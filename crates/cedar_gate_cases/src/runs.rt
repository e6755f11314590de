//! Runs: what they did, and the answer or why they stopped.

use crate::said::{decision_word, say_response, say_round};
use crate::setup::Made;
use cedar_evaluator_requests::Request;
use cedar_gate::{Entry, Gate, Host, RunFault, Step, Transcript, run};
use cedar_test_exprs::{both, say, show, value, word};
use std::alloc::{AllocError, Global};

// The step that a word tells: `load`, `decide`, or `t=5` for a binding of a name to a value.
fn step(alloc: Global, text: &str) -> Made<Step> {
    match text.split_once('=') {
        Some((name, text)) => {
            let (name, value) = both(word(alloc, name), value(alloc, text))?;
            Ok(Step::Bind(name, value))
        }
        None => match text {
            "load" => Ok(Step::Load),
            "decide" => Ok(Step::Decide),
            _ => Err(AllocError),
        },
    }
}

// The steps that these words tell.
fn steps(alloc: Global, text: &str) -> Made<Vec<Step>> {
    let mut steps = Vec::new(alloc);
    for text in text.split(' ') {
        if !text.is_empty() {
            steps.push(step(alloc, text)?)?;
        }
    }
    Ok(steps)
}

/// Says what a run of these steps over the host comes to.
pub fn say_run<H: Host>(
    alloc: Global,
    gate: &Gate<'_, '_, '_>,
    request: &Request,
    host: &mut H,
    text: &str,
    said: &mut String,
) -> Made<()> {
    if host.failures() == u64::MAX {
        return Err(AllocError);
    }
    let (request, steps) = both(request.clone(), steps(alloc, text))?;
    say_ended(alloc, said, run(alloc, gate, request, steps, host))
}

fn say_ended(alloc: Global, said: &mut String, ended: Result<Transcript, RunFault>) -> Made<()> {
    match ended {
        Ok(transcript) => say_transcript(alloc, said, &transcript),
        Err(fault) => say_stopped(alloc, said, &fault),
    }
}

// Says what was done, and the answer.
fn say_transcript(alloc: Global, said: &mut String, transcript: &Transcript) -> Made<()> {
    for entry in transcript.entries.as_slice() {
        say_entry(alloc, said, entry)?;
    }
    match &transcript.answer {
        Some(response) => {
            say(said, "answer")?;
            say_response(alloc, said, response)
        }
        None => Ok(()),
    }
}

// Says a thing that was done.
fn say_entry(alloc: Global, said: &mut String, entry: &Entry) -> Made<()> {
    match entry {
        Entry::Round(uids) => say_round(alloc, said, uids.as_slice()),
        Entry::Bound(name) => say_two(said, "bound", name.as_str()),
        Entry::Decided(decision) => say_two(said, "decided", decision_word(*decision)),
    }
}

fn say_two(said: &mut String, first: &str, second: &str) -> Made<()> {
    say(said, first)?;
    say(said, second)
}

// Says what was done, and why the run stopped: the number of the fault, and the fault itself, which names the refusal.
fn say_stopped(alloc: Global, said: &mut String, fault: &RunFault) -> Made<()> {
    say_transcript(alloc, said, fault.transcript())?;
    say(said, "stopped")?;
    show(alloc, said, &fault.number())?;
    say(said, "since")?;
    show(alloc, said, fault)
}

//! Runs. One that stops out of memory has no answer, and its host is as good as before.

use crate::copies;
use crate::told::{Made, Told};
use cedar_evaluator_requests::Request;
use cedar_gate::{Gate, RunFault, Step, StoreHost, Transcript, run};
use cedar_gate_runs::lines::{push_answered, push_stopped};
use cedar_test_exprs::both;
use std::alloc::{AllocError, Global};

/// Says what a run of these steps does over the host. Out of memory it is run again.
pub fn say_run(
    alloc: Global,
    gate: &Gate<'_, '_, '_>,
    request: &Request,
    steps: &[Step],
    host: &mut StoreHost,
    told: &mut Told,
) -> Made<()> {
    let (request, other) = both(request.clone(), request.clone())?;
    let (steps, same) = both(copies::steps(alloc, steps), copies::steps(alloc, steps))?;
    match run(alloc, gate, request, steps, host) {
        Err(RunFault::Memory { transcript }) => {
            told.say_refused("run", transcript.answer.is_none())?;
            say_ended(told, run(alloc, gate, other, same, host))
        }
        ended => say_ended(told, ended),
    }
}

fn say_ended(told: &mut Told, ended: Result<Transcript, RunFault>) -> Made<()> {
    match ended {
        Ok(transcript) => match &transcript.answer {
            Some(response) => push_answered(&mut told.text, &transcript, response),
            None => Err(AllocError),
        },
        Err(fault) => push_stopped(&mut told.text, &fault),
    }
}

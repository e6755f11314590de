//! The gate: it accepts, opens a session, of which each call is made by hand, and runs.

use crate::copies;
use crate::runs::say_run;
use crate::session::say_session;
use crate::told::{Made, Told};
use cedar_evaluator_requests::Request;
use cedar_expr_functions::Extensions;
use cedar_gate::{Gate, GateFault, OpenFault, Step, StoreHost};
use cedar_gate_bundles::{Bundle, Submission};
use cedar_gate_runs::lines::{push_numbered, push_warnings};
use cedar_test_exprs::both;
use std::alloc::Global;

/// Accepts what the bundle hands in, and does its steps in a session, and then in a run.
pub fn make_calls(
    alloc: Global,
    bundle: Bundle,
    table: &Extensions<'_>,
    told: &mut Told,
) -> Made<()> {
    let Bundle {
        submission,
        request,
        store,
        steps,
    } = bundle;
    let mut host = StoreHost::new(alloc, store);
    accept(alloc, submission, table, (request, steps), &mut host, told)
}

// Says what comes of a gate that accepts this, or why there is none. Out of memory it is asked for again.
fn accept(
    alloc: Global,
    submission: Submission,
    table: &Extensions<'_>,
    asked: (Request, Vec<Step>),
    host: &mut StoreHost,
    told: &mut Told,
) -> Made<()> {
    let Submission {
        fragments,
        policies,
        level,
        limit,
    } = submission;
    let fragments = fragments.as_slice();
    let copies = copies::policies(alloc, policies.as_slice())?;
    let mut judged = Gate::accept(alloc, fragments, policies, table, level, limit);
    if let Err(GateFault::OutOfMemory) = judged {
        told.say_again("accept")?;
        judged = Gate::accept(alloc, fragments, copies, table, level, limit);
    }
    match judged {
        Ok(gate) => say_accepted(alloc, &gate, &asked, host, told),
        Err(fault) => push_numbered(&mut told.text, "refused", fault.number()),
    }
}

// Says the warnings, what a session comes to, which out of memory is opened again, and what a run does.
fn say_accepted(
    alloc: Global,
    gate: &Gate<'_, '_, '_>,
    asked: &(Request, Vec<Step>),
    host: &mut StoreHost,
    told: &mut Told,
) -> Made<()> {
    let (request, steps) = asked;
    push_warnings(&mut told.text, gate.warnings())?;
    let (first, again) = both(request.clone(), request.clone())?;
    let mut opened = gate.open(alloc, first);
    if let Err(OpenFault::OutOfMemory) = opened {
        told.say_again("open")?;
        opened = gate.open(alloc, again);
    }
    match opened {
        Ok(mut session) => say_session(alloc, &mut session, steps.as_slice(), host, told)?,
        Err(fault) => push_numbered(&mut told.text, "open", fault.number())?,
    }
    told.say("run")?;
    say_run(alloc, gate, request, steps.as_slice(), host, told)
}

//! Runs of a request at a gate.

ghost use Rattle.std.specs.Prelude.{◌≡◌, ◌<◌, true, [], ℕ, List, None, is_some, IfOk, IfErr};
ghost use Rattle.cedar_expr_model.specs.Uid.{Uid};
ghost use Rattle.cedar_gate.specs.Courses.{InEachRunAt, CourseOpens};
ghost use Rattle.cedar_gate_model.specs.RunsAnswer.{Course};
ghost use Rattle.cedar_gate_openings.specs.Faults.{IsOpenFault};
ghost use Rattle.cedar_gate_runs.specs.Asking.{AskedBy, entries_done};
ghost use Rattle.cedar_gate_runs.specs.Counting.{HostSaw, run_count};
ghost use Rattle.cedar_gate_runs.specs.Ends.{IsRunOf, IsStopped};
ghost use Rattle.cedar_gate_runs.specs.Lost.{AsksWell};
ghost use Rattle.cedar_gate_runs.specs.Promised.{KeepsRun};
ghost use Rattle.cedar_gate_runs.specs.Stops.{run_fault_transcript};

use crate::gate::Gate;
use cedar_evaluator_requests::Request;
use cedar_gate_openings::{OpenFault, context_is_made};
use cedar_gate_runs::{Host, RunFault, Step, Transcript, run_session};
use std::alloc::Global;

// A run whose session isn't opened: nothing was done, and the host was asked for nothing.
fn not_opened(alloc: Global, fault: OpenFault) -> RunFault
    ensures stopped { (c : Course) → IsOpenFault c.start fault → IsStopped c result }
    ensures nothing { entries_done result ≡ [] }
    ensures no_answer { (run_fault_transcript result).answer ≡ None }
    ensures alone { (asked : List (List Uid)) → AskedBy asked asked result }
    ensures counted { (n : ℕ) → run_count result n ≡ n }
{
    let entries = Vec::new(alloc);
    let transcript = Transcript {
        entries,
        answer: None,
    };
    match fault {
        OpenFault::OutOfMemory => RunFault::Memory { transcript },
        OpenFault::QuoteInName => RunFault::Opening {
            number: 1,
            transcript,
        },
        OpenFault::NameOfVariable => RunFault::Opening {
            number: 2,
            transcript,
        },
    }
}

/// Runs a request at a gate: opens a session, does the steps in their order, loads from the host until nothing is wanted, and answers.
///
/// Where the host is honest as the run ends, what it hands out is a run of the definitions over the store that the host had, and keeps the
/// promises of the headline, answered or stopped: no uid is asked for twice, only what is near is, few rounds follow the last binding, each
/// decision that is owed is given, the transcript is legal in every world that completes what was bound and answered, and the answer is that of
/// the whole store. Whatever the host, it was asked for the rounds, and where the run stopped for one list more at most: what was wanted then,
/// of an honest host, if the session refused what was answered to it.
///
/// # Errors
///
/// Out of memory, the host's too; a fault of the host, exactly where its count of failures rose; and what a call of the session refuses, by
/// its number. Each has what was done so far, and no answer.
pub fn run<H: Host>(
    alloc: Global,
    gate: &Gate<'_, '_, '_>,
    request: Request,
    steps: Vec<Step>,
    host: &mut H,
) -> Result<Transcript, RunFault>
    requires { H.faults host.old < u64.MAX }
    ensures run { H.honest host.new → InEachRunAt gate.now request steps.items H.store host.old (λ c. IsRunOf c result) }
    ensures promises { H.honest host.new → InEachRunAt gate.now request steps.items H.store host.old (λ c. KeepsRun c result) }
    ensures host { HostSaw (H.asked host.old) (H.asked host.new) (H.faults host.old) (H.faults host.new) result }
    ensures asked { H.honest host.new → InEachRunAt gate.now request steps.items H.store host.old (λ c. CourseOpens c → AsksWell c (H.asked host.old) (H.asked host.new) result) }
    ensures answered { IfOk result (λ t. is_some t.answer ≡ true) }
    ensures no_answer { IfErr result (λ f. (run_fault_transcript f).answer ≡ None) }
{
    context_is_made(&request);
    match gate.open(alloc, request) {
        Ok(session) => run_session(alloc, session, steps, host),
        Err(fault) => Err(not_opened(alloc, fault)),
    }
}

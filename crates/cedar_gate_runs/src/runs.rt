//! Runs: steps over a session and a host, up to the answer.

ghost use Rattle.std.specs.Prelude.{◌≡◌, ◌<◌, true, [], ℕ, None, is_some, IfOk, IfErr, OnOk, OnErr};
ghost use Rattle.cedar_evaluator_requests.specs.Views.{answer_of};
ghost use Rattle.cedar_gate_model.specs.RunsAnswer.{Course, session_of, IsAdmitted, AnswerFairly};
ghost use Rattle.cedar_gate_model.specs.Session.{NothingIsWanted};
ghost use Rattle.cedar_gate_runs.specs.Transcripts.{entries_of};
ghost use Rattle.cedar_gate_runs.specs.Asking.{IsBeyond, StopsAsked, entries_done};
ghost use Rattle.cedar_gate_runs.specs.Counting.{count_after, KeepsCount, run_count, HostSaw};
ghost use Rattle.cedar_gate_runs.specs.Courses.{InEachRun, CourseOpens};
ghost use Rattle.cedar_gate_runs.specs.Ends.{HasStoppedBy, IsStopped, IsRunOf};
ghost use Rattle.cedar_gate_runs.specs.Lost.{AsksWell};
ghost use Rattle.cedar_gate_runs.specs.Promised.{KeepsRun};
ghost use Rattle.cedar_gate_runs.specs.States.{AsksRounds, AsksBeyond, AtEachState, OverSteps, ComesToAnswer, HaltsSteps, IsRefusedAt, LosesOneInSteps};
ghost use Rattle.cedar_gate_runs.specs.Stopping.{Finished};
ghost use Rattle.cedar_gate_runs.specs.Stops.{run_fault_transcript};

use crate::loading::load_all;
use crate::sessions::SessionCalls;
use crate::stepping::take_steps;
use crate::steps::Step;
use crate::stops_with::Stop;
use crate::{Entry, Host, RunFault, Transcript};
use cedar_evaluator_requests::Response;
use cedar_gate_model::headline::runs_keep_the_headline;
use cedar_gate_model::moment_laws::moments_keep;
use std::alloc::Global;

// The answer of a session, of which nothing is wanted.
fn finish<E: SessionCalls>(alloc: Global, session: &E) -> Result<Response, Stop>
    ensures answered { IfOk result (λ r. AtEachState E.stands session.now (λ c s. NothingIsWanted (session_of c) s → Finished c s (answer_of r))) }
    ensures stopped { IfErr result (λ stop. AtEachState E.stands session.now (λ c s. NothingIsWanted (session_of c) s → IsRefusedAt c s [] [] stop)) }
    ensures alone { IfErr result (λ stop. IsBeyond stop []) }
    ensures counted { IfErr result KeepsCount }
{
    match session.answer(alloc) {
        Ok(response) => Ok(response),
        Err(refusal) => Err(Stop::answering(refusal)),
    }
}

// Does the steps in their order, loads until nothing is wanted, and answers.
fn follow<E: SessionCalls, H: Host>(
    alloc: Global,
    session: &mut E,
    steps: Vec<Step>,
    host: &mut H,
    entries: &mut Vec<Entry>,
) -> Result<Response, Stop>
    requires { H.faults host.old < u64.MAX }
    ensures answered { IfOk result (λ r. H.honest host.new → OverSteps E.stands H.store session.old host.old steps (ComesToAnswer entries.old entries.new (answer_of r))) }
    ensures stopped { IfErr result (λ stop. H.honest host.new → OverSteps E.stands H.store session.old host.old steps (HaltsSteps entries.old entries.new stop)) }
    ensures asked { OnOk result (AsksRounds (H.asked host.old) (H.asked host.new) entries.old entries.new) }
    ensures beyond { IfErr result (λ stop. AsksBeyond (H.asked host.old) (H.asked host.new) entries.old entries.new stop) }
    ensures faults { OnOk result (H.faults host.new ≡ H.faults host.old) }
    ensures counted { IfErr result (λ stop. H.faults host.new ≡ count_after stop (H.faults host.old)) }
    ensures last { OnErr result (H.honest host.new → LosesOneInSteps E.stands H.store H.asked session.old host.old host.new steps entries.old entries.new) }
{
    take_steps(alloc, session, steps, host, entries)?;
    load_all(alloc, session, host, entries)?;
    finish(alloc, session)
}

// A run that stopped with these entries.
fn stopped(stop: Stop, entries: Vec<Entry>) -> RunFault
    ensures asked { StopsAsked (entries_of entries.items) stop result }
    ensures stopped { (c : Course) → CourseOpens c → HasStoppedBy c (entries_of entries.items) stop → IsStopped c result }
    ensures entries { entries_done result ≡ entries_of entries.items }
    ensures no_answer { (run_fault_transcript result).answer ≡ None }
    ensures counted { (n : ℕ) → run_count result n ≡ count_after stop n }
{
    let transcript = Transcript {
        entries,
        answer: None,
    };
    match stop {
        Stop::Memory => RunFault::Memory { transcript },
        Stop::Host => RunFault::Host { transcript },
        Stop::Supplying(number) => RunFault::Supplying { number, transcript },
        Stop::Binding(number) => RunFault::Binding { number, transcript },
        Stop::Answering(number) => RunFault::Answering { number, transcript },
    }
}

/// Runs a session that was opened: does the steps in their order, loads until nothing is wanted, and answers.
///
/// Where the host is honest as the run ends, what it hands out is a run of the definitions over the store that the host had. Of a proper course
/// it keeps the promises of the headline, answered or stopped: no uid is asked for twice, only what is near is, few rounds follow the last
/// binding, each decision that is owed is given, and the transcript is legal in every world that completes what was bound and answered. Whatever
/// the host, it was asked for the rounds, and where the run stopped for one list more at most: what was wanted then, of an honest host, if the
/// session refused what was answered to it.
///
/// # Errors
///
/// Out of memory, the host's too; a fault of the host, exactly where its count of failures rose; and what a call of the session refuses, by
/// its number. Each has what was done so far, and no answer.
pub fn run_session<E: SessionCalls + Drop, H: Host>(
    alloc: Global,
    mut session: E,
    steps: Vec<Step>,
    host: &mut H,
) -> Result<Transcript, RunFault>
    requires { H.faults host.old < u64.MAX }
    ensures run { H.honest host.new → InEachRun E.stands session steps.items H.store host.old (λ c. IsRunOf c result) }
    ensures promises { H.honest host.new → InEachRun E.stands session steps.items H.store host.old (λ c. IsAdmitted c → AnswerFairly c.functions → KeepsRun c result) }
    ensures host { HostSaw (H.asked host.old) (H.asked host.new) (H.faults host.old) (H.faults host.new) result }
    ensures asked { H.honest host.new → InEachRun E.stands session steps.items H.store host.old (λ c. AsksWell c (H.asked host.old) (H.asked host.new) result) }
    ensures answered { IfOk result (λ t. is_some t.answer ≡ true) }
    ensures no_answer { IfErr result (λ f. (run_fault_transcript f).answer ≡ None) }
{
    runs_keep_the_headline();
    moments_keep();
    let mut entries = Vec::new(alloc);
    match follow(alloc, &mut session, steps, host, &mut entries) {
        Ok(response) => Ok(Transcript {
            entries,
            answer: Some(response),
        }),
        Err(stop) => Err(stopped(stop, entries)),
    }
}

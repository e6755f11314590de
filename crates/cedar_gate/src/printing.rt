//! What is printed for an input.

ghost use Rattle.std.specs.Prelude.{◌≡◌, true, Some, IfOk, is_some, string_bytes};
ghost use Rattle.cedar_evaluator_restricted_exprs.specs.Answers.{AgreesWith};
ghost use Rattle.cedar_gate.specs.Courses.{IsFair};
ghost use Rattle.cedar_gate.specs.Printed.{IsReadWell, IsServedBy, IsPrinted, IsRefusal, PrintsAccepted, AppendsRun, IsOfRun};
ghost use Rattle.cedar_gate.specs.Serving.{Judged};
ghost use Rattle.cedar_gate_bundles.specs.Bundles.{bundle_of};
ghost use Rattle.cedar_evaluator_model.specs.Functions.{Functions};
ghost use Rattle.cedar_gate_model.specs.Lines.{Prints, unreadable_line};
ghost use Rattle.cedar_gate_model.specs.ReadingBundle.{input_read};
ghost use Rattle.cedar_gate_model.specs.RunsAnswer.{Course};
ghost use Rattle.cedar_gate_accepted.specs.Causes.{is_memory};
ghost use Rattle.cedar_gate_runs.specs.Ends.{IsAnswered, IsStopped};

use crate::gate::Gate;
use crate::runs::run;
use cedar_evaluator_requests::Request;
use cedar_expr_functions::Extensions;
use cedar_gate_accepted::GateFault;
use cedar_gate_bundles::{Bundle, ReadFault, Submission, read_input};
use cedar_gate_runs::lines::{
    push_answered, push_numbered, push_stopped, push_unreadable, push_warnings,
};
use cedar_gate_runs::{RunFault, Status, Step, StoreHost, Transcript};
use cedar_store_entities::Entities;
use std::alloc::{AllocError, Global};

/// What is printed for an input.
#[derive(Drop)]
pub(crate) struct Printed {
    /// The status.
    pub(crate) status: Status,
    /// The text.
    pub(crate) text: String,
}

/// What is printed for an input, with its status. Fails only when out of memory.
pub(crate) fn print_input(
    alloc: Global,
    bytes: &[u8],
    table: &Extensions<'_>,
) -> Result<Printed, AllocError>
    ensures prints { IfOk result (λ p. (x : Functions) → IsFair table.now x → IsPrinted (Prints x (input_read x bytes.now)) p) }
    ensures judged { IfOk result (λ p. (x : Functions) → AgreesWith table.now x → IsPrinted (Judged (input_read x bytes.now)) p) }
{
    match read_input(alloc, table, bytes) {
        Ok(bundle) => print_submitted(alloc, bundle, table),
        Err(ReadFault::Unreadable) => print_unreadable(alloc),
        Err(ReadFault::OutOfMemory) => Err(AllocError),
    }
}

// What is printed for an input that is no bundle.
fn print_unreadable(alloc: Global) -> Result<Printed, AllocError>
    ensures { IfOk result (λ p. (p.status ≡ Status.Unreadable) × (string_bytes p.text ≡ unreadable_line)) }
{
    let mut text = String::new(alloc);
    push_unreadable(&mut text)?;
    let status = Status::Unreadable;
    Ok(Printed { status, text })
}

// What is printed for a bundle: a refusal of what is handed to the gate, or the lines of its warnings and of a run.
fn print_submitted(
    alloc: Global,
    bundle: Bundle,
    table: &Extensions<'_>,
) -> Result<Printed, AllocError>
    ensures prints { IfOk result (λ p. (x : Functions) → IsFair table.now x → IsReadWell x bundle → IsPrinted (Prints x (Some (bundle_of x bundle))) p) }
    ensures judged { IfOk result (λ p. (x : Functions) → AgreesWith table.now x → IsPrinted (Judged (Some (bundle_of x bundle))) p) }
{
    let Bundle {
        submission,
        request,
        store,
        steps,
    } = bundle;
    let Submission {
        fragments,
        policies,
        level,
        limit,
    } = submission;
    let fragments = fragments.as_slice();
    match Gate::accept(alloc, fragments, policies, table, level, limit) {
        Ok(gate) => print_accepted(alloc, &gate, request, steps, store),
        Err(fault) => print_refusal(alloc, &fault),
    }
}

// What is printed for a request at a gate: the lines of its warnings and of a run over this store.
fn print_accepted(
    alloc: Global,
    gate: &Gate<'_, '_, '_>,
    request: Request,
    steps: Vec<Step>,
    store: Entities,
) -> Result<Printed, AllocError>
    ensures prints { IfOk result (λ p. (c : Course) → IsServedBy gate.now request steps.items store c → IsPrinted (PrintsAccepted c) p) }
    ensures status { IfOk result (λ p. IsOfRun p.status) }
{
    let mut text = String::new(alloc);
    push_warnings(&mut text, gate.warnings())?;
    let status = print_run(alloc, &mut text, gate, request, steps, store)?;
    Ok(Printed { status, text })
}

/// Appends the lines of a run of a request at a gate, over this store, and gives the status. Fails only when out of memory.
pub fn print_run(
    alloc: Global,
    out: &mut String,
    gate: &Gate<'_, '_, '_>,
    request: Request,
    steps: Vec<Step>,
    store: Entities,
) -> Result<Status, AllocError>
    ensures prints { IfOk result (λ status. (c : Course) → IsServedBy gate.now request steps.items store c → AppendsRun c status out.old out.new) }
    ensures status { IfOk result IsOfRun }
{
    let mut host = StoreHost::new(alloc, store);
    match run(alloc, gate, request, steps, &mut host) {
        Ok(transcript) => print_transcript(out, &transcript),
        Err(fault) => print_stopped(out, &fault),
    }
}

// Appends the lines of a run that came to its answer.
fn print_transcript(out: &mut String, transcript: &Transcript) -> Result<Status, AllocError>
    requires { is_some transcript.now.answer ≡ true }
    ensures prints { IfOk result (λ status. (c : Course) → IsAnswered c transcript.now → AppendsRun c status out.old out.new) }
    ensures status { IfOk result IsOfRun }
{
    match &transcript.answer {
        Some(response) => {
            push_answered(out, transcript, response)?;
            Ok(Status::Answered)
        }
        None => unreachable!(),
    }
}

// Appends the lines of a run that stopped.
fn print_stopped(out: &mut String, fault: &RunFault) -> Result<Status, AllocError>
    ensures prints { IfOk result (λ status. (c : Course) → IsStopped c fault.now → AppendsRun c status out.old out.new) }
    ensures status { IfOk result IsOfRun }
{
    push_stopped(out, fault)?;
    Ok(Status::Stopped)
}

// Whether the fault is out of memory.
fn is_memory(fault: &GateFault) -> bool
    ensures { result ≡ is_memory fault.now }
{
    matches!(fault, GateFault::OutOfMemory)
}

// What is printed for a refusal. Out of memory isn't printed.
fn print_refusal(alloc: Global, fault: &GateFault) -> Result<Printed, AllocError>
    ensures { IfOk result (λ p. IsRefusal fault.now p) }
{
    if is_memory(fault) {
        return Err(AllocError);
    }
    let mut text = String::new(alloc);
    push_numbered(&mut text, "refused", fault.number())?;
    Ok(Printed {
        status: Status::Refused,
        text,
    })
}

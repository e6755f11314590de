//! What is printed for a bundle and the requests behind it, whose stores are put into a database.

ghost use Rattle.std.specs.Prelude.{◌≡◌, ◌<◌, true, is_some};
ghost use Rattle.cedar_database_host.specs.Hosts.{faults_of};

use crate::fault::Fault;
use crate::requests::read_request;
use cedar_database_host::{DatabaseHost, EntityReader};
use cedar_evaluator_requests::Request;
use cedar_expr_functions::Extensions;
use cedar_gate::{Gate, GateFault, Status, Step, Transcript, run};
use cedar_gate_bundles::{Bundle, ReadFault, Submission, read_bundle};
use cedar_gate_expressions::{read_json, required};
use cedar_gate_runs::Host;
use cedar_gate_runs::lines::{
    push_answered, push_numbered, push_stopped, push_unreadable, push_warnings,
};
use serde_json::Value;
use sqlite::Alter;
use std::alloc::{AllocError, Global};
use std::str::Lines;

/// What is printed for an input, and the status.
#[derive(Drop)]
pub struct Printed {
    pub status: Status,
    pub text: String,
}

/// What is printed for an input: a bundle on its first line, and a request on each further one that isn't empty. What is accepted is answered
/// by the host, once the store of the line is put in.
pub fn print_input<S: Alter + Drop, T: EntityReader>(
    alloc: Global,
    host: &mut DatabaseHost<'_, S, T>,
    input: &[u8],
    table: &Extensions<'_>,
) -> Result<Printed, Fault> {
    let Ok(text) = std::str::from_utf8(input) else {
        return print_unread(alloc, ReadFault::Unreadable);
    };
    let mut lines = text.lines();
    let first = lines.next().unwrap_or("");
    match read_json(alloc, first.as_bytes()) {
        Ok(json) => print_json(alloc, host, &json, lines, table),
        Err(fault) => print_unread(alloc, fault),
    }
}

// What is printed for JSON that is to be a bundle, and the requests on these lines.
fn print_json<S: Alter + Drop, T: EntityReader>(
    alloc: Global,
    host: &mut DatabaseHost<'_, S, T>,
    json: &Value,
    lines: Lines<'_>,
    table: &Extensions<'_>,
) -> Result<Printed, Fault> {
    match read_parts(alloc, json, table) {
        Ok((bundle, store)) => print_bundle(alloc, host, bundle, store, lines, table),
        Err(fault) => print_unread(alloc, fault),
    }
}

// The bundle that JSON is, and the JSON of its store.
fn read_parts<'j>(
    alloc: Global,
    json: &'j Value,
    table: &Extensions<'_>,
) -> Result<(Bundle, &'j Value), ReadFault> {
    let bundle = read_bundle(alloc, table, json)?;
    let store = required(json, "store")?;
    Ok((bundle, store))
}

// What is printed for an input that isn't read as a bundle. Out of memory isn't printed.
fn print_unread(alloc: Global, fault: ReadFault) -> Result<Printed, Fault> {
    let mut text = String::new(alloc);
    let status = push_unread(&mut text, fault)?;
    Ok(Printed { status, text })
}

// What is printed for a bundle with this store, and the requests on these lines: a refusal of what is handed to the gate, or the lines of its
// warnings, those of a run, and then, for each request, a line with its number and the lines of its run.
fn print_bundle<S: Alter + Drop, T: EntityReader>(
    alloc: Global,
    host: &mut DatabaseHost<'_, S, T>,
    bundle: Bundle,
    store: &Value,
    lines: Lines<'_>,
    table: &Extensions<'_>,
) -> Result<Printed, Fault> {
    let Bundle {
        submission,
        request,
        store: _,
        steps,
    } = bundle;
    let Submission {
        fragments,
        policies,
        level,
        limit,
    } = submission;
    let gate = match Gate::accept(alloc, fragments.as_slice(), policies, table, level, limit) {
        Ok(gate) => gate,
        Err(fault) => return print_refusal(alloc, &fault),
    };
    let mut text = String::new(alloc);
    push_warnings(&mut text, gate.warnings())?;
    host.load(alloc, store)?;
    let status = push_run(alloc, &mut text, &gate, request, steps, host)?;
    let mut printed = Printed { status, text };
    push_requests(alloc, &mut printed, &gate, host, lines, table)?;
    Ok(printed)
}

// What is printed for a refusal. Out of memory isn't printed.
fn print_refusal(alloc: Global, fault: &GateFault) -> Result<Printed, Fault> {
    if matches!(fault, GateFault::OutOfMemory) {
        return Err(Fault::Memory);
    }
    let mut text = String::new(alloc);
    push_numbered(&mut text, "refused", fault.number())?;
    let status = Status::Refused;
    Ok(Printed { status, text })
}

// Appends what is printed for the requests on these lines, which are counted from the second on. The status is the worst then.
fn push_requests<S: Alter + Drop, T: EntityReader>(
    alloc: Global,
    printed: &mut Printed,
    gate: &Gate<'_, '_, '_>,
    host: &mut DatabaseHost<'_, S, T>,
    lines: Lines<'_>,
    table: &Extensions<'_>,
) -> Result<(), Fault> {
    let mut number = 1u32;
    for line in lines {
        if line.is_empty() {
            continue;
        }
        number = number.saturating_add(1);
        push_numbered(&mut printed.text, "request", number)?;
        let status = push_request(alloc, &mut printed.text, gate, host, line, table)?;
        printed.status = worse(printed.status, status);
    }
    Ok(())
}

// Appends what is printed for a request, and gives the status.
fn push_request<S: Alter + Drop, T: EntityReader>(
    alloc: Global,
    out: &mut String,
    gate: &Gate<'_, '_, '_>,
    host: &mut DatabaseHost<'_, S, T>,
    line: &str,
    table: &Extensions<'_>,
) -> Result<Status, Fault> {
    let json = match read_request(alloc, line) {
        Ok(json) => json,
        Err(fault) => return push_unread(out, fault),
    };
    match read_parts(alloc, &json, table) {
        Ok((bundle, store)) => {
            host.load(alloc, store)?;
            push_run(alloc, out, gate, bundle.request, bundle.steps, host)
        }
        Err(fault) => push_unread(out, fault),
    }
}

// Appends what is printed for a request that doesn't read. Out of memory isn't printed.
fn push_unread(out: &mut String, fault: ReadFault) -> Result<Status, Fault> {
    match fault {
        ReadFault::OutOfMemory => Err(Fault::Memory),
        ReadFault::Unreadable => {
            push_unreadable(out)?;
            Ok(Status::Unreadable)
        }
    }
}

// The worse of two: a request that doesn't read is worse than a session that was stopped, and this than an answer.
fn worse(one: Status, other: Status) -> Status {
    match (one, other) {
        (Status::Unreadable, _) | (_, Status::Unreadable) => Status::Unreadable,
        (Status::Stopped, _) | (_, Status::Stopped) => Status::Stopped,
        _ => one,
    }
}

// Appends the lines of a run of a request at a gate over the host, and gives the status.
fn push_run<S: Alter + Drop, T: EntityReader>(
    alloc: Global,
    out: &mut String,
    gate: &Gate<'_, '_, '_>,
    request: Request,
    steps: Vec<Step>,
    host: &mut DatabaseHost<'_, S, T>,
) -> Result<Status, Fault> {
    if host.failures() == u64::MAX {
        return Err(Fault::Memory);
    }
    match run(alloc, gate, request, steps, host) {
        Ok(transcript) => {
            push_transcript(out, &transcript)?;
            Ok(Status::Answered)
        }
        Err(fault) => {
            push_stopped(out, &fault)?;
            Ok(Status::Stopped)
        }
    }
}

// Appends the lines of a run that came to its answer.
fn push_transcript(out: &mut String, transcript: &Transcript) -> Result<(), AllocError>
    requires { is_some transcript.now.answer ≡ true }
{
    match &transcript.answer {
        Some(response) => push_answered(out, transcript, response),
        None => unreachable!(),
    }
}

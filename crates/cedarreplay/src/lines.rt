//! What is printed for a bundle and for the requests behind it.

use crate::requests::read_request;
use cedar_expr_functions::Extensions;
use cedar_gate::{Gate, GateFault, Status, print_run};
use cedar_gate_bundles::{Bundle, ReadFault, Submission, read_input};
use cedar_gate_runs::lines::{push_numbered, push_unreadable, push_warnings};
use std::alloc::{AllocError, Global};
use std::str::Lines;

/// What is printed for an input, and the status.
#[derive(Drop)]
pub struct Printed {
    pub status: Status,
    pub text: String,
}

/// What is printed for an input: a bundle on its first line, and a request on each further one that isn't empty. Fails only when out of
/// memory.
pub fn print_input(
    alloc: Global,
    input: &[u8],
    table: &Extensions<'_>,
) -> Result<Printed, AllocError> {
    let Ok(text) = std::str::from_utf8(input) else {
        return print_unreadable(alloc);
    };
    let mut lines = text.lines();
    let first = lines.next().unwrap_or("");
    match read_input(alloc, table, first.as_bytes()) {
        Ok(bundle) => print_bundle(alloc, bundle, lines, table),
        Err(ReadFault::Unreadable) => print_unreadable(alloc),
        Err(ReadFault::OutOfMemory) => Err(AllocError),
    }
}

// What is printed for an input that begins with no bundle.
fn print_unreadable(alloc: Global) -> Result<Printed, AllocError> {
    let mut text = String::new(alloc);
    push_unreadable(&mut text)?;
    let status = Status::Unreadable;
    Ok(Printed { status, text })
}

// What is printed for a bundle and the requests behind it: a refusal of what is handed to the gate, or the lines of its warnings and then,
// for each request, a line with its number and the lines of its run.
fn print_bundle(
    alloc: Global,
    bundle: Bundle,
    lines: Lines<'_>,
    table: &Extensions<'_>,
) -> Result<Printed, AllocError> {
    let Bundle {
        submission,
        request,
        store,
        steps,
    } = bundle;
    let Submission {
        fragments,
        policies,
        level,
        limit,
    } = submission;
    let mut text = String::new(alloc);
    let gate = match Gate::accept(alloc, fragments.as_slice(), policies, table, level, limit) {
        Ok(gate) => gate,
        Err(GateFault::OutOfMemory) => return Err(AllocError),
        Err(fault) => {
            push_numbered(&mut text, "refused", fault.number())?;
            let status = Status::Refused;
            return Ok(Printed { status, text });
        }
    };
    push_warnings(&mut text, gate.warnings())?;
    push_numbered(&mut text, "request", 1)?;
    let own = print_run(alloc, &mut text, &gate, request, steps, store)?;
    let status = print_requests(alloc, &mut text, &gate, lines, table, own)?;
    Ok(Printed { status, text })
}

// Appends what is printed for the requests on these lines, which are counted from the second on, and gives the worst status, of this one
// too.
fn print_requests(
    alloc: Global,
    out: &mut String,
    gate: &Gate<'_, '_, '_>,
    lines: Lines<'_>,
    table: &Extensions<'_>,
    own: Status,
) -> Result<Status, AllocError> {
    let mut worst = own;
    let mut number = 1u32;
    for line in lines {
        if line.is_empty() {
            continue;
        }
        number = number.saturating_add(1);
        push_numbered(out, "request", number)?;
        worst = worse(worst, print_request(alloc, out, gate, line, table)?);
    }
    Ok(worst)
}

// Appends what is printed for a request, and gives the status.
fn print_request(
    alloc: Global,
    out: &mut String,
    gate: &Gate<'_, '_, '_>,
    line: &str,
    table: &Extensions<'_>,
) -> Result<Status, AllocError> {
    match read_request(alloc, table, line) {
        Ok(read) => print_run(alloc, out, gate, read.request, read.steps, read.store),
        Err(ReadFault::OutOfMemory) => Err(AllocError),
        Err(ReadFault::Unreadable) => {
            push_unreadable(out)?;
            Ok(Status::Unreadable)
        }
    }
}

// The worse of two: a request that doesn't read is worse than a session that was stopped, and this than an answer.
fn worse(one: Status, other: Status) -> Status {
    match (one, other) {
        (Status::Unreadable, _) | (_, Status::Unreadable) => Status::Unreadable,
        (Status::Stopped, _) | (_, Status::Stopped) => Status::Stopped,
        _ => one,
    }
}

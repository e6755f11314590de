//! What is printed for an input.

ghost use Rattle.std.specs.Prelude.{◌≡◌, [], ◌∷◌, false, IfOk, Some, string_bytes};
ghost use Rattle.serde_json.specs.View.{view};
ghost use Rattle.cedar_evaluator_model.specs.Functions.{Functions};
ghost use Rattle.cedar_evaluator_restricted_exprs.specs.Answers.{AgreesWith};
ghost use Rattle.cedar_gate_accepted.specs.Causes.{gate_fault_number, is_memory};
ghost use Rattle.cedar_gate_bundles.specs.Bundles.{submission_of};
ghost use Rattle.cedar_gate_model.specs.ReadingBundle.{input_read, bundle_read};
ghost use Rattle.cedarcheck.specs.Faults.{HasNumbers, numbers_in};
ghost use Rattle.cedarcheck.specs.Lines.{AreRefusals};
ghost use Rattle.cedarcheck.specs.Explains.{Explains, ExplainsSubmission, IsRefusalOf, IsUnreadable};

use crate::accepted::push_lines;
use crate::faults::fault_numbers;
use crate::findings::{Finding, lines_of, push_in_line, push_place, with_numbers};
use crate::found::all_found;
use crate::subjects::Subject;
use cedar_expr_functions::Extensions;
use cedar_gate::{Gate, GateFault, Status};
use cedar_gate_bundles::{ReadFault, Submission, read_bundle};
use cedar_gate_expressions::read_json;
use cedar_gate_places::first_unread;
use cedar_typechecker::SchemaAndFunctions;
use serde_json::Value;
use std::alloc::{AllocError, Global};
use std::fmt::Write;

/// What is said of an input: the status, the faults by which it is refused, and the text that is printed.
#[derive(Drop)]
pub struct Report {
    pub status: Status,
    pub found: Vec<Finding>,
    pub text: String,
}

/// What is said of an input. Fails only when out of memory.
pub fn report_input(
    alloc: Global,
    input: &[u8],
    table: &Extensions<'_>,
) -> Result<Report, AllocError>
    ensures { IfOk result (λ r. (x : Functions) → AgreesWith table.now x → Explains (input_read x input.now) r) }
{
    match read_json(alloc, input) {
        Ok(root) => report_value(alloc, &root, table),
        Err(ReadFault::OutOfMemory) => Err(AllocError),
        Err(ReadFault::Unreadable) => report_no_json(alloc, input),
    }
}

// What is said of an input that is no JSON.
fn report_no_json(alloc: Global, input: &[u8]) -> Result<Report, AllocError>
    ensures { IfOk result IsUnreadable }
{
    let mut text = String::from_str(alloc, "unreadable: expected JSON in UTF-8")?;
    if let Err(error) = Value::from_slice(alloc, input) {
        if error.is_memory() {
            return Err(AllocError);
        }
        write!(text, ": {error}")?;
    }
    text.push_str("\n")?;
    Ok(unreadable(alloc, text))
}

// What is said of what doesn't read.
fn unreadable(alloc: Global, text: String) -> Report
    ensures { IsUnreadable result }
{
    let found = Vec::new(alloc);
    let status = Status::Unreadable;
    Report {
        status,
        found,
        text,
    }
}

// What is said of a JSON value.
fn report_value(alloc: Global, root: &Value, table: &Extensions<'_>) -> Result<Report, AllocError>
    ensures { IfOk result (λ r. (x : Functions) → AgreesWith table.now x → Explains (bundle_read x (view root.now)) r) }
{
    match read_bundle(alloc, table, root) {
        Ok(bundle) => report_submission(alloc, root, bundle.submission, table),
        Err(ReadFault::OutOfMemory) => Err(AllocError),
        Err(ReadFault::Unreadable) => report_unread(alloc, root, table),
    }
}

// What is said of a value that is no bundle.
fn report_unread(alloc: Global, root: &Value, table: &Extensions<'_>) -> Result<Report, AllocError>
    ensures { IfOk result IsUnreadable }
{
    let part = first_unread(alloc, table, root)?;
    let mut text = format!(in alloc; "unreadable: expected {}", part.expected)?;
    if let Some(word) = &part.after {
        text.push_str(" after \"")?;
        push_in_line(&mut text, word.as_str())?;
        text.push_str("\"")?;
    }
    push_place(alloc, &mut text, root, part.path.as_str())?;
    text.push_str("\n")?;
    Ok(unreadable(alloc, text))
}

// What is said of what is handed to the gate: its faults, or, where the gate accepts it, what each policy comes to.
fn report_submission(
    alloc: Global,
    root: &Value,
    submission: Submission,
    table: &Extensions<'_>,
) -> Result<Report, AllocError>
    ensures { IfOk result (λ r. (x : Functions) → AgreesWith table.now x → ExplainsSubmission (submission_of x submission) r) }
{
    let found = faults_of(alloc, root, &submission, table)?;
    if found.is_empty() {
        report_judged(alloc, root, submission, table)
    } else {
        report_refused(alloc, root, found)
    }
}

// The faults that are there, each with its words and its place.
fn faults_of(
    alloc: Global,
    root: &Value,
    submission: &Submission,
    table: &Extensions<'_>,
) -> Result<Vec<Finding>, AllocError>
    ensures { IfOk result (λ fs. (x : Functions) → AgreesWith table.now x → HasNumbers (submission_of x submission.now) (numbers_in fs.items)) }
{
    let fragments = submission.fragments.as_slice();
    let policies = submission.policies.as_slice();
    let numbers = fault_numbers(
        alloc,
        fragments,
        policies,
        table,
        submission.level,
        submission.limit,
    )?;
    if numbers.is_empty() {
        return Ok(Vec::new(alloc));
    }
    let found = all_found(alloc, root, submission, table)?;
    with_numbers(alloc, found, numbers.as_slice())
}

// What is said where these faults are there.
fn report_refused(alloc: Global, root: &Value, found: Vec<Finding>) -> Result<Report, AllocError>
    ensures status { IfOk result (λ r. r.status ≡ Status.Refused) }
    ensures found { IfOk result (λ r. r.found ≡ found) }
    ensures lines { IfOk result (λ r. AreRefusals (numbers_in found.items) (string_bytes r.text)) }
{
    let text = lines_of(alloc, root, found.as_slice())?;
    let status = Status::Refused;
    Ok(Report {
        status,
        found,
        text,
    })
}

// What is said of what the gate judges: what each policy comes to, or the fault by which the gate refuses it.
fn report_judged(
    alloc: Global,
    root: &Value,
    submission: Submission,
    table: &Extensions<'_>,
) -> Result<Report, AllocError>
    ensures { IfOk result (λ r. (x : Functions) → AgreesWith table.now x → ExplainsSubmission (submission_of x submission) r) }
{
    let Submission {
        fragments,
        policies,
        level,
        limit,
    } = submission;
    let fragments = fragments.as_slice();
    match Gate::accept(alloc, fragments, policies, table, level, limit) {
        Ok(gate) => report_accepted(alloc, &gate),
        Err(fault) => report_refusal(alloc, root, &fault),
    }
}

// Whether the fault is out of memory.
fn is_memory(fault: &GateFault) -> bool
    ensures { result ≡ is_memory fault.now }
{
    matches!(fault, GateFault::OutOfMemory)
}

// What is said of a refusal. Out of memory is none.
fn report_refusal(alloc: Global, root: &Value, fault: &GateFault) -> Result<Report, AllocError>
    ensures { IfOk result (IsRefusalOf fault.now) }
{
    if is_memory(fault) {
        return Err(AllocError);
    }
    let words = format!(in alloc; "{fault}")?;
    let found = one_finding(alloc, fault.number(), words)?;
    report_refused(alloc, root, found)
}

// The one fault of this number and these words.
fn one_finding(alloc: Global, number: u32, words: String) -> Result<Vec<Finding>, AllocError>
    ensures { IfOk result (λ fs. numbers_in fs.items ≡ number ∷ []) }
{
    let path = String::from_str(alloc, "/policies")?;
    let mut found = Vec::new(alloc);
    found.push(Finding::of_none(number, words, path))?;
    Ok(found)
}

// What is said of what is accepted.
fn report_accepted(alloc: Global, gate: &Gate<'_, '_, '_>) -> Result<Report, AllocError>
    ensures status { IfOk result (λ r. r.status ≡ Status.Answered) }
    ensures found { IfOk result (λ r. r.found.items ≡ []) }
{
    let mut text = format!(in alloc; "accepted at level {}\n", gate.level())?;
    let asked = SchemaAndFunctions::new(alloc, gate.schema(), gate.table())?;
    for (number, policy) in gate.policies().iter().enumerate() {
        let subject = Subject::new(alloc, policy, number)?;
        push_lines(alloc, &asked, &subject, &mut text)?;
    }
    let found = Vec::new(alloc);
    let status = Status::Answered;
    Ok(Report {
        status,
        found,
        text,
    })
}

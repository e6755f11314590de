//! The lines that are printed. Each function appends its lines to a text, and fails only out of memory.

ghost use Rattle.std.specs.Prelude.{◌≡◌, ◌++◌, OnOk, Some, map, option_map, string_bytes};
ghost use Rattle.std.specs.List.{flat_map};
ghost use Rattle.cedar_expr_names.specs.Views.{uid_of};
ghost use Rattle.cedar_store_parts.specs.Parts.{id_text};
ghost use Rattle.cedar_evaluator_errors.specs.Outcomes.{cause_of};
ghost use Rattle.cedar_evaluator_requests.specs.Views.{decision_of, error_of, answer_of};
ghost use Rattle.cedar_gate_model.specs.Lines as lines;
ghost use Rattle.cedar_gate_runs.specs.Stops.{refusal_line, text_refused};
ghost use Rattle.cedar_gate_runs.specs.Transcripts.{entries_of};
ghost use Rattle.cedar_gate_runs.specs.Printing.{uids_text, round_line, decided_line, cause_words, error_line, impossible_lines, reason_lines, answered_lines, concrete_lines, named_line};

use crate::stops::RunFault;
use crate::transcript::{Entry, Transcript};
use cedar_evaluator_errors::EvaluationError;
use cedar_evaluator_requests::{AuthorizationError, Decision, Response};
use cedar_expr_names::{EntityUID, Quoted};
use cedar_store_parts::PolicyID;
use std::alloc::AllocError;
use std::fmt::Write;

// The word for a decision.
fn decision_word(decision: Decision) -> &'static str
    ensures { result.now ≡ lines.decision_word (decision_of decision) }
{
    match decision {
        Decision::Allow => "Allow",
        Decision::Deny => "Deny",
    }
}

/// The line of a bundle that doesn't read.
pub fn push_unreadable(out: &mut String) -> Result<(), AllocError>
    ensures { OnOk result (string_bytes out.new ≡ string_bytes out.old ++ lines.unreadable_line) }
{
    out.push_str("unreadable\n")
}

/// A line of this word and this number.
pub fn push_numbered(out: &mut String, word: &str, number: u32) -> Result<(), AllocError>
    ensures { OnOk result (string_bytes out.new ≡ string_bytes out.old ++ lines.numbered word.now number) }
{
    writeln!(out, "{word} {number}")
}

// A line of this word and the id in quotes.
fn push_named(out: &mut String, word: &str, id: &PolicyID) -> Result<(), AllocError>
    ensures { OnOk result (string_bytes out.new ≡ string_bytes out.old ++ named_line word.now (id_text id.now)) }
{
    let text = Quoted::new(id.as_str());
    writeln!(out, "{word} {text}")
}

/// The lines of the impossible policies, in their order.
pub fn push_warnings(out: &mut String, ids: &[PolicyID]) -> Result<(), AllocError>
    ensures { OnOk result (string_bytes out.new ≡ string_bytes out.old ++ impossible_lines (map id_text ids.now)) }
{
    for id in ids {
        push_named(out, "impossible", id)?;
    }
    Ok(())
}

// The words of an error, after the policy's id. An accepted policy has no other error than these.
fn push_fault(out: &mut String, error: &EvaluationError) -> Result<(), AllocError>
    ensures { OnOk result (string_bytes out.new ≡ string_bytes out.old ++ cause_words (cause_of error.now)) }
{
    match error {
        EvaluationError::EntityDoesNotExist(e) => {
            let uid = &e.uid;
            write!(out, " missing {uid}")
        }
        EvaluationError::IntegerOverflow(_) => out.push_str(" overflow"),
        EvaluationError::ZeroDivisor(_) => out.push_str(" zero"),
        EvaluationError::FailedExtensionFunctionExecution(e) => {
            let name = &e.extension_name;
            write!(out, " extension {name}")
        }
        EvaluationError::OutOfMemory => Ok(()),
        EvaluationError::EntityAttrDoesNotExist(_) => Ok(()),
        EvaluationError::RecordAttrDoesNotExist(_) => Ok(()),
        EvaluationError::FailedExtensionFunctionLookup(_) => Ok(()),
        EvaluationError::TypeError(_) => Ok(()),
        EvaluationError::WrongNumArguments(_) => Ok(()),
        EvaluationError::UnlinkedSlot(_) => Ok(()),
        EvaluationError::NonValue(_) => Ok(()),
        EvaluationError::RecursionLimit(_) => Ok(()),
    }
}

// The line of an error.
fn push_error(out: &mut String, error: &AuthorizationError) -> Result<(), AllocError>
    ensures { OnOk result (string_bytes out.new ≡ string_bytes out.old ++ error_line (error_of error.now)) }
{
    match error {
        AuthorizationError::PolicyEvaluationError { id, error } => {
            let text = Quoted::new(id.as_str());
            write!(out, "error {text}")?;
            push_fault(out, error)?;
            out.push_str("\n")
        }
    }
}

// The lines of the reasons, in their order.
fn push_reasons(out: &mut String, response: &Response) -> Result<(), AllocError>
    ensures { OnOk result (string_bytes out.new ≡ string_bytes out.old ++ reason_lines (answer_of response.now).reasons) }
{
    for id in response.diagnostics.reason.as_slice() {
        push_named(out, "reason", id)?;
    }
    Ok(())
}

// The lines of the errors, in their order.
fn push_errors(out: &mut String, errors: &[AuthorizationError]) -> Result<(), AllocError>
    ensures { OnOk result (string_bytes out.new ≡ string_bytes out.old ++ flat_map error_line (map error_of errors.now)) }
{
    for error in errors {
        push_error(out, error)?;
    }
    Ok(())
}

/// The lines of an answer: the decision, its reasons, and the errors, in their order.
pub fn push_answer(out: &mut String, response: &Response) -> Result<(), AllocError>
    ensures { OnOk result (string_bytes out.new ≡ string_bytes out.old ++ concrete_lines (answer_of response.now)) }
{
    let word = decision_word(response.decision);
    writeln!(out, "answer {word}")?;
    push_reasons(out, response)?;
    push_errors(out, response.diagnostics.errors.as_slice())
}

// The line of a decision that was asked for.
fn push_decided(out: &mut String, decision: Option<Decision>) -> Result<(), AllocError>
    ensures { OnOk result (string_bytes out.new ≡ string_bytes out.old ++ decided_line (option_map decision_of decision)) }
{
    match decision {
        None => out.push_str("decision None\n"),
        Some(decision) => {
            let word = decision_word(decision);
            writeln!(out, "decision {word}")
        }
    }
}

// The uids of a round, each after a space.
fn push_uids(out: &mut String, uids: &[EntityUID]) -> Result<(), AllocError>
    ensures { OnOk result (string_bytes out.new ≡ string_bytes out.old ++ uids_text (map uid_of uids.now)) }
{
    for uid in uids {
        write!(out, " {uid}")?;
    }
    Ok(())
}

// The line of a round, which has this number.
fn push_round(out: &mut String, number: usize, uids: &[EntityUID]) -> Result<(), AllocError>
    ensures { OnOk result (string_bytes out.new ≡ string_bytes out.old ++ round_line number (map uid_of uids.now)) }
{
    write!(out, "round {number}")?;
    push_uids(out, uids)?;
    out.push_str("\n")
}

/// The lines of what a run did, in their order. The rounds are counted from 1, and a binding has no line.
pub fn push_entries(out: &mut String, entries: &[Entry]) -> Result<(), AllocError>
    ensures { OnOk result (string_bytes out.new ≡ string_bytes out.old ++ lines.entry_lines 1 (entries_of entries.now)) }
{
    let mut rounds: usize = 0;
    for entry in entries {
        match entry {
            Entry::Round(uids) => {
                rounds += 1;
                push_round(out, rounds, uids.as_slice())?;
            }
            Entry::Bound(_) => {}
            Entry::Decided(decision) => push_decided(out, *decision)?,
        }
    }
    Ok(())
}

/// The lines of a run that came to this answer.
pub fn push_answered(
    out: &mut String,
    transcript: &Transcript,
    response: &Response,
) -> Result<(), AllocError>
    ensures { OnOk result (string_bytes out.new ≡ string_bytes out.old ++ answered_lines transcript.now response.now) }
{
    push_entries(out, transcript.entries.as_slice())?;
    push_answer(out, response)
}

// The word of a refusal and its number. None where it ran out of memory or the host failed.
fn refusal(fault: &RunFault) -> Option<(&'static str, u32)>
    ensures { option_map (λ r. lines.numbered r.0.now r.1) result ≡ refusal_line fault.now }
{
    match fault {
        RunFault::Memory { .. } | RunFault::Host { .. } => None,
        RunFault::Opening { number, .. } => Some(("open", *number)),
        RunFault::Supplying { number, .. } => Some(("supply", *number)),
        RunFault::Binding { number, .. } => Some(("bind", *number)),
        RunFault::Answering { number, .. } => Some(("answer", *number)),
    }
}

/// The lines of a run that was refused. Fails when out of memory, and where the run ended so or with a fault of its host.
pub fn push_stopped(out: &mut String, fault: &RunFault) -> Result<(), AllocError>
    ensures { OnOk result (Some (string_bytes out.new) ≡ text_refused (string_bytes out.old) fault.now) }
{
    let Some((word, number)) = refusal(fault) else {
        return Err(AllocError);
    };
    push_entries(out, fault.transcript().entries.as_slice())?;
    push_numbered(out, word, number)
}

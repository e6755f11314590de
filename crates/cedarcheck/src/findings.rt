//! What is found wrong with a bundle that reads.

ghost use Rattle.std.specs.Prelude.{◌≡◌, ◌==◌, ◌++◌, IfOk, OnOk, string_bytes};
ghost use Rattle.std.specs.List.{list_any};
ghost use Rattle.cedar_gate_model.specs.Acceptance.{Submission};
ghost use Rattle.cedarcheck.specs.Faults.{HasNumbers, KeepsNumbers, numbers_in};
ghost use Rattle.cedarcheck.specs.Lines.{refusal_line, AddsRefusal, AreRefusals};

use cedar_expr_names::{Escaped, Quoted};
use cedar_store_parts::PolicyID;
use serde_json::Value;
use std::alloc::{AllocError, Global};
use std::fmt::Write;

/// A fault: its number among the refusals, its words, the id of the policy that has it, if one has, and its pointer.
#[derive(Drop)]
pub struct Finding {
    pub number: u32,
    pub words: String,
    pub id: Option<PolicyID>,
    pub path: String,
}

impl Finding {
    /// A fault of no policy.
    pub fn of_none(number: u32, words: String, path: String) -> Finding
        ensures { result.number ≡ number }
    {
        let id = None;
        Finding {
            number,
            words,
            id,
            path,
        }
    }

    // Whether the other says the same of the same place.
    fn is(&self, other: &Finding) -> bool {
        self.number == other.number
            && self.words.as_str() == other.words.as_str()
            && self.path.as_str() == other.path.as_str()
    }
}

/// Adds a fault, if it isn't found yet.
pub fn add(found: &mut Vec<Finding>, finding: Finding) -> Result<(), AllocError> {
    for one in found.as_slice() {
        if one.is(&finding) {
            return Ok(());
        }
    }
    found.push(finding)?;
    Ok(())
}

// Whether this is one of the numbers.
fn is_among(numbers: &[u32], number: u32) -> bool
    ensures { result ≡ list_any (λ n. n == number) numbers.now }
{
    for one in numbers {
        if *one == number {
            return true;
        }
    }
    false
}

// Adds the finding, if its number is one of these.
fn keep(kept: &mut Vec<Finding>, finding: Finding, numbers: &[u32]) -> Result<(), AllocError>
    ensures { (s : Submission) → HasNumbers s numbers.now → OnOk result (KeepsNumbers s (numbers_in kept.old.items) (numbers_in kept.new.items)) }
{
    if !is_among(numbers, finding.number) {
        return Ok(());
    }
    kept.push(finding)?;
    Ok(())
}

/// Those findings whose number is one of these.
pub fn with_numbers(
    alloc: Global,
    found: Vec<Finding>,
    numbers: &[u32],
) -> Result<Vec<Finding>, AllocError>
    ensures { IfOk result (λ fs. (s : Submission) → HasNumbers s numbers.now → HasNumbers s (numbers_in fs.items)) }
{
    let mut kept = Vec::new(alloc);
    for finding in found {
        keep(&mut kept, finding, numbers)?;
    }
    Ok(kept)
}

/// The lines of the faults.
pub fn lines_of(alloc: Global, root: &Value, found: &[Finding]) -> Result<String, AllocError>
    ensures { IfOk result (λ t. AreRefusals (numbers_in found.now) (string_bytes t)) }
{
    let mut text = String::new(alloc);
    for one in found {
        push_finding(alloc, &mut text, root, one)?;
    }
    Ok(text)
}

// Appends the line of a fault.
fn push_finding(
    alloc: Global,
    out: &mut String,
    root: &Value,
    finding: &Finding,
) -> Result<(), AllocError>
    ensures { OnOk result (AddsRefusal finding.now.number (string_bytes out.old) (string_bytes out.new)) }
{
    let rest = words_of(alloc, root, finding)?;
    push_refusal(out, finding.number, rest.as_str())
}

// Appends a line of this number and these words.
fn push_refusal(out: &mut String, number: u32, words: &str) -> Result<(), AllocError>
    ensures { OnOk result (string_bytes out.new ≡ string_bytes out.old ++ refusal_line number words.now) }
{
    writeln!(out, "refused {number} {words}")
}

// What stands behind the number in the line of a fault.
fn words_of(alloc: Global, root: &Value, finding: &Finding) -> Result<String, AllocError> {
    let mut words = String::new(alloc);
    push_in_line(&mut words, finding.words.as_str())?;
    if let Some(id) = &finding.id {
        push_policy(&mut words, id)?;
    }
    push_place(alloc, &mut words, root, finding.path.as_str())?;
    Ok(words)
}

/// Appends whose a line is.
pub fn push_policy(out: &mut String, id: &PolicyID) -> Result<(), AllocError> {
    let text = Quoted::new(id.as_str());
    write!(out, ", policy {text}")
}

/// Appends a text, with escapes in the place of control characters, so that it stays in its line.
pub fn push_in_line(out: &mut String, text: &str) -> Result<(), AllocError> {
    for c in text.chars() {
        push_visible(out, c)?;
    }
    Ok(())
}

// Appends a character, or, for a control character, its escape.
fn push_visible(out: &mut String, c: char) -> Result<(), AllocError> {
    if c < ' ' {
        write!(out, "{}", Escaped::new(c))
    } else {
        out.push(c)
    }
}

/// Appends a pointer with the text there.
pub fn push_place(
    alloc: Global,
    out: &mut String,
    root: &Value,
    path: &str,
) -> Result<(), AllocError> {
    out.push_str(" at ")?;
    push_in_line(out, path)?;
    match root.pointer(path) {
        Some(value) => {
            let text = value.to_string(alloc)?;
            write!(out, ": {}", text.as_str())
        }
        None => out.push_str(": nothing is there"),
    }
}

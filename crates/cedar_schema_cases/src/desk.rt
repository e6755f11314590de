//! What the rows of a case work on, and how they are gone over.
//!
//! A row `QUESTION => ANSWER` asks, and the answer is compared whole. A row that begins with `#` begins a case anew. Any other row
//! declares something: a line of `cedar_schema_examples::fragment`; `fragment` alone, behind which another fragment begins;
//! `common A | Set of T` or `commons A | Set of T`, a fragment of its own that declares this common type alone; or `apart N`, behind which
//! all that is declared in this namespace stands, which is a fragment of its own.

use crate::written::{Written, written};
use crate::{building, declaring, reading, sound, steps};
use cedar_expr_functions::Extensions;
use cedar_schema_built::ValidatorSchema;
use cedar_schema_fragments::FragmentError;
use std::alloc::{AllocError, Global};

// The words that begin a row that declares something.
const DECLARING: &str =
    "type entity enum extern action outside namespace fragment common commons apart";

pub struct Desk {
    pub alloc: Global,
    // The declarations of the case.
    lines: String,
    // The schema that was built last.
    pub schema: ValidatorSchema,
}

// A drop of its own is one step to the proof of a function that owns a desk.
impl Drop for Desk {
    fn drop(self) {
        let Desk {
            alloc: _,
            lines: _,
            schema: _,
        } = self;
    }
}

impl Desk {
    fn new(alloc: Global) -> Desk {
        Desk {
            alloc,
            lines: String::new(alloc),
            schema: ValidatorSchema::empty(alloc),
        }
    }

    // The fragments of the case.
    pub fn fragments(&self) -> Result<Vec<Written>, FragmentError> {
        let mut fragments = Vec::new(self.alloc);
        for lines in self.lines.split("fragment\n") {
            fragments.push(written(self.alloc, lines)?)?;
        }
        Ok(fragments)
    }

    // Takes in a row that declares something. Fails where it doesn't.
    fn declare(&mut self, row: &str) -> Result<(), AllocError> {
        let (verb, _) = row.split_once(' ').unwrap_or((row, ""));
        if !DECLARING.contains(verb) {
            return Err(AllocError);
        }
        self.lines.push_str(row)?;
        self.lines.push_str("\n")
    }
}

// Answers a question. Fails where it is none.
fn answer(
    desk: &mut Desk,
    question: &str,
    table: &Extensions<'_>,
    said: &mut String,
) -> Result<(), AllocError> {
    let (verb, rest) = question.split_once(' ').unwrap_or((question, ""));
    match verb {
        "schema" => building::schema(desk, table, said),
        "schema_without" => building::schema(desk, &Extensions::none(desk.alloc), said),
        "steps" => steps::steps(desk, table, said),
        "refusal" => steps::refusal(desk.alloc, rest, said),
        "validate" => sound::validate(desk, rest, table, said),
        "validate_without" => sound::validate(desk, rest, &Extensions::none(desk.alloc), said),
        "names" | "checked" | "marked" | "means" => declaring::answer(desk, verb, rest, said),
        _ => reading::answer(desk.alloc, &desk.schema, verb, rest, said),
    }
}

// Whether the row holds, with what is said in place of its answer.
fn holds(
    desk: &mut Desk,
    row: &str,
    table: &Extensions<'_>,
    said: &mut String,
) -> Result<bool, AllocError> {
    if row.starts_with('#') {
        *desk = Desk::new(desk.alloc);
        return Ok(true);
    }
    match row.split_once(" =>") {
        None => {
            desk.declare(row)?;
            Ok(true)
        }
        Some((question, wanted)) => {
            answer(desk, question, table, said)?;
            Ok(said.as_str() == wanted.strip_prefix(' ').unwrap_or(wanted))
        }
    }
}

// The first row that doesn't hold, and what is said; empty where all hold.
pub fn wrong_row(alloc: Global, rows: &str, table: &Extensions<'_>) -> Result<String, AllocError> {
    let mut desk = Desk::new(alloc);
    for row in rows.lines() {
        let mut said = String::new(alloc);
        match holds(&mut desk, row, table, &mut said) {
            Ok(true) => (),
            Ok(false) => return format!(in alloc; "{row}: {said}"),
            Err(_) => return format!(in alloc; "{row}: nothing is said"),
        }
    }
    Ok(String::new(alloc))
}

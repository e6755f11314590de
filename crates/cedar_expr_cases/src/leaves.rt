//! Patterns and literals.

use crate::names;
use cedar_expr_leaves::*;
use cedar_expr_names::Loc;
use cedar_test_exprs::{at, kept, literal, made, show, tell, told_copy, uid};
use std::alloc::{AllocError, Global};

// Does the command, or one of those on names and values.
pub fn done(alloc: Global, said: &mut String, verb: &str, rest: &str) -> Result<(), AllocError> {
    match verb {
        "pattern" => told_copy(alloc, said, pattern(alloc, rest)),
        "match" => matches(alloc, said, rest),
        "literal" => told_copy(alloc, said, literal(alloc, rest)),
        "string" => told_copy(alloc, said, string(alloc, rest)),
        "reference" => reference(alloc, said, rest),
        _ => names::done(alloc, said, verb, rest),
    }
}

// The pattern of a text in which each `*` is a wildcard.
fn pattern(alloc: Global, text: &str) -> Result<Pattern, AllocError> {
    let mut elements = Vec::new(alloc);
    for c in text.chars() {
        elements.push(if c == '*' {
            PatternElem::Wildcard
        } else {
            PatternElem::Char(c)
        })?;
    }
    Pattern::new(alloc, elements)
}

// Says whether the pattern before `|` matches the text behind it.
fn matches(alloc: Global, said: &mut String, text: &str) -> Result<(), AllocError> {
    let (written, text) = text.split_once('|').ok_or(AllocError)?;
    tell(said, pattern(alloc, written)?.wildcard_match(text))
}

fn string(alloc: Global, text: &str) -> Result<Literal, AllocError> {
    made(Literal::from_string(String::from_str(alloc, text)?))
}

// Says a copy of the literal of a uid, and where it stands.
fn reference(alloc: Global, said: &mut String, text: &str) -> Result<(), AllocError> {
    let it = kept(alloc, Literal::from_entity_uid(alloc, uid(alloc, text)?))?;
    let copy = kept(alloc, Literal::clone(&it))?;
    show(alloc, said, copy.as_ref())?;
    at(alloc, said, place_of(&copy))
}

// The place of the uid that a literal is.
fn place_of(literal: &Literal) -> Option<Loc> {
    match literal {
        Literal::EntityUID(uid) => uid.loc(),
        _ => None,
    }
}

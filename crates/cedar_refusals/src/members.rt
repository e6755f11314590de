//! Calls of values and expressions, each a row: `set VALUE | VALUE ..`, and `substitute NAME VALUE | NAME VALUE .. : EXPRESSION`.

use crate::told::{Made, Told};
use cedar_expr_builders::{BuildFault, PlainBuilder};
use cedar_expr_substitution::Substitute;
use cedar_expr_trees::Expr;
use cedar_expr_values::{ExtValue, Set, Value};
use cedar_test_exprs::{both, expr, is, value, word};
use std::alloc::{AllocError, Global};
use std::collections::HashMap;
use std::rc::RcStr;

type V = Value<ExtValue>;

type Mapping = HashMap<RcStr, V>;

/// Makes the call of each row, and says how many members the set has, or the expression that is made, which stands in the row.
pub fn make_calls(alloc: Global, rows: &str, told: &mut Told) -> Made<()> {
    for row in rows.lines() {
        let (verb, rest) = row.split_once(' ').ok_or(AllocError)?;
        match verb {
            "set" => set(alloc, rest, told)?,
            _ => substitute(alloc, rest, told)?,
        }
    }
    Ok(())
}

fn values(alloc: Global, text: &str) -> Made<Vec<V>> {
    let mut values = Vec::new(alloc);
    for text in text.split(" | ") {
        values.push(value(alloc, text)?)?;
    }
    Ok(values)
}

// Makes a set. Out of memory it is made again.
fn set(alloc: Global, text: &str, told: &mut Told) -> Made<()> {
    let (first, again) = both(values(alloc, text), values(alloc, text))?;
    let made = match Set::new(alloc, first) {
        Ok(set) => set,
        Err(_) => {
            told.say_again("Set::new")?;
            Set::new(alloc, again)?
        }
    };
    told.say_number("set", made.len())
}

fn bindings(alloc: Global, text: &str) -> Made<Mapping> {
    let mut bindings = HashMap::new(alloc);
    for text in text.split(" | ") {
        let (name, text) = text.split_once(' ').ok_or(AllocError)?;
        let (name, value) = both(word(alloc, name), value(alloc, text))?;
        bindings.insert(name, value)?;
    }
    Ok(bindings)
}

// Puts values in the place of unknowns. Out of memory it is done again.
fn substitute(alloc: Global, rest: &str, told: &mut Told) -> Made<()> {
    let (given, texts) = rest.split_once(" : ").ok_or(AllocError)?;
    let (text, wanted) = texts.split_once(" : ").ok_or(AllocError)?;
    let bindings = bindings(alloc, given)?;
    let e = expr(alloc, text)?;
    let made = match substituted(alloc, &e, &bindings) {
        Ok(made) => made,
        Err(_) => {
            told.say_again("substitute_into_expr")?;
            substituted(alloc, &e, &bindings)?
        }
    };
    let mut said = String::new(alloc);
    is(
        alloc,
        &mut said,
        Result::<Expr, AllocError>::Ok(made),
        wanted,
    )?;
    told.say(said.as_str())
}

fn substituted(alloc: Global, e: &Expr, bindings: &Mapping) -> Made<Expr> {
    match e.substitute_into_expr::<PlainBuilder, ExtValue>(alloc, bindings) {
        Ok(made) => Ok(made),
        Err(BuildFault::OutOfMemory) => Err(AllocError),
        Err(BuildFault::Refused(never)) => match never {},
    }
}

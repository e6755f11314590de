//! What is built, also anew, and substitution.

use crate::constructors as constructed;
use cedar_expr_builders::expr_builder::ExprBuilder as Builds;
use cedar_expr_builders::{BuildFault, ExprBuilder, PlainBuilder};
use cedar_expr_substitution::{Rebuild, Substitute, SubstitutionError};
use cedar_expr_trees::{Expr, ExpressionConstructionError};
use cedar_expr_values::{ExtValue, Value};
use cedar_test_exprs::{at, both, is, read, refused, show, value, word};
use std::alloc::{AllocError, Global};
use std::collections::HashMap;
use std::rc::RcStr;

type Bindings = HashMap<RcStr, Value<ExtValue>>;

// Does the command, which has a verb and the rest.
pub fn done(
    alloc: Global,
    said: &mut String,
    command: (&str, &str),
    wanted: &str,
) -> Result<(), AllocError> {
    let (verb, rest) = command;
    match verb {
        "relations" => constructed::relations(alloc, said),
        "sums" => constructed::sums(alloc, said),
        "members" => constructed::members(alloc, said),
        "built_relations" => constructed::built_relations(alloc, said),
        "built_sums" => constructed::built_sums(alloc, said),
        "built_members" => constructed::built_members(alloc, said),
        "record" => refused(alloc, said, constructed::record(alloc, rest)),
        "built_record" => refused(alloc, said, constructed::built_record(alloc, rest)),
        "no_memory" => show(alloc, said, &ExpressionConstructionError::OutOfMemory),
        "faults" => faults(alloc, said),
        _ => of_expr(alloc, said, command, wanted),
    }
}

// Does the command on an expression.
fn of_expr(
    alloc: Global,
    said: &mut String,
    command: (&str, &str),
    wanted: &str,
) -> Result<(), AllocError> {
    let (verb, rest) = command;
    match verb {
        "taken_over" => taken_over(alloc, said, &*read(alloc, rest)?),
        "again" => is(
            alloc,
            said,
            read(alloc, rest)?.into_expr::<PlainBuilder>(alloc),
            wanted,
        ),
        _ => {
            let (bound, text) = rest.split_once(' ').ok_or(AllocError)?;
            let (bindings, e) = both(bindings(alloc, bound), read(alloc, text))?;
            substituted(alloc, said, verb, (&*e, &bindings), wanted)
        }
    }
}

// Says the place of a builder that takes over that of an expression.
fn taken_over(alloc: Global, said: &mut String, e: &Expr) -> Result<(), AllocError> {
    let builder: ExprBuilder<u8> = Builds::with_data(7);
    at(alloc, said, builder.with_same_source_loc(e).loc())
}

// The bindings of a text, as in `x=1;y=true`.
fn bindings(alloc: Global, text: &str) -> Result<Bindings, AllocError> {
    let mut bindings = HashMap::new(alloc);
    for binding in text.split(';') {
        if let Some((name, text)) = binding.split_once('=') {
            let (name, value) = both(word(alloc, name), value(alloc, text))?;
            bindings.insert(name, value)?;
        }
    }
    Ok(bindings)
}

fn substituted(
    alloc: Global,
    said: &mut String,
    verb: &str,
    put: (&Expr, &Bindings),
    wanted: &str,
) -> Result<(), AllocError> {
    let (e, bindings) = put;
    match verb {
        "put" => is(alloc, said, e.substitute(alloc, bindings), wanted),
        "typed" => typed(alloc, said, e.substitute_typed(alloc, bindings), wanted),
        "through" => {
            let made = e.substitute_into_expr::<PlainBuilder, ExtValue>(alloc, bindings);
            is(alloc, said, made, wanted)
        }
        _ => Err(AllocError),
    }
}

// Says what was made, or the refusal.
fn typed(
    alloc: Global,
    said: &mut String,
    made: Result<Expr, SubstitutionError>,
    wanted: &str,
) -> Result<(), AllocError> {
    match made {
        Err(fault) => show(alloc, said, &fault),
        Ok(e) => is(alloc, said, Result::<Expr, AllocError>::Ok(e), wanted),
    }
}

fn faults(alloc: Global, said: &mut String) -> Result<(), AllocError> {
    let fault: BuildFault<i64> = BuildFault::OutOfMemory;
    show(alloc, said, &fault)?;
    let fault: BuildFault<i64> = BuildFault::Refused(5);
    show(alloc, said, &fault)?;
    show(alloc, said, &SubstitutionError::OutOfMemory)
}

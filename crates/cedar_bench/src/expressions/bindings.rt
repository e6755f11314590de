//! Values in the place of unknowns.

use crate::expressions::trees;
use cedar_expr::{BuildFault, Expr, ExtValue, Literal, PlainBuilder, Substitute, Unknown, Value};
use std::alloc::{AllocError, Global};
use std::collections::HashMap;
use std::rc::RcStr;

type Bindings = HashMap<RcStr, Value<ExtValue>>;

// The name of the unknown with this number.
fn name(alloc: Global, number: u32) -> Result<RcStr, AllocError> {
    RcStr::from_str(alloc, format!(in alloc; "u{number}")?.as_str())
}

// The unknown with this number.
fn unknown(alloc: Global, number: u32) -> Result<Expr, AllocError> {
    Ok(Expr::unknown(Unknown::new_untyped(name(alloc, number)?)))
}

// A set of so many unknowns.
fn unknowns(alloc: Global, size: u32) -> Result<Expr, AllocError> {
    let mut members = Vec::new(alloc);
    for n in 0..size {
        members.push(unknown(alloc, n)?)?;
    }
    Expr::set(alloc, members)
}

// Each of so many unknowns bound to its number.
fn numbers(alloc: Global, size: u32) -> Result<Bindings, AllocError> {
    let mut bindings = HashMap::new(alloc);
    for n in 0..size {
        bindings.insert(name(alloc, n)?, Value::from(Literal::from(i64::from(n))))?;
    }
    Ok(bindings)
}

/// How many subexpressions a set of so many unknowns has once each has its value.
pub fn wide(alloc: Global, size: u32) -> Result<usize, AllocError> {
    let set = unknowns(alloc, size)?;
    let made = set.substitute(alloc, &numbers(alloc, size)?)?;
    trees::counted(alloc, &made)
}

/// How many subexpressions an unknown has that is negated so many times, once it has its value.
pub fn deep(alloc: Global, size: u32) -> Result<usize, AllocError> {
    let mut e = unknown(alloc, 0)?;
    for _ in 0..size {
        e = Expr::neg(alloc, e)?;
    }
    let made = e.substitute(alloc, &numbers(alloc, 1)?)?;
    trees::counted(alloc, &made)
}

/// How many subexpressions a builder's expression has that it makes of a set of so many unknowns, each with its value.
pub fn built(alloc: Global, size: u32) -> Result<usize, AllocError> {
    let set = unknowns(alloc, size)?;
    let bindings = numbers(alloc, size)?;
    match set.substitute_into_expr::<PlainBuilder, ExtValue>(alloc, &bindings) {
        Ok(made) => trees::counted(alloc, &made),
        Err(BuildFault::OutOfMemory) => Err(AllocError),
        Err(BuildFault::Refused(never)) => match never {},
    }
}

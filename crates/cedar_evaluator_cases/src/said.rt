//! What a row comes to, said behind its command.

use crate::desk::{Made, Part, V};
use cedar_expr_partial::FromValue;
use cedar_expr_trees::Expr;
use cedar_test_exprs::{expr, say, show, value};
use std::alloc::Global;
use std::fmt::Display;

// What was made, laid on the pile. Says why it wasn't made.
pub fn put<T: Drop, E: Display + Drop>(
    alloc: Global,
    said: &mut String,
    pile: &mut Vec<T>,
    made: Result<T, E>,
) -> Made<()> {
    match made {
        Ok(made) => {
            pile.push(made)?;
            Ok(())
        }
        Err(e) => show(alloc, said, &e),
    }
}

// Lays what was made on the pile. Fails where it wasn't made.
pub fn lay<T: Drop>(pile: &mut Vec<T>, made: Made<T>) -> Made<()> {
    pile.push(made?)?;
    Ok(())
}

// Says the expression that is wanted, where it is the one that was found.
pub fn same(alloc: Global, said: &mut String, found: &Expr, wanted: &str) -> Made<()> {
    if *found == expr(alloc, wanted)? {
        say(said, wanted)
    } else {
        say(said, "another expression")
    }
}

// Says the expression that is wanted, where it was made. Says why it wasn't.
pub fn made<T: AsRef<Expr> + Drop, E: Display + Drop>(
    alloc: Global,
    said: &mut String,
    found: Result<T, E>,
    wanted: &str,
) -> Made<()> {
    match found {
        Ok(found) => same(alloc, said, found.as_ref(), wanted),
        Err(e) => show(alloc, said, &e),
    }
}

// Says `value` or `residual` and what is wanted, where that was found. Says the error where there is one.
pub fn left<E: Display + Drop>(
    alloc: Global,
    said: &mut String,
    found: Result<Part, E>,
    wanted: &str,
) -> Made<()> {
    let (_, wanted) = two(wanted);
    match found {
        Ok(Part::Value(v)) => {
            say(said, "value")?;
            said_value(alloc, said, &v, wanted)
        }
        Ok(Part::Residual(e)) => {
            say(said, "residual")?;
            same(alloc, said, &e, wanted)
        }
        Err(e) => show(alloc, said, &e),
    }
}

// Says the value that is wanted, where it was found. Says the error where there is one.
pub fn found_value<E: Display + Drop>(
    alloc: Global,
    said: &mut String,
    found: Result<V, E>,
    wanted: &str,
) -> Made<()> {
    match found {
        Ok(v) => said_value(alloc, said, &v, wanted),
        Err(e) => show(alloc, said, &e),
    }
}

// Says the value that is wanted, where it is the one that was found; of another one the expression that it is written as.
fn said_value(alloc: Global, said: &mut String, found: &V, wanted: &str) -> Made<()> {
    match value(alloc, wanted) {
        Ok(v) if v == *found => say(said, wanted),
        _ => same(alloc, said, &Expr::from_value(alloc, found)?, wanted),
    }
}

// Both parts of a text, before and behind the first space; the second is empty where there is one alone.
pub fn two(text: &str) -> (&str, &str) {
    text.split_once(' ').unwrap_or((text, ""))
}

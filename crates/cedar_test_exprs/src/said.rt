//! Expressions and places in rows of tests: what is read of a command, and what is said behind it.

use crate::reading::expr;
use crate::{kept, say};
use cedar_expr_names::Loc;
use cedar_expr_trees::Expr;
use std::alloc::{AllocError, Global};
use std::rc::Rc;

/// Says where a place begins, as `@4`; where there is none, `@nowhere`. Fails only when out of memory.
pub fn at(alloc: Global, said: &mut String, place: Option<Loc>) -> Result<(), AllocError> {
    match place {
        None => say(said, "@nowhere"),
        Some(place) => {
            let text = format!(in alloc; "@{}", place.start())?;
            say(said, text.as_str())
        }
    }
}

/// The expression that the text writes, shared. Fails where it writes none, and when out of memory.
pub fn read(alloc: Global, text: &str) -> Result<Rc<Expr>, AllocError> {
    kept(alloc, expr(alloc, text))
}

// Whether each part of the one stands where that of the other does.
fn stand_alike(alloc: Global, e: &Expr, other: &Expr) -> Result<bool, AllocError> {
    let mut others = other.subexpressions(alloc)?;
    for part in e.subexpressions(alloc)? {
        match others.next() {
            Some(other) if other.source_loc() == part.source_loc() => {}
            _ => return Ok(false),
        }
    }
    Ok(others.next().is_none())
}

/// Says the wanted text, where what was made is the expression that it writes, with the same places. Fails where it wasn't made, where
/// the text writes none, and when out of memory.
pub fn is<E: Drop>(
    alloc: Global,
    said: &mut String,
    made: Result<Expr, E>,
    wanted: &str,
) -> Result<(), AllocError> {
    let made = kept(alloc, made)?;
    let written = read(alloc, wanted)?;
    if *made != *written {
        say(said, "another expression")
    } else if stand_alike(alloc, &made, &written)? {
        say(said, wanted)
    } else {
        say(said, "the expression at other places")
    }
}

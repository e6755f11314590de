//! Expressions of expressions that stand on a stack, each by the rest of its word.

use crate::naming::{entity_type, name, word};
use crate::stack::{named, several};
use crate::{made, one};
use cedar_expr_leaves::{Pattern, PatternElem};
use cedar_expr_trees::{Expr, NonEmpty};
use std::alloc::{AllocError, Global};

// Whether attributes are there, one after the other, with points between their names.
pub fn has(alloc: Global, stack: &mut Vec<Expr>, text: &str) -> Result<Expr, AllocError> {
    let mut names = text.split('.');
    let head = names.next().ok_or(AllocError)?;
    let mut path = NonEmpty::singleton(alloc, word(alloc, head)?);
    for name in names {
        path.tail.push(word(alloc, name)?)?;
    }
    Expr::extended_has_attr(alloc, one(stack)?, path)
}

// Whether a text matches a pattern, where each `*` is a wildcard.
pub fn like(alloc: Global, stack: &mut Vec<Expr>, text: &str) -> Result<Expr, AllocError> {
    let mut elements = Vec::new(alloc);
    for c in text.chars() {
        elements.push(if c == '*' {
            PatternElem::Wildcard
        } else {
            PatternElem::Char(c)
        })?;
    }
    let pattern = Pattern::new(alloc, elements)?;
    Expr::like(alloc, one(stack)?, pattern)
}

// Whether an entity is of the type.
pub fn is(alloc: Global, stack: &mut Vec<Expr>, text: &str) -> Result<Expr, AllocError> {
    let of = entity_type(alloc, text)?;
    Expr::is_entity_type(alloc, one(stack)?, of)
}

// The set of the last ones, so many.
pub fn set(alloc: Global, stack: &mut Vec<Expr>, count: &str) -> Result<Expr, AllocError> {
    Expr::set(alloc, several(alloc, stack, count)?)
}

// A call of the function of the name before `/`, with as many arguments as the number behind it.
pub fn call(alloc: Global, stack: &mut Vec<Expr>, text: &str) -> Result<Expr, AllocError> {
    let (function, count) = text.split_once('/').ok_or(AllocError)?;
    let function = name(alloc, function)?;
    Expr::call_extension_fn(alloc, function, several(alloc, stack, count)?)
}

// The record of fields of these names and the last values.
pub fn record(alloc: Global, stack: &mut Vec<Expr>, names: &str) -> Result<Expr, AllocError> {
    made(Expr::record(alloc, named(alloc, stack, names)?))
}

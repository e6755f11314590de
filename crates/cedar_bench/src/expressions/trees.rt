//! Wide and deep expressions.

use cedar_expr::{Expr, ExprIterator, Literal};
use std::alloc::{AllocError, Global};

/// How many subexpressions a set of so many numbers has.
pub fn wide(alloc: Global, size: u32) -> Result<usize, AllocError> {
    let mut members = Vec::new(alloc);
    for n in 0..size {
        members.push(Expr::val(Literal::from(i64::from(n))))?;
    }
    let set = Expr::set(alloc, members)?;
    counted(alloc, &set)
}

/// How many subexpressions a number has that is negated so many times.
pub fn deep(alloc: Global, size: u32) -> Result<usize, AllocError> {
    let mut e = Expr::val(Literal::from(1i64));
    for _ in 0..size {
        e = Expr::neg(alloc, e)?;
    }
    counted(alloc, &e)
}

/// How many subexpressions an expression has.
pub fn counted(alloc: Global, e: &Expr) -> Result<usize, AllocError> {
    let mut count = 0usize;
    for _ in ExprIterator::new(alloc, e)? {
        count = count.wrapping_add(1);
    }
    Ok(count)
}

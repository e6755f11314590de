//! Expressions with data.

use cedar_expr_trees::{Expr, ExprKind, Literal, Loc};
use cedar_test_exprs::{at, kept, shared, show};
use std::alloc::{AllocError, Global};

// The number 5 at a place, with data.
fn five() -> Expr<usize> {
    Expr::new(ExprKind::Lit(Literal::from(5)), Some(Loc::new(3, 7)), 8)
}

// Says the literal that a kind is.
fn literal(alloc: Global, said: &mut String, kind: &ExprKind<usize>) -> Result<(), AllocError> {
    match kind {
        ExprKind::Lit(literal) => show(alloc, said, literal),
        _ => Err(AllocError),
    }
}

// Says what stands in a copy of the number, the data that are put into it, and its place.
pub fn copied(alloc: Global, said: &mut String) -> Result<(), AllocError> {
    let copy = kept(alloc, five().clone())?;
    literal(alloc, said, copy.expr_kind())?;
    at(alloc, said, copy.source_loc())?;
    show(alloc, said, copy.data())?;
    let mut changed = five();
    changed.set_data(9);
    show(alloc, said, &changed.into_data())?;
    taken(alloc, said)
}

// Says its place, and a copy of its kind.
fn taken(alloc: Global, said: &mut String) -> Result<(), AllocError> {
    let place = five().into_parts().1;
    at(alloc, said, place)?;
    let kind = shared(alloc, five().into_expr_kind())?;
    let copy = kept(alloc, ExprKind::clone(&kind))?;
    literal(alloc, said, &copy)
}

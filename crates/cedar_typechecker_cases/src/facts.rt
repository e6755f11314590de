//! Facts and sets of them, and answers without facts.

use cedar_expr_leaves::Literal;
use cedar_expr_trees::{Expr, ExprKind};
use cedar_schema_types::Type;
use cedar_test_exprs::{both, expr, tell, word};
use cedar_typechecker::{Capability, CapabilitySet, TypecheckAnswer};
use std::alloc::{AllocError, Global};

// The fact that an expression has an attribute, whose name stands behind it.
fn fact<'a>(alloc: Global, text: &str) -> Result<Capability<'a>, AllocError> {
    let (e, name) = text.rsplit_once(' ').ok_or(AllocError)?;
    let (e, name) = both(expr(alloc, e), word(alloc, name))?;
    Ok(Capability::new_attribute_owned(e, name))
}

// The set of this fact alone.
fn alone<'a>(alloc: Global, text: &str) -> Result<CapabilitySet<'a>, AllocError> {
    CapabilitySet::singleton(alloc, fact(alloc, text)?)
}

// Says whether the second fact is in the union of the sets of one fact each, and whether it is in their intersection.
pub fn facts(alloc: Global, said: &mut String, one: &str, other: &str) -> Result<(), AllocError> {
    let sets = both(alone(alloc, one), alone(alloc, other));
    let ((one, other), asked) = both(sets, fact(alloc, other))?;
    told(said, &one, &other, &asked)
}

fn told<'a>(
    said: &mut String,
    one: &CapabilitySet<'a>,
    other: &CapabilitySet<'a>,
    asked: &Capability<'a>,
) -> Result<(), AllocError> {
    tell(said, one.union(other)?.contains(asked))?;
    tell(said, one.intersect(other)?.contains(asked))
}

// Says whether an answer without facts has a type, whether it has this one, and whether it has the other.
pub fn success(
    alloc: Global,
    said: &mut String,
    of: &Type,
    other: &Type,
) -> Result<(), AllocError> {
    let kind = ExprKind::Lit(Literal::from(true));
    let e = Expr::new(kind, None, Some(of.clone()?));
    told_answer(said, &TypecheckAnswer::success(alloc, e), of, other)
}

fn told_answer(
    said: &mut String,
    answer: &TypecheckAnswer<'_>,
    of: &Type,
    other: &Type,
) -> Result<(), AllocError> {
    tell(said, answer.typechecked())?;
    tell(said, answer.contains_type(of))?;
    tell(said, answer.contains_type(other))
}

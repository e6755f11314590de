//! What is seen of an expression, and how two are compared.

use crate::{building, data};
use cedar_expr_shapes::{ExprShape, ExprShapeOnly};
use cedar_expr_trees::{Expr, ExprKind};
use cedar_test_exprs::{at, both, read, say, show, tell};
use std::alloc::{AllocError, Global};
use std::cmp::Ordering;
use std::collections::HashSet;
use std::hash::{DefaultHasher, Hash, Hasher};

// Does the command, which has a verb and the rest, or one of the others.
pub fn done(
    alloc: Global,
    said: &mut String,
    command: (&str, &str),
    wanted: &str,
) -> Result<(), AllocError> {
    let (verb, rest) = command;
    match verb {
        "root" => root(alloc, said, &*read(alloc, rest)?),
        "places" => places(alloc, said, &*read(alloc, rest)?),
        "what" => what(said, &*read(alloc, rest)?),
        "held" => held(alloc, said, &*read(alloc, rest)?),
        "same" => same(alloc, said, rest),
        "data" => data::copied(alloc, said),
        _ => building::done(alloc, said, command, wanted),
    }
}

// Its literal, variable, slot or unknown, its operator, its name, or its kind.
fn root(alloc: Global, said: &mut String, e: &Expr) -> Result<(), AllocError> {
    match e.expr_kind() {
        ExprKind::Lit(it) => show(alloc, said, it),
        ExprKind::Var(it) => show(alloc, said, it),
        ExprKind::Slot(it) => show(alloc, said, it),
        ExprKind::Unknown(it) => show(alloc, said, it),
        ExprKind::If { .. } => say(said, "if"),
        ExprKind::And { .. } => say(said, "&&"),
        ExprKind::Or { .. } => say(said, "||"),
        ExprKind::UnaryApp { op, .. } => show(alloc, said, op),
        ExprKind::BinaryApp { op, .. } => show(alloc, said, op),
        ExprKind::ExtensionFunctionApp { fn_name, .. } => show(alloc, said, fn_name),
        ExprKind::GetAttr { attr, .. } => say(said, attr.as_str()),
        ExprKind::HasAttr { attr, .. } => say(said, attr.as_str()),
        ExprKind::ExtHasAttr { .. } => say(said, "path"),
        ExprKind::Like { pattern, .. } => show(alloc, said, pattern),
        ExprKind::Is { entity_type, .. } => show(alloc, said, entity_type),
        ExprKind::Set(_) => say(said, "set"),
        ExprKind::Record(_) => say(said, "record"),
    }
}

fn places(alloc: Global, said: &mut String, e: &Expr) -> Result<(), AllocError> {
    for part in e.subexpressions(alloc)? {
        at(alloc, said, part.source_loc())?;
    }
    Ok(())
}

fn what(said: &mut String, e: &Expr) -> Result<(), AllocError> {
    tell(said, e.is_ref())?;
    tell(said, e.is_slot())?;
    tell(said, e.is_ref_set())?;
    tell(said, e.is_projectable())
}

fn held(alloc: Global, said: &mut String, e: &Expr) -> Result<(), AllocError> {
    for unknown in e.unknowns(alloc)? {
        say(said, unknown.name.as_str())?;
    }
    for slot in e.slots(alloc)? {
        show(alloc, said, &slot.id)?;
        at(alloc, said, slot.loc)?;
    }
    if said.is_empty() {
        say(said, "")
    } else {
        Ok(())
    }
}

// What an expression feeds a hasher, and what its shape does.
fn hashes(e: &Expr) -> (u64, u64) {
    let mut of_expr = DefaultHasher::new();
    e.hash(&mut of_expr);
    let mut of_shape = DefaultHasher::new();
    e.hash_shape(&mut of_shape);
    (of_expr.finish(), of_shape.finish())
}

fn same(alloc: Global, said: &mut String, text: &str) -> Result<(), AllocError> {
    let (first, second) = text.split_once(" | ").ok_or(AllocError)?;
    let (first, second) = both(read(alloc, first), read(alloc, second))?;
    let (ours, theirs) = (hashes(&first), hashes(&second));
    tell(said, *first == *second && ours.0 == theirs.0)?;
    tell(said, first.eq_shape(&second) && ours.1 == theirs.1)?;
    tell(said, are_same_keys(alloc, &first, &second)?)?;
    say(
        said,
        match first.cmp_shape(&second) {
            Ordering::Less => "before",
            Ordering::Equal => "same",
            Ordering::Greater => "behind",
        },
    )
}

// Whether a copy of the second is found among the keys of the first, by its shape, and stands nowhere else in their order.
fn are_same_keys(alloc: Global, first: &Expr, second: &Expr) -> Result<bool, AllocError> {
    let key = ExprShapeOnly::new_from_borrowed(second).clone()?;
    let stands_there = key.cmp(&ExprShapeOnly::new_from_borrowed(first)).is_eq();
    let mut seen = HashSet::new(alloc);
    seen.insert(ExprShapeOnly::new_from_borrowed(first))?;
    Ok(seen.contains(&key) && stands_there)
}

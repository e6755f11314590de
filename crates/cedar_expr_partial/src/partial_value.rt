//! Values that may still be expressions.

ghost use Rattle.std.specs.Prelude.{◌≡◌, map, IfOk, None, is_some, option_map};
ghost use Rattle.std.specs.List.{list_all, filter_map};
ghost use Rattle.cedar_expr_model.specs.Tree.{unknown};
ghost use Rattle.cedar_expr_model.specs.ValueParts.{left, known, known_value, part_tree, split};
ghost use Rattle.cedar_expr_trees.specs.Trees.{tree_of};
ghost use Rattle.cedar_expr_trees.specs.Unknowns.{unknown_of};
ghost use Rattle.cedar_expr_values.specs.Values.{made};
ghost use Rattle.cedar_expr_partial.specs.Parts.{part_of, part_place, split_of, GivesValue};

use crate::conversions::FromValue;
use crate::err::{ContainsUnknown, PartialValueToValueError};
use crate::extension::ExtensionCall;
use cedar_expr_leaves::Literal;
use cedar_expr_names::Loc;
use cedar_expr_trees::{Expr, Unknown};
use cedar_expr_values::{ExtensionValue, Value};
use either::{Either, Left, Right};
use std::alloc::{AllocError, Global};
use std::vec::IntoIter;

/// A value, or an expression that isn't one yet.
#[derive(Drop)]
#[derive_where(Debug, PartialEq, Eq; X)]
pub enum PartialValue<X: ExtensionValue> {
    /// A value.
    Value(Value<X>),
    /// What is left of an expression.
    Residual(Expr),
}

impl<X: ExtensionValue> PartialValue<X> {
    /// The expression of an unknown.
    pub fn unknown(u: Unknown) -> PartialValue<X>
        ensures part { part_of X.seen result ≡ left (unknown (unknown_of u).name (unknown_of u).annotation) }
        ensures place { part_place result ≡ None }
    {
        PartialValue::Residual(Expr::unknown(u))
    }

    /// The value or expression at this place, or without one.
    pub fn with_maybe_source_loc(self, source_loc: Option<Loc>) -> PartialValue<X>
        ensures part { part_of X.seen result ≡ part_of X.seen self }
        ensures place { part_place result ≡ source_loc }
    {
        match self {
            PartialValue::Value(v) => PartialValue::Value(v.with_maybe_source_loc(source_loc)),
            PartialValue::Residual(e) => PartialValue::Residual(e.with_maybe_source_loc(
                source_loc,
            )),
        }
    }

    // The value, where this is one.
    fn into_value(self) -> Option<Value<X>>
        ensures { option_map (made X.seen) result ≡ known_value (part_of X.seen self) }
    {
        match self {
            PartialValue::Value(v) => Some(v),
            PartialValue::Residual(_) => None,
        }
    }

    // Whether this is a value.
    fn is_value(&self) -> bool
        ensures { result ≡ is_some (known_value (part_of X.seen self.now)) }
    {
        match self {
            PartialValue::Value(_) => true,
            PartialValue::Residual(_) => false,
        }
    }
}

impl<X: ExtensionValue> Clone for PartialValue<X> {
    ghost use Rattle.cedar_expr_values.specs.Extension.{Extension};

    ghost is_clone = { λ p copy. ((seen : X → Extension) → part_of seen copy ≡ part_of seen p) × (part_place copy ≡ part_place p) };

    /// A copy of the value or expression that shares its parts.
    fn clone(&self) -> Result<PartialValue<X>, AllocError> {
        match self {
            PartialValue::Value(v) => Ok(PartialValue::Value(v.clone()?)),
            PartialValue::Residual(e) => Ok(PartialValue::Residual(e.clone()?)),
        }
    }
}

impl<X: ExtensionValue> From<Value<X>> for PartialValue<X> {
    ghost use Rattle.cedar_expr_values.specs.Values.{place_of};

    ghost from_gives = { λ v p. (part_of X.seen p ≡ known (made X.seen v)) × (part_place p ≡ place_of v) };

    fn from(value: Value<X>) -> PartialValue<X> {
        PartialValue::Value(value)
    }
}

impl<X: ExtensionValue> From<Literal> for PartialValue<X> {
    ghost use Rattle.cedar_expr_leaves.specs.Literals.{literal_of};
    ghost use Rattle.cedar_expr_model.specs.Made.{made_prim};

    ghost from_gives = { λ l p. (part_of X.seen p ≡ known (made_prim (literal_of l))) × (part_place p ≡ None) };

    fn from(literal: Literal) -> PartialValue<X> {
        PartialValue::Value(Value::from(literal))
    }
}

impl<X: ExtensionValue> From<Expr> for PartialValue<X> {
    ghost use Rattle.cedar_expr_trees.specs.Trees.{place_of};

    ghost from_gives = { λ e p. (part_of X.seen p ≡ left (tree_of e)) × (part_place p ≡ place_of e) };

    fn from(expr: Expr) -> PartialValue<X> {
        PartialValue::Residual(expr)
    }
}

impl<X: ExtensionValue> TryFrom<PartialValue<X>> for Value<X> {
    type Error = PartialValueToValueError;

    ghost try_from_gives = { λ p r. GivesValue X.seen p r };

    fn try_from(value: PartialValue<X>) -> Result<Value<X>, PartialValueToValueError> {
        match value {
            PartialValue::Value(v) => Ok(v),
            PartialValue::Residual(residual) => Err(PartialValueToValueError::ContainsUnknown(
                ContainsUnknown::new(residual),
            )),
        }
    }
}

/// The items in their order: values where each is one, else expressions. Fails only when out of memory.
pub fn split<X: ExtensionCall>(
    alloc: Global,
    items: Vec<PartialValue<X>>,
) -> Result<Either<IntoIter<Value<X>>, IntoIter<Expr>>, AllocError>
    ensures { IfOk result (λ r. split_of X.seen r ≡ split (map (part_of X.seen) items.items)) }
{
    if are_values(items.as_slice()) {
        let values = values_of(alloc, items)?;
        return Ok(Left(values.into_iter()));
    }
    let exprs = exprs_of(alloc, items)?;
    Ok(Right(exprs.into_iter()))
}

// Whether each item is a value.
fn are_values<X: ExtensionValue>(items: &[PartialValue<X>]) -> bool
    ensures { result ≡ list_all (λ p. is_some (known_value (part_of X.seen p))) items.now }
{
    items.iter().all(|item| item.is_value())
}

// The values among the items, in their order.
fn values_of<X: ExtensionValue>(
    alloc: Global,
    items: Vec<PartialValue<X>>,
) -> Result<Vec<Value<X>>, AllocError>
    ensures { IfOk result (λ vs. map (made X.seen) vs.items ≡ filter_map known_value (map (part_of X.seen) items.items)) }
{
    let mut values = Vec::with_capacity(alloc, items.len())?;
    for item in items {
        if let Some(v) = item.into_value() {
            values.push(v)?;
        }
    }
    Ok(values)
}

// The items as expressions, in their order.
fn exprs_of<X: ExtensionCall>(
    alloc: Global,
    items: Vec<PartialValue<X>>,
) -> Result<Vec<Expr>, AllocError>
    ensures { IfOk result (λ es. map tree_of es.items ≡ map part_tree (map (part_of X.seen) items.items)) }
{
    let mut exprs = Vec::with_capacity(alloc, items.len())?;
    for item in items {
        exprs.push(Expr::from_partial_value(alloc, item)?)?;
    }
    Ok(exprs)
}

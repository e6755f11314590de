//! What turns values into expressions and back.

ghost use Rattle.std.specs.Prelude.{◌≡◌, IfOk, IfErr, None, Some};
ghost use Rattle.std.specs.declared.option.Option.{Option};
ghost use Rattle.cedar_expr_names.specs.declared.loc.Loc.{Loc};
ghost use Rattle.cedar_expr_model.specs.Tree.{Tree};
ghost use Rattle.cedar_expr_model.specs.Value.{V};
ghost use Rattle.cedar_expr_model.specs.Made.{written};
ghost use Rattle.cedar_expr_model.specs.ValueParts.{value_of_tree, part_tree};
ghost use Rattle.cedar_expr_trees.specs.Trees.{tree_of, place_of};
ghost use Rattle.cedar_expr_values.specs.Values.{made, made_kind, bare, bare_kind, place_of as value_place};
ghost use Rattle.cedar_expr_partial.specs.Parts.{part_of, part_place, IsNoValue};

use crate::err::NotValue;
use crate::extension::ExtensionCall;
use crate::partial_value::PartialValue;
use crate::reading::{expr_kind, expr_value};
use crate::writing::{kind_expr, value_expr};
use cedar_expr_trees::Expr;
use cedar_expr_values::{ExtensionValue, Value, ValueKind};
use std::alloc::{AllocError, Global};

/// What values are written as: expressions.
pub trait FromValue: Sized {
    /// What is written.
    ghost tree: { Self → Tree };

    /// Where it stands in its source, if it stands there.
    ghost place: { Self → Option Loc };

    /// The expression that the value is written as: its literal, the set or record of its members or fields so written, or the
    /// call that makes it. It stands at the value's place. Fails only when out of memory.
    fn from_value<X: ExtensionCall>(alloc: Global, value: &Value<X>) -> Result<Self, AllocError>
        ensures tree { IfOk result (λ e. tree e ≡ written (made X.seen value.now)) }
        ensures place { IfOk result (λ e. place e ≡ value_place value.now) };

    /// The expression that a kind of values is written as, without a place. Fails only when out of memory.
    fn from_value_kind<X: ExtensionCall>(
        alloc: Global,
        kind: &ValueKind<X>,
    ) -> Result<Self, AllocError>
        ensures tree { IfOk result (λ e. tree e ≡ written (made_kind X.seen kind.now)) }
        ensures place { IfOk result (λ e. place e ≡ None) };

    /// The expression that it is, or that the value is written as, at its place. Fails only when out of memory.
    fn from_partial_value<X: ExtensionCall>(
        alloc: Global,
        value: PartialValue<X>,
    ) -> Result<Self, AllocError>
        ensures tree { IfOk result (λ e. tree e ≡ part_tree (part_of X.seen value)) }
        ensures place { IfOk result (λ e. place e ≡ part_place value) };
}

impl FromValue for Expr {
    ghost tree = { tree_of };

    ghost place = { place_of };

    fn from_value<X: ExtensionCall>(alloc: Global, value: &Value<X>) -> Result<Expr, AllocError> {
        value_expr(alloc, value)
    }

    fn from_value_kind<X: ExtensionCall>(
        alloc: Global,
        kind: &ValueKind<X>,
    ) -> Result<Expr, AllocError> {
        kind_expr(alloc, kind)
    }

    fn from_partial_value<X: ExtensionCall>(
        alloc: Global,
        value: PartialValue<X>,
    ) -> Result<Expr, AllocError> {
        match value {
            PartialValue::Value(v) => value_expr(alloc, &v),
            PartialValue::Residual(e) => Ok(e),
        }
    }
}

/// What an expression may be: a value.
pub trait TryFromExpr: Sized {
    /// The value alone.
    ghost value: { Self → V };

    /// The value that an expression of literals, sets and records is. Of equal members of a set the first stands. Refuses an
    /// expression with a part of another kind, and fails when out of memory.
    fn try_from_expr<T>(alloc: Global, expr: &Expr<T>) -> Result<Self, NotValue>
        ensures value { IfOk result (λ v. value_of_tree (tree_of expr.now) ≡ Some (value v)) }
        ensures refused { IfErr result (IsNoValue (value_of_tree (tree_of expr.now))) };
}

impl<X: ExtensionValue> TryFromExpr for Value<X> {
    ghost value = { bare X.seen };

    /// The value stands at the expression's place.
    fn try_from_expr<T>(alloc: Global, expr: &Expr<T>) -> Result<Value<X>, NotValue>
        ensures value { IfOk result (λ v. value_of_tree (tree_of expr.now) ≡ Some (bare X.seen v)) }
        ensures place { IfOk result (λ v. value_place v ≡ place_of expr.now) }
        ensures refused { IfErr result (IsNoValue (value_of_tree (tree_of expr.now))) }
    {
        expr_value(alloc, expr)
    }
}

impl<X: ExtensionValue> TryFromExpr for ValueKind<X> {
    ghost value = { bare_kind X.seen };

    fn try_from_expr<T>(alloc: Global, expr: &Expr<T>) -> Result<ValueKind<X>, NotValue> {
        expr_kind(alloc, expr)
    }
}

//! Equality of values, and their order.

ghost use Rattle.std.specs.Prelude.{◌≡◌, true};
ghost use Rattle.std.specs.Ordering.{is_lt, is_le};
ghost use Rattle.cedar_expr_leaves.specs.Operators.{binary_op_of};
ghost use Rattle.cedar_expr_values.specs.Extensions.{extension_of};
ghost use Rattle.cedar_expr_values.specs.Values.{bare};
ghost use Rattle.cedar_store_model.specs.Outcome.{wrong_type};
ghost use Rattle.cedar_evaluator_errors.specs.Outcomes.{Gives};
ghost use Rattle.cedar_evaluator_operators.specs.Arithmetic.{is_relation, relation_left, order_left, order_of, extension_value};
ghost use Rattle.cedar_evaluator_reads.specs.Errors.{StopsWith};

use crate::table::FunctionTable;
use cedar_evaluator_errors::EvaluationError;
use cedar_evaluator_reads::V;
use cedar_evaluator_reads::leaves::truth;
use cedar_evaluator_reads::type_errors::{type_error, type_error_single};
use cedar_expr_leaves::{BinaryOp, Literal};
use cedar_expr_names::Name;
use cedar_expr_values::{ExtValue, ExtensionValue, Type, ValueKind};
use std::alloc::Global;
use std::cmp::Ordering;

/// Whether two values are equal, or whether the first is below the second, or not above it, as the operator says. Two whole numbers
/// have an order, and two values of one extension type that the table orders. Errors: `TypeError` where there is none.
pub fn binary_relation<T: FunctionTable>(
    alloc: Global,
    op: BinaryOp,
    arg1: &V,
    arg2: &V,
    table: &T,
) -> Result<V, EvaluationError>
    requires { is_relation (binary_op_of op) ≡ true }
    ensures { Gives (relation_left (T.ordered_types_in table.now) (binary_op_of op) arg1.now arg2.now) result }
{
    match op {
        BinaryOp::Eq => Ok(truth(arg1.same(arg2))),
        BinaryOp::Less => less(alloc, table, arg1, arg2),
        _ => less_or_equal(alloc, table, arg1, arg2),
    }
}

// Whether the first value is below the second.
#[tactic(auto, using(crate::proofs::Ordered::ordered_by_order))]
fn less<T: FunctionTable>(alloc: Global, table: &T, v: &V, w: &V) -> Result<V, EvaluationError>
    ensures { Gives (order_left (T.ordered_types_in table.now) is_lt v.now w.now) result }
{
    match order(table, v, w) {
        Some(order) => Ok(truth(order.is_lt())),
        None => Err(no_order(alloc, table, v, w)),
    }
}

// Whether the first value is below the second or equal to it.
#[tactic(auto, using(crate::proofs::Ordered::ordered_by_order))]
fn less_or_equal<T: FunctionTable>(
    alloc: Global,
    table: &T,
    v: &V,
    w: &V,
) -> Result<V, EvaluationError>
    ensures { Gives (order_left (T.ordered_types_in table.now) is_le v.now w.now) result }
{
    match order(table, v, w) {
        Some(order) => Ok(truth(order.is_le())),
        None => Err(no_order(alloc, table, v, w)),
    }
}

// The order of two whole numbers, or of two values of one extension type that the table orders.
fn order<T: FunctionTable>(table: &T, v: &V, w: &V) -> Option<Ordering>
    ensures { result ≡ order_of (T.ordered_types_in table.now) (bare extension_of v.now) (bare extension_of w.now) }
{
    match (v.value_kind(), w.value_kind()) {
        (ValueKind::Lit(Literal::Long(m)), ValueKind::Lit(Literal::Long(n))) => Some(m.cmp(n)),
        (ValueKind::ExtensionValue(x), ValueKind::ExtensionValue(y)) => order_extension(
            table, x, y,
        ),
        _ => None,
    }
}

// The order of two values of one extension type that the table orders.
fn order_extension<T: FunctionTable>(table: &T, x: &ExtValue, y: &ExtValue) -> Option<Ordering>
    ensures { result ≡ order_of (T.ordered_types_in table.now) (extension_value x.now) (extension_value y.now) }
{
    if x.typename().same(y.typename()) && table.is_ordered(x.typename()) {
        Some(x.key().cmp(y.key()))
    } else {
        None
    }
}

// The refusal of two values that have no order. A whole number asks for one on the other side, and then a value of an ordered type for
// one of its type; else a value of any such type is asked for on the left.
fn no_order<T: FunctionTable>(alloc: Global, table: &T, v: &V, w: &V) -> EvaluationError
    ensures { StopsWith wrong_type result }
{
    match (v.value_kind(), w.value_kind()) {
        (ValueKind::Lit(Literal::Long(_)), _) => type_error_single(alloc, Type::Long, w),
        (_, ValueKind::Lit(Literal::Long(_))) => type_error_single(alloc, Type::Long, v),
        (ValueKind::ExtensionValue(x), ValueKind::ExtensionValue(y)) => {
            if table.is_ordered(x.typename()) {
                no_extension(alloc, x.typename(), w)
            } else if table.is_ordered(y.typename()) {
                no_extension(alloc, y.typename(), v)
            } else {
                no_ordered(alloc, table, v)
            }
        }
        (ValueKind::ExtensionValue(x), _) => {
            if table.is_ordered(x.typename()) {
                no_extension(alloc, x.typename(), w)
            } else {
                no_ordered(alloc, table, v)
            }
        }
        (_, ValueKind::ExtensionValue(y)) => {
            if table.is_ordered(y.typename()) {
                no_extension(alloc, y.typename(), v)
            } else {
                no_ordered(alloc, table, v)
            }
        }
        _ => no_ordered(alloc, table, v),
    }
}

// The refusal of a value where one of this extension type is asked for.
fn no_extension(alloc: Global, name: &Name, v: &V) -> EvaluationError
    ensures { StopsWith wrong_type result }
{
    match name.clone() {
        Ok(name) => type_error_single(alloc, Type::Extension { name }, v),
        Err(_) => EvaluationError::OutOfMemory,
    }
}

// The refusal of a value where one that has an order is asked for.
fn no_ordered<T: FunctionTable>(alloc: Global, table: &T, v: &V) -> EvaluationError
    ensures { StopsWith wrong_type result }
{
    match table.ordered_types(alloc) {
        Ok(types) => type_error(types, v),
        Err(_) => EvaluationError::OutOfMemory,
    }
}

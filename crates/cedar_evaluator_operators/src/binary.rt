//! Operators of two operands.

ghost use Rattle.std.specs.Prelude.{◌≡◌, not, Option, option_map};
ghost use Rattle.cedar_expr_leaves.specs.Operators.{binary_op_of};
ghost use Rattle.cedar_expr_model.specs.Name.{Name as ModelName};
ghost use Rattle.cedar_expr_model.specs.Canonical.{is_subset, is_disjoint};
ghost use Rattle.cedar_expr_model.specs.Tree.{binary};
ghost use Rattle.cedar_expr_names.specs.Views.{type_name_of};
ghost use Rattle.cedar_expr_trees.specs.Trees.{tree_of};
ghost use Rattle.cedar_expr_values.specs.Extensions.{extension_of};
ghost use Rattle.cedar_expr_values.specs.Values.{bare, made};
ghost use Rattle.cedar_store_model.specs.Operators.{among_members, of_sets};
ghost use Rattle.cedar_evaluator_model.specs.Scope.{residual};
ghost use Rattle.cedar_evaluator_model.specs.Steps.{left_of, differ as model_differ, with_residual, combined_left};
ghost use Rattle.cedar_evaluator_model.specs.Evaluation.{binary_left};
ghost use Rattle.cedar_evaluator_errors.specs.Outcomes.{Leaves, Gives, left_seen};
ghost use Rattle.cedar_evaluator_operators.specs.Operands.{value_first, value_second, no_value};
ghost use Rattle.cedar_evaluator_operators.specs.Scopes.{scope_ordering};

use crate::arithmetic::binary_arith;
use crate::relations::binary_relation;
use crate::table::FunctionTable;
use cedar_evaluator_errors::EvaluationError;
use cedar_evaluator_reads::leaves::truth;
use cedar_evaluator_reads::seen::{annotated, entity_kind};
use cedar_evaluator_reads::type_errors::type_error_single;
use cedar_evaluator_reads::{Knowledge, Left, V};
use cedar_expr_leaves::BinaryOp;
use cedar_expr_names::{EntityType, Loc};
use cedar_expr_partial::{FromValue, PartialValue};
use cedar_expr_trees::Expr;
use cedar_expr_values::{Type, ValueKind};
use std::alloc::Global;

// Whether these are two types.
fn differ(j: Option<&EntityType>, k: Option<&EntityType>) -> bool
    ensures { result ≡ model_differ (option_map (λ n. type_name_of n.now) j.entry) (option_map (λ n. type_name_of n.now) k.entry) }
{
    match (j, k) {
        (Some(j), Some(k)) => !j.same(k),
        (Some(_), None) | (None, Some(_)) | (None, None) => false,
    }
}

// An operator that stays.
fn stays(alloc: Global, op: BinaryOp, a: Expr, b: Expr) -> Result<Left, EvaluationError>
    ensures { Leaves (residual (binary (binary_op_of op) (tree_of a) (tree_of b))) result }
{
    Ok(PartialValue::Residual(Expr::binary_app(alloc, op, a, b)?))
}

// An operator that stays, but where entities of two types are compared.
fn decided_or_stays(
    alloc: Global,
    op: BinaryOp,
    differs: bool,
    a: Expr,
    b: Expr,
) -> Result<Left, EvaluationError>
    ensures { (j k : Option ModelName) → model_differ j k ≡ differs → Leaves (with_residual (binary_op_of op) j k (tree_of a) (tree_of b)) result }
{
    match op {
        BinaryOp::Eq => {
            if differs {
                Ok(PartialValue::Value(truth(false)))
            } else {
                stays(alloc, op, a, b)
            }
        }
        BinaryOp::Less | BinaryOp::LessEq => stays(alloc, op, a, b),
        BinaryOp::Add | BinaryOp::Sub | BinaryOp::Mul | BinaryOp::Rem => stays(alloc, op, a, b),
        BinaryOp::In | BinaryOp::GetTag | BinaryOp::HasTag => stays(alloc, op, a, b),
        BinaryOp::Contains | BinaryOp::ContainsAll => stays(alloc, op, a, b),
        BinaryOp::ContainsAny => stays(alloc, op, a, b),
    }
}

// A value and a residual.
fn value_first(alloc: Global, op: BinaryOp, v: &V, b: Expr) -> Result<Left, EvaluationError>
    ensures { Leaves (value_first (binary_op_of op) (made extension_of v.now) (tree_of b)) result }
{
    let differs = differ(entity_kind(v), annotated(&b));
    let a = Expr::from_value(alloc, v)?;
    decided_or_stays(alloc, op, differs, a, b)
}

// A residual and a value.
fn value_second(alloc: Global, op: BinaryOp, a: Expr, v: &V) -> Result<Left, EvaluationError>
    ensures { Leaves (value_second (binary_op_of op) (tree_of a) (made extension_of v.now)) result }
{
    let differs = differ(annotated(&a), entity_kind(v));
    let b = Expr::from_value(alloc, v)?;
    decided_or_stays(alloc, op, differs, a, b)
}

// Two residuals.
fn no_value(alloc: Global, op: BinaryOp, a: Expr, b: Expr) -> Result<Left, EvaluationError>
    ensures { Leaves (no_value (binary_op_of op) (tree_of a) (tree_of b)) result }
{
    let differs = differ(annotated(&a), annotated(&b));
    decided_or_stays(alloc, op, differs, a, b)
}

// Whether the value is a member of the set.
fn contains(alloc: Global, set: &V, v: &V) -> Result<V, EvaluationError>
    ensures { Gives (left_of (among_members (bare extension_of set.now) (bare extension_of v.now))) result }
{
    match set.value_kind() {
        ValueKind::Set(members) => Ok(truth(members.contains(v))),
        _ => Err(type_error_single(alloc, Type::Set, set)),
    }
}

// Whether each member of the second set is one of the first.
fn contains_all(alloc: Global, v: &V, w: &V) -> Result<V, EvaluationError>
    ensures { Gives (left_of (of_sets (λ vs ws. is_subset ws vs) (bare extension_of v.now) (bare extension_of w.now))) result }
{
    match (v.value_kind(), w.value_kind()) {
        (ValueKind::Set(members), ValueKind::Set(others)) => Ok(truth(others.is_subset(members))),
        (ValueKind::Set(_), _) => Err(type_error_single(alloc, Type::Set, w)),
        _ => Err(type_error_single(alloc, Type::Set, v)),
    }
}

// Whether some member of the second set is one of the first.
fn contains_any(alloc: Global, v: &V, w: &V) -> Result<V, EvaluationError>
    ensures { Gives (left_of (of_sets (λ vs ws. not (is_disjoint vs ws)) (bare extension_of v.now) (bare extension_of w.now))) result }
{
    match (v.value_kind(), w.value_kind()) {
        (ValueKind::Set(members), ValueKind::Set(others)) => Ok(truth(!members.is_disjoint(
            others,
        ))),
        (ValueKind::Set(_), _) => Err(type_error_single(alloc, Type::Set, w)),
        _ => Err(type_error_single(alloc, Type::Set, v)),
    }
}

// An operator of two values that asks no store.
#[tactic(auto, unfolding(crate::specs::Scopes::scope_ordering))]
fn compared<T: FunctionTable>(
    alloc: Global,
    known: &Knowledge<'_, T>,
    op: BinaryOp,
    v: &V,
    w: &V,
    loc: Option<Loc>,
) -> Result<V, EvaluationError>
    requires { asks_no_store (binary_op_of op) ≡ true }
    ensures { Gives (combined_left (scope_ordering T.ordered_types_in known.now) (binary_op_of op) (made extension_of v.now) (made extension_of w.now)) result }
{
    match op {
        BinaryOp::Eq | BinaryOp::Less | BinaryOp::LessEq => {
            binary_relation(alloc, op, v, w, known.table)
        }
        BinaryOp::Add | BinaryOp::Sub | BinaryOp::Mul | BinaryOp::Rem => {
            binary_arith(alloc, op, v, w, loc)
        }
        BinaryOp::Contains => contains(alloc, v, w),
        BinaryOp::ContainsAll => contains_all(alloc, v, w),
        _ => contains_any(alloc, v, w),
    }
}

// An operator of two values.
#[tactic(auto, unfolding(crate::specs::Scopes::scope_ordering))]
fn combined<T: FunctionTable>(
    alloc: Global,
    known: &Knowledge<'_, T>,
    op: BinaryOp,
    v: &V,
    w: &V,
    loc: Option<Loc>,
) -> Result<Left, EvaluationError>
    ensures { Leaves (combined_left (scope_ordering T.ordered_types_in known.now) (binary_op_of op) (made extension_of v.now) (made extension_of w.now)) result }
{
    match op {
        BinaryOp::In => known.within(alloc, v, w),
        BinaryOp::GetTag => known.tag(alloc, v, w),
        BinaryOp::HasTag => known.has_tag(alloc, v, w),
        BinaryOp::Eq | BinaryOp::Less | BinaryOp::LessEq | BinaryOp::Add | BinaryOp::Sub => {
            Ok(PartialValue::Value(compared(alloc, known, op, v, w, loc)?))
        }
        BinaryOp::Mul | BinaryOp::Rem | BinaryOp::Contains => {
            Ok(PartialValue::Value(compared(alloc, known, op, v, w, loc)?))
        }
        BinaryOp::ContainsAll | BinaryOp::ContainsAny => {
            Ok(PartialValue::Value(compared(alloc, known, op, v, w, loc)?))
        }
    }
}

/// An operator of two operands that are evaluated; an overflow and a zero divisor have this place. Where one is a residual the operator stays, but
/// entities of two types are not equal.
pub fn binary_left<T: FunctionTable>(
    alloc: Global,
    known: &Knowledge<'_, T>,
    op: BinaryOp,
    first: Left,
    second: Left,
    loc: Option<Loc>,
) -> Result<Left, EvaluationError>
    ensures { Leaves (binary_left (scope_ordering T.ordered_types_in known.now) (binary_op_of op) (left_seen first) (left_seen second)) result }
{
    match (first, second) {
        (PartialValue::Value(v), PartialValue::Value(w)) => {
            combined(alloc, known, op, &v, &w, loc)
        }
        (PartialValue::Value(v), PartialValue::Residual(b)) => value_first(alloc, op, &v, b),
        (PartialValue::Residual(a), PartialValue::Value(w)) => value_second(alloc, op, a, &w),
        (PartialValue::Residual(a), PartialValue::Residual(b)) => no_value(alloc, op, a, b),
    }
}

ghost use Rattle.std.specs.Prelude.{true};
ghost use Rattle.cedar_evaluator_operators.specs.Arithmetic.{asks_no_store};

//! What is left of an expression whose parts are evaluated already.

ghost use Rattle.std.specs.Prelude.{◌≡◌, true, false, map};
ghost use Rattle.std.specs.Rc.{rc_str_bytes};
ghost use Rattle.cedar_expr_leaves.specs.Patterns.{pattern_of};
ghost use Rattle.cedar_expr_leaves.specs.Operators.{unary_op_of};
ghost use Rattle.cedar_expr_model.specs.Builder.{conjunction, disjunction};
ghost use Rattle.cedar_expr_model.specs.Tree.{choice, unary};
ghost use Rattle.cedar_expr_names.specs.Views.{type_name_of};
ghost use Rattle.cedar_expr_trees.specs.Trees.{tree_of};
ghost use Rattle.cedar_evaluator_model.specs.Scope.{Left as ModelLeft, value_left, residual};
ghost use Rattle.cedar_evaluator_model.specs.Steps.{best};
ghost use Rattle.cedar_evaluator_model.specs.Evaluation.{right_left};
ghost use Rattle.cedar_evaluator_errors.specs.Outcomes.{Leaves, IsTree, left_seen};
ghost use Rattle.cedar_evaluator_core.specs.Operands.{unary_left, like_left, is_left};

use cedar_evaluator_errors::EvaluationError;
use cedar_evaluator_operators::unary::{as_truth, is_of_type, like, unary_app};
use cedar_evaluator_reads::Left;
use cedar_evaluator_reads::leaves::truth;
use cedar_evaluator_reads::reads::{get_left, has_left};
use cedar_evaluator_reads::seen::{annotated, field_expr, record_of};
use cedar_expr_leaves::{Literal, Pattern, UnaryOp};
use cedar_expr_names::{EntityType, Loc};
use cedar_expr_partial::{FromValue, PartialValue};
use cedar_expr_trees::Expr;
use std::alloc::Global;
use std::rc::RcStr;

/// The right side of `and`, whose left side is true.
pub fn and_right(alloc: Global, right: Left) -> Result<Left, EvaluationError>
    ensures { Leaves (right_left conjunction true (left_seen right)) result }
{
    match right {
        PartialValue::Value(v) => Ok(PartialValue::Value(as_truth(alloc, &v)?)),
        PartialValue::Residual(r) => {
            let whole = Expr::and(alloc, Expr::val(Literal::from(true)), r)?;
            Ok(PartialValue::Residual(whole))
        }
    }
}

/// The right side of `or`, whose left side is false.
pub fn or_right(alloc: Global, right: Left) -> Result<Left, EvaluationError>
    ensures { Leaves (right_left disjunction false (left_seen right)) result }
{
    match right {
        PartialValue::Value(v) => Ok(PartialValue::Value(as_truth(alloc, &v)?)),
        PartialValue::Residual(r) => {
            let whole = Expr::or(alloc, Expr::val(Literal::from(false)), r)?;
            Ok(PartialValue::Residual(whole))
        }
    }
}

/// A conjunction that stays.
pub fn and_left(alloc: Global, left: Expr, right: Expr) -> Result<Left, EvaluationError>
    ensures { Leaves (residual (conjunction (tree_of left) (tree_of right))) result }
{
    Ok(PartialValue::Residual(Expr::and(alloc, left, right)?))
}

/// A disjunction that stays.
pub fn or_left(alloc: Global, left: Expr, right: Expr) -> Result<Left, EvaluationError>
    ensures { Leaves (residual (disjunction (tree_of left) (tree_of right))) result }
{
    Ok(PartialValue::Residual(Expr::or(alloc, left, right)?))
}

/// A choice that stays.
pub fn choice_left(
    alloc: Global,
    test: Expr,
    first: Expr,
    last: Expr,
) -> Result<Left, EvaluationError>
    ensures { Leaves (residual (choice (tree_of test) (tree_of first) (tree_of last))) result }
{
    Ok(PartialValue::Residual(Expr::ite(alloc, test, first, last)?))
}

/// An operator of one operand; an overflow has this place.
pub fn unary_left(
    alloc: Global,
    op: UnaryOp,
    arg: Left,
    loc: Option<Loc>,
) -> Result<Left, EvaluationError>
    ensures { Leaves (unary_left (unary_op_of op) (left_seen arg)) result }
{
    match arg {
        PartialValue::Value(v) => Ok(PartialValue::Value(unary_app(alloc, op, &v, loc)?)),
        PartialValue::Residual(r) => Ok(PartialValue::Residual(Expr::unary_app(alloc, op, r)?)),
    }
}

/// Whether it matches a pattern.
pub fn like_left(alloc: Global, arg: Left, pattern: &Pattern) -> Result<Left, EvaluationError>
    ensures { Leaves (like_left (pattern_of pattern.now) (left_seen arg)) result }
{
    match arg {
        PartialValue::Value(v) => Ok(PartialValue::Value(like(alloc, pattern, &v)?)),
        PartialValue::Residual(r) => {
            Ok(PartialValue::Residual(Expr::like(alloc, r, pattern.clone()?)?))
        }
    }
}

/// Whether it is of an entity type; an unknown annotated with an entity type is decided by that type.
pub fn is_left(alloc: Global, arg: Left, kind: &EntityType) -> Result<Left, EvaluationError>
    ensures { Leaves (is_left (type_name_of kind.now) (left_seen arg)) result }
{
    match arg {
        PartialValue::Value(v) => Ok(PartialValue::Value(is_of_type(alloc, kind, &v)?)),
        PartialValue::Residual(r) => match annotated(&r) {
            Some(k) => Ok(PartialValue::Value(truth(k.same(kind)))),
            None => Ok(PartialValue::Residual(Expr::is_entity_type(alloc, r, kind.clone()?)?)),
        },
    }
}

ghost use Rattle.cedar_evaluator_model.specs.Evaluation.{has_of_residual};

/// Whether a residual has an attribute.
pub fn has_of(alloc: Global, r: Expr, attr: &RcStr) -> Result<Left, EvaluationError>
    ensures { Leaves (has_of_residual (rc_str_bytes attr.now) (tree_of r)) result }
{
    if let Some(fields) = record_of(&r) {
        if r.is_projectable() {
            let there = field_expr(fields, attr.as_str()).is_some();
            return Ok(PartialValue::Value(truth(there)));
        }
    }
    has_left(alloc, r, attr)
}

/// A residual that is asked for an attribute and stays.
pub fn get_of(alloc: Global, r: &Expr, attr: &RcStr) -> Result<Left, EvaluationError>
    ensures { Leaves (residual (get_attr (tree_of r.now) (rc_str_bytes attr.now))) result }
{
    get_left(alloc, r.clone()?, attr)
}

ghost use Rattle.cedar_expr_model.specs.Tree.{Tree, get_attr};
ghost use Rattle.cedar_evaluator_model.specs.Scope.{Stop, stopped};
ghost use Rattle.cedar_evaluator_errors.specs.Outcomes.{is_memory, stop_or};

/// What is left of an expression, as an expression.
pub fn expr_of(alloc: Global, left: Left) -> Result<Expr, EvaluationError>
    ensures { (t : Tree) → IsTree (best t (left_seen left)) result }
{
    match left {
        PartialValue::Value(v) => Ok(Expr::from_value(alloc, &v)?),
        PartialValue::Residual(r) => Ok(r),
    }
}

/// An expression of which best effort left nothing, as it was, unless out of memory.
pub fn given_up(e: &Expr, error: EvaluationError) -> Result<Expr, EvaluationError>
    ensures { (l : ModelLeft) → ((other : Stop) → is_memory error ≡ false → l ≡ stopped (stop_or other error)) → IsTree (best (tree_of e.now) l) result }
{
    if error.is_out_of_memory() {
        Err(error)
    } else {
        Ok(e.clone()?)
    }
}

//! What follows the parts of `if`, `and` and `or`, and the place of what is left. The walk hands on what a part left, or why its evaluation
//! stopped, so that values are read and errors handed on outside of its cycle of calls. Such a result is large: what can be seen by a look
//! at it is seen so, and it is taken apart only where it must be.

ghost use Rattle.std.specs.Prelude.{◌≡◌, Bool, true, false, Some};
ghost use Rattle.cedar_expr_model.specs.Builder.{conjunction, disjunction};
ghost use Rattle.cedar_expr_model.specs.Tree.{Tree, choice};
ghost use Rattle.cedar_expr_trees.specs.Trees.{tree_of};
ghost use Rattle.cedar_evaluator_model.specs.Scope.{Left as ModelLeft, residual};
ghost use Rattle.cedar_evaluator_model.specs.Evaluation.{right_left};
ghost use Rattle.cedar_evaluator_model.specs.Steps.{truth_left};
ghost use Rattle.cedar_evaluator_errors.specs.Outcomes.{Leaves, IsTree};
ghost use Rattle.cedar_evaluator_core.specs.Truths.{IsTested};

use crate::rebuilt::{and_left, and_right, choice_left, or_left, or_right};
use cedar_evaluator_errors::EvaluationError;
use cedar_evaluator_operators::unary::as_bool;
use cedar_evaluator_reads::Left;
use cedar_evaluator_reads::leaves::truth;
use cedar_expr_leaves::Literal;
use cedar_expr_names::Loc;
use cedar_expr_partial::PartialValue;
use cedar_expr_trees::Expr;
use cedar_expr_values::ValueKind;
use std::alloc::Global;

// What a part is of which a truth value is wanted.
#[derive(Drop)]
pub(crate) enum Truth {
    // It is true.
    Holds,
    // It is false.
    Fails,
    // This residual is left of it.
    Open(Expr),
    // It stopped, or is no truth value.
    Stops(EvaluationError),
}

// The truth value that the part left, if it left one.
fn known_truth(part: &Result<Left, EvaluationError>) -> Option<bool>
    ensures { (b : Bool) → result ≡ Some b → (l : ModelLeft) → Leaves l part.now → l ≡ truth_left b }
{
    match part {
        Ok(PartialValue::Value(v)) => match v.value_kind() {
            ValueKind::Lit(Literal::Bool(b)) => Some(*b),
            _ => None,
        },
        Ok(PartialValue::Residual(_)) => None,
        Err(_) => None,
    }
}

// Which truth value the part is, or what else is left of it.
pub(crate) fn truth_after(alloc: Global, part: Result<Left, EvaluationError>) -> Truth
    ensures { (l : ModelLeft) → Leaves l part → IsTested l result }
{
    match known_truth(&part) {
        Some(true) => Truth::Holds,
        Some(false) => Truth::Fails,
        None => taken_apart(alloc, part),
    }
}

// Which truth value the part is, or what else is taken out of it.
fn taken_apart(alloc: Global, part: Result<Left, EvaluationError>) -> Truth
    ensures { (l : ModelLeft) → Leaves l part → IsTested l result }
{
    match part {
        Ok(PartialValue::Value(v)) => match as_bool(alloc, &v) {
            Ok(true) => Truth::Holds,
            Ok(false) => Truth::Fails,
            Err(error) => Truth::Stops(error),
        },
        Ok(PartialValue::Residual(r)) => Truth::Open(r),
        Err(error) => Truth::Stops(error),
    }
}

// A conjunction whose left side is true, of what its right side left.
pub(crate) fn and_after(
    alloc: Global,
    right: Result<Left, EvaluationError>,
) -> Result<Left, EvaluationError>
    ensures { (l : ModelLeft) → Leaves l right → Leaves (right_left conjunction true l) result }
{
    match known_truth(&right) {
        Some(b) => settled(b),
        None => match right {
            Ok(right) => and_right(alloc, right),
            Err(error) => Err(error),
        },
    }
}

// A disjunction whose left side is false, of what its right side left.
pub(crate) fn or_after(
    alloc: Global,
    right: Result<Left, EvaluationError>,
) -> Result<Left, EvaluationError>
    ensures { (l : ModelLeft) → Leaves l right → Leaves (right_left disjunction false l) result }
{
    match known_truth(&right) {
        Some(b) => settled(b),
        None => match right {
            Ok(right) => or_right(alloc, right),
            Err(error) => Err(error),
        },
    }
}

// Whether what is left has no place. An error keeps the place that it has.
fn is_without_place(left: &Result<Left, EvaluationError>) -> bool {
    match left {
        Ok(PartialValue::Value(v)) => v.source_loc().is_none(),
        Ok(PartialValue::Residual(r)) => r.source_loc().is_none(),
        Err(_) => true,
    }
}

// What is left, at this place, or the error, which takes this place where it has none.
pub(crate) fn placed(
    left: Result<Left, EvaluationError>,
    loc: Option<Loc>,
) -> Result<Left, EvaluationError>
    ensures { (l : ModelLeft) → Leaves l left → Leaves l result }
{
    if loc.is_none() && is_without_place(&left) {
        return left;
    }
    match left {
        Ok(left) => Ok(left.with_maybe_source_loc(loc)),
        Err(error) => Err(error.or_at(loc)),
    }
}

// This truth value.
pub(crate) fn settled(b: bool) -> Result<Left, EvaluationError>
    ensures { Leaves (truth_left b) result }
{
    Ok(PartialValue::Value(truth(b)))
}

// A conjunction that stays.
pub(crate) fn and_stays(
    alloc: Global,
    left: Expr,
    right: Result<Expr, EvaluationError>,
) -> Result<Left, EvaluationError>
    ensures { (t : Tree) → IsTree t right → Leaves (residual (conjunction (tree_of left) t)) result }
{
    match right {
        Ok(right) => and_left(alloc, left, right),
        Err(error) => Err(error),
    }
}

// A disjunction that stays.
pub(crate) fn or_stays(
    alloc: Global,
    left: Expr,
    right: Result<Expr, EvaluationError>,
) -> Result<Left, EvaluationError>
    ensures { (t : Tree) → IsTree t right → Leaves (residual (disjunction (tree_of left) t)) result }
{
    match right {
        Ok(right) => or_left(alloc, left, right),
        Err(error) => Err(error),
    }
}

// A choice that stays.
pub(crate) fn choice_stays(
    alloc: Global,
    test: Expr,
    first: Expr,
    last: Result<Expr, EvaluationError>,
) -> Result<Left, EvaluationError>
    ensures { (t : Tree) → IsTree t last → Leaves (residual (choice (tree_of test) (tree_of first) t)) result }
{
    match last {
        Ok(last) => choice_left(alloc, test, first, last),
        Err(error) => Err(error),
    }
}

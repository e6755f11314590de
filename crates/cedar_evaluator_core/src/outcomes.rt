//! What is answered where something is left.

ghost use Rattle.std.specs.Prelude.{◌≡◌, Ok};
ghost use Rattle.cedar_expr_trees.specs.Trees.{tree_of};
ghost use Rattle.cedar_evaluator_model.specs.Scope.{Stop, Left as ModelLeft, residual};
ghost use Rattle.cedar_evaluator_model.specs.Steps.{on_value, truth_wanted};
ghost use Rattle.cedar_evaluator_errors.specs.Outcomes.{left_seen};
ghost use Rattle.cedar_evaluator_core.specs.Evaluators.{left_by, IsValueOf, IsTruthOf, IsVerdict};

use cedar_evaluator_errors::EvaluationError;
use cedar_evaluator_errors::evaluation_errors::NonValueError;
use cedar_evaluator_operators::unary::as_bool;
use cedar_evaluator_reads::{Left, V};
use cedar_expr_partial::PartialValue;
use cedar_expr_trees::Expr;
use either::Either;
use std::alloc::Global;

// The error that a residual is no value.
fn no_value(expr: Expr) -> EvaluationError
    ensures { (other : Stop) → left_by other result ≡ residual (tree_of expr) }
{
    let source_loc = expr.source_loc();
    EvaluationError::NonValue(NonValueError { expr, source_loc })
}

// The value that is left. Errors: `NonValue` where a residual is.
pub(crate) fn value_of(left: Left) -> Result<V, EvaluationError>
    ensures { (l : ModelLeft) → l ≡ left_seen left → IsValueOf l result }
{
    match left {
        PartialValue::Value(v) => Ok(v),
        PartialValue::Residual(expr) => Err(no_value(expr)),
    }
}

// The truth value or the residual that is left. Errors: `TypeError` where another value is.
pub(crate) fn verdict_of(alloc: Global, left: Left) -> Result<Either<bool, Expr>, EvaluationError>
    ensures { (l : ModelLeft) → l ≡ left_seen left → IsVerdict (on_value l truth_wanted residual) result }
{
    match left {
        PartialValue::Value(v) => match as_bool(alloc, &v) {
            Ok(b) => Ok(Either::Left(b)),
            Err(error) => Err(error),
        },
        PartialValue::Residual(expr) => Ok(Either::Right(expr)),
    }
}

// The truth value of a verdict. Errors: `NonValue` where it is a residual.
pub(crate) fn truth_of(verdict: Either<bool, Expr>) -> Result<bool, EvaluationError>
    ensures { (l : ModelLeft) → IsVerdict l (Ok verdict) → IsTruthOf l result }
{
    match verdict {
        Either::Left(b) => Ok(b),
        Either::Right(expr) => Err(no_value(expr)),
    }
}

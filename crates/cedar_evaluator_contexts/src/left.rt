//! The context that is left of a record.

ghost use Rattle.cedar_evaluator_errors.specs.Outcomes.{left_seen};
ghost use Rattle.cedar_evaluator_contexts.specs.Contexts.{Becomes};

use cedar_evaluator_errors::EvaluationError;
use cedar_evaluator_errors::evaluation_errors::NonValueError;
use cedar_evaluator_reads::Left;
use cedar_evaluator_reads::type_errors::type_error_single;
use cedar_evaluator_requests::Context;
use cedar_evaluator_restricted_exprs::context_left;
use cedar_expr_partial::PartialValue;
use cedar_expr_values::Type;
use std::alloc::Global;

/// The context that is left of a record: one of values, or one in which an unknown stands. What a lawful table leaves of a record is
/// one of both; of anything else there is a `TypeError` or a `NonValue`.
pub(crate) fn context_of_left(alloc: Global, left: Left) -> Result<Context, EvaluationError>
    ensures { Becomes (left_seen left) result }
{
    match context_left(alloc, &left)? {
        Some(context) => Ok(context),
        None => Err(no_context(alloc, left)),
    }
}

// The error that what is left is no context.
fn no_context(alloc: Global, left: Left) -> EvaluationError {
    match left {
        PartialValue::Value(v) => type_error_single(alloc, Type::Record, &v),
        PartialValue::Residual(expr) => {
            let source_loc = expr.source_loc();
            EvaluationError::NonValue(NonValueError { expr, source_loc })
        }
    }
}

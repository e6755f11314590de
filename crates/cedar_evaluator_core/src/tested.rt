//! Whether what is left of an expression has an attribute.

ghost use Rattle.std.specs.Rc.{rc_str_bytes};
ghost use Rattle.cedar_evaluator_model.specs.Steps.{on_value, test_of};
ghost use Rattle.cedar_evaluator_model.specs.Evaluation.{has_of_residual};
ghost use Rattle.cedar_evaluator_errors.specs.Outcomes.{Leaves, left_seen};
ghost use Rattle.cedar_evaluator_reads.specs.Scopes.{scope_seen};

use crate::rebuilt::has_of;
use cedar_evaluator_errors::EvaluationError;
use cedar_evaluator_reads::{Knowledge, Left};
use cedar_expr_partial::PartialValue;
use std::alloc::Global;
use std::rc::RcStr;

/// Whether what is left of an expression has an attribute. Errors: `TypeError` where it is a value without attributes.
pub fn tested<T>(
    alloc: Global,
    known: &Knowledge<'_, T>,
    arg: Left,
    attr: &RcStr,
) -> Result<Left, EvaluationError>
    ensures { Leaves (on_value (left_seen arg) (test_of (scope_seen known.now) (rc_str_bytes attr.now)) (has_of_residual (rc_str_bytes attr.now))) result }
{
    match arg {
        PartialValue::Value(v) => known.test(alloc, attr, &v),
        PartialValue::Residual(r) => has_of(alloc, r, attr),
    }
}

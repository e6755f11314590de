//! Calls whose arguments are evaluated already.

ghost use Rattle.std.specs.Prelude.{map};
ghost use Rattle.cedar_expr_names.specs.Views.{plain_name_of};
ghost use Rattle.cedar_expr_values.specs.Extensions.{extension_of};
ghost use Rattle.cedar_expr_values.specs.Values.{made};
ghost use Rattle.cedar_evaluator_model.specs.Steps.{called_left};
ghost use Rattle.cedar_evaluator_operators.specs.Scopes.{scope_of};
ghost use Rattle.cedar_evaluator_requests.specs.Parts.{call_of_parts};
ghost use Rattle.cedar_evaluator_core.specs.Gathered.{parts_of};
ghost use Rattle.cedar_evaluator_core.specs.Walked.{LeavesIn};

use crate::parts::{Parted, part_up};
use cedar_evaluator_errors::EvaluationError;
use cedar_evaluator_operators::FunctionTable;
use cedar_evaluator_reads::{Knowledge, Left, V};
use cedar_expr_names::Name;
use cedar_expr_partial::PartialValue;
use cedar_expr_trees::Expr;
use std::alloc::Global;

/// What a call of the function of this name leaves at these arguments: where one is a residual the call stays.
pub fn call_left<T: FunctionTable>(
    alloc: Global,
    known: &Knowledge<'_, T>,
    name: &Name,
    parts: Vec<Left>,
) -> Result<Left, EvaluationError>
    ensures { LeavesIn T.table T.answers_as known.now (λ s. call_of_parts s (plain_name_of name.now) (parts_of parts.items)) result }
{
    match part_up(alloc, parts)? {
        Parted::Values(values) => answer(alloc, known, name, values),
        Parted::Exprs(exprs) => {
            let name = name.clone()?;
            Ok(PartialValue::Residual(Expr::call_extension_fn(alloc, name, exprs)?))
        }
    }
}

// What the function answers at these values.
#[tactic(auto, unfolding(cedar_evaluator_operators::specs::Scopes::scope_of))]
fn answer<T: FunctionTable>(
    alloc: Global,
    known: &Knowledge<'_, T>,
    name: &Name,
    values: Vec<V>,
) -> Result<Left, EvaluationError>
    ensures { LeavesIn T.table T.answers_as known.now (λ s. called_left s (plain_name_of name.now) (map (made extension_of) values.items)) result }
{
    known.table.call(alloc, name, values.as_slice())
}

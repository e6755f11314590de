//! The evaluator of restricted expressions.

ghost use Rattle.std.specs.Prelude.{◌≡◌};
ghost use Rattle.cedar_evaluator_core.specs.Evaluators.{IsValueOf};
ghost use Rattle.cedar_evaluator_errors.specs.Outcomes.{Leaves};
ghost use Rattle.cedar_evaluator_model.specs.Reauthorize.{restricted_left};
ghost use Rattle.cedar_evaluator_restricted_exprs.specs.Views.{borrowed_of};
ghost use Rattle.cedar_evaluator_contexts.specs.Functions.{ForScopes};
ghost use Rattle.cedar_evaluator_contexts.specs.Views.{table_asked};

use cedar_evaluator_core::Evaluator;
use cedar_evaluator_errors::EvaluationError;
use cedar_evaluator_errors::evaluation_errors::NonValueError;
use cedar_evaluator_operators::FunctionTable;
use cedar_evaluator_reads::{Left, V};
use cedar_evaluator_requests::{EntityUIDEntry, Request};
use cedar_evaluator_restricted_exprs::BorrowedRestrictedExpr;
use cedar_expr_partial::PartialValue;
use cedar_store_entities::Entities;
use cedar_store_parts::SlotEnv;
use std::alloc::Global;

// How deep a restricted expression may nest.
const DEPTH: u32 = 512;

/// Evaluates restricted expressions over a table of extension functions. One may nest 512 deep: the root has depth 1.
#[derive(Debug, Drop)]
pub struct RestrictedEvaluator<'a, T> {
    table: &'a T,
}

impl<'a, T: FunctionTable> RestrictedEvaluator<'a, T> {
    /// The evaluator over this table.
    pub fn new(table: &'a T) -> RestrictedEvaluator<'a, T>
        ensures { table_asked result ≡ table.entry.now }
    {
        RestrictedEvaluator { table }
    }

    /// What is left of a restricted expression: a value, or an expression where an unknown stands in it. Errors:
    /// `FailedExtensionFunctionLookup`, `WrongNumArguments`, `TypeError` and `FailedExtensionFunctionExecution` of calls,
    /// `RecursionLimit` and `OutOfMemory`.
    pub fn partial_interpret(
        &self,
        alloc: Global,
        e: BorrowedRestrictedExpr<'_>,
    ) -> Result<Left, EvaluationError>
        ensures { ForScopes T.table T.answers_as (table_asked self.now) (λ s. Leaves (restricted_left s (borrowed_of e.entry)) result) }
    {
        let request = Request::new_unchecked(
            EntityUIDEntry::unknown(),
            EntityUIDEntry::unknown(),
            EntityUIDEntry::unknown(),
            None,
        );
        let entities = Entities::new(alloc);
        let slots = SlotEnv::new();
        let evaluator = Evaluator::new(request, &entities, self.table, DEPTH);
        evaluator.partial_interpret(alloc, e.expr(), &slots)
    }

    /// The value of a restricted expression. Errors: those of `partial_interpret`, and `NonValue` where an unknown stands in it.
    pub fn interpret(
        &self,
        alloc: Global,
        e: BorrowedRestrictedExpr<'_>,
    ) -> Result<V, EvaluationError>
        ensures { ForScopes T.table T.answers_as (table_asked self.now) (λ s. IsValueOf (restricted_left s (borrowed_of e.entry)) result) }
    {
        match self.partial_interpret(alloc, e) {
            Ok(left) => value_of(left),
            Err(error) => Err(error),
        }
    }
}

ghost use Rattle.cedar_evaluator_errors.specs.Outcomes.{left_seen};
ghost use Rattle.cedar_evaluator_model.specs.Scope.{Left as ModelLeft};

// The value that is left. Errors: `NonValue` where a residual is.
fn value_of(left: Left) -> Result<V, EvaluationError>
    ensures { (l : ModelLeft) → l ≡ left_seen left → IsValueOf l result }
{
    match left {
        PartialValue::Value(v) => Ok(v),
        PartialValue::Residual(expr) => {
            let source_loc = expr.source_loc();
            Err(EvaluationError::NonValue(NonValueError { expr, source_loc }))
        }
    }
}

//! The calls of contexts that stand on the evaluator.

ghost use Rattle.std.specs.Prelude.{◌≡◌, IfOk};
ghost use Rattle.cedar_evaluator_model.specs.Reauthorize.{restricted_left, context_substituted};
ghost use Rattle.cedar_evaluator_model.specs.Scope.{Context as ModelContext};
ghost use Rattle.cedar_evaluator_reads.specs.Scopes.{values_in};
ghost use Rattle.cedar_evaluator_requests.specs.Views.{context_of};
ghost use Rattle.cedar_evaluator_restricted_exprs.specs.Views.{borrowed_of};
ghost use Rattle.cedar_evaluator_contexts.specs.Contexts.{CreatesIn, CreatesOfPairsIn, Substitutes, pairs_of_context};
ghost use Rattle.cedar_evaluator_contexts.specs.Functions.{ForScopes};
ghost use Rattle.cedar_evaluator_contexts.specs.Views.{pairs_in, pairs_left};

use crate::evaluator::RestrictedEvaluator;
use crate::into_iter::IntoIter;
use crate::left::context_of_left;
use cedar_evaluator_errors::{ContextCreationError, EvaluationError, NotARecord};
use cedar_evaluator_operators::FunctionTable;
use cedar_evaluator_reads::V;
use cedar_evaluator_requests::{Context, RestrictedFields};
use cedar_evaluator_restricted_exprs::{BorrowedRestrictedExpr, RestrictedExpr};
use cedar_expr_substitution::Substitute;
use cedar_expr_trees::{Expr, ExpressionConstructionError};
use std::alloc::{AllocError, Global};
use std::collections::HashMap;
use std::rc::RcStr;

/// The calls of contexts that stand on the evaluator.
pub trait ContextCalls: Sized {
    /// The context of the model.
    ghost context: { Self → ModelContext };

    /// The context that a record of restricted expressions evaluates to, by the functions of the table.
    ///
    /// # Errors
    /// `NotARecord` with an expression that isn't a record by itself; `Evaluation` where a field doesn't evaluate; `OutOfMemory`.
    fn from_expr<T: FunctionTable>(
        alloc: Global,
        expr: BorrowedRestrictedExpr<'_>,
        table: &T,
    ) -> Result<Self, ContextCreationError>
        ensures { ForScopes T.table T.answers_as table.now (λ s. CreatesIn s context (borrowed_of expr.entry) result) };

    /// The context that the record of these pairs evaluates to, by the functions of the table.
    ///
    /// # Errors
    /// `ExpressionConstruction` with a name that is repeated, whatever is given for it; `Evaluation` where a field doesn't evaluate;
    /// `OutOfMemory`.
    fn from_pairs<T: FunctionTable>(
        alloc: Global,
        pairs: Vec<(RcStr, RestrictedExpr)>,
        table: &T,
    ) -> Result<Self, ContextCreationError>
        ensures { ForScopes T.table T.answers_as table.now (λ s. CreatesOfPairsIn s context (pairs_in pairs.items) result) };

    /// The context with the values of the mapping in the place of its unknowns, evaluated by the functions of the table. Annotations
    /// aren't asked. A context of values stays as it is. Errors: those of the evaluation.
    fn substitute<T: FunctionTable>(
        self,
        alloc: Global,
        mapping: &HashMap<RcStr, V>,
        table: &T,
    ) -> Result<Self, EvaluationError>
        ensures { ForScopes T.table T.answers_as table.now (λ s. Substitutes context (context_substituted s (values_in mapping.now) (context self)) result) };

    /// Goes over the names of the fields, in their order, with what stands under each. All pairs are made at the start.
    fn into_iter(self, alloc: Global) -> Result<IntoIter, AllocError>
        ensures { IfOk result (λ i. pairs_left i ≡ pairs_of_context (context self)) };
}

impl ContextCalls for Context {
    ghost context = { context_of };

    fn from_expr<T: FunctionTable>(
        alloc: Global,
        expr: BorrowedRestrictedExpr<'_>,
        table: &T,
    ) -> Result<Context, ContextCreationError> {
        if expr.as_record_pairs().is_none() {
            let expr = expr.expr().clone()?;
            return Err(ContextCreationError::NotARecord(NotARecord { expr }));
        }
        match evaluated(alloc, expr, table) {
            Ok(context) => Ok(context),
            Err(error) => Err(ContextCreationError::Evaluation(error)),
        }
    }

    fn from_pairs<T: FunctionTable>(
        alloc: Global,
        pairs: Vec<(RcStr, RestrictedExpr)>,
        table: &T,
    ) -> Result<Context, ContextCreationError> {
        match RestrictedExpr::record(alloc, pairs) {
            Ok(record) => Context::from_expr(alloc, record.as_borrowed(), table),
            Err(ExpressionConstructionError::OutOfMemory) => Err(ContextCreationError::OutOfMemory),
            Err(ExpressionConstructionError::DuplicateKey(error)) => {
                let error = error.with_context("in context");
                let error = ExpressionConstructionError::DuplicateKey(error);
                Err(ContextCreationError::ExpressionConstruction(error))
            }
        }
    }

    fn substitute<T: FunctionTable>(
        self,
        alloc: Global,
        mapping: &HashMap<RcStr, V>,
        table: &T,
    ) -> Result<Context, EvaluationError> {
        match self {
            Context::Value(fields) => Ok(Context::Value(fields)),
            Context::RestrictedResidual(fields) => {
                let record = with_values(alloc, &fields, mapping)?;
                evaluated(alloc, record.as_borrowed(), table)
            }
        }
    }

    fn into_iter(self, alloc: Global) -> Result<IntoIter, AllocError> {
        let record = RestrictedExpr::from_context(alloc, self)?;
        IntoIter::new(alloc, record.as_borrowed())
    }
}

ghost use Rattle.cedar_expr_model.specs.Substitution.{substituted};
ghost use Rattle.cedar_evaluator_requests.specs.Views.{restricted_tree};
ghost use Rattle.cedar_evaluator_restricted_exprs.specs.Views.{restricted_of};
ghost use Rattle.cedar_evaluator_contexts.specs.Contexts.{Evaluates};

// The record of the fields, with the values in the place of their unknowns.
fn with_values(
    alloc: Global,
    fields: &RestrictedFields,
    mapping: &HashMap<RcStr, V>,
) -> Result<RestrictedExpr, AllocError>
    ensures { IfOk result (λ r. restricted_of r ≡ substituted (values_in mapping.now) (restricted_tree fields.now)) }
{
    let record = Expr::record_arc(fields.fields().clone()?);
    let record = record.substitute(alloc, mapping)?;
    Ok(RestrictedExpr::new_unchecked(record))
}

// The context that a record evaluates to.
fn evaluated<T: FunctionTable>(
    alloc: Global,
    expr: BorrowedRestrictedExpr<'_>,
    table: &T,
) -> Result<Context, EvaluationError>
    ensures { ForScopes T.table T.answers_as table.now (λ s. Evaluates (borrowed_of expr.entry) (restricted_left s (borrowed_of expr.entry)) result) }
{
    match RestrictedEvaluator::new(table).partial_interpret(alloc, expr) {
        Ok(left) => context_of_left(alloc, left),
        Err(error) => Err(error),
    }
}

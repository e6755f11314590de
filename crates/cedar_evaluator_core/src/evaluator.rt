//! The evaluator of a request.

ghost use Rattle.std.specs.Prelude.{◌≡◌, None};
ghost use Rattle.cedar_evaluator_model.specs.OfLaws.Whole.{AllLoaded};
ghost use Rattle.cedar_evaluator_model.specs.Evaluation.{evaluated};
ghost use Rattle.cedar_evaluator_errors.specs.Outcomes.{Leaves};
ghost use Rattle.cedar_evaluator_requests.specs.Views.{request_of};
ghost use Rattle.cedar_evaluator_reads.specs.Scopes.{values_in};
ghost use Rattle.cedar_store_model.specs.World.{World};
ghost use Rattle.cedar_evaluator_core.specs.Completed.{IsCompletion, StandsIn, IsWithin, AnswersMeaning};
ghost use Rattle.cedar_evaluator_core.specs.Evaluators.{asked_of, bound_in, entities_in, table_in, limit_of, ForEvaluation, ForCondition, truth_evaluated, IsValueOf, IsTruthOf, IsVerdict, IsMeaningIn, IsClosed, MeetsNoLimit};

use crate::outcomes::{truth_of, value_of, verdict_of};
use crate::walk::walk;
use cedar_evaluator_errors::EvaluationError;
use cedar_evaluator_operators::FunctionTable;
use cedar_evaluator_reads::{Knowledge, Left, V};
use cedar_evaluator_requests::Request;
use cedar_expr_trees::Expr;
use cedar_store_entities::Entities;
use cedar_store_parts::SlotEnv;
use cedar_store_policies::Policy;
use either::Either;
use std::alloc::Global;
use std::collections::HashMap;
use std::fmt;
use std::fmt::{Debug, Formatter, Write};
use std::rc::RcStr;

/// Evaluates expressions and policies of a request over a store of entities and a table of extension functions, within a limit on their
/// depth: the root has depth 1.
#[derive(Drop)]
pub struct Evaluator<'a, T> {
    request: Request,
    unknowns: Option<&'a HashMap<RcStr, V>>,
    entities: &'a Entities,
    table: &'a T,
    limit: u32,
}

impl<T> Debug for Evaluator<'_, T> {
    fn fmt<W: Write>(&self, f: &mut Formatter<W>) -> fmt::Result {
        write!(
            f,
            "<Evaluator with principal = {:?}, action = {:?}, resource = {:?}>",
            self.request.principal(),
            self.request.action(),
            self.request.resource()
        )
    }
}

impl<'a, T: FunctionTable> Evaluator<'a, T> {
    /// The evaluator of this request, in which no unknown has a value.
    pub fn new(
        request: Request,
        entities: &'a Entities,
        table: &'a T,
        limit: u32,
    ) -> Evaluator<'a, T>
        ensures request { asked_of result ≡ request_of request }
        ensures unknowns { bound_in result ≡ (λ n. None) }
        ensures entities { entities_in result ≡ entities.now }
        ensures table { table_in result ≡ table.now }
        ensures limit { limit_of result ≡ limit }
    {
        Evaluator {
            request,
            unknowns: None,
            entities,
            table,
            limit,
        }
    }

    /// The evaluator in which these unknowns have values, and all else is as it was.
    pub fn with_unknowns(self, unknowns: &'a HashMap<RcStr, V>) -> Evaluator<'a, T>
        ensures request { asked_of result ≡ asked_of self.entry }
        ensures unknowns { bound_in result ≡ values_in unknowns.now }
        ensures entities { entities_in result ≡ entities_in self.entry }
        ensures table { table_in result ≡ table_in self.entry }
        ensures limit { limit_of result ≡ limit_of self.entry }
    {
        Evaluator {
            unknowns: Some(unknowns),
            ..self
        }
    }

    /// What is left of the expression where the slots are bound so: a value or a residual. In every completion it stands for the
    /// expression. An outcome that what is known as values gives an expression within the limit is answered, whatever else is unknown; and
    /// where nothing is unknown such an expression doesn't meet the limit.
    pub fn partial_interpret(
        &'a self,
        alloc: Global,
        e: &Expr,
        slots: &'a SlotEnv,
    ) -> Result<Left, EvaluationError>
        ensures left { ForEvaluation T.table T.answers_as self.now slots.now e.now (λ s n t. Leaves (evaluated s n t) result) }
        ensures no_limit { ForEvaluation T.table T.answers_as self.now slots.now e.now (λ s n t. IsClosed s n t → MeetsNoLimit result) }
        ensures stands { ForEvaluation T.table T.answers_as self.now slots.now e.now (λ s n t. (w : World) → IsCompletion w s t → StandsIn w t result) }
        ensures owed { ForEvaluation T.table T.answers_as self.now slots.now e.now (λ s n t. IsWithin s n t → AnswersMeaning s t result) }
    {
        let known = Knowledge {
            request: &self.request,
            slots,
            unknowns: self.unknowns,
            entities: self.entities,
            table: self.table,
        };
        walk(alloc, &known, self.limit, e)
    }

    /// The value of the expression where the slots are bound so. Errors: those of `partial_interpret`, and `NonValue` where a residual is
    /// left. Where nothing is unknown, everything is loaded and the expression nests within the limit, it is what the expression means.
    pub fn interpret(
        &'a self,
        alloc: Global,
        e: &Expr,
        slots: &'a SlotEnv,
    ) -> Result<V, EvaluationError>
        ensures value { ForEvaluation T.table T.answers_as self.now slots.now e.now (λ s n t. IsValueOf (evaluated s n t) result) }
        ensures meaning { ForEvaluation T.table T.answers_as self.now slots.now e.now (λ s n t. IsClosed s n t → AllLoaded s → IsMeaningIn s t result) }
    {
        self.value(alloc, e, slots)
    }

    // The value of the expression.
    fn value(&'a self, alloc: Global, e: &Expr, slots: &'a SlotEnv) -> Result<V, EvaluationError>
        ensures { ForEvaluation T.table T.answers_as self.now slots.now e.now (λ s n t. IsValueOf (evaluated s n t) result) }
    {
        match self.partial_interpret(alloc, e, slots) {
            Ok(left) => value_of(left),
            Err(error) => Err(error),
        }
    }

    /// Whether the policy's condition is true, or what is left of it. Errors: those of `partial_interpret`, and `TypeError` where the
    /// condition is no truth value.
    pub fn partial_evaluate(
        &'a self,
        alloc: Global,
        policy: &'a Policy,
    ) -> Result<Either<bool, Expr>, EvaluationError>
        ensures { ForCondition T.table T.answers_as self.now policy.now (λ s n t. IsVerdict (truth_evaluated s n t) result) }
    {
        self.verdict(alloc, policy.condition(), policy.env())
    }

    // Whether the expression is true, or what is left of it.
    fn verdict(
        &'a self,
        alloc: Global,
        e: &Expr,
        slots: &'a SlotEnv,
    ) -> Result<Either<bool, Expr>, EvaluationError>
        ensures { ForEvaluation T.table T.answers_as self.now slots.now e.now (λ s n t. IsVerdict (truth_evaluated s n t) result) }
    {
        match self.partial_interpret(alloc, e, slots) {
            Ok(left) => verdict_of(alloc, left),
            Err(error) => Err(error),
        }
    }

    /// Whether the policy's condition is true. Errors: those of `interpret`, and `TypeError` where the condition is no truth value.
    pub fn evaluate(&'a self, alloc: Global, policy: &'a Policy) -> Result<bool, EvaluationError>
        ensures { ForCondition T.table T.answers_as self.now policy.now (λ s n t. IsTruthOf (truth_evaluated s n t) result) }
    {
        self.truth(alloc, policy.condition(), policy.env())
    }

    // Whether the expression is true.
    fn truth(&'a self, alloc: Global, e: &Expr, slots: &'a SlotEnv) -> Result<bool, EvaluationError>
        ensures { ForEvaluation T.table T.answers_as self.now slots.now e.now (λ s n t. IsTruthOf (truth_evaluated s n t) result) }
    {
        match self.verdict(alloc, e, slots) {
            Ok(verdict) => truth_of(verdict),
            Err(error) => Err(error),
        }
    }
}

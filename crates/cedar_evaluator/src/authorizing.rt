//! Authorizers.

ghost use Rattle.std.specs.Prelude.{◌≡◌};
ghost use Rattle.cedar_store_policies.specs.PolicySets.{set_of};
ghost use Rattle.cedar_evaluator_model.specs.Laws.{IsReady};
ghost use Rattle.cedar_evaluator_model.specs.Response.{response_of};
ghost use Rattle.cedar_evaluator_core.specs.Evaluators.{asked_of};
ghost use Rattle.cedar_evaluator_contexts.specs.Refusals.{TakesValues};
ghost use Rattle.cedar_evaluator_contexts.specs.Functions.{ForScopes};
ghost use Rattle.cedar_evaluator.specs.Answered.{answer_left, answer_meant, Answers, Responds, HoldsInCompletions, DecidesForced, Gathers};
ghost use Rattle.cedar_evaluator.specs.Asked.{ForRequest, ForEvaluator, ForAsked};
ghost use Rattle.cedar_evaluator.specs.Decisions.{IsClosedFor};
ghost use Rattle.cedar_evaluator.specs.Scopes.{with_values};

use crate::gathering::Gathering;
use crate::partial_response::PartialResponse;
use crate::verdicts::verdict_on;
use cedar_evaluator_contexts::{ConcretizationError, concretized};
use cedar_evaluator_core::Evaluator;
use cedar_evaluator_operators::FunctionTable;
use cedar_evaluator_reads::V;
use cedar_evaluator_requests::{Request, Response};
use cedar_expr_functions::Extensions;
use cedar_store_entities::Entities;
use cedar_store_policies::PolicySet;
use cedar_store_policies::laws::ids_are_distinct;
use std::alloc::{AllocError, Global};
use std::collections::HashMap;
use std::fmt;
use std::fmt::{Debug, Formatter, Write};
use std::rc::{Rc, RcStr};

/// Answers requests by policies, over a table of extension functions, within a limit on the depth of expressions.
#[derive(Drop)]
pub struct Authorizer<'a, T> {
    table: &'a T,
    limit: u32,
}

impl<T> Clone for Authorizer<'_, T> {
    ghost is_clone = { λ a copy. (copy.table.now ≡ a.table.now) × (copy.limit ≡ a.limit) };

    fn clone(&self) -> Result<Self, AllocError> {
        Ok(Authorizer {
            table: self.table,
            limit: self.limit,
        })
    }
}

impl Debug for Authorizer<'_, Extensions<'_>> {
    fn fmt<W: Write>(&self, f: &mut Formatter<W>) -> fmt::Result {
        let mut names = self.table.ext_names();
        match names.next() {
            None => f.write_str("<Authorizer with no extensions>"),
            Some(first) => {
                write!(f, "<Authorizer with the following extensions: [{first}")?;
                for name in names {
                    write!(f, ", {name}")?;
                }
                f.write_str("]>")
            }
        }
    }
}

impl<'a, T: FunctionTable> Authorizer<'a, T> {
    ghost use Rattle.cedar_evaluator.specs.Authorizers.{asks_table, keeps_limit};

    /// The authorizer over this table and within this limit.
    pub fn new(table: &'a T, limit: u32) -> Authorizer<'a, T>
        ensures table { asks_table result ≡ table.now }
        ensures limit { keeps_limit result ≡ limit }
    {
        Authorizer { table, limit }
    }

    /// The answer to the request by these policies, over these entities, where each residual counts as an error. Where nothing is unknown,
    /// everything is loaded and the policies are within the limit, it is the answer by what the policies mean. Fails only when out of memory.
    pub fn is_authorized(
        &self,
        alloc: Global,
        q: Request,
        policies: &PolicySet,
        entities: &Entities,
    ) -> Result<Response, AllocError>
        ensures response { ForRequest T.table T.answers_as self.now q entities.now policies.now (λ s n ps. Answers (answer_left s n ps) result) }
        ensures meaning { ForRequest T.table T.answers_as self.now q entities.now policies.now (λ s n ps. IsClosedFor s n ps → Answers (answer_meant s ps) result) }
    {
        let response = self.is_authorized_core(alloc, q, policies, entities)?;
        response.concretize(alloc)
    }

    /// What is left of these policies for the request, over these entities. It holds in every completion, and a decision is owed where what
    /// is known forces it. Fails only when out of memory.
    pub fn is_authorized_core(
        &self,
        alloc: Global,
        q: Request,
        policies: &PolicySet,
        entities: &Entities,
    ) -> Result<PartialResponse, AllocError>
        ensures response { ForRequest T.table T.answers_as self.now q entities.now policies.now (λ s n ps. Responds (response_of s n ps) result) }
        ensures completions { ForRequest T.table T.answers_as self.now q entities.now policies.now (λ s n ps. HoldsInCompletions s ps result) }
        ensures owed { ForRequest T.table T.answers_as self.now q entities.now policies.now (λ s n ps. IsReady s n ps → DecidesForced s ps result) }
    {
        ids_are_distinct();
        let request = Rc::new(alloc, q.clone()?)?;
        let evaluator = Evaluator::new(q, entities, self.table, self.limit);
        respond(alloc, &evaluator, request, policies)
    }

    // The request with these values for what is unknown in it.
    pub(crate) fn concretized(
        &self,
        alloc: Global,
        request: &Request,
        mapping: &HashMap<RcStr, V>,
    ) -> Result<Request, ConcretizationError>
        ensures { ForScopes T.table T.answers_as (asks_table self.now) (λ s. TakesValues s mapping.now request.now result) }
    {
        concretized(alloc, self.table, request, mapping)
    }

    // What is left of these policies for the request, where these unknowns have values.
    pub(crate) fn resume(
        &self,
        alloc: Global,
        q: Request,
        mapping: &HashMap<RcStr, V>,
        policies: &PolicySet,
        entities: &Entities,
    ) -> Result<PartialResponse, AllocError>
        ensures { ForRequest T.table T.answers_as self.now q entities.now policies.now (λ s n ps. Responds (response_of (with_values s mapping.now) n ps) result) }
    {
        let request = Rc::new(alloc, q.clone()?)?;
        let plain = Evaluator::new(q, entities, self.table, self.limit);
        let evaluator = plain.with_unknowns(mapping);
        respond(alloc, &evaluator, request, policies)
    }
}

// The response to the evaluator's request by these policies; it keeps that request.
pub(crate) fn respond<T: FunctionTable>(
    alloc: Global,
    evaluator: &Evaluator<'_, T>,
    request: Rc<Request>,
    policies: &PolicySet,
) -> Result<PartialResponse, AllocError>
    ensures { ForAsked T.table T.answers_as request.value evaluator.now (λ s n. Responds (response_of s n (set_of policies.now).policies) result) }
{
    ids_are_distinct();
    let gathering = gather(alloc, evaluator, policies)?;
    gathering.into_response(alloc, request)
}

// The groups of these policies, each by what is left of it.
fn gather<T: FunctionTable>(
    alloc: Global,
    evaluator: &Evaluator<'_, T>,
    policies: &PolicySet,
) -> Result<Gathering, AllocError>
    ensures { ForEvaluator T.table T.answers_as evaluator.now (λ s n. Gathers (asked_of evaluator.now) (response_of s n (set_of policies.now).policies) result) }
{
    let mut gathering = Gathering::new(alloc);
    for policy in policies.policies() {
        let left = verdict_on(alloc, evaluator, policy)?;
        gathering.put(alloc, policy, left)?;
    }
    Ok(gathering)
}

//! Partial responses.

use crate::authorizing::Authorizer;
use crate::err::ReauthorizationError;
use cedar_evaluator_operators::FunctionTable;
use cedar_evaluator_reads::V;
use cedar_evaluator_requests::errors::{met_limit, push_without_value};
use cedar_evaluator_requests::groups::{group_of, is_empty};
use cedar_evaluator_requests::ids::{ids_of, push_erred, push_ids};
use cedar_evaluator_requests::policies::{push_all, push_residual, push_true};
use cedar_evaluator_requests::searches::policy_in;
use cedar_evaluator_requests::{AuthorizationError, Decision, ErrorState, Request, Response};
use cedar_expr_trees::Expr;
use cedar_store_entities::Entities;
use cedar_store_parts::{Annotations, Effect, PolicyID};
use cedar_store_policies::{Policy, PolicySet};
use indexmap::{IndexMap, IndexSet};
use std::alloc::{AllocError, Global};
use std::collections::HashMap;
use std::rc::{Rc, RcStr};

/// What a partial evaluation of policies answers: for each effect the policies that are satisfied, that are false, and of which
/// something is left, each in policy order; and the errors that were met.
#[derive(Debug)]
pub struct PartialResponse {
    /// The permits that are satisfied, with their annotations.
    pub satisfied_permits: IndexMap<PolicyID, Rc<Annotations>>,
    /// The permits that are false, with whether they erred.
    pub false_permits: IndexMap<PolicyID, (ErrorState, Rc<Annotations>)>,
    /// The permits of which an expression is left.
    pub residual_permits: IndexMap<PolicyID, (Rc<Expr>, Rc<Annotations>)>,
    /// The forbids that are satisfied, with their annotations.
    pub satisfied_forbids: IndexMap<PolicyID, Rc<Annotations>>,
    /// The forbids that are false, with whether they erred.
    pub false_forbids: IndexMap<PolicyID, (ErrorState, Rc<Annotations>)>,
    /// The forbids of which an expression is left.
    pub residual_forbids: IndexMap<PolicyID, (Rc<Expr>, Rc<Annotations>)>,
    /// The errors of policies, in policy order.
    pub errors: Vec<AuthorizationError>,
    request: Rc<Request>,
}

// A drop of its own is one step to the proof of a function that may drop a response; a derived one is a step for each field.
impl Drop for PartialResponse {
    fn drop(self) {
        let PartialResponse {
            satisfied_permits: _,
            false_permits: _,
            residual_permits: _,
            satisfied_forbids: _,
            false_forbids: _,
            residual_forbids: _,
            errors: _,
            request: _,
        } = self;
    }
}

impl Clone for PartialResponse {
    ghost use Rattle.cedar_evaluator.specs.Copies.{IsSameResponse};

    ghost is_clone = { IsSameResponse };

    // Its parts are copied one after the other into a response without groups: each that is at hand is a step to the proof.
    fn clone(&self) -> Result<PartialResponse, AllocError> {
        let mut copy = PartialResponse::without_groups(
            *self.errors.allocator(),
            self.request.clone()?,
        );
        let satisfied_permits = self.satisfied_permits.clone()?;
        copy.satisfied_permits = satisfied_permits;
        let false_permits = self.false_permits.clone()?;
        copy.false_permits = false_permits;
        let residual_permits = self.residual_permits.clone()?;
        copy.residual_permits = residual_permits;
        let satisfied_forbids = self.satisfied_forbids.clone()?;
        copy.satisfied_forbids = satisfied_forbids;
        let false_forbids = self.false_forbids.clone()?;
        copy.false_forbids = false_forbids;
        let residual_forbids = self.residual_forbids.clone()?;
        copy.residual_forbids = residual_forbids;
        let errors = self.errors.clone()?;
        copy.errors = errors;
        Ok(copy)
    }
}

impl PartialResponse {
    ghost use Rattle.std.specs.Prelude.{◌≡◌, map, IfOk, option_map};
    ghost use Rattle.cedar_store_model.specs.Answer.{decided};
    ghost use Rattle.cedar_store_parts.specs.Parts.{id_text, effect_of};
    ghost use Rattle.cedar_store_policies.specs.Policies.{policy_of};
    ghost use Rattle.cedar_evaluator_model.specs.Members.{of_true, decision, definitely_satisfied, definitely_errored, may_be_determining, must_be_determining, nontrivial_residuals, nontrivial_residual_ids, nontrivial_forbids, all_residuals, get, concretize, met_limit as meets_limit};
    ghost use Rattle.cedar_evaluator_requests.specs.Views.{decision_of, error_of, request_of, answer_of};
    ghost use Rattle.cedar_evaluator_requests.specs.Groups.{noted_seen, false_seen, residual_seen, each_once};
    ghost use Rattle.cedar_evaluator_model.specs.Reauthorize.{reauthorized};
    ghost use Rattle.cedar_evaluator.specs.Answered.{StepsTo};
    ghost use Rattle.cedar_evaluator.specs.Asked.{ForReauthorizing};
    ghost use Rattle.cedar_evaluator.specs.Decisions.{IsDecision};
    ghost use Rattle.cedar_evaluator.specs.Refusals.{Reauthorizes};
    ghost use Rattle.cedar_evaluator.specs.Responses.{response_seen};

    /// The response of these groups, errors and request. An id that is repeated in a group keeps its place, with what stands last under
    /// it. Fails only when out of memory.
    pub fn new(
        alloc: Global,
        true_permits: Vec<(PolicyID, Rc<Annotations>)>,
        false_permits: Vec<(PolicyID, (ErrorState, Rc<Annotations>))>,
        residual_permits: Vec<(PolicyID, (Rc<Expr>, Rc<Annotations>))>,
        true_forbids: Vec<(PolicyID, Rc<Annotations>)>,
        false_forbids: Vec<(PolicyID, (ErrorState, Rc<Annotations>))>,
        residual_forbids: Vec<(PolicyID, (Rc<Expr>, Rc<Annotations>))>,
        errors: Vec<AuthorizationError>,
        request: Rc<Request>,
    ) -> Result<PartialResponse, AllocError>
        ensures { IfOk result (λ r. response_seen r ≡ record {
          true_permits = map noted_seen (each_once true_permits.items);
          false_permits = map false_seen (each_once false_permits.items);
          residual_permits = map residual_seen (each_once residual_permits.items);
          true_forbids = map noted_seen (each_once true_forbids.items);
          false_forbids = map false_seen (each_once false_forbids.items);
          residual_forbids = map residual_seen (each_once residual_forbids.items);
          errors = map error_of errors.items;
          request = request_of request.value;
        }) }
    {
        let mut response = PartialResponse {
            satisfied_permits: IndexMap::new(alloc),
            false_permits: IndexMap::new(alloc),
            residual_permits: IndexMap::new(alloc),
            satisfied_forbids: IndexMap::new(alloc),
            false_forbids: IndexMap::new(alloc),
            residual_forbids: IndexMap::new(alloc),
            errors,
            request,
        };
        response.satisfied_permits = group_of(alloc, true_permits)?;
        response.false_permits = group_of(alloc, false_permits)?;
        response.residual_permits = group_of(alloc, residual_permits)?;
        response.satisfied_forbids = group_of(alloc, true_forbids)?;
        response.false_forbids = group_of(alloc, false_forbids)?;
        response.residual_forbids = group_of(alloc, residual_forbids)?;
        Ok(response)
    }

    // The response to a request without groups and errors.
    fn without_groups(alloc: Global, request: Rc<Request>) -> PartialResponse
        ensures { result.request ≡ request }
    {
        PartialResponse {
            satisfied_permits: IndexMap::new(alloc),
            false_permits: IndexMap::new(alloc),
            residual_permits: IndexMap::new(alloc),
            satisfied_forbids: IndexMap::new(alloc),
            false_forbids: IndexMap::new(alloc),
            residual_forbids: IndexMap::new(alloc),
            errors: Vec::new(alloc),
            request,
        }
    }

    /// The request.
    pub fn request(&self) -> &Rc<Request>
        ensures { request_of result.now.value ≡ (response_seen self.now).request }
    {
        &self.request
    }

    /// The answer where each residual counts as an error. Fails only when out of memory.
    pub fn concretize(self, alloc: Global) -> Result<Response, AllocError>
        ensures { IfOk result (λ a. answer_of a ≡ concretize (response_seen self)) }
    {
        let decision = self.concrete_decision();
        let reasons = self.reasons(alloc)?;
        let errors = self.into_errors(alloc)?;
        Ok(Response::new(decision, reasons, errors))
    }

    // The decision where each residual counts as an error.
    fn concrete_decision(&self) -> Decision
        ensures { decision_of result ≡ decided (response_seen self.now).true_permits (response_seen self.now).true_forbids }
    {
        if is_empty(&self.satisfied_forbids) && !is_empty(&self.satisfied_permits) {
            Decision::Allow
        } else {
            Decision::Deny
        }
    }

    // The group of the policies that determine the decision whatever the unknowns are, and their effect.
    fn determining(&self) -> (Effect, &IndexMap<PolicyID, Rc<Annotations>>)
        ensures { of_true (effect_of result.0) (map noted_seen result.1.now.entries) ≡ must_be_determining (response_seen self.now) }
    {
        if is_empty(&self.satisfied_forbids) && is_empty(&self.residual_forbids) {
            (Effect::Permit, &self.satisfied_permits)
        } else {
            (Effect::Forbid, &self.satisfied_forbids)
        }
    }

    // The ids of those policies.
    fn reasons(&self, alloc: Global) -> Result<IndexSet<PolicyID>, AllocError>
        ensures { IfOk result (λ ids. map id_text ids.keys ≡ map (λ p. p.id) (must_be_determining (response_seen self.now))) }
    {
        let (_effect, group) = self.determining();
        let ids = ids_of(alloc, group)?;
        Ok(ids)
    }

    // An error for each residual policy, and then those that are listed.
    fn into_errors(self, alloc: Global) -> Result<Vec<AuthorizationError>, AllocError>
        ensures { IfOk result (λ es. map error_of es.items ≡ (concretize (response_seen self)).errors) }
    {
        let mut errors = Vec::new(alloc);
        push_without_value(&mut errors, &self.residual_forbids)?;
        push_without_value(&mut errors, &self.residual_permits)?;
        let PartialResponse {
            satisfied_permits: _,
            false_permits: _,
            residual_permits: _,
            satisfied_forbids: _,
            false_forbids: _,
            residual_forbids: _,
            errors: mut listed,
            request: _,
        } = self;
        errors.append(&mut listed)?;
        Ok(errors)
    }

    /// The decision, where what is left can't change it. Where no policy met the limit it is that of every completion, and one is given as
    /// soon as what is known forces it.
    pub fn decision(&self) -> Option<Decision>
        ensures decision { option_map decision_of result ≡ decision (response_seen self.now) }
        ensures laws { IsDecision (response_seen self.now) (option_map decision_of result) }
    {
        self.decided()
    }

    // The decision by the groups.
    fn decided(&self) -> Option<Decision>
        ensures { option_map decision_of result ≡ decision (response_seen self.now) }
    {
        if !is_empty(&self.satisfied_forbids) {
            Some(Decision::Deny)
        } else if is_empty(&self.satisfied_permits) {
            if is_empty(&self.residual_permits) {
                Some(Decision::Deny)
            } else {
                None
            }
        } else if is_empty(&self.residual_forbids) {
            Some(Decision::Allow)
        } else {
            None
        }
    }

    /// Whether the evaluation of a policy met the limit on the depth.
    pub fn met_limit(&self) -> bool
        ensures { result ≡ meets_limit (response_seen self.now) }
    {
        met_limit(&self.errors)
    }

    /// The policies that are satisfied, permits first. Fails only when out of memory.
    pub fn definitely_satisfied(&self, alloc: Global) -> Result<Vec<Policy>, AllocError>
        ensures { IfOk result (λ ps. map policy_of ps.items ≡ definitely_satisfied (response_seen self.now)) }
    {
        let mut policies = Vec::new(alloc);
        push_true(
            alloc,
            &mut policies,
            Effect::Permit,
            &self.satisfied_permits,
        )?;
        push_true(
            alloc,
            &mut policies,
            Effect::Forbid,
            &self.satisfied_forbids,
        )?;
        Ok(policies)
    }

    /// The ids of the policies that erred, permits first. Fails only when out of memory.
    pub fn definitely_errored(&self, alloc: Global) -> Result<Vec<&PolicyID>, AllocError>
        ensures { IfOk result (λ ids. map (λ i. id_text i.now) ids.items ≡ definitely_errored (response_seen self.now)) }
    {
        let mut ids = Vec::new(alloc);
        push_erred(&mut ids, &self.false_permits)?;
        push_erred(&mut ids, &self.false_forbids)?;
        Ok(ids)
    }

    /// The policies that may determine the decision. Fails only when out of memory.
    pub fn may_be_determining(&self, alloc: Global) -> Result<Vec<Policy>, AllocError>
        ensures { IfOk result (λ ps. map policy_of ps.items ≡ may_be_determining (response_seen self.now)) }
    {
        let mut policies = Vec::new(alloc);
        if is_empty(&self.satisfied_forbids) {
            push_true(
                alloc,
                &mut policies,
                Effect::Permit,
                &self.satisfied_permits,
            )?;
            push_residual(alloc, &mut policies, Effect::Permit, &self.residual_permits)?;
            push_residual(alloc, &mut policies, Effect::Forbid, &self.residual_forbids)?;
            return Ok(policies);
        }
        push_true(
            alloc,
            &mut policies,
            Effect::Forbid,
            &self.satisfied_forbids,
        )?;
        push_residual(alloc, &mut policies, Effect::Forbid, &self.residual_forbids)?;
        Ok(policies)
    }

    /// The policies that determine the decision whatever the unknowns are. Fails only when out of memory.
    pub fn must_be_determining(&self, alloc: Global) -> Result<Vec<Policy>, AllocError>
        ensures { IfOk result (λ ps. map policy_of ps.items ≡ must_be_determining (response_seen self.now)) }
    {
        let (effect, group) = self.determining();
        let mut policies = Vec::new(alloc);
        push_true(alloc, &mut policies, effect, group)?;
        Ok(policies)
    }

    /// The policies of which an expression is left, permits first. Fails only when out of memory.
    pub fn nontrivial_residuals(&self, alloc: Global) -> Result<Vec<Policy>, AllocError>
        ensures { IfOk result (λ ps. map policy_of ps.items ≡ nontrivial_residuals (response_seen self.now)) }
    {
        let mut policies = Vec::new(alloc);
        push_residual(alloc, &mut policies, Effect::Permit, &self.residual_permits)?;
        push_residual(alloc, &mut policies, Effect::Forbid, &self.residual_forbids)?;
        Ok(policies)
    }

    /// The ids of the policies of which an expression is left, permits first. Fails only when out of memory.
    pub fn nontrivial_residual_ids(&self, alloc: Global) -> Result<Vec<&PolicyID>, AllocError>
        ensures { IfOk result (λ ids. map (λ i. id_text i.now) ids.items ≡ nontrivial_residual_ids (response_seen self.now)) }
    {
        let mut ids = Vec::new(alloc);
        push_ids(&mut ids, &self.residual_permits)?;
        push_ids(&mut ids, &self.residual_forbids)?;
        Ok(ids)
    }

    /// The forbids of which an expression is left. Fails only when out of memory.
    pub fn nontrivial_forbids(&self, alloc: Global) -> Result<Vec<Policy>, AllocError>
        ensures { IfOk result (λ ps. map policy_of ps.items ≡ nontrivial_forbids (response_seen self.now)) }
    {
        let mut policies = Vec::new(alloc);
        push_residual(alloc, &mut policies, Effect::Forbid, &self.residual_forbids)?;
        Ok(policies)
    }

    /// All policies by what is left of them: permits true, false and residual, and then forbids so. Fails only when out of memory.
    pub fn all_residuals(&self, alloc: Global) -> Result<Vec<Policy>, AllocError>
        ensures { IfOk result (λ ps. map policy_of ps.items ≡ all_residuals (response_seen self.now)) }
    {
        let mut policies = Vec::new(alloc);
        push_all(
            alloc,
            &mut policies,
            Effect::Permit,
            &self.satisfied_permits,
            &self.false_permits,
            &self.residual_permits,
        )?;
        push_all(
            alloc,
            &mut policies,
            Effect::Forbid,
            &self.satisfied_forbids,
            &self.false_forbids,
            &self.residual_forbids,
        )?;
        Ok(policies)
    }

    /// The policy of this id by what is left of it, if there is one: permits first, and of each effect the residual ones, the true,
    /// the false. Fails only when out of memory.
    pub fn get(&self, alloc: Global, id: &PolicyID) -> Result<Option<Policy>, AllocError>
        ensures { IfOk result (λ o. option_map policy_of o ≡ get (response_seen self.now) (id_text id.now)) }
    {
        let permit = policy_in(
            alloc,
            Effect::Permit,
            id,
            &self.residual_permits,
            &self.satisfied_permits,
            &self.false_permits,
        )?;
        match permit {
            Some(policy) => Ok(Some(policy)),
            None => policy_in(
                alloc,
                Effect::Forbid,
                id,
                &self.residual_forbids,
                &self.satisfied_forbids,
                &self.false_forbids,
            ),
        }
    }

    /// The response to what is left of the policies once these values are known of unknowns, by their names: the parts of the request
    /// that are unknown take theirs, and so do the unknowns of its context and of what is left. In each completion that fits the values a
    /// policy is satisfied by it exactly where it is by this one, where none met the limit. Refuses what `ReauthorizationError` lists.
    pub fn reauthorize<T: FunctionTable>(
        &self,
        alloc: Global,
        mapping: &HashMap<RcStr, V>,
        auth: &Authorizer<'_, T>,
        es: &Entities,
    ) -> Result<PartialResponse, ReauthorizationError>
        ensures response { ForReauthorizing T.table T.answers_as auth.now self.now es.now mapping.now (λ s n b r. Reauthorizes (reauthorized s n b r) result) }
        ensures laws { ForReauthorizing T.table T.answers_as auth.now self.now es.now mapping.now (λ s n b r. StepsTo s n b r result) }
    {
        self.resumed(alloc, mapping, auth, es)
    }

    // The response to what is left of the policies, once these values are known.
    fn resumed<T: FunctionTable>(
        &self,
        alloc: Global,
        mapping: &HashMap<RcStr, V>,
        auth: &Authorizer<'_, T>,
        es: &Entities,
    ) -> Result<PartialResponse, ReauthorizationError>
        ensures { ForReauthorizing T.table T.answers_as auth.now self.now es.now mapping.now (λ s n b r. Reauthorizes (reauthorized s n b r) result) }
    {
        let left = self.all_residuals(alloc)?;
        let policies = PolicySet::try_from_iter(alloc, left)?;
        let request = auth.concretized(alloc, &self.request, mapping)?;
        Ok(auth.resume(alloc, request, mapping, &policies, es)?)
    }
}

//! Groups of policies while they are gathered.

ghost use Rattle.std.specs.Prelude.{◌≡◌, IfOk, OnOk};
ghost use Rattle.cedar_expr_trees.specs.Trees.{tree_of};
ghost use Rattle.cedar_store_policies.specs.Policies.{policy_of};
ghost use Rattle.cedar_evaluator_model.specs.Response.{PartialRequest, noted};
ghost use Rattle.cedar_evaluator_errors.specs.Outcomes.{cause_of};
ghost use Rattle.cedar_evaluator_requests.specs.Views.{request_of};
ghost use Rattle.cedar_evaluator_requests.specs.Groups.{noted_seen, state_of};
ghost use Rattle.cedar_evaluator.specs.Responses.{response_seen};
ghost use Rattle.cedar_evaluator.specs.Verdicts.{left_seen, TellsStop};
ghost use Rattle.cedar_evaluator.specs.Gathering.{gathered, each_kept, with_left, true_noted, false_noted, residual_noted, error_noted, nothing_gathered};

use crate::partial_response::PartialResponse;
use crate::verdicts::Verdict;
use cedar_evaluator_errors::EvaluationError;
use cedar_evaluator_requests::{AuthorizationError, ErrorState, Request};
use cedar_expr_trees::Expr;
use cedar_store_parts::{Annotations, Effect, PolicyID};
use cedar_store_policies::Policy;
use std::alloc::{AllocError, Global};
use std::rc::Rc;

// The groups of the policies that are evaluated, and the errors.
pub(crate) struct Gathering {
    pub(crate) true_permits: Vec<(PolicyID, Rc<Annotations>)>,
    pub(crate) false_permits: Vec<(PolicyID, (ErrorState, Rc<Annotations>))>,
    pub(crate) residual_permits: Vec<(PolicyID, (Rc<Expr>, Rc<Annotations>))>,
    pub(crate) true_forbids: Vec<(PolicyID, Rc<Annotations>)>,
    pub(crate) false_forbids: Vec<(PolicyID, (ErrorState, Rc<Annotations>))>,
    pub(crate) residual_forbids: Vec<(PolicyID, (Rc<Expr>, Rc<Annotations>))>,
    pub(crate) errors: Vec<AuthorizationError>,
}

// A drop of its own is one step to the proof of a function that may drop it; a derived one is a step for each field.
impl Drop for Gathering {
    fn drop(self) {
        let Gathering {
            true_permits: _,
            false_permits: _,
            residual_permits: _,
            true_forbids: _,
            false_forbids: _,
            residual_forbids: _,
            errors: _,
        } = self;
    }
}

impl Gathering {
    // No policy yet.
    pub(crate) fn new(alloc: Global) -> Gathering
        ensures { (q : PartialRequest) → gathered q result ≡ nothing_gathered q }
    {
        Gathering {
            true_permits: Vec::new(alloc),
            false_permits: Vec::new(alloc),
            residual_permits: Vec::new(alloc),
            true_forbids: Vec::new(alloc),
            false_forbids: Vec::new(alloc),
            residual_forbids: Vec::new(alloc),
            errors: Vec::new(alloc),
        }
    }

    // The response of these groups and errors to the request.
    pub(crate) fn into_response(
        self,
        alloc: Global,
        request: Rc<Request>,
    ) -> Result<PartialResponse, AllocError>
        ensures { IfOk result (λ r. response_seen r ≡ each_kept (request_of request.value) self) }
    {
        let Gathering {
            true_permits,
            false_permits,
            residual_permits,
            true_forbids,
            false_forbids,
            residual_forbids,
            errors,
        } = self;
        PartialResponse::new(
            alloc,
            true_permits,
            false_permits,
            residual_permits,
            true_forbids,
            false_forbids,
            residual_forbids,
            errors,
            request,
        )
    }

    // Puts a policy in its group, at the end, by what is left of it.
    pub(crate) fn put(
        &mut self,
        alloc: Global,
        policy: &Policy,
        verdict: Verdict,
    ) -> Result<(), AllocError>
        ensures { (q : PartialRequest) → TellsStop verdict → OnOk result (gathered q self.new ≡ with_left (gathered q self.old) (policy_of policy.now) (left_seen verdict)) }
    {
        match verdict {
            Verdict::True => self.put_true(policy),
            Verdict::False => self.put_false(policy, ErrorState::NoError),
            Verdict::Residual(e) => self.put_residual(policy, Rc::new(alloc, e)?),
            Verdict::Erred(error) => self.put_erred(policy, error),
        }
    }

    // Puts a satisfied policy in its group.
    fn put_true(&mut self, policy: &Policy) -> Result<(), AllocError>
        ensures { (q : PartialRequest) → OnOk result (gathered q self.new ≡ true_noted (gathered q self.old) (policy_of policy.now)) }
    {
        let entry = entry_of(policy)?;
        match policy.effect() {
            Effect::Permit => {
                self.true_permits.push(entry)?;
                Ok(())
            }
            Effect::Forbid => {
                self.true_forbids.push(entry)?;
                Ok(())
            }
        }
    }

    // Puts a policy that is false, with whether it erred, in its group.
    fn put_false(&mut self, policy: &Policy, state: ErrorState) -> Result<(), AllocError>
        ensures { (q : PartialRequest) → OnOk result (gathered q self.new ≡ false_noted (gathered q self.old) (policy_of policy.now) (state_of state)) }
    {
        let (id, annotations) = entry_of(policy)?;
        match policy.effect() {
            Effect::Permit => {
                self.false_permits.push((id, (state, annotations)))?;
                Ok(())
            }
            Effect::Forbid => {
                self.false_forbids.push((id, (state, annotations)))?;
                Ok(())
            }
        }
    }

    // Puts a policy of which an expression is left, with the expression, in its group.
    fn put_residual(&mut self, policy: &Policy, left: Rc<Expr>) -> Result<(), AllocError>
        ensures { (q : PartialRequest) → OnOk result (gathered q self.new ≡ residual_noted (gathered q self.old) (policy_of policy.now) (tree_of left.value)) }
    {
        let (id, annotations) = entry_of(policy)?;
        match policy.effect() {
            Effect::Permit => {
                self.residual_permits.push((id, (left, annotations)))?;
                Ok(())
            }
            Effect::Forbid => {
                self.residual_forbids.push((id, (left, annotations)))?;
                Ok(())
            }
        }
    }

    // Puts a policy that erred in the group of those that are false, and appends its error to the errors.
    fn put_erred(&mut self, policy: &Policy, error: EvaluationError) -> Result<(), AllocError>
        ensures { (q : PartialRequest) → OnOk result (gathered q self.new ≡ error_noted (gathered q self.old) (policy_of policy.now) (cause_of error)) }
    {
        let id = policy.id().clone()?;
        self.errors
            .push(AuthorizationError::PolicyEvaluationError { id, error })?;
        self.put_false(policy, ErrorState::Error)
    }
}

// What is kept of a policy.
fn entry_of(policy: &Policy) -> Result<(PolicyID, Rc<Annotations>), AllocError>
    ensures { IfOk result (λ e. noted_seen e ≡ noted (policy_of policy.now)) }
{
    let id = policy.id().clone()?;
    let annotations = policy.annotations_arc().clone()?;
    Ok((id, annotations))
}

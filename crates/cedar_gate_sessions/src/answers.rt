//! Answers over a whole store.

ghost use Rattle.std.specs.Prelude.{◌≡◌, ◌&&◌, IfOk, OnOk, Err, map, not, if◌then◌else◌};
ghost use Rattle.cedar_expr_model.specs.ListLaws.{AreDistinct};
ghost use Rattle.cedar_store_model.specs.Answer.{allow, deny};
ghost use Rattle.cedar_evaluator_model.specs.Scope.{Left};
ghost use Rattle.cedar_evaluator_core.specs.Evaluators.{IsTruthOf};
ghost use Rattle.cedar_evaluator_requests.specs.Views.{decision_of};
ghost use Rattle.cedar_store_parts.specs.Parts.{id_text};
ghost use Rattle.cedar_gate_sessions.specs.Evaluations.{InEachScope, ByVerdictsAndErrors, WhereAllIsKnown, HaveDistinctIds, IsAnswered, IsMeant, AreErrors, AppendsError, AppendsErrorOf, verdicts_over, verdict_on};

use crate::bounds::must_ids;
use crate::evaluations::kind;
use crate::kinds::{Verdict, any_satisfied};
use cedar_evaluator_core::Evaluator;
use cedar_evaluator_errors::EvaluationError;
use cedar_evaluator_operators::FunctionTable;
use cedar_evaluator_requests::{AuthorizationError, Decision, Response};
use cedar_store_parts::{Effect, PolicyID};
use cedar_store_policies::Policy;
use indexmap::IndexSet;
use std::alloc::{AllocError, Global};

/// The answer to the request of the evaluator, over its store, where each residual counts as an error: the decision, its reasons and the
/// errors, in policy order. Where nothing is unknown, everything is loaded and the policies are within the limit, it is the answer by
/// what the policies mean. Fails only when out of memory.
pub fn respond<T: FunctionTable>(
    alloc: Global,
    evaluator: &Evaluator<'_, T>,
    policies: &[Policy],
) -> Result<Response, AllocError>
    ensures left { InEachScope T.answers_as T.table evaluator.now (λ s n. HaveDistinctIds policies.now → IfOk result (λ r. IsAnswered s n policies.now r)) }
    ensures meaning { InEachScope T.answers_as T.table evaluator.now (λ s n. WhereAllIsKnown s n policies.now (IfOk result (λ r. IsMeant s policies.now r))) }
{
    let (verdicts, errors) = evaluate(alloc, evaluator, policies)?;
    response(alloc, policies, verdicts.as_slice(), errors)
}

// The verdict on each policy, and the errors, in policy order.
fn evaluate<T: FunctionTable>(
    alloc: Global,
    evaluator: &Evaluator<'_, T>,
    policies: &[Policy],
) -> Result<(Vec<Verdict>, Vec<AuthorizationError>), AllocError>
    ensures verdicts { InEachScope T.answers_as T.table evaluator.now (λ s n. IfOk result (λ r. r.0.items ≡ verdicts_over s n policies.now)) }
    ensures errors { InEachScope T.answers_as T.table evaluator.now (λ s n. IfOk result (λ r. AreErrors s n policies.now r.1.items)) }
{
    let mut verdicts = Vec::new(alloc);
    let mut errors = Vec::new(alloc);
    for policy in policies {
        verdicts.push(add(alloc, evaluator, policy, &mut errors)?)?;
    }
    Ok((verdicts, errors))
}

// The verdict on the policy; its error, if it has one, is appended to the errors. Fails only when out of memory.
fn add<T: FunctionTable>(
    alloc: Global,
    evaluator: &Evaluator<'_, T>,
    policy: &Policy,
    errors: &mut Vec<AuthorizationError>,
) -> Result<Verdict, AllocError>
    ensures verdict { InEachScope T.answers_as T.table evaluator.now (λ s n. IfOk result (λ v. v ≡ verdict_on s n policy.now)) }
    ensures errors { InEachScope T.answers_as T.table evaluator.now (λ s n. OnOk result (AppendsErrorOf s n policy.now errors.old.items errors.new.items)) }
{
    let outcome = evaluator.evaluate(alloc, policy);
    let verdict = kind(&outcome)?;
    put_error(policy, outcome, errors)?;
    Ok(verdict)
}

// Appends the error of the policy, if it has one. Fails only when out of memory.
fn put_error(
    policy: &Policy,
    outcome: Result<bool, EvaluationError>,
    errors: &mut Vec<AuthorizationError>,
) -> Result<(), AllocError>
    ensures { (l : Left) → IsTruthOf l outcome → OnOk result (AppendsError policy.now l errors.old.items errors.new.items) }
{
    match outcome {
        Ok(_) => Ok(()),
        Err(error) => put(policy, error, errors),
    }
}

// Appends this error of the policy. Fails only when out of memory.
fn put(
    policy: &Policy,
    error: EvaluationError,
    errors: &mut Vec<AuthorizationError>,
) -> Result<(), AllocError>
    ensures { (l : Left) → IsTruthOf l (Err error) → OnOk result (AppendsError policy.now l errors.old.items errors.new.items) }
{
    if error.is_out_of_memory() {
        return Err(AllocError);
    }
    let id = policy.id().clone()?;
    errors.push(AuthorizationError::PolicyEvaluationError { id, error })?;
    Ok(())
}

// The answer by the verdicts and the errors.
fn response(
    alloc: Global,
    policies: &[Policy],
    verdicts: &[Verdict],
    errors: Vec<AuthorizationError>,
) -> Result<Response, AllocError>
    ensures { ByVerdictsAndErrors policies.now verdicts.now errors.items (λ s n. IfOk result (λ r. IsAnswered s n policies.now r)) }
{
    let forbids = any_satisfied(Effect::Forbid, policies, verdicts);
    let permits = any_satisfied(Effect::Permit, policies, verdicts);
    let decision = decision(permits, forbids);
    let ids = must_ids(alloc, forbids, false, policies, verdicts)?;
    let reasons = set_of(alloc, ids)?;
    Ok(Response::new(decision, reasons, errors))
}

// The decision by whether some permit is satisfied, and whether some forbid is.
fn decision(permits: bool, forbids: bool) -> Decision
    ensures { decision_of result ≡ (if permits && not forbids then allow else deny) }
{
    if permits && !forbids {
        Decision::Allow
    } else {
        Decision::Deny
    }
}

// The set of these ids.
fn set_of(alloc: Global, ids: Vec<PolicyID>) -> Result<IndexSet<PolicyID>, AllocError>
    ensures { AreDistinct (map id_text ids.items) → IfOk result (λ set. map id_text set.keys ≡ map id_text ids.items) }
{
    let mut set = IndexSet::new(alloc);
    for id in ids {
        set.insert(id)?;
    }
    Ok(set)
}

//! Bounds of what determines a decision.

ghost use Rattle.std.specs.Prelude.{◌≡◌, IfOk, map};
ghost use Rattle.std.specs.List.{zip};
ghost use Rattle.cedar_store_parts.specs.Parts.{id_text};
ghost use Rattle.cedar_store_policies.specs.Policies.{policy_of};
ghost use Rattle.cedar_gate_sessions.specs.Bounds.{picked_ids};
ghost use Rattle.cedar_gate_sessions.specs.Evaluations.{ByVerdicts, HaveDistinctIds, AreBounds};
ghost use Rattle.cedar_gate_sessions.specs.Verdicts.{must_by, may_by};

use crate::kinds::{
    Verdict, any_limit, any_open, any_satisfied, has_effect, is_open, is_satisfied,
};
use cedar_store_parts::{Effect, PolicyID};
use cedar_store_policies::Policy;
use std::alloc::{AllocError, Global};

/// What must determine a decision and what may, in policy order.
#[derive(Debug, Drop)]
pub struct Bounds {
    /// What must determine it.
    pub must: Vec<PolicyID>,
    /// What may determine it.
    pub may: Vec<PolicyID>,
}

/// The bounds by what is left of each policy: none where a policy met the limit. Fails only when out of memory.
pub fn bounded(
    alloc: Global,
    policies: &[Policy],
    verdicts: &[Verdict],
) -> Result<Option<Bounds>, AllocError>
    ensures { ByVerdicts policies.now verdicts.now (λ s n. HaveDistinctIds policies.now → IfOk result (λ b. AreBounds s n policies.now b)) }
{
    if any_limit(verdicts) {
        return Ok(None);
    }
    let forbids = any_satisfied(Effect::Forbid, policies, verdicts);
    let open_forbids = any_open(Effect::Forbid, policies, verdicts);
    let must = must_ids(alloc, forbids, open_forbids, policies, verdicts)?;
    let may = may_ids(alloc, forbids, policies, verdicts)?;
    Ok(Some(Bounds { must, may }))
}

// Whether a policy of this verdict must determine the decision, by whether some forbid is satisfied, and whether one is residual.
fn must(forbids: bool, open_forbids: bool, policy: &Policy, verdict: Verdict) -> bool
    ensures { result ≡ must_by forbids open_forbids (policy_of policy.now).effect verdict }
{
    if !is_satisfied(verdict) {
        return false;
    }
    if forbids {
        has_effect(policy, Effect::Forbid)
    } else {
        !open_forbids && has_effect(policy, Effect::Permit)
    }
}

// Whether it may, by whether some forbid is satisfied.
fn may(forbids: bool, policy: &Policy, verdict: Verdict) -> bool
    ensures { result ≡ may_by forbids (policy_of policy.now).effect verdict }
{
    if !is_satisfied(verdict) && !is_open(verdict) {
        return false;
    }
    if forbids {
        has_effect(policy, Effect::Forbid)
    } else {
        is_open(verdict) || has_effect(policy, Effect::Permit)
    }
}

// The ids of the policies that must determine the decision, in their order.
pub(crate) fn must_ids(
    alloc: Global,
    forbids: bool,
    open_forbids: bool,
    policies: &[Policy],
    verdicts: &[Verdict],
) -> Result<Vec<PolicyID>, AllocError>
    ensures { IfOk result (λ ids. map id_text ids.items ≡ picked_ids (must_by forbids open_forbids) (zip policies.now verdicts.now)) }
{
    let mut ids = Vec::new(alloc);
    for (policy, verdict) in policies.iter().zip(verdicts) {
        if must(forbids, open_forbids, policy, *verdict) {
            ids.push(policy.id().clone()?)?;
        }
    }
    Ok(ids)
}

// The ids of those that may.
fn may_ids(
    alloc: Global,
    forbids: bool,
    policies: &[Policy],
    verdicts: &[Verdict],
) -> Result<Vec<PolicyID>, AllocError>
    ensures { IfOk result (λ ids. map id_text ids.items ≡ picked_ids (may_by forbids) (zip policies.now verdicts.now)) }
{
    let mut ids = Vec::new(alloc);
    for (policy, verdict) in policies.iter().zip(verdicts) {
        if may(forbids, policy, *verdict) {
            ids.push(policy.id().clone()?)?;
        }
    }
    Ok(ids)
}

//! The rules of slots, unknowns and nesting, for each policy and for all.

ghost use Rattle.std.specs.Prelude.{◌≡◌, ◌||◌, not, nat_le, is_some, IfOk};
ghost use Rattle.std.specs.List.{list_all};
ghost use Rattle.cedar_expr_leaves.specs.Slots.{slot_of};
ghost use Rattle.cedar_expr_model.specs.Tree.{nesting};
ghost use Rattle.cedar_expr_model.specs.Unknowns.{has_unknown};
ghost use Rattle.cedar_gate_model.specs.Acceptance.{is_linked, keeps_slots_in_scope};
ghost use Rattle.cedar_store_model.specs.Policy.{binding_of, condition, has_slot};
ghost use Rattle.cedar_store_policies.specs.Policies.{policy_of};
ghost use Rattle.cedar_gate_rules.specs.Policies.{policies_of};

use crate::nesting::nests_within;
use cedar_expr_leaves::SlotId;
use cedar_store_policies::Policy;
use std::alloc::{AllocError, Global};

// Whether the slot of the policy, if it has it, is bound.
fn slot_is_bound(policy: &Policy, slot: SlotId) -> bool
    ensures { result ≡ (not (has_slot (policy_of policy.now) (slot_of slot)) || is_some (binding_of (policy_of policy.now).bindings (slot_of slot))) }
{
    !policy.template().has_slot(slot) || policy.env().get(slot).is_some()
}

// Whether each slot that the policy has is bound.
fn is_linked(policy: &Policy) -> bool
    ensures { result ≡ is_linked (policy_of policy.now) }
{
    slot_is_bound(policy, SlotId::principal()) && slot_is_bound(policy, SlotId::resource())
}

/// Whether each slot that one of these policies has is bound.
pub fn are_linked(policies: &[Policy]) -> bool
    ensures { result ≡ list_all is_linked (policies_of policies.now) }
{
    for policy in policies {
        if !is_linked(policy) {
            return false;
        }
    }
    true
}

// Whether no slot stands in the body of the policy. Fails only when out of memory.
fn keeps_slots_in_scope(alloc: Global, policy: &Policy) -> Result<bool, AllocError>
    ensures { IfOk result (λ b. b ≡ keeps_slots_in_scope (policy_of policy.now)) }
{
    match policy.non_scope_constraints() {
        None => Ok(true),
        Some(body) => Ok(body.slots(alloc)?.next().is_none()),
    }
}

/// Whether no slot stands in the body of one of these policies. Fails only when out of memory.
pub fn keep_slots_in_scope(alloc: Global, policies: &[Policy]) -> Result<bool, AllocError>
    ensures { IfOk result (λ b. b ≡ list_all keeps_slots_in_scope (policies_of policies.now)) }
{
    for policy in policies {
        if !keeps_slots_in_scope(alloc, policy)? {
            return Ok(false);
        }
    }
    Ok(true)
}

/// Whether no unknown stands in the condition of one of these policies.
pub fn stand_without_unknowns(policies: &[Policy]) -> bool
    ensures { result ≡ list_all (λ p. not (has_unknown (condition p))) (policies_of policies.now) }
{
    for policy in policies {
        if policy.condition().contains_unknown() {
            return false;
        }
    }
    true
}

/// Whether the condition of each of these policies nests within the limit.
pub fn nest_within(policies: &[Policy], limit: u32) -> bool
    ensures { result ≡ list_all (λ p. nat_le (nesting (condition p)) limit) (policies_of policies.now) }
{
    for policy in policies {
        if !nests_within(policy.condition(), limit) {
            return false;
        }
    }
    true
}

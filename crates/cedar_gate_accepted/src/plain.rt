//! The rules that ask no schema.

ghost use Rattle.std.specs.Prelude.{◌≡◌, true, IfErr, OnOk};
ghost use Rattle.cedar_gate_accepted.specs.Handed.{HasPolicies};
ghost use Rattle.cedar_gate_accepted.specs.Untyped.{is_clear_of_all, plain_causes};
ghost use Rattle.cedar_gate_accepted.specs.Causes.{IsRefusedFor};
ghost use Rattle.cedar_gate_model.specs.Acceptance.{Submission};
ghost use Rattle.cedar_gate_rules.specs.Limit.{levels_of};
ghost use Rattle.cedar_gate_rules.specs.Policies.{policies_of};

use crate::fault::GateFault;
use cedar_gate_rules::{
    NestLimit, are_linked, ids_are_distinct, keep_slots_in_scope, nest_within,
    stand_without_unknowns,
};
use cedar_store_policies::Policy;
use std::alloc::Global;

/// Checks the rules that ask no schema, in their order: ids, slots, unknowns and nesting.
///
/// # Errors
/// Out of memory, or the fault of the first rule that is broken.
#[tactic(auto, using(crate::proofs::Alone::repeated_refused, crate::proofs::Alone::unlinked_refused, crate::proofs::Alone::slots_refused, crate::proofs::Alone::unknowns_refused, crate::proofs::Alone::nesting_refused, crate::proofs::Alone::all_kept))]
pub fn check_policies(alloc: Global, policies: &[Policy], limit: NestLimit) -> Result<(), GateFault>
    ensures kept { (s : Submission) → HasPolicies (policies_of policies.now) (levels_of limit) s → OnOk result (is_clear_of_all plain_causes s ≡ true) }
    ensures refused { (s : Submission) → HasPolicies (policies_of policies.now) (levels_of limit) s → IfErr result (IsRefusedFor s) }
{
    if !ids_are_distinct(alloc, policies)? {
        return Err(GateFault::RepeatedPolicy);
    }
    if !are_linked(policies) {
        return Err(GateFault::UnlinkedSlot);
    }
    if !keep_slots_in_scope(alloc, policies)? {
        return Err(GateFault::SlotOutsideScope);
    }
    if !stand_without_unknowns(policies) {
        return Err(GateFault::UnknownInPolicy);
    }
    if !nest_within(policies, limit.levels()) {
        return Err(GateFault::Nesting);
    }
    Ok(())
}

//! The scope rules.

ghost use Rattle.std.specs.Prelude.{◌≡◌, true, OnOk};
ghost use Rattle.cedar_gate_accepted.specs.Handed.{IsSeenBy};
ghost use Rattle.cedar_gate_accepted.specs.Untyped.{is_clear_of_all, scope_causes};
ghost use Rattle.cedar_gate_accepted.specs.Causes.{RefusesFor};
ghost use Rattle.cedar_gate_model.specs.Acceptance.{Submission};
ghost use Rattle.cedar_gate_rules.specs.Policies.{policies_of};

use crate::fault::GateFault;
use cedar_gate_rules::{name_known_actions, name_known_members, name_known_types};
use cedar_store_policies::Policy;
use cedar_typechecker_model::alike_laws::scope_rules_are_alike;
use cedar_typechecker_scopes::ScopeSchema;
use std::alloc::Global;

/// Checks the scope rules, in their order, by a schema that answers as that of the declarations does: entity types, actions, members.
///
/// # Errors
/// Out of memory, or the fault of the first rule that is broken.
#[tactic(auto, using(crate::proofs::Scopes::types_refused, crate::proofs::Scopes::actions_refused, crate::proofs::Scopes::members_refused, crate::proofs::Scopes::names_kept))]
pub fn check_names<S: ScopeSchema>(
    alloc: Global,
    schema: &S,
    policies: &[Policy],
) -> Result<(), GateFault>
    ensures kept { (s : Submission) → IsSeenBy (S.schema schema.now) (policies_of policies.now) s → OnOk result (is_clear_of_all scope_causes s ≡ true) }
    ensures refused { (s : Submission) → IsSeenBy (S.schema schema.now) (policies_of policies.now) s → RefusesFor s result }
{
    scope_rules_are_alike();
    if !name_known_types(alloc, schema, policies)? {
        return Err(GateFault::UnknownEntityType);
    }
    if !name_known_actions(alloc, schema, policies)? {
        return Err(GateFault::UnknownAction);
    }
    if !name_known_members(alloc, schema, policies)? {
        return Err(GateFault::EnumMember);
    }
    Ok(())
}

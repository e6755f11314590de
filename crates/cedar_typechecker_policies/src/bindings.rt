//! Which environments fit what the slots of a policy are bound to.

ghost use Rattle.std.specs.Prelude.{◌≡◌, option_map};
ghost use Rattle.cedar_expr_leaves.specs.Slots.{slot_of};
ghost use Rattle.cedar_expr_names.specs.Views.{type_name_of};
ghost use Rattle.cedar_store_model.specs.Policy.{binding_of};
ghost use Rattle.cedar_store_parts.specs.Parts.{bindings_of};
ghost use Rattle.cedar_typechecker_environments.specs.Settings.{environment_of};
ghost use Rattle.cedar_typechecker_model.specs.Verdicts.{fits_slot};
ghost use Rattle.cedar_typechecker_policies.specs.Findings.{fits_bindings};

use cedar_expr_leaves::SlotId;
use cedar_expr_names::EntityType;
use cedar_store_parts::SlotEnv;
use cedar_typechecker_environments::RequestEnv;

// Whether the slot, if it has this type, is bound to a uid of the type.
fn fits_slot(ty: Option<&EntityType>, bound: &SlotEnv, slot: SlotId) -> bool
    ensures { result ≡ fits_slot (option_map (λ t. type_name_of t.now) ty.entry) (binding_of (bindings_of bound.now) (slot_of slot)) }
{
    match ty {
        None => true,
        Some(ty) => match bound.get(slot) {
            None => false,
            Some(uid) => ty.same(uid.entity_type()),
        },
    }
}

/// Whether each slot that the environment has is bound to a uid of its type.
pub fn fits(bound: &SlotEnv, env: &RequestEnv) -> bool
    ensures { result ≡ fits_bindings (bindings_of bound.now) (environment_of env.now) }
{
    fits_slot(env.principal_slot(), bound, SlotId::principal())
        && fits_slot(env.resource_slot(), bound, SlotId::resource())
}

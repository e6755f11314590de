//! Whether the slots of a template are those that are bound.

ghost use Rattle.std.specs.Prelude.{◌≡◌, ◌==◌, is_some, OnOk, IfErr};
ghost use Rattle.std.specs.List.{list_any};
ghost use Rattle.cedar_expr_leaves.specs.Slots.{slot_of};
ghost use Rattle.cedar_expr_model.specs.Shape.{slot_rank};
ghost use Rattle.cedar_store_model.specs.Policy.{binding_of, has_slot as uses_slot};
ghost use Rattle.cedar_store_parts.specs.Parts.{bindings_of};
ghost use Rattle.cedar_store_policies.specs.Templates.{template_of};
ghost use Rattle.cedar_store_policies.specs.SetRefusals.{FitsBindings, RefusesBindings};

use crate::template::Template;
use cedar_expr_leaves::{Slot, SlotId};
use cedar_store_parts::{LinkingError, SlotEnv};

impl Template {
    // Refuses a slot of the template that isn't bound, and a bound slot that isn't the template's.
    pub(crate) fn check_bindings(&self, values: &SlotEnv) -> Result<(), LinkingError>
        ensures fits { OnOk result (FitsBindings (template_of self.now) (bindings_of values.now)) }
        ensures refused { IfErr result (RefusesBindings (template_of self.now) (bindings_of values.now)) }
    {
        self.check_binding(SlotId::principal(), values)?;
        self.check_binding(SlotId::resource(), values)
    }

    // Refuses the slot if the template has it and it isn't bound, or if it is bound and isn't the template's.
    fn check_binding(&self, slot: SlotId, values: &SlotEnv) -> Result<(), LinkingError>
        ensures fits { OnOk result (uses_slot (template_of self.now) (slot_of slot) ≡ is_some (binding_of (bindings_of values.now) (slot_of slot))) }
        ensures refused { IfErr result (RefusesBindings (template_of self.now) (bindings_of values.now)) }
    {
        match (self.has_slot(slot), values.get(slot)) {
            (true, None) => Err(LinkingError::UnboundSlot { slot }),
            (false, Some(_)) => Err(LinkingError::ExtraSlot { slot }),
            (true, Some(_)) | (false, None) => Ok(()),
        }
    }
}

// Whether the slot is one of these.
pub(crate) fn stands_among(slots: &[Slot], slot: SlotId) -> bool
    ensures { result ≡ list_any (λ s. slot_rank (slot_of slot) == slot_rank (slot_of s.id)) slots.now }
{
    slots.iter().any(|s| rank(slot) == rank(s.id))
}

// The place of the slot in the order of slots.
fn rank(slot: SlotId) -> u8
    ensures { result ≡ slot_rank (slot_of slot) }
{
    if slot.is_principal() { 0 } else { 1 }
}

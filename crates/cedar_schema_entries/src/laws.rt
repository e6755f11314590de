//! What entity types and actions keep stands in order, each once. Each body goes over it and does nothing else.

ghost use Rattle.std.specs.Prelude.{◌≡◌, true};
ghost use Rattle.cedar_schema_entries.specs.InOrder.{type_in_order, action_in_order};
ghost use Rattle.cedar_schema_entries.specs.Views.{entity_type_seen, action_seen};

use crate::action::ValidatorActionId;
use crate::entity_kinds::ValidatorEntityTypeKind;
use crate::entity_type::ValidatorEntityType;

/// The entity types that descend from one stand in the order of their names, each once, and the members of an enumerated one in that
/// of their texts.
pub fn entity_types_are_in_order(entity_type: &ValidatorEntityType)
    ensures { type_in_order (entity_type_seen entity_type.now) ≡ true }
{
    let _descendants = entity_type.descendants.iter();
    match &entity_type.kind {
        ValidatorEntityTypeKind::Enum(members) => {
            let _members = members.iter();
        }
        ValidatorEntityTypeKind::Standard(_standard) => (),
        ValidatorEntityTypeKind::External => (),
    }
}

/// The types that an action applies to stand in the order of their names, each once, and the actions that descend from it in that of
/// their uids.
pub fn actions_are_in_order(action: &ValidatorActionId)
    ensures { action_in_order (action_seen action.now) ≡ true }
{
    let _principals = action.applies_to.principals.iter();
    let _resources = action.applies_to.resources.iter();
    let _descendants = action.descendants.iter();
}

//! The types of actions.

ghost use Rattle.std.specs.Prelude.{◌≡◌, ◌||◌, map, IfOk, OnOk};
ghost use Rattle.std.specs.BTreeSet.{contains};
ghost use Rattle.cedar_expr_model.specs.Name.{name_eq};
ghost use Rattle.cedar_expr_names.specs.Views.{type_name_of};
ghost use Rattle.cedar_expr_names.specs.declared.entity.EntityType.{EntityType as CodeType};
ghost use Rattle.cedar_schema_entries.specs.Views.{action_seen};
ghost use Rattle.cedar_typechecker.specs.Types.{is_type_of_action, descends_by_actions, AreTypesOf};
ghost use Rattle.cedar_typechecker_model.specs.Asked.{pairs_of};
ghost use Rattle.cedar_typechecker.specs.Pairs.{types_by, are_among, GainsPairs};

use crate::type_pairs::TypePairs;
use cedar_expr_names::{EntityType, EntityUID};
use cedar_schema_entries::ValidatorActionId;
use std::alloc::{AllocError, Global};
use std::collections::BTreeSet;
use std::collections::btree_map::Values;

/// The types of actions, and the pairs of types of which an action of the first descends from one of the second.
#[derive(Drop)]
pub struct ActionTypes {
    types: BTreeSet<EntityType>,
    pairs: TypePairs,
}

impl ActionTypes {
    /// The types of these actions. Fails only when out of memory.
    pub fn of_actions(
        alloc: Global,
        actions: Values<'_, EntityUID, ValidatorActionId>,
    ) -> Result<ActionTypes, AllocError>
        ensures { IfOk result (AreTypesOf (map action_seen actions.entry)) }
    {
        let mut types = BTreeSet::new(alloc);
        let mut pairs = TypePairs::new(alloc);
        for action in actions {
            add_type(&mut types, action)?;
            add_pairs(&mut pairs, alloc, action)?;
        }
        Ok(ActionTypes { types, pairs })
    }

    /// Whether one of the actions is of this type.
    pub fn contains(&self, ty: &EntityType) -> bool
        ensures { result ≡ is_type_of_action self.now ty.now }
    {
        self.types.contains(ty)
    }

    /// Whether an action of the first type descends from one of the second.
    pub fn descends(&self, ty: &EntityType, above: &EntityType) -> bool
        ensures { result ≡ descends_by_actions self.now ty.now above.now }
    {
        self.pairs.contains(ty, above)
    }
}

// Puts the type of the action among the types. Fails only when out of memory.
fn add_type(types: &mut BTreeSet<EntityType>, action: &ValidatorActionId) -> Result<(), AllocError>
    ensures { OnOk result ((q : CodeType) → contains types_by types.new q ≡ (name_eq (type_name_of q) (action_seen action.now).uid.kind || contains types_by types.old q)) }
{
    let ty = action.name().entity_type().clone()?;
    types.insert(ty)?;
    Ok(())
}

// Puts the pair of the types of the action and of each that descends from it among the pairs. Fails only when out of memory.
fn add_pairs(
    pairs: &mut TypePairs,
    alloc: Global,
    action: &ValidatorActionId,
) -> Result<(), AllocError>
    ensures { OnOk result (GainsPairs (are_among (pairs_of (action_seen action.now))) pairs.old pairs.new) }
{
    for below in action.descendants() {
        let first = below.entity_type().clone()?;
        let second = action.name().entity_type().clone()?;
        pairs.insert(alloc, first, second)?;
    }
    Ok(())
}

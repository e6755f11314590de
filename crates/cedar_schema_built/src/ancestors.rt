//! The entity types that each entity type of a schema descends from.

ghost use Rattle.std.specs.Prelude.{◌≡◌, IfOk, OnOk};
ghost use Rattle.std.specs.BTreeMap.{get};
ghost use Rattle.cedar_schema_entries.specs.Views.{entity_type_seen};
ghost use Rattle.cedar_schema_built.specs.Ancestors.{types_by, TypeIsAddedBelow, TypesAreAbove};
ghost use Rattle.cedar_schema_built.specs.Entries.{types_in};

use crate::above::add_above;
use cedar_expr_names::EntityType;
use cedar_schema_entries::ValidatorEntityType;
use cedar_schema_entries::laws::entity_types_are_in_order;
use std::alloc::{AllocError, Global};
use std::collections::BTreeMap;

// The entity types that each descends from, under its name. Fails only when out of memory.
pub(crate) fn types_above(
    alloc: Global,
    entity_types: &BTreeMap<EntityType, ValidatorEntityType>,
) -> Result<BTreeMap<EntityType, Vec<EntityType>>, AllocError>
    ensures { IfOk result (λ m. TypesAreAbove (types_in entity_types.now.entries) (get types_by m)) }
{
    let mut above = BTreeMap::new(alloc);
    for entity_type in entity_types.values() {
        add_below(&mut above, alloc, entity_type)?;
    }
    Ok(above)
}

// Puts the entity type under each that descends from it. Fails only when out of memory.
fn add_below(
    above: &mut BTreeMap<EntityType, Vec<EntityType>>,
    alloc: Global,
    entity_type: &ValidatorEntityType,
) -> Result<(), AllocError>
    ensures { OnOk result (TypeIsAddedBelow (entity_type_seen entity_type.now) (get types_by above.old) (get types_by above.new)) }
{
    entity_types_are_in_order(entity_type);
    for descendant in entity_type.descendants() {
        let key = descendant.clone()?;
        let ancestor = entity_type.name().clone()?;
        add_above(above, alloc, key, ancestor)?;
    }
    Ok(())
}

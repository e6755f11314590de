//! Built schemas.

ghost use Rattle.std.specs.Prelude.{◌≡◌, [], map, IfOk};
ghost use Rattle.std.specs.BTreeMap.{get};
ghost use Rattle.cedar_expr_model.specs.UidOrder.{name_cmp, uid_cmp};
ghost use Rattle.cedar_schema_entries.specs.Views.{entity_type_seen, action_seen};
ghost use Rattle.cedar_schema_built.specs.Ancestors.{types_by, TypesAreAbove};
ghost use Rattle.cedar_schema_built.specs.Put.{all_put};
ghost use Rattle.cedar_schema_built.specs.Entries.{types_in, type_keys, type_names, actions_in, action_keys, action_names};

use crate::ancestors::types_above;
use crate::names::SchemaNames;
use cedar_expr_names::{EntityType, EntityUID};
use cedar_schema_entries::{ValidatorActionId, ValidatorEntityType};
use std::alloc::{AllocError, Global};
use std::collections::BTreeMap;

/// A built schema: its entity types by name, those that each descends from, its actions by uid, and the common types and the
/// namespaces of the fragments that it is built of.
#[derive(Debug)]
pub struct ValidatorSchema {
    pub(crate) entity_types: BTreeMap<EntityType, ValidatorEntityType>,
    pub(crate) ancestors: BTreeMap<EntityType, Vec<EntityType>>,
    pub(crate) action_ids: BTreeMap<EntityUID, ValidatorActionId>,
    pub(crate) names: SchemaNames,
    ghost types_named: { type_keys entity_types.entries ≡ type_names entity_types.entries },
    ghost ancestors_known: { TypesAreAbove (types_in entity_types.entries) (get types_by ancestors) },
    ghost actions_named: { action_keys action_ids.entries ≡ action_names action_ids.entries },
}

// prover: see ARCHITECTURE
impl Drop for ValidatorSchema {
    fn drop(self) {
        let ValidatorSchema {
            entity_types: _,
            ancestors: _,
            action_ids: _,
            names: _,
        } = self;
    }
}

impl ValidatorSchema {
    ghost use Rattle.cedar_schema_built.specs.Listed.{names_listed, schema_listed};
    ghost use Rattle.cedar_schema_built.specs.Views.{schema_kept};

    /// The schema of these entity types and actions. Of a repeated name or uid the last stands. It lists neither common types nor
    /// namespaces. Fails only when out of memory.
    pub fn new(
        alloc: Global,
        entity_types: Vec<ValidatorEntityType>,
        action_ids: Vec<ValidatorActionId>,
    ) -> Result<ValidatorSchema, AllocError>
        ensures kept { IfOk result (λ s. schema_kept s ≡ record { types = all_put name_cmp (λ t. t.name) [] (map entity_type_seen entity_types.items); actions = all_put uid_cmp (λ a. a.uid) [] (map action_seen action_ids.items) }) }
        ensures listed { IfOk result (λ s. schema_listed s ≡ record { commons = []; spaces = [] }) }
    {
        let entity_types = types_by_name(alloc, entity_types)?;
        let ancestors = types_above(alloc, &entity_types)?;
        let action_ids = actions_by_uid(alloc, action_ids)?;
        Ok(ValidatorSchema {
            entity_types,
            ancestors,
            action_ids,
            names: SchemaNames::empty(alloc),
        })
    }

    /// The schema without entity types and actions.
    pub fn empty(alloc: Global) -> ValidatorSchema
        ensures kept { schema_kept result ≡ record { types = []; actions = [] } }
        ensures listed { schema_listed result ≡ record { commons = []; spaces = [] } }
    {
        ValidatorSchema {
            entity_types: BTreeMap::new(alloc),
            ancestors: BTreeMap::new(alloc),
            action_ids: BTreeMap::new(alloc),
            names: SchemaNames::empty(alloc),
        }
    }

    // The schema with these common types and namespaces in the place of its own.
    pub(crate) fn with_names(self, names: SchemaNames) -> ValidatorSchema
        ensures kept { schema_kept result ≡ schema_kept self }
        ensures listed { schema_listed result ≡ names_listed names }
    {
        let ValidatorSchema {
            entity_types,
            ancestors,
            action_ids,
            names: _,
        } = self;
        ValidatorSchema {
            entity_types,
            ancestors,
            action_ids,
            names,
        }
    }
}

// The entity types by their names, of a repeated name the last. Fails only when out of memory.
fn types_by_name(
    alloc: Global,
    entity_types: Vec<ValidatorEntityType>,
) -> Result<BTreeMap<EntityType, ValidatorEntityType>, AllocError>
    ensures kept { IfOk result (λ m. types_in m.entries ≡ all_put name_cmp (λ t. t.name) [] (map entity_type_seen entity_types.items)) }
    ensures named { IfOk result (λ m. type_keys m.entries ≡ type_names m.entries) }
{
    let mut by_name = BTreeMap::new(alloc);
    for entity_type in entity_types {
        let name = entity_type.name().clone()?;
        by_name.insert(name, entity_type)?;
    }
    Ok(by_name)
}

// The actions by their uids, of a repeated uid the last. Fails only when out of memory.
fn actions_by_uid(
    alloc: Global,
    action_ids: Vec<ValidatorActionId>,
) -> Result<BTreeMap<EntityUID, ValidatorActionId>, AllocError>
    ensures kept { IfOk result (λ m. actions_in m.entries ≡ all_put uid_cmp (λ a. a.uid) [] (map action_seen action_ids.items)) }
    ensures named { IfOk result (λ m. action_keys m.entries ≡ action_names m.entries) }
{
    let mut by_uid = BTreeMap::new(alloc);
    for action in action_ids {
        let uid = action.name().clone()?;
        by_uid.insert(uid, action)?;
    }
    Ok(by_uid)
}

//! The actions of a schema as entities.

ghost use Rattle.std.specs.Prelude.{◌≡◌, map, true, IfOk, OnOk};
ghost use Rattle.std.specs.List.{list_all};
ghost use Rattle.std.specs.BTreeMap.{get};
ghost use Rattle.cedar_expr_names.specs.Views.{uid_of};
ghost use Rattle.cedar_store_entities.specs.Views.{entity_pair, kin_seen};
ghost use Rattle.cedar_schema_model.specs.Kept.{kept_action_entities};
ghost use Rattle.cedar_schema_entries.specs.Views.{action_seen};
ghost use Rattle.cedar_schema_built.specs.Above.{row_of, IsTaken};
ghost use Rattle.cedar_schema_built.specs.Ancestors.{uids_by, ActionIsAddedBelow, ActionsAreAbove};
ghost use Rattle.cedar_schema_built.specs.Entities.{recorded_entity, are_indirect};
ghost use Rattle.cedar_schema_built.specs.Views.{schema_kept};

use crate::above::{add_above, take_row};
use crate::schema::ValidatorSchema;
use cedar_expr_names::EntityUID;
use cedar_schema_entries::ValidatorActionId;
use cedar_schema_entries::laws::actions_are_in_order;
use cedar_store_entities::Entity;
use std::alloc::{AllocError, Global};
use std::collections::BTreeMap;

impl ValidatorSchema {
    /// The declared actions as entities, in the order of their uids: each with all actions that it descends from, none of them as a
    /// parent, and without attributes and tags. Fails only when out of memory.
    pub fn action_entities(&self, alloc: Global) -> Result<Vec<Entity>, AllocError>
        ensures indirect { IfOk result (λ es. list_all (λ e. are_indirect (kin_seen e)) es.items ≡ true) }
        ensures entities { IfOk result (λ es. map entity_pair es.items ≡ kept_action_entities (schema_kept self.now)) }
    {
        let above = above(alloc, self)?;
        as_entities(alloc, self, above)
    }
}

// The actions that each descends from, under its uid. Fails only when out of memory.
fn above(
    alloc: Global,
    schema: &ValidatorSchema,
) -> Result<BTreeMap<EntityUID, Vec<EntityUID>>, AllocError>
    ensures { IfOk result (λ m. ActionsAreAbove (schema_kept schema.now).actions (get uids_by m)) }
{
    let mut above = BTreeMap::new(alloc);
    for action in schema.action_ids() {
        add_below(&mut above, alloc, action)?;
    }
    Ok(above)
}

// Puts the action under each that descends from it. Fails only when out of memory.
fn add_below(
    above: &mut BTreeMap<EntityUID, Vec<EntityUID>>,
    alloc: Global,
    action: &ValidatorActionId,
) -> Result<(), AllocError>
    ensures { OnOk result (ActionIsAddedBelow (action_seen action.now) (get uids_by above.old) (get uids_by above.new)) }
{
    actions_are_in_order(action);
    for descendant in action.descendants() {
        let key = descendant.clone()?;
        let ancestor = action.name().clone()?;
        add_above(above, alloc, key, ancestor)?;
    }
    Ok(())
}

// The action of this uid as an entity, with no parents: takes its row out. Fails only when out of memory.
fn as_entity(
    alloc: Global,
    uid: &EntityUID,
    above: &mut BTreeMap<EntityUID, Vec<EntityUID>>,
) -> Result<Entity, AllocError>
    ensures indirect { IfOk result (λ e. are_indirect (kin_seen e) ≡ true) }
    ensures entity { IfOk result (λ e. entity_pair e ≡ recorded_entity (uid_of uid.now) (map uid_of (row_of (get uids_by above.old) uid.now))) }
    ensures others { IsTaken uids_by uid.now (get uids_by above.old) (get uids_by above.new) }
{
    let ancestors = take_row(above, alloc, uid);
    let uid = uid.clone()?;
    Entity::new(
        alloc,
        uid,
        Vec::new(alloc),
        ancestors,
        Vec::new(alloc),
        Vec::new(alloc),
    )
}

// The actions as entities, with no parents. Fails only when out of memory.
fn as_entities(
    alloc: Global,
    schema: &ValidatorSchema,
    mut above: BTreeMap<EntityUID, Vec<EntityUID>>,
) -> Result<Vec<Entity>, AllocError>
    requires { ActionsAreAbove (schema_kept schema.now).actions (get uids_by above) }
    ensures indirect { IfOk result (λ es. list_all (λ e. are_indirect (kin_seen e)) es.items ≡ true) }
    ensures entities { IfOk result (λ es. map entity_pair es.items ≡ kept_action_entities (schema_kept schema.now)) }
{
    let mut entities = Vec::new(alloc);
    for uid in schema.action_ids.keys() {
        entities.push(as_entity(alloc, uid, &mut above)?)?;
    }
    Ok(entities)
}

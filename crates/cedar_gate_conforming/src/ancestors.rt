//! The ancestors of an entity against what it may, and has to, descend from.

ghost use Rattle.std.specs.Prelude.{◌≡◌};
ghost use Rattle.cedar_expr_names.specs.Views.{uid_of, type_name_of};
ghost use Rattle.cedar_gate_model.specs.Asked.{kept_fault_at, may_be_below, has_wrong_ancestor, is_lacking, lacks_above};
ghost use Rattle.cedar_schema_built.specs.Views.{schema_kept};
ghost use Rattle.cedar_schema_entries.specs.Views.{entity_type_seen, action_seen};
ghost use Rattle.cedar_schema_model.specs.Conforming.{of_kind, among_actions, ancestor};
ghost use Rattle.cedar_store_entities.specs.Views.{entity_uid, entity_of};
ghost use Rattle.cedar_typechecker_model.specs.Asked.{type_is_below, action_is_below};
ghost use Rattle.cedar_gate_conforming.specs.Views.{fault_of_type};

use crate::members::is_of_enumerated;
use cedar_expr_names::{EntityType, EntityUID};
use cedar_schema_built::ValidatorSchema;
use cedar_schema_entries::{ValidatorActionId, ValidatorEntityType};
use cedar_store_entities::Entity;

// Whether the ancestors of the entity of this type aren't as they have to be.
pub(crate) fn ancestors_are_wrong(
    schema: &ValidatorSchema,
    ty: &ValidatorEntityType,
    entity: &Entity,
) -> bool
    ensures { result ≡ fault_of_type (schema_kept schema.now) entity.now ty.now ancestor }
{
    has_wrong_ancestor(schema, ty, entity)
}

// Whether the entity of this type has an ancestor that may not be one.
fn has_wrong_ancestor(schema: &ValidatorSchema, ty: &ValidatorEntityType, entity: &Entity) -> bool
    ensures { result ≡ has_wrong_ancestor (schema_kept schema.now) (entity_uid entity.now) (of_kind (entity_type_seen ty.now).kind) (entity_of entity.now).ancestors }
{
    for above in entity.ancestors() {
        if !may_be_below(schema, ty, entity.uid(), above) {
            return true;
        }
    }
    false
}

// Whether an entity of this type and uid may have the ancestor.
fn may_be_below(
    schema: &ValidatorSchema,
    ty: &ValidatorEntityType,
    uid: &EntityUID,
    above: &EntityUID,
) -> bool
    ensures { result ≡ may_be_below (schema_kept schema.now) (uid_of uid.now) (of_kind (entity_type_seen ty.now).kind) (uid_of above.now) }
{
    !is_of_enumerated(ty) && is_type_below(schema, uid.entity_type(), above.entity_type())
}

// Whether the first entity type is one of those that descend from the second.
fn is_type_below(schema: &ValidatorSchema, ty: &EntityType, above: &EntityType) -> bool
    ensures { result ≡ type_is_below (schema_kept schema.now) (type_name_of ty.now) (type_name_of above.now) }
{
    match schema.get_entity_type(above) {
        Some(entity_type) => entity_type.has_descendant_entity_type(ty),
        None => false,
    }
}

// Whether the ancestors of the entity of an action aren't as they have to be.
pub(crate) fn action_ancestors_are_wrong(schema: &ValidatorSchema, entity: &Entity) -> bool
    ensures { result ≡ kept_fault_at (schema_kept schema.now) (entity_uid entity.now) (entity_of entity.now) among_actions ancestor }
{
    action_has_wrong_ancestor(schema, entity) || lacks_above(schema, entity)
}

// Whether the action as this entity has an ancestor that it isn't declared to descend from.
fn action_has_wrong_ancestor(schema: &ValidatorSchema, entity: &Entity) -> bool
    ensures { result ≡ has_wrong_ancestor (schema_kept schema.now) (entity_uid entity.now) among_actions (entity_of entity.now).ancestors }
{
    for above in entity.ancestors() {
        if !is_action_below(schema, entity.uid(), above) {
            return true;
        }
    }
    false
}

// Whether the first action is one of those that descend from the second.
fn is_action_below(schema: &ValidatorSchema, uid: &EntityUID, above: &EntityUID) -> bool
    ensures { result ≡ action_is_below (schema_kept schema.now) (uid_of uid.now) (uid_of above.now) }
{
    match schema.get_action_id(above) {
        Some(action) => action.has_descendant(uid),
        None => false,
    }
}

// Whether an ancestor that the action is declared to descend from is missing from it as this entity.
fn lacks_above(schema: &ValidatorSchema, entity: &Entity) -> bool
    ensures { result ≡ lacks_above (schema_kept schema.now) (entity_uid entity.now) among_actions (entity_of entity.now).ancestors }
{
    for action in schema.action_ids() {
        if is_lacking(action, entity) {
            return true;
        }
    }
    false
}

// Whether the entity is one of those that descend from the action, and doesn't have it as an ancestor.
fn is_lacking(action: &ValidatorActionId, entity: &Entity) -> bool
    ensures { result ≡ is_lacking (entity_uid entity.now) (entity_of entity.now).ancestors (action_seen action.now) }
{
    action.has_descendant(entity.uid()) && !entity.is_descendant_of(action.name())
}

//! Entities against a schema.

ghost use Rattle.std.specs.Prelude.{◌≡◌, Some, None, IfErr, OnOk};
ghost use Rattle.cedar_gate_model.specs.Alike.{ConformsAlike};
ghost use Rattle.cedar_gate_model.specs.Asked.{kept_fault_at, kept_entity_fault};
ghost use Rattle.cedar_gate_model.specs.First.{first_fault};
ghost use Rattle.cedar_schema_built.specs.Views.{schema_kept};
ghost use Rattle.cedar_schema_model.specs.Conforming.{among_actions, has_entity_fault, EntityConforms};
ghost use Rattle.cedar_schema_model.specs.Schema.{Schema};
ghost use Rattle.cedar_store_entities.specs.Views.{entity_uid, entity_of};
ghost use Rattle.cedar_gate_conforming.specs.Faults.{IsFirst, IsThere, IsTold};
ghost use Rattle.cedar_gate_conforming.specs.Views.{typed_fault, fault_of_type};

use crate::ancestors::{action_ancestors_are_wrong, ancestors_are_wrong};
use crate::attributes::{has_undeclared, has_wrong_value, holds_values, lacks_required};
use crate::faults::ConformFault;
use crate::members::is_no_member;
use crate::tags::has_wrong_tag;
use cedar_gate_model::conforming_laws::first_faults_are_faults;
use cedar_schema_built::ValidatorSchema;
use cedar_schema_entries::ValidatorEntityType;
use cedar_store_entities::Entity;

/// Checks whether the entity conforms to the schema: to each by which the same conforms as by what is kept. Takes no memory.
///
/// # Errors
/// The first of its faults, and never out of memory.
pub fn check_entity(schema: &ValidatorSchema, entity: &Entity) -> Result<(), ConformFault>
    ensures conforms { (s : Schema) → ConformsAlike s (schema_kept schema.now) → OnOk result (EntityConforms s (entity_uid entity.now) (entity_of entity.now)) }
    ensures refused { (s : Schema) → ConformsAlike s (schema_kept schema.now) → IfErr result (IsThere (has_entity_fault s (entity_uid entity.now) (entity_of entity.now))) }
    ensures told { IfErr result IsTold }
{
    first_faults_are_faults();
    check_kept(schema, entity)
}

// Checks whether the entity conforms to what the schema keeps. Errors: the first of its faults.
fn check_kept(schema: &ValidatorSchema, entity: &Entity) -> Result<(), ConformFault>
    ensures none { OnOk result (first_fault (kept_entity_fault (schema_kept schema.now) (entity_uid entity.now) (entity_of entity.now)) ≡ None) }
    ensures first { IfErr result (IsFirst (kept_entity_fault (schema_kept schema.now) (entity_uid entity.now) (entity_of entity.now))) }
    ensures told { IfErr result IsTold }
{
    match schema.get_action_id(entity.uid()) {
        Some(_) => check_action(schema, entity),
        None => check_typed(schema, entity),
    }
}

// Checks whether the entity of a declared action conforms. Errors: the first of its faults.
fn check_action(schema: &ValidatorSchema, entity: &Entity) -> Result<(), ConformFault>
    ensures none { OnOk result (first_fault (kept_fault_at (schema_kept schema.now) (entity_uid entity.now) (entity_of entity.now) among_actions) ≡ None) }
    ensures first { IfErr result (IsFirst (kept_fault_at (schema_kept schema.now) (entity_uid entity.now) (entity_of entity.now) among_actions)) }
    ensures told { IfErr result IsTold }
{
    if has_attributes(entity) {
        return Err(ConformFault::UndeclaredAttribute);
    }
    if has_tags(entity) {
        return Err(ConformFault::Tag);
    }
    if action_ancestors_are_wrong(schema, entity) {
        return Err(ConformFault::Ancestor);
    }
    Ok(())
}

ghost use Rattle.cedar_gate_model.specs.Asked.{has_undeclared, has_wrong_tag};
ghost use Rattle.cedar_schema_model.specs.Types.{no_attributes};

// Whether the entity has attributes.
fn has_attributes(entity: &Entity) -> bool
    ensures { result ≡ has_undeclared no_attributes (entity_of entity.now).attributes }
{
    entity.attrs_len() != 0
}

// Whether the entity has tags.
fn has_tags(entity: &Entity) -> bool
    ensures { result ≡ has_wrong_tag None (entity_of entity.now).tags }
{
    entity.tags_len() != 0
}

// Checks whether an entity that is no action's conforms to what the schema keeps of its type. Errors: the first of its faults.
fn check_typed(schema: &ValidatorSchema, entity: &Entity) -> Result<(), ConformFault>
    ensures none { OnOk result (first_fault (typed_fault (schema_kept schema.now) entity.now) ≡ None) }
    ensures first { IfErr result (IsFirst (typed_fault (schema_kept schema.now) entity.now)) }
    ensures told { IfErr result IsTold }
{
    match schema.get_entity_type(entity.uid().entity_type()) {
        Some(ty) => check_of_type(schema, ty, entity),
        None => Err(ConformFault::Undeclared),
    }
}

// Checks whether the entity conforms to this type that the schema keeps. Errors: the first of its faults.
fn check_of_type(
    schema: &ValidatorSchema,
    ty: &ValidatorEntityType,
    entity: &Entity,
) -> Result<(), ConformFault>
    ensures none { OnOk result (first_fault (fault_of_type (schema_kept schema.now) entity.now ty.now) ≡ None) }
    ensures first { IfErr result (IsFirst (fault_of_type (schema_kept schema.now) entity.now ty.now)) }
    ensures told { IfErr result IsTold }
{
    if is_no_member(ty, entity.uid()) {
        return Err(ConformFault::NoMember);
    }
    let attributes = ty.attributes();
    if lacks_required(attributes, entity) {
        return Err(ConformFault::LacksAttribute);
    }
    if has_undeclared(attributes, entity) {
        return Err(ConformFault::UndeclaredAttribute);
    }
    if has_wrong_value(attributes, entity) {
        return Err(ConformFault::AttributeValue);
    }
    if has_wrong_tag(ty.tag_type(), entity) {
        return Err(ConformFault::Tag);
    }
    if ancestors_are_wrong(schema, ty, entity) {
        return Err(ConformFault::Ancestor);
    }
    if !holds_values(entity) {
        return Err(ConformFault::OpenPart);
    }
    Ok(())
}

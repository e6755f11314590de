//! The attributes of an entity against those that its type declares.

ghost use Rattle.std.specs.Prelude.{◌≡◌, ◌&&◌, Some, is_none, not};
ghost use Rattle.std.specs.List.{list_all};
ghost use Rattle.std.specs.Map.{lookup};
ghost use Rattle.std.specs.Str.{bytes_eq};
ghost use Rattle.cedar_gate_model.specs.Asked.{lacks_required, has_undeclared, has_wrong_value};
ghost use Rattle.cedar_schema_model.specs.Conforming.{is_refused, type_at};
ghost use Rattle.cedar_schema_types.specs.Types.{type_of, attributes_of, attribute_of};
ghost use Rattle.cedar_store_entities.specs.Views.{bare_part, part_seen, entity_of};
ghost use Rattle.cedar_store_model.specs.Knowledge.{is_known, holds_values};
ghost use Rattle.cedar_gate_conforming.specs.Parts.{parts_left};

use cedar_expr_partial::PartialValue;
use cedar_expr_values::ExtValue;
use cedar_schema_joins::typecheck_value;
use cedar_schema_types::{AttributeType, Attributes, Type};
use cedar_store_entities::Entity;
use std::collections::btree_map::Iter;
use std::rc::RcStr;

// Whether an attribute that is required is missing.
pub(crate) fn lacks_required(attributes: &Attributes, entity: &Entity) -> bool
    ensures { result ≡ lacks_required (attributes_of attributes.now) (entity_of entity.now).attributes }
{
    for (name, declared) in attributes.iter() {
        if lacks(entity, name.as_str(), declared) {
            return true;
        }
    }
    false
}

// Whether the attribute is required, and the entity doesn't have it.
fn lacks(entity: &Entity, name: &str, declared: &AttributeType) -> bool
    ensures { result ≡ ((attribute_of declared.now).is_required && is_none (lookup (bytes_eq name.now) (entity_of entity.now).attributes)) }
{
    declared.is_required() && !has_attribute(entity, name)
}

// Whether the entity has the attribute.
fn has_attribute(entity: &Entity, name: &str) -> bool
    ensures { result ≡ not (is_none (lookup (bytes_eq name.now) (entity_of entity.now).attributes)) }
{
    entity.get(name).is_some()
}

// Whether the entity has an attribute that isn't declared.
pub(crate) fn has_undeclared(attributes: &Attributes, entity: &Entity) -> bool
    ensures { result ≡ has_undeclared (attributes_of attributes.now) (entity_of entity.now).attributes }
{
    for (name, _part) in entity.attrs() {
        if attributes.get_attr(name.as_str()).is_none() {
            return true;
        }
    }
    false
}

// Whether a value of an attribute that is declared isn't of its type.
pub(crate) fn has_wrong_value(attributes: &Attributes, entity: &Entity) -> bool
    ensures { result ≡ has_wrong_value (attributes_of attributes.now) (entity_of entity.now).attributes }
{
    for (name, part) in entity.attrs() {
        if is_wrong(attributes, name.as_str(), part) {
            return true;
        }
    }
    false
}

// Whether the attribute is declared, and this is a value that isn't of its type.
fn is_wrong(attributes: &Attributes, name: &str, part: &PartialValue<ExtValue>) -> bool
    ensures { result ≡ is_refused (type_at (attributes_of attributes.now) name.now) (bare_part (part_seen part.now)) }
{
    match attributes.get_attr(name) {
        Some(declared) => is_refused(&declared.attr_type, part),
        None => false,
    }
}

// Whether this is a value that isn't of the type.
pub(crate) fn is_refused(ty: &Type, part: &PartialValue<ExtValue>) -> bool
    ensures { result ≡ is_refused (Some (type_of ty.now)) (bare_part (part_seen part.now)) }
{
    match part {
        PartialValue::Value(value) => !typecheck_value(ty, value),
        PartialValue::Residual(_) => false,
    }
}

// Whether the attributes and tags of the entity are values.
pub(crate) fn holds_values(entity: &Entity) -> bool
    ensures { result ≡ holds_values (entity_of entity.now) }
{
    are_values(entity.attrs()) && are_values(entity.tags())
}

// Whether these are values.
fn are_values(parts: Iter<'_, RcStr, PartialValue<ExtValue>>) -> bool
    ensures { result ≡ list_all (λ p. is_known p.1) (parts_left parts.entry) }
{
    for (_name, part) in parts {
        if !is_value(part) {
            return false;
        }
    }
    true
}

// Whether this is a value.
fn is_value(part: &PartialValue<ExtValue>) -> bool
    ensures { result ≡ is_known (bare_part (part_seen part.now)) }
{
    match part {
        PartialValue::Value(_) => true,
        PartialValue::Residual(_) => false,
    }
}

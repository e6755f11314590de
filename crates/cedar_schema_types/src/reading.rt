//! What a schema's type is as one by which values can be read.

ghost use Rattle.std.specs.Prelude.{◌≡◌, true, IfOk, IfErr};
ghost use Rattle.std.specs.declared.result.Result.TheVariants.{Ok};
ghost use Rattle.cedar_expr_model.specs.Records.{names_rise};
ghost use Rattle.cedar_schema_types.specs.Unions.{members_of, entities_of};
ghost use Rattle.cedar_schema_types.specs.Types.{type_of, attributes_of, attribute_of};
ghost use Rattle.cedar_schema_types.specs.CoreTypes.{core_read, core_union_read, core_attributes_read, core_declared_read, core_attributes_from};
ghost use Rattle.cedar_schema_types.specs.Views.{core_type_of, core_attributes_of, core_declared_of, core_pairs};
ghost use Rattle.cedar_schema_types.specs.Refusals.{Refuses};

use crate::core_types::{CoreAttributeType, CoreAttributes, CoreSchemaType};
use crate::err::CoreTypeError;
use crate::{AttributeType, Attributes, EntityKind, EntityLUB, Type};
use cedar_expr_values::fields::field_map;
use std::alloc::Global;
use std::rc::{Rc, RcStr};

/// The type by which the values of this type can be read: of one truth value that of both, and of all sets that of the empty set.
/// Refuses a type in which the type of no value stands, that of any entity, or a union of several entity types; the refusal tells
/// the first of these, outside in and attributes in the order of their names. Fails only when out of memory.
#[cycle(reading)]
pub fn core_schema_type(alloc: Global, ty: &Type) -> Result<CoreSchemaType, CoreTypeError>
    ensures read { IfOk result (λ c. core_read (type_of ty.now) ≡ Ok (core_type_of c)) }
    ensures refused { IfErr result (Refuses (core_read (type_of ty.now))) }
{
    match ty {
        Type::Never => Err(CoreTypeError::Never),
        Type::Bool(_) => Ok(CoreSchemaType::Bool),
        Type::Long => Ok(CoreSchemaType::Long),
        Type::String => Ok(CoreSchemaType::String),
        Type::Entity(kind) => core_entities(kind),
        Type::Set { element_type: None } => Ok(CoreSchemaType::EmptySet),
        Type::Set {
            element_type: Some(element),
        } => {
            let element_ty = core_schema_type(alloc, element)?;
            let element_ty = Rc::new(alloc, element_ty)?;
            Ok(CoreSchemaType::Set { element_ty })
        }
        Type::Record {
            attrs,
            open_attributes,
        } => {
            let attrs = core_attributes(alloc, attrs)?;
            Ok(CoreSchemaType::Record {
                attrs,
                open_attrs: !open_attributes.is_closed(),
            })
        }
        Type::ExtensionType { name } => Ok(CoreSchemaType::Extension {
            name: name.clone()?,
        }),
    }
}

// The attributes of a record, in the same way.
#[cycle(reading)]
fn core_attributes(alloc: Global, attrs: &Attributes) -> Result<CoreAttributes, CoreTypeError>
    ensures read { IfOk result (λ c. core_attributes_read (attributes_of attrs.now) ≡ Ok (core_attributes_of c)) }
    ensures refused { IfErr result (Refuses (core_attributes_read (attributes_of attrs.now))) }
{
    let pairs = core_pairs(alloc, attrs)?;
    let attrs = field_map(alloc, pairs)?;
    let attrs = Rc::new(alloc, attrs)?;
    Ok(CoreAttributes { attrs })
}

// The attributes of a record with core types, in the order of their names. Refuses the first type of which there is no core type.
#[cycle(reading)]
fn core_pairs(
    alloc: Global,
    attrs: &Attributes,
) -> Result<Vec<(RcStr, CoreAttributeType)>, CoreTypeError>
    ensures read { IfOk result (λ ps. core_attributes_read (attributes_of attrs.now) ≡ Ok (core_attributes_from (core_pairs ps.items))) }
    ensures rising { IfOk result (λ ps. names_rise (core_pairs ps.items) ≡ true) }
    ensures refused { IfErr result (Refuses (core_attributes_read (attributes_of attrs.now))) }
{
    let mut pairs = Vec::with_capacity(alloc, attrs.attrs.len())?;
    for (name, declared) in attrs.attrs.iter() {
        let read = core_attribute(alloc, declared)?;
        pairs.push((name.clone()?, read))?;
    }
    Ok(pairs)
}

// An attribute, in the same way.
#[cycle(reading)]
fn core_attribute(
    alloc: Global,
    declared: &AttributeType,
) -> Result<CoreAttributeType, CoreTypeError>
    ensures read { IfOk result (λ c. core_declared_read (attribute_of declared.now) ≡ Ok (core_declared_of c)) }
    ensures refused { IfErr result (Refuses (core_declared_read (attribute_of declared.now))) }
{
    let attr_type = core_schema_type(alloc, &declared.attr_type)?;
    Ok(CoreAttributeType {
        attr_type,
        required: declared.is_required,
    })
}

// The type of some entities, in the same way.
fn core_entities(kind: &EntityKind) -> Result<CoreSchemaType, CoreTypeError>
    ensures read { IfOk result (λ c. core_read (entities_of kind.now) ≡ Ok (core_type_of c)) }
    ensures refused { IfErr result (Refuses (core_read (entities_of kind.now))) }
{
    match kind {
        EntityKind::AnyEntity => Err(CoreTypeError::AnyEntity),
        EntityKind::Entity(union) => core_union(union),
    }
}

// The type of the entities of a union, which has to be of one entity type alone.
fn core_union(union: &EntityLUB) -> Result<CoreSchemaType, CoreTypeError>
    ensures read { IfOk result (λ c. core_union_read (members_of union.now) ≡ Ok (core_type_of c)) }
    ensures refused { IfErr result (Refuses (core_union_read (members_of union.now))) }
{
    match union.get_single_entity() {
        Some(ty) => Ok(CoreSchemaType::Entity { ty: ty.clone()? }),
        None => Err(CoreTypeError::SeveralEntityTypes),
    }
}

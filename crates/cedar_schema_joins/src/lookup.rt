//! What is declared of an attribute, for the values of a type.

ghost use Rattle.std.specs.Prelude.{◌≡◌, option_map, option_and_then, is_some, IfOk};
ghost use Rattle.std.specs.List.{list_any};
ghost use Rattle.cedar_expr_names.specs.Views.{type_name_of};
ghost use Rattle.cedar_expr_model.specs.Lists.{all_given};
ghost use Rattle.cedar_schema_model.specs.Schema.{Schema, type_named};
ghost use Rattle.cedar_schema_model.specs.Conforming.{of_kind, attributes_at};
ghost use Rattle.cedar_schema_model.specs.Types.{permissive};
ghost use Rattle.cedar_schema_model.specs.Join.{join};
ghost use Rattle.cedar_schema_model.specs.Lookup.{declared_of, declared_by_all, lookup_attribute, may_have_attribute};
ghost use Rattle.cedar_schema_types.specs.Unions.{members_of};
ghost use Rattle.cedar_schema_types.specs.Types.{type_of, attributes_of, attribute_of};

use crate::{ValidationMode, least_upper_bound};
use cedar_expr_names::EntityType;
use cedar_schema_types::{AttributeType, Attributes, EntityKind, EntityLUB, Type};
use std::alloc::{AllocError, Global};

/// What declares the attributes of entity types.
pub trait DeclaredAttributes {
    /// The schema of the declarations.
    ghost schema: { Self → Schema };

    /// The attributes of an entity type, where it is declared. One that isn't standard has none.
    fn entity_attributes(&self, ty: &EntityType) -> Option<&Attributes>
        ensures { option_map (λ a. attributes_of a.now) result ≡ option_map (λ e. attributes_at (of_kind e.kind)) (type_named (schema self.now) (type_name_of ty.now)) };
}

/// What is declared of the attribute for the values of the type: for a record what it lists, for entities what all members of
/// the union declare. Fails only when out of memory.
pub fn lookup_attribute_type<S: DeclaredAttributes>(
    alloc: Global,
    schema: &S,
    ty: &Type,
    attr: &str,
) -> Result<Option<AttributeType>, AllocError>
    ensures { IfOk result (λ d. option_map attribute_of d ≡ lookup_attribute (S.schema schema.now) (type_of ty.now) attr.now) }
{
    match ty {
        Type::Record { attrs, .. } => copy_of(attrs.get_attr(attr)),
        Type::Entity(EntityKind::Entity(union)) => by_all(alloc, schema, union, attr),
        Type::Entity(EntityKind::AnyEntity)
        | Type::Never
        | Type::Bool(_)
        | Type::Long
        | Type::String
        | Type::Set { .. }
        | Type::ExtensionType { .. } => Ok(None),
    }
}

/// Whether some value of the type may have the attribute.
pub fn may_have_attr<S: DeclaredAttributes>(schema: &S, ty: &Type, attr: &str) -> bool
    ensures { result ≡ may_have_attribute (S.schema schema.now) (type_of ty.now) attr.now }
{
    match ty {
        Type::Never | Type::Entity(EntityKind::AnyEntity) => true,
        Type::Record {
            attrs,
            open_attributes,
        } => !open_attributes.is_closed() || attrs.get_attr(attr).is_some(),
        Type::Entity(EntityKind::Entity(union)) => by_some(schema, union, attr),
        Type::Bool(_) | Type::Long | Type::String | Type::Set { .. } | Type::ExtensionType { .. } =>
            false,
    }
}

// A copy of what is declared, if anything is.
fn copy_of(declared: Option<&AttributeType>) -> Result<Option<AttributeType>, AllocError>
    ensures { IfOk result (λ d. option_map attribute_of d ≡ option_map (λ d. attribute_of d.now) declared.entry) }
{
    match declared {
        Some(declared) => Ok(Some(declared.clone()?)),
        None => Ok(None),
    }
}

// What one entity type declares of the attribute.
fn by_one<'a, S: DeclaredAttributes>(
    schema: &'a S,
    ty: &EntityType,
    attr: &str,
) -> Option<&'a AttributeType>
    ensures { option_map (λ d. attribute_of d.now) result ≡ declared_of (S.schema schema.entry.now) attr.now (type_name_of ty.now) }
{
    schema.entity_attributes(ty)?.get_attr(attr)
}

// What all members of the union declare of the attribute: the permissive join of its types, required where all require it.
fn by_all<S: DeclaredAttributes>(
    alloc: Global,
    schema: &S,
    union: &EntityLUB,
    attr: &str,
) -> Result<Option<AttributeType>, AllocError>
    ensures { IfOk result (λ d. option_map attribute_of d ≡ option_and_then declared_by_all (all_given (declared_of (S.schema schema.now) attr.now) (members_of union.now))) }
{
    let mut joined = Type::Never;
    let mut is_required = true;
    for ty in union.iter() {
        match by_one(schema, ty, attr) {
            Some(declared) => {
                is_required = is_required && declared.is_required;
                match joined_with(alloc, &joined, declared)? {
                    Some(next) => joined = next,
                    None => return Ok(None),
                }
            }
            None => return Ok(None),
        }
    }
    Ok(Some(AttributeType::new(joined, is_required)))
}

// The permissive join of the type and that of what is declared.
fn joined_with(
    alloc: Global,
    joined: &Type,
    declared: &AttributeType,
) -> Result<Option<Type>, AllocError>
    ensures { IfOk result (λ j. option_map type_of j ≡ join permissive (type_of joined.now) (attribute_of declared.now).type) }
{
    least_upper_bound(
        alloc,
        joined,
        &declared.attr_type,
        ValidationMode::Permissive,
    )
}

// Whether some member of the union declares the attribute.
fn by_some<S: DeclaredAttributes>(schema: &S, union: &EntityLUB, attr: &str) -> bool
    ensures { result ≡ list_any (λ n. is_some (declared_of (S.schema schema.now) attr.now n)) (members_of union.now) }
{
    for ty in union.iter() {
        if by_one(schema, ty, attr).is_some() {
            return true;
        }
    }
    false
}

//! Attributes, and tests of them.

ghost use Rattle.std.specs.Prelude.{◌≡◌, option_map, IfOk};
ghost use Rattle.cedar_schema_model.specs.Lookup.{lookup_attribute};
ghost use Rattle.cedar_schema_types.specs.Kinds.{bool_type_of, openness_of};
ghost use Rattle.cedar_schema_types.specs.Types.{type_of, attribute_of};
ghost use Rattle.cedar_typechecker_model.specs.Rules.{has_type, has_field, attribute_type};
ghost use Rattle.cedar_typechecker_model.specs.Typing.{step_type};
ghost use Rattle.cedar_typechecker_environments.specs.Settings.{setting_of};
ghost use Rattle.cedar_typechecker_environments.specs.Given.{GivesType};

use cedar_schema_joins::{lookup_attribute_type, may_have_attr};
use cedar_schema_types::{AttributeType, BoolType, OpenTag, Type};
use cedar_typechecker_environments::{TypingSchema, World};
use std::alloc::{AllocError, Global};

/// Whether the values of the type have the attribute, where that may be asked of them.
pub fn has_type<S: TypingSchema>(world: &World<'_, S>, ty: &Type, attr: &str) -> Option<BoolType>
    ensures { option_map bool_type_of result ≡ has_type (setting_of S.schema S.table world.now) (type_of ty.now) attr.now }
{
    match ty {
        Type::Record {
            attrs,
            open_attributes,
        } => Some(has_field(*open_attributes, attrs.get_attr(attr))),
        Type::Entity(_) => {
            if may_have_attr(world.schema, ty, attr) {
                Some(BoolType::AnyBool)
            } else {
                Some(BoolType::False)
            }
        }
        Type::Never
        | Type::Bool(_)
        | Type::Long
        | Type::String
        | Type::Set { .. }
        | Type::ExtensionType { .. } => None,
    }
}

// Whether a record has the field of which this is declared.
fn has_field(tag: OpenTag, declared: Option<&AttributeType>) -> BoolType
    ensures { bool_type_of result ≡ has_field (openness_of tag) (option_map (λ d. attribute_of d.now) declared.entry) }
{
    match declared {
        Some(declared) => {
            if declared.is_required {
                BoolType::True
            } else {
                BoolType::AnyBool
            }
        }
        None => match tag {
            OpenTag::OpenAttributes => BoolType::AnyBool,
            OpenTag::ClosedAttributes => BoolType::False,
        },
    }
}

/// The type of an attribute that is declared and required, or known to be there.
pub fn get_type<S: TypingSchema>(
    alloc: Global,
    world: &World<'_, S>,
    ty: &Type,
    attr: &str,
    is_known: bool,
) -> Result<Option<Type>, AllocError>
    ensures { IfOk result (GivesType (attribute_type is_known (lookup_attribute (S.schema world.now.schema.now) (type_of ty.now) attr.now))) }
{
    let declared = lookup_attribute_type(alloc, world.schema, ty, attr)?;
    Ok(if_usable(declared, is_known))
}

/// The type of an attribute that is declared, whether or not it is known to be there.
pub fn step_type<S: TypingSchema>(
    alloc: Global,
    world: &World<'_, S>,
    ty: &Type,
    attr: &str,
) -> Result<Option<Type>, AllocError>
    ensures { IfOk result (λ t. option_map type_of t ≡ step_type (setting_of S.schema S.table world.now) (type_of ty.now) attr.now) }
{
    match lookup_attribute_type(alloc, world.schema, ty, attr)? {
        Some(declared) => Ok(Some(declared.attr_type)),
        None => Ok(None),
    }
}

// The type of what is declared, if it may be used.
fn if_usable(declared: Option<AttributeType>, is_known: bool) -> Option<Type>
    ensures { option_map type_of result ≡ attribute_type is_known (option_map attribute_of declared) }
{
    match declared {
        Some(declared) => {
            if declared.is_required || is_known {
                Some(declared.attr_type)
            } else {
                None
            }
        }
        None => None,
    }
}

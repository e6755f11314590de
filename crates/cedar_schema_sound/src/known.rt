//! Whether what a type refers to is known.

ghost use Rattle.std.specs.Prelude.{◌≡◌, List, option_map};
ghost use Rattle.std.specs.List.{list_any};
ghost use Rattle.std.specs.Str.{bytes_eq};
ghost use Rattle.cedar_expr_model.specs.Name as model;
ghost use Rattle.cedar_expr_model.specs.Name.{name_eq};
ghost use Rattle.cedar_expr_names.specs.Views.{type_name_of, plain_name_of};
ghost use Rattle.cedar_expr_model.specs.Lists.{first_found};
ghost use Rattle.cedar_schema_model.specs.Reference.{action_word};
ghost use Rattle.cedar_schema_types.specs.Unions.{members_of, entities_of};
ghost use Rattle.cedar_schema_types.specs.Types.{type_of, attributes_of};
ghost use Rattle.cedar_schema_built.specs.Views.{schema_kept};
ghost use Rattle.cedar_schema_model.specs.Unsound.{type_fault, extension_fault, known_fault, attributes_fault};
ghost use Rattle.cedar_schema_sound.specs.Views.{fault_seen, names_known};

use crate::unsound::Unsound;
use cedar_expr_names::{EntityType, Name};
use cedar_schema_built::ValidatorSchema;
use cedar_schema_types::{Attributes, EntityKind, EntityLUB, Type};
use std::collections::BTreeSet;

// What is wrong with a type, if anything is.
#[cycle(known)]
pub(crate) fn unknown_in_type<'a>(
    schema: &ValidatorSchema,
    extension_types: &BTreeSet<Name>,
    ty: &'a Type,
) -> Option<Unsound<'a>>
    ensures { option_map fault_seen result ≡ known_fault (names_known extension_types.now) (schema_kept schema.now) (type_of ty.entry.now) }
{
    match ty {
        Type::Never
        | Type::Bool(_)
        | Type::Long
        | Type::String
        | Type::Set { element_type: None } => None,
        Type::Entity(kind) => undeclared_in_kind(schema, kind),
        Type::Set {
            element_type: Some(element),
        } => unknown_in_type(schema, extension_types, element),
        Type::Record { attrs, .. } => unknown_in_attributes(schema, extension_types, attrs),
        Type::ExtensionType { name } => unknown_extension(extension_types, name),
    }
}

// What is wrong with attributes, in the order of their names.
#[cycle(known)]
pub(crate) fn unknown_in_attributes<'a>(
    schema: &ValidatorSchema,
    extension_types: &BTreeSet<Name>,
    attrs: &'a Attributes,
) -> Option<Unsound<'a>>
    ensures { option_map fault_seen result ≡ attributes_fault (names_known extension_types.now) (schema_kept schema.now) (attributes_of attrs.entry.now) }
{
    for (_name, declared) in attrs.attrs.iter() {
        if let Some(unsound) = unknown_in_type(schema, extension_types, &declared.attr_type) {
            return Some(unsound);
        }
    }
    None
}

// What is wrong with a type of entities.
fn undeclared_in_kind<'a>(schema: &ValidatorSchema, kind: &'a EntityKind) -> Option<Unsound<'a>>
    ensures { (x : List model.Name) → option_map fault_seen result ≡ known_fault x (schema_kept schema.now) (entities_of kind.entry.now) }
{
    match kind {
        EntityKind::AnyEntity => None,
        EntityKind::Entity(union) => undeclared_in_union(schema, union),
    }
}

// The first entity type of the union that isn't declared.
fn undeclared_in_union<'a>(schema: &ValidatorSchema, union: &'a EntityLUB) -> Option<Unsound<'a>>
    ensures { option_map fault_seen result ≡ first_found (type_fault (schema_kept schema.now)) (members_of union.entry.now) }
{
    for ty in union.iter() {
        if let Some(unsound) = undeclared(schema, ty) {
            return Some(unsound);
        }
    }
    None
}

// The entity type, if it isn't declared.
pub(crate) fn undeclared<'a>(schema: &ValidatorSchema, ty: &'a EntityType) -> Option<Unsound<'a>>
    ensures { option_map fault_seen result ≡ type_fault (schema_kept schema.now) (type_name_of ty.entry.now) }
{
    if schema.get_entity_type(ty).is_some() {
        None
    } else {
        Some(Unsound::UndeclaredType(ty))
    }
}

// The extension type, if it isn't one of these.
fn unknown_extension<'a>(extension_types: &BTreeSet<Name>, name: &'a Name) -> Option<Unsound<'a>>
    ensures { option_map fault_seen result ≡ extension_fault (names_known extension_types.now) (plain_name_of name.entry.now) }
{
    if is_known(extension_types, name) {
        None
    } else {
        Some(Unsound::UnknownExtensionType(name))
    }
}

// Whether the name is one of these.
fn is_known(extension_types: &BTreeSet<Name>, name: &Name) -> bool
    ensures { result ≡ list_any (name_eq (plain_name_of name.now)) (names_known extension_types.now) }
{
    extension_types.contains(name)
}

// Whether the last name is that of the types of actions.
pub(crate) fn is_action_type(ty: &EntityType) -> bool
    ensures { result ≡ bytes_eq action_word (type_name_of ty.now).base }
{
    "Action" == ty.name().basename_as_ref().as_str()
}

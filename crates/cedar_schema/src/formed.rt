//! Types are well-formed. Each body goes through the type and does nothing else.

ghost use Rattle.std.specs.Prelude.{◌≡◌, true};
ghost use Rattle.cedar_schema_model.specs.OfLaws.Formed.{is_well_formed_type, are_well_formed_attributes};
ghost use Rattle.cedar_schema_types.specs.Unions.{entities_of};
ghost use Rattle.cedar_schema_types.specs.Types.{type_of, attributes_of};

use cedar_schema_types::{Attributes, EntityKind, Type};

/// A type is well-formed: each union in it has a member, and its names are well-formed and rise; the names of the attributes of
/// each record in it rise.
#[cycle(formed)]
pub fn types_are_formed(ty: &Type)
    ensures { is_well_formed_type (type_of ty.now) ≡ true }
{
    match ty {
        Type::Never
        | Type::Bool(_)
        | Type::Long
        | Type::String
        | Type::Set { element_type: None }
        | Type::ExtensionType { .. } => (),
        Type::Entity(kind) => entities_are_formed(kind),
        Type::Set {
            element_type: Some(element),
        } => types_are_formed(element),
        Type::Record { attrs, .. } => attributes_are_formed(attrs),
    }
}

/// So are attributes.
#[cycle(formed)]
pub fn attributes_are_formed(attrs: &Attributes)
    ensures { are_well_formed_attributes (attributes_of attrs.now) ≡ true }
{
    for (_name, declared) in attrs.attrs.iter() {
        types_are_formed(&declared.attr_type);
    }
}

// So are types of entities.
fn entities_are_formed(kind: &EntityKind)
    ensures { is_well_formed_type (entities_of kind.now) ≡ true }
{
    match kind {
        EntityKind::AnyEntity => (),
        EntityKind::Entity(union) => {
            let _members = union.iter();
        }
    }
}

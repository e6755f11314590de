//! All attributes that a schema declares for the values of a type.

ghost use Rattle.std.specs.Prelude.{◌≡◌, option_map, IfOk};
ghost use Rattle.cedar_schema_model.specs.Types.{entity_types};
ghost use Rattle.cedar_schema_model.specs.Lookup.{lookup_attribute};
ghost use Rattle.cedar_schema_types.specs.Unions.{members_of, entities_of};
ghost use Rattle.cedar_schema_types.specs.Types.{type_of, attributes_of};
ghost use Rattle.cedar_schema_types.specs.AttributeLists.{declared_pairs, names_in};
ghost use Rattle.cedar_schema_sound.specs.Known.{AreDeclared, first_declared, declared_among};

use cedar_schema_joins::{DeclaredAttributes, lookup_attribute_type};
use cedar_schema_types::{AttributeType, Attributes, EntityKind, EntityLUB, Type};
use std::alloc::{AllocError, Global};
use std::rc::RcStr;

/// All attributes that are declared for the values of the type: of a record those that it lists, of entities those that all members of
/// the union declare with types that join. Any other type has none. Fails only when out of memory.
pub fn all_attributes<S: DeclaredAttributes>(
    alloc: Global,
    schema: &S,
    ty: &Type,
) -> Result<Attributes, AllocError>
    ensures { IfOk result (λ as_. AreDeclared (S.schema schema.now) (type_of ty.now) (attributes_of as_)) }
{
    match ty {
        Type::Record { attrs, .. } => attrs.clone(),
        Type::Entity(kind) => all_known_attrs(alloc, schema, kind),
        Type::Never
        | Type::Bool(_)
        | Type::Long
        | Type::String
        | Type::Set { .. }
        | Type::ExtensionType { .. } => Attributes::with_attributes(alloc, Vec::new(alloc)),
    }
}

/// All attributes that are declared for these entities: of any entity none, else those that all members of the union declare with types
/// that join, each with the permissive join, required where all require it. Fails only when out of memory.
pub fn all_known_attrs<S: DeclaredAttributes>(
    alloc: Global,
    schema: &S,
    kind: &EntityKind,
) -> Result<Attributes, AllocError>
    ensures { IfOk result (λ as_. AreDeclared (S.schema schema.now) (entities_of kind.now) (attributes_of as_)) }
{
    match kind {
        EntityKind::AnyEntity => Attributes::with_attributes(alloc, Vec::new(alloc)),
        EntityKind::Entity(union) => {
            let ty = Type::Entity(kind.clone()?);
            known_to_all(alloc, schema, &ty, union)
        }
    }
}

// The attributes of the first member that all others declare too.
fn known_to_all<S: DeclaredAttributes>(
    alloc: Global,
    schema: &S,
    ty: &Type,
    union: &EntityLUB,
) -> Result<Attributes, AllocError>
    requires { type_of ty.now ≡ entity_types (members_of union.now) }
    ensures { IfOk result (λ as_. AreDeclared (S.schema schema.now) (entity_types (members_of union.now)) (attributes_of as_)) }
{
    match first_attributes(schema, union) {
        Some(attrs) => {
            let pairs = known_of(alloc, schema, ty, attrs)?;
            Attributes::with_attributes(alloc, pairs)
        }
        None => Attributes::with_attributes(alloc, Vec::new(alloc)),
    }
}

// The attributes of the first member, if it is declared.
fn first_attributes<'a, S: DeclaredAttributes>(
    schema: &'a S,
    union: &EntityLUB,
) -> Option<&'a Attributes>
    ensures { option_map (λ a. attributes_of a.now) result ≡ first_declared (S.schema schema.entry.now) (members_of union.now) }
{
    match union.iter().next() {
        Some(ty) => schema.entity_attributes(ty),
        None => None,
    }
}

// What is declared for the type of each of these attributes of which anything is.
fn known_of<S: DeclaredAttributes>(
    alloc: Global,
    schema: &S,
    ty: &Type,
    attrs: &Attributes,
) -> Result<Vec<(RcStr, AttributeType)>, AllocError>
    ensures { IfOk result (λ ps. declared_pairs ps.items ≡ declared_among (lookup_attribute (S.schema schema.now) (type_of ty.now)) (names_in (attributes_of attrs.now))) }
{
    let mut pairs = Vec::new(alloc);
    for name in attrs.keys() {
        if let Some(declared) = lookup_attribute_type(alloc, schema, ty, name.as_str())? {
            pairs.push((name.clone()?, declared))?;
        }
    }
    Ok(pairs)
}

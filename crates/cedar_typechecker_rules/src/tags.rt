//! Tags, and tests of them.

ghost use Rattle.std.specs.Prelude.{◌≡◌, ◌&&◌, map, option_map, option_and_then, is_some, IfOk, None, if◌then◌else◌};
ghost use Rattle.std.specs.List.{list_any};
ghost use Rattle.cedar_expr_model.specs.Lists.{all_given};
ghost use Rattle.cedar_schema_model.specs.Join.{reduce_to_join};
ghost use Rattle.cedar_schema_model.specs.Types.{permissive, entity_types};
ghost use Rattle.cedar_schema_types.specs.Kinds.{bool_type_of};
ghost use Rattle.cedar_schema_types.specs.Types.{type_of};
ghost use Rattle.cedar_schema_types.specs.Unions.{members_of, entities_of};
ghost use Rattle.cedar_typechecker_model.specs.Rules.{has_tag_type, tag_type, tags_of, may_have_tags, is_string_type};
ghost use Rattle.cedar_typechecker_environments.specs.Settings.{setting_of};
ghost use Rattle.cedar_typechecker_environments.specs.Given.{GivesType};

use cedar_schema_joins::{ValidationMode, least_upper_bound};
use cedar_schema_types::{BoolType, EntityKind, EntityLUB, Type};
use cedar_typechecker_environments::{TypingSchema, World};
use std::alloc::{AllocError, Global};

/// Whether an entity of type `t` has the tag of a name of type `u`, where that may be asked of them.
pub fn has_tag_type<S: TypingSchema>(world: &World<'_, S>, t: &Type, u: &Type) -> Option<BoolType>
    ensures { option_map bool_type_of result ≡ has_tag_type (setting_of S.schema S.table world.now) (type_of t.now) (type_of u.now) }
{
    if !is_string_type(u) {
        return None;
    }
    match t {
        Type::Entity(kind) if may_have_tags(world, kind) => Some(BoolType::AnyBool),
        Type::Entity(_) => Some(BoolType::False),
        Type::Never
        | Type::Bool(_)
        | Type::Long
        | Type::String
        | Type::Set { .. }
        | Type::Record { .. }
        | Type::ExtensionType { .. } => None,
    }
}

// Whether this is the type of texts.
fn is_string_type(ty: &Type) -> bool
    ensures { result ≡ is_string_type (type_of ty.now) }
{
    match ty {
        Type::String => true,
        Type::Never
        | Type::Bool(_)
        | Type::Long
        | Type::Entity(_)
        | Type::Set { .. }
        | Type::Record { .. }
        | Type::ExtensionType { .. } => false,
    }
}

// Whether an entity of these types may have tags.
fn may_have_tags<S: TypingSchema>(world: &World<'_, S>, kind: &EntityKind) -> bool
    ensures { result ≡ may_have_tags (setting_of S.schema S.table world.now) (entities_of kind.now) }
{
    match kind {
        EntityKind::AnyEntity => true,
        EntityKind::Entity(union) => some_has_tags(world, union),
    }
}

// Whether some member of the union has tags.
fn some_has_tags<S: TypingSchema>(world: &World<'_, S>, union: &EntityLUB) -> bool
    ensures { result ≡ list_any (λ n. is_some (tags_of (S.schema world.now.schema.now) n)) (members_of union.now) }
{
    for ty in union.iter() {
        if world.schema.tags(ty).is_some() {
            return true;
        }
    }
    false
}

/// The type of the tag of an entity of type `t`, of a name of type `u`, if the tag is known to be there.
pub fn get_tag_type<S: TypingSchema>(
    alloc: Global,
    world: &World<'_, S>,
    t: &Type,
    u: &Type,
    is_known: bool,
) -> Result<Option<Type>, AllocError>
    ensures { IfOk result (GivesType (if is_string_type (type_of u.now) && is_known then tag_type (setting_of S.schema S.table world.now) (type_of t.now) else None)) }
{
    if is_string_type(u) && is_known {
        tag_type(alloc, world, t)
    } else {
        Ok(None)
    }
}

// The type of the tags of an entity of this type.
fn tag_type<S: TypingSchema>(
    alloc: Global,
    world: &World<'_, S>,
    t: &Type,
) -> Result<Option<Type>, AllocError>
    ensures { IfOk result (λ r. option_map type_of r ≡ tag_type (setting_of S.schema S.table world.now) (type_of t.now)) }
{
    match t {
        Type::Entity(EntityKind::Entity(union)) => tags_of_all(alloc, world, union),
        Type::Entity(EntityKind::AnyEntity)
        | Type::Never
        | Type::Bool(_)
        | Type::Long
        | Type::String
        | Type::Set { .. }
        | Type::Record { .. }
        | Type::ExtensionType { .. } => Ok(None),
    }
}

// The join of the types of the tags of all members, if all have tags.
fn tags_of_all<S: TypingSchema>(
    alloc: Global,
    world: &World<'_, S>,
    union: &EntityLUB,
) -> Result<Option<Type>, AllocError>
    ensures { IfOk result (GivesType (option_and_then (reduce_to_join permissive) (all_given (tags_of (S.schema world.now.schema.now)) (members_of union.now)))) }
{
    let mut joined = Type::Never;
    for ty in union.iter() {
        let Some(tags) = world.schema.tags(ty) else {
            return Ok(None);
        };
        match least_upper_bound(alloc, &joined, tags, ValidationMode::Permissive)? {
            Some(next) => joined = next,
            None => return Ok(None),
        }
    }
    Ok(Some(joined))
}

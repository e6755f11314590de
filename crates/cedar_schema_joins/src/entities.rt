//! Types of entities compared and joined.

ghost use Rattle.std.specs.Prelude.{◌≡◌, option_map, IfOk, if◌then◌else◌, Some, None};
ghost use Rattle.cedar_schema_model.specs.Types.{any_entity};
ghost use Rattle.cedar_schema_model.specs.Subtype.{is_subtype, is_permissive, is_union_below};
ghost use Rattle.cedar_schema_model.specs.Join.{join, union_join};
ghost use Rattle.cedar_schema_types.specs.Unions.{members_of, entities_of};
ghost use Rattle.cedar_schema_joins.specs.Modes.{mode_of};

use crate::mode::is_permissive;
use cedar_schema_types::{EntityKind, EntityLUB};
use cedar_store_parts::ValidationMode;
use std::alloc::{AllocError, Global};

// Whether the first type is below the second.
pub(crate) fn is_kind_below(kind: &EntityKind, other: &EntityKind, mode: ValidationMode) -> bool
    ensures { result ≡ is_subtype (mode_of mode) (entities_of kind.now) (entities_of other.now) }
{
    match (kind, other) {
        (EntityKind::AnyEntity, EntityKind::AnyEntity) => true,
        (EntityKind::AnyEntity, EntityKind::Entity(_)) => false,
        (EntityKind::Entity(_), EntityKind::AnyEntity) => is_permissive(mode),
        (EntityKind::Entity(own), EntityKind::Entity(union)) => is_below_union(own, union, mode),
    }
}

// Whether the first union is the second, or any smaller one in permissive mode.
fn is_below_union(own: &EntityLUB, union: &EntityLUB, mode: ValidationMode) -> bool
    ensures { result ≡ is_union_below (mode_of mode) (members_of own.now) (members_of union.now) }
{
    own.is_subset(union) && (is_permissive(mode) || union.is_subset(own))
}

// The join of two types of entities, where there is one.
pub(crate) fn join_kinds(
    alloc: Global,
    kind: &EntityKind,
    other: &EntityKind,
    mode: ValidationMode,
) -> Result<Option<EntityKind>, AllocError>
    ensures { IfOk result (λ k. option_map entities_of k ≡ join (mode_of mode) (entities_of kind.now) (entities_of other.now)) }
{
    match (kind, other) {
        (EntityKind::AnyEntity, EntityKind::AnyEntity) => Ok(Some(EntityKind::AnyEntity)),
        (EntityKind::AnyEntity, EntityKind::Entity(_)) => Ok(any_where_permissive(mode)),
        (EntityKind::Entity(_), EntityKind::AnyEntity) => Ok(any_where_permissive(mode)),
        (EntityKind::Entity(own), EntityKind::Entity(union)) => join_unions(
            alloc, own, union, mode,
        ),
    }
}

// The join of two unions, where there is one: the union of both, in strict mode only where they are the same.
fn join_unions(
    alloc: Global,
    own: &EntityLUB,
    other: &EntityLUB,
    mode: ValidationMode,
) -> Result<Option<EntityKind>, AllocError>
    ensures { IfOk result (λ k. option_map entities_of k ≡ union_join (mode_of mode) (members_of own.now) (members_of other.now)) }
{
    if !is_permissive(mode) && !(own.is_subset(other) && other.is_subset(own)) {
        return Ok(None);
    }
    let union = own.union(alloc, other)?;
    Ok(Some(EntityKind::Entity(union)))
}

// The type of any entity in permissive mode, and nothing in strict mode.
fn any_where_permissive(mode: ValidationMode) -> Option<EntityKind>
    ensures { option_map entities_of result ≡ (if is_permissive (mode_of mode) then Some any_entity else None) }
{
    if is_permissive(mode) {
        Some(EntityKind::AnyEntity)
    } else {
        None
    }
}

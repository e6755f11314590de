//! `in`: membership of entities.

ghost use Rattle.std.specs.Prelude.{◌≡◌, ◌||◌, option_map};
ghost use Rattle.std.specs.List.{list_any};
ghost use Rattle.cedar_expr_names.specs.Views.{type_name_of, uid_of};
ghost use Rattle.cedar_expr_trees.specs.Trees.{tree_of};
ghost use Rattle.cedar_schema_model.specs.Types.{set_type};
ghost use Rattle.cedar_schema_types.specs.Types.{type_of};
ghost use Rattle.cedar_schema_types.specs.Unions.{members_of};
ghost use Rattle.cedar_typechecker_model.specs.Rules.{in_type, entity_kinds, entity_or_set_kinds, may_be_in, action_literal, written_actions};
ghost use Rattle.cedar_typechecker_rules.specs.Decided.{is_within, within_some, decided_in, actions_listed};
ghost use Rattle.cedar_typechecker_rules.specs.Kinds.{kinds_of, holders_of, is_among_or_below};
ghost use Rattle.cedar_typechecker_environments.specs.Settings.{setting_of};

use crate::uids::{action_literal, set_members, written_action};
use cedar_expr_names::{EntityType, EntityUID};
use cedar_expr_trees::Expr;
use cedar_schema_types::{BoolType, EntityKind, EntityLUB, Type};
use cedar_typechecker_environments::{TypingSchema, World};

/// The type of `in`. Of actions that are written it is True or False, as the declared actions stand. It is False where the types
/// exclude it, and else Bool. Anything but an entity on the left, or an entity or a set of entities on the right, has none.
#[tactic(auto, using(crate::proofs::Included::in_type_is))]
pub fn in_type<S: TypingSchema>(
    world: &World<'_, S>,
    a: &Expr,
    b: &Expr,
    t: &Type,
    u: &Type,
) -> Option<Type>
    ensures { option_map type_of result ≡ in_type (setting_of S.schema S.table world.now) (tree_of a.now) (tree_of b.now) (type_of t.now) (type_of u.now) }
{
    let kind = entity_kind(t)?;
    let holders = holders_in(u)?;
    match decided_in(world, a, b) {
        Some(is_in) => Some(Type::singleton_boolean(is_in)),
        None if may_be_in(world, kind, holders) => Some(Type::Bool(BoolType::AnyBool)),
        None => Some(Type::Bool(BoolType::False)),
    }
}

// Entities that others may be in: those of an entity type, or of the members of a set; or nothing, of the empty set.
#[derive(Clone, Copy)]
pub(crate) enum Holders<'a> {
    Kind(&'a EntityKind),
    Nothing,
}

// The entity types of an entity.
fn entity_kind(t: &Type) -> Option<&EntityKind>
    ensures { option_map (λ k. kinds_of k.now) result ≡ entity_kinds (type_of t.entry.now) }
{
    match t {
        Type::Entity(kind) => Some(kind),
        Type::Never
        | Type::Bool(_)
        | Type::Long
        | Type::String
        | Type::Set { .. }
        | Type::Record { .. }
        | Type::ExtensionType { .. } => None,
    }
}

// The entity types of what may stand on the right.
fn holders_in(u: &Type) -> Option<Holders<'_>>
    ensures { option_map holders_of result ≡ entity_or_set_kinds (type_of u.entry.now) }
{
    match u {
        Type::Entity(kind) => Some(Holders::Kind(kind)),
        Type::Set {
            element_type: Some(element),
        } => held(element),
        Type::Set { element_type: None }
        | Type::Never
        | Type::Bool(_)
        | Type::Long
        | Type::String
        | Type::Record { .. }
        | Type::ExtensionType { .. } => None,
    }
}

// The entity types of the members of a set.
fn held(element: &Type) -> Option<Holders<'_>>
    ensures { option_map holders_of result ≡ entity_or_set_kinds (set_type (type_of element.entry.now)) }
{
    match element {
        Type::Never => Some(Holders::Nothing),
        Type::Entity(kind) => Some(Holders::Kind(kind)),
        Type::Bool(_)
        | Type::Long
        | Type::String
        | Type::Set { .. }
        | Type::Record { .. }
        | Type::ExtensionType { .. } => None,
    }
}

// Whether an entity of these types may be one of the holders, or in one.
#[tactic(auto, using(crate::proofs::Included::in_nothing))]
fn may_be_in<S: TypingSchema>(world: &World<'_, S>, kind: &EntityKind, holders: Holders<'_>) -> bool
    ensures { result ≡ may_be_in (S.schema world.now.schema.now) (kinds_of kind.now) (holders_of holders.entry) }
{
    match holders {
        Holders::Kind(other) => may_be_in_kind(world, kind, other),
        Holders::Nothing => match kind {
            EntityKind::AnyEntity => true,
            EntityKind::Entity(_) => false,
        },
    }
}

// Whether an entity of these types may be one of the other, or in one.
fn may_be_in_kind<S: TypingSchema>(
    world: &World<'_, S>,
    kind: &EntityKind,
    other: &EntityKind,
) -> bool
    ensures { result ≡ may_be_in (S.schema world.now.schema.now) (kinds_of kind.now) (kinds_of other.now) }
{
    match (kind, other) {
        (EntityKind::AnyEntity, EntityKind::AnyEntity) => true,
        (EntityKind::AnyEntity, EntityKind::Entity(_)) => true,
        (EntityKind::Entity(_), EntityKind::AnyEntity) => true,
        (EntityKind::Entity(own), EntityKind::Entity(union)) => are_related(world, own, union),
    }
}

// Whether an entity of some member of the first union may be one of the second, or in one.
fn are_related<S: TypingSchema>(world: &World<'_, S>, own: &EntityLUB, union: &EntityLUB) -> bool
    ensures { result ≡ list_any (is_among_or_below (S.schema world.now.schema.now) (members_of union.now)) (members_of own.now) }
{
    for ty in own.iter() {
        if is_related(world, ty, union) {
            return true;
        }
    }
    false
}

// Whether an entity of this type may be one of the union, or in one.
fn is_related<S: TypingSchema>(world: &World<'_, S>, ty: &EntityType, union: &EntityLUB) -> bool
    ensures { result ≡ is_among_or_below (S.schema world.now.schema.now) (members_of union.now) (type_name_of ty.now) }
{
    for above in union.iter() {
        if ty.same(above) || world.schema.type_descends(ty, above) {
            return true;
        }
    }
    false
}

// Whether the action on the left is on the right or in what is there, if both sides write declared actions.
fn decided_in<S: TypingSchema>(world: &World<'_, S>, a: &Expr, b: &Expr) -> Option<bool>
    ensures { result ≡ decided_in (setting_of S.schema S.table world.now) (tree_of a.now) (tree_of b.now) }
{
    let uid = written_action(world, a)?;
    is_within_written(world, uid, b)
}

// Whether the action is one that the expression writes, or in one, if it writes declared actions alone.
#[tactic(auto, using(crate::proofs::Included::written_alone, crate::proofs::Included::written_in_set))]
fn is_within_written<S: TypingSchema>(
    world: &World<'_, S>,
    uid: &EntityUID,
    b: &Expr,
) -> Option<bool>
    ensures { result ≡ within_some (setting_of S.schema S.table world.now) (uid_of uid.now) (written_actions (setting_of S.schema S.table world.now) (tree_of b.now)) }
{
    match set_members(b) {
        Some(members) => is_within_listed(world, uid, members),
        None => Some(is_within(world, uid, action_literal(world, b)?)),
    }
}

// Whether the action is one of these literals, or in one, if they are all declared actions.
fn is_within_listed<S: TypingSchema>(
    world: &World<'_, S>,
    uid: &EntityUID,
    members: &[Expr],
) -> Option<bool>
    ensures { result ≡ within_some (setting_of S.schema S.table world.now) (uid_of uid.now) (actions_listed (setting_of S.schema S.table world.now) members.now) }
{
    let mut is_found = false;
    for e in members {
        match action_literal(world, e) {
            Some(above) => is_found = found_by_now(is_found, is_within(world, uid, above)),
            None => return None,
        }
    }
    Some(is_found)
}

// Whether it was found before or is found here.
fn found_by_now(before: bool, here: bool) -> bool
    ensures { result ≡ (before || here) }
{
    before || here
}

// Whether the action is the other, or in it.
fn is_within<S: TypingSchema>(world: &World<'_, S>, uid: &EntityUID, above: &EntityUID) -> bool
    ensures { result ≡ is_within (setting_of S.schema S.table world.now) (uid_of uid.now) (uid_of above.now) }
{
    uid.same(above) || world.schema.action_descends(uid, above)
}

//! Operators of two operands, but for membership of entities and tags.

ghost use Rattle.std.specs.Prelude.{◌≡◌, option_map, IfOk};
ghost use Rattle.cedar_expr_model.specs.Tree.{equal};
ghost use Rattle.cedar_expr_trees.specs.Trees.{tree_of};
ghost use Rattle.cedar_schema_model.specs.Types.{long_type};
ghost use Rattle.cedar_schema_joins.specs.Modes.{mode_of};
ghost use Rattle.cedar_schema_types.specs.Types.{type_of};
ghost use Rattle.cedar_typechecker_model.specs.Rules.{binary_type, written_equal, number_type, order_type, comparable, member_type, sets_type, is_set_type, if_there};
ghost use Rattle.cedar_typechecker_environments.specs.Settings.{setting_of};
ghost use Rattle.cedar_typechecker_environments.specs.Given.{GivesType};
ghost use Rattle.cedar_typechecker_rules.specs.Uids.{equal_written};

use crate::uids::written_uid;
use cedar_expr_names::EntityUID;
use cedar_expr_trees::Expr;
use cedar_schema_joins::{ValidationMode, are_types_disjoint, least_upper_bound};
use cedar_schema_types::Type;
use cedar_typechecker_environments::{TypingSchema, World};
use std::alloc::{AllocError, Global};

/// The type of a sum, a difference or a product.
pub fn number_type(t: &Type, u: &Type) -> Option<Type>
    ensures { option_map type_of result ≡ number_type (type_of t.now) (type_of u.now) }
{
    match t {
        Type::Long => with_long(u),
        Type::Never
        | Type::Bool(_)
        | Type::String
        | Type::Entity(_)
        | Type::Set { .. }
        | Type::Record { .. }
        | Type::ExtensionType { .. } => None,
    }
}

// The type of a sum, a difference or a product of a whole number and this.
fn with_long(u: &Type) -> Option<Type>
    ensures { option_map type_of result ≡ number_type long_type (type_of u.now) }
{
    match u {
        Type::Long => Some(Type::Long),
        Type::Never
        | Type::Bool(_)
        | Type::String
        | Type::Entity(_)
        | Type::Set { .. }
        | Type::Record { .. }
        | Type::ExtensionType { .. } => None,
    }
}

/// The type of a comparison by order.
pub fn order_type<S: TypingSchema>(world: &World<'_, S>, t: &Type, u: &Type) -> Option<Type>
    ensures { option_map type_of result ≡ order_type (setting_of S.schema S.table world.now) (type_of t.now) (type_of u.now) }
{
    match (t, u) {
        (Type::Long, Type::Long) => Some(Type::primitive_boolean()),
        (Type::ExtensionType { name }, Type::ExtensionType { name: other }) => {
            if name.same(other) && world.schema.is_ordered(name) {
                Some(Type::primitive_boolean())
            } else {
                None
            }
        }
        (_, _) => None,
    }
}

/// The type of a comparison of types that join, in strict mode; in permissive mode of any.
pub fn comparable(
    alloc: Global,
    mode: ValidationMode,
    t: &Type,
    u: &Type,
) -> Result<Option<Type>, AllocError>
    ensures { IfOk result (λ r. option_map type_of r ≡ comparable (mode_of mode) (type_of t.now) (type_of u.now)) }
{
    match mode {
        ValidationMode::Permissive => Ok(Some(Type::primitive_boolean())),
        ValidationMode::Strict => {
            let joined = least_upper_bound(alloc, t, u, mode)?;
            Ok(truth_if(joined))
        }
    }
}

// The type of truth values, if there is a type.
fn truth_if(joined: Option<Type>) -> Option<Type>
    ensures { option_map type_of result ≡ if_there (option_map type_of joined) }
{
    match joined {
        Some(_) => Some(Type::primitive_boolean()),
        None => None,
    }
}

/// The type of an equality: False of types without a common value; of two uids that are written True or False; else the types must
/// be comparable.
pub fn equal_type<S: TypingSchema>(
    alloc: Global,
    world: &World<'_, S>,
    a: &Expr,
    b: &Expr,
    t: &Type,
    u: &Type,
) -> Result<Option<Type>, AllocError>
    ensures { IfOk result (GivesType (binary_type (setting_of S.schema S.table world.now) equal (tree_of a.now) (tree_of b.now) (type_of t.now) (type_of u.now))) }
{
    if are_types_disjoint(t, u) {
        return Ok(Some(Type::singleton_boolean(false)));
    }
    written_equal(
        alloc,
        world,
        written_uid(world, a),
        written_uid(world, b),
        t,
        u,
    )
}

// The type of an equality of expressions that write these uids.
fn written_equal<S: TypingSchema>(
    alloc: Global,
    world: &World<'_, S>,
    first: Option<&EntityUID>,
    second: Option<&EntityUID>,
    t: &Type,
    u: &Type,
) -> Result<Option<Type>, AllocError>
    ensures { IfOk result (GivesType (equal_written (setting_of S.schema S.table world.now) first.entry second.entry t.now u.now)) }
{
    match (first, second) {
        (Some(first), Some(second)) => Ok(Some(Type::singleton_boolean(first.same(second)))),
        (Some(_), None) => comparable(alloc, world.mode, t, u),
        (None, Some(_)) => comparable(alloc, world.mode, t, u),
        (None, None) => comparable(alloc, world.mode, t, u),
    }
}

/// The type of membership in a set.
pub fn member_type<S: TypingSchema>(
    alloc: Global,
    world: &World<'_, S>,
    t: &Type,
    u: &Type,
) -> Result<Option<Type>, AllocError>
    ensures { IfOk result (λ r. option_map type_of r ≡ member_type (setting_of S.schema S.table world.now) (type_of t.now) (type_of u.now)) }
{
    match t {
        Type::Set { element_type: None } => Ok(Some(Type::primitive_boolean())),
        Type::Set {
            element_type: Some(element),
        } => {
            let joined = least_upper_bound(alloc, element, u, world.mode)?;
            Ok(truth_if(joined))
        }
        Type::Never
        | Type::Bool(_)
        | Type::Long
        | Type::String
        | Type::Entity(_)
        | Type::Record { .. }
        | Type::ExtensionType { .. } => Ok(None),
    }
}

/// The type of a comparison of two sets.
pub fn sets_type<S: TypingSchema>(
    alloc: Global,
    world: &World<'_, S>,
    t: &Type,
    u: &Type,
) -> Result<Option<Type>, AllocError>
    ensures { IfOk result (λ r. option_map type_of r ≡ sets_type (setting_of S.schema S.table world.now) (type_of t.now) (type_of u.now)) }
{
    if !is_set_type(t) || !is_set_type(u) {
        return Ok(None);
    }
    let joined = least_upper_bound(alloc, t, u, world.mode)?;
    Ok(truth_if(joined))
}

// Whether this is a type of sets.
fn is_set_type(t: &Type) -> bool
    ensures { result ≡ is_set_type (type_of t.now) }
{
    match t {
        Type::Set { .. } => true,
        Type::Never
        | Type::Bool(_)
        | Type::Long
        | Type::String
        | Type::Entity(_)
        | Type::Record { .. }
        | Type::ExtensionType { .. } => false,
    }
}

//! Sets, and choices.

ghost use Rattle.std.specs.Prelude.{◌≡◌, map, option_map, IfOk};
ghost use Rattle.cedar_schema_model.specs.Join.{join, reduce_to_join};
ghost use Rattle.cedar_schema_model.specs.Types.{set_type};
ghost use Rattle.cedar_schema_joins.specs.Modes.{mode_of};
ghost use Rattle.cedar_schema_types.specs.Types.{type_of};
ghost use Rattle.cedar_typechecker_model.specs.Rules.{set_literal_type};

use cedar_schema_joins::{ValidationMode, least_upper_bound};
use cedar_schema_types::Type;
use std::alloc::{AllocError, Global};

/// The type of a set of members of these types, where they join. In strict mode there has to be one.
pub fn set_literal_type(
    alloc: Global,
    mode: ValidationMode,
    members: &[&Type],
) -> Result<Option<Type>, AllocError>
    ensures { IfOk result (λ t. option_map type_of t ≡ set_literal_type (mode_of mode) (map (λ m. type_of m.now) members.now)) }
{
    match mode {
        ValidationMode::Strict => {
            if members.is_empty() {
                return Ok(None);
            }
            set_of_joined(alloc, mode, members)
        }
        ValidationMode::Permissive => set_of_joined(alloc, mode, members),
    }
}

// The type of a set of members of these types, where they join.
fn set_of_joined(
    alloc: Global,
    mode: ValidationMode,
    members: &[&Type],
) -> Result<Option<Type>, AllocError>
    ensures { IfOk result (λ t. option_map type_of t ≡ option_map set_type (reduce_to_join (mode_of mode) (map (λ m. type_of m.now) members.now))) }
{
    match all_joined(alloc, mode, members)? {
        Some(element) => Ok(Some(Type::set(alloc, element)?)),
        None => Ok(None),
    }
}

// The join of these types, one after the other.
fn all_joined(
    alloc: Global,
    mode: ValidationMode,
    types: &[&Type],
) -> Result<Option<Type>, AllocError>
    ensures { IfOk result (λ t. option_map type_of t ≡ reduce_to_join (mode_of mode) (map (λ m. type_of m.now) types.now)) }
{
    let mut joined = Type::Never;
    for ty in types {
        match least_upper_bound(alloc, &joined, ty, mode)? {
            Some(next) => joined = next,
            None => return Ok(None),
        }
    }
    Ok(Some(joined))
}

/// The type of a choice between branches of these types, where they join.
pub fn chosen_type(
    alloc: Global,
    mode: ValidationMode,
    t: &Type,
    u: &Type,
) -> Result<Option<Type>, AllocError>
    ensures { IfOk result (λ j. option_map type_of j ≡ join (mode_of mode) (type_of t.now) (type_of u.now)) }
{
    least_upper_bound(alloc, t, u, mode)
}

//! Entity types by their names.

ghost use Rattle.std.specs.Prelude.{◌≡◌, [], ◌∷◌, map, IfOk, IfErr};
ghost use Rattle.cedar_expr_names.specs.Views.{name_of, type_name_of};
ghost use Rattle.cedar_schema_assembly.specs.Lists.{IsSetOf};
ghost use Rattle.cedar_schema_assembly.specs.Refusals.{TellsReserved};

use crate::err::AssemblyError;
use crate::sets::set_of;
use cedar_expr_names::{EntityType, InternalName, Name};
use std::alloc::Global;
use std::collections::BTreeSet;

/// The entity type of this name. Refuses a reserved one, and fails when out of memory.
pub fn entity_type_of(name: &InternalName) -> Result<EntityType, AssemblyError>
    ensures made { IfOk result (λ t. type_name_of t ≡ name_of name.now) }
    ensures refused { IfErr result (TellsReserved (name_of name.now ∷ [])) }
{
    let name = Name::try_from_internal(name.clone()?)?;
    Ok(EntityType::from_name(name))
}

// The entity types of these names, in their order. Refuses a reserved one, and fails when out of memory.
fn entity_types_of(
    alloc: Global,
    names: &BTreeSet<InternalName>,
) -> Result<Vec<EntityType>, AssemblyError>
    ensures made { IfOk result (λ ts. map type_name_of ts.items ≡ map name_of names.now.keys) }
    ensures refused { IfErr result (TellsReserved (map name_of names.now.keys)) }
{
    let mut types = Vec::with_capacity(alloc, names.len())?;
    for name in names.iter() {
        types.push(entity_type_of(name)?)?;
    }
    Ok(types)
}

/// The set of the entity types of these names. Refuses a reserved one.
pub fn set_of_types(
    alloc: Global,
    names: &BTreeSet<InternalName>,
) -> Result<BTreeSet<EntityType>, AssemblyError>
    ensures made { IfOk result (λ s. IsSetOf (map name_of names.now.keys) (map type_name_of s.keys)) }
    ensures refused { IfErr result (TellsReserved (map name_of names.now.keys)) }
{
    match entity_types_of(alloc, names) {
        Ok(types) => {
            let set = set_of(alloc, &types)?;
            Ok(set)
        }
        Err(error) => Err(error),
    }
}

//! The common types and the namespaces of a schema, by name.

ghost use Rattle.std.specs.Prelude.{◌≡◌, [], map, IfOk};
ghost use Rattle.cedar_expr_model.specs.UidOrder.{name_cmp};
ghost use Rattle.cedar_schema_built.specs.OfFragments.{commons_of_fragments, spaces_of_fragments};
ghost use Rattle.cedar_schema_built.specs.LocatedViews.{common_listed, space_listed};
ghost use Rattle.cedar_schema_built.specs.Listed.{commons_in, spaces_in, names_listed, AreListed};
ghost use Rattle.cedar_schema_built.specs.Put.{all_put};

use crate::{LocatedCommonType, LocatedNamespace, located_common_types, located_namespaces};
use cedar_expr_names::InternalName;
use cedar_schema_fragments::ValidatorSchemaFragment;
use std::alloc::{AllocError, Global};
use std::collections::BTreeMap;

// The common types and the namespaces of a schema, by name.
#[derive(Debug, Drop)]
pub(crate) struct SchemaNames {
    pub(crate) common_types: BTreeMap<InternalName, LocatedCommonType>,
    pub(crate) namespaces: BTreeMap<InternalName, LocatedNamespace>,
}

impl SchemaNames {
    // No common types and no namespaces.
    pub(crate) fn empty(alloc: Global) -> SchemaNames
        ensures { names_listed result ≡ record { commons = []; spaces = [] } }
    {
        SchemaNames {
            common_types: BTreeMap::new(alloc),
            namespaces: BTreeMap::new(alloc),
        }
    }

    // Those that these fragments declare. Fails only when out of memory.
    pub(crate) fn of_fragments<N, A>(
        alloc: Global,
        fragments: &[ValidatorSchemaFragment<N, A>],
    ) -> Result<SchemaNames, AllocError>
        ensures { IfOk result (λ n. AreListed fragments.now (names_listed n)) }
    {
        let common_types = located_common_types(alloc, fragments)?;
        let common_types = common_types_by_name(alloc, common_types)?;
        let namespaces = located_namespaces(alloc, fragments)?;
        let namespaces = namespaces_by_name(alloc, namespaces)?;
        Ok(SchemaNames {
            common_types,
            namespaces,
        })
    }
}

// The common types by their names, of a repeated name the last. Fails only when out of memory.
fn common_types_by_name(
    alloc: Global,
    common_types: Vec<LocatedCommonType>,
) -> Result<BTreeMap<InternalName, LocatedCommonType>, AllocError>
    ensures { IfOk result (λ m. commons_in m.entries ≡ all_put name_cmp (λ c. c.name) [] (map common_listed common_types.items)) }
{
    let mut by_name = BTreeMap::new(alloc);
    for common in common_types {
        let name = common.full_name().clone()?;
        by_name.insert(name, common)?;
    }
    Ok(by_name)
}

// The namespaces by their names, of a repeated name the last. Fails only when out of memory.
fn namespaces_by_name(
    alloc: Global,
    namespaces: Vec<LocatedNamespace>,
) -> Result<BTreeMap<InternalName, LocatedNamespace>, AllocError>
    ensures { IfOk result (λ m. spaces_in m.entries ≡ all_put name_cmp (λ n. n.name) [] (map space_listed namespaces.items)) }
{
    let mut by_name = BTreeMap::new(alloc);
    for namespace in namespaces {
        let name = namespace.full_name().clone()?;
        by_name.insert(name, namespace)?;
    }
    Ok(by_name)
}

//! What fragments declare, gathered.

ghost use Rattle.std.specs.Prelude.{◌≡◌, [], ◌++◌, IfOk};
ghost use Rattle.std.specs.List.{flat_map};
ghost use Rattle.cedar_expr_names.specs.Views.{name_of, type_name_of};
ghost use Rattle.cedar_schema_decl.specs.Definitions.{commons_form, entities_form};
ghost use Rattle.cedar_schema_fragments.specs.Actions.{actions_form};
ghost use Rattle.cedar_schema_builder.specs.Gathered.{commons_gathered, entities_gathered, actions_gathered, resolved_forms};

use cedar_expr_names::{EntityType, EntityUID, InternalName};
use cedar_schema_decl::EntityTypeFragment;
use cedar_schema_decl::json_schema::CommonType;
use cedar_schema_fragments::{ActionFragment, ValidatorNamespaceDef, ValidatorSchemaFragment};
use std::alloc::{AllocError, Global};

/// All that fragments declare, with each name resolved.
#[derive(Drop)]
pub struct GatheredDefs {
    /// The common types, each with its name.
    pub common_types: Vec<(InternalName, CommonType<InternalName>)>,
    /// The entity types, each with its name.
    pub entity_types: Vec<(InternalName, EntityTypeFragment<InternalName>)>,
    /// The actions, each with its uid.
    pub actions: Vec<(EntityUID, ActionFragment<InternalName, EntityType>)>,
}

impl GatheredDefs {
    /// Nothing yet.
    pub fn new(alloc: Global) -> GatheredDefs
        ensures commons { commons_gathered result ≡ [] }
        ensures entities { entities_gathered result ≡ [] }
        ensures actions { actions_gathered result ≡ [] }
    {
        GatheredDefs {
            common_types: Vec::new(alloc),
            entity_types: Vec::new(alloc),
            actions: Vec::new(alloc),
        }
    }
}

// These with those after them. Fails only when out of memory.
fn with_all<T: Drop>(before: Vec<T>, after: Vec<T>) -> Result<Vec<T>, AllocError>
    ensures { IfOk result (λ r. r.items ≡ before.items ++ after.items) }
{
    let mut all = before;
    for one in after {
        all.push(one)?;
    }
    Ok(all)
}

// All that was gathered, with what this namespace declares. Fails only when out of memory.
fn with_namespace(
    gathered: GatheredDefs,
    namespace: ValidatorNamespaceDef<InternalName, EntityType>,
) -> Result<GatheredDefs, AllocError>
    ensures commons { IfOk result (λ r. commons_gathered r ≡ commons_gathered gathered ++ commons_form name_of namespace.common_types) }
    ensures entities { IfOk result (λ r. entities_gathered r ≡ entities_gathered gathered ++ entities_form name_of namespace.entity_types) }
    ensures actions { IfOk result (λ r. actions_gathered r ≡ actions_gathered gathered ++ actions_form name_of type_name_of namespace.actions) }
{
    let common_types = with_all(gathered.common_types, namespace.common_types.defs)?;
    let entity_types = with_all(gathered.entity_types, namespace.entity_types.defs)?;
    let actions = with_all(gathered.actions, namespace.actions.actions)?;
    Ok(GatheredDefs {
        common_types,
        entity_types,
        actions,
    })
}

// The namespaces of these fragments, one after the other. Fails only when out of memory.
fn all_namespaces(
    alloc: Global,
    fragments: Vec<ValidatorSchemaFragment<InternalName, EntityType>>,
) -> Result<Vec<ValidatorNamespaceDef<InternalName, EntityType>>, AllocError>
    ensures { IfOk result (λ r. r.items ≡ flat_map (λ f. f.0.items) fragments.items) }
{
    let mut all = Vec::new(alloc);
    for fragment in fragments {
        all = with_all(all, fragment.0)?;
    }
    Ok(all)
}

// All that these namespaces declare. Fails only when out of memory.
fn gather_namespaces(
    alloc: Global,
    namespaces: Vec<ValidatorNamespaceDef<InternalName, EntityType>>,
) -> Result<GatheredDefs, AllocError>
    ensures commons { IfOk result (λ r. commons_gathered r ≡ flat_map (λ n. commons_form name_of n.common_types) namespaces.items) }
    ensures entities { IfOk result (λ r. entities_gathered r ≡ flat_map (λ n. entities_form name_of n.entity_types) namespaces.items) }
    ensures actions { IfOk result (λ r. actions_gathered r ≡ flat_map (λ n. actions_form name_of type_name_of n.actions) namespaces.items) }
{
    let mut gathered = GatheredDefs::new(alloc);
    for namespace in namespaces {
        gathered = with_namespace(gathered, namespace)?;
    }
    Ok(gathered)
}

/// All that these fragments declare, one namespace after the other. Fails only when out of memory.
pub fn gather(
    alloc: Global,
    fragments: Vec<ValidatorSchemaFragment<InternalName, EntityType>>,
) -> Result<GatheredDefs, AllocError>
    ensures commons { IfOk result (λ r. commons_gathered r ≡ flat_map (λ n. n.commons) (resolved_forms fragments.items)) }
    ensures entities { IfOk result (λ r. entities_gathered r ≡ flat_map (λ n. n.entities) (resolved_forms fragments.items)) }
    ensures actions { IfOk result (λ r. actions_gathered r ≡ flat_map (λ n. n.actions) (resolved_forms fragments.items)) }
{
    let namespaces = all_namespaces(alloc, fragments)?;
    let gathered = gather_namespaces(alloc, namespaces)?;
    Ok(gathered)
}

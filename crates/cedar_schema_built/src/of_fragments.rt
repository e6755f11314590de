//! The common types and the namespaces that fragments declare.

ghost use Rattle.std.specs.Prelude.{◌≡◌, ◌++◌, map, IfOk, OnOk};
ghost use Rattle.cedar_schema_built.specs.OfFragments.{common_in, commons_of_fragment, commons_of_fragments, declares_any, space_in, spaces_of_fragment, spaces_of_fragments};
ghost use Rattle.cedar_schema_built.specs.LocatedViews.{common_listed, space_listed};

use crate::common_type::LocatedCommonType;
use crate::namespace::LocatedNamespace;
use cedar_schema_decl::CommonTypeDefs;
use cedar_schema_fragments::{ValidatorNamespaceDef, ValidatorSchemaFragment};
use std::alloc::{AllocError, Global};

// Puts these common types behind those that were found. Fails only when out of memory.
fn add_commons<N>(
    found: &mut Vec<LocatedCommonType>,
    defs: &CommonTypeDefs<N>,
) -> Result<(), AllocError>
    ensures { OnOk result (map common_listed found.new.items ≡ map common_listed found.old.items ++ map common_in defs.now.defs.items) }
{
    for def in &defs.defs {
        found.push(LocatedCommonType::at(&def.0, def.1.ty.loc)?)?;
    }
    Ok(())
}

// Puts the common types of a fragment behind those that were found.
fn add_commons_of<N, A>(
    found: &mut Vec<LocatedCommonType>,
    fragment: &ValidatorSchemaFragment<N, A>,
) -> Result<(), AllocError>
    ensures { OnOk result (map common_listed found.new.items ≡ map common_listed found.old.items ++ commons_of_fragment fragment.now) }
{
    for namespace in &fragment.0 {
        add_commons(found, &namespace.common_types)?;
    }
    Ok(())
}

/// The common types that these fragments declare, each as often as one declares it, in order, with the places of their names and of
/// their types. Fails only when out of memory.
pub fn located_common_types<N, A>(
    alloc: Global,
    fragments: &[ValidatorSchemaFragment<N, A>],
) -> Result<Vec<LocatedCommonType>, AllocError>
    ensures { IfOk result (λ cs. map common_listed cs.items ≡ commons_of_fragments fragments.now) }
{
    let mut found = Vec::new(alloc);
    for fragment in fragments {
        add_commons_of(&mut found, fragment)?;
    }
    Ok(found)
}

// Whether a namespace declares anything.
fn declares_any<N, A>(namespace: &ValidatorNamespaceDef<N, A>) -> bool
    ensures { result ≡ declares_any namespace.now }
{
    !(namespace.common_types.defs.is_empty()
        && namespace.entity_types.defs.is_empty()
        && namespace.actions.actions.is_empty())
}

// Puts a namespace behind those that were found, if it has a name and declares anything. Fails only when out of memory.
fn add_namespace<N, A>(
    found: &mut Vec<LocatedNamespace>,
    namespace: &ValidatorNamespaceDef<N, A>,
) -> Result<(), AllocError>
    ensures { OnOk result (map space_listed found.new.items ≡ map space_listed found.old.items ++ space_in namespace.now) }
{
    if !declares_any(namespace) {
        return Ok(());
    }
    match &namespace.namespace {
        Some(name) => {
            found.push(LocatedNamespace::new(name, namespace.loc)?)?;
            Ok(())
        }
        None => Ok(()),
    }
}

// Puts the namespaces of a fragment that have a name and declare anything behind those that were found.
fn add_namespaces_of<N, A>(
    found: &mut Vec<LocatedNamespace>,
    fragment: &ValidatorSchemaFragment<N, A>,
) -> Result<(), AllocError>
    ensures { OnOk result (map space_listed found.new.items ≡ map space_listed found.old.items ++ spaces_of_fragment fragment.now) }
{
    for namespace in &fragment.0 {
        add_namespace(found, namespace)?;
    }
    Ok(())
}

/// The namespaces in which these fragments declare anything, each as often as a fragment has it, in order, with the places of their
/// names and of their definitions. The empty namespace, which has no name, is none of them. Fails only when out of memory.
pub fn located_namespaces<N, A>(
    alloc: Global,
    fragments: &[ValidatorSchemaFragment<N, A>],
) -> Result<Vec<LocatedNamespace>, AllocError>
    ensures { IfOk result (λ ns. map space_listed ns.items ≡ spaces_of_fragments fragments.now) }
{
    let mut found = Vec::new(alloc);
    for fragment in fragments {
        add_namespaces_of(&mut found, fragment)?;
    }
    Ok(found)
}

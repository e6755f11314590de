//! What fragments declare, as three sets of names.

ghost use Rattle.std.specs.Prelude.{◌≡◌, [], ◌∷◌, IfOk};
ghost use Rattle.cedar_schema_decl.specs.Defined.{defined_of, nothing_defined, with_common, with_entity, with_action};
ghost use Rattle.cedar_schema_fragments.specs.Marked.{all_with, common_names, entity_names, action_uids, with_namespace, with_fragment, HasAll};

use crate::actions::ActionsDef;
use crate::namespace_def::{ValidatorNamespaceDef, ValidatorSchemaFragment};
use cedar_schema_decl::{AllDefs, CommonTypeDefs, EntityTypesDef};
use std::alloc::{AllocError, Global};

// What is declared, with these common types.
fn with_commons<N>(all_defs: AllDefs, commons: &CommonTypeDefs<N>) -> Result<AllDefs, AllocError>
    ensures { IfOk result (λ d. defined_of d ≡ all_with with_common (common_names commons.now) (defined_of all_defs)) }
{
    let mut marked = all_defs;
    for common in &commons.defs {
        marked.mark_as_defined_as_common_type(common.0.clone()?)?;
    }
    Ok(marked)
}

// What is declared, with these entity types.
fn with_entities<N>(all_defs: AllDefs, entities: &EntityTypesDef<N>) -> Result<AllDefs, AllocError>
    ensures { IfOk result (λ d. defined_of d ≡ all_with with_entity (entity_names entities.now) (defined_of all_defs)) }
{
    let mut marked = all_defs;
    for entity in &entities.defs {
        marked.mark_as_defined_as_entity_type(entity.0.clone()?)?;
    }
    Ok(marked)
}

// What is declared, with these actions.
fn with_actions<N, A>(all_defs: AllDefs, actions: &ActionsDef<N, A>) -> Result<AllDefs, AllocError>
    ensures { IfOk result (λ d. defined_of d ≡ all_with with_action (action_uids actions.now) (defined_of all_defs)) }
{
    let mut marked = all_defs;
    for action in &actions.actions {
        marked.mark_as_defined_as_action(action.0.clone()?)?;
    }
    Ok(marked)
}

// What is declared, with what this namespace declares.
fn with_namespace<N, A>(
    all_defs: AllDefs,
    namespace: &ValidatorNamespaceDef<N, A>,
) -> Result<AllDefs, AllocError>
    ensures { IfOk result (λ d. defined_of d ≡ with_namespace namespace.now (defined_of all_defs)) }
{
    let all_defs = with_commons(all_defs, &namespace.common_types)?;
    let all_defs = with_entities(all_defs, &namespace.entity_types)?;
    with_actions(all_defs, &namespace.actions)
}

// What is declared, with what this fragment declares.
fn with_fragment<N, A>(
    all_defs: AllDefs,
    fragment: &ValidatorSchemaFragment<N, A>,
) -> Result<AllDefs, AllocError>
    ensures { IfOk result (λ d. defined_of d ≡ with_fragment fragment.now (defined_of all_defs)) }
{
    let mut marked = all_defs;
    for namespace in &fragment.0 {
        marked = with_namespace(marked, namespace)?;
    }
    Ok(marked)
}

// What these fragments declare, one after the other.
fn all_marked<N, A>(
    alloc: Global,
    fragments: &[ValidatorSchemaFragment<N, A>],
) -> Result<AllDefs, AllocError>
    ensures { IfOk result (λ d. defined_of d ≡ all_with with_fragment fragments.now nothing_defined) }
{
    let mut marked = AllDefs::empty(alloc);
    for fragment in fragments {
        marked = with_fragment(marked, fragment)?;
    }
    Ok(marked)
}

/// What these fragments declare: the names of all common types and entity types, and the uids of all actions. Fails only when
/// out of memory.
pub fn new<N, A>(
    alloc: Global,
    fragments: &[ValidatorSchemaFragment<N, A>],
) -> Result<AllDefs, AllocError>
    ensures marked { IfOk result (λ d. defined_of d ≡ all_with with_fragment fragments.now nothing_defined) }
    ensures declared { IfOk result (λ d. HasAll fragments.now (defined_of d)) }
{
    match all_marked(alloc, fragments) {
        Ok(marked) => Ok(marked),
        Err(error) => Err(error),
    }
}

/// What this fragment declares: the names of all its common types and entity types, and the uids of its actions. Fails only when
/// out of memory.
pub fn single_fragment<N, A>(
    alloc: Global,
    fragment: &ValidatorSchemaFragment<N, A>,
) -> Result<AllDefs, AllocError>
    ensures marked { IfOk result (λ d. defined_of d ≡ with_fragment fragment.now nothing_defined) }
    ensures declared { IfOk result (λ d. HasAll (fragment.now ∷ []) (defined_of d)) }
{
    match with_fragment(AllDefs::empty(alloc), fragment) {
        Ok(marked) => Ok(marked),
        Err(error) => Err(error),
    }
}

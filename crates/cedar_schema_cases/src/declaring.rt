//! Questions on what fragments declare, and on what names mean by it.

use crate::desk::Desk;
use crate::said::{add, pass, tell};
use crate::written::Written;
use cedar_expr_leaves::{ConditionalName, ReferenceType};
use cedar_expr_names::InternalName;
use cedar_schema_builder::{DefsOfFragments, check_reserved};
use cedar_schema_decl::{AllDefs, EntityTypeFragment, resolve};
use cedar_schema_examples::{WrittenName, listed, name};
use cedar_schema_fragments::ValidatorNamespaceDef;
use cedar_test_exprs::{kept, uid};
use std::alloc::{AllocError, Global};

// Answers a question. Fails where the fragments of the case are refused.
pub fn answer(desk: &Desk, verb: &str, rest: &str, said: &mut String) -> Result<(), AllocError> {
    let fragments = kept(desk.alloc, desk.fragments())?;
    match verb {
        "names" => names(desk.alloc, &fragments, said),
        "checked" => checked(desk.alloc, &fragments, said),
        "marked" => marked(desk.alloc, &fragments, rest, said),
        _ => means(desk.alloc, &fragments, rest, said),
    }
}

// The names of the namespaces of each fragment, and of what each of them declares.
fn names(alloc: Global, fragments: &[Written], said: &mut String) -> Result<(), AllocError> {
    for fragment in fragments {
        for namespace in fragment.namespaces() {
            add(said, namespace.map_or("-", InternalName::as_str))?;
        }
        for namespace in &fragment.0 {
            add(said, names_text(alloc, namespace)?.as_str())?;
        }
    }
    Ok(())
}

// The names of all that a namespace declares.
fn names_text(
    alloc: Global,
    namespace: &ValidatorNamespaceDef<ConditionalName, ConditionalName>,
) -> Result<String, AllocError> {
    let commons = listed(alloc, namespace.all_declared_common_type_names())?;
    let entities = listed(alloc, namespace.all_declared_entity_type_names())?;
    let actions = listed(alloc, namespace.all_declared_action_names())?;
    format!(in alloc; "types{commons} entities{entities} actions{actions}")
}

// Whether a name that the fragments write is reserved, and whether a name of the first fragment shadows another of it.
fn checked(alloc: Global, fragments: &[Written], said: &mut String) -> Result<(), AllocError> {
    pass(alloc, check_reserved(fragments), said)?;
    let first = fragments.first().ok_or(AllocError)?;
    let all_defs = AllDefs::single_fragment(alloc, first)?;
    pass(alloc, all_defs.rfc_70_shadowing_checks(alloc), said)
}

// Marks an entity type, a common type or an action as declared.
fn mark(alloc: Global, all_defs: &mut AllDefs, text: &str) -> Result<(), AllocError> {
    match text.split_once(' ') {
        Some(("entity", text)) => all_defs.mark_as_defined_as_entity_type(name(alloc, text)?),
        Some(("common", text)) => all_defs.mark_as_defined_as_common_type(name(alloc, text)?),
        Some(("action", text)) => all_defs.mark_as_defined_as_action(uid(alloc, text)?),
        _ => Err(AllocError),
    }
}

// Whether a name shadows another where this is declared too.
fn marked(
    alloc: Global,
    fragments: &[Written],
    rest: &str,
    said: &mut String,
) -> Result<(), AllocError> {
    let mut all_defs = AllDefs::new(alloc, fragments)?;
    mark(alloc, &mut all_defs, rest)?;
    pass(alloc, all_defs.rfc_70_shadowing_checks(alloc), said)
}

// What a name means behind what is due, `entity`, `common` or `either`, or whether it may be the `parent` of an entity type. A name
// `N/T` is `T`, written in the namespace `N`.
fn means(
    alloc: Global,
    fragments: &[Written],
    rest: &str,
    said: &mut String,
) -> Result<(), AllocError> {
    let (due, text) = rest.split_once(' ').unwrap_or(("", rest));
    let kind = match due {
        "entity" | "parent" => ReferenceType::Entity,
        "common" => ReferenceType::Common,
        _ => ReferenceType::CommonOrEntity,
    };
    let name = ConditionalName::read(alloc, text, kind)?;
    let all_defs = AllDefs::new(alloc, fragments)?;
    if due == "parent" {
        parent(alloc, &all_defs, name, said)
    } else {
        tell(alloc, resolve(&name, &all_defs), said)
    }
}

// Whether this may be the parent of an entity type.
fn parent(
    alloc: Global,
    all_defs: &AllDefs,
    name: ConditionalName,
    said: &mut String,
) -> Result<(), AllocError> {
    let parents = vec![in alloc; name]?;
    let entity = EntityTypeFragment::External { parents };
    pass(
        alloc,
        entity.fully_qualify_type_references(alloc, all_defs),
        said,
    )
}

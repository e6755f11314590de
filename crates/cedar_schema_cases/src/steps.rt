//! The steps from fragments to the entity types and actions of a schema, each by a call of its own.

use crate::desk::Desk;
use crate::said::{made, show, tell_all};
use cedar_expr_functions::Extensions;
use cedar_schema_assembly::{actions, entity_types};
use cedar_schema_builder::{DefsOfFragments, GatheredDefs, extension_types, gather, resolve_all};
use cedar_schema_decl::AllDefs;
use cedar_schema_fragments::FragmentError;
use cedar_schema_resolver::{CycleError, RepeatedError, TypeResolver, resolve_common_types};
use std::alloc::{AllocError, Global};

// The names that fragments declare, and all declarations with each name resolved.
#[derive(Drop)]
struct Declared {
    all_defs: AllDefs,
    gathered: GatheredDefs,
}

fn resolved(desk: &Desk) -> Result<Declared, FragmentError> {
    let fragments = desk.fragments()?;
    let all_defs = AllDefs::new(desk.alloc, &fragments)?;
    let resolved = resolve_all(desk.alloc, fragments, &all_defs)?;
    let gathered = gather(desk.alloc, resolved)?;
    Ok(Declared { all_defs, gathered })
}

// Says the entity types and the actions that the declarations of the case tell, in their order, or why they tell none.
pub fn steps(desk: &Desk, table: &Extensions<'_>, said: &mut String) -> Result<(), AllocError> {
    match made(desk.alloc, resolved(desk), said)? {
        Some(declared) => assembled(desk.alloc, &declared, table, said),
        None => Ok(()),
    }
}

fn assembled(
    alloc: Global,
    declared: &Declared,
    table: &Extensions<'_>,
    said: &mut String,
) -> Result<(), AllocError> {
    let Declared { all_defs, gathered } = declared;
    let known = extension_types(alloc, table)?;
    let commons = resolve_common_types(alloc, &gathered.common_types, all_defs, &known);
    let Some(commons) = made(alloc, commons, said)? else {
        return Ok(());
    };
    let resolver = TypeResolver {
        commons: &commons,
        all_defs,
        extension_types: &known,
    };
    told(alloc, gathered, &resolver, said)
}

fn told(
    alloc: Global,
    gathered: &GatheredDefs,
    resolver: &TypeResolver<'_>,
    said: &mut String,
) -> Result<(), AllocError> {
    let types = entity_types(alloc, &gathered.entity_types, resolver);
    tell_all(alloc, types, said)?;
    tell_all(alloc, actions(alloc, &gathered.actions, resolver), said)
}

// What a graph of names is refused for.
pub fn refusal(alloc: Global, rest: &str, said: &mut String) -> Result<(), AllocError> {
    match rest {
        "repeated" => show(alloc, &RepeatedError::Repeated { number: 2 }, said),
        "repeated memory" => show(alloc, &RepeatedError::OutOfMemory, said),
        "cycle" => show(alloc, &CycleError::Cycle { node: 3 }, said),
        _ => show(alloc, &CycleError::OutOfMemory, said),
    }
}

//! Places that a built schema keeps of its declarations.

use crate::said::show;
use cedar_expr_names::Loc;
use cedar_schema_built::ValidatorSchema;
use cedar_schema_types::{Attributes, Type};
use std::alloc::{AllocError, Global};

// Puts a place behind what is said, if there is one.
fn add_place(alloc: Global, place: Option<Loc>, said: &mut String) -> Result<(), AllocError> {
    match place {
        Some(place) => {
            let text = format!(in alloc; " @{}-{}", place.start(), place.end())?;
            said.push_str(text.as_str())
        }
        None => Ok(()),
    }
}

// The common types that the schema lists, with the places of their names and of their types, and its namespaces, with those of their
// names and of their definitions.
fn listed(alloc: Global, schema: &ValidatorSchema, said: &mut String) -> Result<(), AllocError> {
    for common in schema.common_types() {
        show(alloc, common.full_name(), said)?;
        add_place(alloc, common.name_loc(), said)?;
        add_place(alloc, common.type_loc(), said)?;
    }
    for namespace in schema.namespaces() {
        show(alloc, namespace.full_name(), said)?;
        add_place(alloc, namespace.name_loc(), said)?;
        add_place(alloc, namespace.def_loc(), said)?;
    }
    Ok(())
}

// Puts the names of the attributes behind what is said, each with its place and those of the attributes of its own type.
#[cycle(places)]
fn add_attributes(
    alloc: Global,
    attributes: &Attributes,
    said: &mut String,
) -> Result<(), AllocError> {
    for (name, declared) in attributes.attrs.iter() {
        said.push_str(" ")?;
        said.push_str(name.as_str())?;
        add_place(alloc, declared.loc, said)?;
        if let Type::Record { attrs, .. } = &declared.attr_type {
            add_attributes(alloc, attrs, said)?;
        }
    }
    Ok(())
}

// What the schema lists, and its entity types and actions with their places and those of attributes.
pub fn places(
    alloc: Global,
    schema: &ValidatorSchema,
    said: &mut String,
) -> Result<(), AllocError> {
    listed(alloc, schema, said)?;
    for ty in schema.entity_types() {
        show(alloc, ty.name(), said)?;
        add_place(alloc, ty.loc(), said)?;
        add_attributes(alloc, ty.attributes(), said)?;
    }
    for action in schema.action_ids() {
        show(alloc, action.name(), said)?;
        add_place(alloc, action.loc(), said)?;
        if let Type::Record { attrs, .. } = action.context() {
            add_attributes(alloc, attrs, said)?;
        }
    }
    Ok(())
}

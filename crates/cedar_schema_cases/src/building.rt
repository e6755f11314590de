//! The schema that is built of the fragments of a case.

use crate::desk::Desk;
use crate::said::{Entry, put};
use cedar_expr_functions::Extensions;
use cedar_schema_builder::SchemaError;
use cedar_schema_built::ValidatorSchema;
use std::alloc::{AllocError, Global};

fn built(desk: &Desk, table: &Extensions<'_>) -> Result<ValidatorSchema, SchemaError> {
    let fragments = desk.fragments()?;
    ValidatorSchema::from_schema_fragments(desk.alloc, fragments, table)
}

// Builds the schema, and says its entity types and actions, or the refusal.
pub fn schema(
    desk: &mut Desk,
    table: &Extensions<'_>,
    said: &mut String,
) -> Result<(), AllocError> {
    let built = built(desk, table);
    let number = match &built {
        Ok(_) => 0,
        Err(error) => error.number(),
    };
    if put(desk.alloc, &mut desk.schema, built, number, said)? {
        shown(desk.alloc, &desk.schema, said)
    } else {
        Ok(())
    }
}

// Says the entity types and actions of the schema.
fn shown(alloc: Global, schema: &ValidatorSchema, said: &mut String) -> Result<(), AllocError> {
    for ty in schema.entity_types() {
        ty.say(alloc, said)?;
    }
    for action in schema.action_ids() {
        action.say(alloc, said)?;
    }
    Ok(())
}

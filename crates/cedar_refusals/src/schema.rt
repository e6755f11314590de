//! Schemas that are built of fragments.

ghost use Rattle.std.specs.Prelude.{IfOk};
ghost use Rattle.cedar_schema_built.specs.Views.{schema_kept};
ghost use Rattle.cedar_typechecker_model.specs.Seen.{IsClosed};

use crate::told::{Made, Told};
use cedar_expr_functions::Extensions;
use cedar_expr_leaves::{ConditionalName, RawName};
use cedar_gate_bundles::Bundle;
use cedar_gate_fragments::fragments_of;
use cedar_gate_runs::lines::push_numbered;
use cedar_schema_builder::SchemaError;
use cedar_schema_built::ValidatorSchema;
use cedar_schema_decl::json_schema::Fragment;
use cedar_schema_fragments::ValidatorSchemaFragment;
use cedar_typechecker::laws::built_schemas_answer_alike;
use std::alloc::{AllocError, Global};
use std::fmt::Write;

type Conditional = ValidatorSchemaFragment<ConditionalName, ConditionalName>;

/// Builds the schema of the bundle, and says its entity types and actions, or why there is none.
pub fn make_calls(
    alloc: Global,
    bundle: Bundle,
    table: &Extensions<'_>,
    told: &mut Told,
) -> Made<()> {
    match built(alloc, bundle.submission.fragments.as_slice(), table, told) {
        Ok(schema) => say_schema(&schema, told),
        Err(SchemaError::OutOfMemory) => Err(AllocError),
        Err(fault) => push_numbered(&mut told.text, "refused", fault.number()),
    }
}

/// The schema of these fragments. Out of memory it is asked for again.
pub fn built(
    alloc: Global,
    fragments: &[Fragment<RawName>],
    table: &Extensions<'_>,
    told: &mut Told,
) -> Result<ValidatorSchema, SchemaError>
    ensures { IfOk result (λ s. IsClosed (schema_kept s)) }
{
    let first = fragments_of(alloc, fragments)?;
    let again = fragments_of(alloc, fragments)?;
    match schema_of(alloc, first, table) {
        Err(SchemaError::OutOfMemory) => {
            told.say_again("from_schema_fragments")?;
            schema_of(alloc, again, table)
        }
        built => built,
    }
}

fn schema_of(
    alloc: Global,
    fragments: Vec<Conditional>,
    table: &Extensions<'_>,
) -> Result<ValidatorSchema, SchemaError>
    ensures { IfOk result (λ s. IsClosed (schema_kept s)) }
{
    built_schemas_answer_alike();
    let schema = ValidatorSchema::from_schema_fragments(alloc, fragments, table)?;
    Ok(schema)
}

fn say_schema(schema: &ValidatorSchema, told: &mut Told) -> Made<()> {
    for name in schema.entity_type_names() {
        writeln!(told.text, "type {name}")?;
    }
    for name in schema.actions() {
        writeln!(told.text, "action {name}")?;
    }
    Ok(())
}

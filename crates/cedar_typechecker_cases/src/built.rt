//! The built schemas of the rows.

ghost use Rattle.std.specs.Prelude.{IfOk};
ghost use Rattle.cedar_schema_built.specs.Views.{schema_kept};
ghost use Rattle.cedar_typechecker_model.specs.Seen.{IsClosed};

use cedar_expr_functions::Extensions;
use cedar_expr_leaves::ConditionalName;
use cedar_schema_builder::SchemaError;
use cedar_schema_built::ValidatorSchema;
use cedar_schema_examples::fragment;
use cedar_schema_fragments::{FragmentError, ValidatorSchemaFragment};
use cedar_typechecker::laws::built_schemas_answer_alike;
use std::alloc::Global;

// The schema of the fragment.
fn schema_of(
    alloc: Global,
    fragment: ValidatorSchemaFragment<ConditionalName, ConditionalName>,
    functions: &Extensions<'_>,
) -> Result<ValidatorSchema, SchemaError>
    ensures { IfOk result (λ s. IsClosed (schema_kept s)) }
{
    built_schemas_answer_alike();
    let fragments = vec![in alloc; fragment]?;
    let schema = ValidatorSchema::from_schema_fragments(alloc, fragments, functions)?;
    Ok(schema)
}

// The fragment of these lines, as `cedar_schema_examples` reads them. Fails where they are no fragment, and when out of memory.
fn written(
    alloc: Global,
    lines: &str,
) -> Result<ValidatorSchemaFragment<ConditionalName, ConditionalName>, FragmentError> {
    let fragment = fragment(alloc, lines)?;
    ValidatorSchemaFragment::from_schema_fragment(alloc, fragment)
}

/// The schema of these lines. Fails where they declare none, and when out of memory.
pub(crate) fn built(
    alloc: Global,
    lines: &str,
    functions: &Extensions<'_>,
) -> Result<ValidatorSchema, SchemaError>
    ensures { IfOk result (λ s. IsClosed (schema_kept s)) }
{
    let fragment = written(alloc, lines)?;
    schema_of(alloc, fragment, functions)
}

//! A built schema with a table of extension functions.

ghost use Rattle.cedar_schema_built.specs.Views.{schema_kept};
ghost use Rattle.cedar_typechecker.specs.Types.{AreTypesOf};
ghost use Rattle.cedar_typechecker_model.specs.Seen.{ClosedByTests, IsKeptOnce};

use crate::action_types::ActionTypes;
use cedar_expr_functions::Extensions;
use cedar_schema_built::ValidatorSchema;
use cedar_schema_built::laws::schemas_are_in_order;
use std::alloc::{AllocError, Global};

/// A built schema with a table of extension functions, and what is asked often of the types of its actions.
#[derive(Drop)]
pub struct SchemaAndFunctions<'s, 't, 'e> {
    pub(crate) schema: &'s ValidatorSchema,
    pub(crate) functions: &'t Extensions<'e>,
    pub(crate) action_types: ActionTypes,
    ghost closed: { ClosedByTests (schema_kept schema.now) },
    ghost once: { IsKeptOnce (schema_kept schema.now) },
    ghost typed: { AreTypesOf (schema_kept schema.now).actions action_types },
}

impl<'s, 't, 'e> SchemaAndFunctions<'s, 't, 'e> {
    ghost use Rattle.std.specs.Prelude.{◌≡◌, IfOk};
    ghost use Rattle.cedar_expr_functions.specs.Tables.{table_of};
    ghost use Rattle.cedar_typechecker.specs.SchemaViews.{schema_of, table_seen, silent};
    ghost use Rattle.cedar_typechecker_model.specs.Seen.{schema_seen, IsClosed};

    /// The schema with the table. What the schema keeps has to be closed under descent: `laws` says that each schema that is built of
    /// fragments is. Fails only when out of memory.
    pub fn new(
        alloc: Global,
        schema: &'s ValidatorSchema,
        functions: &'t Extensions<'e>,
    ) -> Result<SchemaAndFunctions<'s, 't, 'e>, AllocError>
        requires { IsClosed (schema_kept schema.now) }
        ensures schema { IfOk result (λ s. schema_of s ≡ schema_seen (schema_kept schema.entry.now)) }
        ensures table { IfOk result (λ s. table_seen s ≡ table_of functions.entry.now silent) }
    {
        schemas_are_in_order(schema);
        let action_types = ActionTypes::of_actions(alloc, schema.action_ids())?;
        Ok(SchemaAndFunctions {
            schema,
            functions,
            action_types,
        })
    }
}

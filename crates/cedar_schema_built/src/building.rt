//! A schema built of fragments.

ghost use Rattle.std.specs.Prelude.{IfOk, IfErr};
ghost use Rattle.cedar_schema_model.specs.Declarations.{Declarations};
ghost use Rattle.cedar_schema_fragments.specs.WrittenDeclarations.{AreWritten};
ghost use Rattle.cedar_schema_builder.specs.Built.{IsFaultOf, NamesFaultOf};
ghost use Rattle.cedar_schema_builder.specs.Extensions.{types_given};
ghost use Rattle.cedar_schema_builder.specs.Faults.{Tells};
ghost use Rattle.cedar_schema_builder.specs.OfFragments.{IsFaultInFragments};
ghost use Rattle.cedar_schema_built.specs.BuiltOf.{IsBuiltOf, IsBuiltOfFormed};
ghost use Rattle.cedar_schema_built.specs.Listed.{schema_listed, AreListed, HasNamesOf};
ghost use Rattle.cedar_schema_built.specs.Views.{schema_kept};

use crate::laws::{listed_are_declared, new_keeps_the_schema};
use crate::names::SchemaNames;
use crate::schema::ValidatorSchema;
use cedar_expr_functions::Extensions;
use cedar_expr_leaves::ConditionalName;
use cedar_schema_builder::laws::extension_types_are_a_set;
use cedar_schema_builder::{SchemaError, extension_types, schema_parts};
use cedar_schema_fragments::ValidatorSchemaFragment;
use std::alloc::Global;

impl ValidatorSchema {
    /// The schema of the declarations that these fragments write, where these are well-formed and the extension types that they name
    /// are given by the table. It lists the common types that are declared and the namespaces in which anything is, in the order of
    /// their names, each once. Refuses the fragments else, with a fault that is there and under the name of what is at fault, and
    /// fails when out of memory. Of fragments that no declarations write it builds what their names mean by what is declared in them,
    /// under the same conditions, and refuses them else with what is at fault in them.
    pub fn from_schema_fragments(
        alloc: Global,
        fragments: Vec<ValidatorSchemaFragment<ConditionalName, ConditionalName>>,
        extensions: &Extensions<'_>,
    ) -> Result<ValidatorSchema, SchemaError>
        ensures built { IfOk result (λ s. IsBuiltOf (types_given extensions.now) fragments.items (schema_kept s)) }
        ensures formed { IfOk result (λ s. IsBuiltOfFormed (types_given extensions.now) fragments.items (schema_kept s)) }
        ensures listed { IfOk result (λ s. AreListed fragments.items (schema_listed s)) }
        ensures declared { IfOk result (λ s. (d : Declarations) → AreWritten fragments.items d → HasNamesOf d (schema_listed s)) }
        ensures refused { IfErr result (Tells (IsFaultOf (types_given extensions.now) fragments.items)) }
        ensures named { IfErr result (NamesFaultOf (types_given extensions.now) fragments.items) }
        ensures at_fault { IfErr result (IsFaultInFragments (types_given extensions.now) fragments.items) }
    {
        new_keeps_the_schema();
        extension_types_are_a_set();
        listed_are_declared();
        let names = SchemaNames::of_fragments(alloc, &fragments)?;
        let types = extension_types(alloc, extensions)?;
        match schema_parts(alloc, fragments, &types) {
            Ok(parts) => {
                let schema = ValidatorSchema::new(alloc, parts.entity_types, parts.actions)?;
                Ok(schema.with_names(names))
            }
            Err(error) => Err(error),
        }
    }
}

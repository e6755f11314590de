//! What reads the entities of rows.

ghost use Rattle.std.specs.Prelude.{◌≡◌, IfOk, IfErr, Some, None};
ghost use Rattle.cedar_evaluator_model.specs.Functions.{Functions};
ghost use Rattle.cedar_gate_bundles.specs.Written.{entity_pair_made, entity_read_made};
ghost use Rattle.cedar_gate_expressions.specs.declared.fault.ReadFault.TheVariants.{Unreadable};
ghost use Rattle.serde_json.specs.View.{view};

use cedar_expr_functions::Extensions;
use cedar_gate_bundles::{ReadFault, read_entity};
use cedar_store_entities::Entity;
use serde_json::Value;
use std::alloc::Global;

/// What reads entities, in the JSON of a bundle's store: a table of extension functions, by which their values are evaluated.
pub trait EntityReader {
    /// The functions by which it is said to read.
    ghost functions: { Self → Functions };
    /// It reads by these.
    ghost agrees: { Self → Type 0 };

    /// Reads an entity.
    ///
    /// # Errors
    /// `Unreadable` where the value is no entity, and `OutOfMemory`.
    fn read(&self, alloc: Global, value: &Value) -> Result<Entity, ReadFault>
        ensures ok { IfOk result (λ e. agrees self.now → entity_read_made (functions self.now) (view value.now) ≡ Some (entity_pair_made e)) }
        ensures unreadable { IfErr result (λ f. f ≡ Unreadable → agrees self.now → entity_read_made (functions self.now) (view value.now) ≡ None) };
}

/// A table whose functions give no value, as one that has none, is known to read by them. A caller with other functions says by a type of its
/// own, around the table, which these are.
impl EntityReader for Extensions<'_> {
    ghost use Rattle.cedar_database_host.specs.Reading.{faulting, NeverGives};

    ghost functions = { faulting };

    ghost agrees = { NeverGives };

    fn read(&self, alloc: Global, value: &Value) -> Result<Entity, ReadFault> {
        read_entity(alloc, self, value)
    }
}

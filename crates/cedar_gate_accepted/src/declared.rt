//! The schema of declarations that are handed to the gate.

ghost use Rattle.std.specs.Prelude.{◌≡◌, false, List, IfOk, IfErr};
ghost use Rattle.cedar_expr_model.specs.Name.{Name};
ghost use Rattle.cedar_gate_accepted.specs.Refused.{IsSubmittedWith, IsCompleteWhere};
ghost use Rattle.cedar_gate_accepted.specs.Causes.{IsRefusedFor};
ghost use Rattle.cedar_gate_fragments.specs.Written.{declared_by};
ghost use Rattle.cedar_gate_model.specs.Acceptance.{Submission};
ghost use Rattle.cedar_schema_builder.specs.Extensions.{types_given};
ghost use Rattle.cedar_schema_builder.specs.Faults.{Tells};
ghost use Rattle.cedar_schema_built.specs.Views.{schema_kept};
ghost use Rattle.cedar_schema_fragments.specs.WrittenDeclarations.{AreWritten};
ghost use Rattle.cedar_schema_model.specs.KeptOf.{IsKeptOf};
ghost use Rattle.cedar_schema_model.specs.BagLaws.{HasSchemaFault};
ghost use Rattle.cedar_schema_model.specs.Resolved.{schema_of};
ghost use Rattle.cedar_schema_model.specs.WellFormed.{unresolved_external, has_schema_fault, IsWellFormed};

use crate::fault::GateFault;
use cedar_expr_functions::Extensions;
use cedar_expr_leaves::{ConditionalName, RawName};
use cedar_gate_fragments::fragments_of;
use cedar_schema_builder::SchemaError;
use cedar_schema_built::ValidatorSchema;
use cedar_schema_built::laws::external_declarations_are_refused;
use cedar_schema_decl::json_schema::Fragment;
use cedar_schema_fragments::ValidatorSchemaFragment;
use cedar_schema_fragments::laws::fragments_are_written;
use cedar_schema_model::decl_laws::declarations_are_decided;
use std::alloc::Global;

// The fragments under full names. Refuses a reserved name where none may stand.
#[tactic(auto, using(crate::proofs::Building::as_written))]
fn qualified(
    alloc: Global,
    fragments: &[Fragment<RawName>],
) -> Result<Vec<ValidatorSchemaFragment<ConditionalName, ConditionalName>>, SchemaError>
    ensures written { IfOk result (λ fs. AreWritten fs.items (declared_by fragments.now)) }
    ensures refused { (x : List Name) → IfErr result (Tells (HasSchemaFault x (declared_by fragments.now))) }
{
    fragments_are_written();
    match fragments_of(alloc, fragments) {
        Ok(fragments) => Ok(fragments),
        Err(error) => Err(SchemaError::from(error)),
    }
}

// The schema of well-formed declarations. Refuses others.
fn built(
    alloc: Global,
    fragments: &[Fragment<RawName>],
    table: &Extensions<'_>,
) -> Result<ValidatorSchema, SchemaError>
    ensures formed { IfOk result (λ _. IsWellFormed (types_given table.now) (declared_by fragments.now)) }
    ensures kept { IfOk result (λ s. IsKeptOf (schema_of (declared_by fragments.now)) (schema_kept s)) }
    ensures complete { IfOk result (λ s. IsCompleteWhere (types_given table.now) (declared_by fragments.now) (schema_kept s)) }
    ensures refused { IfErr result (Tells (HasSchemaFault (types_given table.now) (declared_by fragments.now))) }
{
    external_declarations_are_refused();
    declarations_are_decided();
    let fragments = qualified(alloc, fragments)?;
    match ValidatorSchema::from_schema_fragments(alloc, fragments, table) {
        Ok(schema) => Ok(schema),
        Err(error) => Err(error),
    }
}

/// The schema of the declarations that these fragments write, where they are well-formed with the extension types that the table's
/// functions give, and none is external.
///
/// # Errors
/// Out of memory, or a fault of the declarations: one that makes them ill-formed, or an external declaration.
#[tactic(auto, using(crate::proofs::Building::external_refused))]
pub fn declared_schema(
    alloc: Global,
    fragments: &[Fragment<RawName>],
    table: &Extensions<'_>,
) -> Result<ValidatorSchema, GateFault>
    ensures formed { IfOk result (λ _. IsWellFormed (types_given table.now) (declared_by fragments.now)) }
    ensures complete { IfOk result (λ _. has_schema_fault (types_given table.now) (declared_by fragments.now) unresolved_external ≡ false) }
    ensures kept { IfOk result (λ s. IsKeptOf (schema_of (declared_by fragments.now)) (schema_kept s)) }
    ensures refused { (s : Submission) → IsSubmittedWith (types_given table.now) (declared_by fragments.now) s → IfErr result (IsRefusedFor s) }
{
    declarations_are_decided();
    match built(alloc, fragments, table) {
        Ok(schema) => {
            if schema.is_complete() {
                Ok(schema)
            } else {
                Err(GateFault::External)
            }
        }
        Err(error) => Err(GateFault::from(error)),
    }
}

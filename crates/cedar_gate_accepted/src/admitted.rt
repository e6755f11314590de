//! What is asked before typing.

ghost use Rattle.std.specs.Prelude.{◌≡◌, true, IfOk, IfErr, OnOk};
ghost use Rattle.cedar_gate_accepted.specs.Handed.{IsSeenBy, IsHandedOver};
ghost use Rattle.cedar_gate_accepted.specs.Untyped.{admits_untyped, is_clear_of_all, scope_causes};
ghost use Rattle.cedar_gate_accepted.specs.Causes.{IsRefusedFor, RefusesFor};
ghost use Rattle.cedar_gate_fragments.specs.Written.{declared_by};
ghost use Rattle.cedar_gate_model.specs.Acceptance.{Submission};
ghost use Rattle.cedar_gate_rules.specs.Policies.{policies_of};
ghost use Rattle.cedar_schema_built.specs.Views.{schema_kept};
ghost use Rattle.cedar_schema_model.specs.KeptOf.{IsKeptOf};
ghost use Rattle.cedar_schema_model.specs.Resolved.{schema_of};
ghost use Rattle.cedar_typechecker_model.specs.Seen.{schema_seen, IsClosed};

use crate::declared_schema;
use crate::fault::GateFault;
use crate::names::check_names;
use crate::plain::check_policies;
use cedar_expr_functions::Extensions;
use cedar_expr_leaves::RawName;
use cedar_gate_rules::NestLimit;
use cedar_schema_built::ValidatorSchema;
use cedar_schema_decl::json_schema::Fragment;
use cedar_schema_model::decl_laws::declarations_are_decided;
use cedar_store_policies::Policy;
use cedar_typechecker::SchemaAndFunctions;
use cedar_typechecker_model::alike_laws::seen_schemas_answer_alike;
use std::alloc::Global;

// Checks the scope rules by a built schema.
fn check_by(
    alloc: Global,
    schema: &ValidatorSchema,
    table: &Extensions<'_>,
    policies: &[Policy],
) -> Result<(), GateFault>
    requires { IsClosed (schema_kept schema.now) }
    ensures kept { (s : Submission) → IsSeenBy (schema_seen (schema_kept schema.now)) (policies_of policies.now) s → OnOk result (is_clear_of_all scope_causes s ≡ true) }
    ensures refused { (s : Submission) → IsSeenBy (schema_seen (schema_kept schema.now)) (policies_of policies.now) s → RefusesFor s result }
{
    let asked = SchemaAndFunctions::new(alloc, schema, table)?;
    check_names(alloc, &asked, policies)
}

/// The schema of the declarations that these fragments write, where what is handed in is clear of the rules that are asked before
/// typing: of declarations, of policies by themselves, and the scope rules.
///
/// # Errors
/// Out of memory, or a fault of what is handed in, by the first rule that is broken.
#[tactic(auto, using(crate::proofs::ChecksTogether::as_policies))]
pub fn admitted_schema(
    alloc: Global,
    fragments: &[Fragment<RawName>],
    policies: &[Policy],
    table: &Extensions<'_>,
    limit: NestLimit,
) -> Result<ValidatorSchema, GateFault>
    ensures admitted { (s : Submission) → IsHandedOver fragments.now policies.now table.now limit s → OnOk result (admits_untyped s ≡ true) }
    ensures kept { IfOk result (λ s. IsKeptOf (schema_of (declared_by fragments.now)) (schema_kept s)) }
    ensures refused { (s : Submission) → IsHandedOver fragments.now policies.now table.now limit s → IfErr result (IsRefusedFor s) }
{
    seen_schemas_answer_alike();
    declarations_are_decided();
    let schema = declared_schema(alloc, fragments, table)?;
    check_policies(alloc, policies, limit)?;
    check_by(alloc, &schema, table, policies)?;
    Ok(schema)
}

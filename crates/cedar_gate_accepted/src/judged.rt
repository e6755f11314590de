//! The two rules that typing and levels decide.

ghost use Rattle.std.specs.Prelude.{◌≡◌, IfOk, OnOk};
ghost use Rattle.cedar_gate_accepted.specs.Checked.{IsTypedBy, IsJudgedBy, IsClearOfTyping, IsTypedWith, WarnsOf};
ghost use Rattle.cedar_gate_accepted.specs.Causes.{RefusesFor};
ghost use Rattle.cedar_gate_model.specs.Acceptance.{Submission};
ghost use Rattle.cedar_gate_rules.specs.Policies.{policies_of};
ghost use Rattle.cedar_schema_built.specs.Views.{schema_kept};
ghost use Rattle.cedar_typechecker_model.specs.Seen.{IsClosed};

use crate::checked::{Checked, check_all};
use crate::fault::GateFault;
use cedar_expr_functions::Extensions;
use cedar_schema_built::ValidatorSchema;
use cedar_store_parts::PolicyID;
use cedar_store_policies::Policy;
use cedar_typechecker::SchemaAndFunctions;
use cedar_typechecker_model::alike_laws::{levels_are_alike, verdicts_are_alike};
use cedar_typechecker_scopes::SchemaEnvironments;
use std::alloc::Global;

// The ids to warn of, if each policy passes and none reaches too far.
#[tactic(auto, using(crate::proofs::Judging::clear_of_typing, crate::proofs::Judging::ill_typed_refused, crate::proofs::Judging::too_far_refused))]
fn judged(checked: Checked) -> Result<Vec<PolicyID>, GateFault>
    ensures kept { (s : Submission) → IsJudgedBy s checked → OnOk result (IsClearOfTyping s) }
    ensures warnings { IfOk result (λ ws. ws ≡ checked.warnings) }
    ensures refused { (s : Submission) → IsJudgedBy s checked → RefusesFor s result }
{
    if !checked.passes {
        return Err(GateFault::IllTyped);
    }
    if !checked.violations.is_empty() {
        return Err(GateFault::Level(checked.violations));
    }
    Ok(checked.warnings)
}

// Checks that each of these policies passes, and then that none reaches further than the level, by a schema that answers as that of
// the declarations does. Answers the ids to warn of.
#[tactic(auto, using(crate::proofs::Judging::judged_by))]
fn judge_by<S: SchemaEnvironments>(
    alloc: Global,
    schema: &S,
    level: u32,
    policies: &[Policy],
) -> Result<Vec<PolicyID>, GateFault>
    ensures kept { (s : Submission) → IsTypedBy (S.schema schema.now) (S.table schema.now) (policies_of policies.now) level s → OnOk result (IsClearOfTyping s) }
    ensures warnings { (s : Submission) → IsTypedBy (S.schema schema.now) (S.table schema.now) (policies_of policies.now) level s → IfOk result (WarnsOf s) }
    ensures refused { (s : Submission) → IsTypedBy (S.schema schema.now) (S.table schema.now) (policies_of policies.now) level s → RefusesFor s result }
{
    verdicts_are_alike();
    levels_are_alike();
    let checked = check_all(alloc, schema, level, policies)?;
    judged(checked)
}

/// Checks by a built schema and a table that each of these policies passes, and then that none reaches further than the level. Answers the
/// ids to warn of.
pub fn judge(
    alloc: Global,
    schema: &ValidatorSchema,
    table: &Extensions<'_>,
    level: u32,
    policies: &[Policy],
) -> Result<Vec<PolicyID>, GateFault>
    requires { IsClosed (schema_kept schema.now) }
    ensures kept { (s : Submission) → IsTypedWith schema.now table.now policies.now level s → OnOk result (IsClearOfTyping s) }
    ensures warnings { (s : Submission) → IsTypedWith schema.now table.now policies.now level s → IfOk result (WarnsOf s) }
    ensures refused { (s : Submission) → IsTypedWith schema.now table.now policies.now level s → RefusesFor s result }
{
    let asked = SchemaAndFunctions::new(alloc, schema, table)?;
    judge_by(alloc, &asked, level, policies)
}

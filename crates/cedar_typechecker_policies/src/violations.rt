//! Where policies reach too far.

ghost use Rattle.std.specs.Prelude.{◌∷◌, [], map, Some, OnOk};
ghost use Rattle.cedar_store_parts.specs.Parts.{id_text};
ghost use Rattle.cedar_typechecker_environments.specs.Settings.{setting_of};
ghost use Rattle.cedar_typechecker_levels.specs.Marked.{typed_violations};
ghost use Rattle.cedar_typechecker_levels.specs.Views.{violation_of};
ghost use Rattle.cedar_typechecker_policies.specs.Violations.{level_of, AddsReached, AddsChecked, reached_in, AddsReachedBy};

use crate::checked::Checked;
use cedar_expr_trees::Expr;
use cedar_schema_types::Type;
use cedar_store_parts::PolicyID;
use cedar_typechecker_environments::{TypingSchema, World};
use cedar_typechecker_levels::{EntityDerefLevel, LevelViolation, level_violations};
use cedar_typechecker_model::typed_laws::{counted_on_marks, typed_as_judged};
use std::alloc::{AllocError, Global};

/// Where the condition of a policy reaches too far.
#[derive(Debug, Drop)]
pub struct PolicyViolation {
    /// The policy's id.
    pub policy_id: PolicyID,
    /// The expression, with the types of its parts.
    pub expr: Expr<Option<Type>>,
    /// The level that it needs, if any level allows it; 4294967296 stands for any greater level.
    pub required: Option<u64>,
}

// Appends the violation of the policy to those that were found.
fn add_violation(
    found: &mut Vec<PolicyViolation>,
    policy_id: &PolicyID,
    violation: &LevelViolation<'_>,
) -> Result<(), AllocError>
    ensures { OnOk result (AddsReached found.old found.new (reached_in (id_text policy_id.now) (violation_of violation.now) ∷ [])) }
{
    let policy_id = policy_id.clone()?;
    let expr = violation.at.clone()?;
    found.push(PolicyViolation {
        policy_id,
        expr,
        required: violation.required,
    })?;
    Ok(())
}

// Appends these violations of the policy to those that were found.
fn add_violations(
    found: &mut Vec<PolicyViolation>,
    policy_id: &PolicyID,
    violations: &[LevelViolation<'_>],
) -> Result<(), AllocError>
    ensures { OnOk result (AddsReached found.old found.new (map (λ v. reached_in (id_text policy_id.now) (violation_of v)) violations.now)) }
{
    for violation in violations {
        add_violation(found, policy_id, violation)?;
    }
    Ok(())
}

// Appends the violations of the policy's typed condition at the level to those that were found.
fn add_reached<S: TypingSchema>(
    alloc: Global,
    world: &World<'_, S>,
    level: EntityDerefLevel,
    policy_id: &PolicyID,
    typed: &Expr<Option<Type>>,
    found: &mut Vec<PolicyViolation>,
) -> Result<(), AllocError>
    ensures { OnOk result (AddsReachedBy policy_id.now found.old found.new (typed_violations level.level (setting_of S.schema S.table world.now) typed.now)) }
{
    let violations = level_violations(alloc, world, level, typed)?;
    add_violations(found, policy_id, violations.as_slice())?;
    Ok(())
}

// Appends the violations of the policy's condition at the level, if there is one and the condition has a type, to those that were found.
pub(crate) fn add_reached_of<S: TypingSchema>(
    alloc: Global,
    world: &World<'_, S>,
    level: Option<EntityDerefLevel>,
    policy_id: &PolicyID,
    checked: &Checked,
    found: &mut Vec<PolicyViolation>,
) -> Result<(), AllocError>
    ensures { OnOk result (AddsChecked (level_of level) (setting_of S.schema S.table world.now) policy_id.now checked.now found.old found.new) }
{
    typed_as_judged();
    counted_on_marks();
    let Some(level) = level else {
        return Ok(());
    };
    match &checked.typed {
        Some(typed) => {
            add_reached(alloc, world, level, policy_id, typed, found)?;
            Ok(())
        }
        None => Ok(()),
    }
}

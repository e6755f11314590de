//! What typing and levels say of a policy over its environments.

ghost use Rattle.std.specs.Prelude.{◌≡◌, true, not, ◌&&◌, ◌||◌, ◌++◌, [], map, IfOk, OnOk};
ghost use Rattle.cedar_schema_joins.specs.Modes.{mode_of};
ghost use Rattle.cedar_store_policies.specs.Templates.{template_of};
ghost use Rattle.cedar_typechecker_environments.specs.Settings.{environment_of};
ghost use Rattle.cedar_typechecker_policies.specs.Findings.{ChecksOverAll, ChecksOneMore, SubjectChecks, SubjectFinds};
ghost use Rattle.cedar_typechecker_policies.specs.Violations.{level_of};
ghost use Rattle.cedar_typechecker_scopes.specs.Environments.{AreOfSchema};

use crate::bindings::fits;
use crate::checked::check_condition;
use crate::fast::clear_verdict;
use crate::verdict::Verdict;
use crate::violations::{PolicyViolation, add_reached_of};
use cedar_schema_joins::ValidationMode;
use cedar_store_parts::{PolicyID, SlotEnv, ValidationError};
use cedar_store_policies::Template;
use cedar_typechecker_environments::{RequestEnv, TypingSchema, World};
use cedar_typechecker_levels::EntityDerefLevel;
use cedar_typechecker_scopes::{SchemaEnvironments, policy_environments_by};
use std::alloc::{AllocError, Global};

/// A policy that is checked.
#[derive(Clone, Copy)]
pub struct Subject<'a> {
    /// Its id.
    pub id: &'a PolicyID,
    /// Its template.
    pub template: &'a Template,
    /// What its slots are bound to.
    pub bound: &'a SlotEnv,
    /// The level beyond which it may not reach, if that is asked.
    pub level: Option<EntityDerefLevel>,
}

/// What typing and levels say of a policy.
#[derive(Drop)]
pub struct PolicyFindings {
    /// Whether its condition is True, False or Bool in each environment.
    pub passes: bool,
    /// Whether its condition is False in each environment.
    pub is_warned: bool,
    /// Whether its condition is False in each environment that fits what its slots are bound to.
    pub is_impossible: bool,
    /// What is wrong with it by typing.
    pub errors: Vec<ValidationError>,
    /// Where it reaches further than the level, if there is one, in each environment in which its condition has a type.
    pub violations: Vec<PolicyViolation>,
}

// Nothing said yet.
fn nothing_found(alloc: Global) -> PolicyFindings
    ensures passes { result.passes ≡ true }
    ensures warned { result.is_warned ≡ true }
    ensures impossible { result.is_impossible ≡ true }
    ensures errors { result.errors.items ≡ [] }
    ensures violations { result.violations.items ≡ [] }
{
    PolicyFindings {
        passes: true,
        is_warned: true,
        is_impossible: true,
        errors: Vec::new(alloc),
        violations: Vec::new(alloc),
    }
}

// Appends these errors to those that were found.
pub(crate) fn add_errors(
    found: &mut Vec<ValidationError>,
    errors: Vec<ValidationError>,
) -> Result<(), AllocError>
    ensures { OnOk result (found.new.items ≡ found.old.items ++ errors.items) }
{
    for error in errors {
        found.push(error)?;
    }
    Ok(())
}

// Adds the verdict of one more environment, which fits what the slots are bound to or doesn't.
fn add_verdict(found: &mut PolicyFindings, verdict: Verdict, fits: bool)
    ensures passes { found.new.passes ≡ (found.old.passes && verdict.is_bool) }
    ensures warned { found.new.is_warned ≡ (found.old.is_warned && verdict.is_false) }
    ensures impossible { found.new.is_impossible ≡ (found.old.is_impossible && (not fits || verdict.is_false)) }
    ensures errors { found.new.errors ≡ found.old.errors }
    ensures violations { found.new.violations ≡ found.old.violations }
{
    found.passes = found.passes && verdict.is_bool;
    found.is_warned = found.is_warned && verdict.is_false;
    found.is_impossible = found.is_impossible && (!fits || verdict.is_false);
}

// Adds what typing and levels say of the policy in one more environment.
fn add_environment<S: TypingSchema>(
    alloc: Global,
    schema: &S,
    mode: ValidationMode,
    policy: &Subject<'_>,
    env: &RequestEnv,
    found: &mut PolicyFindings,
) -> Result<(), AllocError>
    ensures { OnOk result (ChecksOneMore S.schema S.table schema.now (mode_of mode) policy.now (environment_of env.now) found.old found.new) }
{
    let world = World { schema, mode, env };
    let condition = policy.template.condition();
    if let Some(verdict) = clear_verdict(alloc, &world, policy.level, condition)? {
        add_verdict(found, verdict, fits(policy.bound, env));
        return Ok(());
    }
    let checked = check_condition(alloc, &world, policy.id, condition)?;
    add_verdict(found, checked.verdict, fits(policy.bound, env));
    let violations = &mut found.violations;
    add_reached_of(alloc, &world, policy.level, policy.id, &checked, violations)?;
    add_errors(&mut found.errors, checked.errors)?;
    Ok(())
}

// What typing and levels say of the policy over these environments.
#[tactic(auto, using(crate::proofs::Over::checks_none))]
fn check_over<S: TypingSchema>(
    alloc: Global,
    schema: &S,
    mode: ValidationMode,
    policy: &Subject<'_>,
    envs: &[RequestEnv],
) -> Result<PolicyFindings, AllocError>
    ensures { IfOk result (SubjectChecks S.schema S.table schema.now (mode_of mode) policy.now (map environment_of envs.now)) }
{
    let mut found = nothing_found(alloc);
    for env in envs {
        add_environment(alloc, schema, mode, policy, env, &mut found)?;
    }
    Ok(found)
}

/// What typing and levels say of the policy in a mode: its condition is typed once in each of its environments. Fails only when out of memory.
pub fn check_policy<S: SchemaEnvironments>(
    alloc: Global,
    schema: &S,
    mode: ValidationMode,
    policy: &Subject<'_>,
) -> Result<PolicyFindings, AllocError>
    ensures { IfOk result (SubjectFinds S.schema S.table schema.now (mode_of mode) policy.now) }
{
    let own = schema.environments(alloc)?;
    check_policy_by(alloc, schema, own.as_slice(), mode, policy)
}

/// What typing and levels say of the policy in a mode, where these are the environments of the schema. Fails only when out of memory.
pub fn check_policy_by<S: SchemaEnvironments>(
    alloc: Global,
    schema: &S,
    own: &[RequestEnv],
    mode: ValidationMode,
    policy: &Subject<'_>,
) -> Result<PolicyFindings, AllocError>
    ensures { AreOfSchema (S.schema schema.now) own.now → IfOk result (SubjectFinds S.schema S.table schema.now (mode_of mode) policy.now) }
{
    let envs = policy_environments_by(alloc, schema, own, policy.template)?;
    check_over(alloc, schema, mode, policy, envs.as_slice())
}

// What typing says of the template in a mode, and levels where there is one.
pub(crate) fn check_template<S: SchemaEnvironments>(
    alloc: Global,
    schema: &S,
    mode: ValidationMode,
    template: &Template,
    level: Option<EntityDerefLevel>,
) -> Result<PolicyFindings, AllocError>
    ensures { IfOk result (ChecksOverAll (level_of level) (mode_of mode) (S.schema schema.now) (S.table schema.now) (template_of template.now)) }
{
    let bound = SlotEnv::new();
    let policy = Subject {
        id: template.id(),
        template,
        bound: &bound,
        level,
    };
    check_policy(alloc, schema, mode, &policy)
}

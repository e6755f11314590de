//! What typing and levels say of policies, together.

ghost use Rattle.std.specs.Prelude.{◌≡◌, ◌&&◌, ◌++◌, ◌∷◌, [], map, Some, if◌then◌else◌, IfOk, OnOk};
ghost use Rattle.cedar_gate_accepted.specs.Checked.{ChecksAll, ChecksOneMore, AddsIds};
ghost use Rattle.cedar_gate_rules.specs.Policies.{policies_of};
ghost use Rattle.cedar_schema_model.specs.Types.{strict};
ghost use Rattle.cedar_typechecker_policies.specs.Findings.{ChecksOverAll};
ghost use Rattle.cedar_typechecker_policies.specs.Violations.{violation_told};
ghost use Rattle.cedar_typechecker_scopes.specs.Environments.{AreOfSchema};
ghost use Rattle.cedar_store_policies.specs.Policies.{policy_of};

use cedar_schema_joins::ValidationMode;
use cedar_store_parts::PolicyID;
use cedar_store_policies::{Policy, Template};
use cedar_typechecker_environments::RequestEnv;
use cedar_typechecker_levels::EntityDerefLevel;
use cedar_typechecker_policies::{PolicyFindings, PolicyViolation, Subject, check_policy_by};
use cedar_typechecker_scopes::SchemaEnvironments;
use std::alloc::{AllocError, Global};

// What typing and levels say of policies.
#[derive(Drop)]
pub(crate) struct Checked {
    // Whether each of them passes.
    pub(crate) passes: bool,
    // Where they reach too far.
    pub(crate) violations: Vec<PolicyViolation>,
    // The ids of the impossible ones.
    pub(crate) warnings: Vec<PolicyID>,
}

// Appends these violations to those that were found.
fn add_violations(
    found: &mut Vec<PolicyViolation>,
    violations: Vec<PolicyViolation>,
) -> Result<(), AllocError>
    ensures { OnOk result (map violation_told found.new.items ≡ map violation_told found.old.items ++ map violation_told violations.items) }
{
    for violation in violations {
        found.push(violation)?;
    }
    Ok(())
}

// Appends the policy's id to the warnings, if the policy is impossible.
fn add_warning(
    warnings: &mut Vec<PolicyID>,
    policy: &Policy,
    is_impossible: bool,
) -> Result<(), AllocError>
    ensures { OnOk result (AddsIds warnings.old warnings.new (if is_impossible then ((policy_of policy.now).id ∷ []) else [])) }
{
    if is_impossible {
        let id = policy.id().clone()?;
        warnings.push(id)?;
    }
    Ok(())
}

// Adds whether one more policy passes.
fn add_pass(checked: &mut Checked, passes: bool)
    ensures passes { checked.new.passes ≡ (checked.old.passes && passes) }
    ensures violations { checked.new.violations ≡ checked.old.violations }
    ensures warnings { checked.new.warnings ≡ checked.old.warnings }
{
    checked.passes = checked.passes && passes;
}

// What typing, in the strict way, and levels say of the policy.
fn findings_of<S: SchemaEnvironments>(
    alloc: Global,
    schema: &S,
    own: &[RequestEnv],
    level: u32,
    policy: &Policy,
) -> Result<PolicyFindings, AllocError>
    ensures { AreOfSchema (S.schema schema.now) own.now → IfOk result (ChecksOverAll (Some level) strict (S.schema schema.now) (S.table schema.now) (policy_of policy.now)) }
{
    let template: &Template = policy.template();
    let level = EntityDerefLevel::from(level);
    let subject = Subject {
        id: policy.id(),
        template,
        bound: policy.env(),
        level: Some(level),
    };
    check_policy_by(alloc, schema, own, ValidationMode::Strict, &subject)
}

// Adds what typing and levels say of one more policy.
fn add_policy<S: SchemaEnvironments>(
    alloc: Global,
    schema: &S,
    own: &[RequestEnv],
    level: u32,
    policy: &Policy,
    checked: &mut Checked,
) -> Result<(), AllocError>
    ensures { AreOfSchema (S.schema schema.now) own.now → OnOk result (ChecksOneMore level (S.schema schema.now) (S.table schema.now) (policy_of policy.now) checked.old checked.new) }
{
    let found = findings_of(alloc, schema, own, level, policy)?;
    add_warning(&mut checked.warnings, policy, found.is_impossible)?;
    add_pass(checked, found.passes);
    add_violations(&mut checked.violations, found.violations)?;
    Ok(())
}

// What typing and levels say of these policies: the condition of each is typed once in each of its environments. Fails only when
// out of memory.
pub(crate) fn check_all<S: SchemaEnvironments>(
    alloc: Global,
    schema: &S,
    level: u32,
    policies: &[Policy],
) -> Result<Checked, AllocError>
    ensures { IfOk result (ChecksAll level (S.schema schema.now) (S.table schema.now) (policies_of policies.now)) }
{
    let mut checked = Checked {
        passes: true,
        violations: Vec::new(alloc),
        warnings: Vec::new(alloc),
    };
    let envs = schema.environments(alloc)?;
    let own = envs.as_slice();
    for policy in policies {
        add_policy(alloc, schema, own, level, policy, &mut checked)?;
    }
    Ok(checked)
}

//! What is said of an accepted bundle: impossible policies, and the level that each policy needs.

use crate::findings::push_policy;
use crate::subjects::Subject;
use crate::typing::checked;
use cedar_schema_joins::ValidationMode;
use cedar_typechecker_environments::{RequestEnv, World};
use cedar_typechecker_policies::{PolicyViolation, check_in, fits};
use cedar_typechecker_scopes::{SchemaEnvironments, policy_environments};
use std::alloc::{AllocError, Global};
use std::fmt::Write;

/// Appends the lines of a policy: whether it is impossible, in which environments, and which level it needs.
pub fn push_lines<S: SchemaEnvironments>(
    alloc: Global,
    schema: &S,
    subject: &Subject<'_>,
    out: &mut String,
) -> Result<(), AllocError> {
    let found = checked(alloc, schema, subject, 0)?;
    if found.is_impossible {
        out.push_str("impossible")?;
        push_subject(out, subject)?;
    }
    for env in policy_environments(alloc, schema, &subject.template)? {
        push_environment(alloc, schema, subject, &env, out)?;
    }
    push_level(found.violations.as_slice(), out)?;
    push_subject(out, subject)
}

// Appends the line of an environment, if the policy is impossible there.
fn push_environment<S: SchemaEnvironments>(
    alloc: Global,
    schema: &S,
    subject: &Subject<'_>,
    env: &RequestEnv,
    out: &mut String,
) -> Result<(), AllocError> {
    let mode = ValidationMode::Strict;
    let world = World { schema, mode, env };
    if fits(subject.policy.env(), env)
        && check_in(alloc, &world, &subject.template)?.is_irrelevant()
    {
        let principal = env.principal_entity_type();
        let action = env.action_entity_uid();
        let resource = env.resource_entity_type();
        write!(out, "impossible for {principal} {action} {resource}")?;
        push_subject(out, subject)?;
    }
    Ok(())
}

// Appends the level that a policy needs, which has these violations at level 0.
fn push_level(violations: &[PolicyViolation], out: &mut String) -> Result<(), AllocError> {
    let mut level = Some(0u64);
    for violation in violations {
        level = match (level, violation.required) {
            (Some(level), Some(required)) => Some(level.max(required)),
            _ => None,
        };
    }
    match level {
        Some(level) => write!(out, "level {level}"),
        None => out.push_str("no level"),
    }
}

// Appends whose line it is, and where the policy is, and ends the line.
fn push_subject(out: &mut String, subject: &Subject<'_>) -> Result<(), AllocError> {
    push_policy(out, subject.policy.id())?;
    out.push_str(" at ")?;
    subject.push_path(out)?;
    out.push_str("\n")
}

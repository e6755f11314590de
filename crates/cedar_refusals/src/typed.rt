//! Policies that are typed and validated.

ghost use Rattle.cedar_schema_built.specs.Views.{schema_kept};
ghost use Rattle.cedar_typechecker_model.specs.Seen.{IsClosed};

use crate::schema::built;
use crate::told::{Made, Told};
use cedar_expr_functions::Extensions;
use cedar_gate_bundles::Bundle;
use cedar_schema_built::ValidatorSchema;
use cedar_store_parts::{ValidationError, ValidationMode, ValidationWarning};
use cedar_store_policies::{Policy, Template};
use cedar_typechecker::{Typechecker, Validated, Validator};
use std::alloc::{AllocError, Global};
use std::collections::HashSet;
use std::fmt::Write;

// What is wrong, and what is warned of, of all policies.
struct Found {
    errors: HashSet<ValidationError>,
    warnings: HashSet<ValidationWarning>,
}

// A drop of its own is one step to the proof of a function that owns it.
impl Drop for Found {
    fn drop(self) {
        let Found {
            errors: _,
            warnings: _,
        } = self;
    }
}

/// Types each policy of the bundle in the strict mode, and then validates it at the bundle's level.
pub fn make_calls(
    alloc: Global,
    bundle: Bundle,
    table: &Extensions<'_>,
    told: &mut Told,
) -> Made<()> {
    let submission = &bundle.submission;
    let Ok(schema) = built(alloc, submission.fragments.as_slice(), table, told) else {
        return Err(AllocError);
    };
    let policies = submission.policies.as_slice();
    typecheck(alloc, &schema, table, policies, told)?;
    validate(alloc, &schema, table, policies, submission.level, told)
}

// Types the policies, and says how many errors and warnings stand in the sets behind each.
fn typecheck(
    alloc: Global,
    schema: &ValidatorSchema,
    table: &Extensions<'_>,
    policies: &[Policy],
    told: &mut Told,
) -> Made<()>
    requires { IsClosed (schema_kept schema.now) }
{
    let checker = Typechecker::new(alloc, schema, ValidationMode::Strict, table)?;
    let mut found = Found {
        errors: HashSet::new(alloc),
        warnings: HashSet::new(alloc),
    };
    for policy in policies {
        let passes = typechecked(&checker, policy.template(), &mut found, told)?;
        let word = if passes { "passes" } else { "fails" };
        let (errors, warnings) = (found.errors.len(), found.warnings.len());
        writeln!(
            told.text,
            "{} {word}: {errors} errors, {warnings} warnings",
            policy.id().as_str()
        )?;
    }
    Ok(())
}

// Whether the policy passes. Out of memory it is asked again; both sets hold as much as before.
fn typechecked(
    checker: &Typechecker<'_, '_, '_>,
    policy: &Template,
    found: &mut Found,
    told: &mut Told,
) -> Made<bool> {
    let (errors, warnings) = (found.errors.len(), found.warnings.len());
    match checker.typecheck_policy(policy, &mut found.errors, &mut found.warnings) {
        Ok(passes) => Ok(passes),
        Err(_) => {
            let is_as_before = found.errors.len() == errors && found.warnings.len() == warnings;
            told.say_refused("typecheck_policy", is_as_before)?;
            checker.typecheck_policy(policy, &mut found.errors, &mut found.warnings)
        }
    }
}

// Validates the policies, and says how many errors and warnings each has.
fn validate(
    alloc: Global,
    schema: &ValidatorSchema,
    table: &Extensions<'_>,
    policies: &[Policy],
    level: u32,
    told: &mut Told,
) -> Made<()>
    requires { IsClosed (schema_kept schema.now) }
{
    let validator = Validator::new(alloc, schema, table)?;
    for policy in policies {
        let found = validated(&validator, policy.template(), level, told)?;
        let (errors, warnings) = (found.errors.len(), found.warnings.len());
        writeln!(
            told.text,
            "{} at level {level}: {errors} errors, {warnings} warnings",
            policy.id().as_str()
        )?;
    }
    Ok(())
}

// What is wrong with the policy at the level. Out of memory it is asked again.
fn validated(
    validator: &Validator<'_, '_, '_>,
    policy: &Template,
    level: u32,
    told: &mut Told,
) -> Made<Validated> {
    match validator.validate_policy_with_level(policy, ValidationMode::Strict, level) {
        Ok(found) => Ok(found),
        Err(_) => {
            told.say_again("validate_policy_with_level")?;
            validator.validate_policy_with_level(policy, ValidationMode::Strict, level)
        }
    }
}

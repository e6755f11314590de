//! Policies whose levels are counted.

ghost use Rattle.std.specs.Prelude.{◌≡◌, ◌++◌, map, IfOk, OnOk};
ghost use Rattle.cedar_schema_joins.specs.Modes.{mode_of};
ghost use Rattle.cedar_schema_model.specs.Types.{strict};
ghost use Rattle.cedar_store_policies.specs.Templates.{template_of};
ghost use Rattle.cedar_store_parts.specs.Views.{warning_of};
ghost use Rattle.cedar_typechecker_policies.specs.Found.{scope_blames};
ghost use Rattle.cedar_typechecker_policies.specs.Validated.{template_warnings, all_blames, HasErrors, HasWarnings, MeansTruthUnlessWrong, InReachUnlessWrong};
ghost use Rattle.cedar_typechecker_policies.specs.Violations.{blame_told};
ghost use Rattle.cedar_typechecker_scopes.specs.Faults.{blame_of};

use crate::findings::{PolicyFindings, add_errors, check_template};
use crate::policy::warning_for;
use crate::violations::PolicyViolation;
use cedar_schema_joins::ValidationMode;
use cedar_store_parts::{ValidationError, ValidationErrorKind, ValidationWarning};
use cedar_store_policies::Template;
use cedar_typechecker_levels::EntityDerefLevel;
use cedar_typechecker_scopes::{
    ScopeSchema, validate_action_ids, validate_entity_types, validate_enum_entity,
    validate_template_action_application,
};
use std::alloc::{AllocError, Global};

// What is said of the violation.
fn level_error(violation: PolicyViolation) -> ValidationError
    ensures { blame_of result ≡ blame_told violation }
{
    let PolicyViolation {
        policy_id,
        expr,
        required,
    } = violation;
    let source_loc = expr.source_loc();
    let kind = ValidationErrorKind::EntityDerefLevelViolation(required);
    ValidationError {
        policy_id,
        source_loc,
        kind,
    }
}

// Appends what is said of these violations to the errors.
fn add_violations(
    errors: &mut Vec<ValidationError>,
    violations: Vec<PolicyViolation>,
) -> Result<(), AllocError>
    ensures { OnOk result (map blame_of errors.new.items ≡ map blame_of errors.old.items ++ map blame_told violations.items) }
{
    for violation in violations {
        errors.push(level_error(violation))?;
    }
    Ok(())
}

/// What is wrong with a policy, and what is odd about it.
#[derive(Drop)]
pub struct Validated {
    /// What is wrong: by the scope rules, by typing, and then where it reaches too far.
    pub errors: Vec<ValidationError>,
    /// What is odd.
    pub warnings: Vec<ValidationWarning>,
}

// What the scope passes report of the policy.
fn scope_errors<S: ScopeSchema>(
    alloc: Global,
    schema: &S,
    template: &Template,
) -> Result<Vec<ValidationError>, AllocError>
    ensures { IfOk result (λ es. map blame_of es.items ≡ scope_blames (S.schema schema.now) (template_of template.now)) }
{
    let mut errors = validate_entity_types(alloc, schema, template)?;
    let members = validate_enum_entity(alloc, schema, template)?;
    let actions = validate_action_ids(alloc, schema, template)?;
    add_errors(&mut errors, members)?;
    add_errors(&mut errors, actions)?;
    Ok(errors)
}

// Appends these warnings to those that were found.
fn add_warnings(
    found: &mut Vec<ValidationWarning>,
    warnings: Vec<ValidationWarning>,
) -> Result<(), AllocError>
    ensures { OnOk result (found.new.items ≡ found.old.items ++ warnings.items) }
{
    for warning in warnings {
        found.push(warning)?;
    }
    Ok(())
}

// What is odd about the policy.
fn all_warnings<S: ScopeSchema>(
    alloc: Global,
    schema: &S,
    template: &Template,
    is_warned: bool,
) -> Result<Vec<ValidationWarning>, AllocError>
    ensures { IfOk result (λ ws. map warning_of ws.items ≡ template_warnings (S.schema schema.now) template.now is_warned) }
{
    let mut warnings = warning_for(alloc, template, is_warned)?;
    let further = validate_template_action_application(alloc, schema, template)?;
    add_warnings(&mut warnings, further)?;
    Ok(warnings)
}

// What is wrong with the policy, and what is odd about it, by what typing and levels say of it.
fn gathered<S: ScopeSchema>(
    alloc: Global,
    schema: &S,
    template: &Template,
    found: PolicyFindings,
) -> Result<Validated, AllocError>
    ensures errors { IfOk result (λ v. map blame_of v.errors.items ≡ all_blames (S.schema schema.now) (template_of template.now) found) }
    ensures warnings { IfOk result (λ v. map warning_of v.warnings.items ≡ template_warnings (S.schema schema.now) template.now found.is_warned) }
{
    let warnings = all_warnings(alloc, schema, template, found.is_warned)?;
    let mut errors = scope_errors(alloc, schema, template)?;
    add_errors(&mut errors, found.errors)?;
    add_violations(&mut errors, found.violations)?;
    Ok(Validated { errors, warnings })
}

/// What is wrong with the policy in a mode and at a level, and what is odd about it: what the scope passes report; what typing says, as
/// `typecheck_policy` does; and each violation of the rules of levels, in each environment in which its condition has a type, with the
/// level that it needs. Where nothing is wrong in the strict mode the condition means a truth value in every conforming request and store,
/// or errs as expected, and every uid that is looked up then lies in the slice at the level or is a declared action.
pub fn validate_policy_with_level<S: ScopeSchema>(
    alloc: Global,
    schema: &S,
    mode: ValidationMode,
    template: &Template,
    max_deref_level: EntityDerefLevel,
) -> Result<Validated, AllocError>
    ensures errors { IfOk result (HasErrors max_deref_level.level (mode_of mode) (S.schema schema.now) (S.table schema.now) template.now) }
    ensures warnings { IfOk result (HasWarnings (mode_of mode) (S.schema schema.now) (S.table schema.now) template.now) }
    ensures sound { mode_of mode ≡ strict → IfOk result (MeansTruthUnlessWrong (S.schema schema.now) (S.table schema.now) template.now) }
    ensures reach { mode_of mode ≡ strict → IfOk result (InReachUnlessWrong (S.schema schema.now) (S.table schema.now) max_deref_level.level template.now) }
{
    let found = check_template(alloc, schema, mode, template, Some(max_deref_level))?;
    gathered(alloc, schema, template, found)
}

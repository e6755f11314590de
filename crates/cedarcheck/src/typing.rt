//! Typing and levels.

use crate::findings::Finding;
use crate::kinds::fault_of;
use crate::subjects::Subject;
use cedar_schema_joins::ValidationMode;
use cedar_store_parts::ValidationErrorKind;
use cedar_typechecker_levels::EntityDerefLevel;
use cedar_typechecker_policies::{PolicyFindings, Subject as Checked, check_policy};
use cedar_typechecker_scopes::SchemaEnvironments;
use std::alloc::{AllocError, Global};

/// What typing and levels say of the policy, with places.
pub fn checked<S: SchemaEnvironments>(
    alloc: Global,
    schema: &S,
    subject: &Subject<'_>,
    level: u32,
) -> Result<PolicyFindings, AllocError> {
    let policy = Checked {
        id: subject.policy.id(),
        template: &subject.template,
        bound: subject.policy.env(),
        level: Some(EntityDerefLevel::from(level)),
    };
    check_policy(alloc, schema, ValidationMode::Strict, &policy)
}

/// Adds what typing and levels say of the policy.
pub fn add_typed<S: SchemaEnvironments>(
    alloc: Global,
    schema: &S,
    subject: &Subject<'_>,
    level: u32,
    found: &mut Vec<Finding>,
) -> Result<(), AllocError> {
    let checked = checked(alloc, schema, subject, level)?;
    let whole = subject.scope_blamed(alloc, found.as_slice())?;
    for error in checked.errors.as_slice() {
        let fault = fault_of(alloc, &error.kind)?;
        subject.add(alloc, found, fault, error.source_loc, whole)?;
    }
    for violation in checked.violations.as_slice() {
        let kind = ValidationErrorKind::EntityDerefLevelViolation(violation.required);
        let fault = fault_of(alloc, &kind)?;
        subject.add(alloc, found, fault, violation.expr.source_loc(), whole)?;
    }
    Ok(())
}

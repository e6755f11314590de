//! Texts of what is found.

use cedar_store_parts::{ValidationError, ValidationErrorKind, ValidationWarning};
use cedar_test_exprs::{say, show};
use cedar_typechecker::PolicyCheck;
use std::alloc::{AllocError, Global};

// The word for what is wrong.
fn word(kind: &ValidationErrorKind) -> &'static str {
    match kind {
        ValidationErrorKind::UnrecognizedEntityType(_) => "type",
        ValidationErrorKind::UnrecognizedActionId(_) => "action",
        ValidationErrorKind::InvalidEnumEntity(_) => "member",
        ValidationErrorKind::UnsafeAttributeAccess(_) => "unsafe",
        ValidationErrorKind::UndefinedFunction(_) => "function",
        ValidationErrorKind::UnexpectedType => "unexpected",
        ValidationErrorKind::IncompatibleTypes => "incompatible",
        ValidationErrorKind::UnsafeTagAccess => "unsafe tag",
        ValidationErrorKind::NoTagsAllowed => "no tags",
        ValidationErrorKind::WrongNumberArguments => "number",
        ValidationErrorKind::EmptySetForbidden => "empty",
        ValidationErrorKind::NonLitExtConstructor => "no literal",
        ValidationErrorKind::EntityDerefLevelViolation(Some(_)) => "level",
        ValidationErrorKind::EntityDerefLevelViolation(None) => "no level",
    }
}

// Says the name or the number of what is wrong, if it has one.
fn say_named(
    alloc: Global,
    said: &mut String,
    kind: &ValidationErrorKind,
) -> Result<(), AllocError> {
    match kind {
        ValidationErrorKind::UnrecognizedEntityType(ty) => show(alloc, said, ty),
        ValidationErrorKind::UnrecognizedActionId(uid) => show(alloc, said, uid),
        ValidationErrorKind::InvalidEnumEntity(uid) => show(alloc, said, uid),
        ValidationErrorKind::UnsafeAttributeAccess(attr) => say(said, attr.as_str()),
        ValidationErrorKind::UndefinedFunction(name) => show(alloc, said, name),
        ValidationErrorKind::EntityDerefLevelViolation(Some(level)) => show(alloc, said, level),
        _ => Ok(()),
    }
}

/// Says these errors. One of another policy than `p` is said to be one.
pub(crate) fn say_errors(
    alloc: Global,
    said: &mut String,
    errors: &[ValidationError],
) -> Result<(), AllocError> {
    for error in errors {
        say(said, word(&error.kind))?;
        say_named(alloc, said, &error.kind)?;
        if error.policy_id.as_str() != "p" {
            say(said, "of another")?;
        }
    }
    Ok(())
}

/// Says these warnings.
pub(crate) fn say_warnings(
    said: &mut String,
    warnings: &[ValidationWarning],
) -> Result<(), AllocError> {
    for warning in warnings {
        say(
            said,
            match warning {
                ValidationWarning::ImpossiblePolicy { .. } => "impossible",
                ValidationWarning::InvalidActionApplication {
                    would_in_fix_principal,
                    would_in_fix_resource,
                    ..
                } => match (*would_in_fix_principal, *would_in_fix_resource) {
                    (true, true) => "fits none, but with `in` in both",
                    (true, false) => "fits none, but with `in` in the principal",
                    (false, true) => "fits none, but with `in` in the resource",
                    (false, false) => "fits none",
                },
            },
        )?;
    }
    Ok(())
}

/// Says what the check says.
pub(crate) fn say_check(
    alloc: Global,
    said: &mut String,
    check: &PolicyCheck,
) -> Result<(), AllocError> {
    match check {
        PolicyCheck::Success(_) => say(said, "success"),
        PolicyCheck::Irrelevant(errors, _) => {
            say_errors(alloc, said, errors.as_slice())?;
            say(said, "irrelevant")
        }
        PolicyCheck::Fail(errors) => say_errors(alloc, said, errors.as_slice()),
    }
}

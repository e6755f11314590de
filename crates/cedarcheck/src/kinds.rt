//! The kinds of what is wrong with policies.

use cedar_store_parts::ValidationErrorKind;
use std::alloc::{AllocError, Global};
use std::fmt::Write;

/// The number of the kind among the refusals, and its words.
pub fn fault_of(alloc: Global, kind: &ValidationErrorKind) -> Result<(u32, String), AllocError> {
    let words = match kind {
        ValidationErrorKind::UnrecognizedEntityType(ty) => {
            format!(in alloc; "unknown entity type: {ty}")?
        }
        ValidationErrorKind::UnrecognizedActionId(uid) => {
            format!(in alloc; "unknown action: {uid}")?
        }
        ValidationErrorKind::InvalidEnumEntity(uid) => {
            format!(in alloc; "no member of its enumerated type: {uid}")?
        }
        ValidationErrorKind::EntityDerefLevelViolation(level) => words_of_level(alloc, *level)?,
        kind => words_of_typing(alloc, kind)?,
    };
    Ok((number_of(kind), words))
}

// The number of the kind.
fn number_of(kind: &ValidationErrorKind) -> u32 {
    match kind {
        ValidationErrorKind::UnrecognizedEntityType(_) => 8,
        ValidationErrorKind::UnrecognizedActionId(_) => 9,
        ValidationErrorKind::InvalidEnumEntity(_) => 10,
        ValidationErrorKind::EntityDerefLevelViolation(_) => 12,
        _ => 11,
    }
}

// The words of what needs this level.
fn words_of_level(alloc: Global, level: Option<u64>) -> Result<String, AllocError> {
    match level {
        Some(level) => format!(in alloc; "reaches too far: needs level {level}"),
        None => String::from_str(alloc, "reaches too far: no level allows it"),
    }
}

// The words of a kind of typing.
fn words_of_typing(alloc: Global, kind: &ValidationErrorKind) -> Result<String, AllocError> {
    match kind {
        ValidationErrorKind::UnsafeAttributeAccess(attr) => {
            let attr = attr.as_str();
            format!(in alloc; "ill-typed: attribute {attr} may be missing")
        }
        ValidationErrorKind::UndefinedFunction(name) => {
            format!(in alloc; "ill-typed: there is no function {name}")
        }
        kind => format!(in alloc; "ill-typed: {}", type_words(kind)),
    }
}

// The words of those kinds of typing that name nothing.
fn type_words(kind: &ValidationErrorKind) -> &'static str {
    match kind {
        ValidationErrorKind::IncompatibleTypes => "incompatible types",
        ValidationErrorKind::UnsafeTagAccess => "a tag may be missing",
        ValidationErrorKind::NoTagsAllowed => "the entity type declares no tags",
        ValidationErrorKind::WrongNumberArguments => "wrong number of arguments",
        ValidationErrorKind::EmptySetForbidden => "an empty set has no type",
        ValidationErrorKind::NonLitExtConstructor => "a constructor takes literals alone",
        _ => "unexpected type",
    }
}

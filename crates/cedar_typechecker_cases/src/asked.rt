//! The commands of the rows.

use crate::facts::{facts, success};
use crate::types::{attributes, ty, types, union};
use cedar_expr_functions::{ExtensionFunctionLookupError, Extensions};
use cedar_schema_joins::{
    ValidationMode, are_types_disjoint, is_subtype, least_upper_bound, reduce_to_least_upper_bound,
    typecheck_restricted_expr, typecheck_value,
};
use cedar_schema_types::{
    Attributes, CoreSchemaType, CoreTypeError, OpenTag, Type, core_schema_type,
};
use cedar_test_exprs::{both, copied, kept, made, read, say, show, tell, told, value, word};
use std::alloc::{AllocError, Global};
use std::rc::RcStr;

// Does the command.
pub fn done(alloc: Global, said: &mut String, verb: &str, rest: &str) -> Result<(), AllocError> {
    match verb {
        "text" => copied(alloc, said, ty(alloc, rest)?.as_ref()),
        "join" => join(alloc, said, rest),
        "strict_join" => reduced(alloc, said, rest, ValidationMode::Strict),
        "permissive_join" => reduced(alloc, said, rest, ValidationMode::Permissive),
        "core" => core(alloc, said, ty(alloc, rest)?.as_ref()),
        "no_memory" => show(alloc, said, &CoreTypeError::OutOfMemory),
        "only" => only(alloc, said, rest),
        "of_required" => told(alloc, said, of_required(alloc, rest)),
        "asked" => asked(alloc, said, rest),
        "required" => {
            let made = Attributes::with_required_attributes(alloc, required(alloc, rest)?);
            shown(alloc, said, made)
        }
        "attributes" => {
            let made = Attributes::with_attributes(alloc, attributes(alloc, rest)?);
            shown(alloc, said, made)
        }
        _ => parted(alloc, said, verb, rest),
    }
}

// Does the command, which has two parts.
fn parted(alloc: Global, said: &mut String, verb: &str, rest: &str) -> Result<(), AllocError> {
    let (one, other) = rest.split_once(" | ").ok_or(AllocError)?;
    match verb {
        "below" => below(alloc, said, one, other),
        "disjoint" => {
            let (one, other) = both(ty(alloc, one), ty(alloc, other))?;
            tell(said, are_types_disjoint(&one, &other))
        }
        "value_of" => {
            let (of, value) = both(ty(alloc, one), value(alloc, other))?;
            tell(said, typecheck_value(&of, &value))
        }
        "facts" => facts(alloc, said, one, other),
        "success" => success(alloc, said, &*ty(alloc, one)?, &*ty(alloc, other)?),
        _ => Err(AllocError),
    }
}

// Says whether the one type is below the other, in the strict and in the permissive mode.
fn below(alloc: Global, said: &mut String, one: &str, other: &str) -> Result<(), AllocError> {
    let (one, other) = both(ty(alloc, one), ty(alloc, other))?;
    tell(said, is_subtype(&one, &other, ValidationMode::Strict))?;
    tell(said, is_subtype(&one, &other, ValidationMode::Permissive))
}

// Says the text of a join.
fn joined(alloc: Global, said: &mut String, join: &Option<Type>) -> Result<(), AllocError> {
    match join {
        Some(ty) => show(alloc, said, ty),
        None => say(said, "none"),
    }
}

// Says the join, and where the one in permissive mode is another that too.
fn join(alloc: Global, said: &mut String, text: &str) -> Result<(), AllocError> {
    let (one, other) = text.split_once(" | ").ok_or(AllocError)?;
    let (one, other) = both(ty(alloc, one), ty(alloc, other))?;
    let strict = kept(
        alloc,
        least_upper_bound(alloc, &one, &other, ValidationMode::Strict),
    )?;
    joined(alloc, said, &strict)?;
    let mode = ValidationMode::Permissive;
    let permissive = kept(alloc, least_upper_bound(alloc, &one, &other, mode))?;
    if permissive == strict {
        return Ok(());
    }
    say(said, "permissively")?;
    joined(alloc, said, &permissive)
}

// Says the join of several types, one after the other.
fn reduced(
    alloc: Global,
    said: &mut String,
    text: &str,
    mode: ValidationMode,
) -> Result<(), AllocError> {
    let types = kept(alloc, types(alloc, text))?;
    let join = kept(
        alloc,
        reduce_to_least_upper_bound(alloc, types.as_slice(), mode),
    )?;
    joined(alloc, said, &join)
}

// Says a copy of what a type is as one by which values can be read, or why it is none.
fn core(alloc: Global, said: &mut String, ty: &Type) -> Result<(), AllocError> {
    match core_schema_type(alloc, ty) {
        Ok(core) => core_shown(alloc, said, &made(core.clone())?),
        Err(refusal) => show(alloc, said, &refusal),
    }
}

// Says the kind of the type, with its name or the names of its attributes.
fn core_shown(alloc: Global, said: &mut String, ty: &CoreSchemaType) -> Result<(), AllocError> {
    match ty {
        CoreSchemaType::Bool => say(said, "Bool"),
        CoreSchemaType::Long => say(said, "Long"),
        CoreSchemaType::String => say(said, "String"),
        CoreSchemaType::EmptySet => say(said, "empty set"),
        CoreSchemaType::Set { .. } => say(said, "set"),
        CoreSchemaType::Record { attrs, open_attrs } => {
            say(said, if *open_attrs { "open record" } else { "record" })?;
            for (name, declared) in attrs.attrs.iter() {
                say(said, name.as_str())?;
                said.push_str(if declared.required { "" } else { "?" })?;
            }
            Ok(())
        }
        CoreSchemaType::Entity { ty } => {
            say(said, "entity")?;
            show(alloc, said, ty)
        }
        CoreSchemaType::Extension { name } => {
            say(said, "extension")?;
            show(alloc, said, name)
        }
    }
}

// Says the only entity type of a union, if there is one.
fn only(alloc: Global, said: &mut String, text: &str) -> Result<(), AllocError> {
    match union(alloc, text)?.into_single_entity()? {
        Some(only) => show(alloc, said, &only),
        None => say(said, "none"),
    }
}

// The names and types of a text.
fn required(alloc: Global, text: &str) -> Result<Vec<(RcStr, Type)>, AllocError> {
    let mut pairs = Vec::new(alloc);
    for part in text.split(", ") {
        let (name, of) = part.split_once(": ").ok_or(AllocError)?;
        let of = made(Type::clone(&*ty(alloc, of)?))?;
        pairs.push((word(alloc, name)?, of))?;
    }
    Ok(pairs)
}

// The open record of these attributes, required.
fn of_required(alloc: Global, text: &str) -> Result<Type, AllocError> {
    let pairs = required(alloc, text)?;
    Type::record_with_required_attributes(alloc, pairs, OpenTag::OpenAttributes)
}

// Says the attributes, in the order of their names.
fn shown(
    alloc: Global,
    said: &mut String,
    made: Result<Attributes, AllocError>,
) -> Result<(), AllocError> {
    let attributes = kept(alloc, made)?;
    for (name, declared) in attributes.iter() {
        say(said, name.as_str())?;
        said.push_str(if declared.is_required() { ":" } else { "?:" })?;
        show(alloc, said, &declared.attr_type)?;
    }
    Ok(())
}

// Says whether an expression is of a type, or the name of a function that isn't there.
fn asked(alloc: Global, said: &mut String, text: &str) -> Result<(), AllocError> {
    let (of, given) = text.split_once(" | ").ok_or(AllocError)?;
    let given = read(alloc, given)?;
    let of = ty(alloc, of)?;
    match typecheck_restricted_expr(&of, &given, &Extensions::none(alloc)) {
        Ok(is_so) => tell(said, is_so),
        Err(ExtensionFunctionLookupError::OutOfMemory) => Err(AllocError),
        Err(ExtensionFunctionLookupError::FuncDoesNotExist(lacking)) => {
            say(said, "lacks")?;
            show(alloc, said, &lacking.name)
        }
    }
}

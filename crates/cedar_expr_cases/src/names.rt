//! Identifiers, names and uids.

use crate::raw_names;
use cedar_expr_leaves::RawName;
use cedar_expr_names::*;
use cedar_test_exprs::{
    copied, entity_type, kept, made, name, say, show, tell, told, told_copy, uid, uid_of,
};
use std::alloc::{AllocError, Global};

// Does the command, or one of those on raw names and values.
pub fn done(alloc: Global, said: &mut String, verb: &str, rest: &str) -> Result<(), AllocError> {
    match verb {
        "read" => read(alloc, said, rest),
        "ident" => tell(said, is_normalized_ident(rest)),
        "copies" => copies(alloc, said, rest),
        "name" => told(alloc, said, Name::from_normalized_str(alloc, rest)),
        "borrowed" => borrowed(alloc, said, rest),
        "unreserved" => told(
            alloc,
            said,
            UnreservedId::try_from_id(alloc, id(alloc, rest)?),
        ),
        "no_memory" => show(alloc, said, &NameError::OutOfMemory),
        "makers" => makers(alloc, said, rest),
        "joined" => joined(alloc, said, rest),
        "apart" => apart(alloc, said, rest),
        "uid" => of_uid(alloc, said, rest),
        "uid_of_lines" => of_lines(alloc, said),
        _ => raw_names::done(alloc, said, verb, rest),
    }
}

// How a reading ended.
fn mark<T: Drop>(read: Result<T, NameError>) -> char {
    match read {
        Ok(_) => '+',
        Err(NameError::NotNormalized) => '-',
        Err(NameError::Reserved(_)) => 'r',
        Err(NameError::OutOfMemory) => '!',
    }
}

fn read(alloc: Global, said: &mut String, text: &str) -> Result<(), AllocError> {
    said.push(mark(Id::from_normalized_str(alloc, text)))?;
    said.push(mark(UnreservedId::from_normalized_str(alloc, text)))?;
    said.push(mark(AnyId::from_normalized_str(alloc, text)))?;
    said.push(mark(InternalName::from_normalized_str(alloc, text)))?;
    said.push(mark(Name::from_normalized_str(alloc, text)))?;
    said.push(mark(RawName::from_normalized_str(alloc, text)))?;
    said.push(' ')?;
    said.push(mark(InternalName::parse_unqualified_name(alloc, text)))?;
    said.push(mark(Name::parse_unqualified_name(alloc, text)))?;
    said.push(mark(RawName::parse_unqualified_name(alloc, text)))
}

fn copies(alloc: Global, said: &mut String, text: &str) -> Result<(), AllocError> {
    told_copy(alloc, said, Id::from_normalized_str(alloc, text))?;
    told_copy(alloc, said, UnreservedId::from_normalized_str(alloc, text))?;
    told_copy(alloc, said, AnyId::from_normalized_str(alloc, text))?;
    told_copy(alloc, said, InternalName::from_normalized_str(alloc, text))?;
    told_copy(alloc, said, Name::from_normalized_str(alloc, text))?;
    told_copy(alloc, said, entity_type(alloc, text))?;
    told_copy(alloc, said, RawName::from_normalized_str(alloc, text))
}

pub fn id(alloc: Global, text: &str) -> Result<Id, AllocError> {
    made(Id::from_normalized_str(alloc, text))
}

fn unreserved(alloc: Global, text: &str) -> Result<UnreservedId, AllocError> {
    made(UnreservedId::from_normalized_str(alloc, text))
}

pub fn internal(alloc: Global, text: &str) -> Result<InternalName, AllocError> {
    made(InternalName::from_normalized_str(alloc, text))
}

fn borrowed(alloc: Global, said: &mut String, text: &str) -> Result<(), AllocError> {
    let name = internal(alloc, text)?;
    told(alloc, said, Name::try_from_borrowed(&name))
}

fn makers(alloc: Global, said: &mut String, text: &str) -> Result<(), AllocError> {
    told(alloc, said, InternalName::cedar(alloc))?;
    told(
        alloc,
        said,
        InternalName::unqualified_name(alloc, id(alloc, text)?),
    )?;
    told(
        alloc,
        said,
        Name::unqualified_name(alloc, unreserved(alloc, text)?),
    )?;
    told(alloc, said, RawName::new(alloc, id(alloc, text)?, None))?;
    told(
        alloc,
        said,
        RawName::new_from_unreserved(alloc, unreserved(alloc, text)?, None),
    )
}

// The namespace is one id.
fn joined(alloc: Global, said: &mut String, text: &str) -> Result<(), AllocError> {
    let (space, base) = text.split_once(' ').ok_or(AllocError)?;
    let path = vec![in alloc; id(alloc, space)?]?;
    told(
        alloc,
        said,
        InternalName::new(alloc, id(alloc, base)?, path, None),
    )?;
    let space = internal(alloc, space)?;
    told(
        alloc,
        said,
        InternalName::type_in_namespace(alloc, id(alloc, base)?, space, None),
    )
}

fn apart(alloc: Global, said: &mut String, text: &str) -> Result<(), AllocError> {
    let name = kept(alloc, name(alloc, text))?;
    told(alloc, said, name.basename())?;
    let space = kept(alloc, name.as_internal().namespace(alloc))?;
    say(said, space.as_str())
}

fn of_uid(alloc: Global, said: &mut String, text: &str) -> Result<(), AllocError> {
    let uid = kept(alloc, uid(alloc, text))?;
    copied(alloc, said, uid.as_ref())?;
    copied(alloc, said, uid.entity_type())?;
    let id = kept(alloc, uid.eid().clone())?;
    say(said, id.as_str())
}

// The id has a line feed, which no row can hold.
fn of_lines(alloc: Global, said: &mut String) -> Result<(), AllocError> {
    told(alloc, said, uid_of(alloc, "User", "a\"b\\\né"))
}

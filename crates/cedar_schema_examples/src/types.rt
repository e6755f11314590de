//! Written types from their texts.

use crate::naming::{WrittenName, name, placed};
use cedar_expr_leaves::ReferenceType;
use cedar_schema_decl::json_schema::{RecordType, Type, TypeOfAttribute, TypeVariant};
use std::alloc::{AllocError, Global};
use std::collections::BTreeMap;
use std::rc::RcStr;

fn unplaced<N: WrittenName>(ty: TypeVariant<N>) -> Type<N> {
    Type { ty, loc: None }
}

// What is written by the name of a type of this kind, if a kind is said.
fn referred<N: WrittenName>(alloc: Global, text: &str) -> Result<TypeVariant<N>, AllocError> {
    let (kind, text) = text.split_once(' ').unwrap_or(("", text));
    match kind {
        "entity" => Ok(TypeVariant::Entity {
            name: N::read(alloc, text, ReferenceType::Entity)?,
        }),
        "common" => Ok(TypeVariant::CommonTypeRef {
            type_name: N::read(alloc, text, ReferenceType::Common)?,
        }),
        "extension" => Ok(TypeVariant::Extension {
            name: name(alloc, text)?,
        }),
        _ => Ok(TypeVariant::EntityOrCommon {
            type_name: N::read(alloc, text, ReferenceType::CommonOrEntity)?,
        }),
    }
}

// The type without parts of this text.
fn plain<N: WrittenName>(alloc: Global, text: &str) -> Result<Type<N>, AllocError> {
    match text {
        "String" => Ok(unplaced(TypeVariant::String)),
        "Long" => Ok(unplaced(TypeVariant::Long)),
        "Bool" => Ok(unplaced(TypeVariant::Boolean)),
        _ => Ok(unplaced(referred(alloc, text)?)),
    }
}

// The type of sets of this element.
fn set<N: WrittenName>(alloc: Global, element: Type<N>) -> Result<Type<N>, AllocError> {
    let element = Box::new(alloc, element)?;
    Ok(unplaced(TypeVariant::Set { element }))
}

// What is declared of an attribute of this type, by its name, behind which is a `?` where it isn't required, and its place, if it has one.
fn attribute<N: WrittenName>(
    alloc: Global,
    name: &str,
    ty: Type<N>,
) -> Result<(RcStr, TypeOfAttribute<N>), AllocError> {
    let (name, loc, _) = placed(name);
    let (name, required) = match name.strip_suffix('?') {
        Some(name) => (name, false),
        None => (name, true),
    };
    let name = RcStr::from_str(alloc, name)?;
    Ok((name, TypeOfAttribute { ty, required, loc }))
}

// Whether each brace of the text that is opened there is closed there.
fn is_whole(text: &str) -> bool {
    text.matches('{').count() == text.matches('}').count()
}

// The parts of the text, with commas between them. A comma in braces is part of a part. Fails where a brace isn't closed.
fn parts(alloc: Global, text: &str) -> Result<Vec<String>, AllocError> {
    let mut parts = Vec::new(alloc);
    let mut part = String::new(alloc);
    for piece in text.split(", ") {
        part.push_str(piece)?;
        if is_whole(part.as_str()) {
            parts.push(part)?;
            part = String::new(alloc);
        } else {
            part.push_str(", ")?;
        }
    }
    if part.is_empty() {
        Ok(parts)
    } else {
        Err(AllocError)
    }
}

// How deep types may nest.
const DEPTH: u8 = 8;

// The type of this text. Fails where types nest deeper than this.
#[cycle(nesting)]
fn nested<N: WrittenName>(alloc: Global, text: &str, depth: u8) -> Result<Type<N>, AllocError> {
    if depth == 0 {
        return Err(AllocError);
    }
    if let Some(element) = text.strip_prefix("Set of ") {
        return set(alloc, nested(alloc, element, depth - 1)?);
    }
    match text.strip_prefix('{') {
        Some(text) => {
            let text = text.strip_suffix('}').unwrap_or(text);
            let fields = fields(alloc, text, depth - 1)?;
            Ok(unplaced(TypeVariant::Record(fields)))
        }
        None => plain(alloc, text),
    }
}

// The record type of these attributes. Fails where their types nest deeper than this.
#[cycle(nesting)]
fn fields<N: WrittenName>(
    alloc: Global,
    text: &str,
    depth: u8,
) -> Result<RecordType<N>, AllocError> {
    let mut attributes = BTreeMap::new(alloc);
    for part in &parts(alloc, text)? {
        let part = part.as_str();
        if !part.is_empty() {
            let (name, of) = part.split_once(": ").unwrap_or((part, "Bool"));
            let ty = nested(alloc, of, depth)?;
            let (name, attribute) = attribute(alloc, name, ty)?;
            attributes.insert(name, attribute)?;
        }
    }
    Ok(RecordType { attributes })
}

// The record type of these attributes, with commas between them, as `a: Long, b?: Set of entity User, c: {d: Bool}`. Fails where one
// is no attribute, where types nest too deep, and when out of memory.
pub(crate) fn record<N: WrittenName>(
    alloc: Global,
    text: &str,
) -> Result<RecordType<N>, AllocError> {
    fields(alloc, text, DEPTH)
}

/// The type of this text: `Bool`, `Long`, `String`, `entity User`, `common Name`, `extension ip`, or the name alone of an entity type
/// or a common type; `{a: Long}`, or `Set of` any of these. They nest, to eight types in one another. Fails where the text is none, or
/// nests deeper, and when out of memory.
pub fn ty<N: WrittenName>(alloc: Global, text: &str) -> Result<Type<N>, AllocError> {
    nested(alloc, text, DEPTH)
}

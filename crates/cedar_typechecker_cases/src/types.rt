//! The types that the rows name.

use cedar_schema_types::{AttributeType, EntityKind, EntityLUB, OpenTag, Type};
use cedar_test_exprs::{entity_type, kept, name, shared, word};
use std::alloc::{AllocError, Global};
use std::rc::{Rc, RcStr};

pub type Made = Result<Rc<Type>, AllocError>;

fn entity(alloc: Global, name: &str) -> Made {
    let ty = entity_type(alloc, name)?;
    kept(alloc, Type::named_entity_reference(alloc, ty))
}

fn extension(alloc: Global, text: &str) -> Made {
    let name = name(alloc, text)?;
    shared(alloc, Type::extension(name))
}

// The union of the entity types of a text, with `or` between two.
pub fn union(alloc: Global, text: &str) -> Result<EntityLUB, AllocError> {
    let (first, second) = text.split_once(" or ").ok_or(AllocError)?;
    let first = EntityLUB::single_entity(alloc, entity_type(alloc, first)?)?;
    let second = EntityLUB::single_entity(alloc, entity_type(alloc, second)?)?;
    first.union(alloc, &second)
}

fn of_union(alloc: Global, text: &str) -> Made {
    let union = union(alloc, text)?;
    shared(alloc, Type::Entity(EntityKind::Entity(union)))
}

// The attribute of a text, as `a: Long` or, where it isn't required, `a?: Long`.
fn attribute(alloc: Global, text: &str) -> Result<(RcStr, AttributeType), AllocError> {
    let (name, of) = text.split_once(": ").ok_or(AllocError)?;
    let declared = Type::clone(&*plain(alloc, of)?)?;
    match name.strip_suffix('?') {
        Some(name) => Ok((
            word(alloc, name)?,
            AttributeType::optional_attribute(declared),
        )),
        None => Ok((
            word(alloc, name)?,
            AttributeType::required_attribute(declared),
        )),
    }
}

// The attributes of a text, with commas between them.
pub fn attributes(alloc: Global, text: &str) -> Result<Vec<(RcStr, AttributeType)>, AllocError> {
    let mut pairs = Vec::new(alloc);
    for attr in text.split(", ") {
        if !attr.is_empty() {
            pairs.push(attribute(alloc, attr)?)?;
        }
    }
    Ok(pairs)
}

// The record of attributes; `..` stands behind those of an open one.
fn record(alloc: Global, text: &str) -> Made {
    let (attrs, tag) = match text.strip_suffix("..") {
        Some(attrs) => (attrs, OpenTag::OpenAttributes),
        None => (text, OpenTag::ClosedAttributes),
    };
    let pairs = attributes(alloc, attrs)?;
    kept(alloc, Type::record_with_attributes(alloc, pairs, tag))
}

fn sets(alloc: Global, element: Made) -> Made {
    let element = Type::clone(&*element?)?;
    kept(alloc, Type::set(alloc, element))
}

// The type without parts of this name. Another name is that of an entity type.
fn plain(alloc: Global, text: &str) -> Made {
    match text {
        "Never" => shared(alloc, Type::Never),
        "True" => shared(alloc, Type::singleton_boolean(true)),
        "False" => shared(alloc, Type::singleton_boolean(false)),
        "Bool" => shared(alloc, Type::primitive_boolean()),
        "Long" => shared(alloc, Type::primitive_long()),
        "String" => shared(alloc, Type::primitive_string()),
        "any entity" => shared(alloc, Type::any_entity_reference()),
        "any set" => shared(alloc, Type::any_set()),
        "Doc or User" => of_union(alloc, text),
        "rank" | "ip" => extension(alloc, text),
        _ => entity(alloc, text),
    }
}

// The type of this name that is no set.
fn unnested(alloc: Global, text: &str) -> Made {
    match text.strip_prefix('{') {
        Some(attrs) => record(alloc, attrs.strip_suffix('}').unwrap_or(attrs)),
        None => plain(alloc, text),
    }
}

// The type of this name. An attribute with a `?` isn't required, and a record with `..` is open.
pub fn ty(alloc: Global, text: &str) -> Made {
    match text.strip_prefix("Set of ") {
        Some(element) => sets(alloc, unnested(alloc, element)),
        None => unnested(alloc, text),
    }
}

// The types of a text, with commas between them.
pub fn types(alloc: Global, text: &str) -> Result<Vec<Type>, AllocError> {
    let mut types = Vec::new(alloc);
    for name in text.split(", ") {
        if !name.is_empty() {
            types.push(Type::clone(&*plain(alloc, name)?)?)?;
        }
    }
    Ok(types)
}

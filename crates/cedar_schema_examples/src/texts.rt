//! Texts of entity types and actions of a schema.

ghost use Rattle.std.specs.Iterator.{IsFinite};

use cedar_schema_entries::{ValidatorActionId, ValidatorEntityType, ValidatorEntityTypeKind};
use cedar_schema_types::{AttributeType, Attributes, Type};
use std::alloc::{AllocError, Global};
use std::fmt::Display;
use std::rc::RcStr;

/// The texts of these, with a space before each. Fails only when out of memory.
pub fn listed<'a, T: Display + 'a, I: Iterator<Item = &'a T> + Drop>(
    alloc: Global,
    items: I,
) -> Result<String, AllocError>
    requires { I.can_next items × IsFinite (I.remaining items) }
{
    let mut text = String::new(alloc);
    for item in items {
        text.push_str(" ")?;
        text.push_str(item.to_string(alloc)?.as_str())?;
    }
    Ok(text)
}

// The text of what is declared of an attribute.
fn attribute_text(
    alloc: Global,
    name: &RcStr,
    declared: &AttributeType,
) -> Result<String, AllocError> {
    let mark = if declared.is_required() { "" } else { "?" };
    format!(in alloc; " {}{mark}: {}", name.as_str(), declared.attr_type)
}

// The text of the attributes, with a space before each.
fn attributes_text(alloc: Global, attributes: &Attributes) -> Result<String, AllocError> {
    let mut text = String::new(alloc);
    for (name, declared) in attributes.iter() {
        text.push_str(attribute_text(alloc, name, declared)?.as_str())?;
    }
    Ok(text)
}

// The text of the type of tags, which is empty where there is none.
fn tags_text(alloc: Global, tags: Option<&Type>) -> Result<String, AllocError> {
    match tags {
        Some(ty) => format!(in alloc; " tags {ty}"),
        None => Ok(String::new(alloc)),
    }
}

// The text of the kind: that of the tags, or that of the members.
fn kind_text(alloc: Global, kind: &ValidatorEntityTypeKind) -> Result<String, AllocError> {
    match kind {
        ValidatorEntityTypeKind::Standard(standard) => tags_text(alloc, standard.tag_type()),
        ValidatorEntityTypeKind::Enum(members) => {
            let members = listed(alloc, members.iter())?;
            format!(in alloc; " of{members}")
        }
        ValidatorEntityTypeKind::External => format!(in alloc; " elsewhere"),
    }
}

/// The text of an entity type: its name, attributes, tags or members, and what descends from it. Fails only when out of memory.
pub fn entity_type_text(alloc: Global, ty: &ValidatorEntityType) -> Result<String, AllocError> {
    let attributes = attributes_text(alloc, ty.attributes())?;
    let kind = kind_text(alloc, ty.kind())?;
    let below = listed(alloc, ty.descendants())?;
    format!(in alloc; "{}{attributes}{kind} over{below}\n", ty.name())
}

/// The text of an action: its uid, what it applies to, its context, and what descends from it. Fails only when out of memory.
pub fn action_text(alloc: Global, action: &ValidatorActionId) -> Result<String, AllocError> {
    let principals = listed(alloc, action.principals())?;
    let resources = listed(alloc, action.resources())?;
    let below = listed(alloc, action.descendants())?;
    let mark = if action.is_external() {
        " elsewhere"
    } else {
        ""
    };
    let context = action.context();
    let name = action.name();
    format!(in alloc; "{name}{mark} for{principals} on{resources} with {context} over{below}\n")
}

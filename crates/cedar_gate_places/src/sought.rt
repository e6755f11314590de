//! Where in a bundle's schema something is declared or named.

use crate::pointers::{member, under};
use cedar_expr_leaves::{ConditionalName, ReferenceType};
use cedar_expr_names::{EntityUID, InternalName};
use cedar_schema_builder::SchemaError;
use serde_json::Value;
use std::alloc::{AllocError, Global};
use std::fmt::Write;

// How many fragments the schema has.
fn fragments_in(root: &Value) -> usize {
    match root.get("schema") {
        Some(Value::Array(fragments)) => fragments.len(),
        _ => 0,
    }
}

// The pointer of the last declaration under this name in one of these sections of the namespace; else of the schema.
fn declared(
    alloc: Global,
    root: &Value,
    sections: &[&str],
    space: &str,
    name: &str,
) -> Result<String, AllocError> {
    let mut last = String::from_str(alloc, "/schema")?;
    for i in 0..fragments_in(root) {
        let path = member(alloc, under(alloc, "/schema", i)?.as_str(), space)?;
        for section in sections {
            let path = member(alloc, path.as_str(), section)?;
            let path = member(alloc, path.as_str(), name)?;
            if root.pointer(path.as_str()).is_some() {
                last = path;
            }
        }
    }
    Ok(last)
}

// The pointer of a type in one of these sections.
fn declared_type(
    alloc: Global,
    root: &Value,
    sections: &[&str],
    name: &InternalName,
) -> Result<String, AllocError> {
    let space = name.namespace(alloc)?;
    declared(
        alloc,
        root,
        sections,
        space.as_str(),
        name.basename().as_str(),
    )
}

// The pointer of an action.
fn declared_action(alloc: Global, root: &Value, uid: &EntityUID) -> Result<String, AllocError> {
    let space = uid.entity_type().name().as_internal().namespace(alloc)?;
    declared(
        alloc,
        root,
        &["actions"],
        space.as_str(),
        uid.eid().as_str(),
    )
}

// The pointers of what is sought in the parts of this value: texts that are this name where it stands for a name of this sort, or, where
// no name is given, objects that declare something as external.
fn written(
    alloc: Global,
    root: &Value,
    from: String,
    sort: &str,
    name: Option<&str>,
) -> Result<Vec<String>, AllocError> {
    let mut found = Vec::new(alloc);
    let mut left = Vec::new(alloc);
    left.push(from)?;
    for _turn in 0..u64::MAX {
        let Some(path) = left.pop() else {
            break;
        };
        match root.pointer(path.as_str()) {
            Some(Value::String(text)) if Some(text.as_str()) == name => found.push(path)?,
            Some(Value::Array(items)) => {
                for i in (0..items.len()).rev() {
                    left.push(under(alloc, path.as_str(), i)?)?;
                }
            }
            Some(Value::Object(members)) => {
                for (key, value) in members.iter().rev() {
                    if may_stand_at(sort, key.as_str(), value) {
                        left.push(member(alloc, path.as_str(), key.as_str())?)?;
                    }
                }
                if name.is_none() && matches!(members.get("external"), Some(Value::Array(_))) {
                    found.push(path)?;
                }
            }
            _ => {}
        }
    }
    Ok(found)
}

// Whether a name of this sort may be written in the member at the key: texts and lists at some keys are of one sort alone.
fn may_stand_at(sort: &str, key: &str, value: &Value) -> bool {
    match (key, value) {
        ("enum", Value::Array(_)) => false,
        ("common" | "ext", Value::String(_)) | ("in", Value::Array(_)) => sort == key || sort == "",
        (_, Value::String(_) | Value::Array(_)) => sort == "entity" || sort == "",
        _ => true,
    }
}

// The first place at which a name of this sort is written; else the schema.
fn first_written(
    alloc: Global,
    root: &Value,
    sort: &str,
    name: &str,
) -> Result<String, AllocError> {
    let from = String::from_str(alloc, "/schema")?;
    match written(alloc, root, from, sort, Some(name))?
        .into_iter()
        .next()
    {
        Some(path) => Ok(path),
        None => String::from_str(alloc, "/schema"),
    }
}

// The first place at which a name is written that isn't declared there; else the schema.
fn undeclared(alloc: Global, root: &Value, name: &ConditionalName) -> Result<String, AllocError> {
    let sort = match name.reference_type() {
        ReferenceType::Common => "common",
        ReferenceType::Entity | ReferenceType::CommonOrEntity => "entity",
    };
    let text = name.raw().as_internal().as_str();
    if let (true, Some(first)) = (name.raw().is_unqualified(), name.possibilities().next()) {
        let space = first.namespace(alloc)?;
        for i in 0..fragments_in(root) {
            let from = member(alloc, under(alloc, "/schema", i)?.as_str(), space.as_str())?;
            let found = written(alloc, root, from, sort, Some(text))?;
            if let Some(path) = found.into_iter().next() {
                return Ok(path);
            }
        }
    }
    first_written(alloc, root, sort, text)
}

/// The pointers of the external declarations in a bundle's schema.
pub fn external_declarations(alloc: Global, root: &Value) -> Result<Vec<String>, AllocError> {
    written(alloc, root, String::from_str(alloc, "/schema")?, "", None)
}

/// The pointer of what has this fault in a bundle's schema: its last declaration, or the first place that names it; else of the schema.
pub fn pointer_of(alloc: Global, root: &Value, error: &SchemaError) -> Result<String, AllocError> {
    match error {
        SchemaError::OutOfMemory => Err(AllocError),
        SchemaError::DuplicateEntityType { ty: name }
        | SchemaError::ActionEntityTypeDeclared { name } => {
            declared_type(alloc, root, &["entityTypes"], name)
        }
        SchemaError::DuplicateCommonType { name }
        | SchemaError::CycleInCommonTypeReferences { name } => {
            declared_type(alloc, root, &["commonTypes"], name)
        }
        SchemaError::TypeShadowing {
            shadowing_def: name,
        } => { declared_type(alloc, root, &["entityTypes", "commonTypes"], name) }
        SchemaError::DuplicateAction { uid }
        | SchemaError::CycleInActionHierarchy { uid }
        | SchemaError::ContextNotRecord { uid }
        | SchemaError::ActionShadowing { shadowing_def: uid } => declared_action(alloc, root, uid),
        SchemaError::TypeNotDefined { undefined_type } => undeclared(alloc, root, undefined_type),
        SchemaError::ActionNotDefined { id, .. } => first_written(alloc, root, "in", id.as_str()),
        SchemaError::ReservedName(error) => first_written(alloc, root, "", error.name().as_str()),
        SchemaError::UnknownExtensionType { name } => {
            first_written(alloc, root, "ext", name.as_internal().as_str())
        }
    }
}

//! Schemas that are made by hand, which may be unsound, and the question whether one is sound.

use crate::desk::Desk;
use crate::said::pass;
use cedar_expr_functions::Extensions;
use cedar_expr_names::{EntityType, EntityUID};
use cedar_schema_built::ValidatorSchema;
use cedar_schema_entries::{AppliesTo, ValidatorActionId, ValidatorEntityType};
use cedar_schema_sound::TryValidate;
use cedar_schema_types::Type;
use cedar_test_exprs::{both, entity_type, uid, word};
use std::alloc::{AllocError, Global};
use std::collections::BTreeSet;
use std::rc::RcStr;

// Whether the schema that was built last is sound, or the one that the rest of the question makes.
pub fn validate(
    desk: &mut Desk,
    rest: &str,
    table: &Extensions<'_>,
    said: &mut String,
) -> Result<(), AllocError> {
    let schema = if rest.is_empty() {
        std::mem::replace(&mut desk.schema, ValidatorSchema::empty(desk.alloc))
    } else {
        made(desk.alloc, rest)?
    };
    pass(desk.alloc, schema.try_validate(desk.alloc, table), said)
}

// The schema of the entity types and actions of a text, as `A < B; B | Action::a < Action::b; Action::b`.
fn made(alloc: Global, text: &str) -> Result<ValidatorSchema, AllocError> {
    let (types, acts) = text.split_once(" | ").unwrap_or((text, ""));
    let (types, acts) = both(entity_types(alloc, types), actions(alloc, acts))?;
    ValidatorSchema::new(alloc, types, acts)
}

fn entity_types(alloc: Global, text: &str) -> Result<Vec<ValidatorEntityType>, AllocError> {
    let mut types = Vec::new(alloc);
    for part in text.split("; ") {
        let (word, below) = part.split_once(" < ").unwrap_or((part, ""));
        types.push(declared(alloc, word, below)?)?;
    }
    Ok(types)
}

fn actions(alloc: Global, text: &str) -> Result<Vec<ValidatorActionId>, AllocError> {
    let mut actions = Vec::new(alloc);
    for part in text.split("; ") {
        let (word, below) = part.split_once(" < ").unwrap_or((part, ""));
        actions.push(action(alloc, word, below)?)?;
    }
    Ok(actions)
}

// An entity type that is declared elsewhere; `Color` is declared here, and has the member `red`.
fn declared(alloc: Global, text: &str, below: &str) -> Result<ValidatorEntityType, AllocError> {
    let (name, below) = both(entity_type(alloc, text), types_of(alloc, below))?;
    if text == "Color" {
        return ValidatorEntityType::new_enum(alloc, name, below, red(alloc)?, None);
    }
    ValidatorEntityType::new_external(alloc, name, below, None)
}

// The member `red` alone.
fn red(alloc: Global) -> Result<BTreeSet<RcStr>, AllocError> {
    let mut members = BTreeSet::new(alloc);
    members.insert(word(alloc, "red")?)?;
    Ok(members)
}

// An action that is declared elsewhere; `Action::long` is declared here, and its context is no record.
fn action(alloc: Global, word: &str, below: &str) -> Result<ValidatorActionId, AllocError> {
    let (uid, below) = both(uid(alloc, word), uids_of(alloc, below))?;
    if word == "Action::long" {
        let applies_to = AppliesTo::new(BTreeSet::new(alloc), BTreeSet::new(alloc));
        return Ok(ValidatorActionId::new_defined(uid, applies_to, below, Type::Long, None));
    }
    ValidatorActionId::new_external(alloc, uid, below, None)
}

// The entity type of this name alone; of the empty name none.
fn types_of(alloc: Global, word: &str) -> Result<BTreeSet<EntityType>, AllocError> {
    let mut types = BTreeSet::new(alloc);
    if !word.is_empty() {
        types.insert(entity_type(alloc, word)?)?;
    }
    Ok(types)
}

// The uid alone; of the empty text none.
fn uids_of(alloc: Global, word: &str) -> Result<BTreeSet<EntityUID>, AllocError> {
    let mut uids = BTreeSet::new(alloc);
    if !word.is_empty() {
        uids.insert(uid(alloc, word)?)?;
    }
    Ok(uids)
}

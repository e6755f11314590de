//! Names, types and uids of texts.

use crate::made;
use cedar_expr_names::{Eid, EntityType, EntityUID, Loc, Name};
use std::alloc::{AllocError, Global};
use std::rc::RcStr;

/// The text, shared. Fails when out of memory.
pub fn word(alloc: Global, text: &str) -> Result<RcStr, AllocError> {
    RcStr::from_str(alloc, text)
}

/// The name of this text. Fails where the text writes none, and when out of memory.
pub fn name(alloc: Global, text: &str) -> Result<Name, AllocError> {
    made(Name::from_normalized_str(alloc, text))
}

/// The entity type of this name. Fails where the text writes none, and when out of memory.
pub fn entity_type(alloc: Global, text: &str) -> Result<EntityType, AllocError> {
    made(EntityType::from_normalized_str(alloc, text))
}

/// The uid of this type and id. Fails where the type is no name, and when out of memory.
pub fn uid_of(alloc: Global, of: &str, id: &str) -> Result<EntityUID, AllocError> {
    let of = entity_type(alloc, of)?;
    Ok(EntityUID::from_components(of, Eid::from_str(alloc, id)?, None))
}

/// The uid of a type and an id, as in `User::a` or, at a place, `User::a@3`: what stands behind the last `::` is the id. Fails where
/// there is none, and when out of memory.
pub fn uid(alloc: Global, text: &str) -> Result<EntityUID, AllocError> {
    let (text, place) = placed(text);
    let (of, id) = text.rsplit_once("::").ok_or(AllocError)?;
    let of = entity_type(alloc, of)?;
    Ok(EntityUID::from_components(of, Eid::from_str(alloc, id)?, place))
}

/// The word without the place behind it, and that place: of `1@4` it is `1`, and the place that begins and ends at 4.
pub fn placed(word: &str) -> (&str, Option<Loc>) {
    let Some((before, behind)) = word.rsplit_once('@') else {
        return (word, None);
    };
    match behind.parse::<usize>() {
        Ok(n) => (before, Some(Loc::new(n, n))),
        Err(_) => (word, None),
    }
}

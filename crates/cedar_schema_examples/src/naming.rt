//! Names from their texts, and places.

use cedar_expr_leaves::{ConditionalName, RawName, ReferenceType};
use cedar_expr_names::{Id, InternalName, Loc};
use std::alloc::{AllocError, Global};

/// Names as they stand in declarations.
pub trait WrittenName: Drop {
    /// The name of this text, to which this kind of declaration is due. Fails where the text writes none, and when out of memory.
    fn read(alloc: Global, text: &str, kind: ReferenceType) -> Result<Self, AllocError>;
}

impl WrittenName for RawName {
    fn read(alloc: Global, text: &str, _kind: ReferenceType) -> Result<RawName, AllocError> {
        raw(alloc, text)
    }
}

// A name `N/A` is `A`, written in the namespace `N`.
impl WrittenName for ConditionalName {
    fn read(alloc: Global, text: &str, kind: ReferenceType) -> Result<ConditionalName, AllocError> {
        match text.split_once('/') {
            None => raw(alloc, text)?.conditionally_qualify_with(alloc, None, kind),
            Some((space, text)) => {
                let space = name(alloc, space)?;
                raw(alloc, text)?.conditionally_qualify_with(alloc, Some(&space), kind)
            }
        }
    }
}

// The raw name of this text. Fails where the text writes none, and when out of memory.
pub(crate) fn raw(alloc: Global, text: &str) -> Result<RawName, AllocError> {
    RawName::from_normalized_str(alloc, text)
        .ok()
        .ok_or(AllocError)
}

/// The name of this text. Fails where the text writes none, and when out of memory.
pub fn name(alloc: Global, text: &str) -> Result<InternalName, AllocError> {
    InternalName::from_normalized_str(alloc, text)
        .ok()
        .ok_or(AllocError)
}

/// The identifier of this text. Fails where the text is none, and when out of memory.
pub fn id(alloc: Global, text: &str) -> Result<Id, AllocError> {
    Id::from_normalized_str(alloc, text).ok().ok_or(AllocError)
}

// The names of entity types of this text, with commas between them. Fails where one is no name, and when out of memory.
pub(crate) fn names<N: WrittenName>(alloc: Global, text: &str) -> Result<Vec<N>, AllocError> {
    let mut names = Vec::new(alloc);
    for text in text.split(", ") {
        if !text.is_empty() {
            names.push(N::read(alloc, text, ReferenceType::Entity)?)?;
        }
    }
    Ok(names)
}

// The place from this number to the next.
fn place(text: &str) -> Option<Loc> {
    let at = text.parse::<usize>().ok()?;
    Some(Loc::new(at, at.saturating_add(1)))
}

/// The word, and the two places that stand behind it, if they do: `T@30@40` is the word `T` with the places from 30 to 31 and from 40 to 41.
pub fn placed(text: &str) -> (&str, Option<Loc>, Option<Loc>) {
    let (word, places) = text.split_once('@').unwrap_or((text, ""));
    let (one, two) = places.split_once('@').unwrap_or((places, ""));
    (word, place(one), place(two))
}

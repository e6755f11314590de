//! What is said in answer to a question: parts, with `; ` between them. What was made and errors are told over any type: the proof of a
//! function that may have to drop a large enum goes through each of its variants, and that of a function over any type doesn't.

use cedar_schema_entries::{ValidatorActionId, ValidatorEntityType};
use cedar_schema_examples::{action_text, entity_type_text, listed};
use cedar_store_entities::Entity;
use cedar_store_parts::RequestType;
use std::alloc::{AllocError, Global};
use std::fmt::Display;

// Puts the text behind what is said, as a part of its own.
pub fn add(said: &mut String, text: &str) -> Result<(), AllocError> {
    said.push_str(if said.is_empty() { "" } else { "; " })?;
    said.push_str(text)
}

// Says the text of this.
pub fn show<T: Display>(alloc: Global, it: &T, said: &mut String) -> Result<(), AllocError> {
    add(said, it.to_string(alloc)?.as_str())
}

// What was made. Where nothing was, says why.
pub fn made<T: Drop, E: Display + Drop>(
    alloc: Global,
    made: Result<T, E>,
    said: &mut String,
) -> Result<Option<T>, AllocError> {
    match made {
        Ok(made) => Ok(Some(made)),
        Err(error) => {
            show(alloc, &error, said)?;
            Ok(None)
        }
    }
}

// Says the text of what was made, or why nothing was.
pub fn tell<T: Display + Drop, E: Display + Drop>(
    alloc: Global,
    given: Result<T, E>,
    said: &mut String,
) -> Result<(), AllocError> {
    match made(alloc, given, said)? {
        Some(made) => show(alloc, &made, said),
        None => Ok(()),
    }
}

// Says `passed`, or the refusal.
pub fn pass<T: Drop, E: Display + Drop>(
    alloc: Global,
    given: Result<T, E>,
    said: &mut String,
) -> Result<(), AllocError> {
    match made(alloc, given, said)? {
        Some(_) => add(said, "passed"),
        None => Ok(()),
    }
}

// Puts what was made in its place, or says the refusal with its number. Tells whether it was made.
pub fn put<T: Drop, E: Display + Drop>(
    alloc: Global,
    place: &mut T,
    made: Result<T, E>,
    number: u32,
    said: &mut String,
) -> Result<bool, AllocError> {
    match made {
        Ok(made) => {
            *place = made;
            Ok(true)
        }
        Err(error) => {
            let text = format!(in alloc; "refused {number}: {error}")?;
            add(said, text.as_str())?;
            Ok(false)
        }
    }
}

// What is told by its parts.
pub trait Entry: Drop {
    fn say(&self, alloc: Global, said: &mut String) -> Result<(), AllocError>;
}

// Its name, attributes, tags or members, and what descends from it.
impl Entry for ValidatorEntityType {
    fn say(&self, alloc: Global, said: &mut String) -> Result<(), AllocError> {
        add(said, entity_type_text(alloc, self)?.as_str().trim_end())
    }
}

// Its uid, what it applies to, its context, and what descends from it.
impl Entry for ValidatorActionId {
    fn say(&self, alloc: Global, said: &mut String) -> Result<(), AllocError> {
        add(said, action_text(alloc, self)?.as_str().trim_end())
    }
}

// The principal's type, the action and the resource's type.
impl Entry for RequestType {
    fn say(&self, alloc: Global, said: &mut String) -> Result<(), AllocError> {
        let (principal, action, resource) = (&self.principal, &self.action, &self.resource);
        let text = format!(in alloc; "{principal} {action} {resource}")?;
        add(said, text.as_str())
    }
}

// The uid, and those of its ancestors.
impl Entry for Entity {
    fn say(&self, alloc: Global, said: &mut String) -> Result<(), AllocError> {
        show(alloc, self.uid(), said)?;
        said.push_str(" in")?;
        said.push_str(listed(alloc, self.ancestors())?.as_str())
    }
}

// Says the entries that were made, or why none were.
pub fn tell_all<T: Entry, E: Display + Drop>(
    alloc: Global,
    made: Result<Vec<T>, E>,
    said: &mut String,
) -> Result<(), AllocError> {
    match made {
        Ok(entries) => {
            for entry in &entries {
                entry.say(alloc, said)?;
            }
            Ok(())
        }
        Err(error) => show(alloc, &error, said),
    }
}

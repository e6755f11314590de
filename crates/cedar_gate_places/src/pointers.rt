//! JSON pointers.

use std::alloc::{AllocError, Global};
use std::fmt::Write;

// The pointer of an item of the list at this pointer.
pub(crate) fn under(alloc: Global, path: &str, i: usize) -> Result<String, AllocError> {
    format!(in alloc; "{path}/{i}")
}

// The pointer of a member of the object at this pointer.
pub(crate) fn member(alloc: Global, path: &str, key: &str) -> Result<String, AllocError> {
    let mut text = String::from_str(alloc, path)?;
    push_member(&mut text, key)?;
    Ok(text)
}

// Appends the number of an item to the pointer of its list.
pub(crate) fn push_item(out: &mut String, i: usize) -> Result<(), AllocError> {
    write!(out, "/{i}")
}

// Appends the key of a member to the pointer of its object.
pub(crate) fn push_member(out: &mut String, key: &str) -> Result<(), AllocError> {
    out.push_str("/")?;
    for c in key.chars() {
        push_escaped(out, c)?;
    }
    Ok(())
}

// Appends a character of a key, as it stands in a pointer.
fn push_escaped(text: &mut String, c: char) -> Result<(), AllocError> {
    match c {
        '~' => text.push_str("~0"),
        '/' => text.push_str("~1"),
        c => text.push(c),
    }
}

//! Sets of many texts, asked for each of them: by their literals hashed, and along their members where one is no literal.

use cedar_expr::{ExtValue, Literal, Value, ValueKind};
use std::alloc::{AllocError, Global};
use std::rc::RcStr;

// The text with this number.
fn text(alloc: Global, number: u32) -> Result<Value<ExtValue>, AllocError> {
    let text = RcStr::from_string(format!(in alloc; "text {number}")?)?;
    Ok(Value::new(Literal::String(text).into(), None))
}

// How many of so many texts are members of the set of them and of these values.
fn contained(
    alloc: Global,
    size: u32,
    mut members: Vec<Value<ExtValue>>,
) -> Result<usize, AllocError> {
    for n in 0..size {
        members.push(text(alloc, n)?)?;
    }
    let held = Value::set(alloc, members, None)?;
    let ValueKind::Set(set) = held.value_kind() else {
        return Err(AllocError);
    };
    let mut count = 0usize;
    for n in 0..size {
        if set.contains(&text(alloc, n)?) {
            count = count.wrapping_add(1);
        }
    }
    Ok(count)
}

/// How many of so many texts their set has, which keeps them hashed.
pub fn hashed(alloc: Global, size: u32) -> Result<usize, AllocError> {
    contained(alloc, size, Vec::new(alloc))
}

/// How many of so many texts the set of them and of a record has, which are sought among its members in order.
pub fn ordered(alloc: Global, size: u32) -> Result<usize, AllocError> {
    let mut members = Vec::new(alloc);
    members.push(Value::empty_record(alloc, None)?)?;
    contained(alloc, size, members)
}

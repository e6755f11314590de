//! Values as texts.

use crate::constants::literal;
use crate::naming::{name, placed};
use crate::stack::{named, several, the_one};
use cedar_expr_values::{ExtValue, Value, ValueKind};
use std::alloc::{AllocError, Global};
use std::rc::Rc;

type V = Value<ExtValue>;

/// The value that the text writes: words with a space between two of them. The words:
/// - `true`, `-5`, `"text` (without a space), `User::a`
/// - `set=2`, a set of the last two; `record=a,b`, a record of the last two
/// - `ext=decimal/"1.5/7`, an extension value of the type `decimal`, made by a call of `decimal` with the text `1.5`, with the byte 7
///   as its key
///
/// Behind a word may stand the place of what it makes, as in `1@4`. Fails where the text writes no value, and when out of memory.
pub fn value(alloc: Global, text: &str) -> Result<V, AllocError> {
    let mut made = Vec::new(alloc);
    for word in text.split(' ') {
        let (word, place) = placed(word);
        let next = of_word(alloc, &mut made, word)?;
        made.push(next.with_maybe_source_loc(place))?;
    }
    the_one(made)
}

// The value that the word makes of the last ones.
fn of_word(alloc: Global, made: &mut Vec<V>, text: &str) -> Result<V, AllocError> {
    match text.split_once('=') {
        Some(("set", count)) => set(alloc, made, count),
        Some(("record", names)) => record(alloc, made, names),
        Some(("ext", call)) => extension(alloc, call),
        _ => Ok(Value::from(literal(alloc, text)?)),
    }
}

fn set(alloc: Global, made: &mut Vec<V>, count: &str) -> Result<V, AllocError> {
    Value::set(alloc, several(alloc, made, count)?, None)
}

// The record of fields of these names and the last values.
fn record(alloc: Global, made: &mut Vec<V>, names: &str) -> Result<V, AllocError> {
    Value::record(alloc, named(alloc, made, names)?, None)
}

// The extension value of a kind, the text of its call, and its key.
fn extension(alloc: Global, text: &str) -> Result<V, AllocError> {
    let (kind, text) = text.split_once('/').ok_or(AllocError)?;
    let (argument, key) = text.split_once('/').ok_or(AllocError)?;
    let key = vec![in alloc; key.parse::<u8>().ok().ok_or(AllocError)?]?;
    let args = vec![in alloc; literal(alloc, argument)?]?;
    let made = ExtValue::new(name(alloc, kind)?, name(alloc, kind)?, args, key);
    Ok(Value::new(ValueKind::ExtensionValue(Rc::new(alloc, made)?), None))
}

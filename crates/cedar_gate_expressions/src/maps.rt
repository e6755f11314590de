//! Objects, read into maps by their keys.
ghost use Rattle.std.specs.Prelude.{◌≡◌, Some, None, IfOk, IfErr};
ghost use Rattle.cedar_gate_expressions.specs.Maps.{texts_at, texts_in, texts_of, texts_seen, words_at, words_in, words_of, words_seen};
ghost use Rattle.cedar_gate_expressions.specs.declared.fault.ReadFault.TheVariants.{Unreadable};

use crate::fault::ReadFault;
use crate::lists::Reader;
use cedar_expr_names::Id;
use serde_json::{Map, Value};
use std::alloc::Global;
use std::collections::BTreeMap;
use std::rc::RcStr;

/// Reads what stands under identifiers in the object at the key: nothing, where the key is missing. Refuses another key than an
/// identifier, and a member of another form.
pub fn optional_words<R: Reader>(
    alloc: Global,
    reader: &R,
    value: &Value,
    key: &str,
) -> Result<BTreeMap<Id, R::Item>, ReadFault>
    ensures ok { IfOk result (λ m. words_at key.now (R.reading reader.now) value.now ≡ Some (words_seen R.seen m.entries)) }
    ensures unreadable { IfErr result (λ f. f ≡ Unreadable → words_at key.now (R.reading reader.now) value.now ≡ None) }
{
    match value.get(key) {
        None => Ok(BTreeMap::new(alloc)),
        Some(member) => read_words(alloc, reader, member),
    }
}

// Reads what stands under identifiers in an object.
fn read_words<R: Reader>(
    alloc: Global,
    reader: &R,
    value: &Value,
) -> Result<BTreeMap<Id, R::Item>, ReadFault>
    ensures ok { IfOk result (λ m. words_of (R.reading reader.now) value.now ≡ Some (words_seen R.seen m.entries)) }
    ensures unreadable { IfErr result (λ f. f ≡ Unreadable → words_of (R.reading reader.now) value.now ≡ None) }
{
    match value {
        Value::Object(members) => read_each_word(alloc, reader, members),
        _ => Err(ReadFault::Unreadable),
    }
}

// Reads what stands under identifiers, in the order of the keys.
fn read_each_word<R: Reader>(
    alloc: Global,
    reader: &R,
    members: &Map<String, Value>,
) -> Result<BTreeMap<Id, R::Item>, ReadFault>
    ensures ok { IfOk result (λ m. words_in (R.reading reader.now) members.now.entries ≡ Some (words_seen R.seen m.entries)) }
    ensures unreadable { IfErr result (λ f. f ≡ Unreadable → words_in (R.reading reader.now) members.now.entries ≡ None) }
{
    let mut made = BTreeMap::new(alloc);
    for (key, member) in members.iter() {
        let word = Id::from_normalized_str(alloc, key.as_str())?;
        let item = reader.read(alloc, member)?;
        drop(made.insert(word, item)?);
    }
    Ok(made)
}

/// Reads what stands under any texts in the object at the key: nothing, where the key is missing. Refuses a member of another form.
pub fn optional_texts<R: Reader>(
    alloc: Global,
    reader: &R,
    value: &Value,
    key: &str,
) -> Result<BTreeMap<RcStr, R::Item>, ReadFault>
    ensures ok { IfOk result (λ m. texts_at key.now (R.reading reader.now) value.now ≡ Some (texts_seen R.seen m.entries)) }
    ensures unreadable { IfErr result (λ f. f ≡ Unreadable → texts_at key.now (R.reading reader.now) value.now ≡ None) }
{
    match value.get(key) {
        None => Ok(BTreeMap::new(alloc)),
        Some(member) => read_texts(alloc, reader, member),
    }
}

// Reads what stands under any texts in an object.
fn read_texts<R: Reader>(
    alloc: Global,
    reader: &R,
    value: &Value,
) -> Result<BTreeMap<RcStr, R::Item>, ReadFault>
    ensures ok { IfOk result (λ m. texts_of (R.reading reader.now) value.now ≡ Some (texts_seen R.seen m.entries)) }
    ensures unreadable { IfErr result (λ f. f ≡ Unreadable → texts_of (R.reading reader.now) value.now ≡ None) }
{
    match value {
        Value::Object(members) => read_each_text(alloc, reader, members),
        _ => Err(ReadFault::Unreadable),
    }
}

// Reads what stands under any texts, in the order of the keys.
fn read_each_text<R: Reader>(
    alloc: Global,
    reader: &R,
    members: &Map<String, Value>,
) -> Result<BTreeMap<RcStr, R::Item>, ReadFault>
    ensures ok { IfOk result (λ m. texts_in (R.reading reader.now) members.now.entries ≡ Some (texts_seen R.seen m.entries)) }
    ensures unreadable { IfErr result (λ f. f ≡ Unreadable → texts_in (R.reading reader.now) members.now.entries ≡ None) }
{
    let mut made = BTreeMap::new(alloc);
    for (key, member) in members.iter() {
        let name = RcStr::from_str(alloc, key.as_str())?;
        let item = reader.read(alloc, member)?;
        drop(made.insert(name, item)?);
    }
    Ok(made)
}

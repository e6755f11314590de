//! Objects, read into pairs of a name and what stands under it.
ghost use Rattle.std.specs.Prelude.{◌≡◌, true, Some, None, IfOk, IfErr};
ghost use Rattle.cedar_expr_model.specs.Records.{names_rise};
ghost use Rattle.cedar_gate_expressions.specs.Maps.{texts_at, texts_in, texts_of, texts_seen};
ghost use Rattle.cedar_gate_expressions.specs.declared.fault.ReadFault.TheVariants.{Unreadable};

use crate::fault::ReadFault;
use crate::lists::Reader;
use serde_json::{Map, Value};
use std::alloc::Global;
use std::rc::RcStr;

/// Reads what stands under any texts in the object at the key, in the order of the texts: nothing, where the key is missing.
/// Refuses a member of another form.
pub fn optional_pairs<R: Reader>(
    alloc: Global,
    reader: &R,
    value: &Value,
    key: &str,
) -> Result<Vec<(RcStr, R::Item)>, ReadFault>
    ensures ok { IfOk result (λ v. texts_at key.now (R.reading reader.now) value.now ≡ Some (texts_seen R.seen v.items)) }
    ensures rising { IfOk result (λ v. names_rise (texts_seen R.seen v.items) ≡ true) }
    ensures unreadable { IfErr result (λ f. f ≡ Unreadable → texts_at key.now (R.reading reader.now) value.now ≡ None) }
{
    match value.get(key) {
        None => Ok(Vec::new(alloc)),
        Some(member) => read_pairs(alloc, reader, member),
    }
}

// Reads what stands under any texts in an object.
fn read_pairs<R: Reader>(
    alloc: Global,
    reader: &R,
    value: &Value,
) -> Result<Vec<(RcStr, R::Item)>, ReadFault>
    ensures ok { IfOk result (λ v. texts_of (R.reading reader.now) value.now ≡ Some (texts_seen R.seen v.items)) }
    ensures rising { IfOk result (λ v. names_rise (texts_seen R.seen v.items) ≡ true) }
    ensures unreadable { IfErr result (λ f. f ≡ Unreadable → texts_of (R.reading reader.now) value.now ≡ None) }
{
    match value {
        Value::Object(members) => read_each_pair(alloc, reader, members),
        _ => Err(ReadFault::Unreadable),
    }
}

// Reads what stands under any texts, in the order of the keys.
fn read_each_pair<R: Reader>(
    alloc: Global,
    reader: &R,
    members: &Map<String, Value>,
) -> Result<Vec<(RcStr, R::Item)>, ReadFault>
    ensures ok { IfOk result (λ v. texts_in (R.reading reader.now) members.now.entries ≡ Some (texts_seen R.seen v.items)) }
    ensures rising { IfOk result (λ v. names_rise (texts_seen R.seen v.items) ≡ true) }
    ensures unreadable { IfErr result (λ f. f ≡ Unreadable → texts_in (R.reading reader.now) members.now.entries ≡ None) }
{
    let mut made = Vec::with_capacity(alloc, members.len())?;
    for (key, member) in members.iter() {
        let name = RcStr::from_str(alloc, key.as_str())?;
        let item = reader.read(alloc, member)?;
        made.push((name, item))?;
    }
    Ok(made)
}

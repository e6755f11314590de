//! What stands at a key that may be missing.
ghost use Rattle.std.specs.Prelude.{◌≡◌, Some, None, IfOk, IfErr, map, option_map};
ghost use Rattle.cedar_gate_expressions.specs.Maps.{list_at, value_at};
ghost use Rattle.cedar_gate_expressions.specs.declared.fault.ReadFault.TheVariants.{Unreadable};

use crate::fault::ReadFault;
use crate::lists::{Reader, read_list};
use serde_json::Value;
use std::alloc::Global;

/// Reads the value at the key, if there is one.
pub fn optional<R: Reader>(
    alloc: Global,
    reader: &R,
    value: &Value,
    key: &str,
) -> Result<Option<R::Item>, ReadFault>
    ensures ok { IfOk result (λ o. value_at key.now (R.reading reader.now) value.now ≡ Some (option_map R.seen o)) }
    ensures unreadable { IfErr result (λ f. f ≡ Unreadable → value_at key.now (R.reading reader.now) value.now ≡ None) }
{
    match value.get(key) {
        None => Ok(None),
        Some(member) => Ok(Some(reader.read(alloc, member)?)),
    }
}

/// Reads the list at the key: an empty one, where the key is missing.
pub fn optional_list<R: Reader>(
    alloc: Global,
    reader: &R,
    value: &Value,
    key: &str,
) -> Result<Vec<R::Item>, ReadFault>
    ensures ok { IfOk result (λ v. list_at key.now (R.reading reader.now) value.now ≡ Some (map R.seen v.items)) }
    ensures unreadable { IfErr result (λ f. f ≡ Unreadable → list_at key.now (R.reading reader.now) value.now ≡ None) }
{
    match value.get(key) {
        None => Ok(Vec::new(alloc)),
        Some(member) => read_list(alloc, reader, member),
    }
}

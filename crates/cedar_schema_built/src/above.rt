//! Rows by key: what stands above each key, as it is gathered.

ghost use Rattle.std.specs.Prelude.{◌≡◌, OnOk};
ghost use Rattle.std.specs.BTreeMap.{get};
ghost use Rattle.cedar_schema_built.specs.Above.{row_of, IsTaken, IsAdded};

use std::alloc::{AllocError, Global};
use std::collections::BTreeMap;

// Takes out what stands under this key.
pub(crate) fn take_row<K: Ord + Drop>(
    above: &mut BTreeMap<K, Vec<K>>,
    alloc: Global,
    key: &K,
) -> Vec<K>
    ensures row { result.items ≡ row_of (get K.cmp above.old) key.now }
    ensures others { IsTaken K.cmp key.now (get K.cmp above.old) (get K.cmp above.new) }
{
    match above.remove(key) {
        Some(row) => row,
        None => Vec::new(alloc),
    }
}

// Puts one behind those that stand under this key. Fails only when out of memory.
pub(crate) fn add_above<K: Ord + Drop>(
    above: &mut BTreeMap<K, Vec<K>>,
    alloc: Global,
    key: K,
    ancestor: K,
) -> Result<(), AllocError>
    ensures { OnOk result (IsAdded K.cmp key ancestor (get K.cmp above.old) (get K.cmp above.new)) }
{
    if let Some(row) = above.get_mut(&key) {
        row.push(ancestor)?;
        return Ok(());
    }
    let mut row = Vec::new(alloc);
    row.push(ancestor)?;
    above.insert(key, row)?;
    Ok(())
}

//! Maps of pairs whose keys differ.

ghost use Rattle.std.specs.Prelude.{◌≡◌, Some, None, IfOk, IfErr, OnOk, IsPermutation};
ghost use Rattle.std.specs.BTreeMap.{get, insert_entry, Updates};
ghost use Rattle.std.specs.Map.{keys_of};
ghost use Rattle.std.specs.Ordering.{eq_by_cmp};
ghost use Rattle.cedar_expr_model.specs.Repeats.{repeated};
ghost use Rattle.cedar_expr_functions.specs.Collected.{IsMapOf, RefusesKeys, RefusesKey};
ghost use Rattle.cedar_expr_functions.specs.declared.err.CollectError.TheVariants.{OutOfMemory};

use crate::err::CollectError;
use std::alloc::Global;
use std::collections::BTreeMap;

/// The map of these pairs. Refuses a key that is met again, which it hands out, and fails when out of memory.
pub fn collect_no_duplicates<K: Ord + Drop, V: Drop>(
    alloc: Global,
    pairs: Vec<(K, V)>,
) -> Result<BTreeMap<K, V>, CollectError<K>>
    ensures finds { IfOk result (IsMapOf K.cmp pairs.items) }
    ensures pairs { IfOk result (λ m. IsPermutation pairs.items m.entries) }
    ensures distinct { OnOk result (repeated (eq_by_cmp K.cmp) (keys_of pairs.items) ≡ None) }
    ensures refused { IfErr result (RefusesKeys K.cmp (keys_of pairs.items)) }
{
    let mut map = BTreeMap::new(alloc);
    for (key, value) in pairs {
        add_new(&mut map, key, value)?;
    }
    Ok(map)
}

// Puts one more pair into the map, unless its key is there.
fn add_new<K: Ord + Drop, V: Drop>(
    map: &mut BTreeMap<K, V>,
    key: K,
    value: V,
) -> Result<(), CollectError<K>>
    ensures added { OnOk result (Updates K.cmp map.old map.new key (Some value)) }
    ensures entries { OnOk result (map.new.entries ≡ insert_entry K.cmp map.old.entries key value) }
    ensures absent { OnOk result (get K.cmp map.old key ≡ None) }
    ensures refused { IfErr result (RefusesKey K.cmp map.old key) }
{
    if map.contains_key(&key) {
        return Err(CollectError::Repeated(key));
    }
    map.insert(key, value)?;
    Ok(())
}

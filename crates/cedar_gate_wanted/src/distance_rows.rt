//! Rows of uids: what each loaded uid mentions, and what is to be followed at each distance.

ghost use Rattle.std.specs.Prelude.{Option, ◌≡◌, ◌⊎◌, ◌≤◌, ℕ, OnOk, IfOk, Contains};
ghost use Rattle.std.specs.Ordering.{nat_cmp};
ghost use Rattle.std.specs.BTreeMap.{get, btree_map_len};
ghost use Rattle.cedar_expr_names.specs.Views.{uid_of};
ghost use Rattle.cedar_gate_wanted.specs.Rows.{found_at, mentions_in, row_of, uids, AreInRows, KeepsRows};

use crate::near::{Near, distance_of};
use cedar_expr_names::EntityUID;
use std::alloc::{AllocError, Global};
use std::collections::BTreeMap;

/// What each loaded uid mentions.
pub type Loaded = BTreeMap<EntityUID, Vec<EntityUID>>;

/// The uids to be followed, by their distances.
pub(crate) type Pending = BTreeMap<u64, Vec<EntityUID>>;

/// What a uid mentions, nothing where it isn't loaded.
pub fn mentions<'a>(loaded: &'a Loaded, uid: &EntityUID) -> &'a [EntityUID]
    ensures { uids result.now ≡ mentions_in loaded.now (uid_of uid.now) }
{
    match loaded.get(uid) {
        Some(row) => row.as_slice(),
        None => &[],
    }
}

// Takes out the row under this distance, an empty one where there is none.
pub(crate) fn take_row(pending: &mut Pending, alloc: Global, distance: u64) -> Vec<EntityUID>
    ensures row { uids result.items ≡ row_of (get nat_cmp pending.old) distance }
    ensures here { get nat_cmp pending.new distance ≡ Option.None }
    ensures others { (q : ℕ) → (q ≡ distance) ⊎ (get nat_cmp pending.new q ≡ get nat_cmp pending.old q) }
    ensures len { btree_map_len pending.new ≤ btree_map_len pending.old }
{
    match pending.remove(&distance) {
        Some(row) => row,
        None => Vec::new(alloc),
    }
}

// Puts a uid into the row under this distance.
fn put(
    pending: &mut Pending,
    alloc: Global,
    distance: u64,
    uid: EntityUID,
) -> Result<(), AllocError>
    ensures put { OnOk result (Contains (row_of (get nat_cmp pending.new) distance) (uid_of uid)) }
    ensures kept { OnOk result (KeepsRows (row_of (get nat_cmp pending.old)) (row_of (get nat_cmp pending.new))) }
{
    let mut row = take_row(pending, alloc, distance);
    row.push(uid)?;
    pending.insert(distance, row)?;
    Ok(())
}

// Each of these uids that has a distance, in the row under it.
pub(crate) fn rows_at(near: &Near, keys: &[EntityUID], alloc: Global) -> Result<Pending, AllocError>
    ensures { IfOk result (λ rows. AreInRows (uids keys.now) (found_at near.now) (row_of (get nat_cmp rows))) }
{
    let mut pending = BTreeMap::new(alloc);
    for key in keys {
        if let Some(distance) = distance_of(near, key) {
            put(&mut pending, alloc, distance, key.clone()?)?;
        }
    }
    Ok(pending)
}

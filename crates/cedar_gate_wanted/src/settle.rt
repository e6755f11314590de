//! Distances are settled by rows, the nearest first.

ghost use Rattle.std.specs.Prelude.{◌≡◌, ◌⊎◌, ◌+◌, ◌<◌, ◌≤◌, ◌^◌, ℕ, OnOk, IsTrue, ◌↔◌};
ghost use Rattle.std.specs.Ordering.{nat_cmp};
ghost use Rattle.std.specs.BTreeMap.{get, btree_map_len};
ghost use Rattle.cedar_gate_wanted.specs.Following.{FollowsRow, SettlesRows};
ghost use Rattle.cedar_gate_wanted.specs.Kept.{AddsRoots, KeepsUndo, TakesLoaded};
ghost use Rattle.cedar_gate_wanted.specs.Rows.{found_at, mentions_in, row_of, KeepsMembers, uids, writes};

use crate::distance_rows::{Loaded, Pending, rows_at, take_row};
use crate::follow::{follow, spread};
use crate::near::{Log, Near};
use cedar_expr_names::EntityUID;
use std::alloc::{AllocError, Global};
use std::collections::BTreeMap;

// Follows a row at this distance: what is lowered by it goes into the row at the next.
fn step(
    near: &mut Near,
    log: &mut Log,
    pending: &mut Pending,
    loaded: &Loaded,
    keys: &[EntityUID],
    distance: u64,
    alloc: Global,
) -> Result<(), AllocError>
    requires { distance + 1 < 2 ^ 64 }
    ensures followed { OnOk result (FollowsRow loaded.now near.old near.new distance keys.now (row_of (get nat_cmp pending.new) (distance + 1))) }
    ensures others { OnOk result ((q : ℕ) → (q ≡ distance + 1) ⊎ (get nat_cmp pending.new q ≡ get nat_cmp pending.old q)) }
    ensures row { OnOk result (KeepsMembers (row_of (get nat_cmp pending.old) (distance + 1)) (row_of (get nat_cmp pending.new) (distance + 1))) }
    ensures len { OnOk result (btree_map_len pending.new ≤ btree_map_len pending.old + 1) }
    ensures undo { KeepsUndo (writes log.old.items) (writes log.new.items) (found_at near.old) (found_at near.new) }
{
    let mut next = take_row(pending, alloc, distance + 1);
    follow(near, log, &mut next, loaded, keys, distance)?;
    if !next.is_empty() {
        pending.insert(distance + 1, next)?;
    }
    Ok(())
}

// Whether the next distance is below the level.
fn has_next(distance: u64, level: u64) -> bool
    ensures { IsTrue result ↔ distance + 1 < level }
{
    distance < level && level - distance > 1
}

// Follows all that is pending, the nearest first, until nothing is.
fn settle(
    near: &mut Near,
    log: &mut Log,
    loaded: &Loaded,
    mut pending: Pending,
    level: u64,
    alloc: Global,
) -> Result<(), AllocError>
    ensures settled { OnOk result (SettlesRows loaded.now level pending near.old near.new) }
    ensures undo { KeepsUndo (writes log.old.items) (writes log.new.items) (found_at near.old) (found_at near.new) }
{
    let mut floor = 0u64;
    'rows: while let Some((distance, keys)) = pending.pop_first() {
        if has_next(distance, level) {
            step(
                near,
                log,
                &mut pending,
                loaded,
                keys.as_slice(),
                distance,
                alloc,
            )?;
            floor = distance + 1;
        }
    }
    Ok(())
}

// Adds roots, and lowers what is loaded by them.
pub(crate) fn add_roots(
    near: &mut Near,
    log: &mut Log,
    loaded: &Loaded,
    roots: &[EntityUID],
    level: u64,
    alloc: Global,
) -> Result<(), AllocError>
    ensures kept { OnOk result (AddsRoots (uids roots.now) (mentions_in loaded.now) level (found_at near.old) (found_at near.new)) }
    ensures undo { KeepsUndo (writes log.old.items) (writes log.new.items) (found_at near.old) (found_at near.new) }
{
    if level == 0 {
        return Ok(());
    }
    let mut next = Vec::new(alloc);
    spread(near, log, &mut next, roots, 0)?;
    let mut pending = BTreeMap::new(alloc);
    pending.insert(0, next)?;
    settle(near, log, loaded, pending, level, alloc)?;
    Ok(())
}

// Lowers by what these uids mention, which are loaded now: what the others mention is as before.
pub(crate) fn follow_loaded(
    near: &mut Near,
    log: &mut Log,
    loaded: &Loaded,
    keys: &[EntityUID],
    level: u64,
    alloc: Global,
) -> Result<(), AllocError>
    ensures kept { OnOk result (TakesLoaded (uids keys.now) (mentions_in loaded.now) level (found_at near.old) (found_at near.new)) }
    ensures undo { KeepsUndo (writes log.old.items) (writes log.new.items) (found_at near.old) (found_at near.new) }
{
    let pending = rows_at(near, keys, alloc)?;
    settle(near, log, loaded, pending, level, alloc)?;
    Ok(())
}

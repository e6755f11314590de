//! What uids mention is lowered to one more than their distance.

ghost use Rattle.std.specs.Prelude.{◌≡◌, ◌+◌, ◌<◌, ◌^◌, OnOk};
ghost use Rattle.cedar_gate_wanted.specs.Following.{FollowsRow};
ghost use Rattle.cedar_gate_wanted.specs.Kept.{IsSpread, KeepsUndo};
ghost use Rattle.cedar_gate_wanted.specs.Rows.{found_at, uids, writes, KeepsMembers};

use crate::distance_rows::{Loaded, mentions};
use crate::near::{Log, Near, distance_of, lower};
use cedar_expr_names::EntityUID;
use std::alloc::AllocError;

// Lowers each of these uids to this distance, and adds those that were lowered to the list.
pub(crate) fn spread(
    near: &mut Near,
    log: &mut Log,
    next: &mut Vec<EntityUID>,
    mentioned: &[EntityUID],
    distance: u64,
) -> Result<(), AllocError>
    ensures spread { OnOk result (IsSpread (found_at near.old) (found_at near.new) distance (uids mentioned.now) (uids next.new.items)) }
    ensures next { KeepsMembers (uids next.old.items) (uids next.new.items) }
    ensures undo { KeepsUndo (writes log.old.items) (writes log.new.items) (found_at near.old) (found_at near.new) }
{
    for uid in mentioned {
        if lower(near, log, uid, distance)? {
            next.push(uid.clone()?)?;
        }
    }
    Ok(())
}

// Lowers what each of these uids mentions to one more than this distance, where the uid is kept at it.
pub(crate) fn follow(
    near: &mut Near,
    log: &mut Log,
    next: &mut Vec<EntityUID>,
    loaded: &Loaded,
    keys: &[EntityUID],
    distance: u64,
) -> Result<(), AllocError>
    requires { distance + 1 < 2 ^ 64 }
    ensures followed { OnOk result (FollowsRow loaded.now near.old near.new distance keys.now (uids next.new.items)) }
    ensures next { KeepsMembers (uids next.old.items) (uids next.new.items) }
    ensures undo { KeepsUndo (writes log.old.items) (writes log.new.items) (found_at near.old) (found_at near.new) }
{
    for key in keys {
        if distance_of(near, key) == Some(distance) {
            spread(near, log, next, mentions(loaded, key), distance + 1)?;
        }
    }
    Ok(())
}

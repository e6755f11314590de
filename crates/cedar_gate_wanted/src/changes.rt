//! The changes of distances: new roots, and what is loaded.

ghost use Rattle.std.specs.Prelude.{◌≡◌, OnOk, OnErr, IfOk};
ghost use Rattle.cedar_expr_model.specs.Uid.{Uid};
ghost use Rattle.cedar_gate_wanted.specs.Kept.{AddsRoots, TakesLoaded, IsUndo};
ghost use Rattle.cedar_gate_wanted.specs.Rows.{found_at, mentions_in, uids, writes};

use crate::distance_rows::Loaded;
use crate::near::{Log, Near, undo};
use crate::settle::{add_roots, follow_loaded};
use cedar_expr_names::EntityUID;
use std::alloc::{AllocError, Global};

/// Adds roots, and lowers by what is loaded all that they bring nearer. Gives the writes, by which the change can be undone. Errors: when
/// out of memory the distances are as before.
pub fn add(
    near: &mut Near,
    loaded: &Loaded,
    roots: &[EntityUID],
    level: u64,
    alloc: Global,
) -> Result<Log, AllocError>
    ensures kept { OnOk result (AddsRoots (uids roots.now) (mentions_in loaded.now) level (found_at near.old) (found_at near.new)) }
    ensures log { IfOk result (λ log. IsUndo (writes log.items) (found_at near.old) (found_at near.new)) }
    ensures unchanged { OnErr result ((x : Uid) → found_at near.new x ≡ found_at near.old x) }
{
    let mut log = Vec::new(alloc);
    match add_roots(near, &mut log, loaded, roots, level, alloc) {
        Ok(()) => Ok(log),
        Err(error) => {
            undo(near, log);
            Err(error)
        }
    }
}

/// Lowers by what these uids mention, which are loaded now, all that they bring nearer. Gives the writes, by which the change can be
/// undone. Errors: when out of memory the distances are as before.
pub fn supply(
    near: &mut Near,
    loaded: &Loaded,
    keys: &[EntityUID],
    level: u64,
    alloc: Global,
) -> Result<Log, AllocError>
    ensures kept { OnOk result (TakesLoaded (uids keys.now) (mentions_in loaded.now) level (found_at near.old) (found_at near.new)) }
    ensures log { IfOk result (λ log. IsUndo (writes log.items) (found_at near.old) (found_at near.new)) }
    ensures unchanged { OnErr result ((x : Uid) → found_at near.new x ≡ found_at near.old x) }
{
    let mut log = Vec::new(alloc);
    match follow_loaded(near, &mut log, loaded, keys, level, alloc) {
        Ok(()) => Ok(log),
        Err(error) => {
            undo(near, log);
            Err(error)
        }
    }
}

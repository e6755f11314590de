//! What is supplied, taken in.

ghost use Rattle.std.specs.Prelude.{◌≡◌, Contains, IfOk, OnOk, OnErr, IsSome, true};
ghost use Rattle.cedar_expr_model.specs.Uid.{Uid};
ghost use Rattle.cedar_expr_model.specs.UidOrder.{are_rising};
ghost use Rattle.cedar_gate_wanted.specs.Following.{IsExact, KeepsRoots, WhereSupplied};
ghost use Rattle.cedar_gate_wanted.specs.Rows.{found_at, uids, NothingStandsAt};
ghost use Rattle.cedar_gate_wanted.specs.Supplying.{rows_of, keys_in, IsFilled};

use crate::next::{DeclaredActions, next_wanted};
use crate::rows::put_rows;
use crate::{Loaded, Near, supply, undo};
use cedar_expr_names::EntityUID;
use std::alloc::{AllocError, Global};

// Takes in these rows of wanted uids, and gives what is wanted after it. Errors: the distances are as before, and the rows but at these
// uids.
pub(crate) fn take<S: DeclaredActions>(
    alloc: Global,
    schema: &S,
    near: &mut Near,
    rows: &mut Loaded,
    wanted: &[EntityUID],
    level: u64,
    more: Vec<(EntityUID, Vec<EntityUID>)>,
) -> Result<Vec<EntityUID>, AllocError>
    ensures rising { IfOk result (λ us. are_rising (uids us.items) ≡ true) }
    ensures fresh { IfOk result (λ us. NothingStandsAt (uids us.items) (found_at rows.new)) }
    ensures filled { OnOk result (IsFilled (rows_of more.items) (found_at rows.old) (found_at rows.new)) }
    ensures exact { IfOk result (λ us. WhereSupplied (S.schema schema.now) wanted.now near.old rows.old more.items (IsExact (S.schema schema.now) us.items near.new rows.new)) }
    ensures stays { OnOk result ((u : Uid) → IsSome (found_at near.old u) → IsSome (found_at near.new u)) }
    ensures kept { OnOk result (WhereSupplied (S.schema schema.now) wanted.now near.old rows.old more.items (KeepsRoots level rows.old rows.new near.old near.new)) }
    ensures near { OnErr result ((u : Uid) → found_at near.new u ≡ found_at near.old u) }
    ensures rows { OnErr result ((u : Uid) → (Contains (keys_in more.items) u → ⊥) → found_at rows.new u ≡ found_at rows.old u) }
{
    put_rows(rows, more)?;
    let log = supply(near, rows, wanted, level, alloc)?;
    match next_wanted(alloc, schema, near, rows, &log, &[]) {
        Ok(wanted) => Ok(wanted),
        Err(error) => {
            undo(near, log);
            Err(error)
        }
    }
}

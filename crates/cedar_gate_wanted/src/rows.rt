//! Rows of uids put in and taken out.

ghost use Rattle.std.specs.Prelude.{◌≡◌, ◌⊎◌, None, Contains, OnOk, OnErr};
ghost use Rattle.cedar_expr_model.specs.Uid.{Uid};
ghost use Rattle.cedar_expr_names.specs.Views.{uid_of};
ghost use Rattle.cedar_gate_wanted.specs.Rows.{found_at, uids};
ghost use Rattle.cedar_gate_wanted.specs.Supplying.{rows_of, keys_in, IsFilled, IsOut};

use crate::Loaded;
use cedar_expr_names::EntityUID;
use std::alloc::AllocError;
use std::collections::BTreeMap;

// Puts a row in.
fn put_row(rows: &mut Loaded, uid: EntityUID, row: Vec<EntityUID>) -> Result<(), AllocError>
    ensures here { OnOk result (found_at rows.new (uid_of uid) ≡ Some row) }
    ensures apart { OnOk result ((x : Uid) → (x ≡ uid_of uid) ⊎ (found_at rows.new x ≡ found_at rows.old x)) }
    ensures unchanged { OnErr result ((x : Uid) → found_at rows.new x ≡ found_at rows.old x) }
{
    rows.insert(uid, row)?;
    Ok(())
}

/// Puts these rows in. Fails only when out of memory; some may be in then.
pub(crate) fn put_rows(
    rows: &mut Loaded,
    more: Vec<(EntityUID, Vec<EntityUID>)>,
) -> Result<(), AllocError>
    ensures filled { OnOk result (IsFilled (rows_of more.items) (found_at rows.old) (found_at rows.new)) }
    ensures others { (u : Uid) → (Contains (keys_in more.items) u → ⊥) → found_at rows.new u ≡ found_at rows.old u }
{
    for (uid, row) in more {
        put_row(rows, uid, row)?;
    }
    Ok(())
}

// Takes out what stands at the uid.
fn take_out<X: Drop>(rows: &mut BTreeMap<EntityUID, X>, uid: &EntityUID)
    ensures here { found_at rows.new (uid_of uid.now) ≡ None }
    ensures apart { (x : Uid) → (x ≡ uid_of uid.now) ⊎ (found_at rows.new x ≡ found_at rows.old x) }
{
    rows.remove(uid);
}

/// Takes out what stands at these uids.
pub(crate) fn take_out_all<X: Drop>(rows: &mut BTreeMap<EntityUID, X>, keys: &[EntityUID])
    ensures { (u : Uid) → IsOut (uids keys.now) (found_at rows.old) (found_at rows.new) u }
{
    for key in keys {
        take_out(rows, key);
    }
}

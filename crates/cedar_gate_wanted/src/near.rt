//! The map of distances, and the log of what was written into it.

ghost use Rattle.std.specs.Prelude.{Option, ◌≡◌, ◌⊎◌, ℕ, OnOk, OnErr, IfOk, true, false, suc, IsSome};
ghost use Rattle.cedar_expr_model.specs.Uid.{Uid};
ghost use Rattle.cedar_expr_names.specs.Views.{uid_of};
ghost use Rattle.cedar_gate_wanted.specs.Near.{IsBelow};
ghost use Rattle.cedar_gate_wanted.specs.Kept.{IsLowered, IsUndo, KeepsUndo};
ghost use Rattle.cedar_gate_wanted.specs.Rows.{found_at, writes};

use cedar_expr_names::EntityUID;
use std::alloc::AllocError;
use std::collections::BTreeMap;

/// Uids with their distances.
pub type Near = BTreeMap<EntityUID, u64>;

/// Writes into such a map, in their order: where, and what stood there before.
pub type Log = Vec<(EntityUID, Option<u64>)>;

// The distance of a uid, where it has one.
pub(crate) fn distance_of(near: &Near, uid: &EntityUID) -> Option<u64>
    ensures { result ≡ found_at near.now (uid_of uid.now) }
{
    near.get(uid).copied()
}

// Puts a uid at a distance. Out of memory the map stays as it is; only a new uid takes memory.
fn put_at(near: &mut Near, uid: EntityUID, distance: u64) -> Result<(), AllocError>
    ensures here { OnOk result (found_at near.new (uid_of uid) ≡ Option.Some distance) }
    ensures apart { OnOk result ((x : Uid) → (x ≡ uid_of uid) ⊎ (found_at near.new x ≡ found_at near.old x)) }
    ensures unchanged { OnErr result ((x : Uid) → found_at near.new x ≡ found_at near.old x) }
    ensures fresh { OnErr result (found_at near.old (uid_of uid) ≡ Option.None) }
{
    near.insert(uid, distance)?;
    Ok(())
}

// Lowers a uid to this distance, if it is farther or absent, and says whether it was. What stood there goes into the log.
pub(crate) fn lower(
    near: &mut Near,
    log: &mut Log,
    uid: &EntityUID,
    distance: u64,
) -> Result<bool, AllocError>
    ensures lowered { IfOk result (λ b. b ≡ true → IsLowered (found_at near.old) (found_at near.new) (uid_of uid.now) distance) }
    ensures same { IfOk result (λ b. b ≡ false → (x : Uid) → found_at near.new x ≡ found_at near.old x) }
    ensures at { OnOk result (IsBelow (found_at near.new) (suc distance) (uid_of uid.now)) }
    ensures undo { KeepsUndo (writes log.old.items) (writes log.new.items) (found_at near.old) (found_at near.new) }
{
    let was = distance_of(near, uid);
    if let Some(now) = was {
        if now <= distance {
            return Ok(false);
        }
    }
    log.push((uid.clone()?, was))?;
    put_at(near, uid.clone()?, distance)?;
    Ok(true)
}

// Puts back what stood at a uid.
fn put_back(near: &mut Near, uid: EntityUID, was: Option<u64>)
    ensures here { (IsSome was → IsSome (found_at near.old (uid_of uid))) → found_at near.new (uid_of uid) ≡ was }
    ensures apart { (x : Uid) → (x ≡ uid_of uid) ⊎ (found_at near.new x ≡ found_at near.old x) }
{
    match was {
        Some(distance) => {
            let _ = put_at(near, uid, distance);
        }
        None => take_out(near, &uid),
    }
}

// Takes a uid out.
fn take_out(near: &mut Near, uid: &EntityUID)
    ensures here { found_at near.new (uid_of uid.now) ≡ Option.None }
    ensures apart { (x : Uid) → (x ≡ uid_of uid.now) ⊎ (found_at near.new x ≡ found_at near.old x) }
{
    near.remove(uid);
}

/// Undoes the writes of a log, the last first. It takes no memory.
pub fn undo(near: &mut Near, mut log: Log)
    ensures { (f : Uid → Option ℕ) → IsUndo (writes log.items) f (found_at near.old) → (x : Uid) → found_at near.new x ≡ f x }
{
    'writes: while let Some((uid, was)) = log.pop() {
        put_back(near, uid, was);
    }
}

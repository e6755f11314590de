//! Whether what is supplied is what is wanted.

ghost use Rattle.std.specs.Prelude.{◌≡◌, ◌⊎◌, OnOk, IfOk, IfErr, is_some, MatchOption, Some};
ghost use Rattle.std.specs.List.{list_all};
ghost use Rattle.cedar_expr_model.specs.Uid.{Uid};
ghost use Rattle.cedar_expr_names.specs.Views.{uid_of};
ghost use Rattle.cedar_gate_wanted.specs.Rows.{found_at, uids};
ghost use Rattle.cedar_gate_wanted.specs.Supplying.{keys_in, AreKeys, HasRepeated, HoldsEachOnce, IsUnfit};

use crate::rows::take_out_all;
use cedar_expr_names::EntityUID;
use std::alloc::{AllocError, Global};
use std::collections::BTreeMap;

/// Why what is supplied isn't taken in.
#[derive(Clone, Copy, Debug, PartialEq, Eq)]
pub enum Unfit {
    /// Out of memory.
    OutOfMemory,
    /// A uid isn't wanted.
    NotWanted,
    /// A wanted uid is missing.
    Lacking,
    /// A uid is given twice.
    Repeated,
}

impl From<AllocError> for Unfit {
    ghost use Rattle.cedar_gate_wanted.specs.declared.supplied.Unfit.TheVariants.{OutOfMemory};

    ghost from_gives = { λ _ e. e ≡ OutOfMemory };

    fn from(_error: AllocError) -> Unfit {
        Unfit::OutOfMemory
    }
}

// Puts a uid among others. Gives whether it was among them.
fn put_key(keys: &mut BTreeMap<EntityUID, ()>, uid: EntityUID) -> Result<bool, AllocError>
    ensures stood { IfOk result (λ b. b ≡ is_some (found_at keys.old (uid_of uid))) }
    ensures here { OnOk result (found_at keys.new (uid_of uid) ≡ Some tt) }
    ensures apart { OnOk result ((x : Uid) → (x ≡ uid_of uid) ⊎ (found_at keys.new x ≡ found_at keys.old x)) }
{
    Ok(keys.insert(uid, ())?.is_some())
}

// The uids of a supply, where none is repeated.
fn keys_once(
    alloc: Global,
    supplied: &[(EntityUID, Vec<EntityUID>)],
) -> Result<Option<BTreeMap<EntityUID, ()>>, AllocError>
    ensures { IfOk result (λ o. MatchOption o (HasRepeated (keys_in supplied.now)) (λ m. HoldsEachOnce (keys_in supplied.now) (found_at m))) }
{
    let mut keys = BTreeMap::new(alloc);
    for (uid, _) in supplied {
        if put_key(&mut keys, uid.clone()?)? {
            return Ok(None);
        }
    }
    Ok(Some(keys))
}

// Whether each of these uids is among the keys.
fn are_all_among(keys: &BTreeMap<EntityUID, ()>, wanted: &[EntityUID]) -> bool
    ensures { result ≡ list_all (λ u. is_some (found_at keys.now u)) (uids wanted.now) }
{
    for uid in wanted {
        if !has_key(keys, uid) {
            return false;
        }
    }
    true
}

// Whether the uid is among the keys.
fn has_key(keys: &BTreeMap<EntityUID, ()>, uid: &EntityUID) -> bool
    ensures { result ≡ is_some (found_at keys.now (uid_of uid.now)) }
{
    keys.contains_key(uid)
}

/// Whether the uids of a supply are those that are wanted, each once. Errors: a fault that is there, or out of memory.
pub(crate) fn check(
    alloc: Global,
    wanted: &[EntityUID],
    supplied: &[(EntityUID, Vec<EntityUID>)],
) -> Result<(), Unfit>
    ensures ok { OnOk result (AreKeys (uids wanted.now) (keys_in supplied.now)) }
    ensures refused { IfErr result (IsUnfit (uids wanted.now) (keys_in supplied.now)) }
{
    let Some(mut keys) = keys_once(alloc, supplied)? else {
        return Err(Unfit::Repeated);
    };
    let all_there = are_all_among(&keys, wanted);
    take_out_all(&mut keys, wanted);
    if !keys.is_empty() {
        return Err(Unfit::NotWanted);
    }
    if all_there {
        Ok(())
    } else {
        Err(Unfit::Lacking)
    }
}

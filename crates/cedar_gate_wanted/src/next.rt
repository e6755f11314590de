//! Uids that came into reach.

ghost use Rattle.std.specs.Prelude.{◌≡◌, ◌↔◌, true, Contains, IfOk};
ghost use Rattle.cedar_expr_model.specs.UidOrder.{are_rising};
ghost use Rattle.cedar_expr_model.specs.Uid.{Uid};
ghost use Rattle.cedar_expr_names.specs.Views.{uid_of};
ghost use Rattle.cedar_gate_wanted.specs.Rows.{found_at, uids};
ghost use Rattle.cedar_schema_model.specs.Schema.{Schema, declares_action};
ghost use Rattle.cedar_gate_wanted.specs.Wanting.{is_wanted_by};
ghost use Rattle.cedar_gate_wanted.specs.Following.{AreWantedAfter};

use crate::{Loaded, Log, Near};
use cedar_expr_names::EntityUID;
use std::alloc::{AllocError, Global};

/// What says which uids are those of declared actions.
pub trait DeclaredActions {
    /// The schema that declares them.
    ghost schema: { Self → Schema };

    /// Whether the uid is that of a declared action.
    fn declares_action(&self, uid: &EntityUID) -> bool
        ensures { result ≡ declares_action (schema self.now) (uid_of uid.now) };
}

// Whether the uid is wanted: it is near, wasn't asked for, and is no declared action's.
pub(crate) fn is_open<S: DeclaredActions>(
    schema: &S,
    near: &Near,
    rows: &Loaded,
    uid: &EntityUID,
) -> bool
    ensures { result ≡ is_wanted_by (S.schema schema.now) (found_at near.now) (found_at rows.now) (uid_of uid.now) }
{
    is_kept(near, uid) && !was_asked(rows, uid) && !schema.declares_action(uid)
}

ghost use Rattle.std.specs.Prelude.{is_some};

// Whether the uid has a distance.
fn is_kept(near: &Near, uid: &EntityUID) -> bool
    ensures { result ≡ is_some (found_at near.now (uid_of uid.now)) }
{
    near.contains_key(uid)
}

// Whether the uid was asked for.
fn was_asked(rows: &Loaded, uid: &EntityUID) -> bool
    ensures { result ≡ is_some (found_at rows.now (uid_of uid.now)) }
{
    rows.contains_key(uid)
}

// These uids, and those that were written and are wanted.
fn gathered<S: DeclaredActions>(
    alloc: Global,
    schema: &S,
    near: &Near,
    rows: &Loaded,
    log: &Log,
    others: &[EntityUID],
) -> Result<Vec<EntityUID>, AllocError>
    ensures { IfOk result (λ us. AreWantedAfter (S.schema schema.now) near.now rows.now others.now log.now.items us.items) }
{
    let mut all = copied(alloc, others)?;
    for (uid, _) in log {
        if is_open(schema, near, rows, uid) {
            all.push(uid.clone()?)?;
        }
    }
    Ok(all)
}

// Copies of uids.
fn copied(alloc: Global, list: &[EntityUID]) -> Result<Vec<EntityUID>, AllocError>
    ensures { IfOk result (λ copy. uids copy.items ≡ uids list.now) }
{
    let mut copy = Vec::with_capacity(alloc, list.len())?;
    for uid in list {
        copy.push(uid.clone()?)?;
    }
    Ok(copy)
}

// The uids in rising order, each once.
fn in_order(mut list: Vec<EntityUID>) -> Result<Vec<EntityUID>, AllocError>
    ensures rising { IfOk result (λ us. are_rising (uids us.items) ≡ true) }
    ensures members { IfOk result (λ us. (u : Uid) → Contains (uids us.items) u ↔ Contains (uids list.items) u) }
{
    list.sort()?;
    list.dedup();
    Ok(list)
}

// What is wanted after these writes: these others, which were wanted before, and of the written uids those that are wanted now.
pub(crate) fn next_wanted<S: DeclaredActions>(
    alloc: Global,
    schema: &S,
    near: &Near,
    rows: &Loaded,
    log: &Log,
    others: &[EntityUID],
) -> Result<Vec<EntityUID>, AllocError>
    ensures rising { IfOk result (λ us. are_rising (uids us.items) ≡ true) }
    ensures members { IfOk result (λ us. AreWantedAfter (S.schema schema.now) near.now rows.now others.now log.now.items us.items) }
{
    let all = gathered(alloc, schema, near, rows, log, others)?;
    let wanted = in_order(all)?;
    Ok(wanted)
}

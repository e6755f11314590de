//! The store of what a session has loaded.

ghost use Rattle.std.specs.Prelude.{◌≡◌, [], IfOk, OnOk, OnErr, map};
ghost use Rattle.cedar_expr_model.specs.Uid.{uid_eq};
ghost use Rattle.cedar_expr_names.specs.Views.{uid_of};
ghost use Rattle.cedar_gate_wanted.specs.Rows.{uids};
ghost use Rattle.cedar_store_entities.specs.Stores.{entities_kept, store_seen, store_made, with_new};
ghost use Rattle.cedar_store_model.specs.Store.{whole, partial};
ghost use Rattle.cedar_gate_sessions.specs.Entities.{AddsAnswers, Grows, IsGrown, RecordsAbsences, is_among};

use cedar_expr_names::EntityUID;
use cedar_store_entities::{AbsenceError, Entities, Entity};
use std::alloc::{AllocError, Global};

/// The store of a session that has loaded nothing but these entities, the declared actions: some of a whole one. Fails when out of
/// memory.
pub(crate) fn first_store(alloc: Global, actions: Vec<Entity>) -> Result<Entities, AllocError>
    ensures kept { IfOk result (λ s. entities_kept s ≡ with_new [] actions.items) }
    ensures extent { IfOk result (λ s. (store_seen s).extent ≡ partial) }
    ensures absent { IfOk result (λ s. (store_seen s).absent ≡ []) }
{
    let mut store = Entities::new(alloc).partial();
    store.add_new(actions)?;
    Ok(store)
}

/// The whole store of what is loaded. Fails when out of memory.
pub(crate) fn whole_store(loaded: &Entities) -> Result<Entities, AllocError>
    ensures extent { IfOk result (λ s. (store_seen s).extent ≡ whole) }
    ensures kept { IfOk result (λ s. store_made s ≡ store_made loaded.now) }
{
    Ok(loaded.clone()?.concrete())
}

/// Adds the entities, and records that there are none of the uids. Fails when out of memory; the store may have grown then.
pub(crate) fn add_answers(
    store: &mut Entities,
    entities: Vec<Entity>,
    missing: Vec<EntityUID>,
) -> Result<(), AllocError>
    ensures added { OnOk result (AddsAnswers entities.items (uids missing.items) store.old store.new) }
    ensures grown { IsGrown store.old store.new }
{
    store.add_new(entities)?;
    record_absences(store, missing)
}

// Records the absence of each uid that has no entity. Fails when out of memory; some may be recorded then.
fn record_absences(store: &mut Entities, missing: Vec<EntityUID>) -> Result<(), AllocError>
    ensures recorded { OnOk result (RecordsAbsences (is_among (uids missing.items)) (store_seen store.old) (store_seen store.new)) }
    ensures kept { entities_kept store.new ≡ entities_kept store.old }
    ensures grown { Grows (store_seen store.old).absent (store_seen store.new).absent }
    ensures extent { (store_seen store.new).extent ≡ (store_seen store.old).extent }
{
    for uid in missing {
        record_absence(store, uid)?;
    }
    Ok(())
}

// Records the absence of the uid, if it has no entity. Fails when out of memory.
fn record_absence(store: &mut Entities, uid: EntityUID) -> Result<(), AllocError>
    ensures recorded { OnOk result (RecordsAbsences (λ u. uid_eq u (uid_of uid)) (store_seen store.old) (store_seen store.new)) }
    ensures kept { entities_kept store.new ≡ entities_kept store.old }
    ensures grown { Grows (store_seen store.old).absent (store_seen store.new).absent }
    ensures extent { (store_seen store.new).extent ≡ (store_seen store.old).extent }
{
    match store.add_absent(uid) {
        Ok(()) => Ok(()),
        Err(AbsenceError::Absent { .. }) => Ok(()),
        Err(AbsenceError::Present { .. }) => Ok(()),
        Err(AbsenceError::OutOfMemory) => Err(AllocError),
    }
}

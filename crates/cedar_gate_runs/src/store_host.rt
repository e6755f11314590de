//! A host that answers from a store of entities.

ghost use Rattle.std.specs.Prelude.{◌≡◌, [], map, IfOk};
ghost use Rattle.cedar_expr_names.specs.Views.{uid_of};
ghost use Rattle.cedar_store_entities.specs.Stores.{store_made};
ghost use Rattle.cedar_gate_runs.specs.Hosts.{AreAnswersFrom, answered_of, answer_from, asked_after, failures_after, stored};
ghost use Rattle.cedar_gate_runs.specs.Stores.{store_of, store_asked};

use crate::host::{Host, HostFault};
use cedar_expr_names::EntityUID;
use cedar_store_entities::laws::uids_are_uids;
use cedar_store_entities::{Dereference, Entities, Entity};
use std::alloc::{AllocError, Global};

/// A host that answers from a store of entities: by copies of those that it has. It has no faults of its own.
#[derive(Drop)]
pub struct StoreHost {
    entities: Entities,
    asked: Vec<Vec<EntityUID>>,
}

impl StoreHost {
    /// The host of these entities. Nothing was asked of it.
    pub fn new(alloc: Global, entities: Entities) -> StoreHost
        ensures store { store_of result ≡ stored (store_made entities) }
        ensures asked { store_asked result ≡ [] }
    {
        StoreHost {
            entities,
            asked: Vec::new(alloc),
        }
    }

    /// The lists of uids that were asked for and answered, in their order.
    pub fn asked(&self) -> &[Vec<EntityUID>]
        ensures { map (λ uids. map uid_of uids.items) result.now ≡ store_asked self.now }
    {
        self.asked.as_slice()
    }
}

// What the store answers to a uid: a copy of its entity, where it has one.
fn answer_one(
    alloc: Global,
    entities: &Entities,
    uid: &EntityUID,
) -> Result<(EntityUID, Option<Entity>), AllocError>
    ensures { IfOk result (λ a. answered_of a ≡ answer_from (stored (store_made entities.now)) (uid_of uid.now)) }
{
    uids_are_uids();
    let asked = uid.clone()?;
    match entities.entity(alloc, uid)? {
        Dereference::Data(entity) => Ok((asked, Some(entity.clone()?))),
        Dereference::NoSuchEntity => Ok((asked, None)),
        Dereference::Residual(_) => Ok((asked, None)),
    }
}

// What the store answers to uids, in their order.
fn answer_all(
    alloc: Global,
    entities: &Entities,
    uids: &[EntityUID],
) -> Result<Vec<(EntityUID, Option<Entity>)>, AllocError>
    ensures { IfOk result (λ answers. AreAnswersFrom (stored (store_made entities.now)) (map uid_of uids.now) answers.items) }
{
    let mut answers = Vec::with_capacity(alloc, uids.len())?;
    for uid in uids {
        answers.push(answer_one(alloc, entities, uid)?)?;
    }
    Ok(answers)
}

/// A copy of uids. Fails only when out of memory.
pub fn copied(alloc: Global, uids: &[EntityUID]) -> Result<Vec<EntityUID>, AllocError>
    ensures { IfOk result (λ copy. map uid_of copy.items ≡ map uid_of uids.now) }
{
    let mut copy = Vec::with_capacity(alloc, uids.len())?;
    for uid in uids {
        copy.push(uid.clone()?)?;
    }
    Ok(copy)
}

impl Host for StoreHost {
    ghost store = { store_of };

    ghost asked = { store_asked };

    ghost honest = { λ _. Unit {0} };

    ghost faults = { λ _. 0 };

    fn failures(&self) -> u64 {
        0
    }

    /// Answers with copies of its entities, and keeps its own. Its errors are out of memory.
    fn fetch(
        &mut self,
        alloc: Global,
        ids: &[EntityUID],
    ) -> Result<Vec<(EntityUID, Option<Entity>)>, HostFault>
        ensures store { store_of self.new ≡ store_of self.old }
        ensures asked { store_asked self.new ≡ asked_after result (store_asked self.old) (map uid_of ids.now) }
        ensures faults { failures_after result 0 ≡ 0 }
        ensures answers { IfOk result (λ answers. AreAnswersFrom (store_of self.old) (map uid_of ids.now) answers.items) }
    {
        let answers = answer_all(alloc, &self.entities, ids).map_err(|_| HostFault::Memory)?;
        let copy = copied(alloc, ids).map_err(|_| HostFault::Memory)?;
        self.asked.push(copy).map_err(|_| HostFault::Memory)?;
        Ok(answers)
    }
}

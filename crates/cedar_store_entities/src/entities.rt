//! Stores of entities.

ghost use Rattle.std.specs.Prelude.{◌≡◌, map};
ghost use Rattle.cedar_store_entities.specs.Uids.{uids_in};
ghost use Rattle.cedar_store_entities.specs.Views.{entity_uid};

use crate::entity::Entity;
use crate::err::{AbsenceError, EntitiesError};
use crate::uid_set::UidSet;
use cedar_expr_names::EntityUID;
use cedar_expr_trees::{Expr, Type, Unknown};
use std::alloc::{AllocError, Global};
use std::rc::RcStr;
use std::slice::Iter;

/// A store of entities by their uids: all that there are, or only some. It can record uids of which there is no entity.
pub struct Entities {
    uids: UidSet,
    entities: Vec<Entity>,
    absent: UidSet,
    mode: Mode,
    ghost named: { uids_in uids ≡ map entity_uid entities.items },
}

// prover: see ARCHITECTURE
impl Drop for Entities {
    fn drop(self) {
        let Entities {
            uids: _,
            entities: _,
            absent: _,
            mode: _,
        } = self;
    }
}

// Whether a store has all entities.
#[derive(Clone, Copy)]
enum Mode {
    Concrete,
    Partial,
}

/// How much a store had at one time: so many entities, and so many recorded absences.
#[derive(Clone, Copy)]
pub struct Mark {
    entities: usize,
    absences: usize,
}

/// What a store answers for a uid.
#[derive(Drop)]
pub enum Dereference<'a, T> {
    /// There is no such entity.
    NoSuchEntity,

    /// It isn't known; the expression stands for it.
    Residual(Expr),

    /// The entity.
    Data(&'a T),
}

impl Clone for Entities {
    ghost use Rattle.cedar_store_entities.specs.Stores.{store_seen, store_made};

    ghost is_clone = { λ s copy. (store_seen copy ≡ store_seen s) × (store_made copy ≡ store_made s) };

    /// A copy of the store, whose entities share their values with the store's.
    fn clone(&self) -> Result<Entities, AllocError> {
        Ok(Entities {
            uids: self.uids.clone()?,
            entities: self.entities.clone()?,
            absent: self.absent.clone()?,
            mode: self.mode,
        })
    }
}

impl Entities {
    ghost use Rattle.std.specs.Prelude.{◌++◌, ◌∷◌, [], false, Some, None, IfOk, IfErr, OnOk, OnErr, take, length, if◌then◌else◌};
    ghost use Rattle.std.specs.List.{list_any};
    ghost use Rattle.std.specs.Slice.Iter.{iter_rest};
    ghost use Rattle.cedar_expr_names.specs.Views.{uid_of};
    ghost use Rattle.cedar_expr_model.specs.Uid.{uid_eq};
    ghost use Rattle.cedar_store_model.specs.Store.{whole, partial, all_of, store_of, with_absence, extent_for, found_as};
    ghost use Rattle.cedar_store_model.specs.World.{missing, not_loaded};
    ghost use Rattle.cedar_store_entities.specs.Views.{entity_pair, kept_pair};
    ghost use Rattle.cedar_store_entities.specs.Stores.{store_seen, store_made, entities_kept, with_new, entities_marked, absences_marked, Dereferences};
    ghost use Rattle.cedar_store_entities.specs.Refusals.{RefusesUid, RefusesUids, MayBeAbsent, RefusesAbsence};

    /// The whole store without entities.
    pub fn new(alloc: Global) -> Entities
        ensures seen { store_seen result ≡ all_of [] }
        ensures kept { store_made result ≡ [] }
    {
        Entities {
            uids: UidSet::new(alloc),
            entities: Vec::new(alloc),
            absent: UidSet::new(alloc),
            mode: Mode::Concrete,
        }
    }

    /// The whole store of these entities. Refuses a uid that is repeated, and fails when out of memory.
    pub fn from_entities(alloc: Global, entities: Vec<Entity>) -> Result<Entities, EntitiesError>
        ensures made { IfOk result (λ s. store_of whole (map entity_pair entities.items) ≡ Some (store_seen s)) }
        ensures kept { IfOk result (λ s. store_made s ≡ map kept_pair entities.items) }
        ensures refused { IfErr result (RefusesUids (map entity_uid entities.items)) }
    {
        let mut store = Entities::new(alloc);
        for entity in entities {
            store.add(entity)?;
        }
        Ok(store)
    }

    /// The entities as some of a store, of which the others aren't known but where their absence is recorded.
    pub fn partial(self) -> Entities
        ensures seen { store_seen result ≡ record (store_seen self) { extent = partial } }
        ensures kept { store_made result ≡ store_made self }
    {
        let Entities {
            uids,
            entities,
            absent,
            mode: _,
        } = self;
        Entities {
            uids,
            entities,
            absent,
            mode: Mode::Partial,
        }
    }

    /// The entities as all that there are.
    pub fn concrete(self) -> Entities
        ensures seen { store_seen result ≡ record (store_seen self) { extent = whole } }
        ensures kept { store_made result ≡ store_made self }
    {
        let Entities {
            uids,
            entities,
            absent,
            mode: _,
        } = self;
        Entities {
            uids,
            entities,
            absent,
            mode: Mode::Concrete,
        }
    }

    /// Adds the entities behind the others, in their order; of a uid that is in the store already the store's own entity stays.
    /// Fails only when out of memory; the store is then as before.
    pub fn add_new(&mut self, entities: Vec<Entity>) -> Result<(), AllocError>
        ensures added { OnOk result (entities_kept self.new ≡ with_new (entities_kept self.old) entities.items) }
        ensures extent { (store_seen self.new).extent ≡ (store_seen self.old).extent }
        ensures absent { (store_seen self.new).absent ≡ (store_seen self.old).absent }
        ensures unchanged { OnErr result (entities_kept self.new ≡ entities_kept self.old) }
    {
        let mark = self.mark();
        let added = self.put_each_new(entities);
        if added.is_err() {
            self.reset(mark);
        }
        added
    }

    /// How much the store has now.
    pub fn mark(&self) -> Mark
        ensures entities { entities_marked result ≡ length (entities_kept self.now) }
        ensures absences { absences_marked result ≡ length (store_seen self.now).absent }
    {
        Mark {
            entities: self.entities.len(),
            absences: self.absent.len(),
        }
    }

    /// Keeps the first so many entities and the first so many absences: where what was added since the mark stands behind the others, the
    /// store is as it was at the mark.
    pub fn reset(&mut self, mark: Mark)
        ensures entities { entities_kept self.new ≡ take (entities_marked mark) (entities_kept self.old) }
        ensures absent { (store_seen self.new).absent ≡ take (absences_marked mark) (store_seen self.old).absent }
        ensures extent { (store_seen self.new).extent ≡ (store_seen self.old).extent }
    {
        self.uids.truncate(mark.entities);
        self.entities.truncate(mark.entities);
        self.absent.truncate(mark.absences);
    }

    /// Records that there is no entity of this uid: a partial store then answers so, and a whole one as before. Refuses a uid whose
    /// absence is recorded already (1) and one that is in the store (2), and fails when out of memory (0); the store is then as before.
    pub fn add_absent(&mut self, uid: EntityUID) -> Result<(), AbsenceError>
        ensures recorded { OnOk result (store_seen self.new ≡ with_absence (store_seen self.old) (uid_of uid)) }
        ensures held { entities_kept self.new ≡ entities_kept self.old }
        ensures kept { store_made self.new ≡ store_made self.old }
        ensures accepted { OnOk result (MayBeAbsent (store_seen self.old) (uid_of uid)) }
        ensures refused { IfErr result (RefusesAbsence (store_seen self.old) (uid_of uid)) }
        ensures unchanged { OnErr result (store_seen self.new ≡ store_seen self.old) }
    {
        if self.absent.has(&uid) {
            return Err(AbsenceError::Absent { uid });
        }
        if self.uids.has(&uid) {
            return Err(AbsenceError::Present { uid });
        }
        self.absent.put(uid)?;
        Ok(())
    }

    /// What the store answers for a uid: the entity; or, where it has none, that there is none if the store is whole or the absence is
    /// recorded, and else what stands for it. Fails only when out of memory.
    pub fn entity(
        &self,
        alloc: Global,
        uid: &EntityUID,
    ) -> Result<Dereference<'_, Entity>, AllocError>
        ensures { IfOk result (Dereferences self.now (uid_of uid.now)) }
    {
        match self.uids.place(uid) {
            Some(place) => Ok(Dereference::Data(&self.entities[place])),
            None => {
                if self.lacks(uid) {
                    Ok(Dereference::NoSuchEntity)
                } else {
                    Ok(Dereference::Residual(stand_in(alloc, uid)?))
                }
            }
        }
    }

    /// Goes over the entities, in the order in which they were given.
    pub fn iter(&self) -> Iter<'_, Entity>
        ensures seen { map entity_pair (iter_rest result) ≡ (store_seen self.now).entities }
        ensures kept { map kept_pair (iter_rest result) ≡ store_made self.now }
    {
        self.entities.iter()
    }

    // Whether it is known that there is no entity of a uid that isn't in the store.
    fn lacks(&self, uid: &EntityUID) -> bool
        ensures { found_as (extent_for (store_seen self.now) (uid_of uid.now)) None ≡ (if result then missing else not_loaded) }
    {
        match self.mode {
            Mode::Concrete => true,
            Mode::Partial => self.absent.has(uid),
        }
    }

    // Adds one more entity behind the others. Refuses a uid that is there.
    fn add(&mut self, entity: Entity) -> Result<(), EntitiesError>
        ensures added { OnOk result (entities_kept self.new ≡ entities_kept self.old ++ entity ∷ []) }
        ensures mode { self.new.mode ≡ self.old.mode }
        ensures absent { self.new.absent ≡ self.old.absent }
        ensures refused { IfErr result (RefusesUid (map entity_uid (entities_kept self.old)) (entity_uid entity)) }
    {
        if self.uids.has(entity.uid()) {
            let uid = entity.uid().clone()?;
            return Err(EntitiesError::Duplicate { uid });
        }
        self.put(entity)?;
        Ok(())
    }

    // Adds these entities behind the others, but those of a uid that is there. Where it fails, some may be in.
    fn put_each_new(&mut self, entities: Vec<Entity>) -> Result<(), AllocError>
        ensures added { OnOk result (entities_kept self.new ≡ with_new (entities_kept self.old) entities.items) }
        ensures kept { take (length (entities_kept self.old)) (entities_kept self.new) ≡ entities_kept self.old }
        ensures mode { self.new.mode ≡ self.old.mode }
        ensures absent { self.new.absent ≡ self.old.absent }
    {
        for entity in entities {
            self.put_new(entity)?;
        }
        Ok(())
    }

    // Adds the entity behind the others, unless its uid is there.
    fn put_new(&mut self, entity: Entity) -> Result<(), AllocError>
        ensures added { OnOk result (entities_kept self.new ≡ with_new (entities_kept self.old) (entity ∷ [])) }
        ensures unchanged { OnErr result (entities_kept self.new ≡ entities_kept self.old) }
        ensures mode { self.new.mode ≡ self.old.mode }
        ensures absent { self.new.absent ≡ self.old.absent }
    {
        if self.uids.has(entity.uid()) {
            return Ok(());
        }
        self.put(entity)
    }

    // Adds an entity of a uid that isn't there behind the others.
    fn put(&mut self, entity: Entity) -> Result<(), AllocError>
        requires { list_any (uid_eq (entity_uid entity)) (map entity_uid (entities_kept self.old)) ≡ false }
        ensures put { OnOk result (entities_kept self.new ≡ entities_kept self.old ++ entity ∷ []) }
        ensures unchanged { OnErr result (entities_kept self.new ≡ entities_kept self.old) }
        ensures mode { self.new.mode ≡ self.old.mode }
        ensures absent { self.new.absent ≡ self.old.absent }
    {
        let uid = entity.uid().clone()?;
        self.entities.reserve(1)?;
        self.uids.put(uid)?;
        self.entities.push_reserved(entity);
        Ok(())
    }
}

ghost use Rattle.std.specs.Prelude.{IfOk};
ghost use Rattle.cedar_expr_names.specs.Views.{uid_of};
ghost use Rattle.cedar_expr_trees.specs.Trees.{tree_of};
ghost use Rattle.cedar_store_model.specs.Store.{stand_in as unknown_for};

// What stands for an entity that isn't known.
fn stand_in(alloc: Global, uid: &EntityUID) -> Result<Expr, AllocError>
    ensures { IfOk result (λ e. tree_of e ≡ unknown_for (uid_of uid.now)) }
{
    let text = uid.to_string(alloc)?;
    let name = RcStr::from_str(alloc, text.as_str())?;
    let ty = Type::Entity {
        ty: uid.entity_type().clone()?,
    };
    Ok(Expr::unknown(Unknown::new_with_type(name, ty)))
}

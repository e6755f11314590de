//! Recorded ancestors, each once, in the order in which they were recorded, with whether it is a parent.

ghost use Rattle.std.specs.Prelude.{◌≡◌, length};
ghost use Rattle.cedar_store_entities.specs.Uids.{uids_in};

use crate::uid_set::UidSet;
use cedar_expr_names::EntityUID;
use std::alloc::{AllocError, Global};
use std::slice::Iter;

// The uids, and of each at its place whether it is a parent.
pub(crate) struct Ancestors {
    uids: UidSet,
    are_parents: Vec<bool>,
    ghost matched: { length are_parents.items ≡ length (uids_in uids) },
}

// prover: see ARCHITECTURE
impl Drop for Ancestors {
    fn drop(self) {
        let Ancestors {
            uids: _,
            are_parents: _,
        } = self;
    }
}

impl Clone for Ancestors {
    ghost use Rattle.cedar_store_entities.specs.Views.{kin_in};

    ghost is_clone = { λ a copy. kin_in copy ≡ kin_in a };

    fn clone(&self) -> Result<Ancestors, AllocError> {
        Ok(Ancestors {
            uids: self.uids.clone()?,
            are_parents: self.are_parents.clone()?,
        })
    }
}

impl Ancestors {
    ghost use Rattle.std.specs.Prelude.{[], ◌∷◌, ◌++◌, false, map, OnOk, OnErr};
    ghost use Rattle.std.specs.List.{list_any};
    ghost use Rattle.std.specs.Map.{lookup};
    ghost use Rattle.std.specs.Slice.Iter.{iter_rest};
    ghost use Rattle.cedar_expr_names.specs.Views.{uid_of};
    ghost use Rattle.cedar_expr_model.specs.Uid.{uid_eq};
    ghost use Rattle.cedar_store_entities.specs.Recorded.{uids_of_kin, with_parent, with_indirect, with_parents, with_indirects};
    ghost use Rattle.cedar_store_entities.specs.Views.{kin_in};

    // No ancestors.
    pub(crate) fn new(alloc: Global) -> Ancestors
        ensures { kin_in result ≡ [] }
    {
        Ancestors {
            uids: UidSet::new(alloc),
            are_parents: Vec::new(alloc),
        }
    }

    // Goes over the uids, in their order.
    pub(crate) fn uids(&self) -> Iter<'_, EntityUID>
        ensures { map uid_of (iter_rest result) ≡ uids_of_kin (kin_in self.now) }
    {
        self.uids.iter()
    }

    // Whether the uid is recorded.
    pub(crate) fn has(&self, uid: &EntityUID) -> bool
        ensures { result ≡ list_any (uid_eq (uid_of uid.now)) (uids_of_kin (kin_in self.now)) }
    {
        self.uids.has(uid)
    }

    // Whether the uid is a parent, where it is recorded.
    pub(crate) fn is_parent(&self, uid: &EntityUID) -> Option<bool>
        ensures { result ≡ lookup (uid_eq (uid_of uid.now)) (kin_in self.now) }
    {
        match self.uids.place(uid) {
            Some(place) => Some(self.are_parents[place]),
            None => None,
        }
    }

    // Records one more as a parent, behind the others, or where it is recorded.
    pub(crate) fn add_parent(&mut self, uid: EntityUID) -> Result<(), AllocError>
        ensures kin { OnOk result (kin_in self.new ≡ with_parent (kin_in self.old) (uid_of uid)) }
        ensures unchanged { OnErr result (kin_in self.new ≡ kin_in self.old) }
    {
        match self.uids.place(&uid) {
            Some(place) => {
                self.are_parents[place] = true;
                Ok(())
            }
            None => self.put(uid, true),
        }
    }

    // Records one more that is no parent, behind the others, unless it is recorded.
    pub(crate) fn add_indirect(&mut self, uid: EntityUID) -> Result<(), AllocError>
        ensures kin { OnOk result (kin_in self.new ≡ with_indirect (kin_in self.old) (uid_of uid)) }
        ensures unchanged { OnErr result (kin_in self.new ≡ kin_in self.old) }
    {
        if self.uids.has(&uid) {
            return Ok(());
        }
        self.put(uid, false)
    }

    // Records each of these as a parent.
    pub(crate) fn add_parents(&mut self, parents: Vec<EntityUID>) -> Result<(), AllocError>
        ensures { OnOk result (kin_in self.new ≡ with_parents (kin_in self.old) (map uid_of parents.items)) }
    {
        for uid in parents {
            self.add_parent(uid)?;
        }
        Ok(())
    }

    // Records each of these, unless it is recorded, as no parent.
    pub(crate) fn add_indirects(&mut self, uids: Vec<EntityUID>) -> Result<(), AllocError>
        ensures { OnOk result (kin_in self.new ≡ with_indirects (kin_in self.old) (map uid_of uids.items)) }
    {
        for uid in uids {
            self.add_indirect(uid)?;
        }
        Ok(())
    }

    // Appends one that isn't recorded.
    fn put(&mut self, uid: EntityUID, is_parent: bool) -> Result<(), AllocError>
        requires { list_any (uid_eq (uid_of uid)) (uids_of_kin (kin_in self.old)) ≡ false }
        ensures put { OnOk result (kin_in self.new ≡ kin_in self.old ++ (uid_of uid, is_parent) ∷ []) }
        ensures unchanged { OnErr result (kin_in self.new ≡ kin_in self.old) }
    {
        self.are_parents.reserve(1)?;
        self.uids.put(uid)?;
        self.are_parents.push_reserved(is_parent);
        Ok(())
    }
}

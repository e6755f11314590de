//! Uids in the order in which they were put in, each once, with the place of each. A look-up compares some log n uids, whatever their texts are.

ghost use Rattle.std.proofs.Props.{props};
ghost use Rattle.cedar_store_entities.specs.Places.{Leads, AreApart};

use cedar_expr_names::EntityUID;
use std::alloc::{AllocError, Global};
use std::collections::BTreeMap;
use std::slice::Iter;

// The uids, and at each its place among them.
pub(crate) struct UidSet {
    uids: Vec<EntityUID>,
    places: BTreeMap<EntityUID, usize>,
    ghost led: { Leads places.entries uids.items } by { Prim.hlevel props },
    ghost apart: { AreApart uids.items },
}

// prover: see ARCHITECTURE
impl Drop for UidSet {
    fn drop(self) {
        let UidSet { uids: _, places: _ } = self;
    }
}

impl Clone for UidSet {
    ghost use Rattle.std.specs.Prelude.{◌≡◌};
    ghost use Rattle.cedar_store_entities.specs.Uids.{uids_in};

    ghost is_clone = { λ s copy. uids_in copy ≡ uids_in s };

    fn clone(&self) -> Result<UidSet, AllocError> {
        Ok(UidSet {
            uids: self.uids.clone()?,
            places: self.places.clone()?,
        })
    }
}

impl UidSet {
    ghost use Rattle.std.specs.Prelude.{◌≡◌, ◌<◌, ◌-◌, ◌++◌, ◌∷◌, [], false, map, take, length, IfSome, OnOk, OnErr};
    ghost use Rattle.std.specs.List.{list_any};
    ghost use Rattle.std.specs.Slice.Iter.{iter_rest};
    ghost use Rattle.cedar_expr_names.specs.Views.{uid_of};
    ghost use Rattle.cedar_expr_model.specs.Uid.{uid_eq};
    ghost use Rattle.cedar_store_entities.specs.Places.{place_in};
    ghost use Rattle.cedar_store_entities.specs.Uids.{uids_in};

    // No uids.
    pub(crate) fn new(alloc: Global) -> UidSet
        ensures { uids_in result ≡ [] }
    {
        UidSet {
            uids: Vec::new(alloc),
            places: BTreeMap::new(alloc),
        }
    }

    // How many uids there are.
    pub(crate) fn len(&self) -> usize
        ensures { result ≡ length (uids_in self.now) }
    {
        self.uids.len()
    }

    // The uid's place, if it is one of these.
    pub(crate) fn place(&self, uid: &EntityUID) -> Option<usize>
        ensures place { result ≡ place_in (uids_in self.now) (uid_of uid.now) }
        ensures inside { IfSome result (λ at. at < length (uids_in self.now)) }
    {
        self.places.get(uid).copied()
    }

    // Whether the uid is one of these.
    pub(crate) fn has(&self, uid: &EntityUID) -> bool
        ensures { result ≡ list_any (uid_eq (uid_of uid.now)) (uids_in self.now) }
    {
        self.places.contains_key(uid)
    }

    // Goes over the uids, in their order.
    pub(crate) fn iter(&self) -> Iter<'_, EntityUID>
        ensures { map uid_of (iter_rest result) ≡ uids_in self.now }
    {
        self.uids.iter()
    }

    // Appends a uid that isn't one of these.
    pub(crate) fn put(&mut self, uid: EntityUID) -> Result<(), AllocError>
        requires { list_any (uid_eq (uid_of uid)) (uids_in self.old) ≡ false }
        ensures put { OnOk result (uids_in self.new ≡ uids_in self.old ++ uid_of uid ∷ []) }
        ensures unchanged { OnErr result (uids_in self.new ≡ uids_in self.old) }
    {
        let key = uid.clone()?;
        self.uids.reserve(1)?;
        self.places.insert(key, self.uids.len())?;
        self.uids.push_reserved(uid);
        Ok(())
    }

    // Keeps the first so many uids.
    pub(crate) fn truncate(&mut self, len: usize)
        ensures { uids_in self.new ≡ take len (uids_in self.old) }
    {
        'last: while self.uids.len() > len {
            self.drop_last();
        }
    }

    // Lets the last uid go.
    fn drop_last(&mut self)
        ensures { uids_in self.new ≡ take (length (uids_in self.old) - 1) (uids_in self.old) }
    {
        if let Some(uid) = self.uids.pop() {
            self.places.remove(&uid);
        }
    }
}

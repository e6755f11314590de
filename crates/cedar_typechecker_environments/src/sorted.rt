//! Sets as lists in rising order.

ghost use Rattle.std.specs.Prelude.{◌≡◌, ◌∷◌, [], Bool, IfOk};
ghost use Rattle.std.specs.List.{list_any};
ghost use Rattle.std.specs.Ordering.{eq_by_cmp};
ghost use Rattle.std.specs.Set.{is_member, IsUnion, IsIntersection, ClonesAreEqual};
ghost use Rattle.cedar_typechecker_environments.specs.Along.{RiseOrFall, first_falls};

use crate::merging::{copies_of_both, copies_of_either};
use std::alloc::{AllocError, Global};
use std::marker::Model;

// Keys in rising order, each once.
#[derive(Drop)]
pub(crate) struct SortedKeys<K: Ord + Drop> {
    keys: Vec<K>,
}

impl<K: Ord + Drop> Model for SortedKeys<K> {
    ghost use Rattle.std.specs.Prelude.{List};
    ghost use Rattle.std.specs.List.Sorted.{IsStrictlySortedBy};

    ghost Value = { List K };

    ghost view = { λ s. s.keys.items };

    ghost invariant = { λ s. IsStrictlySortedBy K.cmp s.keys.items };
}

impl<K: Ord + Drop> SortedKeys<K> {
    // No keys.
    pub(crate) fn new(alloc: Global) -> SortedKeys<K>
        ensures { result ≡ [] }
    {
        SortedKeys {
            keys: Vec::new(alloc),
        }
    }

    // One key alone.
    pub(crate) fn singleton(alloc: Global, key: K) -> Result<SortedKeys<K>, AllocError>
        ensures { IfOk result (λ s. s ≡ key ∷ []) }
    {
        let mut keys = Vec::new(alloc);
        keys.push(key)?;
        Ok(SortedKeys { keys })
    }

    // These keys, which all rise or all fall.
    pub(crate) fn in_order(mut keys: Vec<K>) -> SortedKeys<K>
        requires { RiseOrFall K.cmp keys.items }
        ensures { (test : K → Bool) → list_any test result ≡ list_any test keys.items }
    {
        if fall(keys.as_slice()) {
            keys.reverse();
        }
        SortedKeys { keys }
    }

    // Whether the key is among these, by halving.
    pub(crate) fn contains(&self, key: &K) -> bool
        ensures { result ≡ is_member (eq_by_cmp K.cmp) self.now key.now }
    {
        self.keys.binary_search(key).is_ok()
    }
}

impl<K: Ord + Clone + Drop> SortedKeys<K> {
    // Copies of the keys of either set, of which each is gone along once.
    pub(crate) fn union(&self, other: &SortedKeys<K>) -> Result<SortedKeys<K>, AllocError>
        requires { ClonesAreEqual (eq_by_cmp K.cmp) K.is_clone }
        ensures { IfOk result (λ s. IsUnion (eq_by_cmp K.cmp) self.now other.now s) }
    {
        let alloc = *self.keys.allocator();
        if self.keys.is_empty() && other.keys.is_empty() {
            return Ok(SortedKeys::new(alloc));
        }
        let keys = copies_of_either(alloc, self.keys.as_slice(), other.keys.as_slice())?;
        Ok(SortedKeys { keys })
    }

    // Copies of the keys that both sets have, of which each is gone along once.
    pub(crate) fn intersect(&self, other: &SortedKeys<K>) -> Result<SortedKeys<K>, AllocError>
        requires { ClonesAreEqual (eq_by_cmp K.cmp) K.is_clone }
        ensures { IfOk result (λ s. IsIntersection (eq_by_cmp K.cmp) self.now other.now s) }
    {
        let alloc = *self.keys.allocator();
        let keys = copies_of_both(alloc, self.keys.as_slice(), other.keys.as_slice())?;
        Ok(SortedKeys { keys })
    }
}

// Whether the first key is above the second.
fn fall<K: Ord>(keys: &[K]) -> bool
    ensures { result ≡ first_falls K.cmp keys.now }
{
    match keys {
        [first, second, ..] => first.cmp(second).is_gt(),
        _ => false,
    }
}

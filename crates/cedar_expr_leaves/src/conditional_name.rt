//! Names that may stand for one of several.

ghost use Rattle.std.specs.Prelude.{◌≡◌, [], ◌∷◌, map, IfOk};
ghost use Rattle.std.specs.Slice.Iter.{iter_rest};
ghost use Rattle.cedar_expr_names.specs.Views.{name_of, name_loc};
ghost use Rattle.cedar_expr_leaves.specs.Views.{raw_name_of, raw_name_loc, possible_names, possible_places, written_name, written_place, referred};

use crate::RawName;
use cedar_expr_names::{InternalName, Loc};
use std::alloc::{AllocError, Global};
use std::slice::Iter;

/// To what kind of declaration a name refers.
#[derive(Debug, Clone, Copy, PartialEq, Eq, PartialOrd, Ord, Hash)]
pub enum ReferenceType {
    /// A common type.
    Common,

    /// An entity type.
    Entity,

    /// A common type, or an entity type.
    CommonOrEntity,
}

/// A name as it is written, with the names that it may stand for, of which the first that is declared is meant.
#[derive(Debug, PartialEq, Eq, Hash)]
pub struct ConditionalName {
    possibilities: Vec<InternalName>,
    reference_type: ReferenceType,
    raw: RawName,
}

// prover: see ARCHITECTURE
impl Drop for ConditionalName {
    fn drop(self) {
        let ConditionalName {
            possibilities: _,
            reference_type: _,
            raw: _,
        } = self;
    }
}

impl ConditionalName {
    /// The conditional name that stands for this name alone. Fails only when out of memory.
    pub fn unconditional(
        alloc: Global,
        name: InternalName,
        reference_type: ReferenceType,
    ) -> Result<ConditionalName, AllocError>
        ensures names { IfOk result (λ c. possible_names c ≡ name_of name ∷ []) }
        ensures places { IfOk result (λ c. possible_places c ≡ name_loc name ∷ []) }
        ensures raw { IfOk result (λ c. written_name c ≡ name_of name) }
        ensures place { IfOk result (λ c. written_place c ≡ name_loc name) }
        ensures referred { IfOk result (λ c. referred c ≡ reference_type) }
    {
        let mut possibilities = Vec::new(alloc);
        possibilities.push(name.clone()?)?;
        Ok(ConditionalName {
            possibilities,
            reference_type,
            raw: RawName::from_name(name),
        })
    }

    // The conditional name that stands for this name, and then for the one that is written. Fails only when out of memory.
    pub(crate) fn either(
        alloc: Global,
        first: InternalName,
        raw: RawName,
        reference_type: ReferenceType,
    ) -> Result<ConditionalName, AllocError>
        ensures names { IfOk result (λ c. possible_names c ≡ name_of first ∷ raw_name_of raw ∷ []) }
        ensures places { IfOk result (λ c. possible_places c ≡ name_loc first ∷ raw_name_loc raw ∷ []) }
        ensures raw { IfOk result (λ c. written_name c ≡ raw_name_of raw) }
        ensures place { IfOk result (λ c. written_place c ≡ raw_name_loc raw) }
        ensures referred { IfOk result (λ c. referred c ≡ reference_type) }
    {
        let mut possibilities = Vec::new(alloc);
        possibilities.push(first)?;
        possibilities.push(raw.as_internal().clone()?)?;
        Ok(ConditionalName {
            possibilities,
            reference_type,
            raw,
        })
    }

    /// The name as it is written.
    pub fn raw(&self) -> &RawName
        ensures value { raw_name_of result.now ≡ written_name self.now }
        ensures place { raw_name_loc result.now ≡ written_place self.now }
    {
        &self.raw
    }

    /// The place of the name as it is written.
    pub fn loc(&self) -> Option<Loc>
        ensures { result ≡ written_place self.now }
    {
        self.raw.loc()
    }

    /// Goes over the names that it may stand for, in order.
    pub fn possibilities(&self) -> Iter<'_, InternalName>
        ensures names { map name_of (iter_rest result) ≡ possible_names self.now }
        ensures places { map name_loc (iter_rest result) ≡ possible_places self.now }
    {
        self.possibilities.iter()
    }

    /// To what it refers.
    pub fn reference_type(&self) -> ReferenceType
        ensures { result ≡ referred self.now }
    {
        self.reference_type
    }
}

impl Clone for ConditionalName {
    ghost is_clone = { λ c copy. (possible_names copy ≡ possible_names c) × (possible_places copy ≡ possible_places c) × (written_name copy ≡ written_name c) × (written_place copy ≡ written_place c) × (referred copy ≡ referred c) };

    fn clone(&self) -> Result<ConditionalName, AllocError> {
        let mut possibilities = Vec::new(*self.possibilities.allocator());
        for possible in &self.possibilities {
            possibilities.push(possible.clone()?)?;
        }
        let raw = self.raw.clone()?;
        Ok(ConditionalName {
            possibilities,
            reference_type: self.reference_type,
            raw,
        })
    }
}

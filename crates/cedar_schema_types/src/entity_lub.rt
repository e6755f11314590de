//! Unions of entity types.

ghost use Rattle.std.specs.Prelude.{◌≡◌, false};
ghost use Rattle.cedar_expr_model.specs.Lists.{is_nil};

use cedar_expr_names::{EntityType, EntityUID};
use std::alloc::{AllocError, Global};
use std::collections::BTreeSet;
use std::collections::btree_set::Iter;
use std::rc::Rc;

/// Some entity types, at least one: the type of the entities of each of them. They are kept in the order of their names.
#[derive(Debug, PartialEq, Eq, PartialOrd, Ord, Hash)]
pub struct EntityLUB {
    lub_elements: Rc<BTreeSet<EntityType>>,
    ghost inhabited: { is_nil lub_elements.value.keys ≡ false },
}

// prover: see ARCHITECTURE
impl Drop for EntityLUB {
    fn drop(self) {
        let EntityLUB { lub_elements: _ } = self;
    }
}

impl EntityLUB {
    ghost use Rattle.std.specs.Prelude.{[], ◌∷◌, true, map, option_map, IfOk};
    ghost use Rattle.std.specs.List.{list_any};
    ghost use Rattle.cedar_expr_names.specs.Views.{type_name_of};
    ghost use Rattle.cedar_expr_model.specs.Name.{name_eq};
    ghost use Rattle.cedar_schema_model.specs.Types.{entity_types};
    ghost use Rattle.cedar_schema_model.specs.OfLaws.Formed.{is_union};
    ghost use Rattle.cedar_schema_model.specs.Subtype.{are_among};
    ghost use Rattle.cedar_schema_model.specs.Join.{names_of_both, are_disjoint};
    ghost use Rattle.cedar_schema_types.specs.Unions.{members_of, only_member};

    /// The union of one entity type alone. Fails only when out of memory.
    pub fn single_entity(alloc: Global, ty: EntityType) -> Result<EntityLUB, AllocError>
        ensures { IfOk result (λ u. members_of u ≡ type_name_of ty ∷ []) }
    {
        let mut lub_elements = BTreeSet::new(alloc);
        lub_elements.insert(ty)?;
        let lub_elements = Rc::new(alloc, lub_elements)?;
        Ok(EntityLUB { lub_elements })
    }

    /// The entity type of a union of one alone.
    pub fn get_single_entity(&self) -> Option<&EntityType>
        ensures { option_map (λ t. type_name_of t.now) result ≡ only_member (members_of self.now) }
    {
        if self.lub_elements.len() == 1 {
            self.lub_elements.first()
        } else {
            None
        }
    }

    /// A copy of the entity type of a union of one alone.
    pub fn into_single_entity(self) -> Result<Option<EntityType>, AllocError>
        ensures { IfOk result (λ t. option_map type_name_of t ≡ only_member (members_of self)) }
    {
        match self.get_single_entity() {
            Some(ty) => Ok(Some(ty.clone()?)),
            None => Ok(None),
        }
    }

    /// The entity types, in the order of their names.
    pub fn iter(&self) -> Iter<'_, EntityType>
        ensures members { map type_name_of result ≡ members_of self.now }
        ensures formed { is_union (members_of self.now) ≡ true }
    {
        self.lub_elements.iter()
    }

    /// Whether the entity type is one of these.
    pub fn contains(&self, ty: &EntityType) -> bool
        ensures { result ≡ list_any (name_eq (type_name_of ty.now)) (members_of self.now) }
    {
        self.lub_elements.contains(ty)
    }

    /// Whether each of these is one of the other union.
    pub fn is_subset(&self, other: &EntityLUB) -> bool
        ensures { result ≡ are_among (members_of self.now) (members_of other.now) }
    {
        for ty in self.lub_elements.iter() {
            if !other.contains(ty) {
                return false;
            }
        }
        true
    }

    /// Whether none of these is one of the other union.
    pub fn is_disjoint(&self, other: &EntityLUB) -> bool
        ensures { result ≡ are_disjoint (entity_types (members_of self.now)) (entity_types (members_of other.now)) }
    {
        for ty in self.lub_elements.iter() {
            if other.contains(ty) {
                return false;
            }
        }
        true
    }

    /// The union of both. Fails only when out of memory.
    pub fn union(&self, alloc: Global, other: &EntityLUB) -> Result<EntityLUB, AllocError>
        ensures { IfOk result (λ u. members_of u ≡ names_of_both (members_of self.now) (members_of other.now)) }
    {
        let mut lub_elements = BTreeSet::clone(&other.lub_elements)?;
        for ty in self.lub_elements.iter().rev() {
            lub_elements.insert(ty.clone()?)?;
        }
        let lub_elements = Rc::new(alloc, lub_elements)?;
        Ok(EntityLUB { lub_elements })
    }
}

impl Clone for EntityLUB {
    ghost use Rattle.cedar_schema_types.specs.Unions.{members_of};

    ghost is_clone = { λ u copy. members_of copy ≡ members_of u };

    /// A copy of the union that shares its members.
    fn clone(&self) -> Result<EntityLUB, AllocError> {
        Ok(EntityLUB {
            lub_elements: self.lub_elements.clone()?,
        })
    }
}

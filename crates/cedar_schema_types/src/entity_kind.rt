//! Types of entities.

ghost use Rattle.std.specs.Prelude.{◌≡◌};
ghost use Rattle.cedar_expr_names.specs.Views.{uid_of};
ghost use Rattle.cedar_expr_model.specs.Value.{entity};
ghost use Rattle.cedar_schema_model.specs.Join.{are_disjoint};
ghost use Rattle.cedar_schema_model.specs.HasType.{literal_has_type};
ghost use Rattle.cedar_schema_types.specs.Unions.{entities_of};

use crate::entity_lub::EntityLUB;
use cedar_expr_names::EntityUID;
use std::alloc::AllocError;

/// A type of entities.
#[derive(Debug, PartialEq, Eq, PartialOrd, Ord, Hash, Drop)]
pub enum EntityKind {
    /// The type of any entity.
    AnyEntity,
    /// The entities of some types.
    Entity(EntityLUB),
}

impl Clone for EntityKind {
    ghost is_clone = { λ k copy. entities_of copy ≡ entities_of k };

    /// A copy of the type; a union is shared.
    fn clone(&self) -> Result<EntityKind, AllocError> {
        match self {
            EntityKind::AnyEntity => Ok(EntityKind::AnyEntity),
            EntityKind::Entity(union) => Ok(EntityKind::Entity(union.clone()?)),
        }
    }
}

impl EntityKind {
    /// Whether no entity is of this type and the other: they are unions that have no member in common.
    pub fn is_disjoint(&self, other: &EntityKind) -> bool
        ensures { result ≡ are_disjoint (entities_of self.now) (entities_of other.now) }
    {
        match (self, other) {
            (EntityKind::AnyEntity, EntityKind::AnyEntity) => false,
            (EntityKind::AnyEntity, EntityKind::Entity(_)) => false,
            (EntityKind::Entity(_), EntityKind::AnyEntity) => false,
            (EntityKind::Entity(own), EntityKind::Entity(union)) => own.is_disjoint(union),
        }
    }

    /// Whether the entity is of the type.
    pub fn contains(&self, uid: &EntityUID) -> bool
        ensures { result ≡ literal_has_type (entity (uid_of uid.now)) (entities_of self.now) }
    {
        match self {
            EntityKind::AnyEntity => true,
            EntityKind::Entity(union) => union.contains(uid.entity_type()),
        }
    }
}

//! All attributes that a schema declares, asked of a type and of a kind of entities.

ghost use Rattle.std.specs.Prelude.{IfOk};
ghost use Rattle.cedar_schema_model.specs.Types.{Ty};
ghost use Rattle.cedar_schema_types.specs.Unions.{entities_of};
ghost use Rattle.cedar_schema_types.specs.Types.{type_of, attributes_of};
ghost use Rattle.cedar_schema_sound.specs.Known.{AreDeclared};

use crate::known_attributes;
use cedar_schema_joins::DeclaredAttributes;
use cedar_schema_types::{Attributes, EntityKind, Type};
use std::alloc::{AllocError, Global};

/// What has attributes by a schema.
pub trait AllAttributes {
    /// Whose attributes these are.
    ghost typed: { Self → Ty };

    /// All attributes that the schema declares for its values. Fails only when out of memory.
    fn all_attributes<S: DeclaredAttributes>(
        &self,
        alloc: Global,
        schema: &S,
    ) -> Result<Attributes, AllocError>
        ensures { IfOk result (λ as_. AreDeclared (S.schema schema.now) (typed self.now) (attributes_of as_)) };
}

/// Entities that have attributes by a schema.
pub trait AllKnownAttrs {
    /// Of which type these entities are.
    ghost typed: { Self → Ty };

    /// All attributes that the schema declares for each of these entities. Fails only when out of memory.
    fn all_known_attrs<S: DeclaredAttributes>(
        &self,
        alloc: Global,
        schema: &S,
    ) -> Result<Attributes, AllocError>
        ensures { IfOk result (λ as_. AreDeclared (S.schema schema.now) (typed self.now) (attributes_of as_)) };
}

impl AllAttributes for Type {
    ghost typed = { type_of };

    fn all_attributes<S: DeclaredAttributes>(
        &self,
        alloc: Global,
        schema: &S,
    ) -> Result<Attributes, AllocError> {
        known_attributes::all_attributes(alloc, schema, self)
    }
}

impl AllKnownAttrs for EntityKind {
    ghost typed = { entities_of };

    fn all_known_attrs<S: DeclaredAttributes>(
        &self,
        alloc: Global,
        schema: &S,
    ) -> Result<Attributes, AllocError> {
        known_attributes::all_known_attrs(alloc, schema, self)
    }
}

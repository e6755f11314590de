//! The types by which values can be read.

ghost use Rattle.std.specs.Prelude.{◌≡◌};
ghost use Rattle.cedar_schema_types.specs.Views.{core_type_of, core_attributes_of, core_declared_of};

use cedar_expr_names::{EntityType, Name};
use std::alloc::AllocError;
use std::collections::BTreeMap;
use std::rc::{Rc, RcStr};

/// A type by which values can be read.
#[derive(Debug, PartialEq, Eq, PartialOrd, Ord, Hash, Drop)]
#[cycle(core_types)]
pub enum CoreSchemaType {
    /// Truth values.
    Bool,
    /// Whole numbers.
    Long,
    /// Texts.
    String,
    /// Sets of members of one type.
    Set {
        /// The type of the members.
        element_ty: Rc<CoreSchemaType>,
    },
    /// The empty set: nothing is said of the type of members.
    EmptySet,
    /// Records.
    Record {
        /// The attributes.
        attrs: CoreAttributes,
        /// Whether there may be others.
        open_attrs: bool,
    },
    /// The entities of one type.
    Entity {
        /// The entity type.
        ty: EntityType,
    },
    /// Extension values.
    Extension {
        /// The name of their type.
        name: Name,
    },
}

/// The attributes of a record, by their names.
#[derive(Debug, PartialEq, Eq, PartialOrd, Ord, Hash, Drop)]
#[cycle(core_types)]
pub struct CoreAttributes {
    /// What is declared of each.
    pub attrs: Rc<BTreeMap<RcStr, CoreAttributeType>>,
}

/// The type of an attribute, and whether it is required.
#[derive(Debug, PartialEq, Eq, PartialOrd, Ord, Hash, Drop)]
#[cycle(core_types)]
pub struct CoreAttributeType {
    /// The type.
    pub attr_type: CoreSchemaType,
    /// Whether the attribute is required.
    pub required: bool,
}

impl CoreAttributeType {
    /// Whether the attribute is required.
    pub fn is_required(&self) -> bool
        ensures { result ≡ (core_declared_of self.now).required }
    {
        self.required
    }

    /// The type.
    pub fn schema_type(&self) -> &CoreSchemaType
        ensures { core_type_of result.now ≡ (core_declared_of self.now).type }
    {
        &self.attr_type
    }
}

impl Clone for CoreSchemaType {
    ghost is_clone = { λ t copy. core_type_of copy ≡ core_type_of t };

    /// A copy of the type that shares its parts.
    fn clone(&self) -> Result<CoreSchemaType, AllocError> {
        match self {
            CoreSchemaType::Bool => Ok(CoreSchemaType::Bool),
            CoreSchemaType::Long => Ok(CoreSchemaType::Long),
            CoreSchemaType::String => Ok(CoreSchemaType::String),
            CoreSchemaType::Set { element_ty } => Ok(CoreSchemaType::Set {
                element_ty: element_ty.clone()?,
            }),
            CoreSchemaType::EmptySet => Ok(CoreSchemaType::EmptySet),
            CoreSchemaType::Record { attrs, open_attrs } => Ok(CoreSchemaType::Record {
                attrs: attrs.clone()?,
                open_attrs: *open_attrs,
            }),
            CoreSchemaType::Entity { ty } => Ok(CoreSchemaType::Entity { ty: ty.clone()? }),
            CoreSchemaType::Extension { name } => Ok(CoreSchemaType::Extension {
                name: name.clone()?,
            }),
        }
    }
}

impl Clone for CoreAttributes {
    ghost is_clone = { λ a copy. core_attributes_of copy ≡ core_attributes_of a };

    /// A copy that shares the attributes.
    fn clone(&self) -> Result<CoreAttributes, AllocError> {
        Ok(CoreAttributes {
            attrs: self.attrs.clone()?,
        })
    }
}

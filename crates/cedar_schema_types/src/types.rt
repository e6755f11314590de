//! Types, and the attributes of records and entities.

ghost use Rattle.std.specs.Prelude.{◌≡◌, true, false, IfOk, None, if◌then◌else◌};
ghost use Rattle.cedar_expr_names.specs.Views.{plain_name_of, type_name_of};
ghost use Rattle.cedar_schema_model.specs.Types.{bool_type, only_true, only_false, any_bool, long_type, string_type, entity_type, any_entity, set_type, any_set, record_type, extension_type};
ghost use Rattle.cedar_expr_model.specs.Records.{in_order};
ghost use Rattle.cedar_schema_types.specs.Kinds.{openness_of};
ghost use Rattle.cedar_schema_types.specs.Types.{type_of, attributes_of, attribute_of, attribute_place};
ghost use Rattle.cedar_schema_types.specs.AttributeLists.{attributes_from, declared_pairs, required_pairs};

use crate::entity_kind::EntityKind;
use crate::entity_lub::EntityLUB;
use crate::kinds::{BoolType, OpenTag};
use cedar_expr_names::{EntityType, Loc, Name};
use std::alloc::{AllocError, Global};
use std::collections::BTreeMap;
use std::rc::{Rc, RcStr};

/// A type.
#[derive(Debug, PartialEq, Eq, PartialOrd, Ord, Hash)]
#[cycle(types)]
pub enum Type {
    /// The type of no value.
    Never,
    /// Truth values.
    Bool(BoolType),
    /// Whole numbers.
    Long,
    /// Texts.
    String,
    /// Entities.
    Entity(EntityKind),
    /// Sets.
    Set {
        /// The type of the members. Without one this is the type of all sets.
        element_type: Option<Rc<Type>>,
    },
    /// Records.
    Record {
        /// The attributes.
        attrs: Attributes,
        /// Whether there may be others.
        open_attributes: OpenTag,
    },
    /// Extension values.
    ExtensionType {
        /// The name of their type.
        name: Name,
    },
}

// prover: see ARCHITECTURE
impl Drop for Type {
    #[cycle(dropped)]
    fn drop(self) {
        match self {
            Type::Never => {}
            Type::Bool(_) => {}
            Type::Long => {}
            Type::String => {}
            Type::Entity(_) => {}
            Type::Set { element_type: _ } => {}
            Type::Record {
                attrs: _,
                open_attributes: _,
            } => {}
            Type::ExtensionType { name: _ } => {}
        }
    }
}

/// The attributes of a record or an entity, by their names.
#[derive(Debug, PartialEq, Eq, PartialOrd, Ord, Hash, Drop)]
#[cycle(types)]
pub struct Attributes {
    /// What is declared of each.
    pub attrs: Rc<BTreeMap<RcStr, AttributeType>>,
}

/// The type of an attribute, whether it is required, and its place, which doesn't count where attributes are compared.
#[derive(Debug, Drop)]
#[derive_where(PartialEq, Eq, PartialOrd, Ord, Hash)]
#[cycle(types)]
pub struct AttributeType {
    /// The type.
    pub attr_type: Type,
    /// Whether the attribute is required.
    pub is_required: bool,
    /// The place.
    #[derive_where(skip(EqHashOrd))]
    pub loc: Option<Loc>,
}

impl Type {
    /// The type of this truth value alone.
    pub fn singleton_boolean(value: bool) -> Type
        ensures { type_of result ≡ bool_type (if value then only_true else only_false) }
    {
        Type::Bool(BoolType::of_value(value))
    }

    /// The type of both truth values.
    pub fn primitive_boolean() -> Type
        ensures { type_of result ≡ bool_type any_bool }
    {
        Type::Bool(BoolType::AnyBool)
    }

    /// The type of whole numbers.
    pub fn primitive_long() -> Type
        ensures { type_of result ≡ long_type }
    {
        Type::Long
    }

    /// The type of texts.
    pub fn primitive_string() -> Type
        ensures { type_of result ≡ string_type }
    {
        Type::String
    }

    /// The type of the entities of one entity type. Fails only when out of memory.
    pub fn named_entity_reference(alloc: Global, ty: EntityType) -> Result<Type, AllocError>
        ensures { IfOk result (λ t. type_of t ≡ entity_type (type_name_of ty)) }
    {
        let union = EntityLUB::single_entity(alloc, ty)?;
        Ok(Type::Entity(EntityKind::Entity(union)))
    }

    /// The type of any entity.
    pub fn any_entity_reference() -> Type
        ensures { type_of result ≡ any_entity }
    {
        Type::Entity(EntityKind::AnyEntity)
    }

    /// The type of the sets of this element type. Fails only when out of memory.
    pub fn set(alloc: Global, element_type: Type) -> Result<Type, AllocError>
        ensures { IfOk result (λ t. type_of t ≡ set_type (type_of element_type)) }
    {
        let element_type = Rc::new(alloc, element_type)?;
        Ok(Type::Set {
            element_type: Some(element_type),
        })
    }

    /// The type of all sets.
    pub fn any_set() -> Type
        ensures { type_of result ≡ any_set }
    {
        Type::Set { element_type: None }
    }

    /// The record type of these attributes, all of them required. Of a repeated name the last stands. Fails only when out of memory.
    pub fn record_with_required_attributes(
        alloc: Global,
        required_attrs: Vec<(RcStr, Type)>,
        open_attributes: OpenTag,
    ) -> Result<Type, AllocError>
        ensures { IfOk result (λ t. type_of t ≡ record_type (attributes_from (in_order (required_pairs required_attrs.items))) (openness_of open_attributes)) }
    {
        let attrs = Attributes::with_required_attributes(alloc, required_attrs)?;
        Ok(Type::Record {
            attrs,
            open_attributes,
        })
    }

    /// The record type of these attributes. Of a repeated name the last stands. Fails only when out of memory.
    pub fn record_with_attributes(
        alloc: Global,
        attrs: Vec<(RcStr, AttributeType)>,
        open_attributes: OpenTag,
    ) -> Result<Type, AllocError>
        ensures { IfOk result (λ t. type_of t ≡ record_type (attributes_from (in_order (declared_pairs attrs.items))) (openness_of open_attributes)) }
    {
        let attrs = Attributes::with_attributes(alloc, attrs)?;
        Ok(Type::Record {
            attrs,
            open_attributes,
        })
    }

    /// The type of the extension values of this name.
    pub fn extension(name: Name) -> Type
        ensures { type_of result ≡ extension_type (plain_name_of name) }
    {
        Type::ExtensionType { name }
    }
}

impl Clone for Type {
    ghost is_clone = { λ t copy. type_of copy ≡ type_of t };

    /// A copy of the type that shares its parts.
    fn clone(&self) -> Result<Type, AllocError> {
        match self {
            Type::Never => Ok(Type::Never),
            Type::Bool(b) => Ok(Type::Bool(*b)),
            Type::Long => Ok(Type::Long),
            Type::String => Ok(Type::String),
            Type::Entity(kind) => Ok(Type::Entity(kind.clone()?)),
            Type::Set { element_type: None } => Ok(Type::Set { element_type: None }),
            Type::Set {
                element_type: Some(element),
            } => Ok(Type::Set {
                element_type: Some(element.clone()?),
            }),
            Type::Record {
                attrs,
                open_attributes,
            } => Ok(Type::Record {
                attrs: attrs.clone()?,
                open_attributes: *open_attributes,
            }),
            Type::ExtensionType { name } => Ok(Type::ExtensionType {
                name: name.clone()?,
            }),
        }
    }
}

impl AttributeType {
    /// The attribute's type and whether it is required, without a place.
    pub fn new(attr_type: Type, is_required: bool) -> AttributeType
        ensures declared { (attribute_of result).type ≡ type_of attr_type }
        ensures required { (attribute_of result).is_required ≡ is_required }
        ensures place { attribute_place result ≡ None }
    {
        AttributeType {
            attr_type,
            is_required,
            loc: None,
        }
    }

    /// The attribute's type and whether it is required, at a place.
    pub fn new_with_loc(attr_type: Type, is_required: bool, loc: Option<Loc>) -> AttributeType
        ensures declared { (attribute_of result).type ≡ type_of attr_type }
        ensures required { (attribute_of result).is_required ≡ is_required }
        ensures place { attribute_place result ≡ loc }
    {
        AttributeType {
            attr_type,
            is_required,
            loc,
        }
    }

    /// A required attribute of this type.
    pub fn required_attribute(attr_type: Type) -> AttributeType
        ensures declared { (attribute_of result).type ≡ type_of attr_type }
        ensures required { (attribute_of result).is_required ≡ true }
        ensures place { attribute_place result ≡ None }
    {
        AttributeType::new(attr_type, true)
    }

    /// An optional attribute of this type.
    pub fn optional_attribute(attr_type: Type) -> AttributeType
        ensures declared { (attribute_of result).type ≡ type_of attr_type }
        ensures required { (attribute_of result).is_required ≡ false }
        ensures place { attribute_place result ≡ None }
    {
        AttributeType::new(attr_type, false)
    }

    /// Whether the attribute is required.
    pub fn is_required(&self) -> bool
        ensures { result ≡ (attribute_of self.now).is_required }
    {
        self.is_required
    }
}

impl Clone for AttributeType {
    ghost is_clone = { λ a copy. (attribute_of copy ≡ attribute_of a) × (attribute_place copy ≡ attribute_place a) };

    /// A copy of what is declared of the attribute, with a type whose parts are shared.
    fn clone(&self) -> Result<AttributeType, AllocError> {
        Ok(AttributeType {
            attr_type: self.attr_type.clone()?,
            is_required: self.is_required,
            loc: self.loc,
        })
    }
}

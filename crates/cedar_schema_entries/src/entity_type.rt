//! Entity types with what descends from them.

ghost use Rattle.std.specs.Prelude.{◌≡◌, true};
ghost use Rattle.cedar_schema_types.specs.Types.{attributes_of};
ghost use Rattle.cedar_schema_entries.specs.Kinds.{are_of_kind};

use crate::entity_kinds::{StandardValidatorEntityType, ValidatorEntityTypeKind};
use cedar_expr_names::{EntityType, Loc};
use cedar_schema_types::{AttributeType, Attributes, OpenTag, Type};
use std::alloc::{AllocError, Global};
use std::collections::BTreeSet;
use std::collections::btree_set::Iter;
use std::rc::RcStr;

/// An entity type: its name, its kind, its attributes, the entity types that descend from it, and its place.
#[derive(Debug)]
pub struct ValidatorEntityType {
    name: EntityType,
    pub(crate) descendants: BTreeSet<EntityType>,
    attributes: Attributes,
    pub(crate) kind: ValidatorEntityTypeKind,
    loc: Option<Loc>,
    ghost attributed: { are_of_kind (attributes_of attributes) kind ≡ true },
}

// A drop of its own is one step to the proof of a function that may drop an entity type.
impl Drop for ValidatorEntityType {
    fn drop(self) {
        let ValidatorEntityType {
            name: _,
            descendants: _,
            attributes: _,
            kind: _,
            loc: _,
        } = self;
    }
}

impl ValidatorEntityType {
    ghost use Rattle.std.specs.Prelude.{map, option_map, IfOk};
    ghost use Rattle.std.specs.List.{list_any};
    ghost use Rattle.std.specs.Rc.{rc_str_bytes};
    ghost use Rattle.cedar_expr_model.specs.Name.{name_eq};
    ghost use Rattle.cedar_expr_names.specs.Views.{type_name_of};
    ghost use Rattle.cedar_schema_model.specs.Schema.{standard, enumerated, external};
    ghost use Rattle.cedar_schema_model.specs.Types.{attribute_named, is_closed};
    ghost use Rattle.cedar_schema_model.specs.Conforming.{of_kind, attributes_at, tags_at};
    ghost use Rattle.cedar_schema_types.specs.Kinds.{openness_of};
    ghost use Rattle.cedar_schema_types.specs.Types.{type_of, attribute_of};
    ghost use Rattle.cedar_schema_model.specs.Kept.{is_elsewhere};
    ghost use Rattle.cedar_schema_entries.specs.Kinds.{kind_with};
    ghost use Rattle.cedar_schema_entries.specs.Views.{entity_type_seen, entity_type_place};

    /// The standard entity type of this name, with these descendants, attributes and type of tags, at this place.
    pub fn new_standard(
        name: EntityType,
        descendants: BTreeSet<EntityType>,
        attributes: Attributes,
        tags: Option<Type>,
        loc: Option<Loc>,
    ) -> ValidatorEntityType
        ensures kept { entity_type_seen result ≡ record { name = type_name_of name; kind = standard (attributes_of attributes) (option_map type_of tags); descendants = map type_name_of descendants.keys } }
        ensures place { entity_type_place result ≡ loc }
    {
        ValidatorEntityType {
            name,
            descendants,
            attributes,
            kind: ValidatorEntityTypeKind::Standard(StandardValidatorEntityType::new(tags)),
            loc,
        }
    }

    /// The enumerated entity type of this name, with these descendants and members, at this place. Fails only when out of memory.
    pub fn new_enum(
        alloc: Global,
        name: EntityType,
        descendants: BTreeSet<EntityType>,
        members: BTreeSet<RcStr>,
        loc: Option<Loc>,
    ) -> Result<ValidatorEntityType, AllocError>
        ensures kept { IfOk result (λ t. entity_type_seen t ≡ record { name = type_name_of name; kind = enumerated (map rc_str_bytes members.keys); descendants = map type_name_of descendants.keys }) }
        ensures place { IfOk result (λ t. entity_type_place t ≡ loc) }
    {
        let attributes = Attributes::with_attributes(alloc, Vec::new(alloc))?;
        Ok(ValidatorEntityType {
            name,
            descendants,
            attributes,
            kind: ValidatorEntityTypeKind::Enum(members),
            loc,
        })
    }

    /// The entity type of this name that is declared elsewhere, with these descendants, at this place. Fails only when out of memory.
    pub fn new_external(
        alloc: Global,
        name: EntityType,
        descendants: BTreeSet<EntityType>,
        loc: Option<Loc>,
    ) -> Result<ValidatorEntityType, AllocError>
        ensures kept { IfOk result (λ t. entity_type_seen t ≡ record { name = type_name_of name; kind = external; descendants = map type_name_of descendants.keys }) }
        ensures place { IfOk result (λ t. entity_type_place t ≡ loc) }
    {
        let attributes = Attributes::with_attributes(alloc, Vec::new(alloc))?;
        Ok(ValidatorEntityType {
            name,
            descendants,
            attributes,
            kind: ValidatorEntityTypeKind::External,
            loc,
        })
    }

    /// The name.
    pub fn name(&self) -> &EntityType
        ensures { type_name_of result.now ≡ (entity_type_seen self.now).name }
    {
        &self.name
    }

    /// The place.
    pub fn loc(&self) -> Option<Loc>
        ensures { result ≡ entity_type_place self.now }
    {
        self.loc
    }

    /// The kind. The members of an enumerated one are in the order of their texts.
    pub fn kind(&self) -> &ValidatorEntityTypeKind
        ensures { kind_with (attributes_at (of_kind (entity_type_seen self.now).kind)) result.now ≡ (entity_type_seen self.now).kind }
    {
        &self.kind
    }

    /// The attributes. An entity type that isn't standard has none.
    pub fn attributes(&self) -> &Attributes
        ensures { attributes_of result.now ≡ attributes_at (of_kind (entity_type_seen self.now).kind) }
    {
        &self.attributes
    }

    /// What is declared of the attribute of this name.
    pub fn attr(&self, attr: &str) -> Option<&AttributeType>
        ensures { option_map (λ d. attribute_of d.now) result ≡ attribute_named attr.now (attributes_at (of_kind (entity_type_seen self.now).kind)) }
    {
        self.attributes.get_attr(attr)
    }

    /// Whether there may be attributes that aren't declared: never.
    pub fn open_attributes(&self) -> OpenTag
        ensures { openness_of result ≡ is_closed }
    {
        OpenTag::ClosedAttributes
    }

    /// The type of the tags. Without one the entities have no tags.
    pub fn tag_type(&self) -> Option<&Type>
        ensures { option_map (λ t. type_of t.now) result ≡ tags_at (of_kind (entity_type_seen self.now).kind) }
    {
        match &self.kind {
            ValidatorEntityTypeKind::Standard(standard) => standard.tag_type(),
            ValidatorEntityTypeKind::Enum(_) | ValidatorEntityTypeKind::External => None,
        }
    }

    /// Goes over the entity types that descend from this one, in the order of their names.
    pub fn descendants(&self) -> Iter<'_, EntityType>
        ensures { map type_name_of result ≡ (entity_type_seen self.now).descendants }
    {
        self.descendants.iter()
    }

    /// Whether the entity type descends from this one.
    pub fn has_descendant_entity_type(&self, ty: &EntityType) -> bool
        ensures { result ≡ list_any (name_eq (type_name_of ty.now)) (entity_type_seen self.now).descendants }
    {
        self.descendants.contains(ty)
    }

    /// Whether the entity type is declared elsewhere.
    pub fn is_external(&self) -> bool
        ensures { result ≡ is_elsewhere (entity_type_seen self.now).kind }
    {
        match &self.kind {
            ValidatorEntityTypeKind::External => true,
            ValidatorEntityTypeKind::Standard(_) | ValidatorEntityTypeKind::Enum(_) => false,
        }
    }
}

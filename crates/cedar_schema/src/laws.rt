//! Laws of subtypes, joins and values of the code's types, each of which is well-formed, and of how types and what actions apply to
//! are compared and hashed. Each function's contract is the theorem; its body does nothing.

ghost use Rattle.std.specs.Prelude.{◌≡◌, ◌↔◌, [], Bool, true, Option, Some};
ghost use Rattle.std.specs.Bool.{Decides};
ghost use Rattle.std.specs.Ordering.{is_eq};
ghost use Rattle.std.specs.declared.cmp.Ordering.TheVariants.{Equal};
ghost use Rattle.cedar_schema_model.specs.Types.{Mode, never};
ghost use Rattle.cedar_schema_model.specs.Join.{reduce_to_join};
ghost use Rattle.cedar_expr_names.specs.declared.loc.Loc.{Loc};
ghost use Rattle.cedar_schema_types.specs.Kinds.{bool_type_of, openness_of};
ghost use Rattle.cedar_schema_types.specs.Types.{type_of, attributes_of, attribute_of};
ghost use Rattle.cedar_schema_types.specs.Unions.{members_of, entities_of};
ghost use Rattle.cedar_schema_types.specs.declared.entity_kind.EntityKind.{EntityKind as CodeKind};
ghost use Rattle.cedar_schema_types.specs.declared.entity_lub.EntityLUB.{EntityLUB as Union};
ghost use Rattle.cedar_schema_types.specs.declared.kinds.BoolType.{BoolType as CodeBool};
ghost use Rattle.cedar_schema_types.specs.declared.kinds.OpenTag.{OpenTag as Tag};
ghost use Rattle.cedar_schema_types.specs.declared.types.Type.{«Type» as CodeType};
ghost use Rattle.cedar_schema_types.specs.declared.types.AttributeType.{AttributeType};
ghost use Rattle.cedar_schema_types.specs.declared.types.Attributes.{Attributes as CodeAttributes};
ghost use Rattle.cedar_schema_types.specs.Views.{core_type_of, core_attributes_of, core_declared_of};
ghost use Rattle.cedar_schema_types.specs.declared.core_types.CoreAttributeType.{CoreAttributeType as ReadAttribute};
ghost use Rattle.cedar_schema_types.specs.declared.core_types.CoreAttributes.{CoreAttributes as ReadAttributes};
ghost use Rattle.cedar_schema_types.specs.declared.core_types.CoreSchemaType.{CoreSchemaType as ReadType};
ghost use Rattle.cedar_schema_entries.specs.Views.{applied_seen};
ghost use Rattle.cedar_schema_entries.specs.declared.applies_to.AppliesTo.{AppliesTo as Applied};
ghost use Rattle.cedar_schema.specs.Laws.{SubtypesReflexive, SubtypesTransitive, SubtypesAntisymmetric, JoinIsAbove, JoinIsLeast, JoinSwaps, ReductionIsOfMembers, SupertypesKeepValues, DisjointShareNoValue};

use cedar_expr_values::ExtensionValue;
pub use cedar_schema_built::laws::{
    external_declarations_are_refused, listed_are_declared, new_keeps_the_schema,
    order_of_listed_is_free, schemas_are_in_order,
};
use cedar_schema_entries::AppliesTo;
pub use cedar_schema_entries::laws::{actions_are_in_order, entity_types_are_in_order};
pub use cedar_schema_sound::attribute_laws::{attributes_are_kept, built_attributes_are_plain};
pub use cedar_schema_sound::laws::{
    built_schemas_are_not_refused, built_schemas_are_sound, order_of_fragments_is_free,
    schemas_are_built_in_each_order,
};
use cedar_schema_types::{
    AttributeType, Attributes, BoolType, CoreAttributeType, CoreAttributes, CoreSchemaType,
    EntityKind, EntityLUB, OpenTag, Type,
};
use std::hash::Hash;

/// In both modes subtyping is a partial order: a type is below itself, a type below one that is below a third is below the
/// third, and types below each other are the same.
pub fn subtypes_are_ordered()
    ensures itself { SubtypesReflexive }
    ensures on { SubtypesTransitive }
    ensures both { SubtypesAntisymmetric }
{}

/// A join is above both types, and below every type above both in which the type of all sets stands nowhere; the order of the
/// two doesn't matter.
pub fn joins_are_bounds()
    ensures above { JoinIsAbove }
    ensures least { JoinIsLeast }
    ensures swaps { JoinSwaps }
{}

/// The join of no types is the type of no value. Between types without that of all sets the order of several doesn't matter.
pub fn reductions_are_of_members()
    ensures none { (m : Mode) → reduce_to_join m [] ≡ Some never }
    ensures members { ReductionIsOfMembers }
{}

/// A value of a type is a value of every type above it, and no value is of both of two disjoint types.
pub fn values_keep_to_types<X: ExtensionValue>()
    ensures kept { SupertypesKeepValues X.seen }
    ensures apart { DisjointShareNoValue X.seen }
{}

/// Types are equal exactly where they are the same type of the model, which is where their order finds no difference, and are then
/// hashed alike. The places of attributes don't count.
pub fn types_are_compared()
    ensures equality { (a b : CodeType) → (⟦<Type as PartialEq>⟧.eq a b ≡ true) ↔ (type_of a ≡ type_of b) }
    ensures order { (a b : CodeType) → ⟦<Type as PartialEq>⟧.eq a b ≡ is_eq (⟦<Type as Ord>⟧.cmp a b) }
    ensures hash { (a b : CodeType) → ⟦<Type as PartialEq>⟧.eq a b ≡ true → ⟦<Type as Hash>⟧.hash_input a ≡ ⟦<Type as Hash>⟧.hash_input b }
    ensures places { (t : CodeType) (r : Bool) (l m : Option Loc) → ⟦<AttributeType as PartialEq>⟧.eq (record { attr_type = t; is_required = r; loc = l }) (record { attr_type = t; is_required = r; loc = m }) ≡ true }
{}

/// Types of truth values are equal exactly where they are the same of the model, which is where their order finds no difference, and
/// are then hashed alike.
pub fn bool_types_are_compared()
    ensures equality { (a b : CodeBool) → Decides (⟦<BoolType as PartialEq>⟧.eq a b) (bool_type_of a ≡ bool_type_of b) }
    ensures order { (a b : CodeBool) → ⟦<BoolType as PartialEq>⟧.eq a b ≡ is_eq (⟦<BoolType as Ord>⟧.cmp a b) }
    ensures hash { (a b : CodeBool) → ⟦<BoolType as PartialEq>⟧.eq a b ≡ true → ⟦<BoolType as Hash>⟧.hash_input a ≡ ⟦<BoolType as Hash>⟧.hash_input b }
{}

/// So are the marks of open records.
pub fn open_tags_are_compared()
    ensures equality { (a b : Tag) → Decides (⟦<OpenTag as PartialEq>⟧.eq a b) (openness_of a ≡ openness_of b) }
    ensures order { (a b : Tag) → ⟦<OpenTag as PartialEq>⟧.eq a b ≡ is_eq (⟦<OpenTag as Ord>⟧.cmp a b) }
    ensures hash { (a b : Tag) → ⟦<OpenTag as PartialEq>⟧.eq a b ≡ true → ⟦<OpenTag as Hash>⟧.hash_input a ≡ ⟦<OpenTag as Hash>⟧.hash_input b }
{}

/// Unions of entity types are equal exactly where they have the same members, which is where their order finds no difference, and are
/// then hashed alike.
pub fn unions_are_compared()
    ensures equality { (a b : Union) → Decides (⟦<EntityLUB as PartialEq>⟧.eq a b) (members_of a ≡ members_of b) }
    ensures order { (a b : Union) → ⟦<EntityLUB as PartialEq>⟧.eq a b ≡ is_eq (⟦<EntityLUB as Ord>⟧.cmp a b) }
    ensures hash { (a b : Union) → ⟦<EntityLUB as PartialEq>⟧.eq a b ≡ true → ⟦<EntityLUB as Hash>⟧.hash_input a ≡ ⟦<EntityLUB as Hash>⟧.hash_input b }
{}

/// Types of entities are equal exactly where they are the same type of the model, which is where their order finds no difference, and
/// are then hashed alike.
pub fn entity_kinds_are_compared()
    ensures equality { (a b : CodeKind) → Decides (⟦<EntityKind as PartialEq>⟧.eq a b) (entities_of a ≡ entities_of b) }
    ensures order { (a b : CodeKind) → ⟦<EntityKind as PartialEq>⟧.eq a b ≡ is_eq (⟦<EntityKind as Ord>⟧.cmp a b) }
    ensures hash { (a b : CodeKind) → ⟦<EntityKind as PartialEq>⟧.eq a b ≡ true → ⟦<EntityKind as Hash>⟧.hash_input a ≡ ⟦<EntityKind as Hash>⟧.hash_input b }
{}

/// Attributes of records and entities are equal exactly where they are the same of the model, which is where their order finds no
/// difference, and are then hashed alike.
pub fn attributes_are_compared()
    ensures equality { (a b : CodeAttributes) → Decides (⟦<Attributes as PartialEq>⟧.eq a b) (attributes_of a ≡ attributes_of b) }
    ensures order { (a b : CodeAttributes) → ⟦<Attributes as PartialEq>⟧.eq a b ≡ is_eq (⟦<Attributes as Ord>⟧.cmp a b) }
    ensures hash { (a b : CodeAttributes) → ⟦<Attributes as PartialEq>⟧.eq a b ≡ true → ⟦<Attributes as Hash>⟧.hash_input a ≡ ⟦<Attributes as Hash>⟧.hash_input b }
{}

/// What is declared of an attribute is equal exactly where it is the same type and as required, which is where its order finds no
/// difference, and is then hashed alike. The place counts in none of the three.
pub fn attribute_types_are_compared()
    ensures equality { (a b : AttributeType) → Decides (⟦<AttributeType as PartialEq>⟧.eq a b) (attribute_of a ≡ attribute_of b) }
    ensures order { (a b : AttributeType) → ⟦<AttributeType as PartialEq>⟧.eq a b ≡ is_eq (⟦<AttributeType as Ord>⟧.cmp a b) }
    ensures hash { (a b : AttributeType) → ⟦<AttributeType as PartialEq>⟧.eq a b ≡ true → ⟦<AttributeType as Hash>⟧.hash_input a ≡ ⟦<AttributeType as Hash>⟧.hash_input b }
    ensures equal_places { (a : AttributeType) (l : Option Loc) → ⟦<AttributeType as PartialEq>⟧.eq a (record a { loc = l }) ≡ true }
    ensures ordered_places { (a : AttributeType) (l : Option Loc) → ⟦<AttributeType as Ord>⟧.cmp a (record a { loc = l }) ≡ Equal }
    ensures hashed_places { (a : AttributeType) (l : Option Loc) → ⟦<AttributeType as Hash>⟧.hash_input a ≡ ⟦<AttributeType as Hash>⟧.hash_input (record a { loc = l }) }
{}

/// Types by which values can be read are equal exactly where they are the same, which is where their order finds no difference, and
/// are then hashed alike.
pub fn core_types_are_compared()
    ensures order { (a b : ReadType) → ⟦<CoreSchemaType as PartialEq>⟧.eq a b ≡ is_eq (⟦<CoreSchemaType as Ord>⟧.cmp a b) }
    ensures equality { (a b : ReadType) → Decides (⟦<CoreSchemaType as PartialEq>⟧.eq a b) (core_type_of a ≡ core_type_of b) }
    ensures hash { (a b : ReadType) → ⟦<CoreSchemaType as PartialEq>⟧.eq a b ≡ true → ⟦<CoreSchemaType as Hash>⟧.hash_input a ≡ ⟦<CoreSchemaType as Hash>⟧.hash_input b }
{}

/// So are the attributes of such a type.
pub fn core_attributes_are_compared()
    ensures equality { (a b : ReadAttributes) → Decides (⟦<CoreAttributes as PartialEq>⟧.eq a b) (core_attributes_of a ≡ core_attributes_of b) }
    ensures order { (a b : ReadAttributes) → ⟦<CoreAttributes as PartialEq>⟧.eq a b ≡ is_eq (⟦<CoreAttributes as Ord>⟧.cmp a b) }
    ensures hash { (a b : ReadAttributes) → ⟦<CoreAttributes as PartialEq>⟧.eq a b ≡ true → ⟦<CoreAttributes as Hash>⟧.hash_input a ≡ ⟦<CoreAttributes as Hash>⟧.hash_input b }
{}

/// So is what is declared of one of them.
pub fn core_attribute_types_are_compared()
    ensures equality { (a b : ReadAttribute) → Decides (⟦<CoreAttributeType as PartialEq>⟧.eq a b) (core_declared_of a ≡ core_declared_of b) }
    ensures order { (a b : ReadAttribute) → ⟦<CoreAttributeType as PartialEq>⟧.eq a b ≡ is_eq (⟦<CoreAttributeType as Ord>⟧.cmp a b) }
    ensures hash { (a b : ReadAttribute) → ⟦<CoreAttributeType as PartialEq>⟧.eq a b ≡ true → ⟦<CoreAttributeType as Hash>⟧.hash_input a ≡ ⟦<CoreAttributeType as Hash>⟧.hash_input b }
{}

/// What actions apply to is equal exactly where it is the same types of principals and of resources.
pub fn applied_types_are_compared()
    ensures { (a b : Applied) → Decides (⟦<AppliesTo as PartialEq>⟧.eq a b) (applied_seen a ≡ applied_seen b) }
{}

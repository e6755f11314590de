//! Joins: the type that two types have in common above them.

ghost use Rattle.std.specs.Prelude.{◌≡◌, true, map, option_map, IfOk};
ghost use Rattle.cedar_expr_names.specs.Views.{plain_name_of};
ghost use Rattle.cedar_expr_model.specs.Records.{names_rise};
ghost use Rattle.cedar_schema_model.specs.Types.{bool_type, long_type, string_type, any_set, set_type, record_type, extension_type};
ghost use Rattle.cedar_schema_model.specs.Join.{join, reduce_to_join, are_disjoint, attributes_join, record_join, joined_with, declared_in_common, agree};
ghost use Rattle.cedar_schema_types.specs.Kinds.{bool_type_of, openness_of};
ghost use Rattle.cedar_schema_joins.specs.Modes.{mode_of};
ghost use Rattle.cedar_schema_types.specs.Unions.{entities_of};
ghost use Rattle.cedar_schema_types.specs.Types.{type_of, attributes_of, attribute_of};
ghost use Rattle.cedar_schema_types.specs.AttributeLists.{attributes_from, declared_pairs};

use crate::entities::join_kinds;
use crate::mode::is_permissive;
use cedar_expr_names::Name;
use cedar_schema_types::{AttributeType, Attributes, BoolType, EntityKind, OpenTag, Type};
use cedar_store_parts::ValidationMode;
use std::alloc::{AllocError, Global};
use std::rc::{Rc, RcStr};

/// The join of two types in this mode, where there is one. Fails only when out of memory.
pub fn least_upper_bound(
    alloc: Global,
    ty0: &Type,
    ty1: &Type,
    mode: ValidationMode,
) -> Result<Option<Type>, AllocError>
    ensures { IfOk result (λ j. option_map type_of j ≡ join (mode_of mode) (type_of ty0.now) (type_of ty1.now)) }
{
    join(mode, alloc, ty0, ty1)
}

/// The join of all these types, one after the other, where there is one; of none, `Never`. Fails only when out of memory.
pub fn reduce_to_least_upper_bound(
    alloc: Global,
    tys: &[Type],
    mode: ValidationMode,
) -> Result<Option<Type>, AllocError>
    ensures { IfOk result (λ j. option_map type_of j ≡ reduce_to_join (mode_of mode) (map type_of tys.now)) }
{
    let mut joined = Type::Never;
    for ty in tys {
        match join(mode, alloc, &joined, ty)? {
            Some(next) => joined = next,
            None => return Ok(None),
        }
    }
    Ok(Some(joined))
}

/// Whether no value is of both types, since they are unions of entity types that have none in common.
pub fn are_types_disjoint(ty0: &Type, ty1: &Type) -> bool
    ensures { result ≡ are_disjoint (type_of ty0.now) (type_of ty1.now) }
{
    match ty0 {
        Type::Entity(kind) => shares_none(kind, ty1),
        Type::Never
        | Type::Bool(_)
        | Type::Long
        | Type::String
        | Type::Set { .. }
        | Type::Record { .. }
        | Type::ExtensionType { .. } => false,
    }
}

// The join of two types.
#[cycle(join)]
fn join(
    mode: ValidationMode,
    alloc: Global,
    ty0: &Type,
    ty1: &Type,
) -> Result<Option<Type>, AllocError>
    ensures { IfOk result (λ j. option_map type_of j ≡ join (mode_of mode) (type_of ty0.now) (type_of ty1.now)) }
{
    match ty0 {
        Type::Never => Ok(Some(ty1.clone()?)),
        Type::Bool(b) => Ok(join_bool(mode, *b, ty1)),
        Type::Long => Ok(join_long(mode, ty1)),
        Type::String => Ok(join_string(mode, ty1)),
        Type::Entity(kind) => join_entities(mode, alloc, kind, ty1),
        Type::Set { element_type: None } => Ok(join_any_set(mode, ty1)),
        Type::Set {
            element_type: Some(element),
        } => join_set(mode, alloc, element, ty1),
        Type::Record {
            attrs,
            open_attributes,
        } => join_record(mode, alloc, attrs, *open_attributes, ty1),
        Type::ExtensionType { name } => join_extension(mode, name, ty1),
    }
}

// The join of the type of the sets of these elements and another type.
#[cycle(join)]
fn join_set(
    mode: ValidationMode,
    alloc: Global,
    element: &Rc<Type>,
    ty: &Type,
) -> Result<Option<Type>, AllocError>
    ensures { IfOk result (λ j. option_map type_of j ≡ join (mode_of mode) (set_type (type_of element.now.value)) (type_of ty.now)) }
{
    match ty {
        Type::Never => Ok(Some(Type::Set {
            element_type: Some(element.clone()?),
        })),
        Type::Set { element_type: None } => Ok(Some(Type::any_set())),
        Type::Set {
            element_type: Some(other),
        } => {
            let joined = join(mode, alloc, element, other)?;
            set_of(alloc, joined)
        }
        Type::Bool(_)
        | Type::Long
        | Type::String
        | Type::Entity(_)
        | Type::Record { .. }
        | Type::ExtensionType { .. } => Ok(None),
    }
}

// The join of the record type of these attributes and another type.
#[cycle(join)]
fn join_record(
    mode: ValidationMode,
    alloc: Global,
    attrs: &Attributes,
    open_attributes: OpenTag,
    ty: &Type,
) -> Result<Option<Type>, AllocError>
    ensures { IfOk result (λ j. option_map type_of j ≡ join (mode_of mode) (record_type (attributes_of attrs.now) (openness_of open_attributes)) (type_of ty.now)) }
{
    match ty {
        Type::Never => Ok(Some(Type::Record {
            attrs: attrs.clone()?,
            open_attributes,
        })),
        Type::Record {
            attrs: others,
            open_attributes: open,
        } => {
            let joined = join_attributes(mode, alloc, attrs, others)?;
            let joined = Attributes::with_attributes(alloc, joined)?;
            Ok(record_joined(mode, attrs, open_attributes, others, *open, joined))
        }
        Type::Bool(_)
        | Type::Long
        | Type::String
        | Type::Entity(_)
        | Type::Set { .. }
        | Type::ExtensionType { .. } => Ok(None),
    }
}

// The attributes of both that join, in the order of their names.
#[cycle(join)]
fn join_attributes(
    mode: ValidationMode,
    alloc: Global,
    attrs: &Attributes,
    others: &Attributes,
) -> Result<Vec<(RcStr, AttributeType)>, AllocError>
    ensures joined { IfOk result (λ js. attributes_from (declared_pairs js.items) ≡ attributes_join (mode_of mode) (attributes_of attrs.now) (attributes_of others.now)) }
    ensures rising { IfOk result (λ js. names_rise (declared_pairs js.items) ≡ true) }
{
    let mut joined = Vec::new(alloc);
    for (name, declared) in attrs.attrs.iter() {
        let other = others.get_attr(name.as_str());
        if let Some(common) = join_declared(mode, alloc, declared, other)? {
            joined.push((name.clone()?, common))?;
        }
    }
    Ok(joined)
}

// What is declared of an attribute in common, where the other is declared.
#[cycle(join)]
fn join_declared(
    mode: ValidationMode,
    alloc: Global,
    declared: &AttributeType,
    other: Option<&AttributeType>,
) -> Result<Option<AttributeType>, AllocError>
    ensures { IfOk result (λ d. option_map attribute_of d ≡ joined_with (mode_of mode) declared.now.is_required (join (mode_of mode) (type_of declared.now.attr_type)) (option_map (λ d. attribute_of d.now) other.entry)) }
{
    match other {
        Some(other) => {
            let joined = join(mode, alloc, &declared.attr_type, &other.attr_type)?;
            Ok(in_common(mode, declared.is_required, other.is_required, joined))
        }
        None => Ok(None),
    }
}

// What is declared of an attribute in common, by the join of its types, if there is one.
fn in_common(
    mode: ValidationMode,
    required: bool,
    other: bool,
    joined: Option<Type>,
) -> Option<AttributeType>
    ensures { option_map attribute_of result ≡ declared_in_common (mode_of mode) required other (option_map type_of joined) }
{
    let joined = joined?;
    if agree(mode, required, other) {
        Some(AttributeType::new(joined, required && other))
    } else {
        None
    }
}

// The join of two record types, by the attributes that join.
fn record_joined(
    mode: ValidationMode,
    attrs: &Attributes,
    tag: OpenTag,
    others: &Attributes,
    other_tag: OpenTag,
    joined: Attributes,
) -> Option<Type>
    ensures { option_map type_of result ≡ record_join (mode_of mode) (attributes_of attrs.now) (openness_of tag) (attributes_of others.now) (openness_of other_tag) (attributes_of joined) }
{
    let all_stayed = attrs.are_named(&joined) && others.are_named(&joined);
    if !agree(mode, tag.is_closed(), other_tag.is_closed())
        || (!is_permissive(mode) && !all_stayed)
    {
        return None;
    }
    let open_attributes = if tag.is_closed() && other_tag.is_closed() && all_stayed {
        OpenTag::ClosedAttributes
    } else {
        OpenTag::OpenAttributes
    };
    Some(Type::Record {
        attrs: joined,
        open_attributes,
    })
}

// In strict mode, whether both are so or neither is.
fn agree(mode: ValidationMode, one: bool, other: bool) -> bool
    ensures { result ≡ agree (mode_of mode) one other }
{
    is_permissive(mode) || one == other
}

// The join of this type of truth values and another type.
fn join_bool(mode: ValidationMode, b: BoolType, ty: &Type) -> Option<Type>
    ensures { option_map type_of result ≡ join (mode_of mode) (bool_type (bool_type_of b)) (type_of ty.now) }
{
    match ty {
        Type::Never => Some(Type::Bool(b)),
        Type::Bool(other) => Some(Type::Bool(b.join(*other))),
        Type::Long
        | Type::String
        | Type::Entity(_)
        | Type::Set { .. }
        | Type::Record { .. }
        | Type::ExtensionType { .. } => None,
    }
}

// The join of the type of whole numbers and another type.
fn join_long(mode: ValidationMode, ty: &Type) -> Option<Type>
    ensures { option_map type_of result ≡ join (mode_of mode) long_type (type_of ty.now) }
{
    match ty {
        Type::Never | Type::Long => Some(Type::Long),
        Type::Bool(_)
        | Type::String
        | Type::Entity(_)
        | Type::Set { .. }
        | Type::Record { .. }
        | Type::ExtensionType { .. } => None,
    }
}

// The join of the type of texts and another type.
fn join_string(mode: ValidationMode, ty: &Type) -> Option<Type>
    ensures { option_map type_of result ≡ join (mode_of mode) string_type (type_of ty.now) }
{
    match ty {
        Type::Never | Type::String => Some(Type::String),
        Type::Bool(_)
        | Type::Long
        | Type::Entity(_)
        | Type::Set { .. }
        | Type::Record { .. }
        | Type::ExtensionType { .. } => None,
    }
}

// The join of this type of entities and another type.
fn join_entities(
    mode: ValidationMode,
    alloc: Global,
    kind: &EntityKind,
    ty: &Type,
) -> Result<Option<Type>, AllocError>
    ensures { IfOk result (λ j. option_map type_of j ≡ join (mode_of mode) (entities_of kind.now) (type_of ty.now)) }
{
    match ty {
        Type::Never => Ok(Some(Type::Entity(kind.clone()?))),
        Type::Entity(other) => {
            let joined = join_kinds(alloc, kind, other, mode)?;
            Ok(joined.map(Type::Entity))
        }
        Type::Bool(_)
        | Type::Long
        | Type::String
        | Type::Set { .. }
        | Type::Record { .. }
        | Type::ExtensionType { .. } => Ok(None),
    }
}

// The join of the type of all sets and another type.
fn join_any_set(mode: ValidationMode, ty: &Type) -> Option<Type>
    ensures { option_map type_of result ≡ join (mode_of mode) any_set (type_of ty.now) }
{
    match ty {
        Type::Never | Type::Set { .. } => Some(Type::any_set()),
        Type::Bool(_)
        | Type::Long
        | Type::String
        | Type::Entity(_)
        | Type::Record { .. }
        | Type::ExtensionType { .. } => None,
    }
}

// The join of the type of the extension values of this name and another type.
fn join_extension(mode: ValidationMode, name: &Name, ty: &Type) -> Result<Option<Type>, AllocError>
    ensures { IfOk result (λ j. option_map type_of j ≡ join (mode_of mode) (extension_type (plain_name_of name.now)) (type_of ty.now)) }
{
    match ty {
        Type::Never => Ok(Some(Type::extension(name.clone()?))),
        Type::ExtensionType { name: other } => {
            if name.same(other) {
                Ok(Some(Type::extension(name.clone()?)))
            } else {
                Ok(None)
            }
        }
        Type::Bool(_)
        | Type::Long
        | Type::String
        | Type::Entity(_)
        | Type::Set { .. }
        | Type::Record { .. } => Ok(None),
    }
}

// The type of the sets of these elements, where there is one.
fn set_of(alloc: Global, element: Option<Type>) -> Result<Option<Type>, AllocError>
    ensures { IfOk result (λ t. option_map type_of t ≡ option_map set_type (option_map type_of element)) }
{
    match element {
        Some(element) => Ok(Some(Type::set(alloc, element)?)),
        None => Ok(None),
    }
}

// Whether this type of entities and the other type are unions that have no member in common.
fn shares_none(kind: &EntityKind, ty: &Type) -> bool
    ensures { result ≡ are_disjoint (entities_of kind.now) (type_of ty.now) }
{
    match ty {
        Type::Entity(other) => kind.is_disjoint(other),
        Type::Never
        | Type::Bool(_)
        | Type::Long
        | Type::String
        | Type::Set { .. }
        | Type::Record { .. }
        | Type::ExtensionType { .. } => false,
    }
}

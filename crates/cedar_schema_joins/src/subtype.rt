//! Which types are below which others.

ghost use Rattle.std.specs.Prelude.{◌≡◌, option_map};
ghost use Rattle.cedar_expr_names.specs.Views.{plain_name_of};
ghost use Rattle.cedar_schema_model.specs.Types.{never, bool_type, long_type, string_type, any_set, set_type, record_type, extension_type};
ghost use Rattle.cedar_schema_model.specs.Subtype.{is_subtype, is_frame_below, have_below, is_declared_below, carries};
ghost use Rattle.cedar_schema_types.specs.Kinds.{bool_type_of, openness_of};
ghost use Rattle.cedar_schema_joins.specs.Modes.{mode_of};
ghost use Rattle.cedar_schema_types.specs.Unions.{entities_of};
ghost use Rattle.cedar_schema_types.specs.Types.{type_of, attributes_of, attribute_of};

use crate::entities::is_kind_below;
use crate::mode::is_permissive;
use cedar_expr_names::Name;
use cedar_schema_types::{AttributeType, Attributes, BoolType, EntityKind, OpenTag, Type};
use cedar_store_parts::ValidationMode;

/// Whether the first type is below the second in this mode.
pub fn is_subtype(ty0: &Type, ty1: &Type, mode: ValidationMode) -> bool
    ensures { result ≡ is_subtype (mode_of mode) (type_of ty0.now) (type_of ty1.now) }
{
    is_above(mode, ty1, ty0)
}

// Whether the first type is above the second.
#[cycle(above)]
fn is_above(mode: ValidationMode, ty1: &Type, ty0: &Type) -> bool
    ensures { result ≡ is_subtype (mode_of mode) (type_of ty0.now) (type_of ty1.now) }
{
    match ty1 {
        Type::Never => is_below_never(mode, ty0),
        Type::Bool(b) => is_below_bool(mode, ty0, *b),
        Type::Long => is_below_long(mode, ty0),
        Type::String => is_below_string(mode, ty0),
        Type::Entity(kind) => is_below_entities(mode, ty0, kind),
        Type::Set { element_type: None } => is_below_any_set(mode, ty0),
        Type::Set {
            element_type: Some(element),
        } => is_set_above(mode, element, ty0),
        Type::Record {
            attrs,
            open_attributes,
        } => is_record_above(mode, attrs, *open_attributes, ty0),
        Type::ExtensionType { name } => is_below_extension(mode, ty0, name),
    }
}

// Whether the type of the sets of these elements is above the type.
#[cycle(above)]
fn is_set_above(mode: ValidationMode, element: &Type, ty: &Type) -> bool
    ensures { result ≡ is_subtype (mode_of mode) (type_of ty.now) (set_type (type_of element.now)) }
{
    match ty {
        Type::Never => true,
        Type::Set {
            element_type: Some(own),
        } => is_above(mode, element, own),
        Type::Set { element_type: None }
        | Type::Bool(_)
        | Type::Long
        | Type::String
        | Type::Entity(_)
        | Type::Record { .. }
        | Type::ExtensionType { .. } => false,
    }
}

// Whether the record type of these attributes is above the type.
#[cycle(above)]
fn is_record_above(mode: ValidationMode, attrs: &Attributes, tag: OpenTag, ty: &Type) -> bool
    ensures { result ≡ is_subtype (mode_of mode) (type_of ty.now) (record_type (attributes_of attrs.now) (openness_of tag)) }
{
    match ty {
        Type::Never => true,
        Type::Record {
            attrs: own,
            open_attributes,
        } => {
            is_frame_below(mode, own, *open_attributes, attrs, tag) && are_above(mode, attrs, own)
        }
        Type::Bool(_)
        | Type::Long
        | Type::String
        | Type::Entity(_)
        | Type::Set { .. }
        | Type::ExtensionType { .. } => false,
    }
}

// Whether the second attributes have each of the first, with a type below its type.
#[cycle(above)]
#[tactic(auto, using(cedar_schema_types::proofs::Entries::attributes_are))]
fn are_above(mode: ValidationMode, attrs: &Attributes, own: &Attributes) -> bool
    ensures { result ≡ have_below (mode_of mode) (attributes_of own.now) (attributes_of attrs.now) }
{
    for (name, declared) in attrs.attrs.iter() {
        if !is_declared_above(mode, declared, own.get_attr(name.as_str())) {
            return false;
        }
    }
    true
}

// Whether the second attribute is declared, with a type below that of the first, and required where that is asked.
#[cycle(above)]
fn is_declared_above(
    mode: ValidationMode,
    declared: &AttributeType,
    own: Option<&AttributeType>,
) -> bool
    ensures { result ≡ is_declared_below (mode_of mode) (λ a. is_subtype (mode_of mode) a (type_of declared.now.attr_type)) declared.now.is_required (option_map (λ d. attribute_of d.now) own.entry) }
{
    match own {
        Some(own) => {
            is_above(mode, &declared.attr_type, &own.attr_type)
                && carries(mode, own.is_required, declared.is_required)
        }
        None => false,
    }
}

// Whether closed records have closed records of the same names above them.
fn is_frame_below(
    mode: ValidationMode,
    own: &Attributes,
    own_tag: OpenTag,
    attrs: &Attributes,
    tag: OpenTag,
) -> bool
    ensures { result ≡ is_frame_below (mode_of mode) (attributes_of own.now) (openness_of own_tag) (attributes_of attrs.now) (openness_of tag) }
{
    carries(mode, own_tag.is_closed(), tag.is_closed())
        && ((is_permissive(mode) && !tag.is_closed()) || own.are_named(attrs))
}

// Whether what is said of the greater is said of the less, and in strict mode also the other way round.
fn carries(mode: ValidationMode, less: bool, greater: bool) -> bool
    ensures { result ≡ carries (mode_of mode) less greater }
{
    match mode {
        ValidationMode::Strict => less == greater,
        ValidationMode::Permissive => !greater || less,
    }
}

// Whether the type is below that of no value.
fn is_below_never(mode: ValidationMode, ty: &Type) -> bool
    ensures { result ≡ is_subtype (mode_of mode) (type_of ty.now) never }
{
    match ty {
        Type::Never => true,
        Type::Bool(_)
        | Type::Long
        | Type::String
        | Type::Entity(_)
        | Type::Set { .. }
        | Type::Record { .. }
        | Type::ExtensionType { .. } => false,
    }
}

// Whether the type is below this type of truth values.
fn is_below_bool(mode: ValidationMode, ty: &Type, b: BoolType) -> bool
    ensures { result ≡ is_subtype (mode_of mode) (type_of ty.now) (bool_type (bool_type_of b)) }
{
    match ty {
        Type::Never => true,
        Type::Bool(own) => own.is_below(b),
        Type::Long
        | Type::String
        | Type::Entity(_)
        | Type::Set { .. }
        | Type::Record { .. }
        | Type::ExtensionType { .. } => false,
    }
}

// Whether the type is below that of whole numbers.
fn is_below_long(mode: ValidationMode, ty: &Type) -> bool
    ensures { result ≡ is_subtype (mode_of mode) (type_of ty.now) long_type }
{
    match ty {
        Type::Never | Type::Long => true,
        Type::Bool(_)
        | Type::String
        | Type::Entity(_)
        | Type::Set { .. }
        | Type::Record { .. }
        | Type::ExtensionType { .. } => false,
    }
}

// Whether the type is below that of texts.
fn is_below_string(mode: ValidationMode, ty: &Type) -> bool
    ensures { result ≡ is_subtype (mode_of mode) (type_of ty.now) string_type }
{
    match ty {
        Type::Never | Type::String => true,
        Type::Bool(_)
        | Type::Long
        | Type::Entity(_)
        | Type::Set { .. }
        | Type::Record { .. }
        | Type::ExtensionType { .. } => false,
    }
}

// Whether the type is below this type of entities.
fn is_below_entities(mode: ValidationMode, ty: &Type, kind: &EntityKind) -> bool
    ensures { result ≡ is_subtype (mode_of mode) (type_of ty.now) (entities_of kind.now) }
{
    match ty {
        Type::Never => true,
        Type::Entity(own) => is_kind_below(own, kind, mode),
        Type::Bool(_)
        | Type::Long
        | Type::String
        | Type::Set { .. }
        | Type::Record { .. }
        | Type::ExtensionType { .. } => false,
    }
}

// Whether the type is below that of all sets.
fn is_below_any_set(mode: ValidationMode, ty: &Type) -> bool
    ensures { result ≡ is_subtype (mode_of mode) (type_of ty.now) any_set }
{
    match ty {
        Type::Never | Type::Set { .. } => true,
        Type::Bool(_)
        | Type::Long
        | Type::String
        | Type::Entity(_)
        | Type::Record { .. }
        | Type::ExtensionType { .. } => false,
    }
}

// Whether the type is below that of the extension values of this name.
fn is_below_extension(mode: ValidationMode, ty: &Type, name: &Name) -> bool
    ensures { result ≡ is_subtype (mode_of mode) (type_of ty.now) (extension_type (plain_name_of name.now)) }
{
    match ty {
        Type::Never => true,
        Type::ExtensionType { name: own } => own.same(name),
        Type::Bool(_)
        | Type::Long
        | Type::String
        | Type::Entity(_)
        | Type::Set { .. }
        | Type::Record { .. } => false,
    }
}

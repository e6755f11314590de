//! The texts of types.

ghost use Rattle.std.specs.Prelude.{◌≡◌, true, Some};
ghost use Rattle.std.specs.Rc.{rc_str_bytes};
ghost use Rattle.std.specs.Fmt.{WritesOnOk};
ghost use Rattle.cedar_schema_model.specs.Types.{set_type, record_type};
ghost use Rattle.cedar_schema_model.specs.Texts.{bool_text, between, names_text, union_text, openness_text, required_text, attribute_text, type_text, attributes_text};
ghost use Rattle.cedar_schema_types.specs.Kinds.{bool_type_of, openness_of};
ghost use Rattle.cedar_schema_types.specs.Unions.{members_of, entities_of};
ghost use Rattle.cedar_schema_types.specs.Types.{type_of, attributes_of};

use crate::entity_kind::EntityKind;
use crate::entity_lub::EntityLUB;
use crate::kinds::{BoolType, OpenTag};
use crate::types::{AttributeType, Attributes, Type};
use cedar_expr_names::Quoted;
use std::fmt;
use std::fmt::{Display, Formatter, Write};
use std::rc::RcStr;

impl Display for Type {
    ghost output = { λ t. Some (type_text (type_of t)) };

    fn fmt<W: Write>(&self, f: &mut Formatter<W>) -> fmt::Result {
        show(self, f)
    }
}

// Writes the type.
#[cycle(texts)]
fn show<W: Write>(ty: &Type, f: &mut Formatter<W>) -> fmt::Result
    ensures { WritesOnOk W.write_str_gives f.old result (type_text (type_of ty.now)) f.new }
{
    match ty {
        Type::Never => f.write_str("__cedar::internal::Never"),
        Type::Bool(b) => f.write_str(bool_text(*b)),
        Type::Long => f.write_str("Long"),
        Type::String => f.write_str("String"),
        Type::Entity(kind) => show_entities(kind, f),
        Type::Set { element_type: None } => f.write_str("Set<__cedar::internal::Any>"),
        Type::Set {
            element_type: Some(element),
        } => show_set(element, f),
        Type::Record {
            attrs,
            open_attributes,
        } => show_record(attrs, *open_attributes, f),
        Type::ExtensionType { name } => Display::fmt(name, f),
    }
}

// Writes the type of the sets of these elements.
#[cycle(texts)]
fn show_set<W: Write>(element: &Type, f: &mut Formatter<W>) -> fmt::Result
    ensures { WritesOnOk W.write_str_gives f.old result (type_text (set_type (type_of element.now))) f.new }
{
    f.write_str("Set<")?;
    show(element, f)?;
    f.write_str(">")
}

// Writes the record type of these attributes.
#[cycle(texts)]
fn show_record<W: Write>(attrs: &Attributes, tag: OpenTag, f: &mut Formatter<W>) -> fmt::Result
    ensures { WritesOnOk W.write_str_gives f.old result (type_text (record_type (attributes_of attrs.now) (openness_of tag))) f.new }
{
    f.write_str(openness_text(tag))?;
    f.write_str("{")?;
    show_attributes(attrs, f)?;
    f.write_str("}")
}

// Writes the attributes, one after the other.
#[cycle(texts)]
#[tactic(auto, using(crate::proofs::Entries::attributes_are))]
fn show_attributes<W: Write>(attrs: &Attributes, f: &mut Formatter<W>) -> fmt::Result
    ensures { WritesOnOk W.write_str_gives f.old result (attributes_text true (attributes_of attrs.now)) f.new }
{
    let mut is_first = true;
    for (name, declared) in attrs.attrs.iter() {
        f.write_str(between(is_first))?;
        show_attribute(name, declared, f)?;
        is_first = false;
    }
    Ok(())
}

// Writes the attribute.
#[cycle(texts)]
fn show_attribute<W: Write>(
    name: &RcStr,
    declared: &AttributeType,
    f: &mut Formatter<W>,
) -> fmt::Result
    ensures { WritesOnOk W.write_str_gives f.old result (attribute_text (rc_str_bytes name.now) declared.now.is_required (type_text (type_of declared.now.attr_type))) f.new }
{
    write!(f, "{}", Quoted::new(name.as_str()))?;
    f.write_str(required_text(declared.is_required))?;
    show(&declared.attr_type, f)
}

// Writes the type of entities.
fn show_entities<W: Write>(kind: &EntityKind, f: &mut Formatter<W>) -> fmt::Result
    ensures { WritesOnOk W.write_str_gives f.old result (type_text (entities_of kind.now)) f.new }
{
    match kind {
        EntityKind::AnyEntity => f.write_str("__cedar::internal::AnyEntity"),
        EntityKind::Entity(union) => show_union(union, f),
    }
}

// Writes the union.
fn show_union<W: Write>(union: &EntityLUB, f: &mut Formatter<W>) -> fmt::Result
    ensures { WritesOnOk W.write_str_gives f.old result (union_text (members_of union.now)) f.new }
{
    match union.get_single_entity() {
        Some(ty) => Display::fmt(ty, f),
        None => {
            f.write_str("__cedar::internal::Union<")?;
            show_names(union, f)?;
            f.write_str(">")
        }
    }
}

// Writes the names of the union, one after the other.
fn show_names<W: Write>(union: &EntityLUB, f: &mut Formatter<W>) -> fmt::Result
    ensures { WritesOnOk W.write_str_gives f.old result (names_text true (members_of union.now)) f.new }
{
    let mut is_first = true;
    for ty in union.iter() {
        f.write_str(between(is_first))?;
        write!(f, "{ty}")?;
        is_first = false;
    }
    Ok(())
}

// What stands before an item of a list.
fn between(is_first: bool) -> &'static str
    ensures { result.now ≡ between is_first }
{
    if is_first { "" } else { ", " }
}

// What stands after the name of an attribute.
fn required_text(is_required: bool) -> &'static str
    ensures { result.now ≡ required_text is_required }
{
    if is_required { ": " } else { "?: " }
}

// What stands before the attributes of a record.
fn openness_text(tag: OpenTag) -> &'static str
    ensures { result.now ≡ openness_text (openness_of tag) }
{
    match tag {
        OpenTag::OpenAttributes => "__cedar::internal::OpenRecord",
        OpenTag::ClosedAttributes => "",
    }
}

// The text of a type of truth values.
fn bool_text(b: BoolType) -> &'static str
    ensures { result.now ≡ bool_text (bool_type_of b) }
{
    match b {
        BoolType::AnyBool => "Bool",
        BoolType::True => "__cedar::internal::True",
        BoolType::False => "__cedar::internal::False",
    }
}

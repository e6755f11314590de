//! Types, as they are written in a schema.
ghost use Rattle.std.specs.Prelude.{◌≡◌, Option, Some, None, IfOk, IfErr, OnOk, option_map, string_bytes};
ghost use Rattle.std.specs.Map.{lookup};
ghost use Rattle.std.specs.Str.{bytes_eq};
ghost use Rattle.std.specs.declared.alloc.Global.{Global};
ghost use Rattle.serde_json.specs.View.{view, members_view};
ghost use Rattle.cedar_expr_leaves.specs.Views.{raw_name_of};
ghost use Rattle.cedar_schema_model.specs.Declarations.{TypeExpr};
ghost use Rattle.cedar_schema_decl.specs.Laws.{as_exprs};
ghost use Rattle.cedar_schema_decl.specs.Trees.{in_a_row, attribute_rows};
ghost use Rattle.cedar_gate_model.specs.ReadingSchema.{type_read, type_in, attributes_read, attributes_in, type_forms};
ghost use Rattle.cedar_gate_fragments.specs.Types.{type_seen, fields_seen, attribute_seen, attribute_read, attribute_in, type_part, form_of, leaf_read, word_read, variant_seen, AddsNamed};
ghost use Rattle.cedar_gate_expressions.specs.declared.fault.ReadFault.TheVariants.{Unreadable};

use crate::members::{members_of, next_member, only_member};
use cedar_expr_leaves::RawName;
use cedar_expr_names::InternalName;
use cedar_gate_expressions::{ReadFault, Reader, read_any_name, text};
use cedar_schema_decl::json_schema::{CommonType, RecordType, Type, TypeOfAttribute, TypeVariant};
use serde_json::{Map, Value};
use std::alloc::{AllocError, Global};
use std::collections::BTreeMap;
use std::rc::RcStr;

// What a type without a type in it names.
#[derive(Clone, Copy, Drop)]
enum Leaf {
    Entity,
    Common,
    Extension,
}

// A type that is written as an object with one key.
#[derive(Clone, Copy, Drop)]
enum Form {
    Set,
    Record,
    OfLeaf(Leaf),
}

// The form that a key names.
fn form_named(key: &str) -> Result<Form, ReadFault>
    ensures ok { IfOk result (λ f. lookup (bytes_eq key.now) type_forms ≡ Some (form_of f)) }
    ensures unreadable { IfErr result (λ f. (f ≡ Unreadable) × (lookup (bytes_eq key.now) type_forms ≡ None)) }
{
    match key {
        "set" => Ok(Form::Set),
        "record" => Ok(Form::Record),
        "entity" => Ok(Form::OfLeaf(Leaf::Entity)),
        "common" => Ok(Form::OfLeaf(Leaf::Common)),
        "ext" => Ok(Form::OfLeaf(Leaf::Extension)),
        _ => Err(ReadFault::Unreadable),
    }
}

/// Reads a type: a word, or an object with one key.
#[cycle(types)]
pub(crate) fn read_type(alloc: Global, value: &Value) -> Result<Type<RawName>, ReadFault>
    ensures ok { IfOk result (λ t. type_read (view value.now) ≡ Some (type_seen t)) }
    ensures unreadable { IfErr result (λ f. f ≡ Unreadable → type_read (view value.now) ≡ None) }
{
    match value {
        Value::String(word) => read_word(word.as_str()),
        Value::Object(members) => read_keyed(alloc, members),
        Value::Null | Value::Bool(_) | Value::Number(_) | Value::Array(_) => {
            Err(ReadFault::Unreadable)
        }
    }
}

// Reads a type that is written as an object with one key.
#[cycle(types)]
fn read_keyed(alloc: Global, members: &Map<String, Value>) -> Result<Type<RawName>, ReadFault>
    ensures ok { IfOk result (λ t. type_in (members_view members.now.entries) ≡ Some (type_seen t)) }
    ensures unreadable { IfErr result (λ f. f ≡ Unreadable → type_in (members_view members.now.entries) ≡ None) }
{
    match only_member(members) {
        Some((key, inner)) => read_form(alloc, form_named(key.as_str())?, inner),
        None => Err(ReadFault::Unreadable),
    }
}

// Reads a type of this form, of what stands at its key.
#[cycle(types)]
fn read_form(alloc: Global, form: Form, value: &Value) -> Result<Type<RawName>, ReadFault>
    ensures ok { IfOk result (λ t. form_of form (type_part (view value.now)) ≡ Some (type_seen t)) }
    ensures unreadable { IfErr result (λ f. f ≡ Unreadable → form_of form (type_part (view value.now)) ≡ None) }
{
    match form {
        Form::Set => {
            let element = read_type(alloc, value)?;
            let element = Box::new(alloc, element)?;
            Ok(written(TypeVariant::Set { element }))
        }
        Form::Record => {
            let fields = read_attributes(alloc, value)?;
            Ok(written(TypeVariant::Record(fields)))
        }
        Form::OfLeaf(leaf) => read_leaf(alloc, leaf, value),
    }
}

/// Reads an object of attributes, each required unless it is marked as optional.
#[cycle(types)]
pub(crate) fn read_attributes(
    alloc: Global,
    value: &Value,
) -> Result<RecordType<RawName>, ReadFault>
    ensures ok { IfOk result (λ r. attributes_read (view value.now) ≡ Some (fields_seen r)) }
    ensures unreadable { IfErr result (λ f. f ≡ Unreadable → attributes_read (view value.now) ≡ None) }
{
    match value {
        Value::Object(members) => read_each_attribute(alloc, members),
        _ => Err(ReadFault::Unreadable),
    }
}

// Reads attributes, in the order of their names.
#[cycle(types)]
#[tactic(auto, using(crate::proofs::Attributes::all_rows))]
fn read_each_attribute(
    alloc: Global,
    members: &Map<String, Value>,
) -> Result<RecordType<RawName>, ReadFault>
    ensures ok { IfOk result (λ r. attributes_in (members_view members.now.entries) ≡ Some (fields_seen r)) }
    ensures unreadable { IfErr result (λ f. f ≡ Unreadable → attributes_in (members_view members.now.entries) ≡ None) }
{
    let mut attributes = BTreeMap::new(alloc);
    let mut left = members_of(members);
    while let Some((key, member)) = next_member(&mut left) {
        let attribute = read_attribute(alloc, member)?;
        add_attribute(alloc, &mut attributes, key, attribute)?;
    }
    Ok(record_of(attributes))
}

// Puts an attribute under this name.
fn add_attribute(
    alloc: Global,
    attributes: &mut BTreeMap<RcStr, TypeOfAttribute<RawName>>,
    key: &String,
    attribute: TypeOfAttribute<RawName>,
) -> Result<(), AllocError>
    ensures { OnOk result (AddsNamed (string_bytes key.now) attribute attributes.old.entries attributes.new.entries) }
{
    let name = RcStr::from_str(alloc, key.as_str())?;
    drop(attributes.insert(name, attribute)?);
    Ok(())
}

// Reads an attribute: a type, or an object whose one key says that it is optional.
#[cycle(types)]
fn read_attribute(alloc: Global, value: &Value) -> Result<TypeOfAttribute<RawName>, ReadFault>
    ensures ok { IfOk result (λ a. attribute_read (view value.now) ≡ Some (attribute_seen a)) }
    ensures unreadable { IfErr result (λ f. f ≡ Unreadable → attribute_read (view value.now) ≡ None) }
{
    match value {
        Value::String(word) => Ok(attribute_of(read_word(word.as_str())?, true)),
        Value::Object(members) => read_keyed_attribute(alloc, members),
        Value::Null | Value::Bool(_) | Value::Number(_) | Value::Array(_) => {
            Err(ReadFault::Unreadable)
        }
    }
}

// Reads an attribute that is written as an object with one key.
#[cycle(types)]
fn read_keyed_attribute(
    alloc: Global,
    members: &Map<String, Value>,
) -> Result<TypeOfAttribute<RawName>, ReadFault>
    ensures ok { IfOk result (λ a. attribute_in (members_view members.now.entries) ≡ Some (attribute_seen a)) }
    ensures unreadable { IfErr result (λ f. f ≡ Unreadable → attribute_in (members_view members.now.entries) ≡ None) }
{
    match only_member(members) {
        Some((key, inner)) => match key.as_str() {
            "optional" => Ok(attribute_of(read_type(alloc, inner)?, false)),
            word => Ok(attribute_of(read_form(alloc, form_named(word)?, inner)?, true)),
        },
        None => Err(ReadFault::Unreadable),
    }
}

// Reads a type that is written as one word.
fn read_word(word: &str) -> Result<Type<RawName>, ReadFault>
    ensures ok { IfOk result (λ t. word_read word.now ≡ Some (type_seen t)) }
    ensures unreadable { IfErr result (λ f. (f ≡ Unreadable) × (word_read word.now ≡ None)) }
{
    match word {
        "Bool" => Ok(written(TypeVariant::Boolean)),
        "Long" => Ok(written(TypeVariant::Long)),
        "String" => Ok(written(TypeVariant::String)),
        _ => Err(ReadFault::Unreadable),
    }
}

// Reads a type by its name.
fn read_leaf(alloc: Global, leaf: Leaf, value: &Value) -> Result<Type<RawName>, ReadFault>
    ensures ok { IfOk result (λ t. leaf_read leaf (view value.now) ≡ Some (type_seen t)) }
    ensures unreadable { IfErr result (λ f. f ≡ Unreadable → leaf_read leaf (view value.now) ≡ None) }
{
    match leaf {
        Leaf::Entity => {
            let name = read_any_name(alloc, value)?;
            Ok(written(TypeVariant::Entity { name }))
        }
        Leaf::Common => {
            let type_name = read_any_name(alloc, value)?;
            Ok(written(TypeVariant::CommonTypeRef { type_name }))
        }
        Leaf::Extension => {
            let name = InternalName::from_normalized_str(alloc, text(value)?)?;
            Ok(written(TypeVariant::Extension { name }))
        }
    }
}

/// The record of these attributes.
pub(crate) fn record_of(
    attributes: BTreeMap<RcStr, TypeOfAttribute<RawName>>,
) -> RecordType<RawName>
    ensures { fields_seen result ≡ as_exprs (in_a_row (attribute_rows raw_name_of attributes.entries)) }
{
    RecordType { attributes }
}

// The type that is written so, without a place.
fn written(ty: TypeVariant<RawName>) -> Type<RawName>
    ensures { type_seen result ≡ variant_seen ty }
{
    Type { ty, loc: None }
}

// An attribute of this type, without a place.
fn attribute_of(ty: Type<RawName>, required: bool) -> TypeOfAttribute<RawName>
    ensures { attribute_seen result ≡ (type_seen ty, required) }
{
    TypeOfAttribute {
        ty,
        required,
        loc: None,
    }
}

/// Reads types.
pub(crate) struct WrittenTypes;

impl Reader for WrittenTypes {
    type Item = Type<RawName>;

    ghost Meaning = { TypeExpr };

    ghost reading = { λ _. type_read };

    ghost seen = { type_seen };

    fn read(&self, alloc: Global, value: &Value) -> Result<Type<RawName>, ReadFault> {
        read_type(alloc, value)
    }
}

/// Reads common types, each without its name.
pub(crate) struct CommonTypes;

impl Reader for CommonTypes {
    type Item = CommonType<RawName>;

    ghost Meaning = { TypeExpr };

    ghost reading = { λ _. type_read };

    ghost seen = { λ c. type_seen c.ty };

    fn read(&self, alloc: Global, value: &Value) -> Result<CommonType<RawName>, ReadFault> {
        let ty = read_type(alloc, value)?;
        Ok(CommonType { ty, loc: None })
    }
}

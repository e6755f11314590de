//! Written types with resolved names as types of a schema.

ghost use Rattle.std.specs.Prelude.{◌≡◌, [], ◌∷◌, ◌++◌, map, IfOk, IfErr};
ghost use Rattle.std.specs.Rc.{rc_str_bytes};
ghost use Rattle.std.specs.declared.result.Result.TheVariants.{Ok};
ghost use Rattle.cedar_expr_names.specs.Views.{name_of, plain_name_of};
ghost use Rattle.cedar_expr_values.specs.Fields.{by_text};
ghost use Rattle.cedar_schema_model.specs.Reference.{to_common, to_entity, to_either};
ghost use Rattle.cedar_schema_decl.specs.Forms.{record_form, reference_form, extension_form};
ghost use Rattle.cedar_schema_decl.specs.Requalified.{under_name, each};
ghost use Rattle.cedar_schema_decl.specs.Trees.{type_form, variant_form, record_rows, record_fields, attribute_form};
ghost use Rattle.cedar_schema_types.specs.Types.{type_of, attributes_of, attribute_of};
ghost use Rattle.cedar_schema_types.specs.AttributeLists.{declared_pairs};
ghost use Rattle.cedar_schema_resolver.specs.Commons.{common_seen};
ghost use Rattle.cedar_schema_resolver.specs.Meanings.{extensions_seen, setting_of, told, told_fields};
ghost use Rattle.cedar_schema_resolver.specs.Outcomes.{Refuses, unreserved, entity_outcome, type_outcome, fields_outcome, attribute_outcome};
ghost use Rattle.cedar_schema_resolver.specs.Refusals.{AreKnown, TellsUntold};

use crate::common_types::CommonTypes;
use crate::err::ResolveError;
use cedar_expr_names::{EntityType, InternalName, Name};
use cedar_schema_decl::json_schema::{RecordType, TypeOfAttribute, TypeVariant};
use cedar_schema_decl::{AllDefs, json_schema};
use cedar_schema_types::{AttributeType, Attributes, OpenTag, Type};
use std::alloc::{AllocError, Global};
use std::collections::BTreeSet;
use std::rc::RcStr;

/// What is known where types are told: what the common types stand for, what is declared, and the extension types.
#[derive(Drop)]
pub struct TypeResolver<'a> {
    /// The common types.
    pub commons: &'a CommonTypes,
    /// What is declared.
    pub all_defs: &'a AllDefs,
    /// The extension types.
    pub extension_types: &'a BTreeSet<Name>,
}

impl<'a> TypeResolver<'a> {
    /// The type that a written one with resolved names stands for, with the common types replaced; a name that isn't declared stands
    /// for the type of no value. Refuses an extension type that isn't known, and a reserved name of an entity type or an extension
    /// type, and fails when out of memory.
    pub fn try_into_validator_type(
        &self,
        alloc: Global,
        ty: &json_schema::Type<InternalName>,
    ) -> Result<Type, ResolveError>
        ensures told { IfOk result (λ t. type_of t ≡ told (setting_of self.now) (type_form name_of ty.now)) }
        ensures known { IfOk result (λ t. AreKnown (extensions_seen self.now.extension_types.now) (type_form name_of ty.now)) }
        ensures refused { IfErr result (TellsUntold (setting_of self.now) (type_form name_of ty.now)) }
    {
        match convert_type(alloc, ty, self) {
            Ok(ty) => Ok(ty),
            Err(error) => Err(error),
        }
    }

    /// The attributes that those of a written record with resolved names stand for, in the same way, with the same refusals.
    pub fn try_into_validator_attributes(
        &self,
        alloc: Global,
        fields: &RecordType<InternalName>,
    ) -> Result<Attributes, ResolveError>
        ensures told { IfOk result (λ as_. attributes_of as_ ≡ told_fields (setting_of self.now) (record_fields name_of fields.now)) }
        ensures known { IfOk result (λ as_. AreKnown (extensions_seen self.now.extension_types.now) (record_form (record_fields name_of fields.now))) }
        ensures refused { IfErr result (TellsUntold (setting_of self.now) (record_form (record_fields name_of fields.now))) }
    {
        match convert_record(alloc, fields, self) {
            Ok(attrs) => Ok(attrs),
            Err(error) => Err(error),
        }
    }
}

// The type, or the first refusal.
#[cycle(resolver)]
fn convert_type(
    alloc: Global,
    ty: &json_schema::Type<InternalName>,
    resolver: &TypeResolver<'_>,
) -> Result<Type, ResolveError>
    ensures made { IfOk result (λ r. type_outcome (setting_of resolver.now) (type_form name_of ty.now) ≡ Ok (type_of r)) }
    ensures refused { IfErr result (Refuses (type_outcome (setting_of resolver.now) (type_form name_of ty.now))) }
{
    convert_variant(alloc, &ty.ty, resolver)
}

// The type of what a type writes, or the first refusal.
#[cycle(resolver)]
fn convert_variant(
    alloc: Global,
    ty: &TypeVariant<InternalName>,
    resolver: &TypeResolver<'_>,
) -> Result<Type, ResolveError>
    ensures made { IfOk result (λ r. type_outcome (setting_of resolver.now) (variant_form name_of ty.now) ≡ Ok (type_of r)) }
    ensures refused { IfErr result (Refuses (type_outcome (setting_of resolver.now) (variant_form name_of ty.now))) }
{
    match ty {
        TypeVariant::String => Ok(Type::primitive_string()),
        TypeVariant::Long => Ok(Type::primitive_long()),
        TypeVariant::Boolean => Ok(Type::primitive_boolean()),
        TypeVariant::Set { element } => {
            let element = convert_type(alloc, element, resolver)?;
            let set = Type::set(alloc, element)?;
            Ok(set)
        }
        TypeVariant::Record(fields) => {
            let attrs = convert_record(alloc, fields, resolver)?;
            Ok(Type::Record {
                attrs,
                open_attributes: OpenTag::ClosedAttributes,
            })
        }
        TypeVariant::Entity { name } => convert_entity(alloc, name, resolver),
        TypeVariant::EntityOrCommon { type_name } => { convert_either(alloc, type_name, resolver) }
        TypeVariant::CommonTypeRef { type_name } => convert_common(type_name, resolver),
        TypeVariant::Extension { name } => convert_extension(name, resolver),
    }
}

// The attributes of the record, or the first refusal.
#[cycle(resolver)]
fn convert_record(
    alloc: Global,
    fields: &RecordType<InternalName>,
    resolver: &TypeResolver<'_>,
) -> Result<Attributes, ResolveError>
    ensures made { IfOk result (λ r. fields_outcome (setting_of resolver.now) (record_fields name_of fields.now) ≡ Ok (attributes_of r)) }
    ensures refused { IfErr result (Refuses (fields_outcome (setting_of resolver.now) (record_fields name_of fields.now))) }
{
    let attrs = convert_attributes(alloc, fields, resolver)?;
    let attrs = Attributes::with_attributes(alloc, attrs)?;
    Ok(attrs)
}

// The attributes of the record in the order of their names, or the first refusal.
#[cycle(resolver)]
fn convert_attributes(
    alloc: Global,
    fields: &RecordType<InternalName>,
    resolver: &TypeResolver<'_>,
) -> Result<Vec<(RcStr, AttributeType)>, ResolveError>
    ensures made { IfOk result (λ r. each (under_name (attribute_outcome (setting_of resolver.now))) (record_rows name_of fields.now) ≡ Ok (declared_pairs r.items)) }
    ensures refused { IfErr result (Refuses (each (under_name (attribute_outcome (setting_of resolver.now))) (record_rows name_of fields.now))) }
{
    let mut made = Vec::with_capacity(alloc, fields.attributes.len())?;
    for (name, attribute) in fields.attributes.iter() {
        made = with_pair(made, name, convert_attribute(alloc, attribute, resolver)?)?;
    }
    Ok(made)
}

// The attribute, or the refusal of its type.
#[cycle(resolver)]
fn convert_attribute(
    alloc: Global,
    attribute: &TypeOfAttribute<InternalName>,
    resolver: &TypeResolver<'_>,
) -> Result<AttributeType, ResolveError>
    ensures made { IfOk result (λ r. attribute_outcome (setting_of resolver.now) (attribute_form name_of attribute.now) ≡ Ok (attribute_of r)) }
    ensures refused { IfErr result (Refuses (attribute_outcome (setting_of resolver.now) (attribute_form name_of attribute.now))) }
{
    let ty = convert_type(alloc, &attribute.ty, resolver)?;
    Ok(AttributeType::new_with_loc(ty, attribute.required, attribute.loc))
}

// The pairs with one more, under a copy of the name.
fn with_pair<T: Drop>(
    pairs: Vec<(RcStr, T)>,
    name: &RcStr,
    it: T,
) -> Result<Vec<(RcStr, T)>, AllocError>
    ensures { IfOk result (λ r. map by_text r.items ≡ map by_text pairs.items ++ (rc_str_bytes name.now, it) ∷ []) }
{
    let mut pairs = pairs;
    let copy = name.clone()?;
    pairs.push((copy, it))?;
    Ok(pairs)
}

// A copy of the name, unless it is reserved.
fn unreserved(name: &InternalName) -> Result<Name, ResolveError>
    ensures made { IfOk result (λ n. unreserved (name_of name.now) ≡ Ok (plain_name_of n)) }
    ensures refused { IfErr result (Refuses (unreserved (name_of name.now))) }
{
    let name = Name::try_from_internal(name.clone()?)?;
    Ok(name)
}

// The type of the entities of the entity type of this name.
fn entity_type(alloc: Global, name: &InternalName) -> Result<Type, ResolveError>
    ensures made { IfOk result (λ r. entity_outcome (name_of name.now) ≡ Ok (type_of r)) }
    ensures refused { IfErr result (Refuses (entity_outcome (name_of name.now))) }
{
    let name = unreserved(name)?;
    let ty = Type::named_entity_reference(alloc, EntityType::from_name(name))?;
    Ok(ty)
}

// A copy of the type of the common type of this name.
fn common_type(name: &InternalName, commons: &CommonTypes) -> Result<Type, AllocError>
    ensures { IfOk result (λ r. type_of r ≡ common_seen commons.now (name_of name.now)) }
{
    match commons.get(name) {
        Some(ty) => ty.clone(),
        None => Ok(Type::Never),
    }
}

// The type of a reference to an entity type.
fn convert_entity(
    alloc: Global,
    name: &InternalName,
    resolver: &TypeResolver<'_>,
) -> Result<Type, ResolveError>
    ensures made { IfOk result (λ r. type_outcome (setting_of resolver.now) (reference_form to_entity (name_of name.now)) ≡ Ok (type_of r)) }
    ensures refused { IfErr result (Refuses (type_outcome (setting_of resolver.now) (reference_form to_entity (name_of name.now)))) }
{
    if resolver.all_defs.is_defined_as_entity(name) {
        entity_type(alloc, name)
    } else {
        Ok(Type::Never)
    }
}

// The type of a reference to a common type.
fn convert_common(name: &InternalName, resolver: &TypeResolver<'_>) -> Result<Type, ResolveError>
    ensures made { IfOk result (λ r. type_outcome (setting_of resolver.now) (reference_form to_common (name_of name.now)) ≡ Ok (type_of r)) }
    ensures refused { IfErr result (Refuses (type_outcome (setting_of resolver.now) (reference_form to_common (name_of name.now)))) }
{
    if resolver.all_defs.is_defined_as_common(name) {
        let ty = common_type(name, resolver.commons)?;
        Ok(ty)
    } else {
        Ok(Type::Never)
    }
}

// The type of a reference to either.
fn convert_either(
    alloc: Global,
    name: &InternalName,
    resolver: &TypeResolver<'_>,
) -> Result<Type, ResolveError>
    ensures made { IfOk result (λ r. type_outcome (setting_of resolver.now) (reference_form to_either (name_of name.now)) ≡ Ok (type_of r)) }
    ensures refused { IfErr result (Refuses (type_outcome (setting_of resolver.now) (reference_form to_either (name_of name.now)))) }
{
    if resolver.all_defs.is_defined_as_common(name) {
        let ty = common_type(name, resolver.commons)?;
        Ok(ty)
    } else if resolver.all_defs.is_defined_as_entity(name) {
        entity_type(alloc, name)
    } else {
        Ok(Type::Never)
    }
}

// The type of the values of an extension type.
fn convert_extension(name: &InternalName, resolver: &TypeResolver<'_>) -> Result<Type, ResolveError>
    ensures made { IfOk result (λ r. type_outcome (setting_of resolver.now) (extension_form (name_of name.now)) ≡ Ok (type_of r)) }
    ensures refused { IfErr result (Refuses (type_outcome (setting_of resolver.now) (extension_form (name_of name.now)))) }
{
    let name = unreserved(name)?;
    if resolver.extension_types.contains(&name) {
        Ok(Type::extension(name))
    } else {
        Err(ResolveError::UnknownExtensionType { name })
    }
}

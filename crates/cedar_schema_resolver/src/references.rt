//! The common types that definitions use.

ghost use Rattle.std.specs.Prelude.{◌≡◌, ◌++◌, map, IfOk};
ghost use Rattle.cedar_expr_names.specs.Views.{name_of};
ghost use Rattle.cedar_schema_decl.specs.Defined.{defined_of};
ghost use Rattle.cedar_schema_decl.specs.Trees.{type_form, variant_form, record_fields, attribute_form};
ghost use Rattle.cedar_schema_resolver.specs.Numbers.{seen_nodes};
ghost use Rattle.cedar_schema_resolver.specs.Meanings.{meant_in_fields};
ghost use Rattle.cedar_schema_resolver.specs.Uses.{common_forms, commons_among, commons_in, common_named, with_uses};

use cedar_expr_names::InternalName;
use cedar_schema_decl::AllDefs;
use cedar_schema_decl::json_schema::{CommonType, RecordType, Type, TypeOfAttribute, TypeVariant};
use std::alloc::{AllocError, Global};

// These names with the common types that the type refers to.
#[cycle(references)]
fn add_type(
    used: Vec<InternalName>,
    ty: &Type<InternalName>,
    all_defs: &AllDefs,
) -> Result<Vec<InternalName>, AllocError>
    ensures { IfOk result (λ ns. map name_of ns.items ≡ map name_of used.items ++ commons_in (defined_of all_defs.now) (type_form name_of ty.now)) }
{
    add_variant(used, &ty.ty, all_defs)
}

// These names with the common types that what a type writes refers to.
#[cycle(references)]
#[tactic(auto, using(crate::proofs::Using::nothing_more, crate::proofs::Using::entity_named, crate::proofs::Using::common_alone, crate::proofs::Using::common_first))]
fn add_variant(
    used: Vec<InternalName>,
    ty: &TypeVariant<InternalName>,
    all_defs: &AllDefs,
) -> Result<Vec<InternalName>, AllocError>
    ensures { IfOk result (λ ns. map name_of ns.items ≡ map name_of used.items ++ commons_in (defined_of all_defs.now) (variant_form name_of ty.now)) }
{
    match ty {
        TypeVariant::String => Ok(used),
        TypeVariant::Long => Ok(used),
        TypeVariant::Boolean => Ok(used),
        TypeVariant::Set { element } => add_type(used, element, all_defs),
        TypeVariant::Record(fields) => add_record(used, fields, all_defs),
        TypeVariant::Entity { name: _ } => Ok(used),
        TypeVariant::EntityOrCommon { type_name } => add_name(used, type_name, all_defs),
        TypeVariant::CommonTypeRef { type_name } => add_name(used, type_name, all_defs),
        TypeVariant::Extension { name: _ } => Ok(used),
    }
}

// These names with the common types that the attributes of a record refer to.
#[cycle(references)]
fn add_record(
    used: Vec<InternalName>,
    fields: &RecordType<InternalName>,
    all_defs: &AllDefs,
) -> Result<Vec<InternalName>, AllocError>
    ensures { IfOk result (λ ns. map name_of ns.items ≡ map name_of used.items ++ commons_among (meant_in_fields (defined_of all_defs.now) (record_fields name_of fields.now))) }
{
    let mut found = used;
    for (_, attribute) in fields.attributes.iter() {
        found = add_attribute(found, attribute, all_defs)?;
    }
    Ok(found)
}

// These names with the common types that the type of an attribute refers to.
#[cycle(references)]
fn add_attribute(
    used: Vec<InternalName>,
    attribute: &TypeOfAttribute<InternalName>,
    all_defs: &AllDefs,
) -> Result<Vec<InternalName>, AllocError>
    ensures { IfOk result (λ ns. map name_of ns.items ≡ map name_of used.items ++ commons_in (defined_of all_defs.now) (attribute_form name_of attribute.now).0) }
{
    add_type(used, &attribute.ty, all_defs)
}

// These names with one more, if a common type is declared under it.
fn add_name(
    used: Vec<InternalName>,
    name: &InternalName,
    all_defs: &AllDefs,
) -> Result<Vec<InternalName>, AllocError>
    ensures { IfOk result (λ ns. map name_of ns.items ≡ map name_of used.items ++ common_named (defined_of all_defs.now) (name_of name.now)) }
{
    let mut found = used;
    if all_defs.is_defined_as_common(name) {
        found.push(name.clone()?)?;
    }
    Ok(found)
}

/// The names of the common types that a type refers to. Fails only when out of memory.
pub fn common_type_references(
    alloc: Global,
    ty: &Type<InternalName>,
    all_defs: &AllDefs,
) -> Result<Vec<InternalName>, AllocError>
    ensures { IfOk result (λ ns. map name_of ns.items ≡ commons_in (defined_of all_defs.now) (type_form name_of ty.now)) }
{
    add_type(Vec::new(alloc), ty, all_defs)
}

/// Each common type with the names of those that its definition refers to. Fails only when out of memory.
pub fn with_references(
    alloc: Global,
    commons: &[(InternalName, CommonType<InternalName>)],
    all_defs: &AllDefs,
) -> Result<Vec<(InternalName, Vec<InternalName>)>, AllocError>
    ensures { IfOk result (λ ns. seen_nodes name_of ns.items ≡ with_uses (defined_of all_defs.now) (common_forms commons.now)) }
{
    let mut nodes = Vec::with_capacity(alloc, commons.len())?;
    for common in commons {
        let name = common.0.clone()?;
        nodes.push((name, common_type_references(alloc, &common.1.ty, all_defs)?))?;
    }
    Ok(nodes)
}

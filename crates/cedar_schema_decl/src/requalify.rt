//! Names of another state in the place of the names of a tree.

ghost use Rattle.std.specs.Prelude.{◌≡◌, ◌++◌, [], ◌∷◌, true, map, Option, None, IfOk, IfErr, OnOk, OnErr};
ghost use Rattle.std.specs.declared.alloc.AllocError.{AllocError};
ghost use Rattle.std.specs.declared.result.Result.{Result};
ghost use Rattle.std.specs.declared.result.Result.TheVariants.{Ok};
ghost use Rattle.cedar_expr_model.specs.Records.{names_rise};
ghost use Rattle.cedar_expr_values.specs.Fields.{by_text};
ghost use Rattle.cedar_schema_model.specs.Reference.{ReferenceKind};
ghost use Rattle.cedar_schema_decl.specs.Conditional.{Conditional, kind_of};
ghost use Rattle.cedar_schema_decl.specs.Forms.{reference_form, set_form};
ghost use Rattle.cedar_schema_decl.specs.Refusals.{RefusesBy};
ghost use Rattle.cedar_schema_decl.specs.Requalified.{requalified, requalified_fields, requalified_attribute, under_name, each};
ghost use Rattle.cedar_schema_decl.specs.Trees.{type_form, variant_form, record_rows, record_fields, attribute_form, attribute_rows};

use crate::json_schema::{RecordType, Type, TypeOfAttribute, TypeVariant};
use cedar_expr_leaves::ReferenceType;
use cedar_expr_values::fields::field_map;
use std::alloc::{AllocError, Global};
use std::rc::RcStr;

/// Gives a name of one state in the place of each name of another.
pub trait Requalify {
    /// The names of the first state.
    type From: Drop;

    /// The names of the second state.
    type To: Drop;

    /// Why there is no name of the second state: there is no memory for it, or what else names are refused for.
    type Fault: From<AllocError> + Drop;

    /// What the names are, and what stands in the place of one that is written where this is due.
    ghost Before: { Type 0 };

    ghost After: { Type 0 };

    ghost before: { Self.From → Before };

    ghost after: { Self.To → After };

    ghost renames: { Self → ReferenceKind → Before → Result After Conditional };

    /// The name that a fault tells, if it tells one.
    ghost tells: { Self.Fault → Option Conditional };

    /// The name in the place of this one. Refuses a name in the place of which there is none, and fails when out of memory.
    fn requalify(
        &self,
        alloc: Global,
        name: &Self::From,
        kind: ReferenceType,
    ) -> Result<Self::To, Self::Fault>
        ensures made { IfOk result (λ n. renames self.now (kind_of kind) (before name.now) ≡ Ok (after n)) }
        ensures refused { IfErr result (RefusesBy tells (renames self.now (kind_of kind) (before name.now))) };

    /// Out of memory tells none.
    ghost memory_tells_none: { (a : AllocError) (f : Self.Fault) → Self.Fault.from_gives a f → tells f ≡ None };
}

// Appends an item to these. Fails only when out of memory, and then they stay as they were.
pub(crate) fn append<T: Drop>(items: &mut Vec<T>, item: T) -> Result<(), AllocError>
    ensures appended { OnOk result (items.new.items ≡ items.old.items ++ item ∷ []) }
    ensures unchanged { OnErr result (items.new.items ≡ items.old.items) }
{
    items.push(item)?;
    Ok(())
}

/// The type with other names in the place of its own. Refuses the first name in the place of which there is none, and fails when
/// out of memory.
#[cycle(requalify)]
pub fn requalify_type<R: Requalify>(
    alloc: Global,
    ty: &Type<R::From>,
    names: &R,
) -> Result<Type<R::To>, R::Fault>
    ensures made { IfOk result (λ r. requalified (R.renames names.now) (type_form R.before ty.now) ≡ Ok (type_form R.after r)) }
    ensures refused { IfErr result (RefusesBy R.tells (requalified (R.renames names.now) (type_form R.before ty.now))) }
{
    let variant = requalify_variant(alloc, &ty.ty, names)?;
    Ok(Type {
        ty: variant,
        loc: ty.loc,
    })
}

// A type by a name of this kind, with another name in the place of its own. Refuses a name in the place of which there is none.
fn requalify_name<R: Requalify>(
    alloc: Global,
    name: &R::From,
    kind: ReferenceType,
    names: &R,
) -> Result<TypeVariant<R::To>, R::Fault>
    ensures made { IfOk result (λ r. requalified (R.renames names.now) (reference_form (kind_of kind) (R.before name.now)) ≡ Ok (variant_form R.after r)) }
    ensures refused { IfErr result (RefusesBy R.tells (requalified (R.renames names.now) (reference_form (kind_of kind) (R.before name.now)))) }
{
    let name = names.requalify(alloc, name, kind)?;
    Ok(match kind {
        ReferenceType::Entity => TypeVariant::Entity { name },
        ReferenceType::Common => TypeVariant::CommonTypeRef { type_name: name },
        ReferenceType::CommonOrEntity => TypeVariant::EntityOrCommon { type_name: name },
    })
}

// The type of sets of these elements.
fn set_of<R: Requalify>(
    alloc: Global,
    element: Type<R::To>,
) -> Result<TypeVariant<R::To>, AllocError>
    ensures { IfOk result (λ r. variant_form R.after r ≡ set_form (type_form R.after element)) }
{
    let element = Box::new(alloc, element)?;
    Ok(TypeVariant::Set { element })
}

// What a type writes, with other names in the place of its own. Refuses the first name in the place of which there is none.
#[cycle(requalify)]
fn requalify_variant<R: Requalify>(
    alloc: Global,
    ty: &TypeVariant<R::From>,
    names: &R,
) -> Result<TypeVariant<R::To>, R::Fault>
    ensures made { IfOk result (λ r. requalified (R.renames names.now) (variant_form R.before ty.now) ≡ Ok (variant_form R.after r)) }
    ensures refused { IfErr result (RefusesBy R.tells (requalified (R.renames names.now) (variant_form R.before ty.now))) }
{
    match ty {
        TypeVariant::String => Ok(TypeVariant::String),
        TypeVariant::Long => Ok(TypeVariant::Long),
        TypeVariant::Boolean => Ok(TypeVariant::Boolean),
        TypeVariant::Set { element } => {
            let element = requalify_type(alloc, element, names)?;
            Ok(set_of::<R>(alloc, element)?)
        }
        TypeVariant::Record(fields) => {
            let fields = requalify_record(alloc, fields, names)?;
            Ok(TypeVariant::Record(fields))
        }
        TypeVariant::Entity { name } => requalify_name(alloc, name, ReferenceType::Entity, names),
        TypeVariant::EntityOrCommon { type_name } => {
            requalify_name(alloc, type_name, ReferenceType::CommonOrEntity, names)
        }
        TypeVariant::CommonTypeRef { type_name } => {
            requalify_name(alloc, type_name, ReferenceType::Common, names)
        }
        TypeVariant::Extension { name } => {
            let name = name.clone()?;
            Ok(TypeVariant::Extension { name })
        }
    }
}

/// The record with other names in the place of its own. Refuses the first name in the place of which there is none, and fails
/// when out of memory.
#[cycle(requalify)]
pub fn requalify_record<R: Requalify>(
    alloc: Global,
    fields: &RecordType<R::From>,
    names: &R,
) -> Result<RecordType<R::To>, R::Fault>
    ensures made { IfOk result (λ r. requalified_fields (R.renames names.now) (record_fields R.before fields.now) ≡ Ok (record_fields R.after r)) }
    ensures refused { IfErr result (RefusesBy R.tells (requalified_fields (R.renames names.now) (record_fields R.before fields.now))) }
{
    let attributes = requalify_attributes(alloc, fields, names)?;
    let attributes = field_map(alloc, attributes)?;
    Ok(RecordType { attributes })
}

// The attributes of the record, in the order of their names, with other names in the place of their own. Refuses the first name in the
// place of which there is none.
#[cycle(requalify)]
fn requalify_attributes<R: Requalify>(
    alloc: Global,
    fields: &RecordType<R::From>,
    names: &R,
) -> Result<Vec<(RcStr, TypeOfAttribute<R::To>)>, R::Fault>
    ensures made { IfOk result (λ r. each (under_name (requalified_attribute (R.renames names.now))) (record_rows R.before fields.now) ≡ Ok (attribute_rows R.after r.items)) }
    ensures rising { IfOk result (λ r. names_rise (map by_text r.items) ≡ true) }
    ensures refused { IfErr result (RefusesBy R.tells (each (under_name (requalified_attribute (R.renames names.now))) (record_rows R.before fields.now))) }
{
    let mut made = Vec::with_capacity(alloc, fields.attributes.len())?;
    for (name, attribute) in fields.attributes.iter() {
        let attribute = requalify_attribute(alloc, attribute, names)?;
        append(&mut made, (name.clone()?, attribute))?;
    }
    Ok(made)
}

// The attribute, with other names in the place of its own. Refuses the first name in the place of which there is none.
#[cycle(requalify)]
fn requalify_attribute<R: Requalify>(
    alloc: Global,
    attribute: &TypeOfAttribute<R::From>,
    names: &R,
) -> Result<TypeOfAttribute<R::To>, R::Fault>
    ensures made { IfOk result (λ r. requalified_attribute (R.renames names.now) (attribute_form R.before attribute.now) ≡ Ok (attribute_form R.after r)) }
    ensures refused { IfErr result (RefusesBy R.tells (requalified_attribute (R.renames names.now) (attribute_form R.before attribute.now))) }
{
    let ty = requalify_type(alloc, &attribute.ty, names)?;
    Ok(TypeOfAttribute {
        ty,
        required: attribute.required,
        loc: attribute.loc,
    })
}

/// Other names in the place of these. Refuses the first name in the place of which there is none, and fails when out of memory.
pub fn requalify_names<R: Requalify>(
    alloc: Global,
    written: &[R::From],
    kind: ReferenceType,
    names: &R,
) -> Result<Vec<R::To>, R::Fault>
    ensures made { IfOk result (λ r. each (R.renames names.now (kind_of kind)) (map R.before written.now) ≡ Ok (map R.after r.items)) }
    ensures refused { IfErr result (RefusesBy R.tells (each (R.renames names.now (kind_of kind)) (map R.before written.now))) }
{
    let mut made = Vec::with_capacity(alloc, written.len())?;
    for name in written {
        append(&mut made, names.requalify(alloc, name, kind)?)?;
    }
    Ok(made)
}

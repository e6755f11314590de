//! Calls, sets and records, by the types of their parts.

ghost use Rattle.std.specs.Prelude.{◌≡◌, true, map, option_map, option_and_then, IfOk};
ghost use Rattle.cedar_expr_model.specs.Lists.{all_given};
ghost use Rattle.cedar_expr_model.specs.Records.{names_rise};
ghost use Rattle.cedar_expr_trees.specs.Trees.{named};
ghost use Rattle.cedar_schema_types.specs.AttributeLists.{required_pairs};
ghost use Rattle.cedar_schema_types.specs.Types.{type_of};
ghost use Rattle.cedar_typechecker_model.specs.Rules.{set_literal_type as model_set_type};
ghost use Rattle.cedar_typechecker_environments.specs.Settings.{setting_of};
ghost use Rattle.cedar_typechecker_model.specs.Typed.{set_typed, record_typed};
ghost use Rattle.cedar_typechecker_answers.specs.Answers.{seen};
ghost use Rattle.cedar_typechecker_operators.specs.Rows.{type_at, row_found, required_at, fields_found};
ghost use Rattle.cedar_typechecker_operators.specs.Operators.{call_by, call_type_by};

use cedar_expr_names::{Loc, Name};
use cedar_expr_trees::Expr;
use cedar_schema_types::{OpenTag, Type};
use cedar_typechecker_answers::{
    Faults, TypecheckAnswer, TypingErrorKind, call_kind, no_type, plain_node, record_kind, set_kind,
};
use cedar_typechecker_environments::{TypingSchema, World};
use cedar_typechecker_rules::{call_type, set_literal_type};
use std::alloc::{AllocError, Global};
use std::collections::BTreeMap;
use std::rc::RcStr;

/// The answer of a call by its arguments, typed, if each has a type.
pub fn call_answer<'a, S: TypingSchema>(
    alloc: Global,
    world: &World<'_, S>,
    faults: &mut Faults,
    place: Option<Loc>,
    name: &Name,
    args: &[Expr],
    row: Option<Vec<Expr<Option<Type>>>>,
) -> Result<TypecheckAnswer<'a>, AllocError>
    ensures { IfOk result (λ a. seen a ≡ call_by S.schema S.table world.now name.now args.now row) }
{
    let Some(row) = row else {
        return Ok(no_type());
    };
    let Some(ty) = call_type_of(alloc, world, name, args, row.as_slice())? else {
        return Ok(no_type());
    };
    let wrong = TypingErrorKind::UnexpectedType;
    let kind = call_kind(alloc, name.clone()?, row)?;
    plain_node(alloc, faults, kind, place, ty, wrong)
}

// The type of a call of the function of this name, if each argument has a type.
fn call_type_of<S: TypingSchema>(
    alloc: Global,
    world: &World<'_, S>,
    name: &Name,
    args: &[Expr],
    row: &[Expr<Option<Type>>],
) -> Result<Option<Option<Type>>, AllocError>
    ensures { IfOk result (λ t. option_map (option_map type_of) t ≡ call_type_by S.schema S.table world.now name.now args.now row.now) }
{
    match row_types(alloc, row)? {
        Some(types) => Ok(Some(call_type(alloc, world, name, args, types.as_slice())?)),
        None => Ok(None),
    }
}

/// The answer of a set by its members, typed, if each has a type.
pub fn set_answer<'a, S: TypingSchema>(
    alloc: Global,
    world: &World<'_, S>,
    faults: &mut Faults,
    place: Option<Loc>,
    row: Option<Vec<Expr<Option<Type>>>>,
) -> Result<TypecheckAnswer<'a>, AllocError>
    ensures { IfOk result (λ a. seen a ≡ option_and_then (set_typed (setting_of S.schema S.table world.now)) (row_found row)) }
{
    let Some(row) = row else {
        return Ok(no_type());
    };
    let Some(ty) = set_type_of(alloc, world, row.as_slice())? else {
        return Ok(no_type());
    };
    let wrong = if row.is_empty() {
        TypingErrorKind::EmptySetForbidden
    } else {
        TypingErrorKind::IncompatibleTypes
    };
    let kind = set_kind(alloc, row)?;
    plain_node(alloc, faults, kind, place, ty, wrong)
}

// The type of a set of these members, if each has a type.
fn set_type_of<S: TypingSchema>(
    alloc: Global,
    world: &World<'_, S>,
    row: &[Expr<Option<Type>>],
) -> Result<Option<Option<Type>>, AllocError>
    ensures { IfOk result (λ t. option_map (option_map type_of) t ≡ option_map (model_set_type (setting_of S.schema S.table world.now).mode) (all_given type_at row.now)) }
{
    match row_types(alloc, row)? {
        Some(types) => Ok(Some(set_literal_type(alloc, world.mode, types.as_slice())?)),
        None => Ok(None),
    }
}

// The types of expressions in a row, if each has one.
fn row_types<'r>(
    alloc: Global,
    row: &'r [Expr<Option<Type>>],
) -> Result<Option<Vec<&'r Type>>, AllocError>
    ensures { IfOk result (λ ts. option_map (λ v. map (λ t. type_of t.now) v.items) ts ≡ all_given type_at row.entry.now) }
{
    let mut types = Vec::with_capacity(alloc, row.len())?;
    for e in row {
        match e.data() {
            Some(ty) => types.push(ty)?,
            None => return Ok(None),
        }
    }
    Ok(Some(types))
}

/// The answer of a record by its fields, typed, if each has a type.
pub fn record_answer<'a>(
    alloc: Global,
    faults: &mut Faults,
    place: Option<Loc>,
    row: Option<BTreeMap<RcStr, Expr<Option<Type>>>>,
) -> Result<TypecheckAnswer<'a>, AllocError>
    ensures { IfOk result (λ a. seen a ≡ option_and_then record_typed (fields_found row)) }
{
    let Some(row) = row else {
        return Ok(no_type());
    };
    let Some(types) = field_types(alloc, &row)? else {
        return Ok(no_type());
    };
    let tag = OpenTag::ClosedAttributes;
    let ty = Type::record_with_required_attributes(alloc, types, tag)?;
    let kind = record_kind(alloc, row)?;
    let wrong = TypingErrorKind::UnexpectedType;
    plain_node(alloc, faults, kind, place, Some(ty), wrong)
}

// The types of fields, under their names, if each has one.
fn field_types(
    alloc: Global,
    row: &BTreeMap<RcStr, Expr<Option<Type>>>,
) -> Result<Option<Vec<(RcStr, Type)>>, AllocError>
    ensures types { IfOk result (λ ts. option_map (λ v. required_pairs v.items) ts ≡ all_given required_at row.now.entries) }
    ensures rising { IfOk result (λ ts. names_rise (named row.now.entries) ≡ true) }
{
    let mut types = Vec::with_capacity(alloc, row.len())?;
    for (name, e) in row {
        match e.data() {
            Some(ty) => types.push((name.clone()?, ty.clone()?))?,
            None => return Ok(None),
        }
    }
    Ok(Some(types))
}

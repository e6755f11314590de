//! Typing: a walk along an expression.

ghost use Rattle.std.specs.Prelude.{◌≡◌, map, IfOk};
ghost use Rattle.std.specs.Rc.{rc_str_bytes};
ghost use Rattle.cedar_expr_leaves.specs.Operators.{unary_op_of, binary_op_of};
ghost use Rattle.cedar_expr_leaves.specs.Patterns.{pattern_of};
ghost use Rattle.cedar_expr_model.specs.Builder.{trees, tree_fields};
ghost use Rattle.cedar_expr_model.specs.Tree.{choice, both, either, unary, binary, call, get_attr, has_attr, like, is_type, set_literal, record_literal};
ghost use Rattle.cedar_expr_names.specs.Views.{plain_name_of, type_name_of};
ghost use Rattle.cedar_expr_trees.specs.Trees.{tree_of, named, field_trees};
ghost use Rattle.cedar_typechecker_environments.specs.Facts.{facts_of};
ghost use Rattle.cedar_typechecker_environments.specs.Settings.{setting_of};
ghost use Rattle.cedar_typechecker_model.specs.Typed.{typed, typed_fields};
ghost use Rattle.cedar_typechecker_operators.specs.Rows.{fields_found};
ghost use Rattle.cedar_typechecker_operators.specs.Operators.{IsAnswer, IsRow, path_test};

use crate::{
    binary_answer, call_answer, chosen_answer, get_answer, has_answer, is_answer, like_answer,
    literal_answer, path_answer, record_answer, set_answer, slot_answer, unary_answer,
    variable_answer,
};
use cedar_expr_leaves::{BinaryOp, NonEmpty, Pattern, UnaryOp};
use cedar_expr_names::{EntityType, Loc, Name};
use cedar_expr_trees::{Expr, ExprKind};
use cedar_expr_values::fields::field_map;
use cedar_schema_types::Type;
use cedar_typechecker_answers::{
    ChoiceStep, Faults, Step, TypecheckAnswer, TypingErrorKind, and_answer, and_step, choice_step,
    failed, first_answer, no_type, or_answer, or_step, second_answer,
};
use cedar_typechecker_environments::{CapabilitySet, TypingSchema, World};
use std::alloc::{AllocError, Global};
use std::collections::BTreeMap;
use std::rc::{Rc, RcStr};

/// The expression typed where these facts are known: with its type and those of its parts that typing reaches, and what holds where
/// it is true. Where it has no type, what is wrong with it is appended to the faults that are handed in.
#[cycle(typing)]
pub fn typecheck<'a, S: TypingSchema>(
    alloc: Global,
    world: &World<'_, S>,
    known: &CapabilitySet<'a>,
    faults: &mut Faults,
    expr: &'a Expr,
) -> Result<TypecheckAnswer<'a>, AllocError>
    ensures { IfOk result (IsAnswer S.schema S.table world.now known.now (tree_of expr.entry.now)) }
{
    let place = expr.source_loc();
    match expr.expr_kind() {
        ExprKind::Lit(literal) => literal_answer(alloc, world, faults, place, literal),
        ExprKind::Var(v) => variable_answer(alloc, world, faults, place, *v),
        ExprKind::Slot(s) => slot_answer(alloc, world, faults, place, *s),
        ExprKind::Unknown(_) => failed(faults, TypingErrorKind::UnexpectedType, place),
        ExprKind::If {
            test_expr,
            then_expr,
            else_expr,
        } => typecheck_if(
            alloc, world, known, faults, place, test_expr, then_expr, else_expr,
        ),
        ExprKind::And { left, right } => {
            typecheck_and(alloc, world, known, faults, place, left, right)
        }
        ExprKind::Or { left, right } => {
            typecheck_or(alloc, world, known, faults, place, left, right)
        }
        ExprKind::UnaryApp { op, arg } => {
            typecheck_unary(alloc, world, known, faults, place, *op, arg)
        }
        ExprKind::BinaryApp { op, arg1, arg2 } => {
            typecheck_binary(alloc, world, known, faults, place, *op, arg1, arg2)
        }
        ExprKind::ExtensionFunctionApp { fn_name, args } => {
            typecheck_call(alloc, world, known, faults, place, fn_name, args.as_slice())
        }
        ExprKind::GetAttr { expr, attr } => {
            typecheck_get_attr(alloc, world, known, faults, place, expr, attr)
        }
        ExprKind::HasAttr { expr, attr } => {
            typecheck_has_attr(alloc, world, known, faults, place, expr, attr)
        }
        ExprKind::ExtHasAttr { expr, attrs } => {
            typecheck_has_path(alloc, world, known, faults, place, expr, attrs)
        }
        ExprKind::Like { expr, pattern } => {
            typecheck_like(alloc, world, known, faults, place, expr, pattern)
        }
        ExprKind::Is { expr, entity_type } => {
            typecheck_is(alloc, world, known, faults, place, expr, entity_type)
        }
        ExprKind::Set(members) => {
            typecheck_set(alloc, world, known, faults, place, members.as_slice())
        }
        ExprKind::Record(fields) => { typecheck_record(alloc, world, known, faults, place, fields) }
    }
}

// A choice: both branches, or the one that the test leaves.
#[cycle(typing)]
fn typecheck_if<'a, S: TypingSchema>(
    alloc: Global,
    world: &World<'_, S>,
    known: &CapabilitySet<'a>,
    faults: &mut Faults,
    place: Option<Loc>,
    test: &'a Expr,
    first: &'a Expr,
    second: &'a Expr,
) -> Result<TypecheckAnswer<'a>, AllocError>
    ensures { IfOk result (IsAnswer S.schema S.table world.now known.now (choice (tree_of test.entry.now) (tree_of first.entry.now) (tree_of second.entry.now))) }
{
    let tested = typecheck(alloc, world, known, faults, test)?;
    match choice_step(known, faults, tested)? {
        ChoiceStep::Refused => Ok(no_type()),
        ChoiceStep::First { test, known } => {
            let answer = typecheck(alloc, world, &known, faults, first)?;
            first_answer(alloc, faults, place, test, answer, second)
        }
        ChoiceStep::Second { test } => {
            let answer = typecheck(alloc, world, known, faults, second)?;
            second_answer(alloc, faults, place, test, first, answer)
        }
        ChoiceStep::Both { test, known: then } => {
            let first = typecheck(alloc, world, &then, faults, first)?;
            let second = typecheck(alloc, world, known, faults, second)?;
            chosen_answer(alloc, world, faults, place, test, first, second)
        }
    }
}

// A conjunction.
#[cycle(typing)]
fn typecheck_and<'a, S: TypingSchema>(
    alloc: Global,
    world: &World<'_, S>,
    known: &CapabilitySet<'a>,
    faults: &mut Faults,
    place: Option<Loc>,
    left: &'a Expr,
    right: &'a Expr,
) -> Result<TypecheckAnswer<'a>, AllocError>
    ensures { IfOk result (IsAnswer S.schema S.table world.now known.now (both (tree_of left.entry.now) (tree_of right.entry.now))) }
{
    let first = typecheck(alloc, world, known, faults, left)?;
    match and_step(alloc, known, faults, place, first, right)? {
        Step::Done(answer) => Ok(answer),
        Step::GoesOn { left, known } => {
            let second = typecheck(alloc, world, &known, faults, right)?;
            and_answer(alloc, faults, place, left, second)
        }
    }
}

// A disjunction.
#[cycle(typing)]
fn typecheck_or<'a, S: TypingSchema>(
    alloc: Global,
    world: &World<'_, S>,
    known: &CapabilitySet<'a>,
    faults: &mut Faults,
    place: Option<Loc>,
    left: &'a Expr,
    right: &'a Expr,
) -> Result<TypecheckAnswer<'a>, AllocError>
    ensures { IfOk result (IsAnswer S.schema S.table world.now known.now (either (tree_of left.entry.now) (tree_of right.entry.now))) }
{
    let first = typecheck(alloc, world, known, faults, left)?;
    match or_step(alloc, faults, place, first, right)? {
        Step::Done(answer) => Ok(answer),
        Step::GoesOn { left, .. } => {
            let second = typecheck(alloc, world, known, faults, right)?;
            or_answer(alloc, faults, place, left, second)
        }
    }
}

// An operator of one operand.
#[cycle(typing)]
fn typecheck_unary<'a, S: TypingSchema>(
    alloc: Global,
    world: &World<'_, S>,
    known: &CapabilitySet<'a>,
    faults: &mut Faults,
    place: Option<Loc>,
    op: UnaryOp,
    arg: &'a Expr,
) -> Result<TypecheckAnswer<'a>, AllocError>
    ensures { IfOk result (IsAnswer S.schema S.table world.now known.now (unary (unary_op_of op) (tree_of arg.entry.now))) }
{
    let operand = typecheck(alloc, world, known, faults, arg)?;
    unary_answer(alloc, faults, place, op, operand)
}

// An operator of two operands.
#[cycle(typing)]
fn typecheck_binary<'a, S: TypingSchema>(
    alloc: Global,
    world: &World<'_, S>,
    known: &CapabilitySet<'a>,
    faults: &mut Faults,
    place: Option<Loc>,
    op: BinaryOp,
    arg1: &'a Expr,
    arg2: &'a Expr,
) -> Result<TypecheckAnswer<'a>, AllocError>
    ensures { IfOk result (IsAnswer S.schema S.table world.now known.now (binary (binary_op_of op) (tree_of arg1.entry.now) (tree_of arg2.entry.now))) }
{
    let first = typecheck(alloc, world, known, faults, arg1)?;
    let second = typecheck(alloc, world, known, faults, arg2)?;
    binary_answer(
        alloc, world, known, faults, place, op, arg1, arg2, first, second,
    )
}

// A call of a function.
#[cycle(typing)]
fn typecheck_call<'a, S: TypingSchema>(
    alloc: Global,
    world: &World<'_, S>,
    known: &CapabilitySet<'a>,
    faults: &mut Faults,
    place: Option<Loc>,
    name: &Name,
    args: &'a [Expr],
) -> Result<TypecheckAnswer<'a>, AllocError>
    ensures { IfOk result (IsAnswer S.schema S.table world.now known.now (call (plain_name_of name.now) (trees (map tree_of args.entry.now)))) }
{
    let row = typecheck_all(alloc, world, known, faults, args)?;
    call_answer(alloc, world, faults, place, name, args, row)
}

// An attribute.
#[cycle(typing)]
fn typecheck_get_attr<'a, S: TypingSchema>(
    alloc: Global,
    world: &World<'_, S>,
    known: &CapabilitySet<'a>,
    faults: &mut Faults,
    place: Option<Loc>,
    expr: &'a Expr,
    attr: &RcStr,
) -> Result<TypecheckAnswer<'a>, AllocError>
    ensures { IfOk result (IsAnswer S.schema S.table world.now known.now (get_attr (tree_of expr.entry.now) (rc_str_bytes attr.now))) }
{
    let operand = typecheck(alloc, world, known, faults, expr)?;
    get_answer(alloc, world, known, faults, place, expr, attr, operand)
}

// The presence of an attribute.
#[cycle(typing)]
fn typecheck_has_attr<'a, S: TypingSchema>(
    alloc: Global,
    world: &World<'_, S>,
    known: &CapabilitySet<'a>,
    faults: &mut Faults,
    place: Option<Loc>,
    expr: &'a Expr,
    attr: &RcStr,
) -> Result<TypecheckAnswer<'a>, AllocError>
    ensures { IfOk result (IsAnswer S.schema S.table world.now known.now (has_attr (tree_of expr.entry.now) (rc_str_bytes attr.now))) }
{
    let operand = typecheck(alloc, world, known, faults, expr)?;
    has_answer(alloc, world, faults, place, expr, attr, operand)
}

// The presence of a path of attributes.
#[cycle(typing)]
fn typecheck_has_path<'a, S: TypingSchema>(
    alloc: Global,
    world: &World<'_, S>,
    known: &CapabilitySet<'a>,
    faults: &mut Faults,
    place: Option<Loc>,
    expr: &'a Rc<Expr>,
    attrs: &Rc<NonEmpty<RcStr>>,
) -> Result<TypecheckAnswer<'a>, AllocError>
    ensures { IfOk result (IsAnswer S.schema S.table world.now known.now (path_test expr.entry.now.value attrs.now.value)) }
{
    let operand = typecheck(alloc, world, known, faults, expr)?;
    path_answer(alloc, world, faults, place, expr, attrs, operand)
}

// A pattern.
#[cycle(typing)]
fn typecheck_like<'a, S: TypingSchema>(
    alloc: Global,
    world: &World<'_, S>,
    known: &CapabilitySet<'a>,
    faults: &mut Faults,
    place: Option<Loc>,
    expr: &'a Expr,
    pattern: &Pattern,
) -> Result<TypecheckAnswer<'a>, AllocError>
    ensures { IfOk result (IsAnswer S.schema S.table world.now known.now (like (tree_of expr.entry.now) (pattern_of pattern.now))) }
{
    let operand = typecheck(alloc, world, known, faults, expr)?;
    like_answer(alloc, faults, place, pattern, operand)
}

// A test of the entity type.
#[cycle(typing)]
fn typecheck_is<'a, S: TypingSchema>(
    alloc: Global,
    world: &World<'_, S>,
    known: &CapabilitySet<'a>,
    faults: &mut Faults,
    place: Option<Loc>,
    expr: &'a Expr,
    kind: &EntityType,
) -> Result<TypecheckAnswer<'a>, AllocError>
    ensures { IfOk result (IsAnswer S.schema S.table world.now known.now (is_type (tree_of expr.entry.now) (type_name_of kind.now))) }
{
    let operand = typecheck(alloc, world, known, faults, expr)?;
    is_answer(alloc, faults, place, kind, operand)
}

// A set.
#[cycle(typing)]
fn typecheck_set<'a, S: TypingSchema>(
    alloc: Global,
    world: &World<'_, S>,
    known: &CapabilitySet<'a>,
    faults: &mut Faults,
    place: Option<Loc>,
    members: &'a [Expr],
) -> Result<TypecheckAnswer<'a>, AllocError>
    ensures { IfOk result (IsAnswer S.schema S.table world.now known.now (set_literal (trees (map tree_of members.entry.now)))) }
{
    let row = typecheck_all(alloc, world, known, faults, members)?;
    set_answer(alloc, world, faults, place, row)
}

// A record.
#[cycle(typing)]
fn typecheck_record<'a, S: TypingSchema>(
    alloc: Global,
    world: &World<'_, S>,
    known: &CapabilitySet<'a>,
    faults: &mut Faults,
    place: Option<Loc>,
    fields: &'a BTreeMap<RcStr, Expr>,
) -> Result<TypecheckAnswer<'a>, AllocError>
    ensures { IfOk result (IsAnswer S.schema S.table world.now known.now (record_literal (tree_fields (named (field_trees fields.entry.now.entries))))) }
{
    let row = typecheck_fields(alloc, world, known, faults, fields)?;
    record_answer(alloc, faults, place, row)
}

// These expressions typed, one after the other, if each has a type.
#[cycle(typing)]
fn typecheck_all<'a, S: TypingSchema>(
    alloc: Global,
    world: &World<'_, S>,
    known: &CapabilitySet<'a>,
    faults: &mut Faults,
    exprs: &'a [Expr],
) -> Result<Option<Vec<Expr<Option<Type>>>>, AllocError>
    ensures { IfOk result (IsRow S.schema S.table world.now known.now exprs.entry.now) }
{
    let mut row = Vec::with_capacity(alloc, exprs.len())?;
    for e in exprs {
        match typecheck(alloc, world, known, faults, e)? {
            TypecheckAnswer::Success { expr_type, .. } => row.push(expr_type)?,
            TypecheckAnswer::Fail { .. } => return Ok(None),
        }
    }
    Ok(Some(row))
}

// The fields of a record typed, if each has a type.
#[cycle(typing)]
fn typecheck_fields<'a, S: TypingSchema>(
    alloc: Global,
    world: &World<'_, S>,
    known: &CapabilitySet<'a>,
    faults: &mut Faults,
    fields: &'a BTreeMap<RcStr, Expr>,
) -> Result<Option<BTreeMap<RcStr, Expr<Option<Type>>>>, AllocError>
    ensures { IfOk result (λ r. fields_found r ≡ typed_fields (setting_of S.schema S.table world.now) (facts_of known.now) (tree_fields (named (field_trees fields.entry.now.entries)))) }
{
    let mut row = Vec::with_capacity(alloc, fields.len())?;
    for (name, e) in fields {
        match typecheck(alloc, world, known, faults, e)? {
            TypecheckAnswer::Success { expr_type, .. } => row.push((name.clone()?, expr_type))?,
            TypecheckAnswer::Fail { .. } => return Ok(None),
        }
    }
    Ok(Some(field_map(alloc, row)?))
}

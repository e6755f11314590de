//! The walk along an expression.

ghost use Rattle.std.specs.Prelude.{◌≡◌, map, IfOk};
ghost use Rattle.std.specs.Rc.{rc_str_bytes};
ghost use Rattle.cedar_expr_leaves.specs.Literals.{literal_of};
ghost use Rattle.cedar_expr_leaves.specs.Operators.{unary_op_of, binary_op_of};
ghost use Rattle.cedar_expr_leaves.specs.Patterns.{pattern_of};
ghost use Rattle.cedar_expr_leaves.specs.Slots.{slot_of};
ghost use Rattle.cedar_expr_leaves.specs.Variables.{var_of};
ghost use Rattle.cedar_expr_model.specs.Builder.{trees};
ghost use Rattle.cedar_expr_model.specs.Tree.{lit, var, slot, choice, both, either, unary, binary, get_attr, has_attr, like, is_type, set_literal};
ghost use Rattle.cedar_expr_names.specs.Views.{type_name_of};
ghost use Rattle.cedar_expr_trees.specs.Trees.{tree_of};
ghost use Rattle.cedar_schema_types.specs.Types.{type_of};
ghost use Rattle.cedar_typechecker_fast_path.specs.Within.{IsWithin, AreWithin};

use crate::answers::{Within, judged_within, plainly_within};
use crate::steps::{attribute_steps, greater, literal_steps, operator_steps};
use cedar_expr_leaves::{BinaryOp, Literal, Pattern, SlotId, UnaryOp, Var};
use cedar_expr_names::EntityType;
use cedar_expr_trees::{Expr, ExprKind};
use cedar_schema_types::{BoolType, Type};
use cedar_typechecker_answers::{conjoined, disjoined};
use cedar_typechecker_environments::{CapabilitySet, TypingSchema, World};
use cedar_typechecker_operators::{attribute_judgement, binary_judgement, chosen, known_type};
use cedar_typechecker_rules::{
    is_type_type, like_type, literal_type, set_literal_type, slot_type, unary_type, var_type,
};
use std::alloc::{AllocError, Global};
use std::rc::RcStr;

/// The type and the facts of the expression where these facts are known, if it has a type and nothing in it reaches further than the level.
/// None where that isn't found without the types of its parts: nothing is said of the expression then.
#[cycle(within)]
pub fn typed_within<'a, S: TypingSchema>(
    alloc: Global,
    world: &World<'_, S>,
    known: &CapabilitySet<'a>,
    level: u32,
    expr: &'a Expr,
) -> Result<Option<Within<'a>>, AllocError>
    ensures { IfOk result (IsWithin S.schema S.table world.now known.now level (tree_of expr.entry.now)) }
{
    match expr.expr_kind() {
        ExprKind::Lit(literal) => literal_within(alloc, world, known, level, literal),
        ExprKind::Var(v) => variable_within(alloc, world, known, level, *v),
        ExprKind::Slot(s) => slot_within(alloc, world, known, level, *s),
        ExprKind::If {
            test_expr,
            then_expr,
            else_expr,
        } => if_within(alloc, world, known, level, test_expr, then_expr, else_expr),
        ExprKind::And { left, right } => and_within(alloc, world, known, level, left, right),
        ExprKind::Or { left, right } => or_within(alloc, world, known, level, left, right),
        ExprKind::UnaryApp { op, arg } => unary_within(alloc, world, known, level, *op, arg),
        ExprKind::BinaryApp { op, arg1, arg2 } => {
            binary_within(alloc, world, known, level, *op, arg1, arg2)
        }
        ExprKind::GetAttr { expr, attr } => get_within(alloc, world, known, level, expr, attr),
        ExprKind::HasAttr { expr, attr } => has_within(alloc, world, known, level, expr, attr),
        ExprKind::Like { expr, pattern } => {
            like_within(alloc, world, known, level, expr, pattern)
        }
        ExprKind::Is { expr, entity_type } => {
            is_within(alloc, world, known, level, expr, entity_type)
        }
        ExprKind::Set(members) => set_within(alloc, world, known, level, members.as_slice()),
        ExprKind::Unknown(_) | ExprKind::ExtensionFunctionApp { .. } => Ok(None),
        ExprKind::ExtHasAttr { .. } | ExprKind::Record(_) => Ok(None),
    }
}

// A literal.
fn literal_within<'a, S: TypingSchema>(
    alloc: Global,
    world: &World<'_, S>,
    known: &CapabilitySet<'a>,
    level: u32,
    literal: &Literal,
) -> Result<Option<Within<'a>>, AllocError>
    ensures { IfOk result (IsWithin S.schema S.table world.now known.now level (lit (literal_of literal.now))) }
{
    let ty = literal_type(alloc, world, literal)?;
    Ok(plainly_within(alloc, ty, literal_steps(literal)))
}

// A variable.
fn variable_within<'a, S: TypingSchema>(
    alloc: Global,
    world: &World<'_, S>,
    known: &CapabilitySet<'a>,
    level: u32,
    v: Var,
) -> Result<Option<Within<'a>>, AllocError>
    ensures { IfOk result (IsWithin S.schema S.table world.now known.now level (var (var_of v))) }
{
    let ty = var_type(alloc, world, v)?;
    Ok(plainly_within(alloc, Some(ty), Some(0)))
}

// A slot.
fn slot_within<'a, S: TypingSchema>(
    alloc: Global,
    world: &World<'_, S>,
    known: &CapabilitySet<'a>,
    level: u32,
    s: SlotId,
) -> Result<Option<Within<'a>>, AllocError>
    ensures { IfOk result (IsWithin S.schema S.table world.now known.now level (slot (slot_of s))) }
{
    let ty = slot_type(alloc, world, s)?;
    Ok(plainly_within(alloc, Some(ty), None))
}

// A choice whose test may be true and false.
#[cycle(within)]
fn if_within<'a, S: TypingSchema>(
    alloc: Global,
    world: &World<'_, S>,
    known: &CapabilitySet<'a>,
    level: u32,
    test: &'a Expr,
    first: &'a Expr,
    second: &'a Expr,
) -> Result<Option<Within<'a>>, AllocError>
    ensures { IfOk result (IsWithin S.schema S.table world.now known.now level (choice (tree_of test.entry.now) (tree_of first.entry.now) (tree_of second.entry.now))) }
{
    let Some(tested) = typed_within(alloc, world, known, level, test)? else {
        return Ok(None);
    };
    let Type::Bool(b) = &tested.ty else {
        return Ok(None);
    };
    let BoolType::AnyBool = b else {
        return Ok(None);
    };
    let then = known.union(&tested.known)?;
    let Some(first) = typed_within(alloc, world, &then, level, first)? else {
        return Ok(None);
    };
    let Some(second) = typed_within(alloc, world, known, level, second)? else {
        return Ok(None);
    };
    let own = tested.known.union(&first.known)?;
    let judged = chosen(alloc, world, &first.ty, &own, &second.ty, &second.known)?;
    Ok(judged_within(judged, greater(first.steps, second.steps)))
}

// A conjunction: after False the right side isn't typed.
#[cycle(within)]
fn and_within<'a, S: TypingSchema>(
    alloc: Global,
    world: &World<'_, S>,
    known: &CapabilitySet<'a>,
    level: u32,
    left: &'a Expr,
    right: &'a Expr,
) -> Result<Option<Within<'a>>, AllocError>
    ensures { IfOk result (IsWithin S.schema S.table world.now known.now level (both (tree_of left.entry.now) (tree_of right.entry.now))) }
{
    let Some(first) = typed_within(alloc, world, known, level, left)? else {
        return Ok(None);
    };
    let Type::Bool(b) = &first.ty else {
        return Ok(None);
    };
    if matches!(b, BoolType::False) {
        let ty = Type::Bool(BoolType::False);
        return Ok(plainly_within(alloc, Some(ty), Some(0)));
    }
    let then = known.union(&first.known)?;
    let Some(second) = typed_within(alloc, world, &then, level, right)? else {
        return Ok(None);
    };
    let judged = conjoined(alloc, &first.ty, &first.known, &second.ty, &second.known)?;
    Ok(judged_within(judged, Some(0)))
}

// A disjunction whose left side may be false.
#[cycle(within)]
fn or_within<'a, S: TypingSchema>(
    alloc: Global,
    world: &World<'_, S>,
    known: &CapabilitySet<'a>,
    level: u32,
    left: &'a Expr,
    right: &'a Expr,
) -> Result<Option<Within<'a>>, AllocError>
    ensures { IfOk result (IsWithin S.schema S.table world.now known.now level (either (tree_of left.entry.now) (tree_of right.entry.now))) }
{
    let Some(first) = typed_within(alloc, world, known, level, left)? else {
        return Ok(None);
    };
    let Type::Bool(b) = &first.ty else {
        return Ok(None);
    };
    if matches!(b, BoolType::True) {
        return Ok(None);
    }
    let Some(second) = typed_within(alloc, world, known, level, right)? else {
        return Ok(None);
    };
    let Within {
        ty: left,
        known: own,
        ..
    } = first;
    let Within {
        ty: right,
        known: other,
        ..
    } = second;
    let judged = disjoined(alloc, &left, own, &right, other)?;
    Ok(judged_within(judged, Some(0)))
}

// An operator of one operand.
#[cycle(within)]
fn unary_within<'a, S: TypingSchema>(
    alloc: Global,
    world: &World<'_, S>,
    known: &CapabilitySet<'a>,
    level: u32,
    op: UnaryOp,
    arg: &'a Expr,
) -> Result<Option<Within<'a>>, AllocError>
    ensures { IfOk result (IsWithin S.schema S.table world.now known.now level (unary (unary_op_of op) (tree_of arg.entry.now))) }
{
    let Some(of) = typed_within(alloc, world, known, level, arg)? else {
        return Ok(None);
    };
    Ok(plainly_within(alloc, unary_type(op, &of.ty), Some(0)))
}

// An operator of two operands.
#[cycle(within)]
fn binary_within<'a, S: TypingSchema>(
    alloc: Global,
    world: &World<'_, S>,
    known: &CapabilitySet<'a>,
    level: u32,
    op: BinaryOp,
    arg1: &'a Expr,
    arg2: &'a Expr,
) -> Result<Option<Within<'a>>, AllocError>
    ensures { IfOk result (IsWithin S.schema S.table world.now known.now level (binary (binary_op_of op) (tree_of arg1.entry.now) (tree_of arg2.entry.now))) }
{
    let Some(first) = typed_within(alloc, world, known, level, arg1)? else {
        return Ok(None);
    };
    let Some(second) = typed_within(alloc, world, known, level, arg2)? else {
        return Ok(None);
    };
    let Some(steps) = operator_steps(op, first.steps, level) else {
        return Ok(None);
    };
    let judged = binary_judgement(alloc, world, known, op, arg1, arg2, &first.ty, &second.ty)?;
    Ok(judged_within(judged, Some(steps)))
}

// An attribute.
#[cycle(within)]
fn get_within<'a, S: TypingSchema>(
    alloc: Global,
    world: &World<'_, S>,
    known: &CapabilitySet<'a>,
    level: u32,
    expr: &'a Expr,
    attr: &RcStr,
) -> Result<Option<Within<'a>>, AllocError>
    ensures { IfOk result (IsWithin S.schema S.table world.now known.now level (get_attr (tree_of expr.entry.now) (rc_str_bytes attr.now))) }
{
    let Some(of) = typed_within(alloc, world, known, level, expr)? else {
        return Ok(None);
    };
    let Some(steps) = attribute_steps(&of.ty, of.steps, level) else {
        return Ok(None);
    };
    let ty = known_type(alloc, world, known, expr, &of.ty, attr)?;
    Ok(plainly_within(alloc, ty, steps))
}

// The presence of an attribute.
#[cycle(within)]
fn has_within<'a, S: TypingSchema>(
    alloc: Global,
    world: &World<'_, S>,
    known: &CapabilitySet<'a>,
    level: u32,
    expr: &'a Expr,
    attr: &RcStr,
) -> Result<Option<Within<'a>>, AllocError>
    ensures { IfOk result (IsWithin S.schema S.table world.now known.now level (has_attr (tree_of expr.entry.now) (rc_str_bytes attr.now))) }
{
    let Some(of) = typed_within(alloc, world, known, level, expr)? else {
        return Ok(None);
    };
    let Some(_) = attribute_steps(&of.ty, of.steps, level) else {
        return Ok(None);
    };
    let judged = attribute_judgement(alloc, world, expr, attr, &of.ty)?;
    Ok(judged_within(judged, Some(0)))
}

// A pattern.
#[cycle(within)]
fn like_within<'a, S: TypingSchema>(
    alloc: Global,
    world: &World<'_, S>,
    known: &CapabilitySet<'a>,
    level: u32,
    expr: &'a Expr,
    pattern: &Pattern,
) -> Result<Option<Within<'a>>, AllocError>
    ensures { IfOk result (IsWithin S.schema S.table world.now known.now level (like (tree_of expr.entry.now) (pattern_of pattern.now))) }
{
    let Some(of) = typed_within(alloc, world, known, level, expr)? else {
        return Ok(None);
    };
    Ok(plainly_within(alloc, like_type(&of.ty), Some(0)))
}

// A test of the entity type.
#[cycle(within)]
fn is_within<'a, S: TypingSchema>(
    alloc: Global,
    world: &World<'_, S>,
    known: &CapabilitySet<'a>,
    level: u32,
    expr: &'a Expr,
    kind: &EntityType,
) -> Result<Option<Within<'a>>, AllocError>
    ensures { IfOk result (IsWithin S.schema S.table world.now known.now level (is_type (tree_of expr.entry.now) (type_name_of kind.now))) }
{
    let Some(of) = typed_within(alloc, world, known, level, expr)? else {
        return Ok(None);
    };
    Ok(plainly_within(alloc, is_type_type(kind, &of.ty), Some(0)))
}

// A set.
#[cycle(within)]
fn set_within<'a, S: TypingSchema>(
    alloc: Global,
    world: &World<'_, S>,
    known: &CapabilitySet<'a>,
    level: u32,
    members: &'a [Expr],
) -> Result<Option<Within<'a>>, AllocError>
    ensures { IfOk result (IsWithin S.schema S.table world.now known.now level (set_literal (trees (map tree_of members.entry.now)))) }
{
    let Some(row) = all_within(alloc, world, known, level, members)? else {
        return Ok(None);
    };
    let types = lent(alloc, row.as_slice())?;
    let ty = set_literal_type(alloc, world.mode, types.as_slice())?;
    Ok(plainly_within(alloc, ty, Some(0)))
}

// The types of these expressions, one after the other, if each has one and nothing in it reaches further than the level.
#[cycle(within)]
fn all_within<'a, S: TypingSchema>(
    alloc: Global,
    world: &World<'_, S>,
    known: &CapabilitySet<'a>,
    level: u32,
    exprs: &'a [Expr],
) -> Result<Option<Vec<Type>>, AllocError>
    ensures { IfOk result (AreWithin S.schema S.table world.now known.now level exprs.entry.now) }
{
    let mut types = Vec::with_capacity(alloc, exprs.len())?;
    for e in exprs {
        match typed_within(alloc, world, known, level, e)? {
            Some(of) => types.push(of.ty)?,
            None => return Ok(None),
        }
    }
    Ok(Some(types))
}

// These types, lent.
fn lent<'r>(alloc: Global, types: &'r [Type]) -> Result<Vec<&'r Type>, AllocError>
    ensures { IfOk result (λ ts. map (λ t. type_of t.now) ts.items ≡ map type_of types.entry.now) }
{
    let mut all = Vec::with_capacity(alloc, types.len())?;
    for ty in types {
        all.push(ty)?;
    }
    Ok(all)
}

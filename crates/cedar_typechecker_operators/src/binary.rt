//! Operators of two operands.

ghost use Rattle.std.specs.Prelude.{◌≡◌, option_map, IfOk};
ghost use Rattle.cedar_expr_model.specs.Tree.{binary};
ghost use Rattle.cedar_expr_leaves.specs.Operators.{binary_op_of};
ghost use Rattle.cedar_schema_types.specs.Types.{type_of};
ghost use Rattle.cedar_typechecker_model.specs.Typing.{plain};
ghost use Rattle.cedar_typechecker_environments.specs.Given.{GivesType};
ghost use Rattle.cedar_typechecker_answers.specs.Answers.{seen, judgement_seen};
ghost use Rattle.cedar_typechecker_answers.specs.Nodes.{Judges, node_of_two};
ghost use Rattle.cedar_typechecker_operators.specs.Operators.{binary_by, binary_judged_by, binary_judged_of, known_tag, tag_tested};

use crate::operators::tested;
use cedar_expr_leaves::BinaryOp;
use cedar_expr_names::Loc;
use cedar_expr_trees::{Expr, ExprKind};
use cedar_schema_types::Type;
use cedar_typechecker_answers::{
    Faults, Judged, TypecheckAnswer, TypingErrorKind, judged_node, no_type, shared_two,
};
use cedar_typechecker_environments::{Capability, CapabilitySet, TypingSchema, World};
use cedar_typechecker_rules::{
    equal_type, get_tag_type, has_tag_type, in_type, member_type, number_type, order_type,
    sets_type,
};
use std::alloc::{AllocError, Global};

/// The answer of an operator by those of its operands, where these facts are known.
pub fn binary_answer<'a, S: TypingSchema>(
    alloc: Global,
    world: &World<'_, S>,
    known: &CapabilitySet<'a>,
    faults: &mut Faults,
    place: Option<Loc>,
    op: BinaryOp,
    a: &'a Expr,
    b: &'a Expr,
    first: TypecheckAnswer<'a>,
    second: TypecheckAnswer<'a>,
) -> Result<TypecheckAnswer<'a>, AllocError>
    ensures { IfOk result (λ r. seen r ≡ binary_by S.schema S.table world.now known.now op a.entry.now b.entry.now first.entry second.entry) }
{
    let judged = operands_judgement(alloc, world, known, op, a, b, &first, &second)?;
    match (first, second) {
        (
            TypecheckAnswer::Success {
                expr_type: arg1,
                ..
            },
            TypecheckAnswer::Success {
                expr_type: arg2,
                ..
            },
        ) => binary_node(alloc, faults, place, op, arg1, arg2, judged),
        _ => Ok(no_type()),
    }
}

// The node of an operator of these operands, by its judgement.
fn binary_node<'a>(
    alloc: Global,
    faults: &mut Faults,
    place: Option<Loc>,
    op: BinaryOp,
    arg1: Expr<Option<Type>>,
    arg2: Expr<Option<Type>>,
    judged: Option<Judged<'a>>,
) -> Result<TypecheckAnswer<'a>, AllocError>
    ensures { IfOk result (λ a. seen a ≡ node_of_two (binary (binary_op_of op)) arg1 arg2 (option_map judgement_seen judged.entry)) }
{
    let (arg1, arg2) = shared_two(alloc, arg1, arg2)?;
    let kind = ExprKind::BinaryApp { op, arg1, arg2 };
    judged_node(faults, kind, place, judged, wrong(op))
}

// The judgement of an operator by the answers of its operands.
fn operands_judgement<'a, S: TypingSchema>(
    alloc: Global,
    world: &World<'_, S>,
    known: &CapabilitySet<'a>,
    op: BinaryOp,
    a: &'a Expr,
    b: &'a Expr,
    first: &TypecheckAnswer<'a>,
    second: &TypecheckAnswer<'a>,
) -> Result<Option<Judged<'a>>, AllocError>
    ensures { IfOk result (Judges (binary_judged_by S.schema S.table world.now known.now op a.entry.now b.entry.now first.now second.now)) }
{
    match (first, second) {
        (
            TypecheckAnswer::Success {
                expr_type: arg1,
                ..
            },
            TypecheckAnswer::Success {
                expr_type: arg2,
                ..
            },
        ) => match (arg1.data(), arg2.data()) {
            (Some(t), Some(u)) => binary_judgement(alloc, world, known, op, a, b, t, u),
            _ => Ok(None),
        },
        _ => Ok(None),
    }
}

// What is wrong where an operator has no type.
fn wrong(op: BinaryOp) -> TypingErrorKind {
    match op {
        BinaryOp::Eq | BinaryOp::Contains => TypingErrorKind::IncompatibleTypes,
        BinaryOp::ContainsAll | BinaryOp::ContainsAny => TypingErrorKind::IncompatibleTypes,
        BinaryOp::GetTag => TypingErrorKind::UnsafeTagAccess,
        BinaryOp::Less | BinaryOp::LessEq => TypingErrorKind::UnexpectedType,
        BinaryOp::Add | BinaryOp::Sub | BinaryOp::Mul | BinaryOp::Rem =>
            TypingErrorKind::UnexpectedType,
        BinaryOp::In | BinaryOp::HasTag => TypingErrorKind::UnexpectedType,
    }
}

/// The judgement of an operator of operands of these types, where these facts are known.
pub fn binary_judgement<'a, S: TypingSchema>(
    alloc: Global,
    world: &World<'_, S>,
    known: &CapabilitySet<'a>,
    op: BinaryOp,
    a: &'a Expr,
    b: &'a Expr,
    t: &Type,
    u: &Type,
) -> Result<Option<Judged<'a>>, AllocError>
    ensures { IfOk result (Judges (binary_judged_of S.schema S.table world.now known.now op a.entry.now b.entry.now t.now u.now)) }
{
    match op {
        BinaryOp::GetTag => {
            let ty = known_tag_type(alloc, world, known, a, b, t, u)?;
            Ok(plain(alloc, ty))
        }
        BinaryOp::HasTag => tag_judgement(alloc, world, a, b, t, u),
        BinaryOp::Eq => Ok(plain(alloc, equal_type(alloc, world, a, b, t, u)?)),
        BinaryOp::Less | BinaryOp::LessEq => Ok(plain(alloc, order_type(world, t, u))),
        BinaryOp::Add | BinaryOp::Sub | BinaryOp::Mul | BinaryOp::Rem => Ok(plain(
            alloc,
            number_type(t, u),
        )),
        BinaryOp::In => Ok(plain(alloc, in_type(world, a, b, t, u))),
        BinaryOp::Contains => Ok(plain(alloc, member_type(alloc, world, t, u)?)),
        BinaryOp::ContainsAll | BinaryOp::ContainsAny => {
            Ok(plain(alloc, sets_type(alloc, world, t, u)?))
        }
    }
}

// The judgement of this type without facts.
fn plain<'a>(alloc: Global, ty: Option<Type>) -> Option<Judged<'a>>
    ensures { option_map judgement_seen result ≡ plain (option_map type_of ty) }
{
    match ty {
        Some(ty) => Some(Judged {
            ty,
            known: CapabilitySet::new(alloc),
        }),
        None => None,
    }
}

// The type of a tag that is one of the facts.
fn known_tag_type<'a, S: TypingSchema>(
    alloc: Global,
    world: &World<'_, S>,
    known: &CapabilitySet<'a>,
    a: &'a Expr,
    b: &'a Expr,
    t: &Type,
    u: &Type,
) -> Result<Option<Type>, AllocError>
    ensures { IfOk result (GivesType (known_tag S.schema S.table world.now known.now a.entry.now b.entry.now t.now u.now)) }
{
    let is_known = known.contains(&Capability::new_borrowed_tag(a, b));
    get_tag_type(alloc, world, t, u, is_known)
}

// The judgement of a test of a tag.
fn tag_judgement<'a, S: TypingSchema>(
    alloc: Global,
    world: &World<'_, S>,
    a: &'a Expr,
    b: &'a Expr,
    t: &Type,
    u: &Type,
) -> Result<Option<Judged<'a>>, AllocError>
    ensures { IfOk result (Judges (tag_tested S.schema S.table world.now a.entry.now b.entry.now t.now u.now)) }
{
    let there = has_tag_type(world, t, u);
    tested(alloc, Capability::new_borrowed_tag(a, b), there)
}

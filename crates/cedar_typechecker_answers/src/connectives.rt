//! Conjunctions and disjunctions.

ghost use Rattle.std.specs.Prelude.{◌≡◌, Some, option_map, option_and_then, IfOk};
ghost use Rattle.cedar_expr_model.specs.Tree.{both, either};
ghost use Rattle.cedar_expr_trees.specs.Trees.{tree_of, data_of};
ghost use Rattle.cedar_schema_model.specs.Types.{bool_type};
ghost use Rattle.cedar_schema_types.specs.Types.{type_of};
ghost use Rattle.cedar_schema_types.specs.Kinds.{bool_type_of};
ghost use Rattle.cedar_typechecker_environments.specs.Facts.{facts_of};
ghost use Rattle.cedar_typechecker_model.specs.Facts.{no_facts};
ghost use Rattle.cedar_typechecker_model.specs.Typing.{conjoined, disjoined};
ghost use Rattle.cedar_typechecker_model.specs.Typed.{and_step as model_and_step, or_step as model_or_step, and_typed, or_typed, conjoined_by, disjoined_by};
ghost use Rattle.cedar_typechecker_answers.specs.Answers.{seen, typed_at, judgement_seen, and_judged, or_judged};
ghost use Rattle.cedar_typechecker_answers.specs.Steps.{goes_on_with, step_seen, true_where_true};
ghost use Rattle.cedar_typechecker_answers.specs.Nodes.{Judges, node_of_two, node_of_first, by_two};

use crate::answer::{Judged, TypecheckAnswer, judged_node};
use crate::faults::{Faults, TypingErrorKind, failed, no_type};
use crate::parts::shared_two;
use crate::untyped;
use cedar_expr_names::Loc;
use cedar_expr_trees::{Expr, ExprKind};
use cedar_schema_types::{BoolType, Type};
use cedar_typechecker_environments::CapabilitySet;
use std::alloc::{AllocError, Global};

/// What follows the left side: an answer, or going on to the right side with it and with what is known then.
#[derive(Drop)]
pub enum Step<'a> {
    /// This is the answer.
    Done(TypecheckAnswer<'a>),
    /// The right side is typed.
    GoesOn {
        /// The answer of the left side.
        left: TypecheckAnswer<'a>,
        /// What is known on the right side.
        known: CapabilitySet<'a>,
    },
}

/// What follows the left side of a conjunction: after False the right side isn't typed.
pub fn and_step<'a>(
    alloc: Global,
    known: &CapabilitySet<'a>,
    faults: &mut Faults,
    place: Option<Loc>,
    left: TypecheckAnswer<'a>,
    right: &Expr,
) -> Result<Step<'a>, AllocError>
    ensures { IfOk result (λ r. step_seen r ≡ model_and_step (facts_of known.now) (tree_of right.now) (seen left.entry)) }
{
    let TypecheckAnswer::Success {
        expr_type: expr,
        expr_capability: own,
    } = left
    else {
        return Ok(Step::Done(no_type()));
    };
    match expr.data() {
        Some(Type::Bool(BoolType::False)) => {
            let judged = Judged {
                ty: Type::Bool(BoolType::False),
                known: CapabilitySet::new(alloc),
            };
            Ok(Step::Done(and_left_alone(alloc, faults, place, expr, right, judged)?))
        }
        Some(Type::Bool(BoolType::True)) | Some(Type::Bool(BoolType::AnyBool)) => {
            let known = known.union(&own)?;
            Ok(Step::GoesOn {
                left: TypecheckAnswer::Success {
                    expr_type: expr,
                    expr_capability: own,
                },
                known,
            })
        }
        Some(Type::Never)
        | Some(Type::Long)
        | Some(Type::String)
        | Some(Type::Entity(_))
        | Some(Type::Set { .. })
        | Some(Type::Record { .. })
        | Some(Type::ExtensionType { .. })
        | None => {
            let kind = TypingErrorKind::UnexpectedType;
            Ok(Step::Done(failed(faults, kind, expr.source_loc())?))
        }
    }
}

// The answer of a conjunction by its left side alone.
fn and_left_alone<'a>(
    alloc: Global,
    faults: &mut Faults,
    place: Option<Loc>,
    left: Expr<Option<Type>>,
    right: &Expr,
    judged: Judged<'a>,
) -> Result<TypecheckAnswer<'a>, AllocError>
    ensures { IfOk result (λ a. seen a ≡ node_of_first both left (tree_of right.now) (Some (judgement_seen judged.entry))) }
{
    let right = untyped(alloc, right)?;
    and_node(alloc, faults, place, left, right, Some(judged))
}

// The node of a conjunction of these sides, by its judgement.
fn and_node<'a>(
    alloc: Global,
    faults: &mut Faults,
    place: Option<Loc>,
    left: Expr<Option<Type>>,
    right: Expr<Option<Type>>,
    judged: Option<Judged<'a>>,
) -> Result<TypecheckAnswer<'a>, AllocError>
    ensures { IfOk result (λ a. seen a ≡ node_of_two both left right (option_map judgement_seen judged.entry)) }
{
    let (left, right) = shared_two(alloc, left, right)?;
    let kind = ExprKind::And { left, right };
    judged_node(faults, kind, place, judged, TypingErrorKind::UnexpectedType)
}

/// The answer of a conjunction by those of both sides.
pub fn and_answer<'a>(
    alloc: Global,
    faults: &mut Faults,
    place: Option<Loc>,
    left: TypecheckAnswer<'a>,
    right: TypecheckAnswer<'a>,
) -> Result<TypecheckAnswer<'a>, AllocError>
    ensures { IfOk result (λ a. seen a ≡ by_two and_typed left.entry right.entry) }
{
    let judged = and_judgement(alloc, &left, &right)?;
    match (left, right) {
        (
            TypecheckAnswer::Success {
                expr_type: left,
                ..
            },
            TypecheckAnswer::Success {
                expr_type: right,
                ..
            },
        ) => and_node(alloc, faults, place, left, right, judged),
        _ => Ok(no_type()),
    }
}

// The judgement of a conjunction by the answers of both sides.
fn and_judgement<'a>(
    alloc: Global,
    left: &TypecheckAnswer<'a>,
    right: &TypecheckAnswer<'a>,
) -> Result<Option<Judged<'a>>, AllocError>
    ensures { IfOk result (Judges (option_and_then (λ x. option_and_then (and_judged x) (seen right.now)) (seen left.now))) }
{
    match (left, right) {
        (
            TypecheckAnswer::Success {
                expr_type: left,
                expr_capability: own,
            },
            TypecheckAnswer::Success {
                expr_type: right,
                expr_capability: other,
            },
        ) => match (left.data(), right.data()) {
            (Some(first), Some(second)) => conjoined(alloc, first, own, second, other),
            _ => Ok(None),
        },
        _ => Ok(None),
    }
}

/// The judgement of a conjunction of sides of these types.
pub fn conjoined<'a>(
    alloc: Global,
    left: &Type,
    own: &CapabilitySet<'a>,
    right: &Type,
    other: &CapabilitySet<'a>,
) -> Result<Option<Judged<'a>>, AllocError>
    ensures { IfOk result (Judges (conjoined_by (type_of left.now) (facts_of own.now) (type_of right.now) (facts_of other.now))) }
{
    match left {
        Type::Bool(b) => conjoined_bool(alloc, *b, own, right, other),
        Type::Never
        | Type::Long
        | Type::String
        | Type::Entity(_)
        | Type::Set { .. }
        | Type::Record { .. }
        | Type::ExtensionType { .. } => Ok(None),
    }
}

// The judgement of a conjunction whose left side is of this type of truth values.
fn conjoined_bool<'a>(
    alloc: Global,
    left: BoolType,
    own: &CapabilitySet<'a>,
    right: &Type,
    other: &CapabilitySet<'a>,
) -> Result<Option<Judged<'a>>, AllocError>
    ensures { IfOk result (Judges (conjoined (bool_type_of left) (facts_of own.now) (type_of right.now) (facts_of other.now))) }
{
    match right {
        Type::Bool(BoolType::False) => Ok(Some(Judged {
            ty: Type::Bool(BoolType::False),
            known: CapabilitySet::new(alloc),
        })),
        Type::Bool(BoolType::True) => Ok(Some(Judged {
            ty: Type::Bool(true_where_true(left)),
            known: own.union(other)?,
        })),
        Type::Bool(BoolType::AnyBool) => Ok(Some(Judged {
            ty: Type::Bool(BoolType::AnyBool),
            known: own.union(other)?,
        })),
        Type::Never
        | Type::Long
        | Type::String
        | Type::Entity(_)
        | Type::Set { .. }
        | Type::Record { .. }
        | Type::ExtensionType { .. } => Ok(None),
    }
}

// True of True, and else the type of both truth values.
fn true_where_true(b: BoolType) -> BoolType
    ensures { bool_type_of result ≡ true_where_true (bool_type_of b) }
{
    match b {
        BoolType::True => BoolType::True,
        BoolType::False | BoolType::AnyBool => BoolType::AnyBool,
    }
}

/// What follows the left side of a disjunction: after True the right side isn't typed.
pub fn or_step<'a>(
    alloc: Global,
    faults: &mut Faults,
    place: Option<Loc>,
    left: TypecheckAnswer<'a>,
    right: &Expr,
) -> Result<Step<'a>, AllocError>
    ensures { IfOk result (λ r. step_seen r ≡ model_or_step (tree_of right.now) (seen left.entry)) }
{
    let TypecheckAnswer::Success {
        expr_type: expr,
        expr_capability: own,
    } = left
    else {
        return Ok(Step::Done(no_type()));
    };
    match expr.data() {
        Some(Type::Bool(BoolType::True)) => {
            let judged = Judged {
                ty: Type::Bool(BoolType::True),
                known: own,
            };
            Ok(Step::Done(or_left_alone(alloc, faults, place, expr, right, judged)?))
        }
        Some(Type::Bool(BoolType::False)) => Ok(goes_on(alloc, expr, own)),
        Some(Type::Bool(BoolType::AnyBool)) => Ok(goes_on(alloc, expr, own)),
        Some(Type::Never)
        | Some(Type::Long)
        | Some(Type::String)
        | Some(Type::Entity(_))
        | Some(Type::Set { .. })
        | Some(Type::Record { .. })
        | Some(Type::ExtensionType { .. })
        | None => {
            let kind = TypingErrorKind::UnexpectedType;
            Ok(Step::Done(failed(faults, kind, expr.source_loc())?))
        }
    }
}

// The right side is typed, with nothing more known than before.
fn goes_on<'a>(
    alloc: Global,
    expr_type: Expr<Option<Type>>,
    expr_capability: CapabilitySet<'a>,
) -> Step<'a>
    ensures { step_seen result ≡ goes_on_with (typed_at expr_type (facts_of expr_capability.entry) (data_of expr_type)) no_facts }
{
    Step::GoesOn {
        left: TypecheckAnswer::Success {
            expr_type,
            expr_capability,
        },
        known: CapabilitySet::new(alloc),
    }
}

// The answer of a disjunction by its left side alone.
fn or_left_alone<'a>(
    alloc: Global,
    faults: &mut Faults,
    place: Option<Loc>,
    left: Expr<Option<Type>>,
    right: &Expr,
    judged: Judged<'a>,
) -> Result<TypecheckAnswer<'a>, AllocError>
    ensures { IfOk result (λ a. seen a ≡ node_of_first either left (tree_of right.now) (Some (judgement_seen judged.entry))) }
{
    let right = untyped(alloc, right)?;
    or_node(alloc, faults, place, left, right, Some(judged))
}

// The node of a disjunction of these sides, by its judgement.
fn or_node<'a>(
    alloc: Global,
    faults: &mut Faults,
    place: Option<Loc>,
    left: Expr<Option<Type>>,
    right: Expr<Option<Type>>,
    judged: Option<Judged<'a>>,
) -> Result<TypecheckAnswer<'a>, AllocError>
    ensures { IfOk result (λ a. seen a ≡ node_of_two either left right (option_map judgement_seen judged.entry)) }
{
    let (left, right) = shared_two(alloc, left, right)?;
    let kind = ExprKind::Or { left, right };
    judged_node(faults, kind, place, judged, TypingErrorKind::UnexpectedType)
}

/// The answer of a disjunction by those of both sides.
pub fn or_answer<'a>(
    alloc: Global,
    faults: &mut Faults,
    place: Option<Loc>,
    left: TypecheckAnswer<'a>,
    right: TypecheckAnswer<'a>,
) -> Result<TypecheckAnswer<'a>, AllocError>
    ensures { IfOk result (λ a. seen a ≡ by_two or_typed left.entry right.entry) }
{
    match (left, right) {
        (
            TypecheckAnswer::Success {
                expr_type: left,
                expr_capability: own,
            },
            TypecheckAnswer::Success {
                expr_type: right,
                expr_capability: other,
            },
        ) => {
            let judged = or_judgement(alloc, &left, own, &right, other)?;
            or_node(alloc, faults, place, left, right, judged)
        }
        _ => Ok(no_type()),
    }
}

// The judgement of a disjunction of these sides, where both have types.
fn or_judgement<'a>(
    alloc: Global,
    left: &Expr<Option<Type>>,
    own: CapabilitySet<'a>,
    right: &Expr<Option<Type>>,
    other: CapabilitySet<'a>,
) -> Result<Option<Judged<'a>>, AllocError>
    ensures { IfOk result (Judges (or_judged (data_of left.now) (facts_of own.entry) (data_of right.now) (facts_of other.entry))) }
{
    match (left.data(), right.data()) {
        (Some(first), Some(second)) => disjoined(alloc, first, own, second, other),
        _ => Ok(None),
    }
}

/// The judgement of a disjunction of sides of these types.
pub fn disjoined<'a>(
    alloc: Global,
    left: &Type,
    own: CapabilitySet<'a>,
    right: &Type,
    other: CapabilitySet<'a>,
) -> Result<Option<Judged<'a>>, AllocError>
    ensures { IfOk result (Judges (disjoined_by (type_of left.now) (facts_of own.entry) (type_of right.now) (facts_of other.entry))) }
{
    match left {
        Type::Bool(b) => disjoined_bool(alloc, *b, own, right, other),
        Type::Never
        | Type::Long
        | Type::String
        | Type::Entity(_)
        | Type::Set { .. }
        | Type::Record { .. }
        | Type::ExtensionType { .. } => Ok(None),
    }
}

// The judgement of a disjunction whose left side is of this type of truth values.
fn disjoined_bool<'a>(
    alloc: Global,
    left: BoolType,
    own: CapabilitySet<'a>,
    right: &Type,
    other: CapabilitySet<'a>,
) -> Result<Option<Judged<'a>>, AllocError>
    ensures { IfOk result (Judges (disjoined (bool_type_of left) (facts_of own.entry) (type_of right.now) (facts_of other.entry))) }
{
    match right {
        Type::Bool(second) => Ok(Some(disjoined_bools(alloc, left, own, *second, other)?)),
        Type::Never
        | Type::Long
        | Type::String
        | Type::Entity(_)
        | Type::Set { .. }
        | Type::Record { .. }
        | Type::ExtensionType { .. } => Ok(None),
    }
}

// The judgement of a disjunction of sides of these types of truth values.
fn disjoined_bools<'a>(
    alloc: Global,
    left: BoolType,
    own: CapabilitySet<'a>,
    right: BoolType,
    other: CapabilitySet<'a>,
) -> Result<Judged<'a>, AllocError>
    ensures { IfOk result (λ j. Some (judgement_seen j) ≡ disjoined (bool_type_of left) (facts_of own.entry) (bool_type (bool_type_of right)) (facts_of other.entry)) }
{
    match (left, right) {
        (BoolType::True, BoolType::True)
        | (BoolType::AnyBool, BoolType::True)
        | (BoolType::False, BoolType::True)
        | (BoolType::False, BoolType::False)
        | (BoolType::False, BoolType::AnyBool) => Ok(Judged {
            ty: Type::Bool(right),
            known: other,
        }),
        (BoolType::True, BoolType::False) | (BoolType::AnyBool, BoolType::False) => Ok(Judged {
            ty: Type::Bool(left),
            known: own,
        }),
        (BoolType::True, BoolType::AnyBool) | (BoolType::AnyBool, BoolType::AnyBool) => Ok(
            Judged {
                ty: Type::Bool(BoolType::AnyBool),
                known: own.intersect(&other)?,
            },
        ),
    }
}

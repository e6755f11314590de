//! Choices.

ghost use Rattle.std.specs.Prelude.{◌≡◌, option_map, IfOk};
ghost use Rattle.cedar_expr_model.specs.Tree.{choice};
ghost use Rattle.cedar_expr_trees.specs.Trees.{tree_of, data_of};
ghost use Rattle.cedar_typechecker_environments.specs.Facts.{facts_of};
ghost use Rattle.cedar_typechecker_model.specs.Typed.{choice_step as model_choice_step, first_typed, second_typed};
ghost use Rattle.cedar_typechecker_answers.specs.Answers.{seen, known_of_both, judgement_seen, branch_judged};
ghost use Rattle.cedar_typechecker_answers.specs.Steps.{choice_step_seen};
ghost use Rattle.cedar_typechecker_answers.specs.Nodes.{Judges, node_of_three, by_two};

use crate::answer::{Judged, TypecheckAnswer, judged_node};
use crate::faults::{Faults, TypingErrorKind, failed, no_type};
use crate::parts::shared_three;
use crate::untyped;
use cedar_expr_names::Loc;
use cedar_expr_trees::{Expr, ExprKind};
use cedar_schema_types::{BoolType, Type};
use cedar_typechecker_environments::CapabilitySet;
use std::alloc::{AllocError, Global};

/// What follows the test of a choice: one of the branches, or both.
#[derive(Drop)]
pub enum ChoiceStep<'a> {
    /// The test has no type of truth values.
    Refused,
    /// The first branch alone is typed.
    First {
        /// The answer of the test.
        test: TypecheckAnswer<'a>,
        /// What is known in the branch.
        known: CapabilitySet<'a>,
    },
    /// The second branch alone is typed.
    Second {
        /// The answer of the test.
        test: TypecheckAnswer<'a>,
    },
    /// Both are typed.
    Both {
        /// The answer of the test.
        test: TypecheckAnswer<'a>,
        /// What is known in the first branch.
        known: CapabilitySet<'a>,
    },
}

/// What follows the test of a choice: after True and False the branch that is taken alone is typed.
pub fn choice_step<'a>(
    known: &CapabilitySet<'a>,
    faults: &mut Faults,
    test: TypecheckAnswer<'a>,
) -> Result<ChoiceStep<'a>, AllocError>
    ensures { IfOk result (λ r. choice_step_seen r ≡ model_choice_step (facts_of known.now) (seen test.entry)) }
{
    let TypecheckAnswer::Success {
        expr_type: expr,
        expr_capability: own,
    } = test
    else {
        return Ok(ChoiceStep::Refused);
    };
    match expr.data() {
        Some(Type::Bool(BoolType::True)) => {
            let known = known.union(&own)?;
            let test = TypecheckAnswer::Success {
                expr_type: expr,
                expr_capability: own,
            };
            Ok(ChoiceStep::First { test, known })
        }
        Some(Type::Bool(BoolType::False)) => {
            let test = TypecheckAnswer::Success {
                expr_type: expr,
                expr_capability: own,
            };
            Ok(ChoiceStep::Second { test })
        }
        Some(Type::Bool(BoolType::AnyBool)) => {
            let known = known.union(&own)?;
            let test = TypecheckAnswer::Success {
                expr_type: expr,
                expr_capability: own,
            };
            Ok(ChoiceStep::Both { test, known })
        }
        Some(Type::Never)
        | Some(Type::Long)
        | Some(Type::String)
        | Some(Type::Entity(_))
        | Some(Type::Set { .. })
        | Some(Type::Record { .. })
        | Some(Type::ExtensionType { .. })
        | None => {
            failed(faults, TypingErrorKind::UnexpectedType, expr.source_loc())?;
            Ok(ChoiceStep::Refused)
        }
    }
}

/// The answer of a choice by those of a test of type True and of the first branch.
pub fn first_answer<'a>(
    alloc: Global,
    faults: &mut Faults,
    place: Option<Loc>,
    test: TypecheckAnswer<'a>,
    first: TypecheckAnswer<'a>,
    second: &Expr,
) -> Result<TypecheckAnswer<'a>, AllocError>
    ensures { IfOk result (λ a. seen a ≡ by_two (first_typed (tree_of second.now)) test.entry first.entry) }
{
    let second = untyped(alloc, second)?;
    let known = known_of_both(alloc, &test, &first)?;
    match (test, first) {
        (
            TypecheckAnswer::Success {
                expr_type: test,
                ..
            },
            TypecheckAnswer::Success {
                expr_type: first,
                ..
            },
        ) => first_node(alloc, faults, place, test, first, second, known),
        _ => Ok(no_type()),
    }
}

// What holds where both expressions are true.
fn known_of_both<'a>(
    alloc: Global,
    test: &TypecheckAnswer<'a>,
    first: &TypecheckAnswer<'a>,
) -> Result<CapabilitySet<'a>, AllocError>
    ensures { IfOk result (λ r. facts_of r ≡ known_of_both test.now first.now) }
{
    match (test, first) {
        (
            TypecheckAnswer::Success {
                expr_capability: own,
                ..
            },
            TypecheckAnswer::Success {
                expr_capability: other,
                ..
            },
        ) => own.union(other),
        _ => Ok(CapabilitySet::new(alloc)),
    }
}

// The node of a choice of which the first branch is typed.
fn first_node<'a>(
    alloc: Global,
    faults: &mut Faults,
    place: Option<Loc>,
    test: Expr<Option<Type>>,
    first: Expr<Option<Type>>,
    second: Expr<Option<Type>>,
    known: CapabilitySet<'a>,
) -> Result<TypecheckAnswer<'a>, AllocError>
    ensures { IfOk result (λ a. seen a ≡ node_of_three choice test first second (branch_judged (data_of test) (data_of first) (facts_of known.entry))) }
{
    let judged = branch_judgement(&test, &first, known)?;
    let wrong = TypingErrorKind::UnexpectedType;
    choice_node(alloc, faults, place, test, first, second, judged, wrong)
}

/// The answer of a choice by those of a test of type False and of the second branch.
pub fn second_answer<'a>(
    alloc: Global,
    faults: &mut Faults,
    place: Option<Loc>,
    test: TypecheckAnswer<'a>,
    first: &Expr,
    second: TypecheckAnswer<'a>,
) -> Result<TypecheckAnswer<'a>, AllocError>
    ensures { IfOk result (λ a. seen a ≡ by_two (second_typed (tree_of first.now)) test.entry second.entry) }
{
    let first = untyped(alloc, first)?;
    match (test, second) {
        (
            TypecheckAnswer::Success {
                expr_type: test,
                ..
            },
            TypecheckAnswer::Success {
                expr_type: second,
                expr_capability: known,
            },
        ) => second_node(alloc, faults, place, test, first, second, known),
        _ => Ok(no_type()),
    }
}

// The node of a choice of which the second branch is typed.
fn second_node<'a>(
    alloc: Global,
    faults: &mut Faults,
    place: Option<Loc>,
    test: Expr<Option<Type>>,
    first: Expr<Option<Type>>,
    second: Expr<Option<Type>>,
    known: CapabilitySet<'a>,
) -> Result<TypecheckAnswer<'a>, AllocError>
    ensures { IfOk result (λ a. seen a ≡ node_of_three choice test first second (branch_judged (data_of test) (data_of second) (facts_of known.entry))) }
{
    let judged = branch_judgement(&test, &second, known)?;
    let wrong = TypingErrorKind::UnexpectedType;
    choice_node(alloc, faults, place, test, first, second, judged, wrong)
}

// The judgement of a choice by the branch that is taken, where the test and the branch have types.
fn branch_judgement<'a>(
    test: &Expr<Option<Type>>,
    branch: &Expr<Option<Type>>,
    known: CapabilitySet<'a>,
) -> Result<Option<Judged<'a>>, AllocError>
    ensures { IfOk result (Judges (branch_judged (data_of test.now) (data_of branch.now) (facts_of known.entry))) }
{
    match (test.data(), branch.data()) {
        (Some(_), Some(ty)) => Ok(Some(Judged {
            ty: ty.clone()?,
            known,
        })),
        _ => Ok(None),
    }
}

/// The node of a choice of these parts, by its judgement. Where there is none, what is wrong is noted at its place.
pub fn choice_node<'a>(
    alloc: Global,
    faults: &mut Faults,
    place: Option<Loc>,
    test: Expr<Option<Type>>,
    first: Expr<Option<Type>>,
    second: Expr<Option<Type>>,
    judged: Option<Judged<'a>>,
    wrong: TypingErrorKind,
) -> Result<TypecheckAnswer<'a>, AllocError>
    ensures { IfOk result (λ a. seen a ≡ node_of_three choice test first second (option_map judgement_seen judged.entry)) }
{
    let (test_expr, then_expr, else_expr) = shared_three(alloc, test, first, second)?;
    let kind = ExprKind::If {
        test_expr,
        then_expr,
        else_expr,
    };
    judged_node(faults, kind, place, judged, wrong)
}

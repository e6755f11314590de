//! Choices whose branches are both typed.

ghost use Rattle.std.specs.Prelude.{◌≡◌, option_map, option_and_then, IfOk};
ghost use Rattle.cedar_schema_types.specs.Types.{type_of};
ghost use Rattle.cedar_typechecker_environments.specs.Facts.{facts_of};
ghost use Rattle.cedar_typechecker_environments.specs.Settings.{setting_of};
ghost use Rattle.cedar_typechecker_model.specs.Typing.{chosen as model_chosen};
ghost use Rattle.cedar_typechecker_model.specs.Typed.{chosen_typed};
ghost use Rattle.cedar_typechecker_answers.specs.Answers.{seen, judgement_seen};
ghost use Rattle.cedar_typechecker_operators.specs.Choices.{chosen_judged, chosen_noted, chosen_seen};

use cedar_expr_names::Loc;
use cedar_expr_trees::Expr;
use cedar_schema_types::Type;
use cedar_typechecker_answers::{
    Faults, Judged, TypecheckAnswer, TypingErrorKind, choice_node, no_type,
};
use cedar_typechecker_environments::{CapabilitySet, TypingSchema, World};
use cedar_typechecker_rules::chosen_type;
use std::alloc::{AllocError, Global};

/// The answer of a choice by those of its test and both branches.
pub fn chosen_answer<'a, S: TypingSchema>(
    alloc: Global,
    world: &World<'_, S>,
    faults: &mut Faults,
    place: Option<Loc>,
    test: TypecheckAnswer<'a>,
    first: TypecheckAnswer<'a>,
    second: TypecheckAnswer<'a>,
) -> Result<TypecheckAnswer<'a>, AllocError>
    ensures { IfOk result (λ a. seen a ≡ option_and_then (λ x. option_and_then (λ y. option_and_then (chosen_typed (setting_of S.schema S.table world.now) x y) (seen second.entry)) (seen first.entry)) (seen test.entry)) }
{
    let judged = chosen_judgement(alloc, world, &test, &first, &second)?;
    judged_answer(alloc, faults, place, test, first, second, judged)
}

// The answer of a choice by those of its test and both branches, and its judgement.
fn judged_answer<'a>(
    alloc: Global,
    faults: &mut Faults,
    place: Option<Loc>,
    test: TypecheckAnswer<'a>,
    first: TypecheckAnswer<'a>,
    second: TypecheckAnswer<'a>,
    judged: Option<Judged<'a>>,
) -> Result<TypecheckAnswer<'a>, AllocError>
    ensures { IfOk result (λ a. seen a ≡ chosen_seen test.entry first.entry second.entry (option_map judgement_seen judged.entry)) }
{
    match test {
        TypecheckAnswer::Success {
            expr_type: test,
            ..
        } => chosen_of(alloc, faults, place, test, first, second, judged),
        TypecheckAnswer::Fail { .. } => Ok(no_type()),
    }
}

// The answer of a choice by its test, the answers of its branches, and its judgement.
fn chosen_of<'a>(
    alloc: Global,
    faults: &mut Faults,
    place: Option<Loc>,
    test: Expr<Option<Type>>,
    first: TypecheckAnswer<'a>,
    second: TypecheckAnswer<'a>,
    judged: Option<Judged<'a>>,
) -> Result<TypecheckAnswer<'a>, AllocError>
    ensures { IfOk result (λ a. seen a ≡ chosen_noted test first.entry second.entry (option_map judgement_seen judged.entry)) }
{
    match (first, second) {
        (
            TypecheckAnswer::Success {
                expr_type: first,
                ..
            },
            TypecheckAnswer::Success {
                expr_type: second,
                ..
            },
        ) => {
            let wrong = TypingErrorKind::IncompatibleTypes;
            choice_node(alloc, faults, place, test, first, second, judged, wrong)
        }
        _ => Ok(no_type()),
    }
}

// The judgement of a choice, where its test and both branches have types.
fn chosen_judgement<'a, S: TypingSchema>(
    alloc: Global,
    world: &World<'_, S>,
    test: &TypecheckAnswer<'a>,
    first: &TypecheckAnswer<'a>,
    second: &TypecheckAnswer<'a>,
) -> Result<Option<Judged<'a>>, AllocError>
    ensures { IfOk result (λ j. option_map judgement_seen j ≡ chosen_judged (setting_of S.schema S.table world.now) (seen test.now) (seen first.now) (seen second.now)) }
{
    let TypecheckAnswer::Success {
        expr_type: test,
        expr_capability: own,
    } = test
    else {
        return Ok(None);
    };
    let TypecheckAnswer::Success {
        expr_type: first,
        expr_capability: then_known,
    } = first
    else {
        return Ok(None);
    };
    let TypecheckAnswer::Success {
        expr_type: second,
        expr_capability: else_known,
    } = second
    else {
        return Ok(None);
    };
    match (test.data(), first.data(), second.data()) {
        (Some(_), Some(t), Some(u)) => {
            let then_known = own.union(then_known)?;
            chosen(alloc, world, t, &then_known, u, else_known)
        }
        _ => Ok(None),
    }
}

/// The judgement of a choice of branches of these types and facts.
pub fn chosen<'a, S: TypingSchema>(
    alloc: Global,
    world: &World<'_, S>,
    t: &Type,
    own: &CapabilitySet<'a>,
    u: &Type,
    other: &CapabilitySet<'a>,
) -> Result<Option<Judged<'a>>, AllocError>
    ensures { IfOk result (λ j. option_map judgement_seen j ≡ model_chosen (setting_of S.schema S.table world.now) (type_of t.now) (facts_of own.now) (type_of u.now) (facts_of other.now)) }
{
    match chosen_type(alloc, world.mode, t, u)? {
        Some(ty) => Ok(Some(Judged {
            ty,
            known: own.intersect(other)?,
        })),
        None => Ok(None),
    }
}

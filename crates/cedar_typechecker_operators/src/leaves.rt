//! Literals, variables and slots.

ghost use Rattle.std.specs.Prelude.{◌≡◌, IfOk};
ghost use Rattle.cedar_expr_leaves.specs.Literals.{literal_of};
ghost use Rattle.cedar_expr_leaves.specs.Slots.{slot_of};
ghost use Rattle.cedar_expr_leaves.specs.Variables.{var_of};
ghost use Rattle.cedar_expr_model.specs.Tree.{lit, var, slot};
ghost use Rattle.cedar_typechecker_model.specs.Facts.{no_facts};
ghost use Rattle.cedar_typechecker_environments.specs.Settings.{setting_of};
ghost use Rattle.cedar_typechecker_model.specs.Typed.{typed};
ghost use Rattle.cedar_typechecker_answers.specs.Answers.{seen};

use cedar_expr_leaves::{Literal, SlotId, Var};
use cedar_expr_names::Loc;
use cedar_expr_trees::ExprKind;
use cedar_typechecker_answers::{Faults, TypecheckAnswer, TypingErrorKind, plain_node};
use cedar_typechecker_environments::{TypingSchema, World};
use cedar_typechecker_rules::{literal_type, slot_type, var_type};
use std::alloc::{AllocError, Global};

/// The answer of a literal.
pub fn literal_answer<'a, S: TypingSchema>(
    alloc: Global,
    world: &World<'_, S>,
    faults: &mut Faults,
    place: Option<Loc>,
    literal: &Literal,
) -> Result<TypecheckAnswer<'a>, AllocError>
    ensures { IfOk result (λ a. seen a ≡ typed (setting_of S.schema S.table world.now) no_facts (lit (literal_of literal.now))) }
{
    let ty = literal_type(alloc, world, literal)?;
    let kind = ExprKind::Lit(literal.clone()?);
    plain_node(
        alloc,
        faults,
        kind,
        place,
        ty,
        TypingErrorKind::UnexpectedType,
    )
}

/// The answer of a variable.
pub fn variable_answer<'a, S: TypingSchema>(
    alloc: Global,
    world: &World<'_, S>,
    faults: &mut Faults,
    place: Option<Loc>,
    v: Var,
) -> Result<TypecheckAnswer<'a>, AllocError>
    ensures { IfOk result (λ a. seen a ≡ typed (setting_of S.schema S.table world.now) no_facts (var (var_of v))) }
{
    let ty = var_type(alloc, world, v)?;
    let wrong = TypingErrorKind::UnexpectedType;
    plain_node(alloc, faults, ExprKind::Var(v), place, Some(ty), wrong)
}

/// The answer of a slot.
pub fn slot_answer<'a, S: TypingSchema>(
    alloc: Global,
    world: &World<'_, S>,
    faults: &mut Faults,
    place: Option<Loc>,
    s: SlotId,
) -> Result<TypecheckAnswer<'a>, AllocError>
    ensures { IfOk result (λ a. seen a ≡ typed (setting_of S.schema S.table world.now) no_facts (slot (slot_of s))) }
{
    let ty = slot_type(alloc, world, s)?;
    let wrong = TypingErrorKind::UnexpectedType;
    plain_node(alloc, faults, ExprKind::Slot(s), place, Some(ty), wrong)
}

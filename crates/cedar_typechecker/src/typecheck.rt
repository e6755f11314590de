//! Expressions typed on their own.

ghost use Rattle.std.specs.Prelude.{◌≡◌, is_some, IfOk, OnErr};
ghost use Rattle.cedar_expr_trees.specs.Trees.{tree_of};
ghost use Rattle.cedar_typechecker_answers.specs.Answers.{seen};
ghost use Rattle.cedar_typechecker_operators.specs.Operators.{IsAnswer};
ghost use Rattle.cedar_typechecker.specs.Faults.{AddsFaults};

use cedar_expr_trees::Expr;
use cedar_typechecker_answers::{Faults, TypeFault, TypecheckAnswer, TypingErrorKind};
use cedar_typechecker_environments::{CapabilitySet, TypingSchema, World};
use cedar_typechecker_operators::typecheck as typed;
use std::alloc::{AllocError, Global};

/// The expression typed where these facts are known: with its type and those of its parts that typing reaches, and what holds where it
/// is true. Where it has no type, what is wrong with it is appended to the faults, one at least. Fails only when out of memory, and then
/// the faults are as before.
pub fn typecheck<'a, S: TypingSchema>(
    alloc: Global,
    world: &World<'_, S>,
    known: &CapabilitySet<'a>,
    faults: &mut Faults,
    expr: &'a Expr,
) -> Result<TypecheckAnswer<'a>, AllocError>
    ensures answer { IfOk result (IsAnswer S.schema S.table world.now known.now (tree_of expr.entry.now)) }
    ensures faults { IfOk result (λ a. AddsFaults (seen a) faults.old.items faults.new.items) }
    ensures unchanged { OnErr result (faults.new.items ≡ faults.old.items) }
{
    let mut own = Vec::new(alloc);
    let answer = typed(alloc, world, known, &mut own, expr)?;
    if own.is_empty() && !is_typed(&answer) {
        let kind = TypingErrorKind::UnexpectedType;
        let source_loc = expr.source_loc();
        own.push(TypeFault { kind, source_loc })?;
    }
    faults.append(&mut own)?;
    Ok(answer)
}

// Whether the answer gives a type.
fn is_typed(answer: &TypecheckAnswer<'_>) -> bool
    ensures { result ≡ is_some (seen answer.now) }
{
    match answer {
        TypecheckAnswer::Success { expr_type, .. } => expr_type.data().is_some(),
        TypecheckAnswer::Fail { .. } => false,
    }
}

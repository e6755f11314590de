//! What is left of a policy.

ghost use Rattle.std.specs.Prelude.{◌≡◌, Ok, Err, IfOk};
ghost use Rattle.cedar_expr_model.specs.Tree.{Tree};
ghost use Rattle.cedar_expr_trees.specs.Trees.{tree_of};
ghost use Rattle.cedar_store_model.specs.Policy.{binding_of};
ghost use Rattle.cedar_store_parts.specs.Parts.{bindings_of};
ghost use Rattle.cedar_store_policies.specs.Policies.{policy_of};
ghost use Rattle.cedar_evaluator_model.specs.Scope.{Left as ModelLeft};
ghost use Rattle.cedar_evaluator_model.specs.Steps.{truth_left};
ghost use Rattle.cedar_evaluator_model.specs.Response.{verdict as verdict_of, slots_bound};
ghost use Rattle.cedar_evaluator_core.specs.Evaluators.{IsVerdict};
ghost use Rattle.cedar_evaluator.specs.Asked.{ForEvaluator};
ghost use Rattle.cedar_evaluator.specs.Verdicts.{with_residual, IsLeft};

use crate::slots::bind_slots;
use cedar_evaluator_core::Evaluator;
use cedar_evaluator_errors::EvaluationError;
use cedar_evaluator_operators::FunctionTable;
use cedar_expr_trees::Expr;
use cedar_store_parts::SlotEnv;
use cedar_store_policies::Policy;
use either::Either;
use std::alloc::{AllocError, Global};

// What is left of a policy's condition.
#[derive(Drop)]
pub(crate) enum Verdict {
    // It is true.
    True,
    // It is false.
    False,
    // This expression is left of it.
    Residual(Expr),
    // It didn't evaluate.
    Erred(EvaluationError),
}

// What is left of the policy's condition, with its slots bound in it. Fails only when out of memory.
pub(crate) fn verdict_on<T: FunctionTable>(
    alloc: Global,
    evaluator: &Evaluator<'_, T>,
    policy: &Policy,
) -> Result<Verdict, AllocError>
    ensures { ForEvaluator T.table T.answers_as evaluator.now (λ s n. IfOk result (IsLeft (verdict_of s n (policy_of policy.now)))) }
{
    match evaluator.partial_evaluate(alloc, policy) {
        Ok(left) => kept(alloc, left, policy.env()),
        Err(error) => erred(error),
    }
}

// A truth value, or a residual with these slots bound in it. Fails only when out of memory.
fn kept(alloc: Global, left: Either<bool, Expr>, slots: &SlotEnv) -> Result<Verdict, AllocError>
    ensures { (l : ModelLeft) → IsVerdict l (Ok left) → IfOk result (IsLeft (with_residual (slots_bound (binding_of (bindings_of slots.now))) l)) }
{
    match left {
        Either::Left(b) => Ok(settled(b)),
        Either::Right(e) => Ok(Verdict::Residual(bound(alloc, &e, slots)?)),
    }
}

// A truth value.
fn settled(b: bool) -> Verdict
    ensures { (f : Tree → Tree) (l : ModelLeft) → l ≡ truth_left b → IsLeft (with_residual f l) result }
{
    if b { Verdict::True } else { Verdict::False }
}

// An error. Fails only when out of memory.
fn erred(error: EvaluationError) -> Result<Verdict, AllocError>
    ensures { (f : Tree → Tree) (l : ModelLeft) → IsVerdict l (Err error) → IfOk result (IsLeft (with_residual f l)) }
{
    if error.is_out_of_memory() {
        Err(AllocError)
    } else {
        Ok(Verdict::Erred(error))
    }
}

// The expression with its slots bound, at its place.
fn bound(alloc: Global, e: &Expr, slots: &SlotEnv) -> Result<Expr, AllocError>
    ensures { IfOk result (λ r. tree_of r ≡ slots_bound (binding_of (bindings_of slots.now)) (tree_of e.now)) }
{
    let place = e.source_loc();
    Ok(bind_slots(alloc, e, slots)?.with_maybe_source_loc(place))
}

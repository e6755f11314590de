//! What is left of policies, by evaluation.

ghost use Rattle.std.specs.Prelude.{◌≡◌, IfOk, Err};
ghost use Rattle.cedar_evaluator_model.specs.Scope.{Left};
ghost use Rattle.cedar_evaluator_model.specs.Steps.{truth_left};
ghost use Rattle.cedar_evaluator_core.specs.Evaluators.{IsTruthOf};
ghost use Rattle.cedar_gate_sessions.specs.Evaluations.{InEachScope, verdicts_over, verdict_on};
ghost use Rattle.cedar_gate_sessions.specs.Outcomes.{error_kind};
ghost use Rattle.cedar_gate_sessions.specs.Verdicts.{kind_of};

use crate::kinds::Verdict;
use cedar_evaluator_core::Evaluator;
use cedar_evaluator_errors::EvaluationError;
use cedar_evaluator_operators::FunctionTable;
use cedar_store_policies::Policy;
use std::alloc::{AllocError, Global};

/// What is left of each policy, in their order. Fails only when out of memory.
pub fn verdicts<T: FunctionTable>(
    alloc: Global,
    evaluator: &Evaluator<'_, T>,
    policies: &[Policy],
) -> Result<Vec<Verdict>, AllocError>
    ensures { InEachScope T.answers_as T.table evaluator.now (λ s n. IfOk result (λ vs. vs.items ≡ verdicts_over s n policies.now)) }
{
    let mut all = Vec::new(alloc);
    for policy in policies {
        all.push(verdict(alloc, evaluator, policy)?)?;
    }
    Ok(all)
}

/// What is left of the policy. Fails only when out of memory.
pub fn verdict<T: FunctionTable>(
    alloc: Global,
    evaluator: &Evaluator<'_, T>,
    policy: &Policy,
) -> Result<Verdict, AllocError>
    ensures { InEachScope T.answers_as T.table evaluator.now (λ s n. IfOk result (λ v. v ≡ verdict_on s n policy.now)) }
{
    let outcome = evaluator.evaluate(alloc, policy);
    kind(&outcome)
}

// The verdict that an outcome is. Fails only when out of memory.
pub(crate) fn kind(outcome: &Result<bool, EvaluationError>) -> Result<Verdict, AllocError>
    ensures { (l : Left) → IsTruthOf l outcome.now → IfOk result (λ v. v ≡ kind_of l) }
{
    match outcome {
        Ok(b) => Ok(kind_of_truth(*b)),
        Err(error) => kind_of_error(error),
    }
}

// The verdict on a policy that is true, or false.
fn kind_of_truth(b: bool) -> Verdict
    ensures { (l : Left) → l ≡ truth_left b → result ≡ kind_of l }
{
    if b { Verdict::Satisfied } else { Verdict::Not }
}

// The verdict on a policy with this error. Fails only when out of memory.
fn kind_of_error(error: &EvaluationError) -> Result<Verdict, AllocError>
    ensures { (l : Left) → IsTruthOf l (Err error.now) → IfOk result (λ v. v ≡ kind_of l) }
{
    if error.is_out_of_memory() {
        Err(AllocError)
    } else {
        Ok(named_kind(error))
    }
}

// The verdict by the name of the error.
fn named_kind(error: &EvaluationError) -> Verdict
    ensures { result ≡ error_kind error.now }
{
    match error {
        EvaluationError::NonValue(_) => Verdict::Open,
        EvaluationError::RecursionLimit(_) => Verdict::Limit,
        EvaluationError::OutOfMemory
        | EvaluationError::EntityDoesNotExist(_)
        | EvaluationError::EntityAttrDoesNotExist(_)
        | EvaluationError::RecordAttrDoesNotExist(_)
        | EvaluationError::FailedExtensionFunctionLookup(_)
        | EvaluationError::TypeError(_)
        | EvaluationError::WrongNumArguments(_)
        | EvaluationError::IntegerOverflow(_)
        | EvaluationError::ZeroDivisor(_)
        | EvaluationError::UnlinkedSlot(_)
        | EvaluationError::FailedExtensionFunctionExecution(_) => Verdict::Not,
    }
}

//! Answers one after the other.

ghost use Rattle.std.specs.Prelude.{◌≡◌, Ok, IfOk, MatchOption, false};
ghost use Rattle.std.specs.List.{AllZip, list_all};
ghost use Rattle.cedar_typechecker_answers.specs.Sequences.{IsHanded, holds, ThenTypes, Sequences};
ghost use Rattle.cedar_typechecker_answers.specs.Surface.{has_type};

use crate::answer::TypecheckAnswer;
use crate::faults::no_type;
use cedar_expr_trees::Expr;
use cedar_schema_types::Type;
use cedar_typechecker_environments::CapabilitySet;
use std::alloc::{AllocError, Global};

impl<'a> TypecheckAnswer<'a> {
    /// What the function answers of the expression and its facts. If the expression has no type the function is handed no facts, and
    /// what it answers has no type either; without an expression there is no type.
    pub fn then_typecheck<
        F: FnOnce(Expr<Option<Type>>, CapabilitySet<'a>) -> Result<TypecheckAnswer<'a>, AllocError>
            + Drop,
    >(self, alloc: Global, f: F) -> Result<TypecheckAnswer<'a>, AllocError>
        requires { F.IsAlwaysCallable f }
        ensures { IfOk result (ThenTypes (λ e c b. F.post f e c (Ok b)) self.entry) }
    {
        match self {
            TypecheckAnswer::Success {
                expr_type,
                expr_capability,
            } => f(expr_type, expr_capability),
            TypecheckAnswer::Fail {
                expr_recovery_type: Some(expr),
            } => {
                let answer = f(expr, CapabilitySet::new(alloc))?;
                Ok(answer.into_fail())
            }
            TypecheckAnswer::Fail {
                expr_recovery_type: None,
            } => Ok(no_type()),
        }
    }

    /// What the function answers of the expressions of all these answers and their facts. If one has no type the function is handed no
    /// facts of it, and what it answers has no type either; where one holds no expression there is no type.
    pub fn sequence_all_then_typecheck<
        F: FnOnce(
            Vec<(Expr<Option<Type>>, CapabilitySet<'a>)>,
        ) -> Result<TypecheckAnswer<'a>, AllocError>
            + Drop,
    >(
        alloc: Global,
        answers: Vec<TypecheckAnswer<'a>>,
        f: F,
    ) -> Result<TypecheckAnswer<'a>, AllocError>
        requires { F.IsAlwaysCallable f }
        ensures { IfOk result (Sequences (λ ps b. F.post f ps (Ok b)) answers.entry.items) }
    {
        let are_typed = all_typed(answers.as_slice());
        let Some(parts) = all_handed(alloc, answers)? else {
            return Ok(no_type());
        };
        let answer = f(parts)?;
        if are_typed {
            Ok(answer)
        } else {
            Ok(answer.into_fail())
        }
    }
}

// Whether each of these has a type.
fn all_typed(answers: &[TypecheckAnswer<'_>]) -> bool
    ensures { result ≡ list_all has_type answers.now }
{
    answers.iter().all(|answer| answer.typechecked())
}

// What a further step is handed of these answers, if each of them holds an expression.
fn all_handed<'a>(
    alloc: Global,
    answers: Vec<TypecheckAnswer<'a>>,
) -> Result<Option<Vec<(Expr<Option<Type>>, CapabilitySet<'a>)>>, AllocError>
    ensures { IfOk result (λ o. MatchOption o (list_all holds answers.entry.items ≡ false) (λ ps. AllZip IsHanded answers.entry.items ps.items)) }
{
    let mut parts = Vec::new(alloc);
    for answer in answers {
        let Some(part) = handed(alloc, answer) else {
            return Ok(None);
        };
        parts.push(part)?;
    }
    Ok(Some(parts))
}

// What a further step is handed of the answer, if it holds an expression: without a type there are no facts.
fn handed<'a>(
    alloc: Global,
    answer: TypecheckAnswer<'a>,
) -> Option<(Expr<Option<Type>>, CapabilitySet<'a>)>
    ensures { MatchOption result (holds answer.entry ≡ false) (IsHanded answer.entry) }
{
    match answer {
        TypecheckAnswer::Success {
            expr_type,
            expr_capability,
        } => Some((expr_type, expr_capability)),
        TypecheckAnswer::Fail {
            expr_recovery_type: Some(expr),
        } => Some((expr, CapabilitySet::new(alloc))),
        TypecheckAnswer::Fail {
            expr_recovery_type: None,
        } => None,
    }
}

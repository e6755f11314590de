//! The errors of policies.

ghost use Rattle.std.specs.Prelude.{◌≡◌, ◌++◌, IfOk, OnOk, map};
ghost use Rattle.std.specs.List.{list_any};
ghost use Rattle.cedar_expr_trees.specs.Trees.{tree_of};
ghost use Rattle.cedar_store_parts.specs.Parts.{id_text};
ghost use Rattle.cedar_evaluator_model.specs.Response.{no_value};
ghost use Rattle.cedar_evaluator_model.specs.Members.{without_value, is_limit};
ghost use Rattle.cedar_evaluator_requests.specs.Views.{error_of};
ghost use Rattle.cedar_evaluator_requests.specs.Groups.{residual_seen};

use crate::AuthorizationError;
use cedar_evaluator_errors::EvaluationError;
use cedar_evaluator_errors::evaluation_errors::NonValueError;
use cedar_expr_trees::Expr;
use cedar_store_parts::{Annotations, PolicyID};
use indexmap::IndexMap;
use std::alloc::AllocError;
use std::rc::Rc;

// The error of a policy of which this expression is left, where a value is wanted.
fn without_a_value(id: &PolicyID, left: &Expr) -> Result<AuthorizationError, AllocError>
    ensures { IfOk result (λ e. error_of e ≡ record { id = id_text id.now; cause = no_value (tree_of left.now) }) }
{
    let id = id.clone()?;
    let error = NonValueError {
        expr: left.clone()?,
        source_loc: left.source_loc(),
    };
    Ok(AuthorizationError::PolicyEvaluationError {
        id,
        error: EvaluationError::NonValue(error),
    })
}

/// Puts the errors of a group of residual policies at the end.
pub fn push_without_value(
    errors: &mut Vec<AuthorizationError>,
    group: &IndexMap<PolicyID, (Rc<Expr>, Rc<Annotations>)>,
) -> Result<(), AllocError>
    ensures { OnOk result (map error_of errors.new.items ≡ map error_of errors.old.items ++ map without_value (map residual_seen group.now.entries)) }
{
    for (id, kept) in group {
        errors.push(without_a_value(id, &kept.0)?)?;
    }
    Ok(())
}

/// Whether an evaluation met the limit on the depth, by one of these errors. Out of memory counts as met.
pub fn met_limit(errors: &[AuthorizationError]) -> bool
    ensures { result ≡ list_any (λ e. is_limit (error_of e).cause) errors.now }
{
    errors.iter().any(is_of_limit)
}

fn is_of_limit(error: &AuthorizationError) -> bool
    ensures { result ≡ is_limit (error_of error.now).cause }
{
    match error {
        AuthorizationError::PolicyEvaluationError { error, .. } => match error {
            EvaluationError::OutOfMemory | EvaluationError::RecursionLimit(_) => true,
            EvaluationError::EntityDoesNotExist(_)
            | EvaluationError::EntityAttrDoesNotExist(_)
            | EvaluationError::RecordAttrDoesNotExist(_)
            | EvaluationError::FailedExtensionFunctionLookup(_)
            | EvaluationError::TypeError(_)
            | EvaluationError::WrongNumArguments(_)
            | EvaluationError::IntegerOverflow(_)
            | EvaluationError::ZeroDivisor(_)
            | EvaluationError::UnlinkedSlot(_)
            | EvaluationError::FailedExtensionFunctionExecution(_)
            | EvaluationError::NonValue(_) => false,
        },
    }
}

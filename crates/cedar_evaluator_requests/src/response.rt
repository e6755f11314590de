//! Answers to requests.

ghost use Rattle.std.specs.Prelude.{◌≡◌, map};
ghost use Rattle.cedar_store_parts.specs.Parts.{id_text};
ghost use Rattle.cedar_evaluator_requests.specs.Copies.{IsSamePolicyError};
ghost use Rattle.cedar_evaluator_requests.specs.Views.{decision_of, error_of, answer_of};

use cedar_evaluator_errors::EvaluationError;
use cedar_store_parts::PolicyID;
use indexmap::IndexSet;
use std::alloc::AllocError;
use thiserror::Error;

/// A decision.
#[derive(Clone, Copy, Debug, PartialEq, Eq)]
pub enum Decision {
    /// The request is allowed.
    Allow,
    /// The request is denied.
    Deny,
}

/// What went wrong with a policy.
#[derive(Debug, PartialEq, Eq, Drop, Error)]
pub enum AuthorizationError {
    /// Its condition didn't evaluate.
    #[error("while evaluating policy `{id}`: {error}")]
    PolicyEvaluationError {
        /// The id of the policy.
        id: PolicyID,
        /// What went wrong.
        error: EvaluationError,
    },
}

impl Clone for AuthorizationError {
    ghost is_clone = { IsSamePolicyError };

    fn clone(&self) -> Result<AuthorizationError, AllocError> {
        match self {
            AuthorizationError::PolicyEvaluationError { id, error } => {
                let id = id.clone()?;
                let error = error.clone()?;
                Ok(AuthorizationError::PolicyEvaluationError { id, error })
            }
        }
    }
}

/// Why a decision was made.
#[derive(Debug, Clone, PartialEq, Eq, Drop)]
pub struct Diagnostics {
    /// The ids of the policies that determined it, in policy order.
    pub reason: IndexSet<PolicyID>,
    /// The errors that were met.
    pub errors: Vec<AuthorizationError>,
}

/// The answer to a request.
#[derive(Debug, Clone, PartialEq, Eq, Drop)]
pub struct Response {
    /// The decision.
    pub decision: Decision,
    /// Why it was made.
    pub diagnostics: Diagnostics,
}

impl Response {
    /// The answer with this decision, these reasons and these errors.
    pub fn new(
        decision: Decision,
        reason: IndexSet<PolicyID>,
        errors: Vec<AuthorizationError>,
    ) -> Response
        ensures { answer_of result ≡ record { decision = decision_of decision; reasons = map id_text reason.keys; errors = map error_of errors.items } }
    {
        let diagnostics = Diagnostics { reason, errors };
        Response {
            decision,
            diagnostics,
        }
    }
}

//! What an evaluation of policies comes to.

use cedar_evaluator_requests::AuthorizationError;
use cedar_store_parts::PolicyID;
use cedar_store_policies::PolicySet;
use indexmap::IndexSet;

/// What an evaluation of policies comes to. It is a plain record that no call here answers.
#[derive(Drop)]
pub struct EvaluationResponse {
    /// The ids of the permits that are satisfied, in policy order.
    pub satisfied_permits: IndexSet<PolicyID>,
    /// The ids of the forbids that are satisfied, in policy order.
    pub satisfied_forbids: IndexSet<PolicyID>,
    /// The errors that were met.
    pub errors: Vec<AuthorizationError>,
    /// The permits that are left.
    pub permit_residuals: PolicySet,
    /// The forbids that are left.
    pub forbid_residuals: PolicySet,
}

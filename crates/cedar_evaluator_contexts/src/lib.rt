//! The evaluation of restricted expressions, the calls of contexts that stand on it, and requests with values for what is unknown in them.
//! Contract: `ContextCalls::substitute` makes what the model's `context_substituted` makes, and `concretized` the request that
//! `request_bound` makes, or is refused as that refuses it (`Takes`).
//! Used by partial responses that are reauthorized (`cedar_evaluator`).
#![tactic(auto)]

pub mod concretize;
mod context_parts;
mod contexts;
pub mod err;
mod evaluator;
mod into_iter;
mod left;
mod response;

pub use concretize::concretized;
pub use contexts::ContextCalls;
pub use err::ConcretizationError;
pub use evaluator::RestrictedEvaluator;
pub use into_iter::IntoIter;
pub use response::EvaluationResponse;

//! The plain data of authorization: requests of which parts may be unknown, contexts, what is answered, and the groups of a partial response.
//! Contract: `request_of` is which request of the model a request is; `noted_seen`, `false_seen` and `residual_seen` are what the entries of a
//! group are in the model.
//! Used by the evaluator, authorizers and the gate, which name these types.
#![tactic(auto)]

pub mod context;
pub mod entry;
pub mod errors;
pub mod groups;
pub mod ids;
pub mod infallible;
pub mod policies;
pub mod request;
pub mod response;
pub mod schema;
pub mod searches;

pub use context::{Context, RestrictedFields};
pub use entry::EntityUIDEntry;
pub use groups::ErrorState;
pub use infallible::{Infallible, IsInfallible, UnwrapInfallible};
pub use request::Request;
pub use response::{AuthorizationError, Decision, Diagnostics, Response};
pub use schema::{RequestError, RequestSchema, RequestSchemaAllPass};

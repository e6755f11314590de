//! What written types with resolved names stand for, with common types replaced, and what descends from each name or uid by direct parents.
//! Contract: `resolve_common_types` gives the type that each common type stands for, or a fault that is there; `descendants` gives for each
//! node exactly those that descend from it, and refuses a repeated name. Below that stand graphs of numbered nodes: `closure` gives for each
//! exactly what one or more edges lead to, and `in_order` an order in which that comes first, or a node on a cycle.
//! Used by `cedar_schema_assembly` and `cedar_schema_builder`.
#![tactic(auto)]

mod closure_err;
mod closures;
mod common_types;
mod descent;
mod err;
mod hierarchy_err;
pub mod hierarchy_laws;
pub mod laws;
mod node;
mod numbers;
mod order;
mod references;
mod resolve;
mod resolver;
mod search;
mod turn;

pub use closure_err::CycleError;
pub use closures::closure;
pub use common_types::CommonTypes;
pub use descent::{descendants, graph};
pub use err::ResolveError;
pub use hierarchy_err::RepeatedError;
pub use node::Node;
pub use order::in_order;
pub use references::common_type_references;
pub use resolve::resolve_common_types;
pub use resolver::TypeResolver;
pub use turn::turned;

//! What evaluation reads of what is known: literals, variables, slots and unknowns; attributes, tags and paths of values and entities;
//! `in`; and the refusals of what isn't there. Its one contract is `Leaves`: what a step leaves is what the model's step leaves.
//! `cedar_evaluator_operators` and the walk in `cedar_evaluator_core` stand on it.
#![tactic(auto)]

pub mod knowledge;
pub mod leaves;
pub mod missing;
pub mod paths;
pub mod reads;
pub mod seen;
pub mod type_errors;
pub mod within;

pub use knowledge::{Knowledge, Left, V};
pub use type_errors::any_entity_type;

//! The entity types and actions of a schema, made of resolved declarations.
//! Contract: each has the types that it tells and exactly its descendants; a refusal tells a fault that is there; both together are what a
//! built schema keeps of the schema (`pieces_are_kept`).
//! Used by `cedar_schema_builder`.
#![tactic(auto)]

mod action_entries;
mod err;
mod names;
mod resolved;
mod sets;
pub mod told_laws;
mod type_entries;

pub use action_entries::actions;
pub use err::AssemblyError;
pub use sets::{Part, set_of};
pub use type_entries::entity_types;

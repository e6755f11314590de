//! All steps from fragments to the entity types and actions of a schema: names checked, resolved and gathered, and what is made of them.
//! Contract: `schema_parts` gives those of well-formed declarations, and else a fault that is there with the name of what is at fault; each
//! check finds something exactly where its fault is there. Laws say that what is built of resolved fragments is their schema.
//! Used by `cedar_schema_built`, in `ValidatorSchema::from_schema_fragments`, and by `cedar_schema_sound`.
#![tactic(auto)]

pub mod action_types;
mod build;
pub mod defs;
mod err;
mod faults;
pub mod gathered;
pub mod gathered_laws;
mod known_types;
pub mod laws;
pub mod looking;
pub mod reserved;
pub mod resolved;
pub mod resolved_laws;

pub use action_types::action_entity_type;
pub use build::{SchemaParts, schema_parts};
pub use defs::DefsOfFragments;
pub use err::SchemaError;
pub use gathered::{GatheredDefs, gather};
pub use known_types::extension_types;
pub use reserved::{check_reserved, first_reserved_name};
pub use resolved::resolve_all;

//! Reads the fragments of a schema from JSON, and takes fragments that are lent to full names.
//! Contract: `read_schema` gives exactly the declarations that the definition reads, and refuses what it doesn't read; `fragments_of` does
//! with each fragment what `ValidatorSchemaFragment::from_schema_fragment` does.
//! Used by the reader of bundles, and by the gate, which is lent the fragments of a schema.
#![tactic(auto)]

mod actions;
mod entity_types;
mod fragments;
mod lent_fragments;
mod members;
mod types;

pub use fragments::read_schema;
pub use lent_fragments::fragments_of;

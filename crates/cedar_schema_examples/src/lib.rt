//! Declarations of a schema from short lines, and the texts of the entity types and actions that come of them, for tests.
//! Its contract is its text: `fragment` says which lines it reads. Used by `cedar_schema_cases` and `cedar_typechecker_cases`.
#![tactic(auto)]

mod naming;
mod texts;
mod types;
mod written;

pub use naming::{WrittenName, id, name, placed};
pub use texts::{action_text, entity_type_text, listed};
pub use types::ty;
pub use written::{definition, fragment, kind};

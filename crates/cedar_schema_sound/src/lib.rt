//! Whether a built schema is what it has to be, and all attributes that one declares for the values of a type.
//! Contract: `try_validate` passes exactly sound schemas, and so every one that is built of fragments that declarations write;
//! `all_attributes` gives exactly those that are declared, each as it is declared.
//! Used by callers of `cedar_schema`: those who made a schema by hand, and through the traits `AllAttributes` and `AllKnownAttrs`.
#![tactic(auto)]

mod actions;
pub mod attribute_laws;
mod check;
mod closed_actions;
mod closed_types;
mod entity_types;
mod err;
mod known;
mod known_attributes;
pub mod laws;
mod of_types;
mod schema_attributes;
mod table;
mod unsound;

pub use check::{first_unsound, try_validate};
pub use err::UnsoundSchemaError;
pub use known_attributes::{all_attributes, all_known_attrs};
pub use of_types::{AllAttributes, AllKnownAttrs};
pub use schema_attributes::SchemaAttributes;
pub use table::TryValidate;
pub use unsound::Unsound;

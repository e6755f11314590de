//! Fragments under full names: actions, namespaces and what their names mean.
//! Contract: each name becomes what it means by all that is declared, or the first that means nothing is refused.
//! Used by `cedar_schema_builder` and `cedar_schema_builder`; the first step from written trees to a schema.
#![tactic(auto)]

pub mod actions;
pub mod all_defs;
pub mod declared_names;
pub mod err;
pub mod laws;
pub mod namespace_def;
pub mod naming;
pub mod resolving;

pub use actions::{ActionFragment, ActionFragmentKind, ActionsDef, ValidatorApplySpec};
pub use declared_names::{DeclaredNames, DeclaredNamespaces};
pub use err::FragmentError;
pub use namespace_def::{ValidatorNamespaceDef, ValidatorSchemaFragment};

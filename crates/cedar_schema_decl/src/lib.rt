//! Declarations of a schema over names in any state: as written, with names that may stand for several, and resolved.
//! Contract: `resolve` gives the first that is declared of what a name may stand for; each step replaces every name so, or refuses the first.
//! Used by `cedar_schema_fragments` and all steps that build a schema.
#![tactic(auto)]

pub mod all_defs;
pub mod definitions;
pub mod err;
pub mod json_schema;
pub mod laws;
pub mod qualify;
pub mod requalify;

pub use all_defs::{AllDefs, resolve};
pub use definitions::{CommonTypeDefs, EntityTypeFragment, EntityTypesDef};
pub use err::{ShadowingError, TypeNotDefinedError};

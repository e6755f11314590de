//! Entity types and actions as a built schema keeps them, with what descends from each.
//! Contract: each maker makes the entry of the model, each reader gives its part, and lists stand in order, each item once.
//! Used by `cedar_schema_assembly` and `cedar_schema_built`.
#![tactic(auto)]

mod action;
mod applies_to;
mod entity_kinds;
mod entity_type;
pub mod laws;

pub use action::ValidatorActionId;
pub use applies_to::AppliesTo;
pub use entity_kinds::{StandardValidatorEntityType, ValidatorEntityTypeKind};
pub use entity_type::ValidatorEntityType;

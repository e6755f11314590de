//! Levels: how far a typed expression reaches into the store.
//! Its main contract is `level_violations`: exactly the violations of the rules of levels, at any level of 32 bits, in one walk.
//! The validator of the typechecker calls it for each environment of a policy.
#![tactic(auto)]

mod along;
mod fields;
mod kinds;
mod level;
mod path;
mod steps;
mod violation;
mod walk;

pub use kinds::{is_entity_type, is_get_tag, looks_up};
pub use level::EntityDerefLevel;
pub use violation::LevelViolation;
pub use walk::level_violations;

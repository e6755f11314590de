//! Entities, and stores of them, whole or partial.
//! Contract: a store is a map by uid that refuses a repeated one; a look-up says data, missing, or the unknown that stands for what isn't loaded
//! and isn't recorded as absent.
//! Used by the plain evaluator, built schemas (`action_entities`) and the gate's hosts.
#![tactic(auto)]

mod ancestors;
pub mod entities;
pub mod entity;
pub mod err;
pub mod laws;
mod uid_set;

pub use entities::{Dereference, Entities, Mark};
pub use entity::Entity;
pub use err::{AbsenceError, EntitiesError};

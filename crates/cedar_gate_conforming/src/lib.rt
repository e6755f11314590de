//! Whether entities and requests conform to a built schema, and its actions as entities.
//! Contract: by each schema that conforms alike (`ConformsAlike`) what passes has no fault, and what is refused has the fault that is
//! named, the first in the order of the numbers; the actions are those of the schema.
//! Used by the sessions of a gate. Open `entities.rt` first.
#![tactic(auto)]

mod ancestors;
mod attributes;
mod contexts;
mod entities;
mod faults;
mod listed;
mod members;
mod requests;
mod tags;

pub use entities::check_entity;
pub use faults::ConformFault;
pub use listed::actions;
pub use requests::check_request;

//! Reads bundles from JSON: what is handed to the gate, its policies, the request, the whole store and the steps of the run.
//! Contract: `read_input` and `read_bundle` give exactly what the definition reads, and refuse what it doesn't read. The values in a bundle
//! are evaluated by the functions of a table: what is read is what the definition reads by any functions with which the table agrees.
//! Used by the service.
#![tactic(auto)]

mod bundle;
mod lists;
mod policies;
mod requests;
mod scopes;
mod steps;
mod stores;
mod values;

pub use bundle::{Bundle, Submission, read_bundle, read_input};
pub use cedar_gate_expressions::ReadFault;
pub use stores::read_entity;

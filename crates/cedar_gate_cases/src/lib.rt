//! Tests of what the gate accepts, as rows of text: what is accepted or refused, how far policies reach, what is warned of, which policies may
//! decide, and which entities and requests conform; and what rows of the gate are made of: the language, a call with what it comes to, and
//! schemas, stores, policies, requests and hosts by name.
//! Contract: none but those of the hosts; `first_wrong` gives the first row that says something else. Used by `cedar_gate_session_cases`.
//! Open `desk.rt` first, for the language, and `fixtures.rt`, for the schemas, stores and policies.
#![tactic(auto)]

#[cfg(test)]
mod acceptance;
mod at_gate;
mod by_hand;
#[cfg(test)]
mod conformance;
mod desk;
mod fixtures;
mod hosts;
mod in_session;
mod refusals;
#[cfg(test)]
mod rows;
mod runs;
mod said;
mod setup;

pub use cedar_gate::{ServeFault, Status, serve};
pub use desk::first_wrong;
pub use setup::Made;

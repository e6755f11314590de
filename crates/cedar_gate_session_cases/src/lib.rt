//! Tests of sessions and runs at a gate, as rows of text: rounds, early decisions, bounds, bindings and answers, runs over hosts that are
//! honest, fail or answer wrong, and the service over readers and writers that fail.
//! Contract: none; what is wanted is written by the rules. Used by no crate. Open `cedar_gate_cases` first, for the language.
#![tactic(auto)]

#[cfg(test)]
mod by_hand;
#[cfg(test)]
mod deep;
#[cfg(test)]
mod open_names;
#[cfg(test)]
mod rounds;
#[cfg(test)]
mod rows;
#[cfg(test)]
mod runs;
#[cfg(test)]
mod streams;
#[cfg(test)]
mod tiers;

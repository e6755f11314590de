//! The tests: that all rows of the crates `cedar_*_cases` hold.
//! Contract: none; what is wanted is written by the rules. Used by no crate.
#![tactic(auto)]

#[cfg(test)]
mod rows;

//! Partial evaluation: the walk along an expression within a limit on its depth, and evaluators. Its one contract is that of
//! `Evaluator::partial_interpret`: what is left is what the model's evaluation leaves. Authorizers stand on it.
#![tactic(auto)]

mod after;
pub mod calls;
pub mod evaluator;
mod fields;
mod gathering;
mod lending;
mod outcomes;
pub mod parts;
pub mod rebuilt;
pub mod records;
pub mod tested;
pub mod walk;

pub use evaluator::Evaluator;

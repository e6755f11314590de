//! The fast path of typing: the type of a condition without the tree of the types of its parts, where that suffices.
//! Contract: where `typed_within` gives an answer, that is what the rules of typing judge, and nothing in the expression reaches further than
//! the level. Where it gives none nothing is said: the walk that makes the tree decides.
//! Used by `cedar_typechecker_policies`, which asks it first.
#![tactic(auto)]

mod answers;
mod steps;
mod walk;

pub use answers::Within;
pub use walk::typed_within;

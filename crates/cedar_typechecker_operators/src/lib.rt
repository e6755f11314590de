//! The answers of typing for operators, attributes, tests, literals, calls, sets, records and choices, and the one recursion over them.
//! Contract: each answer is exact (`seen` of it is what the model's `typed` has for that kind), and `typecheck` gives exactly what `typed` has,
//! which by `cedar_typechecker_model`'s laws is what the rules judge.
//! Used by the typechecker, which types the condition of each policy by it, once for each environment.
#![tactic(auto)]

mod binary;
mod choice;
mod leaves;
mod operators;
mod paths;
mod rows;
mod walk;

pub use binary::{binary_answer, binary_judgement};
pub use choice::{chosen, chosen_answer};
pub use leaves::{literal_answer, slot_answer, variable_answer};
pub use operators::{
    attribute_judgement, get_answer, has_answer, is_answer, known_type, like_answer, unary_answer,
};
pub use paths::path_answer;
pub use rows::{call_answer, record_answer, set_answer};
pub use walk::typecheck;

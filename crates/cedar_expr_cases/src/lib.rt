//! Tests of names, of the leaves of expressions, of values and of expressions, their shapes, builders and substitution, as rows: a command,
//! and behind ` : ` what it comes to. What a row says comes from the rules. Each call that takes memory is made once with enough of it, and
//! each generic one at a type; what the clauses say of the others isn't repeated. No function has a contract. `cedar_cases`
//! asks for the first row that is wrong.
#![tactic(auto)]

mod building;
mod constructors;
mod data;
mod leaf_rows;
mod leaves;
mod names;
mod raw_names;
mod rows;
mod seen;
mod values;

pub use leaf_rows::wrong_leaf_row;
pub use rows::wrong_row;

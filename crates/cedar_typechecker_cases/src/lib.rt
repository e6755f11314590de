//! Tests of types and of the typechecker, as rows of text: joins of types, restricted expressions of a type, the types of expressions, and
//! what the typechecker and the validator say of policies over built schemas. What is wanted in them is written by the rules. Each call that
//! takes memory is made once with enough of it, and each generic one at a type; what the clauses say of the others isn't repeated. No
//! function has a contract but those that have or make a built schema. `cedar_cases` asks for the first row that is wrong.
#![tactic(auto)]

mod asked;
mod built;
mod checked;
mod facts;
mod rows;
mod shown;
mod type_rows;
mod typed;
mod types;

pub use rows::wrong_row;
pub use type_rows::wrong_type_row;

//! Tests of partial values, of calls, and of tables of functions with the checks of expressions against them, as rows: a command, and
//! behind ` : ` what it comes to. What a row says comes from the rules. Each call that takes memory is made once with enough of it, and each
//! generic one at a type; what the clauses say of the others isn't repeated. No function has a contract but those that tables store.
//! `cedar_cases` asks for the first row that is wrong.
#![tactic(auto)]

mod partial;
mod tables;
mod written;

pub use partial::wrong_partial_row;
pub use tables::wrong_table_row;

//! Tests of schemas: what declarations mean, what is built of them, what is read from a built schema and what is wrong with one.
//! Rows of text: declarations, questions and their answers. No contract: `cedar_cases` asks for the first row that is wrong. A call that
//! takes no memory and whose clause says its answer has no question of its own: the prover refuses a wrong body.
#![tactic(auto)]

mod building;
mod declaring;
mod desk;
mod places;
mod reading;
mod rows;
mod said;
mod sound;
mod steps;
mod written;

pub use rows::wrong_row;

//! Tests of authorizers, partial responses and reauthorizing, as rows of text.
//! Contract: none; what is wanted in the rows is written by the rules.
//! `cedar_cases` asks for the first row that is wrong. The rows stand in `rows.rt`.
#![tactic(auto)]

mod answers;
mod contexts;
mod desk;
mod groups;
mod known;
mod policies;
mod responses;
mod rows;
mod said;
mod verdicts;

pub use rows::wrong_row;

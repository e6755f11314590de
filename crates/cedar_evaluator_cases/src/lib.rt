//! Tests of restricted expressions, contexts, requests and the evaluator, as rows of text.
//! Contract: none; what is wanted in the rows is written by the rules.
//! `cedar_cases` asks for the first row that is wrong. The rows stand in `tables.rt`, `kinds.rt`, `stores.rt` and `world.rt`.
#![tactic(auto)]

mod contexts;
mod desk;
mod evaluations;
mod kinds;
mod known;
mod made;
mod requests;
mod restricted;
mod rows;
mod said;
mod stores;
mod tables;
mod world;

pub use tables::wrong_row;

//! Tests of policies and sets of them, and of entities and stores of them, as rows of text, and the small language of these: a row is gone
//! over with a desk on which its commands lay what they make.
//! Contract: none; what is wanted in the rows is written by the rules.
//! `cedar_cases` asks for the first row that is wrong; the tests of `cedar_typechecker_cases` take its templates.
#![tactic(auto)]

mod desk;
mod entities;
mod entity_rows;
mod made;
mod parts;
mod policies;
mod policy_rows;
mod rows;
mod seen;
mod sets;

pub use desk::Made;
pub use entity_rows::wrong_entity_row;
pub use policies::template;
pub use policy_rows::wrong_policy_row;

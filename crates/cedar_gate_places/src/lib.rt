//! Where the parts of a bundle stand in its JSON, as JSON pointers: those of policies' expressions, what a schema declares or names, and the
//! first part that doesn't read.
//! Contract: a copy of an expression whose parts have places has the same tree. Tests of the program show that the pointers are right.
//! Used by the program `cedarcheck`.
#![tactic(auto)]

mod forms;
mod places;
mod pointers;
mod sought;
mod unread;

pub use places::{Places, Step, placed};
pub use sought::{external_declarations, pointer_of};
pub use unread::{Unread, first_unread};

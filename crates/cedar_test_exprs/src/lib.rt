//! Expressions, values, uids and names that tests write as texts, and helpers over any type. No text is read by users: it is the tests' own
//! short hand, so that a row of a test is a row of a table. No function of the texts has a contract.
//! Used by the crates of test cases.
#![tactic(auto)]

mod constants;
mod naming;
mod nodes;
mod reading;
mod said;
mod says;
mod sharing;
mod stack;
mod values;

pub use constants::literal;
pub use naming::{entity_type, name, placed, uid, uid_of, word};
pub use reading::expr;
pub use said::{at, is, read};
pub use says::{copied, made, one, parted, refused, say, show, tell, told, told_copy};
pub use sharing::{both, kept, shared};
pub use values::value;

//! The leaves of expressions: literals, variables, slots and patterns; the operators; lists that are not empty; names as they are written.
//! Contract: `Pattern::wildcard_match` is true exactly where the pattern matches the text, and takes no memory; `conditionally_qualify_with`
//! gives the possible names in the order in which they are tried (`possibilities`).
//! Used by values, expressions, policies, the declarations of schemas and the reader of bundles.
#![tactic(auto)]

mod conditional_name;
pub mod laws;
mod literal;
mod matching;
pub mod name_laws;
mod non_empty;
mod ops;
mod pattern;
pub mod raw_laws;
mod raw_name;
mod slot;
mod var;

pub use conditional_name::{ConditionalName, ReferenceType};
pub use literal::Literal;
pub use non_empty::NonEmpty;
pub use ops::{BinaryOp, UnaryOp};
pub use pattern::{Pattern, PatternElem};
pub use raw_name::RawName;
pub use slot::{Slot, SlotId};
pub use var::Var;

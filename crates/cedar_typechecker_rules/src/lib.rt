//! The rules of typing, a function for each kind of expression, over the types of its parts.
//! Each is exact against the rule of its name in the model. Schemas and functions are asked through `TypingSchema`.
//! The answers of typing are made by these.
#![tactic(auto)]

mod attributes;
mod binary;
mod calls;
mod inclusion;
mod leaves;
mod literals;
mod tags;
mod uids;
mod unary;

pub use attributes::{get_type, has_type, step_type};
pub use binary::{comparable, equal_type, member_type, number_type, order_type, sets_type};
pub use calls::call_type;
pub use inclusion::in_type;
pub use leaves::{literal_type, slot_type, var_type};
pub use literals::{chosen_type, set_literal_type};
pub use tags::{get_tag_type, has_tag_type};
pub use uids::{is_text_literal, written_uid};
pub use unary::{is_type_type, like_type, unary_type};

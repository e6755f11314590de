//! The acceptance rules before typing: those of ids, slots, unknowns and nesting, which ask no schema, and the scope rules, which do.
//! Contract: each function answers exactly whether the policies keep its rule. Used by the gate.
#![tactic(auto)]

mod fields;
mod ids;
mod nest_limit;
mod nesting;
mod policies;
mod rules;
mod scoped_policies;

pub use ids::ids_are_distinct;
pub use nest_limit::NestLimit;
pub use nesting::nests_within;
pub use policies::{are_linked, keep_slots_in_scope, nest_within, stand_without_unknowns};
pub use scoped_policies::{name_known_actions, name_known_members, name_known_types};

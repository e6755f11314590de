//! Definitions of Cedar's expressions: names, uids, values, patterns, bare trees, builders, substitution and tables of functions.
//! Contract: the law functions (`laws`, `name_laws`), each a theorem on these definitions. No other code stands here.
//! Used by nearly every crate: the contracts of the code cite these definitions.
#![tactic(auto)]

pub mod laws;
pub mod name_laws;
pub mod name_worked;
pub mod worked;

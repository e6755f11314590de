//! Definitions of worlds, of what expressions mean in them, of policies and their conditions, and of answers.
//! Contract: the law functions: one outcome at most, more knowledge keeps it, answers by satisfied policies.
//! Used by all layers above: the one meaning by which typing, evaluation and the gate are stated.
#![tactic(auto)]

pub mod laws;
pub mod worked;
pub mod worked_policies;
pub mod world_laws;

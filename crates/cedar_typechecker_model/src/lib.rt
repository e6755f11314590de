//! Definitions of typing, facts, levels, the scope rules and the verdicts on a policy, and of typing that keeps the type of every part.
//! Contract: the law functions: a typed expression means a value of its type, or errs by a missing entity, an overflow, a zero divisor or
//! an extension; what is typed with its parts is what is judged, and a walk over it counts the violations of the rule; a built schema is
//! answered alike.
//! Used by `cedar_gate_model`, the typechecker's crates and the gate's.
#![tactic(auto)]

pub mod alike_laws;
pub mod laws;
pub mod report_laws;
pub mod soundness;
pub mod typed_laws;
pub mod worked;

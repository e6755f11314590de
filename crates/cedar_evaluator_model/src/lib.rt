//! Definitions of partial evaluation, completions, partial responses and reauthorizing.
//! Contract: the law functions: with nothing unknown it is the meaning, and what is left stands for the expression in every completion.
//! Used by `cedar_gate_model` and by the evaluator.
#![tactic(auto)]

pub mod laws;
pub mod residual_laws;
pub mod worked;
pub mod worked_completions;
pub mod worked_residuals;
pub mod worked_responses;

//! Whole policies and their conditions, typed in each of their environments, and counted at a level.
//! Contract: what each call says of a policy is exactly what the verdicts of the model say of it, in both modes, and what the laws of
//! typing and of slices promise then. Used by `cedar_typechecker`, which gives it out for built schemas.
#![tactic(auto)]

mod bindings;
mod check;
mod checked;
mod checks;
mod condition;
mod errors;
mod fast;
mod findings;
mod leveled;
mod policy;
mod sets;
mod verdict;
mod violations;

pub use bindings::fits;
pub use check::{PolicyCheck, check_in};
pub use checks::RequestEnvChecks;
pub use findings::{PolicyFindings, Subject, check_policy, check_policy_by};
pub use leveled::{Validated, validate_policy_with_level};
pub use policy::typecheck_policy;
pub use violations::PolicyViolation;

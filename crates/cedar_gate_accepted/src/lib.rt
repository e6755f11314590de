//! What the gate checks of declarations and policies: the schema that is admitted, verdicts and levels, and which policies may decide a
//! request of given types.
//! Contract: what passes has none of the faults that are asked for, and what is refused has the fault that is named, where policies reach too
//! far with all their violations. What typing and levels say of a policy is what the check of policies of `cedar_typechecker_policies` says.
//! Used by the gate (`cedar_gate`). Open `admitted.rt` and `judged.rt` first.
#![tactic(auto)]

mod admitted;
mod checked;
mod declared;
mod fault;
mod irrelevant;
mod judged;
mod names;
mod plain;
mod relevance;

pub use admitted::admitted_schema;
pub use cedar_typechecker_policies::PolicyViolation;
pub use declared::declared_schema;
pub use fault::GateFault;
pub use irrelevant::is_irrelevant_for;
pub use judged::judge;
pub use names::check_names;
pub use plain::check_policies;
pub use relevance::relevant;

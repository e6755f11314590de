//! Templates, policies and sets of policies.
//! Contract: `condition` is exactly the condition of the rules; a set lists distinct ids as inserted, and refuses one that is present.
//! Used by the scope rules, the evaluator and the gate.
#![tactic(auto)]

mod bindings;
mod entries;
pub mod laws;
pub mod policy;
pub mod policy_set;
pub mod static_policy;
pub mod template;
mod template_body;

pub use cedar_store_parts::{
    ActionConstraint, Annotation, Annotations, Effect, EntityReference, LinkingError, PolicyID,
    PolicySetError, PrincipalConstraint, PrincipalOrResource, PrincipalOrResourceConstraint,
    ResourceConstraint, SlotEnv, UnexpectedSlotError,
};
pub use policy::Policy;
pub use policy_set::PolicySet;
pub use static_policy::StaticPolicy;
pub use template::Template;

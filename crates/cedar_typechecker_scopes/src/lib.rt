//! What the scope of a policy says beside its condition: the environments in which the policy is typed, and the scope rules as passes.
//! Its contracts are `policy_environments`, which gives exactly a policy's environments, and the passes: each reports exactly what breaks
//! its rule, also where typing doesn't reach. The typechecker, its validator and the gate stand on it.
#![tactic(auto)]

mod applying;
mod environments;
pub mod laws;
mod passes;
mod schema;
mod slot_use;
mod uids;

pub use applying::{validate_linked_action_application, validate_template_action_application};
pub use environments::{
    PolicyEnvironments, SchemaEnvironments, policy_environments, policy_environments_by,
};
pub use passes::{
    validate_action_ids, validate_entity_types, validate_entity_types_in_slots,
    validate_enum_entity,
};
pub use schema::ScopeSchema;
pub use slot_use::SlotUse;

//! What policies are made of (ids, effects, annotations, parts of scopes, bindings of slots), why they are refused, and validation's records.
//! Contract: each maker makes the part of the model and each getter gives it back; `as_expr` is what a part of a scope asks; `number` is the
//! number of a fault in the rules, 0 when out of memory; order, equality and hash of the records agree.
//! Used by policies, joins of types (`ValidationMode`), built schemas (`RequestType`), the plain evaluator and the gate.
#![tactic(auto)]

pub mod annotation;
pub mod constraint;
pub mod diagnostics;
pub mod err;
pub mod laws;
pub mod policy_id;
pub mod record_laws;
pub mod request_type;
pub mod slot_env;
pub mod validation_mode;

pub use annotation::{Annotation, Annotations};
pub use constraint::{
    ActionConstraint, EntityReference, PrincipalConstraint, PrincipalOrResource,
    PrincipalOrResourceConstraint, ResourceConstraint,
};
pub use diagnostics::{ValidationError, ValidationErrorKind, ValidationWarning};
pub use err::{LinkingError, PolicySetError, UnexpectedSlotError};
pub use policy_id::{Effect, PolicyID};
pub use request_type::RequestType;
pub use slot_env::SlotEnv;
pub use validation_mode::ValidationMode;

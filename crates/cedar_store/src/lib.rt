//! Cedar's policies and stores, whole: the items of the crates `cedar_store_*` under one name.
//! Contract: that of the items. Its own code is laws: how effects and parts of scopes are compared and hashed, and which refusals are equal.
//! Used by users of the library and by `cedar_bench`; crates of this repository name the crates below.
#![tactic(auto)]

pub mod laws;

/// Annotations of policies.
pub mod annotation {
    pub use cedar_store_parts::{Annotation, Annotations};
}

/// Stores of entities, and what they answer for a uid.
pub mod entities {
    pub use cedar_store_entities::{Dereference, Entities, Mark};

    /// Why entities make no store, and why an absence isn't recorded.
    pub mod err {
        pub use cedar_store_entities::{AbsenceError, EntitiesError};
    }
}

/// Entities.
pub mod entity {
    pub use cedar_store_entities::Entity;
}

/// Policies, templates, and what they are made of.
pub mod policy {
    pub use cedar_store_parts::{
        ActionConstraint, Effect, EntityReference, LinkingError, PolicyID, PrincipalConstraint,
        PrincipalOrResource, PrincipalOrResourceConstraint, ResourceConstraint, SlotEnv,
        UnexpectedSlotError,
    };
    pub use cedar_store_policies::{Policy, StaticPolicy, Template};
}

/// Sets of policies.
pub mod policy_set {
    pub use cedar_store_parts::PolicySetError;
    pub use cedar_store_policies::PolicySet;
}

/// Types of requests.
pub mod request {
    pub use cedar_store_parts::RequestType;
}

/// What validation finds, and its modes.
pub mod validation {
    pub use cedar_store_parts::{
        ValidationError, ValidationErrorKind, ValidationMode, ValidationWarning,
    };
}

pub use annotation::{Annotation, Annotations};
pub use entities::err::{AbsenceError, EntitiesError};
pub use entities::{Dereference, Entities, Mark};
pub use entity::Entity;
pub use policy::{
    ActionConstraint, Effect, EntityReference, LinkingError, Policy, PolicyID, PrincipalConstraint,
    PrincipalOrResource, PrincipalOrResourceConstraint, ResourceConstraint, SlotEnv, StaticPolicy,
    Template, UnexpectedSlotError,
};
pub use policy_set::{PolicySet, PolicySetError};
pub use request::RequestType;
pub use validation::{ValidationError, ValidationErrorKind, ValidationMode, ValidationWarning};

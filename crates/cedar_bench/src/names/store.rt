//! Each name that `cedar_store` gives out, under each of its paths: a name that is lost there is missed here.
#![allow(unused_imports)]

mod annotation {
    use cedar_store::annotation::{Annotation, Annotations};
}

mod entities {
    use cedar_store::entities::{Dereference, Entities};
}

mod entities_err {
    use cedar_store::entities::err::EntitiesError;
}

mod entity {
    use cedar_store::entity::Entity;
}

mod policy {
    use cedar_store::policy::{
        ActionConstraint, Effect, EntityReference, LinkingError, Policy, PolicyID,
        PrincipalConstraint, PrincipalOrResource, PrincipalOrResourceConstraint,
        ResourceConstraint, SlotEnv, StaticPolicy, Template, UnexpectedSlotError,
    };
}

mod policy_set {
    use cedar_store::policy_set::{PolicySet, PolicySetError};
}

mod request {
    use cedar_store::request::RequestType;
}

mod validation {
    use cedar_store::validation::{
        ValidationError, ValidationErrorKind, ValidationMode, ValidationWarning,
    };
}

mod all {
    use cedar_store::{
        ActionConstraint, Annotation, Annotations, Dereference, Effect, Entities, EntitiesError,
        Entity, EntityReference, LinkingError, Policy, PolicyID, PolicySet, PolicySetError,
        PrincipalConstraint, PrincipalOrResource, PrincipalOrResourceConstraint, RequestType,
        ResourceConstraint, SlotEnv, StaticPolicy, Template, UnexpectedSlotError, ValidationError,
        ValidationErrorKind, ValidationMode, ValidationWarning,
    };
}

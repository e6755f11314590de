//! Cedar's typechecker and validator, whole: over a built schema and a table of extension functions, and the items of the crates
//! `cedar_typechecker_*` under one name. Contract: each call says exactly what the model's verdicts, scope rules and violations are, and
//! where a policy passes what typing and slices promise of its meaning. The answers of a built schema with a table are those of the declared
//! schema by laws. Used by users of the library, by the gate and by `cedar_typechecker_cases`.
#![tactic(auto)]

mod action_types;
mod environments;
pub mod laws;
mod schema_and_functions;
mod scopes;
mod type_pairs;
mod typecheck;
mod typechecker;
mod typing;
mod validator;

pub use asked::{SchemaAndFunctions, TypingSchema, World};
pub use cedar_typechecker_environments::RequestEnv;
pub use level::EntityDerefLevel;
pub use policies::{PolicyCheck, PolicyFindings, PolicyViolation, RequestEnvChecks, Validated};
pub use typecheck_answer::{Capability, CapabilitySet, TypecheckAnswer};
pub use typechecker::Typechecker;
pub use validator::Validator;

/// What typing asks of a schema and of a table of extension functions, and a built schema with a table as that.
pub mod asked {
    pub use crate::schema_and_functions::SchemaAndFunctions;
    pub use cedar_typechecker_environments::{FunctionSignature, TypingSchema, World};
    pub use cedar_typechecker_scopes::{
        PolicyEnvironments, SchemaEnvironments, ScopeSchema, policy_environments,
        policy_environments_by,
    };
}

/// Levels: how far a typed expression reaches into the store.
pub mod level {
    pub use cedar_typechecker_levels::{EntityDerefLevel, LevelViolation, level_violations};
}

/// Answers of typing, and facts.
pub mod typecheck_answer {
    pub use crate::typecheck::typecheck;
    pub use cedar_typechecker_answers::{Faults, TypeFault, TypecheckAnswer, TypingErrorKind};
    pub use cedar_typechecker_environments::{Capability, CapabilitySet};
}

/// Policies over any schema that can be asked.
pub mod policies {
    pub use cedar_typechecker_policies::{
        PolicyCheck, PolicyFindings, PolicyViolation, RequestEnvChecks, Subject, Validated,
        check_in, check_policy, check_policy_by, typecheck_policy, validate_policy_with_level,
    };
    pub use cedar_typechecker_scopes::{
        validate_action_ids, validate_entity_types, validate_entity_types_in_slots,
        validate_enum_entity, validate_linked_action_application,
        validate_template_action_application,
    };
}

//! Faults of submissions.

ghost use Rattle.std.specs.Prelude.{◌≡◌};
ghost use Rattle.cedar_gate_accepted.specs.Causes.{gate_fault_number, fault_of_schema};
ghost use Rattle.cedar_gate_accepted.specs.declared.fault.GateFault.TheVariants.{OutOfMemory};

use cedar_schema_builder::SchemaError;
use cedar_typechecker_policies::PolicyViolation;
use std::alloc::{AllocError, AllocFailed};
use thiserror::Error;

/// Why the gate refuses a submission.
#[derive(Debug, Drop, Error)]
pub enum GateFault {
    /// There is no memory.
    #[error("out of memory")]
    OutOfMemory,
    /// The declarations have a fault.
    #[error("{0}")]
    Schema(SchemaError),
    /// An entity type or an action is declared elsewhere.
    #[error("an entity type or an action is declared elsewhere")]
    External,
    /// Two policies have one id.
    #[error("two policies have one id")]
    RepeatedPolicy,
    /// A slot of a policy isn't bound.
    #[error("a slot of a policy is not bound")]
    UnlinkedSlot,
    /// A slot stands in the body of a policy.
    #[error("a slot stands in the body of a policy")]
    SlotOutsideScope,
    /// An unknown stands in a condition.
    #[error("an unknown stands in a condition")]
    UnknownInPolicy,
    /// A condition nests deeper than the limit.
    #[error("a condition nests deeper than the limit")]
    Nesting,
    /// A policy names an entity type that isn't declared.
    #[error("a policy names an entity type that is not declared")]
    UnknownEntityType,
    /// A policy names an action that isn't declared.
    #[error("a policy names an action that is not declared")]
    UnknownAction,
    /// A policy names an entity that is no declared member of its enumerated type.
    #[error("a policy names an entity that is no member of its enumerated type")]
    EnumMember,
    /// A condition has no type of truth values in some environment.
    #[error("a condition has no type of truth values in some environment")]
    IllTyped,
    /// Conditions reach further than the level: here.
    #[error("conditions reach further than the level")]
    Level(Vec<PolicyViolation>),
}

impl GateFault {
    /// The number of the refusal: 0 for memory.
    pub fn number(&self) -> u32
        ensures { result ≡ gate_fault_number self.now }
    {
        match self {
            GateFault::OutOfMemory => 0,
            GateFault::Schema(_) => 1,
            GateFault::External => 2,
            GateFault::RepeatedPolicy => 3,
            GateFault::UnlinkedSlot => 4,
            GateFault::SlotOutsideScope => 5,
            GateFault::UnknownInPolicy => 6,
            GateFault::Nesting => 7,
            GateFault::UnknownEntityType => 8,
            GateFault::UnknownAction => 9,
            GateFault::EnumMember => 10,
            GateFault::IllTyped => 11,
            GateFault::Level(_) => 12,
        }
    }
}

impl From<AllocError> for GateFault {
    ghost from_gives = { λ _ f. f ≡ OutOfMemory };

    fn from(_error: AllocError) -> GateFault {
        GateFault::OutOfMemory
    }
}

impl<T: Drop> From<AllocFailed<T>> for GateFault {
    ghost from_gives = { λ _ f. f ≡ OutOfMemory };

    fn from(_error: AllocFailed<T>) -> GateFault {
        GateFault::OutOfMemory
    }
}

impl From<SchemaError> for GateFault {
    ghost from_gives = { λ e f. f ≡ fault_of_schema e };

    /// Out of memory stays that; any other error is a fault of the declarations.
    fn from(error: SchemaError) -> GateFault {
        match error {
            SchemaError::OutOfMemory => GateFault::OutOfMemory,
            other => GateFault::Schema(other),
        }
    }
}

//! Why entities make no store, and why an absence isn't recorded.

ghost use Rattle.std.specs.Prelude.{◌≡◌};
ghost use Rattle.cedar_store_entities.specs.Refusals.{error_number, absence_number};

use cedar_expr_names::EntityUID;
use std::alloc::{AllocError, AllocFailed};
use thiserror::Error;

/// Why entities make no store.
#[derive(Debug, Drop, Error)]
pub enum EntitiesError {
    /// There is no memory for the store.
    #[error("out of memory")]
    OutOfMemory,

    /// Two entities have one uid.
    #[error("duplicate entity entry `{uid}`")]
    Duplicate {
        /// The uid.
        uid: EntityUID,
    },
}

impl EntitiesError {
    /// The number of the refusal: 0 for memory.
    pub fn number(&self) -> u32
        ensures { result ≡ error_number self.now }
    {
        match self {
            EntitiesError::OutOfMemory => 0,
            EntitiesError::Duplicate { .. } => 1,
        }
    }
}

impl From<AllocError> for EntitiesError {
    ghost use Rattle.cedar_store_entities.specs.declared.err.EntitiesError.TheVariants.{OutOfMemory};

    ghost from_gives = { λ _ e. e ≡ OutOfMemory };

    fn from(_error: AllocError) -> EntitiesError {
        EntitiesError::OutOfMemory
    }
}

impl<T: Drop> From<AllocFailed<T>> for EntitiesError {
    ghost use Rattle.cedar_store_entities.specs.declared.err.EntitiesError.TheVariants.{OutOfMemory};

    ghost from_gives = { λ _ e. e ≡ OutOfMemory };

    fn from(_error: AllocFailed<T>) -> EntitiesError {
        EntitiesError::OutOfMemory
    }
}

/// Why an absence isn't recorded.
#[derive(Debug, Drop, Error)]
pub enum AbsenceError {
    /// There is no memory to record it.
    #[error("out of memory")]
    OutOfMemory,

    /// The absence is recorded already.
    #[error("entity `{uid}` is recorded as absent already")]
    Absent {
        /// The uid.
        uid: EntityUID,
    },

    /// The entity is in the store.
    #[error("entity `{uid}` is in the store")]
    Present {
        /// The uid.
        uid: EntityUID,
    },
}

impl AbsenceError {
    /// The number of the refusal: 0 for memory.
    pub fn number(&self) -> u32
        ensures { result ≡ absence_number self.now }
    {
        match self {
            AbsenceError::OutOfMemory => 0,
            AbsenceError::Absent { .. } => 1,
            AbsenceError::Present { .. } => 2,
        }
    }
}

impl From<AllocError> for AbsenceError {
    ghost use Rattle.cedar_store_entities.specs.declared.err.AbsenceError.TheVariants.{OutOfMemory};

    ghost from_gives = { λ _ e. e ≡ OutOfMemory };

    fn from(_error: AllocError) -> AbsenceError {
        AbsenceError::OutOfMemory
    }
}

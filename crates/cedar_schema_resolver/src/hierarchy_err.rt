//! Why nodes have no numbers.

use std::alloc::{AllocError, AllocFailed};
use thiserror::Error;

/// Why nodes have no numbers.
#[derive(Debug, Drop, Error)]
pub enum RepeatedError {
    /// There is no memory for them.
    #[error("out of memory")]
    OutOfMemory,

    /// A node is repeated.
    #[error("repeated name")]
    Repeated {
        /// The number of its second place.
        number: usize,
    },
}

impl From<AllocError> for RepeatedError {
    ghost use Rattle.std.specs.Prelude.{◌≡◌};
    ghost use Rattle.cedar_schema_resolver.specs.declared.hierarchy_err.RepeatedError.TheVariants.{OutOfMemory};

    ghost from_gives = { λ _ e. e ≡ OutOfMemory };

    fn from(_error: AllocError) -> RepeatedError {
        RepeatedError::OutOfMemory
    }
}

impl<T: Drop> From<AllocFailed<T>> for RepeatedError {
    ghost use Rattle.std.specs.Prelude.{◌≡◌};
    ghost use Rattle.cedar_schema_resolver.specs.declared.hierarchy_err.RepeatedError.TheVariants.{OutOfMemory};

    ghost from_gives = { λ _ e. e ≡ OutOfMemory };

    fn from(_error: AllocFailed<T>) -> RepeatedError {
        RepeatedError::OutOfMemory
    }
}

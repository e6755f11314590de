//! Why nodes have no order.

use std::alloc::{AllocError, AllocFailed};
use thiserror::Error;

/// Why the nodes of a graph have no order in which what a node leads to comes first.
#[derive(Debug, Drop, Error)]
pub enum CycleError {
    /// There is no memory for it.
    #[error("out of memory")]
    OutOfMemory,

    /// A node leads to itself.
    #[error("cycle in graph")]
    Cycle {
        /// The node.
        node: usize,
    },
}

impl From<AllocError> for CycleError {
    ghost use Rattle.std.specs.Prelude.{◌≡◌};
    ghost use Rattle.cedar_schema_resolver.specs.declared.closure_err.CycleError.TheVariants.{OutOfMemory};

    ghost from_gives = { λ _ e. e ≡ OutOfMemory };

    fn from(_error: AllocError) -> CycleError {
        CycleError::OutOfMemory
    }
}

impl<T: Drop> From<AllocFailed<T>> for CycleError {
    ghost use Rattle.std.specs.Prelude.{◌≡◌};
    ghost use Rattle.cedar_schema_resolver.specs.declared.closure_err.CycleError.TheVariants.{OutOfMemory};

    ghost from_gives = { λ _ e. e ≡ OutOfMemory };

    fn from(_error: AllocFailed<T>) -> CycleError {
        CycleError::OutOfMemory
    }
}

//! Why no value can be read by a type.

ghost use Rattle.std.specs.Prelude.{◌≡◌};

use std::alloc::{AllocError, AllocFailed};
use thiserror::Error;

/// Why no value can be read by a type.
#[derive(Debug, Drop, Error)]
pub enum CoreTypeError {
    /// There is no memory for it.
    #[error("out of memory")]
    OutOfMemory,

    /// The type of no value stands in it.
    #[error("no value can be read by the type of no value")]
    Never,

    /// The type of any entity stands in it.
    #[error("no value can be read by the type of any entity")]
    AnyEntity,

    /// A union of several entity types stands in it.
    #[error("no value can be read by a union of several entity types")]
    SeveralEntityTypes,
}

impl From<AllocError> for CoreTypeError {
    ghost use Rattle.cedar_schema_types.specs.declared.err.CoreTypeError.TheVariants.{OutOfMemory};

    ghost from_gives = { λ _ e. e ≡ OutOfMemory };

    fn from(_error: AllocError) -> CoreTypeError {
        CoreTypeError::OutOfMemory
    }
}

impl<T: Drop> From<AllocFailed<T>> for CoreTypeError {
    ghost use Rattle.cedar_schema_types.specs.declared.err.CoreTypeError.TheVariants.{OutOfMemory};

    ghost from_gives = { λ _ e. e ≡ OutOfMemory };

    fn from(_error: AllocFailed<T>) -> CoreTypeError {
        CoreTypeError::OutOfMemory
    }
}

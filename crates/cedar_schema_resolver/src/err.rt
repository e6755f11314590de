//! Why types aren't resolved.

ghost use Rattle.std.specs.Prelude.{◌≡◌};

use cedar_expr_names::{InternalName, Name, ReservedNameError};
use std::alloc::{AllocError, AllocFailed};
use thiserror::Error;

/// Why a written type, or the common types, stand for no types of a schema.
#[derive(Debug, Drop, Error)]
pub enum ResolveError {
    /// There is no memory for it.
    #[error("out of memory")]
    OutOfMemory,

    /// A type names an extension type that isn't one of those that are known.
    #[error("unknown extension type `{name}`")]
    UnknownExtensionType {
        /// The extension type.
        name: Name,
    },

    /// A reserved name stands where none may.
    #[error(transparent)]
    ReservedName(ReservedNameError),

    /// A common type is declared twice.
    #[error("duplicate common type `{name}`")]
    DuplicateCommonType {
        /// The common type.
        name: InternalName,
    },

    /// A common type uses itself, by way of others or straight.
    #[error("cycle in common type references: {name}")]
    CycleInCommonTypeReferences {
        /// The common type.
        name: InternalName,
    },
}

impl From<AllocError> for ResolveError {
    ghost use Rattle.cedar_schema_resolver.specs.declared.err.ResolveError.TheVariants.{OutOfMemory};

    ghost from_gives = { λ _ e. e ≡ OutOfMemory };

    fn from(_error: AllocError) -> ResolveError {
        ResolveError::OutOfMemory
    }
}

impl<T: Drop> From<AllocFailed<T>> for ResolveError {
    ghost use Rattle.cedar_schema_resolver.specs.declared.err.ResolveError.TheVariants.{OutOfMemory};

    ghost from_gives = { λ _ e. e ≡ OutOfMemory };

    fn from(_error: AllocFailed<T>) -> ResolveError {
        ResolveError::OutOfMemory
    }
}

impl From<ReservedNameError> for ResolveError {
    ghost use Rattle.cedar_schema_resolver.specs.declared.err.ResolveError.TheVariants.{ReservedName};

    ghost from_gives = { λ r e. e ≡ ReservedName r };

    fn from(error: ReservedNameError) -> ResolveError {
        ResolveError::ReservedName(error)
    }
}

//! Why declarations can't be assembled.

ghost use Rattle.std.specs.Prelude.{◌≡◌};

use cedar_expr_names::{EntityUID, InternalName, Name, ReservedNameError};
use std::alloc::{AllocError, AllocFailed};
use thiserror::Error;

/// Why resolved declarations tell no entity types or actions of a schema.
#[derive(Debug, Drop, Error)]
pub enum AssemblyError {
    /// There is no memory for it.
    #[error("out of memory")]
    OutOfMemory,

    /// An entity type is declared twice.
    #[error("duplicate entity type `{ty}`")]
    DuplicateEntityType {
        /// The entity type.
        ty: InternalName,
    },

    /// An action is declared twice.
    #[error("duplicate action `{uid}`")]
    DuplicateAction {
        /// The action.
        uid: EntityUID,
    },

    /// An action descends from itself.
    #[error("cycle in action hierarchy containing `{uid}`")]
    CycleInActionHierarchy {
        /// The action.
        uid: EntityUID,
    },

    /// The context of an action is no record.
    #[error("context of `{uid}` is not a record")]
    ContextNotRecord {
        /// The action.
        uid: EntityUID,
    },

    /// A type names an extension type that isn't one of those that are known.
    #[error("unknown extension type `{name}`")]
    UnknownExtensionType {
        /// The extension type.
        name: Name,
    },

    /// A reserved name stands where none may.
    #[error(transparent)]
    ReservedName(ReservedNameError),
}

impl From<AllocError> for AssemblyError {
    ghost use Rattle.cedar_schema_assembly.specs.declared.err.AssemblyError.TheVariants.{OutOfMemory};

    ghost from_gives = { λ _ e. e ≡ OutOfMemory };

    fn from(_error: AllocError) -> AssemblyError {
        AssemblyError::OutOfMemory
    }
}

impl<T: Drop> From<AllocFailed<T>> for AssemblyError {
    ghost use Rattle.cedar_schema_assembly.specs.declared.err.AssemblyError.TheVariants.{OutOfMemory};

    ghost from_gives = { λ _ e. e ≡ OutOfMemory };

    fn from(_error: AllocFailed<T>) -> AssemblyError {
        AssemblyError::OutOfMemory
    }
}

impl From<ReservedNameError> for AssemblyError {
    ghost use Rattle.cedar_schema_assembly.specs.declared.err.AssemblyError.TheVariants.{ReservedName};

    ghost from_gives = { λ r e. e ≡ ReservedName r };

    fn from(error: ReservedNameError) -> AssemblyError {
        AssemblyError::ReservedName(error)
    }
}

//! Why declarations are refused.

ghost use Rattle.std.specs.Prelude.{◌≡◌};

use cedar_expr_leaves::ConditionalName;
use cedar_expr_names::{EntityUID, InternalName};
use std::alloc::{AllocError, AllocFailed};
use thiserror::Error;

/// Why a name of a type isn't resolved.
#[derive(Debug, Drop, Error)]
pub enum TypeNotDefinedError {
    /// There is no memory for it.
    #[error("out of memory")]
    OutOfMemory,

    /// None of the types that it may stand for is declared.
    #[error("failed to resolve type: {}", .undefined_type.raw())]
    Undefined {
        /// The name.
        undefined_type: ConditionalName,
    },
}

impl From<AllocError> for TypeNotDefinedError {
    ghost use Rattle.cedar_schema_decl.specs.declared.err.TypeNotDefinedError.TheVariants.{OutOfMemory};

    ghost from_gives = { λ _ e. e ≡ OutOfMemory };

    fn from(_error: AllocError) -> TypeNotDefinedError {
        TypeNotDefinedError::OutOfMemory
    }
}

impl<T: Drop> From<AllocFailed<T>> for TypeNotDefinedError {
    ghost use Rattle.cedar_schema_decl.specs.declared.err.TypeNotDefinedError.TheVariants.{OutOfMemory};

    ghost from_gives = { λ _ e. e ≡ OutOfMemory };

    fn from(_error: AllocFailed<T>) -> TypeNotDefinedError {
        TypeNotDefinedError::OutOfMemory
    }
}

/// Why what is declared in a namespace is refused beside what is declared in the empty one.
#[derive(Debug, Drop, Error)]
pub enum ShadowingError {
    /// There is no memory for the check.
    #[error("out of memory")]
    OutOfMemory,

    /// A type has the last name of a type of the empty namespace.
    #[error("definition of `{shadowing_def}` illegally shadows a type of the empty namespace")]
    TypeShadowing {
        /// The type.
        shadowing_def: InternalName,
    },

    /// An action has the id of an action of the empty namespace.
    #[error("definition of `{shadowing_def}` illegally shadows an action of the empty namespace")]
    ActionShadowing {
        /// The action.
        shadowing_def: EntityUID,
    },
}

impl From<AllocError> for ShadowingError {
    ghost use Rattle.cedar_schema_decl.specs.declared.err.ShadowingError.TheVariants.{OutOfMemory};

    ghost from_gives = { λ _ e. e ≡ OutOfMemory };

    fn from(_error: AllocError) -> ShadowingError {
        ShadowingError::OutOfMemory
    }
}

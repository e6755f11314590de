//! Why what fragments declare is refused.

use cedar_expr_leaves::ConditionalName;
use cedar_expr_names::ReservedNameError;
use cedar_schema_decl::TypeNotDefinedError;
use std::alloc::{AllocError, AllocFailed};
use std::rc::RcStr;
use thiserror::Error;

/// Why what fragments declare is refused, before a schema is built of it.
#[derive(Debug, Drop, Error)]
pub enum FragmentError {
    /// There is no memory for it.
    #[error("out of memory")]
    OutOfMemory,

    /// None of the types that a name may stand for is declared.
    #[error("failed to resolve type: {}", .undefined_type.raw())]
    TypeNotDefined {
        /// The name.
        undefined_type: ConditionalName,
    },

    /// None of the actions that a parent may stand for is declared.
    #[error("failed to resolve action: {}::\"{id}\"", .ty.raw())]
    ActionNotDefined {
        /// The name of the parent's type.
        ty: ConditionalName,
        /// The parent's id.
        id: RcStr,
    },

    /// A reserved name stands where none may.
    #[error(transparent)]
    ReservedName(ReservedNameError),
}

impl From<AllocError> for FragmentError {
    ghost use Rattle.std.specs.Prelude.{◌≡◌};
    ghost use Rattle.cedar_schema_fragments.specs.declared.err.FragmentError.TheVariants.{OutOfMemory};

    ghost from_gives = { λ _ e. e ≡ OutOfMemory };

    fn from(_error: AllocError) -> FragmentError {
        FragmentError::OutOfMemory
    }
}

impl<T: Drop> From<AllocFailed<T>> for FragmentError {
    ghost use Rattle.std.specs.Prelude.{◌≡◌};
    ghost use Rattle.cedar_schema_fragments.specs.declared.err.FragmentError.TheVariants.{OutOfMemory};

    ghost from_gives = { λ _ e. e ≡ OutOfMemory };

    fn from(_error: AllocFailed<T>) -> FragmentError {
        FragmentError::OutOfMemory
    }
}

impl From<TypeNotDefinedError> for FragmentError {
    ghost use Rattle.std.specs.Prelude.{◌≡◌, option_map};
    ghost use Rattle.cedar_schema_decl.specs.Refusals.{undefined};
    ghost use Rattle.cedar_schema_fragments.specs.Refusals.{no_type, refusal};

    ghost from_gives = { λ t e. refusal e ≡ option_map no_type (undefined t) };

    fn from(error: TypeNotDefinedError) -> FragmentError {
        match error {
            TypeNotDefinedError::OutOfMemory => FragmentError::OutOfMemory,
            TypeNotDefinedError::Undefined { undefined_type } => {
                FragmentError::TypeNotDefined { undefined_type }
            }
        }
    }
}

impl From<ReservedNameError> for FragmentError {
    ghost use Rattle.std.specs.Prelude.{◌≡◌};
    ghost use Rattle.cedar_schema_fragments.specs.declared.err.FragmentError.TheVariants.{ReservedName};

    ghost from_gives = { λ r e. e ≡ ReservedName r };

    fn from(error: ReservedNameError) -> FragmentError {
        FragmentError::ReservedName(error)
    }
}

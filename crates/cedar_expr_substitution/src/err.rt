//! Why values can't be put in the place of unknowns.

use cedar_expr_values::Type;
use std::alloc::{AllocError, AllocFailed};
use std::rc::RcStr;
use thiserror::Error;

/// Why values can't be put in the place of unknowns.
#[derive(Debug, PartialEq, Eq, Drop, Error)]
pub enum SubstitutionError {
    /// There is no memory for the expression.
    #[error("out of memory")]
    OutOfMemory,

    /// An unknown is bound to a value of another type than its annotation.
    #[error("expected a value of type {expected}, got a value of type {actual}")]
    TypeError {
        /// The name of the unknown.
        name: RcStr,
        /// Its annotation.
        expected: Type,
        /// The type of the value.
        actual: Type,
    },
}

impl SubstitutionError {
    ghost use Rattle.std.specs.Prelude.{◌≡◌};
    ghost use Rattle.cedar_expr_substitution.specs.Numbers.{substitution_error_number};

    /// The number of the refusal: 0 for memory.
    pub fn number(&self) -> u32
        ensures { result ≡ substitution_error_number self.now }
    {
        match self {
            SubstitutionError::OutOfMemory => 0,
            SubstitutionError::TypeError { .. } => 1,
        }
    }
}

impl From<AllocError> for SubstitutionError {
    ghost use Rattle.std.specs.Prelude.{◌≡◌};
    ghost use Rattle.cedar_expr_substitution.specs.declared.err.SubstitutionError.TheVariants.{OutOfMemory};

    ghost from_gives = { λ _ e. e ≡ OutOfMemory };

    fn from(_error: AllocError) -> SubstitutionError {
        SubstitutionError::OutOfMemory
    }
}

impl<T: Drop> From<AllocFailed<T>> for SubstitutionError {
    ghost use Rattle.std.specs.Prelude.{◌≡◌};
    ghost use Rattle.cedar_expr_substitution.specs.declared.err.SubstitutionError.TheVariants.{OutOfMemory};

    ghost from_gives = { λ _ e. e ≡ OutOfMemory };

    fn from(_error: AllocFailed<T>) -> SubstitutionError {
        SubstitutionError::OutOfMemory
    }
}

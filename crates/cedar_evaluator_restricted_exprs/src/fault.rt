//! Why nothing is left of a restricted expression.

ghost use Rattle.std.specs.Prelude.{◌≡◌};
ghost use Rattle.cedar_evaluator_restricted_exprs.specs.declared.fault.RestrictedFault.TheVariants.{OutOfMemory};

use std::alloc::{AllocError, AllocFailed};

/// Why nothing is left of a restricted expression.
#[derive(Clone, Copy, Debug, PartialEq, Eq)]
pub enum RestrictedFault {
    /// There is no memory.
    OutOfMemory,
    /// The evaluation stops: a function is missing, refuses its arguments or fails, or the expression nests too deep.
    Stopped,
}

impl From<AllocError> for RestrictedFault {
    ghost from_gives = { λ _ fault. fault ≡ OutOfMemory };

    fn from(_refused: AllocError) -> RestrictedFault {
        RestrictedFault::OutOfMemory
    }
}

impl<T: Drop> From<AllocFailed<T>> for RestrictedFault {
    ghost from_gives = { λ _ fault. fault ≡ OutOfMemory };

    fn from(_refused: AllocFailed<T>) -> RestrictedFault {
        RestrictedFault::OutOfMemory
    }
}

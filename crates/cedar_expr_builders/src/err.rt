//! Why a builder makes nothing.

use std::alloc::{AllocError, AllocFailed};
use std::fmt;
use std::fmt::{Display, Formatter, Write};

/// Why a builder makes nothing of an expression.
#[derive(Debug, Drop)]
pub enum BuildFault<E> {
    /// There is no memory for the expression.
    OutOfMemory,

    /// The builder refuses a call.
    Refused(E),
}

impl<E> From<AllocError> for BuildFault<E> {
    ghost use Rattle.std.specs.Prelude.{◌≡◌};
    ghost use Rattle.cedar_expr_builders.specs.declared.err.BuildFault.TheVariants.{OutOfMemory};

    ghost from_gives = { λ _ e. e ≡ OutOfMemory };

    fn from(_error: AllocError) -> BuildFault<E> {
        BuildFault::OutOfMemory
    }
}

impl<T: Drop, E> From<AllocFailed<T>> for BuildFault<E> {
    ghost use Rattle.std.specs.Prelude.{◌≡◌};
    ghost use Rattle.cedar_expr_builders.specs.declared.err.BuildFault.TheVariants.{OutOfMemory};

    ghost from_gives = { λ _ e. e ≡ OutOfMemory };

    fn from(_error: AllocFailed<T>) -> BuildFault<E> {
        BuildFault::OutOfMemory
    }
}

impl<E: Display> Display for BuildFault<E> {
    ghost use Rattle.cedar_expr_builders.specs.Texts.{fault_text};

    ghost output = { fault_text E.output };

    fn fmt<W: Write>(&self, f: &mut Formatter<W>) -> fmt::Result {
        match self {
            BuildFault::OutOfMemory => write!(f, "out of memory"),
            BuildFault::Refused(e) => Display::fmt(e, f),
        }
    }
}

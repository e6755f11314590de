//! Why a session isn't opened, and why a binding is refused. A refused call leaves the session as it was.

ghost use Rattle.std.specs.Prelude.{◌≡◌};

use std::alloc::{AllocError, AllocFailed};
use thiserror::Error;

/// Why a session isn't opened.
#[derive(Clone, Copy, Debug, PartialEq, Eq, Error)]
pub enum OpenFault {
    /// Out of memory.
    #[error("out of memory")]
    OutOfMemory,
    /// The name of an unknown in the context holds a double quote.
    #[error("the name of an unknown holds a double quote")]
    QuoteInName,
    /// An unknown in the context is named as a variable of the request.
    #[error("an unknown is named as a variable")]
    NameOfVariable,
}

/// Why a binding is refused.
#[derive(Clone, Copy, Debug, PartialEq, Eq, Error)]
pub enum BindFault {
    /// Out of memory.
    #[error("out of memory")]
    OutOfMemory,
    /// The name isn't open.
    #[error("the name is not open")]
    NotOpen,
    /// The value isn't of the annotated type, or the entity of another type.
    #[error("the value is against the annotation")]
    AgainstAnnotation,
    /// A variable gets no entity, or the context no record.
    #[error("a variable gets no entity, or the context no record")]
    NoEntityOrRecord,
    /// The context fails to evaluate with the value.
    #[error("the context fails to evaluate")]
    ContextFails,
}

impl OpenFault {
    ghost use Rattle.cedar_gate_openings.specs.Faults.{open_fault_number};

    /// The number of the fault.
    pub fn number(self) -> u32
        ensures { result ≡ open_fault_number self }
    {
        match self {
            OpenFault::OutOfMemory => 0,
            OpenFault::QuoteInName => 1,
            OpenFault::NameOfVariable => 2,
        }
    }
}

impl BindFault {
    ghost use Rattle.cedar_gate_openings.specs.Faults.{bind_fault_number};

    /// The number of the fault.
    pub fn number(self) -> u32
        ensures { result ≡ bind_fault_number self }
    {
        match self {
            BindFault::OutOfMemory => 0,
            BindFault::NotOpen => 1,
            BindFault::AgainstAnnotation => 2,
            BindFault::NoEntityOrRecord => 3,
            BindFault::ContextFails => 4,
        }
    }
}

impl From<AllocError> for OpenFault {
    ghost use Rattle.cedar_gate_openings.specs.declared.faults.OpenFault.TheVariants.{OutOfMemory};

    ghost from_gives = { λ _ e. e ≡ OutOfMemory };

    fn from(_error: AllocError) -> OpenFault {
        OpenFault::OutOfMemory
    }
}

impl From<AllocError> for BindFault {
    ghost use Rattle.cedar_gate_openings.specs.declared.faults.BindFault.TheVariants.{OutOfMemory};

    ghost from_gives = { λ _ e. e ≡ OutOfMemory };

    fn from(_error: AllocError) -> BindFault {
        BindFault::OutOfMemory
    }
}

impl<T: Drop> From<AllocFailed<T>> for BindFault {
    ghost use Rattle.cedar_gate_openings.specs.declared.faults.BindFault.TheVariants.{OutOfMemory};

    ghost from_gives = { λ _ e. e ≡ OutOfMemory };

    fn from(_error: AllocFailed<T>) -> BindFault {
        BindFault::OutOfMemory
    }
}

//! Why calls of a session are refused. A refused call leaves the session as it was.

ghost use Rattle.std.specs.Prelude.{◌≡◌};

use cedar_gate_wanted::Unfit;
use std::alloc::AllocError;
use thiserror::Error;

/// Why what is supplied is refused.
#[derive(Clone, Copy, Debug, PartialEq, Eq, Error)]
pub enum SupplyFault {
    /// Out of memory.
    #[error("out of memory")]
    OutOfMemory,
    /// A uid isn't wanted.
    #[error("a uid is supplied that is not wanted")]
    NotWanted,
    /// A wanted uid is missing.
    #[error("a wanted uid is not supplied")]
    Lacking,
    /// A uid is given twice.
    #[error("a uid is supplied twice")]
    Repeated,
    /// An entity has another uid, or doesn't conform to the schema.
    #[error("an entity has another uid or does not conform")]
    WrongEntity,
}

/// Why no answer is given.
#[derive(Clone, Copy, Debug, PartialEq, Eq, Error)]
pub enum AnswerFault {
    /// Out of memory.
    #[error("out of memory")]
    OutOfMemory,
    /// Something isn't bound.
    #[error("something is not bound")]
    NotBound,
    /// Something is wanted.
    #[error("something is wanted")]
    StillWanted,
    /// All is bound, and the request doesn't conform to the schema.
    #[error("the request does not conform to the schema")]
    NotConforming,
}

impl SupplyFault {
    ghost use Rattle.cedar_gate_sessions.specs.Faults.{supply_fault_number};

    /// The number of the fault.
    pub fn number(self) -> u32
        ensures { result ≡ supply_fault_number self }
    {
        match self {
            SupplyFault::OutOfMemory => 0,
            SupplyFault::NotWanted => 1,
            SupplyFault::Lacking => 2,
            SupplyFault::Repeated => 3,
            SupplyFault::WrongEntity => 4,
        }
    }
}

impl AnswerFault {
    ghost use Rattle.cedar_gate_sessions.specs.Faults.{answer_fault_number};

    /// The number of the fault.
    pub fn number(self) -> u32
        ensures { result ≡ answer_fault_number self }
    {
        match self {
            AnswerFault::OutOfMemory => 0,
            AnswerFault::NotBound => 1,
            AnswerFault::StillWanted => 2,
            AnswerFault::NotConforming => 3,
        }
    }
}

impl From<AllocError> for SupplyFault {
    ghost use Rattle.cedar_gate_sessions.specs.declared.faults.SupplyFault.TheVariants.{OutOfMemory};

    ghost from_gives = { λ _ e. e ≡ OutOfMemory };

    fn from(_error: AllocError) -> SupplyFault {
        SupplyFault::OutOfMemory
    }
}

impl From<Unfit> for SupplyFault {
    ghost use Rattle.cedar_gate_sessions.specs.Faults.{unfit_fault};

    ghost from_gives = { λ u e. e ≡ unfit_fault u };

    fn from(unfit: Unfit) -> SupplyFault {
        match unfit {
            Unfit::OutOfMemory => SupplyFault::OutOfMemory,
            Unfit::NotWanted => SupplyFault::NotWanted,
            Unfit::Lacking => SupplyFault::Lacking,
            Unfit::Repeated => SupplyFault::Repeated,
        }
    }
}

impl From<AllocError> for AnswerFault {
    ghost use Rattle.cedar_gate_sessions.specs.declared.faults.AnswerFault.TheVariants.{OutOfMemory};

    ghost from_gives = { λ _ e. e ≡ OutOfMemory };

    fn from(_error: AllocError) -> AnswerFault {
        AnswerFault::OutOfMemory
    }
}

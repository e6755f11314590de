//! Why runs stop.

ghost use Rattle.std.specs.Prelude.{◌≡◌};

use crate::HostFault;
use crate::sessions::Refusal;
use std::alloc::{AllocError, AllocFailed};

/// Why a run stops; a refusal has its number.
#[derive(Clone, Copy)]
pub(crate) enum Stop {
    /// Out of memory.
    Memory,
    /// A fault of the host.
    Host,
    /// What the host answers is refused.
    Supplying(u32),
    /// A binding is refused.
    Binding(u32),
    /// The session gives no answer.
    Answering(u32),
}

impl From<AllocError> for Stop {
    ghost use Rattle.cedar_gate_runs.specs.declared.stops_with.Stop.TheVariants.{Memory};

    ghost from_gives = { λ _ s. s ≡ Memory };

    fn from(_error: AllocError) -> Stop {
        Stop::Memory
    }
}

impl<T: Drop> From<AllocFailed<T>> for Stop {
    ghost use Rattle.cedar_gate_runs.specs.declared.stops_with.Stop.TheVariants.{Memory};

    ghost from_gives = { λ _ s. s ≡ Memory };

    fn from(_error: AllocFailed<T>) -> Stop {
        Stop::Memory
    }
}

impl From<HostFault> for Stop {
    ghost use Rattle.cedar_gate_runs.specs.StopsWith.{host_stop};

    ghost from_gives = { λ f s. s ≡ host_stop f };

    fn from(fault: HostFault) -> Stop {
        match fault {
            HostFault::Memory => Stop::Memory,
            HostFault::Device => Stop::Host,
        }
    }
}

impl Stop {
    ghost use Rattle.cedar_gate_runs.specs.StopsWith.{supply_stop, bind_stop, answer_stop};

    /// What a refused supply stops a run with.
    pub(crate) fn supplying(refusal: Refusal) -> Stop
        ensures { result ≡ supply_stop refusal }
    {
        match refusal {
            Refusal::OutOfMemory => Stop::Memory,
            Refusal::Numbered(number) => Stop::Supplying(number),
        }
    }

    /// What a refused binding stops a run with.
    pub(crate) fn binding(refusal: Refusal) -> Stop
        ensures { result ≡ bind_stop refusal }
    {
        match refusal {
            Refusal::OutOfMemory => Stop::Memory,
            Refusal::Numbered(number) => Stop::Binding(number),
        }
    }

    /// What a refused answer stops a run with.
    pub(crate) fn answering(refusal: Refusal) -> Stop
        ensures { result ≡ answer_stop refusal }
    {
        match refusal {
            Refusal::OutOfMemory => Stop::Memory,
            Refusal::Numbered(number) => Stop::Answering(number),
        }
    }
}

//! Why runs stop without an answer.

use crate::transcript::Transcript;
use thiserror::Error;

/// Why a run comes to no answer, with what it did so far.
#[derive(Debug, Drop, Error)]
pub enum RunFault {
    /// Out of memory.
    #[error("out of memory")]
    Memory {
        /// What was done so far.
        transcript: Transcript,
    },
    /// The host failed.
    #[error("the host failed")]
    Host {
        /// What was done so far.
        transcript: Transcript,
    },
    /// The session isn't opened.
    #[error("no session is opened, by refusal {number}")]
    Opening {
        /// The number of the refusal.
        number: u32,
        /// What was done so far.
        transcript: Transcript,
    },
    /// What the host answers is refused.
    #[error("what is supplied is refused, by refusal {number}")]
    Supplying {
        /// The number of the refusal.
        number: u32,
        /// What was done so far.
        transcript: Transcript,
    },
    /// A binding is refused.
    #[error("a binding is refused, by refusal {number}")]
    Binding {
        /// The number of the refusal.
        number: u32,
        /// What was done so far.
        transcript: Transcript,
    },
    /// The session gives no answer.
    #[error("no answer is given, by refusal {number}")]
    Answering {
        /// The number of the refusal.
        number: u32,
        /// What was done so far.
        transcript: Transcript,
    },
}

impl RunFault {
    ghost use Rattle.std.specs.Prelude.{◌≡◌};
    ghost use Rattle.cedar_gate_runs.specs.Stops.{run_fault_number, run_fault_transcript};

    /// The number of the fault.
    pub fn number(&self) -> u32
        ensures { result ≡ run_fault_number self.now }
    {
        match self {
            RunFault::Memory { .. } => 0,
            RunFault::Host { .. } => 1,
            RunFault::Opening { .. } => 2,
            RunFault::Supplying { .. } => 3,
            RunFault::Binding { .. } => 4,
            RunFault::Answering { .. } => 5,
        }
    }

    /// What was done so far.
    pub fn transcript(&self) -> &Transcript
        ensures { result.now ≡ run_fault_transcript self.now }
    {
        match self {
            RunFault::Memory { transcript } => transcript,
            RunFault::Host { transcript } => transcript,
            RunFault::Opening { transcript, .. } => transcript,
            RunFault::Supplying { transcript, .. } => transcript,
            RunFault::Binding { transcript, .. } => transcript,
            RunFault::Answering { transcript, .. } => transcript,
        }
    }
}

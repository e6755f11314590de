//! Why an input isn't served, and reading all of an input.

ghost use Rattle.std.specs.Prelude.{◌≡◌, IfOk, IfErr, IfSome};

use std::alloc::Global;
use std::io::{ErrorKind, Read};
use thiserror::Error;

/// Why an input isn't served.
#[derive(Clone, Copy, Debug, PartialEq, Eq, Error)]
pub enum ServeFault {
    /// Out of memory.
    #[error("out of memory")]
    Memory,
    /// The reader failed.
    #[error("the reader failed")]
    Read,
    /// The writer failed, or took no byte.
    #[error("the writer failed")]
    Write,
}

impl ServeFault {
    ghost use Rattle.cedar_gate.specs.Serving.{serve_fault_number};

    /// The number of the fault.
    pub fn number(self) -> u32
        ensures { result ≡ serve_fault_number self }
    {
        match self {
            ServeFault::Memory => 0,
            ServeFault::Read => 1,
            ServeFault::Write => 2,
        }
    }
}

ghost use Rattle.cedar_gate.specs.Serving.{IsOfReading};

/// Reads all of an input.
///
/// # Errors
///
/// Out of memory, or a fault of the reader.
pub(crate) fn read_all<R: Read>(alloc: Global, reader: &mut R) -> Result<Vec<u8>, ServeFault>
    ensures read { IfOk result (λ input. IfSome (R.remaining reader.old) (λ bytes. input.items ≡ bytes)) }
    ensures fault { IfErr result IsOfReading }
{
    let mut input = Vec::new(alloc);
    match reader.read_to_end(&mut input) {
        Ok(_) => Ok(input),
        Err(e) => {
            if e.kind() == ErrorKind::OutOfMemory {
                Err(ServeFault::Memory)
            } else {
                Err(ServeFault::Read)
            }
        }
    }
}

//! Why nothing is printed.

use cedar_database_host::DatabaseFault;
use std::alloc::AllocError;
use thiserror::Error;

/// Why nothing, or not all, is printed for an input.
#[derive(Clone, Copy, Debug, PartialEq, Eq, Error)]
pub enum Fault {
    /// Out of memory.
    #[error("out of memory")]
    Memory,
    /// Standard input or the arguments can't be read.
    #[error("the reader failed")]
    Read,
    /// Standard output can't be written.
    #[error("the writer failed")]
    Write,
    /// The database can't be opened, or doesn't take the entities.
    #[error("{0}")]
    Database(DatabaseFault),
}

impl From<AllocError> for Fault {
    ghost use Rattle.std.specs.Prelude.{◌≡◌};
    ghost use Rattle.cedardatabase.specs.declared.fault.Fault.TheVariants.{Memory};

    ghost from_gives = { λ _ fault. fault ≡ Memory };

    fn from(_refused: AllocError) -> Fault {
        Fault::Memory
    }
}

impl From<DatabaseFault> for Fault {
    fn from(fault: DatabaseFault) -> Fault {
        match fault {
            DatabaseFault::OutOfMemory => Fault::Memory,
            other => Fault::Database(other),
        }
    }
}

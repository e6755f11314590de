//! Why a database isn't opened, or an entity isn't put into it.

use sqlite::{Error as SqliteError, ErrorCode};
use std::alloc::AllocError;
use thiserror::Error;

/// Why a database isn't opened, or an entity isn't put into it.
#[derive(Clone, Copy, Debug, PartialEq, Eq, Error)]
pub enum DatabaseFault {
    /// Out of memory.
    #[error("out of memory")]
    OutOfMemory,
    /// What is to be put in is no entity of a bundle's store, or no store.
    #[error("unreadable")]
    Unreadable,
    /// The database refused, or failed.
    #[error("database: {0}")]
    Database(SqliteError),
}

impl From<AllocError> for DatabaseFault {
    ghost use Rattle.std.specs.Prelude.{◌≡◌};
    ghost use Rattle.cedar_database_host.specs.declared.fault.DatabaseFault.TheVariants.{OutOfMemory};

    ghost from_gives = { λ _ fault. fault ≡ OutOfMemory };

    fn from(_refused: AllocError) -> DatabaseFault {
        DatabaseFault::OutOfMemory
    }
}

impl From<SqliteError> for DatabaseFault {
    ghost use Rattle.cedar_database_host.specs.Faults.{IsOfDatabase};

    ghost from_gives = { IsOfDatabase };

    fn from(error: SqliteError) -> DatabaseFault {
        match error {
            SqliteError::SqliteFailure(ErrorCode::OutOfMemory) => DatabaseFault::OutOfMemory,
            other => DatabaseFault::Database(other),
        }
    }
}

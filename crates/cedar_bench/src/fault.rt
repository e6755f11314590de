//! Why nothing is printed.

use cedar_evaluator::{EvaluationError, ReauthorizationError};
use cedar_expr::NameError;
use cedar_store::PolicySetError;
use std::alloc::{AllocError, AllocFailed};

/// Why nothing is printed.
#[derive(Clone, Copy)]
pub enum Fault {
    /// The input names no path.
    Unnamed,
    /// A call refused what it should take.
    Refused,
    /// There is no memory.
    OutOfMemory,
}

impl From<AllocError> for Fault {
    fn from(_error: AllocError) -> Fault {
        Fault::OutOfMemory
    }
}

impl<T: Drop> From<AllocFailed<T>> for Fault {
    fn from(_error: AllocFailed<T>) -> Fault {
        Fault::OutOfMemory
    }
}

impl From<NameError> for Fault {
    fn from(error: NameError) -> Fault {
        match error {
            NameError::OutOfMemory => Fault::OutOfMemory,
            NameError::NotNormalized | NameError::Reserved(_) => Fault::Refused,
        }
    }
}

impl From<PolicySetError> for Fault {
    fn from(error: PolicySetError) -> Fault {
        match error {
            PolicySetError::OutOfMemory => Fault::OutOfMemory,
            PolicySetError::Occupied { .. } => Fault::Refused,
        }
    }
}

impl From<EvaluationError> for Fault {
    fn from(error: EvaluationError) -> Fault {
        if error.is_out_of_memory() {
            Fault::OutOfMemory
        } else {
            Fault::Refused
        }
    }
}

impl From<ReauthorizationError> for Fault {
    fn from(error: ReauthorizationError) -> Fault {
        if error.is_out_of_memory() {
            Fault::OutOfMemory
        } else {
            Fault::Refused
        }
    }
}

//! Why a request doesn't take values for what is unknown in it.

ghost use Rattle.std.specs.Prelude.{◌≡◌};
ghost use Rattle.cedar_evaluator_contexts.specs.Refusals.{as_concretization, is_request_memory};
ghost use Rattle.cedar_evaluator_contexts.specs.declared.err.ConcretizationError.TheVariants as concretization;

use cedar_evaluator_errors::EvaluationError;
use cedar_evaluator_reads::{Left, V};
use cedar_expr_names::EntityType;
use std::alloc::{AllocError, AllocFailed};
use std::rc::RcStr;
use thiserror::Error;

/// Why a request doesn't take values for what is unknown in it.
#[derive(Debug, Error)]
pub enum ConcretizationError {
    /// There is no memory for the request.
    #[error("out of memory")]
    OutOfMemory,

    /// A variable is given a value that is no entity, or the context one that is no record.
    #[error("invalid value of {id}: expected type {expected_type}")]
    ValueError {
        /// The name of the variable.
        id: RcStr,
        /// What it has to be: `entity` or `record`.
        expected_type: &'static str,
        /// What it is given.
        given_value: V,
    },

    /// A variable is given a value, though it is known.
    #[error("concretizing existing value of {id}")]
    VarConfictError {
        /// The name of the variable.
        id: RcStr,
        /// What is known of it.
        existing_value: Left,
        /// What it is given.
        given_value: V,
    },

    /// A variable is given an entity of another type than is known of it.
    #[error("concretizing existing but unknown entity value of type {existing_value} of {id}")]
    EntityTypeConfictError {
        /// The name of the variable.
        id: RcStr,
        /// The type that is known.
        existing_value: EntityType,
        /// What it is given.
        given_value: V,
    },

    /// The context doesn't evaluate with the values.
    #[error(transparent)]
    ValueEval(EvaluationError),
}

// prover: see ARCHITECTURE
impl Drop for ConcretizationError {
    fn drop(self) {
        match self {
            ConcretizationError::OutOfMemory => {}
            ConcretizationError::ValueError {
                id: _,
                expected_type: _,
                given_value: _,
            } => {}
            ConcretizationError::VarConfictError {
                id: _,
                existing_value: _,
                given_value: _,
            } => {}
            ConcretizationError::EntityTypeConfictError {
                id: _,
                existing_value: _,
                given_value: _,
            } => {}
            ConcretizationError::ValueEval(_) => {}
        }
    }
}

impl ConcretizationError {
    /// Whether it is out of memory.
    pub fn is_out_of_memory(&self) -> bool
        ensures { result ≡ is_request_memory self.now }
    {
        match self {
            ConcretizationError::OutOfMemory => true,
            ConcretizationError::ValueEval(error) => error.is_out_of_memory(),
            ConcretizationError::ValueError { .. }
            | ConcretizationError::VarConfictError { .. }
            | ConcretizationError::EntityTypeConfictError { .. } => false,
        }
    }
}

impl From<AllocError> for ConcretizationError {
    ghost from_gives = { λ _ e. e ≡ concretization.OutOfMemory };

    fn from(_error: AllocError) -> ConcretizationError {
        ConcretizationError::OutOfMemory
    }
}

impl<T: Drop> From<AllocFailed<T>> for ConcretizationError {
    ghost from_gives = { λ _ e. e ≡ concretization.OutOfMemory };

    fn from(_error: AllocFailed<T>) -> ConcretizationError {
        ConcretizationError::OutOfMemory
    }
}

impl From<EvaluationError> for ConcretizationError {
    ghost from_gives = { λ x e. e ≡ as_concretization x };

    fn from(error: EvaluationError) -> ConcretizationError {
        if error.is_out_of_memory() {
            ConcretizationError::OutOfMemory
        } else {
            ConcretizationError::ValueEval(error)
        }
    }
}

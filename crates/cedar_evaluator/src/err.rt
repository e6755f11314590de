//! Why a partial response isn't reauthorized.

ghost use Rattle.std.specs.Prelude.{◌≡◌};
ghost use Rattle.cedar_evaluator.specs.Refusals.{as_reauthorization, is_again_memory, set_refusal};
ghost use Rattle.cedar_evaluator.specs.declared.err.ReauthorizationError.TheVariants as reauthorization;

use cedar_evaluator_contexts::ConcretizationError;
use cedar_store_parts::PolicySetError;
use std::alloc::AllocError;
use thiserror::Error;

/// Why a partial response isn't reauthorized.
#[derive(Debug, Error)]
pub enum ReauthorizationError {
    /// There is no memory for the response.
    #[error("out of memory")]
    OutOfMemory,

    /// An id is repeated among the policies of the response.
    #[error(transparent)]
    PolicySetError(PolicySetError),

    /// The request doesn't take the values.
    #[error(transparent)]
    ConcretizationError(ConcretizationError),
}

// prover: see ARCHITECTURE
impl Drop for ReauthorizationError {
    fn drop(self) {
        match self {
            ReauthorizationError::OutOfMemory => {}
            ReauthorizationError::PolicySetError(_) => {}
            ReauthorizationError::ConcretizationError(_) => {}
        }
    }
}

impl ReauthorizationError {
    /// Whether it is out of memory.
    pub fn is_out_of_memory(&self) -> bool
        ensures { result ≡ is_again_memory self.now }
    {
        match self {
            ReauthorizationError::OutOfMemory => true,
            ReauthorizationError::PolicySetError(error) => match error {
                PolicySetError::OutOfMemory => true,
                PolicySetError::Occupied { .. } => false,
            },
            ReauthorizationError::ConcretizationError(error) => error.is_out_of_memory(),
        }
    }
}

impl From<AllocError> for ReauthorizationError {
    ghost from_gives = { λ _ e. e ≡ reauthorization.OutOfMemory };

    fn from(_error: AllocError) -> ReauthorizationError {
        ReauthorizationError::OutOfMemory
    }
}

impl From<PolicySetError> for ReauthorizationError {
    ghost from_gives = { λ x e. e ≡ set_refusal x };

    fn from(error: PolicySetError) -> ReauthorizationError {
        match error {
            PolicySetError::OutOfMemory => ReauthorizationError::OutOfMemory,
            PolicySetError::Occupied { id } => {
                ReauthorizationError::PolicySetError(PolicySetError::Occupied { id })
            }
        }
    }
}

impl From<ConcretizationError> for ReauthorizationError {
    ghost from_gives = { λ x e. e ≡ as_reauthorization x };

    fn from(error: ConcretizationError) -> ReauthorizationError {
        if error.is_out_of_memory() {
            ReauthorizationError::OutOfMemory
        } else {
            ReauthorizationError::ConcretizationError(error)
        }
    }
}

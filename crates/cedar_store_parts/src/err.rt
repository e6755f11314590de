//! Why policies, templates and links are refused.

ghost use Rattle.std.specs.Prelude.{◌≡◌};

use crate::PolicyID;
use cedar_expr_leaves::{Slot, SlotId};
use std::alloc::{AllocError, AllocFailed};
use thiserror::Error;

/// Why a policy is no static one.
#[derive(Clone, Copy, Debug, PartialEq, Eq, Error)]
pub enum UnexpectedSlotError {
    /// There is no memory for the policy.
    #[error("out of memory")]
    OutOfMemory,

    /// A slot stands in the policy, at a place.
    #[error("found slot `{}` where slots are not allowed", .0.id)]
    FoundSlot(Slot),
}

impl From<AllocError> for UnexpectedSlotError {
    ghost use Rattle.cedar_store_parts.specs.declared.err.UnexpectedSlotError.TheVariants.{OutOfMemory};

    ghost from_gives = { λ _ e. e ≡ OutOfMemory };

    fn from(_error: AllocError) -> UnexpectedSlotError {
        UnexpectedSlotError::OutOfMemory
    }
}

impl<T: Drop> From<AllocFailed<T>> for UnexpectedSlotError {
    ghost use Rattle.cedar_store_parts.specs.declared.err.UnexpectedSlotError.TheVariants.{OutOfMemory};

    ghost from_gives = { λ _ e. e ≡ OutOfMemory };

    fn from(_error: AllocFailed<T>) -> UnexpectedSlotError {
        UnexpectedSlotError::OutOfMemory
    }
}

/// Why a policy or a template isn't put into a set.
#[derive(Debug, Drop, Error)]
pub enum PolicySetError {
    /// There is no memory for it.
    #[error("out of memory")]
    OutOfMemory,

    /// Its id is present.
    #[error("duplicate template or policy id `{id}`")]
    Occupied {
        /// The id.
        id: PolicyID,
    },
}

/// Why a template isn't linked.
#[derive(Debug, Drop, Error)]
pub enum LinkingError {
    /// There is no memory for the policy.
    #[error("out of memory")]
    OutOfMemory,

    /// The new id is present.
    #[error("template-linked policy id `{id}` conflicts with an existing policy id")]
    PolicyIdConflict {
        /// The id.
        id: PolicyID,
    },

    /// A slot of the template isn't bound.
    #[error("the slot `{slot}` was not provided as an argument")]
    UnboundSlot {
        /// The slot.
        slot: SlotId,
    },

    /// A slot is bound that the template hasn't.
    #[error("the slot `{slot}` was provided as an argument, but did not exist in the template")]
    ExtraSlot {
        /// The slot.
        slot: SlotId,
    },

    /// No template has the id.
    #[error("failed to find a template with id `{id}`")]
    NoSuchTemplate {
        /// The id.
        id: PolicyID,
    },
}

impl PolicySetError {
    ghost use Rattle.cedar_store_parts.specs.Numbers.{set_error_number};

    /// The number of the refusal: 0 for memory.
    pub fn number(&self) -> u32
        ensures { result ≡ set_error_number self.now }
    {
        match self {
            PolicySetError::OutOfMemory => 0,
            PolicySetError::Occupied { .. } => 1,
        }
    }
}

impl LinkingError {
    ghost use Rattle.cedar_store_parts.specs.Numbers.{linking_error_number};

    /// The number of the refusal: 0 for memory.
    pub fn number(&self) -> u32
        ensures { result ≡ linking_error_number self.now }
    {
        match self {
            LinkingError::OutOfMemory => 0,
            LinkingError::PolicyIdConflict { .. } => 1,
            LinkingError::UnboundSlot { .. } => 2,
            LinkingError::ExtraSlot { .. } => 3,
            LinkingError::NoSuchTemplate { .. } => 4,
        }
    }
}

impl From<AllocError> for PolicySetError {
    ghost use Rattle.cedar_store_parts.specs.declared.err.PolicySetError.TheVariants.{OutOfMemory};

    ghost from_gives = { λ _ e. e ≡ OutOfMemory };

    fn from(_error: AllocError) -> PolicySetError {
        PolicySetError::OutOfMemory
    }
}

impl<T: Drop> From<AllocFailed<T>> for PolicySetError {
    ghost use Rattle.cedar_store_parts.specs.declared.err.PolicySetError.TheVariants.{OutOfMemory};

    ghost from_gives = { λ _ e. e ≡ OutOfMemory };

    fn from(_error: AllocFailed<T>) -> PolicySetError {
        PolicySetError::OutOfMemory
    }
}

impl From<AllocError> for LinkingError {
    ghost use Rattle.cedar_store_parts.specs.declared.err.LinkingError.TheVariants.{OutOfMemory};

    ghost from_gives = { λ _ e. e ≡ OutOfMemory };

    fn from(_error: AllocError) -> LinkingError {
        LinkingError::OutOfMemory
    }
}

impl<T: Drop> From<AllocFailed<T>> for LinkingError {
    ghost use Rattle.cedar_store_parts.specs.declared.err.LinkingError.TheVariants.{OutOfMemory};

    ghost from_gives = { λ _ e. e ≡ OutOfMemory };

    fn from(_error: AllocFailed<T>) -> LinkingError {
        LinkingError::OutOfMemory
    }
}

impl From<PolicySetError> for LinkingError {
    ghost use Rattle.cedar_store_parts.specs.Numbers.{as_linking};

    ghost from_gives = { λ x e. e ≡ as_linking x };

    fn from(error: PolicySetError) -> LinkingError {
        match error {
            PolicySetError::OutOfMemory => LinkingError::OutOfMemory,
            PolicySetError::Occupied { id } => LinkingError::PolicyIdConflict { id },
        }
    }
}

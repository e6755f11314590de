//! Why an expression has no value.

ghost use Rattle.std.specs.Prelude.{◌≡◌};
ghost use Rattle.cedar_evaluator_model.specs.Scope.{Stop};
ghost use Rattle.cedar_evaluator_errors.specs.Contents.{IsSameError};
ghost use Rattle.cedar_evaluator_errors.specs.Outcomes.{is_memory, stop_or};
ghost use Rattle.cedar_evaluator_errors.specs.Places.{error_place, error_moved, error_placed};
ghost use Rattle.cedar_evaluator_errors.specs.declared.err.EvaluationError.TheVariants.{OutOfMemory};

use crate::evaluation_errors::{
    EntityAttrDoesNotExistError, EntityDoesNotExistError, ExtensionFunctionExecutionError,
    IntegerOverflowError, NonValueError, RecordAttrDoesNotExistError, RecursionLimitError,
    TypeError, UnlinkedSlotError, WrongNumArgumentsError, ZeroDivisorError, is_lookup_memory,
    lookup_at, lookup_loc,
};
use cedar_expr_functions::ExtensionFunctionLookupError;
use cedar_expr_names::Loc;
use std::alloc::{AllocError, AllocFailed};
use thiserror::Error;

/// Why an expression has no value.
#[derive(Debug, PartialEq, Eq, Error)]
pub enum EvaluationError {
    /// There is no memory.
    #[error("out of memory")]
    OutOfMemory,

    /// There is no such entity.
    #[error(transparent)]
    EntityDoesNotExist(EntityDoesNotExistError),

    /// The entity has no such attribute, or no such tag.
    #[error(transparent)]
    EntityAttrDoesNotExist(EntityAttrDoesNotExistError),

    /// The record has no such field.
    #[error(transparent)]
    RecordAttrDoesNotExist(RecordAttrDoesNotExistError),

    /// There is no function of the name.
    #[error(transparent)]
    FailedExtensionFunctionLookup(ExtensionFunctionLookupError),

    /// A value isn't of a type that is asked for.
    #[error(transparent)]
    TypeError(TypeError),

    /// The function doesn't take so many arguments.
    #[error(transparent)]
    WrongNumArguments(WrongNumArgumentsError),

    /// A whole number isn't of 64 bits.
    #[error(transparent)]
    IntegerOverflow(IntegerOverflowError),

    /// The divisor of a remainder is zero.
    #[error(transparent)]
    ZeroDivisor(ZeroDivisorError),

    /// The slot isn't bound.
    #[error(transparent)]
    UnlinkedSlot(UnlinkedSlotError),

    /// The function failed.
    #[error(transparent)]
    FailedExtensionFunctionExecution(ExtensionFunctionExecutionError),

    /// The expression has unknowns.
    #[error(transparent)]
    NonValue(NonValueError),

    /// The expression nests deeper than the limit.
    #[error(transparent)]
    RecursionLimit(RecursionLimitError),
}

impl Clone for EvaluationError {
    ghost is_clone = { IsSameError };

    #[tactic(auto, using(crate::proofs::Copied::texts_copied))]
    fn clone(&self) -> Result<EvaluationError, AllocError> {
        match self {
            EvaluationError::OutOfMemory => Ok(EvaluationError::OutOfMemory),
            EvaluationError::EntityDoesNotExist(e) => Ok(EvaluationError::EntityDoesNotExist(
                e.clone()?,
            )),
            EvaluationError::EntityAttrDoesNotExist(e) => Ok(
                EvaluationError::EntityAttrDoesNotExist(e.clone()?),
            ),
            EvaluationError::RecordAttrDoesNotExist(e) => Ok(
                EvaluationError::RecordAttrDoesNotExist(e.clone()?),
            ),
            EvaluationError::FailedExtensionFunctionLookup(e) => Ok(
                EvaluationError::FailedExtensionFunctionLookup(e.clone()?),
            ),
            EvaluationError::TypeError(e) => Ok(EvaluationError::TypeError(e.clone()?)),
            EvaluationError::WrongNumArguments(e) => Ok(EvaluationError::WrongNumArguments(
                e.clone()?,
            )),
            EvaluationError::IntegerOverflow(e) => Ok(EvaluationError::IntegerOverflow(e.clone()?)),
            EvaluationError::ZeroDivisor(e) => Ok(EvaluationError::ZeroDivisor(e.clone()?)),
            EvaluationError::UnlinkedSlot(e) => Ok(EvaluationError::UnlinkedSlot(e.clone()?)),
            EvaluationError::FailedExtensionFunctionExecution(e) => Ok(
                EvaluationError::FailedExtensionFunctionExecution(e.clone()?),
            ),
            EvaluationError::NonValue(e) => Ok(EvaluationError::NonValue(e.clone()?)),
            EvaluationError::RecursionLimit(e) => Ok(EvaluationError::RecursionLimit(e.clone()?)),
        }
    }
}

// prover: see ARCHITECTURE
impl Drop for EvaluationError {
    fn drop(self) {
        match self {
            EvaluationError::OutOfMemory => {}
            EvaluationError::EntityDoesNotExist(_) => {}
            EvaluationError::EntityAttrDoesNotExist(_) => {}
            EvaluationError::RecordAttrDoesNotExist(_) => {}
            EvaluationError::FailedExtensionFunctionLookup(_) => {}
            EvaluationError::TypeError(_) => {}
            EvaluationError::WrongNumArguments(_) => {}
            EvaluationError::IntegerOverflow(_) => {}
            EvaluationError::ZeroDivisor(_) => {}
            EvaluationError::UnlinkedSlot(_) => {}
            EvaluationError::FailedExtensionFunctionExecution(_) => {}
            EvaluationError::NonValue(_) => {}
            EvaluationError::RecursionLimit(_) => {}
        }
    }
}

impl From<AllocError> for EvaluationError {
    ghost from_gives = { λ _ e. e ≡ OutOfMemory };

    fn from(_error: AllocError) -> EvaluationError {
        EvaluationError::OutOfMemory
    }
}

impl<T: Drop> From<AllocFailed<T>> for EvaluationError {
    ghost from_gives = { λ _ e. e ≡ OutOfMemory };

    fn from(_error: AllocFailed<T>) -> EvaluationError {
        EvaluationError::OutOfMemory
    }
}

impl From<EntityDoesNotExistError> for EvaluationError {
    ghost use Rattle.cedar_evaluator_errors.specs.declared.err.EvaluationError.TheVariants as evaluation;

    ghost from_gives = { λ x e. e ≡ evaluation.EntityDoesNotExist x };

    fn from(error: EntityDoesNotExistError) -> EvaluationError {
        EvaluationError::EntityDoesNotExist(error)
    }
}

impl From<EntityAttrDoesNotExistError> for EvaluationError {
    ghost use Rattle.cedar_evaluator_errors.specs.declared.err.EvaluationError.TheVariants as evaluation;

    ghost from_gives = { λ x e. e ≡ evaluation.EntityAttrDoesNotExist x };

    fn from(error: EntityAttrDoesNotExistError) -> EvaluationError {
        EvaluationError::EntityAttrDoesNotExist(error)
    }
}

impl From<RecordAttrDoesNotExistError> for EvaluationError {
    ghost use Rattle.cedar_evaluator_errors.specs.declared.err.EvaluationError.TheVariants as evaluation;

    ghost from_gives = { λ x e. e ≡ evaluation.RecordAttrDoesNotExist x };

    fn from(error: RecordAttrDoesNotExistError) -> EvaluationError {
        EvaluationError::RecordAttrDoesNotExist(error)
    }
}

impl From<ExtensionFunctionLookupError> for EvaluationError {
    ghost use Rattle.cedar_evaluator_errors.specs.declared.err.EvaluationError.TheVariants as evaluation;

    ghost from_gives = { λ x e. e ≡ evaluation.FailedExtensionFunctionLookup x };

    fn from(error: ExtensionFunctionLookupError) -> EvaluationError {
        EvaluationError::FailedExtensionFunctionLookup(error)
    }
}

impl From<TypeError> for EvaluationError {
    ghost use Rattle.cedar_evaluator_errors.specs.declared.err.EvaluationError.TheVariants as evaluation;

    ghost from_gives = { λ x e. e ≡ evaluation.TypeError x };

    fn from(error: TypeError) -> EvaluationError {
        EvaluationError::TypeError(error)
    }
}

impl From<WrongNumArgumentsError> for EvaluationError {
    ghost use Rattle.cedar_evaluator_errors.specs.declared.err.EvaluationError.TheVariants as evaluation;

    ghost from_gives = { λ x e. e ≡ evaluation.WrongNumArguments x };

    fn from(error: WrongNumArgumentsError) -> EvaluationError {
        EvaluationError::WrongNumArguments(error)
    }
}

impl From<IntegerOverflowError> for EvaluationError {
    ghost use Rattle.cedar_evaluator_errors.specs.declared.err.EvaluationError.TheVariants as evaluation;

    ghost from_gives = { λ x e. e ≡ evaluation.IntegerOverflow x };

    fn from(error: IntegerOverflowError) -> EvaluationError {
        EvaluationError::IntegerOverflow(error)
    }
}

impl From<ZeroDivisorError> for EvaluationError {
    ghost use Rattle.cedar_evaluator_errors.specs.declared.err.EvaluationError.TheVariants as evaluation;

    ghost from_gives = { λ x e. e ≡ evaluation.ZeroDivisor x };

    fn from(error: ZeroDivisorError) -> EvaluationError {
        EvaluationError::ZeroDivisor(error)
    }
}

impl From<UnlinkedSlotError> for EvaluationError {
    ghost use Rattle.cedar_evaluator_errors.specs.declared.err.EvaluationError.TheVariants as evaluation;

    ghost from_gives = { λ x e. e ≡ evaluation.UnlinkedSlot x };

    fn from(error: UnlinkedSlotError) -> EvaluationError {
        EvaluationError::UnlinkedSlot(error)
    }
}

impl From<ExtensionFunctionExecutionError> for EvaluationError {
    ghost use Rattle.cedar_evaluator_errors.specs.declared.err.EvaluationError.TheVariants as evaluation;

    ghost from_gives = { λ x e. e ≡ evaluation.FailedExtensionFunctionExecution x };

    fn from(error: ExtensionFunctionExecutionError) -> EvaluationError {
        EvaluationError::FailedExtensionFunctionExecution(error)
    }
}

impl From<NonValueError> for EvaluationError {
    ghost use Rattle.cedar_evaluator_errors.specs.declared.err.EvaluationError.TheVariants as evaluation;

    ghost from_gives = { λ x e. e ≡ evaluation.NonValue x };

    fn from(error: NonValueError) -> EvaluationError {
        EvaluationError::NonValue(error)
    }
}

impl From<RecursionLimitError> for EvaluationError {
    ghost use Rattle.cedar_evaluator_errors.specs.declared.err.EvaluationError.TheVariants as evaluation;

    ghost from_gives = { λ x e. e ≡ evaluation.RecursionLimit x };

    fn from(error: RecursionLimitError) -> EvaluationError {
        EvaluationError::RecursionLimit(error)
    }
}

impl EvaluationError {
    /// Whether memory was wanting.
    pub fn is_out_of_memory(&self) -> bool
        ensures { result ≡ is_memory self.now }
    {
        match self {
            EvaluationError::OutOfMemory => true,
            EvaluationError::FailedExtensionFunctionLookup(e) => is_lookup_memory(e),
            _ => false,
        }
    }

    /// The place of the error, if it has one.
    pub fn source_loc(&self) -> Option<Loc>
        ensures { result ≡ error_place self.now }
    {
        match self {
            EvaluationError::OutOfMemory => None,
            EvaluationError::FailedExtensionFunctionLookup(e) => lookup_loc(e),
            EvaluationError::IntegerOverflow(e) => e.source_loc(),
            EvaluationError::EntityDoesNotExist(e) => e.source_loc,
            EvaluationError::EntityAttrDoesNotExist(e) => e.source_loc,
            EvaluationError::RecordAttrDoesNotExist(e) => e.source_loc,
            EvaluationError::TypeError(e) => e.source_loc,
            EvaluationError::WrongNumArguments(e) => e.source_loc,
            EvaluationError::ZeroDivisor(e) => e.source_loc,
            EvaluationError::UnlinkedSlot(e) => e.source_loc,
            EvaluationError::FailedExtensionFunctionExecution(e) => e.source_loc,
            EvaluationError::NonValue(e) => e.source_loc,
            EvaluationError::RecursionLimit(e) => e.source_loc,
        }
    }

    /// The error at this place, or without one. All else is as it was.
    pub fn with_maybe_source_loc(self, source_loc: Option<Loc>) -> EvaluationError
        ensures moved { result ≡ error_moved source_loc self }
        ensures memory { is_memory result ≡ is_memory self }
        ensures stop { (other : Stop) → stop_or other result ≡ stop_or other self }
    {
        match self {
            EvaluationError::OutOfMemory => EvaluationError::OutOfMemory,
            EvaluationError::EntityDoesNotExist(e) => EvaluationError::EntityDoesNotExist(
                EntityDoesNotExistError { source_loc, ..e },
            ),
            EvaluationError::EntityAttrDoesNotExist(e) => EvaluationError::EntityAttrDoesNotExist(
                EntityAttrDoesNotExistError { source_loc, ..e },
            ),
            EvaluationError::RecordAttrDoesNotExist(e) => EvaluationError::RecordAttrDoesNotExist(
                RecordAttrDoesNotExistError { source_loc, ..e },
            ),
            EvaluationError::FailedExtensionFunctionLookup(e) =>
                EvaluationError::FailedExtensionFunctionLookup(lookup_at(e, source_loc)),
            EvaluationError::TypeError(e) => EvaluationError::TypeError(TypeError {
                source_loc,
                ..e
            }),
            EvaluationError::WrongNumArguments(e) => EvaluationError::WrongNumArguments(
                WrongNumArgumentsError { source_loc, ..e },
            ),
            EvaluationError::IntegerOverflow(e) => EvaluationError::IntegerOverflow(
                e.with_maybe_source_loc(source_loc),
            ),
            EvaluationError::ZeroDivisor(_) => EvaluationError::ZeroDivisor(ZeroDivisorError {
                source_loc,
            }),
            EvaluationError::UnlinkedSlot(e) => EvaluationError::UnlinkedSlot(UnlinkedSlotError {
                source_loc,
                ..e
            }),
            EvaluationError::FailedExtensionFunctionExecution(e) =>
                EvaluationError::FailedExtensionFunctionExecution(ExtensionFunctionExecutionError {
                    source_loc,
                    ..e
                }),
            EvaluationError::NonValue(e) => EvaluationError::NonValue(NonValueError {
                source_loc,
                ..e
            }),
            EvaluationError::RecursionLimit(_) => EvaluationError::RecursionLimit(
                RecursionLimitError { source_loc },
            ),
        }
    }

    /// The error at its own place, or at this one where it has none.
    pub fn or_at(self, source_loc: Option<Loc>) -> EvaluationError
        ensures placed { result ≡ error_placed source_loc self }
        ensures memory { is_memory result ≡ is_memory self }
        ensures stop { (other : Stop) → stop_or other result ≡ stop_or other self }
    {
        if self.source_loc().is_some() {
            self
        } else {
            self.with_maybe_source_loc(source_loc)
        }
    }
}

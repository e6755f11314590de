//! Why an expression isn't restricted, and why it makes no context.

ghost use Rattle.std.specs.Prelude.{◌≡◌};
ghost use Rattle.cedar_evaluator_errors.specs.declared.restricted.RestrictedExpressionError.TheVariants as restricted;
ghost use Rattle.cedar_evaluator_errors.specs.declared.restricted.PartialValueToRestrictedExprError.TheVariants as from_partial;
ghost use Rattle.cedar_evaluator_errors.specs.declared.restricted.ContextCreationError.TheVariants as creation;

use crate::err::EvaluationError;
use cedar_expr_trees::{Expr, ExpressionConstructionError};
use std::alloc::{AllocError, AllocFailed};
use std::rc::RcStr;
use thiserror::Error;

/// A restricted expression has a part that it mustn't have.
#[derive(Debug, Clone, PartialEq, Eq, Drop, Error)]
#[error("not allowed to use {feature} in a restricted expression")]
pub struct InvalidRestrictedExpressionError {
    /// What the part is.
    pub feature: RcStr,
    /// The part.
    pub expr: Expr,
}

/// Why an expression isn't restricted.
#[derive(Debug, Clone, PartialEq, Eq, Drop, Error)]
pub enum RestrictedExpressionError {
    /// There is no memory for the refusal.
    #[error("out of memory")]
    OutOfMemory,

    /// It has a part that it mustn't have.
    #[error(transparent)]
    InvalidRestrictedExpression(InvalidRestrictedExpressionError),
}

impl From<AllocError> for RestrictedExpressionError {
    ghost from_gives = { λ _ e. e ≡ restricted.OutOfMemory };

    fn from(_error: AllocError) -> RestrictedExpressionError {
        RestrictedExpressionError::OutOfMemory
    }
}

impl<T: Drop> From<AllocFailed<T>> for RestrictedExpressionError {
    ghost from_gives = { λ _ e. e ≡ restricted.OutOfMemory };

    fn from(_error: AllocFailed<T>) -> RestrictedExpressionError {
        RestrictedExpressionError::OutOfMemory
    }
}

impl From<InvalidRestrictedExpressionError> for RestrictedExpressionError {
    ghost from_gives = { λ x e. e ≡ restricted.InvalidRestrictedExpression x };

    fn from(error: InvalidRestrictedExpressionError) -> RestrictedExpressionError {
        RestrictedExpressionError::InvalidRestrictedExpression(error)
    }
}

/// Why a value, or what is left of an expression, makes no restricted expression.
#[derive(Debug, PartialEq, Eq, Drop, Error)]
pub enum PartialValueToRestrictedExprError {
    /// There is no memory for it.
    #[error("out of memory")]
    OutOfMemory,

    /// What is left has a part that a restricted expression mustn't have.
    #[error("residual is not a valid restricted expression")]
    NontrivialResidual {
        /// That part.
        residual: Expr,
    },
}

impl From<AllocError> for PartialValueToRestrictedExprError {
    ghost from_gives = { λ _ e. e ≡ from_partial.OutOfMemory };

    fn from(_error: AllocError) -> PartialValueToRestrictedExprError {
        PartialValueToRestrictedExprError::OutOfMemory
    }
}

/// An expression that is to make a context is no record.
#[derive(Debug, Drop, Error)]
#[error("expression is not a record")]
pub struct NotARecord {
    /// The expression.
    pub expr: Expr,
}

/// Why there is no context.
#[derive(Debug, Drop, Error)]
pub enum ContextCreationError {
    /// There is no memory for it.
    #[error("out of memory")]
    OutOfMemory,

    /// The expression is no record.
    #[error(transparent)]
    NotARecord(NotARecord),

    /// The expression doesn't evaluate.
    #[error(transparent)]
    Evaluation(EvaluationError),

    /// The record can't be made.
    #[error(transparent)]
    ExpressionConstruction(ExpressionConstructionError),
}

impl From<AllocError> for ContextCreationError {
    ghost from_gives = { λ _ e. e ≡ creation.OutOfMemory };

    fn from(_error: AllocError) -> ContextCreationError {
        ContextCreationError::OutOfMemory
    }
}

impl<T: Drop> From<AllocFailed<T>> for ContextCreationError {
    ghost from_gives = { λ _ e. e ≡ creation.OutOfMemory };

    fn from(_error: AllocFailed<T>) -> ContextCreationError {
        ContextCreationError::OutOfMemory
    }
}

impl From<NotARecord> for ContextCreationError {
    ghost from_gives = { λ x e. e ≡ creation.NotARecord x };

    fn from(error: NotARecord) -> ContextCreationError {
        ContextCreationError::NotARecord(error)
    }
}

impl From<EvaluationError> for ContextCreationError {
    ghost from_gives = { λ x e. e ≡ creation.Evaluation x };

    fn from(error: EvaluationError) -> ContextCreationError {
        ContextCreationError::Evaluation(error)
    }
}

impl From<ExpressionConstructionError> for ContextCreationError {
    ghost from_gives = { λ x e. e ≡ creation.ExpressionConstruction x };

    fn from(error: ExpressionConstructionError) -> ContextCreationError {
        ContextCreationError::ExpressionConstruction(error)
    }
}

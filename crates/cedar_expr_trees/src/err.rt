//! Why an expression can't be made.

ghost use Rattle.std.specs.Prelude.{◌≡◌};
ghost use Rattle.std.specs.Rc.{rc_str_bytes};
ghost use Rattle.cedar_expr_trees.specs.Refusals.{repeated_key, repeated_context};
ghost use Rattle.cedar_expr_trees.specs.declared.err.ExpressionConstructionError.TheVariants.{OutOfMemory, DuplicateKey};

use std::alloc::{AllocError, AllocFailed};
use std::rc::RcStr;
use thiserror::Error;

/// A key is repeated in a record.
#[derive(Debug, PartialEq, Eq, Drop, Error)]
#[error("duplicate key `{key}` {context}")]
pub struct DuplicateKeyError {
    /// The key that is repeated.
    pub key: RcStr,
    /// Where it does.
    pub context: &'static str,
}

impl DuplicateKeyError {
    /// The refusal of this key in this context.
    pub fn new(key: RcStr, context: &'static str) -> DuplicateKeyError
        ensures key { repeated_key result ≡ rc_str_bytes key }
        ensures context { repeated_context result ≡ context.now }
    {
        DuplicateKeyError { key, context }
    }

    /// The key that is repeated.
    pub fn key(&self) -> &str
        ensures { result.now ≡ repeated_key self.now }
    {
        self.key.as_str()
    }

    /// Where it does.
    pub fn context(&self) -> &'static str
        ensures { result.now ≡ repeated_context self.now }
    {
        self.context
    }

    /// The refusal of the key that is repeated, with this context in the place of its own.
    pub fn with_context(self, context: &'static str) -> DuplicateKeyError
        ensures key { repeated_key result ≡ repeated_key self }
        ensures context { repeated_context result ≡ context.now }
    {
        DuplicateKeyError {
            key: self.key,
            context,
        }
    }
}

/// Why an expression can't be made.
#[derive(Debug, PartialEq, Eq, Drop, Error)]
pub enum ExpressionConstructionError {
    /// There is no memory for the expression.
    #[error("out of memory")]
    OutOfMemory,

    /// A key is repeated in a record.
    #[error(transparent)]
    DuplicateKey(DuplicateKeyError),
}

impl From<AllocError> for ExpressionConstructionError {
    ghost from_gives = { λ _ e. e ≡ OutOfMemory };

    fn from(_error: AllocError) -> ExpressionConstructionError {
        ExpressionConstructionError::OutOfMemory
    }
}

impl<T: Drop> From<AllocFailed<T>> for ExpressionConstructionError {
    ghost from_gives = { λ _ e. e ≡ OutOfMemory };

    fn from(_error: AllocFailed<T>) -> ExpressionConstructionError {
        ExpressionConstructionError::OutOfMemory
    }
}

impl From<DuplicateKeyError> for ExpressionConstructionError {
    ghost from_gives = { λ d e. e ≡ DuplicateKey d };

    fn from(error: DuplicateKeyError) -> ExpressionConstructionError {
        ExpressionConstructionError::DuplicateKey(error)
    }
}

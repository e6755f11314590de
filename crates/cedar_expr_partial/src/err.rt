//! Why an expression, or what may be one, is no value.

ghost use Rattle.std.specs.Prelude.{◌≡◌};
ghost use Rattle.cedar_expr_trees.specs.Trees.{tree_of, place_of};
ghost use Rattle.cedar_expr_partial.specs.Parts.{left_of, left_place};

use cedar_expr_names::Loc;
use cedar_expr_trees::Expr;
use std::alloc::{AllocError, AllocFailed};
use thiserror::Error;

/// Why an expression is no value.
#[derive(Debug, PartialEq, Eq, Drop, Error)]
pub enum NotValue {
    /// There is no memory for the value.
    #[error("out of memory")]
    OutOfMemory,

    /// A part of the expression is neither a literal nor a set nor a record.
    #[error("not a value")]
    NotValue {
        /// The place of that part, where it has one.
        loc: Option<Loc>,
    },
}

impl From<AllocError> for NotValue {
    ghost use Rattle.cedar_expr_partial.specs.declared.err.NotValue.TheVariants.{OutOfMemory};

    ghost from_gives = { λ _ e. e ≡ OutOfMemory };

    fn from(_error: AllocError) -> NotValue {
        NotValue::OutOfMemory
    }
}

impl<T: Drop> From<AllocFailed<T>> for NotValue {
    ghost use Rattle.cedar_expr_partial.specs.declared.err.NotValue.TheVariants.{OutOfMemory};

    ghost from_gives = { λ _ e. e ≡ OutOfMemory };

    fn from(_error: AllocFailed<T>) -> NotValue {
        NotValue::OutOfMemory
    }
}

/// What should be a value is still an expression.
#[derive(Debug, PartialEq, Eq, Drop, Error)]
#[error("value contains a residual expression")]
pub struct ContainsUnknown {
    residual: Expr,
}

impl ContainsUnknown {
    /// The refusal of this expression.
    pub fn new(residual: Expr) -> ContainsUnknown
        ensures tree { left_of result ≡ tree_of residual }
        ensures place { left_place result ≡ place_of residual }
    {
        ContainsUnknown { residual }
    }

    /// The expression.
    pub fn residual(&self) -> &Expr
        ensures tree { tree_of result.now ≡ left_of self.now }
        ensures place { place_of result.now ≡ left_place self.now }
    {
        &self.residual
    }
}

/// Why what may be an expression is no value.
#[derive(Debug, PartialEq, Eq, Drop, Error)]
pub enum PartialValueToValueError {
    /// It is still an expression.
    #[error(transparent)]
    ContainsUnknown(ContainsUnknown),
}

impl From<ContainsUnknown> for PartialValueToValueError {
    ghost use Rattle.cedar_expr_partial.specs.declared.err.PartialValueToValueError.TheVariants as to_value;

    ghost from_gives = { λ x e. e ≡ to_value.ContainsUnknown x };

    fn from(error: ContainsUnknown) -> PartialValueToValueError {
        PartialValueToValueError::ContainsUnknown(error)
    }
}

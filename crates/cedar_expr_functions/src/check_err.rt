//! Why an expression is refused.

ghost use Rattle.std.specs.Prelude.{◌≡◌};
ghost use Rattle.cedar_expr_functions.specs.declared.check_err.ExprValidationError.TheVariants.{OutOfMemory};

use cedar_expr_names::Name;
use std::alloc::AllocError;
use thiserror::Error;

/// Why an expression is not valid under a table of extension functions: its first wrong call.
#[derive(Debug, PartialEq, Eq, Drop, Error)]
pub enum ExprValidationError {
    /// There is no memory for the check.
    #[error("out of memory")]
    OutOfMemory,

    /// The table has no function of this name.
    #[error("extension function `{function_name}` does not exist")]
    FuncDoesNotExist {
        /// The name that the call has.
        function_name: Name,
    },

    /// The function doesn't take so many arguments.
    #[error("wrong number of arguments provided to extension function `{function_name}`: expected {expected}, got {actual}")]
    WrongNumArguments {
        /// The name of the function.
        function_name: Name,
        /// How many types of arguments it has.
        expected: usize,
        /// How many arguments there were.
        actual: usize,
    },
}

impl From<AllocError> for ExprValidationError {
    ghost from_gives = { λ _ e. e ≡ OutOfMemory };

    fn from(_error: AllocError) -> ExprValidationError {
        ExprValidationError::OutOfMemory
    }
}

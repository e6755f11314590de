//! Why an evaluation gives no value, and why what it is asked of is refused. Its one contract is `stop_or`: which stop of the model
//! an error is. The evaluator, requests and responses stand on it.
#![tactic(auto)]

pub mod err;
pub mod evaluation_errors;
pub mod restricted;

pub use cedar_expr_functions::{
    ExtensionFunctionLookupError, ExtensionInitializationError, FuncDoesNotExistError,
    FuncMultiplyDefinedError, MultipleConstructorsSameSignatureError,
};
pub use err::EvaluationError;
pub use evaluation_errors::IntegerOverflowError;
pub use restricted::{
    ContextCreationError, InvalidRestrictedExpressionError, NotARecord,
    PartialValueToRestrictedExprError, RestrictedExpressionError,
};

//! Extension functions, extensions, the table of those that are there, and expressions checked against a table.
//! Contract: a table holds each name once and one constructor a type; `call` checks count and types and hands on what the function answers;
//! `try_validate` refuses exactly the first wrong call, and `try_type_of` gives the evident type of the rules.
//! Used by the evaluators, schemas (extension types that are known), the gate and `main`.
#![tactic(auto)]

mod calls;
pub mod check;
pub mod check_err;
pub mod err;
mod evident;
pub mod extension;
pub mod extensions;
mod gathered;
pub mod laws;
pub mod util;

pub use check::CheckExpr;
pub use check_err::ExprValidationError;
pub use err::{
    CallFault, CollectError, ExtensionFunctionLookupError, ExtensionInitializationError,
    FuncDoesNotExistError, FuncMultiplyDefinedError, MultipleConstructorsSameSignatureError,
};
pub use extension::{
    CallStyle, ExtTypes, Extension, ExtensionFunction, ExtensionOutputValue, Func,
};
pub use extensions::{ExtTable, Extensions, TableTypes};

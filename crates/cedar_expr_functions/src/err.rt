//! Why a call, a look-up or a table is refused.

ghost use Rattle.cedar_expr_functions.specs.declared.err.CallFault.TheVariants.{OutOfMemory};
ghost use Rattle.std.specs.Prelude.{◌≡◌};

use cedar_expr_names::{Loc, Name};
use cedar_expr_values::Type;
use std::alloc::{AllocError, AllocFailed};
use std::fmt;
use std::fmt::{Display, Formatter, Write};
use thiserror::Error;

/// Why a call of a function gives nothing.
#[derive(Debug, PartialEq, Eq, Drop, Error)]
pub enum CallFault {
    /// There is no memory for the call.
    #[error("out of memory")]
    OutOfMemory,

    /// The function doesn't take so many arguments.
    #[error("wrong number of arguments provided to extension function `{function_name}`: expected {expected}, got {actual}")]
    WrongNumArguments {
        /// The name of the function.
        function_name: Name,
        /// How many types of arguments it has.
        expected: usize,
        /// How many arguments there were.
        actual: usize,
    },

    /// An argument isn't of its type.
    #[error("type error: expected {expected}, got {actual}")]
    ArgumentType {
        /// The type that is due.
        expected: Type,
        /// The type that the argument has.
        actual: Type,
    },

    /// The function failed.
    #[error("error while evaluating `{extension_name}` extension function: {message}")]
    Fault {
        /// The name of the extension.
        extension_name: Name,
        /// What failed.
        message: String,
        /// What may help.
        advice: Option<String>,
    },
}

impl From<AllocError> for CallFault {
    ghost from_gives = { λ _ e. e ≡ OutOfMemory };

    fn from(_error: AllocError) -> CallFault {
        CallFault::OutOfMemory
    }
}

impl<T: Drop> From<AllocFailed<T>> for CallFault {
    ghost from_gives = { λ _ e. e ≡ OutOfMemory };

    fn from(_error: AllocFailed<T>) -> CallFault {
        CallFault::OutOfMemory
    }
}

/// Why pairs make no map.
#[derive(Debug, PartialEq, Eq, Drop)]
pub enum CollectError<K> {
    /// There is no memory for the map.
    OutOfMemory,

    /// This key is met again.
    Repeated(K),
}

impl<K, T: Drop> From<AllocFailed<T>> for CollectError<K> {
    ghost use Rattle.cedar_expr_functions.specs.declared.err.CollectError.TheVariants as collect;

    ghost from_gives = { λ _ e. e ≡ collect.OutOfMemory };

    fn from(_error: AllocFailed<T>) -> CollectError<K> {
        CollectError::OutOfMemory
    }
}

impl<K: Display> Display for CollectError<K> {
    ghost use Rattle.cedar_expr_functions.specs.Texts.{collect_text};

    ghost output = { collect_text K.output };

    fn fmt<W: Write>(&self, f: &mut Formatter<W>) -> fmt::Result {
        match self {
            CollectError::OutOfMemory => write!(f, "out of memory"),
            CollectError::Repeated(key) => write!(f, "duplicate key `{key}`"),
        }
    }
}

/// A function that doesn't exist was asked for.
#[derive(Debug, Clone, PartialEq, Eq, Drop, Error)]
#[error("extension function `{name}` does not exist")]
pub struct FuncDoesNotExistError {
    /// The name that was asked for.
    pub name: Name,
    /// Its place.
    pub source_loc: Option<Loc>,
}

/// Why a look-up finds no function.
#[derive(Debug, Clone, PartialEq, Eq, Drop, Error)]
pub enum ExtensionFunctionLookupError {
    /// There is no memory for the refusal.
    #[error("out of memory")]
    OutOfMemory,

    /// There is no such function.
    #[error(transparent)]
    FuncDoesNotExist(FuncDoesNotExistError),
}

impl From<AllocError> for ExtensionFunctionLookupError {
    ghost use Rattle.cedar_expr_functions.specs.declared.err.ExtensionFunctionLookupError.TheVariants as lookup;

    ghost from_gives = { λ _ e. e ≡ lookup.OutOfMemory };

    fn from(_error: AllocError) -> ExtensionFunctionLookupError {
        ExtensionFunctionLookupError::OutOfMemory
    }
}

impl From<FuncDoesNotExistError> for ExtensionFunctionLookupError {
    ghost use Rattle.cedar_expr_functions.specs.declared.err.ExtensionFunctionLookupError.TheVariants as lookup;

    ghost from_gives = { λ x e. e ≡ lookup.FuncDoesNotExist x };

    fn from(error: FuncDoesNotExistError) -> ExtensionFunctionLookupError {
        ExtensionFunctionLookupError::FuncDoesNotExist(error)
    }
}

/// A name of a function is repeated.
#[derive(Debug, Clone, PartialEq, Eq, Drop, Error)]
#[error("extension function `{name}` is defined multiple times")]
pub struct FuncMultiplyDefinedError {
    /// The name.
    pub name: Name,
}

/// Two constructors make values of one extension type.
#[derive(Debug, Clone, PartialEq, Eq, Drop, Error)]
#[error("multiple extension constructors for the same extension type {return_type}")]
pub struct MultipleConstructorsSameSignatureError {
    /// The type.
    pub return_type: Type,
}

/// Why extensions make no table.
#[derive(Debug, Clone, PartialEq, Eq, Drop, Error)]
pub enum ExtensionInitializationError {
    /// There is no memory for the table.
    #[error("out of memory")]
    OutOfMemory,

    /// A name of a function is repeated.
    #[error(transparent)]
    FuncMultiplyDefined(FuncMultiplyDefinedError),

    /// Two constructors make values of one extension type.
    #[error(transparent)]
    MultipleConstructorsSameSignature(MultipleConstructorsSameSignatureError),
}

impl From<AllocError> for ExtensionInitializationError {
    ghost use Rattle.cedar_expr_functions.specs.declared.err.ExtensionInitializationError.TheVariants as initialization;

    ghost from_gives = { λ _ e. e ≡ initialization.OutOfMemory };

    fn from(_error: AllocError) -> ExtensionInitializationError {
        ExtensionInitializationError::OutOfMemory
    }
}

impl<T: Drop> From<AllocFailed<T>> for ExtensionInitializationError {
    ghost use Rattle.cedar_expr_functions.specs.declared.err.ExtensionInitializationError.TheVariants as initialization;

    ghost from_gives = { λ _ e. e ≡ initialization.OutOfMemory };

    fn from(_error: AllocFailed<T>) -> ExtensionInitializationError {
        ExtensionInitializationError::OutOfMemory
    }
}

impl From<FuncMultiplyDefinedError> for ExtensionInitializationError {
    ghost use Rattle.cedar_expr_functions.specs.declared.err.ExtensionInitializationError.TheVariants as initialization;

    ghost from_gives = { λ x e. e ≡ initialization.FuncMultiplyDefined x };

    fn from(error: FuncMultiplyDefinedError) -> ExtensionInitializationError {
        ExtensionInitializationError::FuncMultiplyDefined(error)
    }
}

impl From<MultipleConstructorsSameSignatureError> for ExtensionInitializationError {
    ghost use Rattle.cedar_expr_functions.specs.declared.err.ExtensionInitializationError.TheVariants as initialization;

    ghost from_gives = { λ x e. e ≡ initialization.MultipleConstructorsSameSignature x };

    fn from(error: MultipleConstructorsSameSignatureError) -> ExtensionInitializationError {
        ExtensionInitializationError::MultipleConstructorsSameSignature(error)
    }
}

//! Cedar's evaluator, whole: the items of the crates `cedar_evaluator_*` under one name, and authorization: the policies of a set evaluated
//! for a request over a store of entities, and what a partial evaluation answers.
//! Contract: `is_authorized_core` answers the model's response to the policies, what a response is asked of is what the model answers, and
//! `reauthorize` is the model's.
//! Used by users of the library and by `cedar_bench`; crates of this repository name the crates below. Open `authorizing.rt` first.
#![tactic(auto)]

pub mod authorizing;
pub mod err;
mod gathering;
pub mod partial_response;
mod slots;
mod verdicts;

pub use authorizer::err::{AuthorizationError, ConcretizationError, ReauthorizationError};
pub use authorizer::{
    Authorizer, Decision, Diagnostics, ErrorState, EvaluationResponse, PartialResponse, Response,
};
pub use evaluator::err::{
    BinaryOpOverflowError, EntityAttrDoesNotExistError, EntityDoesNotExistError, EvaluationError,
    ExtensionFunctionExecutionError, IntegerOverflowError, NonValueError,
    RecordAttrDoesNotExistError, RecursionLimitError, TypeError, UnaryOpOverflowError,
    UnlinkedSlotError, WrongNumArgumentsError, ZeroDivisorError,
};
pub use evaluator::{
    Evaluator, FunctionTable, RestrictedEvaluator, any_entity_type, binary_arith, binary_relation,
    unary_app,
};
pub use extensions::{
    ExtTable, ExtensionFunctionLookupError, ExtensionInitializationError, Extensions,
    FuncDoesNotExistError, FuncMultiplyDefinedError, MultipleConstructorsSameSignatureError,
};
pub use request::{
    Context, ContextCalls, ContextCreationError, EntityUIDEntry, NotARecord, Request, RequestError,
    RequestSchema, RequestSchemaAllPass,
};
pub use restricted_expr::{
    BorrowedRestrictedExpr, InvalidRestrictedExpressionError, PartialValueToRestrictedExprError,
    RestrictedExpr, RestrictedExpressionError,
};

/// Authorizers, and partial responses.
pub mod authorizer {
    pub use crate::authorizing::Authorizer;
    pub use crate::partial_response::PartialResponse;
    pub use cedar_evaluator_contexts::EvaluationResponse;
    pub use cedar_evaluator_requests::{Decision, Diagnostics, ErrorState, Response};

    /// What goes wrong with policies, and why a partial response isn't reauthorized.
    pub mod err {
        pub use crate::err::ReauthorizationError;
        pub use cedar_evaluator_contexts::ConcretizationError;
        pub use cedar_evaluator_requests::AuthorizationError;
    }
}

/// Evaluators, and what they ask of a table of functions.
pub mod evaluator {
    pub use cedar_evaluator_contexts::RestrictedEvaluator;
    pub use cedar_evaluator_core::Evaluator;
    use cedar_evaluator_errors::EvaluationError;
    pub use cedar_evaluator_operators::{
        FunctionTable, Left, V, any_entity_type, binary_arith, binary_relation, unary_app,
    };

    /// What an evaluation gives, or why it gives nothing.
    pub type Result<T> = std::result::Result<T, EvaluationError>;

    /// Why an expression has no value.
    pub mod err {
        pub use cedar_evaluator_errors::evaluation_errors::{
            BinaryOpOverflowError, EntityAttrDoesNotExistError, EntityDoesNotExistError,
            ExtensionFunctionExecutionError, NonValueError, RecordAttrDoesNotExistError,
            RecursionLimitError, TypeError, UnaryOpOverflowError, UnlinkedSlotError,
            WrongNumArgumentsError, ZeroDivisorError,
        };
        pub use cedar_evaluator_errors::{EvaluationError, IntegerOverflowError};
    }
}

/// Tables of extension functions.
pub mod extensions {
    pub use cedar_evaluator_errors::{
        ExtensionFunctionLookupError, ExtensionInitializationError, FuncDoesNotExistError,
        FuncMultiplyDefinedError, MultipleConstructorsSameSignatureError,
    };
    pub use cedar_expr_functions::{ExtTable, Extensions};

    /// What a look-up in a table gives, or why it gives nothing.
    pub type Result<T> = std::result::Result<T, ExtensionFunctionLookupError>;

    /// Pairs of which no key is repeated.
    pub mod util {
        pub use cedar_expr_functions::util::collect_no_duplicates;
    }
}

/// Requests, and their contexts.
pub mod request {
    pub use cedar_evaluator_contexts::{ContextCalls, IntoIter};
    pub use cedar_evaluator_errors::{ContextCreationError, NotARecord};
    pub use cedar_evaluator_requests::{
        Context, EntityUIDEntry, Infallible, IsInfallible, Request, RequestError, RequestSchema,
        RequestSchemaAllPass, RestrictedFields, UnwrapInfallible,
    };
}

/// Restricted expressions, owned and borrowed, and why an expression isn't one.
pub mod restricted_expr {
    pub use cedar_evaluator_errors::{
        InvalidRestrictedExpressionError, PartialValueToRestrictedExprError,
        RestrictedExpressionError,
    };
    pub use cedar_evaluator_restricted_exprs::{
        BorrowedRestrictedExpr, RestrictedElements, RestrictedExpr, RestrictedExprShapeOnly,
        RestrictedPairs,
    };
}

//! Each name that `cedar_evaluator` gives out, under each of its paths: a name that is lost there is missed here.
#![allow(unused_imports)]

mod authorizer {
    use cedar_evaluator::authorizer::{
        Authorizer, Decision, Diagnostics, ErrorState, EvaluationResponse, PartialResponse,
        Response,
    };
}

mod authorizer_err {
    use cedar_evaluator::authorizer::err::{
        AuthorizationError, ConcretizationError, ReauthorizationError,
    };
}

mod evaluator {
    use cedar_evaluator::evaluator::{
        Evaluator, FunctionTable, Left, RestrictedEvaluator, V, any_entity_type, binary_arith,
        binary_relation, unary_app,
    };
}

mod evaluator_err {
    use cedar_evaluator::evaluator::err::{
        BinaryOpOverflowError, EntityAttrDoesNotExistError, EntityDoesNotExistError,
        EvaluationError, ExtensionFunctionExecutionError, IntegerOverflowError, NonValueError,
        RecordAttrDoesNotExistError, RecursionLimitError, TypeError, UnaryOpOverflowError,
        UnlinkedSlotError, WrongNumArgumentsError,
    };
}

mod extensions {
    use cedar_evaluator::extensions::{
        ExtTable, ExtensionFunctionLookupError, ExtensionInitializationError, Extensions,
        FuncDoesNotExistError, FuncMultiplyDefinedError, MultipleConstructorsSameSignatureError,
    };
}

mod util {
    use cedar_evaluator::extensions::util::collect_no_duplicates;
}

mod request {
    use cedar_evaluator::request::{
        Context, ContextCalls, ContextCreationError, EntityUIDEntry, Infallible, IntoIter,
        IsInfallible, NotARecord, Request, RequestError, RequestSchema, RequestSchemaAllPass,
        RestrictedFields, UnwrapInfallible,
    };
}

mod restricted_expr {
    use cedar_evaluator::restricted_expr::{
        BorrowedRestrictedExpr, InvalidRestrictedExpressionError,
        PartialValueToRestrictedExprError, RestrictedElements, RestrictedExpr,
        RestrictedExprShapeOnly, RestrictedExpressionError, RestrictedPairs,
    };
}

mod all {
    use cedar_evaluator::{
        AuthorizationError, Authorizer, BinaryOpOverflowError, BorrowedRestrictedExpr,
        ConcretizationError, Context, ContextCalls, ContextCreationError, Decision, Diagnostics,
        EntityAttrDoesNotExistError, EntityDoesNotExistError, EntityUIDEntry, ErrorState,
        EvaluationError, EvaluationResponse, Evaluator, ExtTable, ExtensionFunctionExecutionError,
        ExtensionFunctionLookupError, ExtensionInitializationError, Extensions,
        FuncDoesNotExistError, FuncMultiplyDefinedError, FunctionTable, IntegerOverflowError,
        InvalidRestrictedExpressionError, MultipleConstructorsSameSignatureError, NonValueError,
        NotARecord, PartialResponse, PartialValueToRestrictedExprError, ReauthorizationError,
        RecordAttrDoesNotExistError, RecursionLimitError, Request, RequestError, RequestSchema,
        RequestSchemaAllPass, Response, RestrictedEvaluator, RestrictedExpr,
        RestrictedExpressionError, TypeError, UnaryOpOverflowError, UnlinkedSlotError,
        WrongNumArgumentsError, any_entity_type, binary_arith, binary_relation, unary_app,
    };
}

//! Each name that `cedar_expr` gives out, under each of its paths: a name that is lost there is missed here.
#![allow(unused_imports)]

mod expr {
    use cedar_expr::expr::{
        Bound, CheckExpr, DuplicateKeyError, Expr, ExprBuilder, ExprKind, ExprShape, ExprShapeOnly,
        ExprValidationError, ExpressionConstructionError, NonEmpty, Slot, SlotId, Substitute,
        SubstitutionError, Unknown, Var,
    };
}

mod expr_builder {
    use cedar_expr::expr_builder::{
        BuildFault, BuildUnknown, ExprBuilder, KeepUnknowns, PlainBuilder, Rebuild, build_with,
    };
}

mod expr_iterator {
    use cedar_expr::expr_iterator::{ExprIterator, Slots, Unknowns};
}

mod extension {
    use cedar_expr::extension::{
        CallFault, CallStyle, ExtTypes, ExtValue, Extension, ExtensionCall, ExtensionFunction,
        ExtensionOutputValue, ExtensionValue, Func, InternalExtensionValue,
        RepresentableExtensionValue,
    };
}

mod extensions {
    use cedar_expr::extensions::{
        ExtTable, ExtensionFunctionLookupError, ExtensionInitializationError, Extensions,
        FuncDoesNotExistError, FuncMultiplyDefinedError, MultipleConstructorsSameSignatureError,
        TableTypes,
    };
}

mod id {
    use cedar_expr::id::{AnyId, Id, UnreservedId, is_normalized_ident};
}

mod literal {
    use cedar_expr::literal::{InputInteger, Integer, Literal};
}

mod name {
    use cedar_expr::name::{
        ConditionalName, Eid, EntityType, EntityUID, Escaped, InternalName, Loc, Name, NameError,
        Quoted, RawName, ReferenceType, ReservedNameError, is_normalized_ident,
    };
}

mod ops {
    use cedar_expr::ops::{BinaryOp, UnaryOp};
}

mod partial_value {
    use cedar_expr::partial_value::{
        ContainsUnknown, PartialValue, PartialValueToValueError, split,
    };
}

mod pattern {
    use cedar_expr::pattern::{Pattern, PatternElem};
}

mod util {
    use cedar_expr::util::{CollectError, collect_no_duplicates};
}

mod types {
    use cedar_expr::types::{StaticallyTyped, Type};
}

mod value {
    use cedar_expr::value::{FromValue, NotValue, Set, TryFromExpr, Value, ValueKind};
}

mod all {
    use cedar_expr::{
        AnyId, BinaryOp, Bound, BuildFault, BuildUnknown, CallFault, CallStyle, CheckExpr,
        CollectError, ConditionalName, ContainsUnknown, DuplicateKeyError, Eid, EntityType,
        EntityUID, Escaped, Expr, ExprBuilder, ExprIterator, ExprKind, ExprShape, ExprShapeOnly,
        ExprValidationError, ExpressionConstructionError, ExtTable, ExtTypes, ExtValue, Extension,
        ExtensionCall, ExtensionFunction, ExtensionFunctionLookupError,
        ExtensionInitializationError, ExtensionOutputValue, ExtensionValue, Extensions, FromValue,
        Func, FuncDoesNotExistError, FuncMultiplyDefinedError, Id, InputInteger, Integer,
        InternalExtensionValue, InternalName, KeepUnknowns, Literal, Loc,
        MultipleConstructorsSameSignatureError, Name, NameError, NonEmpty, NotValue, PartialValue,
        PartialValueToValueError, Pattern, PatternElem, PlainBuilder, Quoted, RawName, Rebuild,
        ReferenceType, RepresentableExtensionValue, ReservedNameError, Set, Slot, SlotId, Slots,
        StaticallyTyped, Substitute, SubstitutionError, TableTypes, TryFromExpr, Type, UnaryOp,
        Unknown, Unknowns, UnreservedId, Value, ValueKind, Var, build_with, collect_no_duplicates,
        is_normalized_ident, split,
    };
}

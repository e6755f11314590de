//! Cedar's expressions, whole: the items of the crates `cedar_expr_*` under one name, in the Rust crate's modules.
//! Contract: that of the items. Its own code is laws: of small parts, `==`, `cmp` and `hash` go by what their values are in the model.
//! Used by users of the library and by `cedar_bench`; crates of this repository name the crates below.
#![tactic(auto)]

pub mod laws;

pub use expr::{
    Bound, CheckExpr, DuplicateKeyError, Expr, ExprBuilder, ExprKind, ExprShape, ExprShapeOnly,
    ExprValidationError, ExpressionConstructionError, NonEmpty, Slot, SlotId, Substitute,
    SubstitutionError, Unknown, Var,
};
pub use expr_builder::{BuildFault, BuildUnknown, KeepUnknowns, PlainBuilder, Rebuild, build_with};
pub use expr_iterator::{ExprIterator, Slots, Unknowns};
pub use extension::{
    CallFault, CallStyle, ExtTypes, ExtValue, Extension, ExtensionCall, ExtensionFunction,
    ExtensionOutputValue, ExtensionValue, Func, InternalExtensionValue,
    RepresentableExtensionValue,
};
pub use extensions::{
    ExtTable, ExtensionFunctionLookupError, ExtensionInitializationError, Extensions,
    FuncDoesNotExistError, FuncMultiplyDefinedError, MultipleConstructorsSameSignatureError,
    TableTypes,
};
pub use id::{AnyId, Id, UnreservedId, is_normalized_ident};
pub use literal::{InputInteger, Integer, Literal};
pub use name::{
    ConditionalName, Eid, EntityType, EntityUID, Escaped, InternalName, Loc, Name, NameError,
    Quoted, RawName, ReferenceType, ReservedNameError,
};
pub use ops::{BinaryOp, UnaryOp};
pub use partial_value::{ContainsUnknown, PartialValue, PartialValueToValueError, split};
pub use pattern::{Pattern, PatternElem};
pub use types::{StaticallyTyped, Type};
pub use util::{CollectError, collect_no_duplicates};
pub use value::{FromValue, Keyed, NotValue, Record, Set, TryFromExpr, Value, ValueKind};

/// Expressions and their leaves, their own builder, their shapes, substitution and checks.
pub mod expr {
    pub use cedar_expr_builders::ExprBuilder;
    pub use cedar_expr_functions::{CheckExpr, ExprValidationError};
    pub use cedar_expr_leaves::{Slot, SlotId, Var};
    pub use cedar_expr_shapes::{ExprShape, ExprShapeOnly};
    pub use cedar_expr_substitution::{Bound, Substitute, SubstitutionError};
    pub use cedar_expr_trees::{
        DuplicateKeyError, Expr, ExprKind, ExpressionConstructionError, NonEmpty, Unknown,
    };
}

/// Builders of expressions, and building anew.
pub mod expr_builder {
    pub use cedar_expr_builders::expr_builder::ExprBuilder;
    pub use cedar_expr_builders::{BuildFault, PlainBuilder};
    pub use cedar_expr_substitution::{BuildUnknown, KeepUnknowns, Rebuild, build_with};
}

/// Iterators over the parts of an expression.
pub mod expr_iterator {
    pub use cedar_expr_trees::{ExprIterator, Slots, Unknowns};
}

/// Extension functions and extension values.
pub mod extension {
    pub use cedar_expr_functions::{
        CallFault, CallStyle, ExtTypes, Extension, ExtensionFunction, ExtensionOutputValue, Func,
    };
    pub use cedar_expr_partial::ExtensionCall;
    pub use cedar_expr_values::{
        ExtValue, ExtensionValue, InternalExtensionValue, RepresentableExtensionValue,
    };
}

/// The table of extension functions.
pub mod extensions {
    pub use cedar_expr_functions::{
        ExtTable, ExtensionFunctionLookupError, ExtensionInitializationError, Extensions,
        FuncDoesNotExistError, FuncMultiplyDefinedError, MultipleConstructorsSameSignatureError,
        TableTypes,
    };
}

/// Identifiers.
pub mod id {
    pub use cedar_expr_names::{AnyId, Id, UnreservedId, is_normalized_ident};
}

/// Literals.
pub mod literal {
    pub use cedar_expr_leaves::Literal;

    /// Whole numbers.
    pub type Integer = i64;

    /// Whole numbers as they are written.
    pub type InputInteger = i64;
}

/// Names, entity types and uids.
pub mod name {
    pub use cedar_expr_leaves::{ConditionalName, RawName, ReferenceType};
    pub use cedar_expr_names::{
        Eid, EntityType, EntityUID, Escaped, InternalName, Loc, Name, NameError, Quoted,
        ReservedNameError, is_normalized_ident,
    };
}

/// The operators.
pub mod ops {
    pub use cedar_expr_trees::{BinaryOp, UnaryOp};
}

/// Partial values.
pub mod partial_value {
    pub use cedar_expr_partial::{ContainsUnknown, PartialValue, PartialValueToValueError, split};
}

/// Patterns.
pub mod pattern {
    pub use cedar_expr_leaves::{Pattern, PatternElem};
}

/// Maps of pairs in which no key is repeated.
pub mod util {
    pub use cedar_expr_functions::CollectError;
    pub use cedar_expr_functions::util::collect_no_duplicates;
}

/// Core types.
pub mod types {
    pub use cedar_expr_values::{StaticallyTyped, Type};
}

/// Values and sets, written as expressions and read from them.
pub mod value {
    pub use cedar_expr_partial::{FromValue, NotValue, TryFromExpr};
    pub use cedar_expr_values::{Keyed, Record, Set, Value, ValueKind};
}

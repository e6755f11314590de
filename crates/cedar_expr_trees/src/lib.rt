//! Cedar's expressions: trees with places and data, their constructors, parts and iterators.
//! Contract: each constructor makes the tree of the definitions (`tree_of`), folding two literal truth values; `record` refuses repeated names.
//! Used by all that makes or reads expressions; `cedar_expr_shapes`, `cedar_expr_functions` and others add to it.
#![tactic(auto)]

pub mod constructors;
pub mod contents;
mod copies;
pub mod err;
pub mod expr;
pub mod expr_iterator;
mod fields;
pub mod laws;
pub mod records;
pub mod sharing;

pub use cedar_expr_leaves::{
    BinaryOp, Literal, NonEmpty, Pattern, PatternElem, Slot, SlotId, UnaryOp, Var,
};
pub use cedar_expr_values::{
    Eid, EntityType, EntityUID, Id, InternalName, Loc, Name, NameError, Quoted, ReservedNameError,
    Type, is_normalized_ident,
};
pub use err::{DuplicateKeyError, ExpressionConstructionError};
pub use expr::{Expr, ExprKind, Unknown};
pub use expr_iterator::{ExprIterator, Slots, Unknowns};

//! Values with places: core types, sets, records and extension values.
//! Contract: what is made is the value of the definitions as it was made (`made`); every value is canonical, at every nesting.
//! Used by expressions, entities, the evaluator and schemas.
#![tactic(auto)]

pub mod extension;
pub mod fields;
pub mod laws;
mod rising;
pub mod types;
pub mod value;

pub use cedar_expr_leaves::Literal;
pub use cedar_expr_names::{
    Eid, EntityType, EntityUID, Id, InternalName, Loc, Name, NameError, Quoted, ReservedNameError,
    is_normalized_ident,
};
pub use extension::{
    ExtValue, ExtensionValue, InternalExtensionValue, RepresentableExtensionValue,
};
pub use types::{StaticallyTyped, Type};
pub use value::{Keyed, Record, Set, Value, ValueKind};

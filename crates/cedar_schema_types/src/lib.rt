//! Types of a schema (attributes, unions of entity types, records and their texts), and the types by which values can be read.
//! Contract: each maker makes the type of the model (`type_of`), always a well-formed one; `Display` gives the text of the rules;
//! `core_schema_type` gives the type by which a value is read, or the first part that stands in its way.
//! Used by all crates of schemas that speak of types.
#![tactic(auto)]

mod attributes;
mod core_types;
mod entity_kind;
mod entity_lub;
mod err;
mod kinds;
mod reading;
mod texts;
mod types;

pub use core_types::{CoreAttributeType, CoreAttributes, CoreSchemaType};
pub use entity_kind::EntityKind;
pub use entity_lub::EntityLUB;
pub use err::CoreTypeError;
pub use kinds::{BoolType, OpenTag};
pub use reading::core_schema_type;
pub use types::{AttributeType, Attributes, Type};

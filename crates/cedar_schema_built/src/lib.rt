//! Built schemas: entity types and actions by name, what is read from them, and the types and namespaces of fragments with their places.
//! Contract: `from_schema_fragments` builds only of well-formed declarations and keeps exactly their schema; readers give what is kept, and
//! located parts are given back as they were put in.
//! Used by `cedar_schema_sound`, by the gate, and by users through `cedar_schema`.
#![tactic(auto)]

mod above;
mod ancestors;
mod building;
mod common_type;
mod entities;
mod environments;
mod iterators;
pub mod laws;
mod listed;
mod located_type;
mod names;
mod namespace;
mod of_fragments;
mod readers;
mod schema;
mod unresolved;

pub use common_type::LocatedCommonType;
pub use environments::request_types_of;
pub use iterators::{ActionGroups, ActionsFor, Ancestors};
pub use located_type::LocatedType;
pub use namespace::LocatedNamespace;
pub use of_fragments::{located_common_types, located_namespaces};
pub use schema::ValidatorSchema;
pub use unresolved::{UnresolvedDeclaration, UnresolvedDeclarations, UnresolvedExternalError};

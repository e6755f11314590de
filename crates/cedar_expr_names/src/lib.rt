//! Identifiers, names, entity types, uids and places in a source text.
//! Contract: `from_normalized_str` reads exactly what the text writes, or refuses with the fault that is there; `Display` gives the text back.
//! Used by all code that names something: the first code crate to open.
#![tactic(auto)]

mod any_id;
mod byte_order;
mod entity;
mod err;
mod id;
mod internal_name;
mod loc;
mod name;
mod quoted;
mod reading;
mod unreserved_id;

pub use any_id::AnyId;
pub use entity::{Eid, EntityType, EntityUID};
pub use err::{NameError, ReservedNameError};
pub use id::{Id, is_normalized_ident};
pub use internal_name::InternalName;
pub use loc::Loc;
pub use name::Name;
pub use quoted::{Escaped, Quoted};
pub use unreserved_id::UnreservedId;

//! Definitions of declarations, types, subtypes and joins, descent, environments, conforming entities and requests, and built schemas.
//! Contract: the law functions: each rule is decided by its test, joins are least, order of declarations says nothing, what is read from a
//! built schema is what the schema says, and what well-formed declarations make is sound.
//! Used by all crates of schemas, the typechecker's model and the gate.
#![tactic(auto)]

pub mod admission_laws;
pub mod admission_worked;
pub mod bag_worked;
pub mod building_laws;
pub mod decl_laws;
pub mod decl_worked;
pub mod kept_laws;
pub mod sound_laws;
pub mod texts_worked;
pub mod type_laws;
pub mod type_worked;

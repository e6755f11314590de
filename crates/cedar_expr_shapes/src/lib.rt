//! Expressions compared and hashed by shape: by what they are but for places and data.
//! Contract: `eq_shape`, `cmp_shape` and `hash_shape` are those of the bare tree, and agree with each other.
//! Used by callers of `cedar_expr`, through the trait `ExprShape`.
#![tactic(auto)]

mod compare;
mod fed;
mod fields;
mod hashed;
pub mod laws;
mod leaves;
mod ranks;
pub mod shape;

pub use shape::{ExprShape, ExprShapeOnly};

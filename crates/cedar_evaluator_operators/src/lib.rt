//! Operators on parts that are evaluated already, and calls of the functions of a table. Its one contract is `Leaves`: what an operator
//! or a call leaves is what the model's leaves. The walk in `cedar_evaluator_core` stands on it.
#![tactic(auto)]

pub mod arithmetic;
pub mod binary;
pub mod calls;
pub mod relations;
pub mod table;
pub mod unary;

pub use arithmetic::binary_arith;
pub use cedar_evaluator_reads::{Knowledge, Left, V, any_entity_type};
pub use relations::binary_relation;
pub use table::FunctionTable;
pub use unary::unary_app;

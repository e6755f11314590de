//! Restricted expressions, owned and borrowed (literals, unknowns, calls, sets and records alone), and their values by a table's functions.
//! Contract: `refuse_unrestricted` refuses exactly what breaks the rule, with the first part that does; `evaluate` leaves what the model
//! leaves of the expression. Readers take no memory.
//! Used by the contexts of `cedar_evaluator_contexts`, and by the reader of bundles.
#![tactic(auto)]

mod borrowed;
mod calls;
mod check;
mod contexts;
mod fault;
mod fields;
mod made;
mod parts;
mod records;
mod restricted;
mod shape;
mod table;
mod value_parts;
mod walk;

pub use borrowed::BorrowedRestrictedExpr;
pub use calls::call_in;
pub use cedar_evaluator_errors::{
    InvalidRestrictedExpressionError, PartialValueToRestrictedExprError, RestrictedExpressionError,
};
pub use contexts::context_left;
pub use fault::RestrictedFault;
pub use parts::{RestrictedElements, RestrictedPairs};
pub use restricted::RestrictedExpr;
pub use shape::RestrictedExprShapeOnly;
pub use table::{FunctionCalls, Left, V};
pub use walk::evaluate;

//! Values put in the place of unknowns, and an expression built anew through any builder.
//! Contract: `substitute` is the expression under the bindings; `substitute_typed` refuses exactly a value against its unknown's annotation;
//! what `try_into_expr` makes means the fold of the builder's steps over the expression, or is the first refusal of that fold.
//! `replaced` is the tree with what is given in the place of unknowns and slots.
//! Used by callers of `cedar_expr`, through the traits `Substitute` and `Rebuild`; the evaluator binds slots by `replaced`.
#![tactic(auto)]

pub mod bound;
pub mod build;
pub mod err;
mod gathering;
pub mod laws;
mod making;
pub mod rebuilding;
pub mod replace;
pub mod substitute;
pub mod unknowns;
pub mod walk;

pub use bound::Bound;
pub use build::build_with;
pub use err::SubstitutionError;
pub use rebuilding::Rebuild;
pub use replace::Replace;
pub use substitute::Substitute;
pub use unknowns::{BuildUnknown, KeepUnknowns};
pub use walk::replaced;

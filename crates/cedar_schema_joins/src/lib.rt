//! Types compared (which are below which others, and joins), what is declared of attributes, and which values are of a type.
//! Contract: `is_subtype`, `least_upper_bound`, `are_types_disjoint`, `lookup_attribute_type`, `may_have_attr` and `typecheck_value` are the
//! definitions; `typecheck_restricted_expr` answers exactly whether the expression is of the type, or names the function that lacks.
//! Used by typing and conformance, through the trait `DeclaredAttributes`, and by callers of `cedar_schema`.
#![tactic(auto)]

mod entities;
mod functions;
mod joins;
mod lookup;
mod mode;
mod restricted;
mod subtype;
mod values;

pub use cedar_store_parts::ValidationMode;
pub use joins::{are_types_disjoint, least_upper_bound, reduce_to_least_upper_bound};
pub use lookup::{DeclaredAttributes, lookup_attribute_type, may_have_attr};
pub use restricted::typecheck_restricted_expr;
pub use subtype::is_subtype;
pub use values::{typecheck_literal, typecheck_value};

//! Values that may still be expressions, and values written as expressions and read again.
//! Contract: a canonical value written as an expression and read again is the same, exactly where it has no extension value.
//! Used by entities, whose attributes may be residual, by substitution and by the plain evaluator.
#![tactic(auto)]

pub mod conversions;
pub mod err;
pub mod extension;
pub mod laws;
pub mod partial_value;
mod reading;
mod writing;

pub use conversions::{FromValue, TryFromExpr};
pub use err::{ContainsUnknown, NotValue, PartialValueToValueError};
pub use extension::ExtensionCall;
pub use partial_value::{PartialValue, split};

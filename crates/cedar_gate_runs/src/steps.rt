//! Steps of runs.

use cedar_expr_values::{ExtValue, Value};
use std::rc::RcStr;

/// A step of a run.
#[derive(Debug, Drop)]
pub enum Step {
    /// What is wanted is loaded.
    Load,
    /// A name is bound to a value.
    Bind(RcStr, Value<ExtValue>),
    /// The decision is asked for.
    Decide,
}

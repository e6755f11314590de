//! What is known where an expression is evaluated.

use cedar_evaluator_requests::Request;
use cedar_expr_partial::PartialValue;
use cedar_expr_values::{ExtValue, Value};
use cedar_store_entities::Entities;
use cedar_store_parts::SlotEnv;
use std::collections::HashMap;
use std::rc::RcStr;

/// The values of expressions.
pub type V = Value<ExtValue>;

/// What is left of an expression.
pub type Left = PartialValue<ExtValue>;

/// What is known where an expression is evaluated: a request, what slots and unknowns are bound to, a store of entities, and a
/// table of extension functions.
#[derive(Drop)]
pub struct Knowledge<'a, T> {
    /// The request.
    pub request: &'a Request,
    /// What the slots are bound to.
    pub slots: &'a SlotEnv,
    /// What the unknowns are bound to, by their names, where any is.
    pub unknowns: Option<&'a HashMap<RcStr, V>>,
    /// The entities.
    pub entities: &'a Entities,
    /// The table of extension functions.
    pub table: &'a T,
}

//! Contexts in which something is unknown.

use crate::desk::Made;
use cedar_evaluator_contexts::ContextCalls;
use cedar_evaluator_requests::Context;
use cedar_evaluator_restricted_exprs::RestrictedExpr;
use cedar_expr_functions::Extensions;
use cedar_test_exprs::{expr, made};
use std::alloc::Global;

// The context of a record of restricted expressions, by no functions.
pub fn residual(alloc: Global, text: &str) -> Made<Context> {
    let record = made(RestrictedExpr::new(alloc, expr(alloc, text)?))?;
    let table = Extensions::none(alloc);
    made(Context::from_expr(alloc, record.as_borrowed(), &table))
}

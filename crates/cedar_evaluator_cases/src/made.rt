//! Lists that rows write: parts with ` | ` between them.

use crate::desk::Made;
use crate::said::two;
use cedar_evaluator_restricted_exprs::RestrictedExpr;
use cedar_test_exprs::{both, expr, made, word};
use std::alloc::Global;
use std::rc::RcStr;

// The restricted expression that the text writes. Fails where it isn't restricted.
pub fn restricted(alloc: Global, text: &str) -> Made<RestrictedExpr> {
    made(RestrictedExpr::new(alloc, expr(alloc, text)?))
}

// The restricted expressions that the text writes.
pub fn several(alloc: Global, text: &str) -> Made<Vec<RestrictedExpr>> {
    let mut all = Vec::new(alloc);
    for text in text.split(" | ") {
        if !text.is_empty() {
            all.push(restricted(alloc, text)?)?;
        }
    }
    Ok(all)
}

// The names, each with the restricted expression behind it.
pub fn pairs(alloc: Global, text: &str) -> Made<Vec<(RcStr, RestrictedExpr)>> {
    let mut all = Vec::new(alloc);
    for text in text.split(" | ") {
        if !text.is_empty() {
            let (name, rest) = two(text);
            all.push(both(word(alloc, name), restricted(alloc, rest))?)?;
        }
    }
    Ok(all)
}

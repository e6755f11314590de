//! That all rows of a text hold.

use crate::{Made, first_wrong};
use cedar_expr_functions::Extensions;
use std::alloc::Global;
use std::process::Abort;

/// Asserts that all rows of the text hold over a table of no functions.
pub fn hold(rt: &impl Abort, alloc: Global, text: &str) -> Made<()> {
    let table = Extensions::none(alloc);
    let wrong = first_wrong(alloc, &table, text)?;
    assert_eq!(rt; wrong.as_str(), "");
    Ok(())
}

//! Wide and deep expressions, values in the place of unknowns, tables of functions, and sets.

mod bindings;
mod sets;
mod tables;
mod trees;

use crate::fault::Fault;
use std::alloc::Global;

/// Runs the path of this name at a size, and counts what it found.
pub fn run(alloc: Global, path: &str, size: u32) -> Result<usize, Fault> {
    let counted = match path {
        "wide" => trees::wide(alloc, size),
        "deep" => trees::deep(alloc, size),
        "tables" => tables::found(alloc, size),
        "substituted" => bindings::wide(alloc, size),
        "substituted_deep" => bindings::deep(alloc, size),
        "built" => bindings::built(alloc, size),
        "sets_hashed" => sets::hashed(alloc, size),
        "sets_ordered" => sets::ordered(alloc, size),
        _ => return Err(Fault::Unnamed),
    };
    Ok(counted?)
}

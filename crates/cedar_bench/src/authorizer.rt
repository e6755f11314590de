//! Policies that are authorized, over no entities and no functions.

mod parts;
mod responses;

use crate::authorizer::responses::Setting;
use crate::fault::Fault;
use cedar_evaluator::Extensions;
use cedar_store::Entities;
use std::alloc::Global;

/// Runs the path of this name at a size, and counts what it found.
pub fn run(alloc: Global, path: &str, size: u32) -> Result<usize, Fault> {
    let setting = Setting {
        entities: Entities::new(alloc),
        table: Extensions::none(alloc),
    };
    match path {
        "authorized" => responses::authorized(alloc, &setting, size),
        "half" => responses::half(alloc, &setting, size),
        "again" => responses::again(alloc, &setting, size),
        _ => Err(Fault::Unnamed),
    }
}

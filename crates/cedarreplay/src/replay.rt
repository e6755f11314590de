//! Reading all of an input and writing what is printed for it.

use crate::lines::print_input;
use cedar_gate::{ServeFault, Status};
use cedar_gate_runs::output::write_out;
use cedargate_functions::{V, label, rank, rank_extension, table_of};
use std::alloc::Global;
use std::io::{Read, Write};

/// Reads a bundle and requests, and writes the lines of their runs, by the functions `rank` and `label`. All input is read, then all output
/// is made, and then it is written.
///
/// # Errors
///
/// Out of memory or a fault of the reader, and nothing is written; or a fault of the writer, which then holds a beginning of the lines.
pub fn replay<R: Read + Drop, W: Write + Drop>(
    alloc: Global,
    mut reader: R,
    writer: &mut W,
) -> Result<Status, ServeFault> {
    let mut input = Vec::new(alloc);
    if reader.read_to_end(&mut input).is_err() {
        return Err(ServeFault::Read);
    }
    let Ok(ranks) = Box::new(alloc, |alloc: Global, args: &[V]| rank(alloc, args)) else {
        return Err(ServeFault::Memory);
    };
    let Ok(labels) = Box::new(alloc, |alloc: Global, args: &[V]| label(alloc, args)) else {
        return Err(ServeFault::Memory);
    };
    let Ok(extension) = rank_extension(alloc, ranks, labels) else {
        return Err(ServeFault::Memory);
    };
    let Ok(table) = table_of(alloc, &extension) else {
        return Err(ServeFault::Memory);
    };
    let Ok(printed) = print_input(alloc, input.as_slice(), &table) else {
        return Err(ServeFault::Memory);
    };
    match write_out(writer, printed.text.as_bytes()) {
        Ok(()) => Ok(printed.status),
        Err(_) => Err(ServeFault::Write),
    }
}

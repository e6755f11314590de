//! Reading an input and writing what is printed for it.

use crate::report::report_input;
use cedar_expr_functions::Extensions;
use cedar_gate::{ServeFault, Status};
use cedar_gate_runs::output::write_out;
use cedargate_functions::{V, label, rank, rank_extension, table_of};
use std::alloc::Global;
use std::io::{Read, Write};

// Reads a bundle and writes what is found, by the functions of this table.
fn explain_by<R: Read + Drop, W: Write + Drop>(
    alloc: Global,
    mut reader: R,
    writer: &mut W,
    table: &Extensions<'_>,
) -> Result<Status, ServeFault> {
    let mut input = Vec::new(alloc);
    if reader.read_to_end(&mut input).is_err() {
        return Err(ServeFault::Read);
    }
    let Ok(report) = report_input(alloc, input.as_slice(), table) else {
        return Err(ServeFault::Memory);
    };
    match write_out(writer, report.text.as_bytes()) {
        Ok(()) => Ok(report.status),
        Err(_) => Err(ServeFault::Write),
    }
}

/// Reads a bundle and writes what is found, by the functions `rank` and `label`.
pub fn explain<R: Read + Drop, W: Write + Drop>(
    alloc: Global,
    reader: R,
    writer: &mut W,
) -> Result<Status, ServeFault> {
    let Ok(ranks) = Box::new(alloc, |alloc: Global, args: &[V]| rank(alloc, args)) else {
        return Err(ServeFault::Memory);
    };
    let Ok(labels) = Box::new(alloc, |alloc: Global, args: &[V]| label(alloc, args)) else {
        return Err(ServeFault::Memory);
    };
    let Ok(extension) = rank_extension(alloc, ranks, labels) else {
        return Err(ServeFault::Memory);
    };
    match table_of(alloc, &extension) {
        Ok(table) => explain_by(alloc, reader, writer, &table),
        Err(_) => Err(ServeFault::Memory),
    }
}

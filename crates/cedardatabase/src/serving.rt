//! Reading all of an input, and writing what is printed for it.

use crate::answering::{Printed, print_input};
use crate::fault::Fault;
use cedar_database_host::DatabaseHost;
use cedar_expr_functions::Extensions;
use cedar_gate::Status;
use cedar_gate_runs::output::write_out;
use cedargate_functions::{V, label, rank, rank_extension, table_of};
use std::alloc::Global;
use std::env;
use std::io::Read;
use std::rt::HostRuntime;

/// Reads a bundle and requests, and writes the lines of their runs over a database, by the functions `rank` and `label`. All input is read, then all output
/// is made, and then it is written.
///
/// # Errors
///
/// Out of memory, a fault of the reader or of the database, and nothing is written; or a fault of the writer.
pub fn serve(rt: &HostRuntime) -> Result<Status, Fault> {
    let alloc = rt.alloc();
    let mut input = Vec::new(alloc);
    if rt.stdin().read_to_end(&mut input).is_err() {
        return Err(Fault::Read);
    }
    let Ok(ranks) = Box::new(alloc, |alloc: Global, args: &[V]| rank(alloc, args)) else {
        return Err(Fault::Memory);
    };
    let Ok(labels) = Box::new(alloc, |alloc: Global, args: &[V]| label(alloc, args)) else {
        return Err(Fault::Memory);
    };
    let extension = rank_extension(alloc, ranks, labels)?;
    let table = table_of(alloc, &extension)?;
    let printed = print(rt, input.as_slice(), &table)?;
    match write_out(&mut rt.stdout(), printed.text.as_bytes()) {
        Ok(()) => Ok(printed.status),
        Err(_) => Err(Fault::Write),
    }
}

// What is printed for an input, over the database in the file that the first argument names, or over one in memory.
fn print(rt: &HostRuntime, input: &[u8], table: &Extensions<'_>) -> Result<Printed, Fault> {
    let alloc = rt.alloc();
    match file(rt)? {
        Some(path) => {
            let mut host = DatabaseHost::open(rt, path.as_str(), table)?;
            print_input(alloc, &mut host, input, table)
        }
        None => {
            let mut host = DatabaseHost::open_in_memory(alloc, table)?;
            print_input(alloc, &mut host, input, table)
        }
    }
}

// The first argument, where there is one.
fn file(rt: &HostRuntime) -> Result<Option<String>, Fault> {
    let Ok(mut words) = env::args(rt) else {
        return Err(Fault::Read);
    };
    let _program = words.next();
    Ok(words.next())
}

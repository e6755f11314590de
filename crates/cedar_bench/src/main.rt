//! Runs a main path of the libraries that no bundle reaches, at a size, and prints how many it found.
//!
//! Standard input holds `expressions` or `authorizer`, a word and a number, as `authorizer again 1000`. The exit status is 0, or 2
//! where the input names no path, or 3 where a call refused what it should take, or 4 where memory, reading or writing failed; where it
//! isn't 0 nothing is printed. bench/libraries.py measures it, and sweeps/run refuses it memory.
#![tactic(auto)]

mod authorizer;
mod expressions;
mod fault;
mod names;

use crate::fault::Fault;
use std::alloc::Global;
use std::io;
use std::io::Write;
use std::process::ExitCode;

fn main(rt: HostRuntime) -> ExitCode {
    let Ok(input) = io::read_to_string(rt.alloc(), rt.stdin()) else {
        return ExitCode::from(4);
    };
    match run(rt.alloc(), input.as_str()) {
        Ok(count) => match writeln!(rt.stdout(), "{count}") {
            Ok(_) => ExitCode::SUCCESS,
            Err(_) => ExitCode::from(4),
        },
        Err(Fault::Unnamed) => ExitCode::from(2),
        Err(Fault::Refused) => ExitCode::from(3),
        Err(Fault::OutOfMemory) => ExitCode::from(4),
    }
}

// The library, the path and the size that an input names.
fn named(input: &str) -> Option<(&str, &str, u32)> {
    let (library, rest) = input.trim().split_once(' ')?;
    let (path, number) = rest.split_once(' ')?;
    let size = number.parse::<u32>().ok()?;
    Some((library, path, size))
}

// Runs what an input names, and counts what it found.
fn run(alloc: Global, input: &str) -> Result<usize, Fault> {
    let Some((library, path, size)) = named(input) else {
        return Err(Fault::Unnamed);
    };
    match library {
        "expressions" => expressions::run(alloc, path, size),
        "authorizer" => authorizer::run(alloc, path, size),
        _ => Err(Fault::Unnamed),
    }
}

//! Reads a JSON bundle on standard input and says what is wrong with it: a line for every fault, with its place; for an unreadable one the
//! first part that doesn't read; and for an accepted one which policies are impossible, where, and the level that each needs.
//!
//! The exit status is 0 where the gate accepts the policies, 1 where it refuses them, 2 where the bundle can't be read, and 4 where memory,
//! reading or writing failed. Arguments are ignored, and nothing goes to standard error.
#![tactic(auto)]

mod accepted;
mod external;
mod faults;
mod findings;
mod found;
mod kinds;
mod names;
mod report;
mod rules;
mod serving;
mod subjects;
mod typing;

use crate::serving::explain;
use std::process::ExitCode;

fn main(rt: HostRuntime) -> ExitCode {
    match explain(rt.alloc(), rt.stdin(), &mut rt.stdout()) {
        Ok(status) => ExitCode::from(status.number()),
        Err(_) => ExitCode::from(4),
    }
}

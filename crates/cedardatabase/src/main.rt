//! Reads a JSON bundle and, on a line each, further requests, puts their stores into a SQLite database and answers from there, round by round.
//!
//! The database is the file that the first argument names, where entities of earlier stores stay; it is in memory where none does. The exit
//! status is 0 where each request was answered, 1 where the gate refused the policies, 2 where the bundle or a request can't be read, 3 where a
//! session was stopped, and 4 where memory, reading, writing or the database failed. A fault of the database, as it is opened or takes
//! entities, goes to standard error; one during a run does not.
#![tactic(auto)]

mod answering;
mod fault;
mod requests;
mod serving;

use crate::fault::Fault;
use crate::serving::serve;
use std::process::ExitCode;

fn main(rt: HostRuntime) -> ExitCode {
    match serve(&rt) {
        Ok(status) => ExitCode::from(status.number()),
        Err(Fault::Database(fault)) => {
            let _told = eprintln!(rt; "cedardatabase: {fault}");
            ExitCode::from(4)
        }
        Err(_) => ExitCode::from(4),
    }
}

//! Reads a JSON bundle and, on a line each, further requests, and answers them all at one gate.
//!
//! The exit status is 0 where each request was answered, 1 where the gate refused the policies, 2 where the bundle or a request can't be
//! read, 3 where a session was stopped, and 4 where memory, reading or writing failed. Arguments are ignored, and nothing goes to standard
//! error.
#![tactic(auto)]

mod lines;
mod replay;
mod requests;

use crate::replay::replay;
use std::process::ExitCode;

fn main(rt: HostRuntime) -> ExitCode {
    match replay(rt.alloc(), rt.stdin(), &mut rt.stdout()) {
        Ok(status) => ExitCode::from(status.number()),
        Err(_) => ExitCode::from(4),
    }
}

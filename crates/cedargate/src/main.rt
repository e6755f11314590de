//! Reads a JSON bundle on standard input and prints refusals, warnings, early decisions and the answer.
//!
//! The exit status is 0 where the request was answered, 1 where the gate refused the policies, 2 where the bundle can't be read, 3 where
//! the session was stopped, and 4 where memory, reading or writing failed. Arguments are ignored, and nothing goes to standard error.
#![tactic(auto)]

use cedargate_functions::serve_ranks;
use std::process::ExitCode;

fn main(rt: HostRuntime) -> ExitCode {
    match serve_ranks(rt.alloc(), rt.stdin(), &mut rt.stdout()) {
        Ok(status) => ExitCode::from(status.number()),
        Err(_) => ExitCode::from(4),
    }
}

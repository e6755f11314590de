//! Makes calls of the libraries one by one, and says what each comes to. A call that is refused memory has to leave all that it was handed
//! as it was, and is made again.
//!
//! The first line of standard input says which calls (`calls.rt` lists them), and behind it stands what they are made with. Printed is what
//! they come to, and then, for each call that was refused memory, a line `again` with its name: so the other lines are those of a run that
//! has memory. The exit status is 0; it is 4, and nothing is printed, where an input isn't understood, where memory is refused between the
//! calls, and where reading or writing fails. sweeps/run refuses it each request for memory in turn.
#![tactic(auto)]

mod authorized;
mod calls;
mod copies;
mod gate;
mod linked;
mod members;
mod runs;
mod schema;
mod session;
mod told;
mod typed;
mod without_memory;

use crate::calls::make_calls;
use std::io;
use std::io::Write;
use std::process::ExitCode;

fn main(rt: HostRuntime) -> ExitCode {
    let Ok(input) = io::read_to_string(rt.alloc(), rt.stdin()) else {
        return ExitCode::from(4);
    };
    let Ok(told) = make_calls(rt.alloc(), input.as_str()) else {
        return ExitCode::from(4);
    };
    match write!(rt.stdout(), "{}{}", told.text, told.again) {
        Ok(_) => ExitCode::SUCCESS,
        Err(_) => ExitCode::from(4),
    }
}

//! The service for programs in C and Rust: a bundle in, the text that is printed for it out, in the caller's own room.
//! Contract: the number that `cedargate_serve` gives says what stands in the room, which is what `serve_ranks` prints of that bundle.
//! `c/cedargate.h` says the same for callers.
#![tactic(auto)]

ghost use Rattle.std.specs.Prelude.{◌≡◌, length, pos};
ghost use Rattle.cedargate_c.specs.Calls.{Outcome, outcome_number, Leaves};

mod printing;

use crate::printing::print_bundle;
use std::alloc::Global;

/// Writes the text that is printed for a bundle at the beginning of the caller's room. Gives 0 to 3, the status with which the program
/// `cedargate` would end: `needed` is then the length of the text. Gives 4 out of memory, and 5 where the room is too small: `needed` is
/// then how many bytes the text takes, so call again with that much room.
#[unsafe(no_mangle)]
pub extern "C" fn cedargate_serve(
    alloc: Global,
    bundle: &[u8],
    room: &mut [u8],
    needed: &mut usize,
) -> i32
    ensures length { length room.new ≡ length room.old }
    ensures outcome { (o : Outcome) × (result ≡ pos (outcome_number o)) × Leaves bundle.now o room.old room.new needed.new }
{
    *needed = 0;
    let Ok(printed) = print_bundle(alloc, bundle) else {
        return 4;
    };
    let text = printed.text.as_slice();
    let n = text.len();
    *needed = n;
    if room.len() < n {
        return 5;
    }
    room[..n].copy_from_slice(text);
    i32::from(printed.status.number())
}

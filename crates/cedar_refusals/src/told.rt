//! What is printed.

use std::alloc::{AllocError, Global};
use std::fmt::Write;

/// What is made where there is memory.
pub type Made<T> = Result<T, AllocError>;

/// What the calls came to, and which of them were made again.
pub struct Told {
    pub text: String,
    pub again: String,
}

// A drop of its own is one step to the proof of a function that owns it.
impl Drop for Told {
    fn drop(self) {
        let Told { text: _, again: _ } = self;
    }
}

impl Told {
    pub fn new(alloc: Global) -> Told {
        Told {
            text: String::new(alloc),
            again: String::new(alloc),
        }
    }

    /// Says a line.
    pub fn say(&mut self, line: &str) -> Made<()> {
        writeln!(self.text, "{line}")
    }

    /// Says a line of a word and a number.
    pub fn say_number(&mut self, word: &str, number: usize) -> Made<()> {
        writeln!(self.text, "{word} {number}")
    }

    /// Says that a call was refused memory, and is made again.
    pub fn say_again(&mut self, call: &str) -> Made<()> {
        writeln!(self.again, "again {call}")
    }

    /// Says so, and where something isn't as it was before the call, that too, among what the calls came to.
    pub fn say_refused(&mut self, call: &str, is_as_before: bool) -> Made<()> {
        if !is_as_before {
            writeln!(self.text, "{call} changed something, out of memory")?;
        }
        self.say_again(call)
    }
}

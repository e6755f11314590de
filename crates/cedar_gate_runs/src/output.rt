//! Writing a text out.

ghost use Rattle.std.specs.Prelude.{◌≤◌, [], OnOk, OnErr, IfOk, IfErr, take, length};
ghost use Rattle.std.specs.Io.KnownBytes.{Appends};
ghost use Rattle.cedar_gate_runs.specs.Printing.{AppendsBeginning};

use std::io::{ErrorKind, Write};

/// A writer didn't take all of a text.
#[derive(Clone, Copy, Debug, PartialEq, Eq)]
pub struct WriteFault;

// One call of `write`: how many bytes were taken, which is none where it was interrupted. It fails, and takes nothing,
// where the call fails otherwise or takes no byte.
fn write_once<W: Write>(writer: &mut W, text: &[u8]) -> Result<usize, WriteFault>
    ensures within { IfOk result (λ n. n ≤ length text.now) }
    ensures taken { IfOk result (λ n. Appends (W.contents writer.old) (W.contents writer.new) (take n text.now)) }
    ensures fault { OnErr result (Appends (W.contents writer.old) (W.contents writer.new) []) }
{
    match writer.write(text) {
        Ok(0) => Err(WriteFault),
        Ok(taken) => Ok(taken),
        Err(e) => {
            if e.kind() == ErrorKind::Interrupted {
                Ok(0)
            } else {
                Err(WriteFault)
            }
        }
    }
}

/// Writes all of a text, by as many calls of `write` as it takes. An interrupted one is tried again.
///
/// # Errors
///
/// Where a call of `write` fails or takes no byte. The writer then holds a beginning of the text, and not all of it.
pub fn write_out<W: Write>(writer: &mut W, text: &[u8]) -> Result<(), WriteFault>
    ensures written { OnOk result (Appends (W.contents writer.old) (W.contents writer.new) text.now) }
    ensures fault { IfErr result (λ _. AppendsBeginning (W.contents writer.old) (W.contents writer.new) text.now) }
{
    let mut done = 0;
    for _turn in 0..u64::MAX {
        if done >= text.len() {
            return Ok(());
        }
        done += write_once(writer, &text[done..])?;
    }
    if done < text.len() {
        Err(WriteFault)
    } else {
        Ok(())
    }
}

//! The service: reads a bundle, and writes the lines that are printed for it.

ghost use Rattle.std.specs.Prelude.{◌≡◌, IfErr};
ghost use Rattle.cedar_gate.specs.Serving.{ServesFair, ServesAny, Judged, LeavesAlone};
ghost use Rattle.cedar_gate_model.specs.Headline.{Promises};
ghost use Rattle.cedar_gate_model.specs.Lines.{Prints};

use crate::faults::{ServeFault, read_all};
use crate::printing::print_input;
use cedar_expr_functions::Extensions;
use cedar_gate_model::headline::what_is_printed_is_promised;
use cedar_gate_runs::Status;
use cedar_gate_runs::output::write_out;
use std::alloc::Global;
use std::io::{Read, Write};

// Reads a bundle and writes the lines that are printed for it, as `serve` does.
fn serve_printed<R: Read + Drop, W: Write + Drop>(
    alloc: Global,
    mut reader: R,
    writer: &mut W,
    table: &Extensions<'_>,
) -> Result<Status, ServeFault>
    ensures printed { ServesFair Prints table.now (R.remaining reader) (W.contents writer.old) (W.contents writer.new) result }
    ensures judged { ServesAny Judged table.now (R.remaining reader) (W.contents writer.old) (W.contents writer.new) result }
    ensures unchanged { IfErr result (λ e. LeavesAlone e (writer.new ≡ writer.old)) }
{
    let input = read_all(alloc, &mut reader)?;
    let Ok(printed) = print_input(alloc, input.as_slice(), table) else {
        return Err(ServeFault::Memory);
    };
    match write_out(writer, printed.text.as_bytes()) {
        Ok(()) => Ok(printed.status),
        Err(_) => Err(ServeFault::Write),
    }
}

/// Reads a bundle and writes the lines that are printed for it: all input is read, then all output is made, and then it is written. Values
/// are read, and policies evaluated, by the functions of the table. What the gate refuses is refused under the number of a fault; what it
/// accepts is answered by rounds over the store of the bundle, or stops with a refusal of the session. Where the table is fair the lines are
/// those of the definitions and keep the promises of the headline; what is unreadable, refused or accepted doesn't depend on that.
///
/// # Errors
///
/// Out of memory or a fault of the reader, and nothing is written; or a fault of the writer, which then holds a beginning
/// of the lines.
pub fn serve<R: Read + Drop, W: Write + Drop>(
    alloc: Global,
    reader: R,
    writer: &mut W,
    table: &Extensions<'_>,
) -> Result<Status, ServeFault>
    ensures printed { ServesFair Prints table.now (R.remaining reader) (W.contents writer.old) (W.contents writer.new) result }
    ensures headline { ServesFair Promises table.now (R.remaining reader) (W.contents writer.old) (W.contents writer.new) result }
    ensures judged { ServesAny Judged table.now (R.remaining reader) (W.contents writer.old) (W.contents writer.new) result }
    ensures unchanged { IfErr result (λ e. LeavesAlone e (writer.new ≡ writer.old)) }
{
    what_is_printed_is_promised();
    serve_printed(alloc, reader, writer, table)
}

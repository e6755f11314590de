//! Serving by the functions `rank` and `label`.

ghost use Rattle.std.specs.Prelude.{◌≡◌, List, ℕ, Some, IfErr};
ghost use Rattle.cedar_evaluator_errors.specs.Answers.{AnswersMade};
ghost use Rattle.cedar_expr_functions.specs.Tables.{table_of};
ghost use Rattle.cedar_gate.specs.Serving.{ServeGives, LeavesAlone};
ghost use Rattle.cedargate_functions.specs.Ranks.{rank_calls, rank_answers};
ghost use Rattle.cedargate_functions.specs.Served.{PrintsByRanks, PromisesByRanks};
ghost use Rattle.cedargate_functions.specs.Tables.{HoldsRanks};

use crate::functions::{V, label, rank};
use crate::table::{rank_extension, table_of};
use cedar_expr_functions::Extensions;
use cedar_gate::{ServeFault, Status, serve};
use std::alloc::Global;
use std::io::{Read, Write};

// Reads a bundle and writes the lines that are printed for it, by the functions of this table, which is fair.
fn serve_by<R: Read + Drop, W: Write + Drop>(
    alloc: Global,
    reader: R,
    writer: &mut W,
    table: &Extensions<'_>,
) -> Result<Status, ServeFault>
    requires made { AnswersMade table.now rank_calls }
    requires ranks { HoldsRanks (table_of table.now rank_answers) }
    ensures printed { (bytes : List ℕ) → R.remaining reader ≡ Some bytes
        → ServeGives (PrintsByRanks bytes) (W.contents writer.old) (W.contents writer.new) result }
    ensures headline { (bytes : List ℕ) → R.remaining reader ≡ Some bytes
        → ServeGives (PromisesByRanks bytes) (W.contents writer.old) (W.contents writer.new) result }
    ensures unchanged { IfErr result (λ e. LeavesAlone e (writer.new ≡ writer.old)) }
{
    serve(alloc, reader, writer, table)
}

/// Reads a bundle and writes the lines that are printed for it, by the functions `rank` and `label`. The lines of a run keep the promises of
/// the headline.
///
/// # Errors
///
/// Out of memory or a fault of the reader, and nothing is written; or a fault of the writer, which then holds a beginning
/// of the lines.
pub fn serve_ranks<R: Read + Drop, W: Write + Drop>(
    alloc: Global,
    reader: R,
    writer: &mut W,
) -> Result<Status, ServeFault>
    ensures printed { (bytes : List ℕ) → R.remaining reader ≡ Some bytes
        → ServeGives (PrintsByRanks bytes) (W.contents writer.old) (W.contents writer.new) result }
    ensures headline { (bytes : List ℕ) → R.remaining reader ≡ Some bytes
        → ServeGives (PromisesByRanks bytes) (W.contents writer.old) (W.contents writer.new) result }
    ensures unchanged { IfErr result (λ e. LeavesAlone e (writer.new ≡ writer.old)) }
{
    let Ok(ranks) = Box::new(alloc, |alloc: Global, args: &[V]| rank(alloc, args)) else {
        return Err(ServeFault::Memory);
    };
    let Ok(labels) = Box::new(alloc, |alloc: Global, args: &[V]| label(alloc, args)) else {
        return Err(ServeFault::Memory);
    };
    let Ok(extension) = rank_extension(alloc, ranks, labels) else {
        return Err(ServeFault::Memory);
    };
    match table_of(alloc, &extension) {
        Ok(table) => serve_by(alloc, reader, writer, &table),
        Err(_) => Err(ServeFault::Memory),
    }
}

//! Laws of these worlds. Each function's contract is the theorem; its body does nothing.

ghost use Rattle.cedar_store_model.specs.WorldLaws.{ReadsAskTheStore, SettledWorldsAnswer, WholeStoresAreSettled, TypedTablesLeaveNone};

/// What is read at values depends on the store alone.
pub fn reads_ask_the_store()
    ensures { ReadsAskTheStore }
{}

/// Where everything is known but unknowns, an expression whose own unknowns are bound means exactly one outcome. So it is over a
/// whole store of values and a fair table of functions that have result types, whatever else isn't bound.
pub fn settled_worlds_answer()
    ensures outcome { SettledWorldsAnswer }
    ensures store { WholeStoresAreSettled }
    ensures calls { TypedTablesLeaveNone }
{}

//! A law of what is kept. The function's contract is the theorem; its body does nothing.

ghost use Rattle.cedar_schema_assembly.specs.Pieces.{PiecesAreKept};

/// The entity types and the actions of a schema together are what a built schema keeps of it.
pub fn pieces_are_kept()
    ensures { PiecesAreKept }
{}

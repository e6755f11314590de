//! What shadows, by what is declared, and which declarations fragments write. Each function's contract is the theorem; its body does
//! nothing.

ghost use Rattle.cedar_schema_fragments.specs.Laws.{ShadowingIsDeclared, QualifiedAreWritten, RefusalsAreReserved, RefusedAreFaulty, WellFormedAreQualified, TogetherAreWritten, WrittenTypesAreDeclared, WrittenActionsAreDeclared};

/// Where the sets have what the declarations declare, something shadows by the sets exactly where it does by the declarations.
pub fn shadowing_is_declared()
    ensures { ShadowingIsDeclared }
{}

/// What is made of a fragment as it is written writes its declarations, and fragments together write theirs together. What is
/// refused has the fault of a reserved name, which the refusal reports, and well-formed declarations never are.
pub fn fragments_are_written()
    ensures made { QualifiedAreWritten }
    ensures told { RefusalsAreReserved }
    ensures faulty { RefusedAreFaulty }
    ensures formed { WellFormedAreQualified }
    ensures together { TogetherAreWritten }
{}

/// Sets that have what fragments declare have what the declarations declare that they write.
pub fn written_are_declared()
    ensures types { WrittenTypesAreDeclared }
    ensures actions { WrittenActionsAreDeclared }
{}

//! Laws of what runs did. Each function's contract is the theorem; its body does nothing.

ghost use Rattle.cedar_gate_model.specs.DidLaws.{DidNothing, DidMore, DidFollows, LoadedNothing, LoadedMore, LoadedFinishes};

/// What was done by no steps is nothing, and what one more step does comes behind what was done; followed by a run of the other steps
/// it is a run of all.
pub fn what_was_done_goes_on()
    ensures nothing { DidNothing }
    ensures more { DidMore }
    ensures follows { DidFollows }
{}

/// Rounds come one behind the other, and what finishes after them finishes with them.
pub fn rounds_go_on()
    ensures nothing { LoadedNothing }
    ensures more { LoadedMore }
    ensures finishes { LoadedFinishes }
{}

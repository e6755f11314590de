//! Laws of what a session gives before the answer, its decisions and bounds. Each function's contract is the theorem; its body does nothing.

ghost use Rattle.cedar_gate_model.specs.Early.{DecisionsAreKept, GivenBoundsHold, BoundsAreOwed, BoundsAreTheReasons, BoundsAreKept};

/// A decision that is given is that of every completion of what is known. One is given where what is known forces it and no policy meets the
/// limit, and once all is bound and loaded.
pub fn decisions_are_kept()
    ensures { DecisionsAreKept }
{}

/// Bounds that are given hold in every completion of what is known: what must determine the decision is among the answer's reasons there,
/// and these are among what may. Where all is bound they are given, since no accepted policy meets the limit; and where all that the
/// policies look up is known too, both are the reasons of the answer.
pub fn bounds_are_kept()
    ensures given { GivenBoundsHold }
    ensures owed { BoundsAreOwed }
    ensures reasons { BoundsAreTheReasons }
    ensures kept { BoundsAreKept }
{}

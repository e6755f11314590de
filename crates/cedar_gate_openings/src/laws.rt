//! Laws of requests at a state of a session. Each function's contract is the theorem; its body does nothing.

ghost use Rattle.cedar_gate_openings.specs.Laws.{RootsAreKnown, RootsAreListed, BindingIsMore};

/// The roots of the request at a state are those of what is known then.
pub fn roots_are_known()
    ensures { RootsAreKnown }
{}

/// A list of them has exactly the roots of what is known.
pub fn roots_are_listed()
    ensures { RootsAreListed }
{}

/// A binding of an open name has all roots of the state before.
pub fn a_binding_is_more()
    ensures { BindingIsMore }
{}

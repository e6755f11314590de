//! Laws of what is wanted. Each function's contract is the theorem; its body does nothing.

ghost use Rattle.cedar_gate_wanted.specs.Laws.{WantedIsNext, SupplyIsRound, RootsAreBound};

/// Where what is loaded is what a session's state asked for, what is wanted is the session's next round.
pub fn wanted_is_the_next_round()
    ensures { WantedIsNext }
{}

/// A supply of all that is wanted, with what the store's answers mention, is a round of the session.
pub fn a_supply_is_a_round()
    ensures { SupplyIsRound }
{}

/// To add all roots that are known once more is bound is to bind.
pub fn roots_are_bound()
    ensures { RootsAreBound }
{}

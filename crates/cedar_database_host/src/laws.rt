//! What holds of the table that a host makes. The function's contract is the theorem; its body does nothing.

ghost use Rattle.cedar_database_host.specs.Laws.{LooksUpWhatIsMade};

/// Where the table that a host makes is the only one, its look-up is a query of that table.
pub fn what_is_made_is_looked_up()
    ensures { LooksUpWhatIsMade }
{}

//! Laws of reading. Each function's contract is the theorem; its body does nothing.

ghost use Rattle.cedar_gate_model.specs.ReadingLaws.{ReadIsBuilt, ReadSlotsAreWritten, NumbersAreInRange, LackingStepsAreNone, TableIsGiven, StoredOnce, StoreHoldsValues, ValuesAreRestricted, OpenContextsHaveUnknowns};

/// An expression is read in the form that builders make.
/// It has a slot only where a list of the word `slot` and that slot is written.
pub fn expressions_are_read_as_built()
    ensures form { ReadIsBuilt }
    ensures slots { ReadSlotsAreWritten }
{}

/// The level and the limit of a bundle are in their ranges, its table is the one that it is read with, and without the key of
/// steps it has none.
pub fn bundles_are_in_range()
    ensures numbers { NumbersAreInRange }
    ensures table { TableIsGiven }
    ensures steps { LackingStepsAreNone }
{}

/// In the store of a bundle no uid is repeated, and attributes and tags are values.
pub fn stores_hold_values()
    ensures once { StoredOnce }
    ensures values { StoreHoldsValues }
{}

/// A value is read of a restricted expression without unknowns. A context that isn't a value yet has restricted fields and an
/// unknown.
pub fn values_are_read_of_restricted_expressions()
    ensures values { ValuesAreRestricted }
    ensures contexts { OpenContextsHaveUnknowns }
{}

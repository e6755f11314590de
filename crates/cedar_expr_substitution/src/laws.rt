//! Laws of substitution. Each function's contract is the theorem; its body does nothing.

ghost use Rattle.cedar_expr_substitution.specs.SubstitutionLaws.{SubstitutesOnce};

/// To substitute by one map and then by another is to substitute once by both, where the value of the first stands if both bind a
/// name.
pub fn substituting_twice_is_once()
    ensures { SubstitutesOnce }
{}

//! Laws of the walk. The function's contract is the theorem; its body does nothing.

ghost use Rattle.cedar_typechecker_model.specs.ReportLaws.{ReportedAreViolations};

/// At each level of 32 bits a walk reports the violations of the typed expression.
pub fn reported_are_violations()
    ensures { ReportedAreViolations }
{}

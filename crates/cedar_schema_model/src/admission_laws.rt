//! Laws of restricted expressions and types. Each function's contract is the theorem; its body does nothing.

ghost use Rattle.cedar_schema_model.specs.AdmissionLaws.{AskedDecides, NamedIsNotThere, WrittenValuesAreAsked};

/// The test of a restricted expression and a type answers that it is of the type exactly where it is; a function that it says isn't there isn't there.
pub fn asked_forms_decide()
    ensures decides { AskedDecides }
    ensures named { NamedIsNotThere }
{}

/// In a fair table the expression that a value is written as is of exactly the types of the value.
pub fn written_values_are_asked()
    ensures { WrittenValuesAreAsked }
{}

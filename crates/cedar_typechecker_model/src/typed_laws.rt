//! Laws of the definitions. Each function's contract is the theorem; its body does nothing.

ghost use Rattle.cedar_typechecker_model.specs.TypedLaws.{TypedAsJudged, SameTree, CountedOnMarks};

/// A typed expression has the type and the facts that are judged, and is the expression itself.
pub fn typed_as_judged()
    ensures judged { TypedAsJudged }
    ensures same { SameTree }
{}

/// The violations of a typed expression are those that the types of its parts tell.
pub fn counted_on_marks()
    ensures { CountedOnMarks }
{}

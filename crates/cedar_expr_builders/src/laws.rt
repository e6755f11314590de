//! Laws of builders. Each function's contract is the theorem; its body does nothing.

ghost use Rattle.cedar_expr_builders.specs.BuilderLaws.{RebuildsOnce, StaysLawful, MakesAll, RefusalsAgree};

/// To rebuild an expression and then to build it, through a lawful builder, is to build it. So rebuilding twice is rebuilding once.
pub fn rebuilding_twice_is_once<B>()
    ensures { RebuildsOnce B }
{}

/// A lawful builder stays lawful where it refuses calls, and where it refuses none it makes all.
pub fn refusing_builders_are_lawful<M, R>()
    ensures lawful { StaysLawful M R }
    ensures all { MakesAll M R }
{}

/// To substitute and then to build through a lawful builder, its refusals and all, is to build with each bound unknown made of its
/// value.
pub fn refusals_agree<M, R>()
    ensures { RefusalsAgree M R }
{}

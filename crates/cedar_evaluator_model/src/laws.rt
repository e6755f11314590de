//! Laws of the definitions. Each function's contract is the theorem; its body does nothing.

ghost use Rattle.cedar_evaluator_model.specs.Laws.{LimitStops, LiteralsStand, OutcomesAreOwed, OwedWithoutValues, OwedUnlessLimit, LargerLimitsKeep, EvaluationIsTheMeaning, NoResidualIsLeft, NoLimitIsMet, WrittenMeansTheValue, WrittenEvaluates, TypedTablesLeaveNothing, CompletionsExtend, NoPolicyMeetsLimit, ResponseIsTheAnswer, DecisionIsGiven, NoPolicyIsResidual, ReauthorizingLeavesNone, ReauthorizingAnswers, ForbidForces, PermitForces, NoPermitForces};

/// At limit 0 every evaluation stops at the limit; within a limit a literal is its value.
pub fn the_limit_is_met()
    ensures zero { LimitStops }
    ensures literals { LiteralsStand }
{}

/// Whatever else is unknown: where what is known as values gives an expression an outcome, and its nesting is within the limit,
/// evaluation leaves that value or that error; so it does at every limit that isn't met, and every larger limit leaves the same.
pub fn outcomes_are_owed()
    ensures owed { OutcomesAreOwed }
    ensures without_values { OwedWithoutValues }
    ensures unless_limit { OwedUnlessLimit }
    ensures larger_limits { LargerLimitsKeep }
{}

/// Where nothing is unknown, everything is loaded and the nesting is within the limit, evaluation is the meaning, and leaves no
/// residual.
pub fn evaluation_is_the_meaning()
    ensures exact { EvaluationIsTheMeaning }
    ensures no_residual { NoResidualIsLeft }
{}

/// Where nothing is unknown no evaluation within the limit meets it, over a partial store either.
pub fn no_limit_is_met()
    ensures { NoLimitIsMet }
{}

/// A well-made value is what its written expression means, and that evaluates to an equal value.
pub fn written_values_stand()
    ensures meaning { WrittenMeansTheValue }
    ensures evaluation { WrittenEvaluates }
{}

/// The calls of a fair table leave no unknown where each of its functions has a result type.
pub fn typed_tables_leave_nothing()
    ensures { TypedTablesLeaveNothing }
{}

/// Each completion of a scope knows what the scope knows as values.
pub fn completions_extend_what_is_known()
    ensures { CompletionsExtend }
{}

/// Where nothing is unknown no policy within the limit meets it. Where everything is loaded too and none met it, the response, taken
/// as an answer, is the answer: decision, reasons and errors; a session has its decision. No policy is residual there.
pub fn the_response_is_the_answer()
    ensures limit { NoPolicyMeetsLimit }
    ensures answer { ResponseIsTheAnswer }
    ensures decision { DecisionIsGiven }
    ensures no_residual { NoPolicyIsResidual }
{}

/// Reauthorizing where nothing is unknown any more leaves no residual, and answers as what was left of the policies does.
pub fn reauthorizing_decides()
    ensures no_residual { ReauthorizingLeavesNone }
    ensures answer { ReauthorizingAnswers }
{}

/// A session's decision is owed as soon as what is known forces it, whatever else is unknown, where no policy met the limit.
pub fn decisions_are_owed()
    ensures by_forbid { ForbidForces }
    ensures by_permit { PermitForces }
    ensures by_no_permit { NoPermitForces }
{}

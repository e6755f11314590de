//! Laws of decisions and answers. Each function's contract is the theorem; its body does nothing.

ghost use Rattle.cedar_gate_sessions.specs.Laws.{DecisionsMayBeGiven, AcceptedIdsAreDistinct, AcceptedAreWithin, AnsweredIsTheAnswer, SessionsAnswer};

use cedar_gate_model::run_laws::decisions_are_the_answers;

/// What evaluating the policies over what is known decides may be given as the decision of a session.
pub fn decisions_may_be_given()
    ensures { DecisionsMayBeGiven }
{
    decisions_are_the_answers();
}

/// The policies of an accepted submission have distinct ids and are within its limit.
pub fn accepted_policies_are_fit()
    ensures distinct { AcceptedIdsAreDistinct }
    ensures within { AcceptedAreWithin }
{}

/// Over a whole store the answer that evaluations leave is the answer by what the policies mean. Over what a session loaded it is the
/// answer over the whole store, where nothing is refused.
pub fn answers_are_the_meaning()
    ensures meaning { AnsweredIsTheAnswer }
    ensures sessions { SessionsAnswer }
{}

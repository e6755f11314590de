//! Laws of runs: what they ask for, decide and answer. Each function's contract is the theorem; its body does nothing.

ghost use Rattle.cedar_gate_model.specs.RunsAsk.{RunsAskOnce, RunsAskInTheSlice, RunsAskTheSlice, RunsHaveFewRounds};
ghost use Rattle.cedar_gate_model.specs.RunsAlike.{EndsAreTheCourses, StepsMayMove, LevelsAnswerAlike, OutsideSaysNothing, OutsideRunsStay, PoliciesMayMove, MovedPoliciesAnswerAlike, MovedPoliciesRun, PrunedAnswersAlike, WarnedAreNoReasons, DeclarationsMayMove, FragmentsMaySplit, MovedDeclarationsAnswerAlike, MovedDeclarationsRun, MovedDeclarationsDecide};
ghost use Rattle.cedar_gate_model.specs.RunsAnswer.{AnsweredRunsAreCompleted, RunsMayBe, GivenDecisionsAreTheAnswers, AnswersAreTheWholeStores, AnswersNeedTheLoadedAlone, ErrorsAreExpected, ReadyDecisionsAreOwed, ForcedDecisionsAreGiven, EvaluatedDecisionsHold, DecidingSessionsAreOpened, SessionsAreCompleted, SessionsHaveCompletions, ProperRunsAreLegal, IsProper, MayRun, BundlesAreProper, session_of, end_world, with_unknowns, IsOpened, IsKnownStore};
ghost use Rattle.cedar_gate_model.specs.RunLaws.{RunsAreLegal, AnsweredRunsAskTheSlice};
ghost use Rattle.cedar_gate_model.specs.SliceSoundness.{LargerLevelsAccept};
ghost use Rattle.std.specs.Prelude.{◌≡◌, [], ◌∷◌, None, codes};
ghost use Rattle.cedar_evaluator_model.specs.Members.{decision_in_session};
ghost use Rattle.cedar_evaluator_model.specs.Response.{response_of};
ghost use Rattle.cedar_store_model.specs.World.{not_loaded};
ghost use Rattle.cedar_gate_model.specs.Session.{at_start, scope_now, known_now, IsWantedNow, CompletesNow};
ghost use Rattle.cedar_typechecker_model.specs.Worked.{user_a, doc_d};
ghost use Rattle.cedar_gate_model.specs.Runs.{answered};
ghost use Rattle.cedar_gate_model.specs.Transcript.{round, bound};
ghost use Rattle.cedar_gate_model.specs.WorkedGate.{user_b, p0, p0_allows, loaded_course, actions_alone, late_course, p0_denies};

/// A run asks for no uid twice, and only for what is in the slice of what was bound by its end, over the whole store: an answered run for
/// exactly that, though a late binding may bring uids nearer. At most as many rounds as the level follow the last binding.
pub fn runs_ask_the_slice()
    ensures once { RunsAskOnce }
    ensures within { RunsAskInTheSlice }
    ensures exact { RunsAskTheSlice }
    ensures few { RunsHaveFewRounds }
{}

/// What a run does, a refused one too, is legal against each world that completes what was bound and answered by its end; what was
/// bound and answered by the end of an answered run, over the whole store, is such a world. For each such world there is one that completes
/// what evaluating the policies knows then, with the same answer; and what it knows has a completion in each state of an opened session,
/// whatever conforms, where the context can be a record. Where the context has no field with an
/// unknown in it, runs are legal whatever the gate accepted, and one that answered asked for the slice.
pub fn runs_are_legal()
    ensures legal { ProperRunsAreLegal }
    ensures completed { AnsweredRunsAreCompleted }
    ensures sessions { SessionsAreCompleted }
    ensures exist { SessionsHaveCompletions }
    ensures closed_contexts { RunsAreLegal }
    ensures asked { AnsweredRunsAskTheSlice }
{}

/// Each decision that is given on the way of an answered run is that of its answer. One that is asked for is given where all is bound,
/// the request conforms and nothing is wanted. Evaluating the policies over what is known gives each decision that is owed, and a
/// decision that it gives is that of every completion: of each session that opened and bound its names, as it is at each decision of a
/// run, where the functions make their values as they are written.
pub fn decisions_are_the_answers()
    ensures given { GivenDecisionsAreTheAnswers }
    ensures owed { ReadyDecisionsAreOwed }
    ensures forced { ForcedDecisionsAreGiven }
    ensures evaluated { EvaluatedDecisionsHold }
    ensures opened { DecidingSessionsAreOpened }
{}

/// What evaluating in part decides, or that it decides nothing, may be given: so each run is one with decisions that may be given, and what
/// is said of these holds of it.
pub fn runs_may_be()
    ensures { RunsMayBe }
{
    decisions_are_the_answers();
}

/// The answer of a run is that of the whole store, whatever stands in it outside the slice, and so that of the loaded entities and the
/// declared actions alone. Its errors are missing entities, overflows, zero divisors and failures of extensions.
pub fn answers_need_the_slice_alone()
    ensures whole { AnswersAreTheWholeStores }
    ensures loaded { AnswersNeedTheLoadedAlone }
    ensures errors { ErrorsAreExpected }
    ensures outside { OutsideSaysNothing }
    ensures stays { OutsideRunsStay }
{}

/// An answered run ends with all that its steps bind, over the whole store. So its answer doesn't depend on the order of the steps that
/// bind, nor on where among them loads and decisions stand, nor on the level. What is accepted at a level is so at every larger one.
pub fn steps_and_levels_are_free()
    ensures ends { EndsAreTheCourses }
    ensures steps { StepsMayMove }
    ensures levels { LevelsAnswerAlike }
    ensures larger { LargerLevelsAccept }
{}

/// Policies in another order are accepted alike, and give the same decision, the same reasons and the same errors. Declarations in
/// another order are accepted alike, and come to the same answer: each run by the ones is a run by the others, to the same end, a refused
/// one too. Split among fragments they are the same.
pub fn order_is_free()
    ensures policies { PoliciesMayMove }
    ensures policies_answer { MovedPoliciesAnswerAlike }
    ensures policies_run { MovedPoliciesRun }
    ensures declarations { DeclarationsMayMove }
    ensures declarations_answer { MovedDeclarationsAnswerAlike }
    ensures declarations_run { MovedDeclarationsRun }
    ensures declarations_decide { MovedDeclarationsDecide }
    ensures split { FragmentsMaySplit }
{}

/// The policies that aren't irrelevant for the request's types give the same decision and the same reasons alone, and none that is
/// warned of is a reason.
pub fn pruned_answers_are_alike()
    ensures pruned { PrunedAnswersAlike }
    ensures warned { WarnedAreNoReasons }
{}

/// The premises of these laws are met by each bundle that is read and accepted, where the functions are fair. They are met here: a
/// policy at level 2 over a store of three entities and one that doesn't conform, in two rounds. The world at its end completes its start,
/// where something is wanted that isn't asked for yet; evaluating the policy over what is known there decides nothing.
/// They are met by a course too in which the principal is bound late: the owner of the document was met at distance 1; once the owner is
/// the principal its boss is near, and is asked for in one round more.
pub fn worked_courses()
    ensures bundles { BundlesAreProper }
    ensures proper { IsProper loaded_course }
    ensures run { MayRun loaded_course (round (doc_d ∷ user_a ∷ []) ∷ round (user_b ∷ []) ∷ []) (answered p0_allows) }
    ensures opened { IsOpened (session_of loaded_course) at_start }
    ensures known { IsKnownStore loaded_course at_start actions_alone }
    ensures undecided { decision_in_session (response_of (scope_now (session_of loaded_course) at_start actions_alone) 16 (p0 ∷ [])) ≡ None }
    ensures wanted { IsWantedNow (session_of loaded_course) at_start user_a }
    ensures not_asked { (known_now (session_of loaded_course) at_start).store user_a ≡ not_loaded }
    ensures completed { CompletesNow (session_of loaded_course) at_start (with_unknowns (end_world loaded_course (round (doc_d ∷ user_a ∷ []) ∷ round (user_b ∷ []) ∷ []))) }
    ensures late { IsProper late_course }
    ensures late_run { MayRun late_course (round (doc_d ∷ []) ∷ round (user_b ∷ []) ∷ bound (codes "principal") ∷ round (user_a ∷ []) ∷ []) (answered p0_denies) }
{}

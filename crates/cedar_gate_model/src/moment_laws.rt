//! Laws of every moment of a run: what was done by then, what is known, and what is wanted next. Each function's contract is the theorem;
//! its body does nothing.

ghost use Rattle.cedar_gate_model.specs.DoneBy.{MomentsAreStates, MomentsKeep, WantedIsNew, AnsweredRunsAreLegal};
ghost use Rattle.cedar_gate_model.specs.Knowing.{CompletionsKeepTheStore, CompletionsKnowMore};

/// The declared actions, the loaded entities and the known absences are a partial store, which every completion of a session's state
/// extends; and in the session of a course every completion knows all that is known.
pub fn completions_know_what_is_known()
    ensures store { CompletionsKeepTheStore }
    ensures more { CompletionsKnowMore }
{}

/// Whatever a run did by a moment, where it stops when out of memory too: no uid was asked for twice, only what is near was, few rounds
/// follow the last binding, each decision that was owed was given, and the transcript is legal in each world that completes the moment. A
/// list that is wanted then is near and new.
pub fn moments_keep()
    ensures states { MomentsAreStates }
    ensures keep { MomentsKeep }
    ensures wanted { WantedIsNew }
{}

/// The transcript of an answered run is legal with its answer, against each world that completes its end.
pub fn answered_runs_are_legal()
    ensures { AnsweredRunsAreLegal }
{}

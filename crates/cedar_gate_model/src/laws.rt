//! Laws of acceptance, slices, transcripts, runs and lines. Each function's contract is the theorem; its body does nothing.

ghost use Rattle.cedar_gate_model.specs.GateLaws.{AcceptanceDecides, FaultsExclude, RefusalHasFault, AcceptanceReads, WarnedAreImpossible, GivenAreRelevant, ImpossibleIsIrrelevant, NearAreListed, SliceIsListed, SliceIsEmpty, SliceGrows, KnowledgeKeepsTheSlice, SliceIsLocal, AskedIsInSlice, AskedOnce, DecisionsAreFinal, OneDecision, RoundsAreFew, SliceIsAsked};
ghost use Rattle.cedar_gate_model.specs.RunLaws.{NothingTwice, RunsAreAlike, OneStatus, OneAnswer, UnreadableAlone, OnlyUnreadable, RefusalsAreFaults};

/// The test of a submission is true exactly where it is accepted, which is where the acceptance rules hold as they are read.
/// A fault excludes acceptance, and a submission that the test refuses has a fault.
pub fn acceptance_is_decided()
    ensures decides { AcceptanceDecides }
    ensures excludes { FaultsExclude }
    ensures named { RefusalHasFault }
    ensures reads { AcceptanceReads }
{}

/// The warnings are the ids of the impossible policies, and the policies for a request's types those that aren't irrelevant for
/// them; an impossible policy is irrelevant for all types.
pub fn warnings_and_policies_are_exact()
    ensures warned { WarnedAreImpossible }
    ensures given { GivenAreRelevant }
    ensures nowhere { ImpossibleIsIrrelevant }
{}

/// The lists have exactly what is near, and what is in the slice.
pub fn slices_are_listed()
    ensures near { NearAreListed }
    ensures slice { SliceIsListed }
{}

/// At level 0 the slice is empty, at a larger level it has all of that at a smaller one, and more knowledge takes nothing out of it.
/// It depends on roots alone and on what is held nearer than its level.
pub fn slices_grow()
    ensures empty { SliceIsEmpty }
    ensures levels { SliceGrows }
    ensures knowledge { KnowledgeKeepsTheSlice }
    ensures local { SliceIsLocal }
{}

/// What a legal transcript asks for is in the slice of the whole world, and no uid stands in two of its rounds. At most as many rounds
/// as the level follow its last binding; where all is known and nothing is wanted any more, what was asked for is the slice.
pub fn legal_transcripts_ask_the_slice()
    ensures within { AskedIsInSlice }
    ensures once { AskedOnce }
    ensures never_twice { NothingTwice }
    ensures few { RoundsAreFew }
    ensures exact { SliceIsAsked }
{}

/// Each decision that a legal transcript gives is that of the answer, so two are equal.
pub fn given_decisions_are_final()
    ensures final_decisions { DecisionsAreFinal }
    ensures one { OneDecision }
{}

/// Two runs of the same steps have the same rounds and bindings, and end in the same way.
pub fn runs_are_alike()
    ensures { RunsAreAlike }
{}

/// An input has one status, and a bundle that is answered one answer. What doesn't read prints `unreadable` alone, and nothing else does; a refusal by the gate is printed
/// exactly where a submission isn't accepted.
pub fn printing_is_determined()
    ensures one_status { OneStatus }
    ensures one_answer { OneAnswer }
    ensures unreadable { UnreadableAlone }
    ensures no_other { OnlyUnreadable }
    ensures refusals { RefusalsAreFaults }
{}

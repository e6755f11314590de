//! Laws of levels and slices against the meaning. Each function's contract is the theorem; its body does nothing.

ghost use Rattle.std.specs.Prelude.{◌≡◌, false, [], ◌∷◌};
ghost use Rattle.cedar_store_model.specs.Answer.{allow, decision_of};
ghost use Rattle.cedar_store_model.specs.Looks.{Looks};
ghost use Rattle.cedar_store_model.specs.Policy.{condition};
ghost use Rattle.cedar_schema_model.specs.Conforming.{entity_conforms};
ghost use Rattle.cedar_typechecker_model.specs.Worked.{user_a, doc_d};
ghost use Rattle.cedar_gate_model.specs.Acceptance.{IsAccepted, schema_in};
ghost use Rattle.cedar_typechecker_model.specs.Slice.{slice};
ghost use Rattle.cedar_gate_model.specs.SliceSoundness.{AcceptedAreInReach, CompletionsFit, AcceptedAreSound, OnlyTheSliceAnswers, IsFitFor};
ghost use Rattle.cedar_gate_model.specs.WorkedGate.{user_b, user_z, p0, without_ok, level_two, three_and_z, viewed_by_a};

/// What the condition of a policy of an accepted submission looks up is in the slice at its level, or is a declared action. Entities
/// outside of the slice may be anything.
pub fn lookups_are_in_the_slice()
    ensures { AcceptedAreInReach }
{}

/// A world that completes a request is fit for a submission, where the table is fair.
pub fn completions_are_fit()
    ensures { CompletionsFit }
{}

/// Where the slice at its level conforms, each policy of an accepted submission means a truth value or errs as expected, and an
/// impossible one isn't satisfied.
pub fn accepted_policies_are_sound()
    ensures { AcceptedAreSound }
{}

/// Stores that agree on the slice and on the declared actions give an accepted submission the same answer.
pub fn only_the_slice_answers()
    ensures { OnlyTheSliceAnswers }
{}

/// An accepted policy at level 2 over a store whose slice conforms. It looks up the owner of the document. Its slice has three entities
/// and not a user who doesn't conform; the answer is Allow.
pub fn worked_slice()
    ensures accepted { IsAccepted level_two }
    ensures fit { IsFitFor level_two (viewed_by_a three_and_z) }
    ensures looked_up { Looks (viewed_by_a three_and_z) (condition p0) user_b }
    ensures members { slice (schema_in level_two) 2 (viewed_by_a three_and_z) ≡ user_a ∷ doc_d ∷ user_a ∷ user_b ∷ [] }
    ensures outside { entity_conforms (schema_in level_two) user_z without_ok ≡ false }
    ensures allowed { decision_of (viewed_by_a three_and_z) (p0 ∷ []) ≡ allow }
{}

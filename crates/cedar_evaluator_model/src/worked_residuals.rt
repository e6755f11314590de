//! A worked example of what residuals keep: each premise of the laws is met. Each function's contract is what holds; its body does
//! nothing.

ghost use Rattle.std.specs.Prelude.{◌≡◌, true, false, Some, None, codes, [], ◌∷◌};
ghost use Rattle.cedar_expr_model.specs.Tree.{either, both, get_attr};
ghost use Rattle.cedar_store_model.specs.Answer.{allow, decision_of};
ghost use Rattle.cedar_evaluator_model.specs.OfLaws.Calls.{Agrees};
ghost use Rattle.cedar_evaluator_model.specs.OfLaws.WellMade.{AllMadeWell};
ghost use Rattle.cedar_evaluator_model.specs.OfLaws.Completing.{Completes};
ghost use Rattle.cedar_evaluator_model.specs.Members.{decision_in_session};
ghost use Rattle.cedar_evaluator_model.specs.ResponseLaws.{FitConditions};
ghost use Rattle.cedar_evaluator_model.specs.ReauthorizeLaws.{BindsRightly, FitsStep, Chain, BeginsIn};
ghost use Rattle.cedar_evaluator_model.specs.Worked.{true_tree, standing_b};
ghost use Rattle.cedar_evaluator_model.specs.WorkedResponses.{note};
ghost use Rattle.cedar_evaluator_model.specs.WorkedResiduals.{one_open, unknown_truth, ok_policy, ok_response, ok_world, u_is_true, ok_step, ok_again};

/// The residual keeps the annotated unknown and what is asked of the entity that isn't loaded, and a world completes all that is open.
pub fn worked_premises()
    ensures residual { ok_response.residual_permits ≡ (note (codes "p"), both true_tree (both true_tree (both true_tree (either unknown_truth (get_attr standing_b (codes "ok")))))) ∷ [] }
    ensures agrees { Agrees one_open }
    ensures made { AllMadeWell one_open }
    ensures completes { Completes ok_world one_open }
    ensures fits { FitConditions ok_world (ok_policy ∷ []) }
    ensures begins { BeginsIn ok_world one_open 16 (ok_policy ∷ []) }
{}

/// Nothing is decided at first; with the unknown's value it is Allow, as in the world.
pub fn worked_chain()
    ensures open_ { decision_in_session ok_response ≡ None }
    ensures binds { BindsRightly ok_world u_is_true }
    ensures step { FitsStep ok_world ok_step }
    ensures chain { Chain ok_world ok_response (ok_step ∷ []) ok_again }
    ensures decided { decision_in_session ok_again ≡ Some allow }
    ensures there { decision_of ok_world (ok_policy ∷ []) ≡ allow }
{}

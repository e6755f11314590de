//! Laws of what partial evaluation and partial responses leave. Each function's contract is the theorem; its body does nothing.

ghost use Rattle.cedar_evaluator_model.specs.Laws.{ResidualsStand, ResidualsFit};
ghost use Rattle.cedar_evaluator_model.specs.ResponseLaws.{VerdictsHold, Given, BoundsHold, KeepsSatisfied};
ghost use Rattle.cedar_evaluator_model.specs.ReauthorizeLaws.{ResponsesAreCompleted, ReauthorizingCompletes, ReauthorizingKeeps, ReauthorizingDecides, ChainsKeep, ChainsDecide, ChainsAgree};
ghost use Rattle.cedar_evaluator_model.specs.OfLaws.Completable.{CompletionsExist};

/// A scope whose parts agree has a completion, in which unknowns mean what is given for them.
pub fn completions_exist()
    ensures { CompletionsExist }
{}

/// In every completion that fits the annotations what evaluation leaves stands for the expression: a value is what it means, an error
/// means that it errs, and a residual means an equal value, or errs where the expression does. The unknowns of a residual fit their
/// annotations there too.
pub fn residuals_stand()
    ensures stand { ResidualsStand }
    ensures fit { ResidualsFit }
{}

/// In every completion that fits the annotations of the policies each verdict says what is so, a decision of a session is the decision,
/// what must determine it is among the reasons, and the reasons are among what may.
pub fn responses_hold()
    ensures verdicts { VerdictsHold }
    ensures decision { Given }
    ensures bounds { BoundsHold }
{}

/// Where no policy met the limit what is left of a policy, looked up by its id, is satisfied in such a completion exactly where the
/// policy is.
pub fn responses_keep_satisfaction()
    ensures { KeepsSatisfied }
{}

/// In a completion that fits the policies and what is bound, and where no policy met the limit, a policy is satisfied by the new response
/// exactly where it is by the old one, and a decision that is given is the one that follows.
pub fn reauthorizing_keeps()
    ensures first { ResponsesAreCompleted }
    ensures completes { ReauthorizingCompletes }
    ensures keeps { ReauthorizingKeeps }
    ensures decides { ReauthorizingDecides }
{}

/// So it is along chains of reauthorizing, however long: at the end each policy is satisfied where it was, a decision is that of the
/// policies, and it is the one that is given afresh.
pub fn chains_keep()
    ensures keep { ChainsKeep }
    ensures decide { ChainsDecide }
    ensures agree { ChainsAgree }
{}

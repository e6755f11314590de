//! Laws of the definitions for every kind of expression. Each function's contract is the theorem; its body does nothing.

ghost use Rattle.cedar_store_model.specs.Laws.{MeaningIsAFunction, OneOutcome, WholeWorldsAnswer, MoreKeepsMeaning, MoreKeepsLookups, LookupsAreLoaded, OnlyLookupsMatter, DereferencesLook, BuiltMeansTheSame, ConjunctionIsBoth, DisjunctionIsEither};
ghost use Rattle.cedar_store_model.specs.AnswerLaws.{PoliciesMeanTruth, PolicyMeaningIsAFunction, SatisfactionDecides, SatisfactionIsKept, SatisfiedByParts, AllowIsEarned, ReasonsAreThose, ErrorsAreThose, OrderIsFree, OnlyLookupsAnswer, SlotsOfConditions, LinkingIsExact, IdsStayDistinct};
ghost use Rattle.cedar_store_model.specs.StoreLaws.{LookupIsExact, WholeExtendsPartial, WholeStoresAreWhole, SatisfiedByMatching};

/// An expression means an outcome in a world exactly where the function gives it: so it has one outcome at most, and where
/// everything is known it has one.
pub fn meaning_is_a_function()
    ensures computed { MeaningIsAFunction }
    ensures at_most_one { OneOutcome }
    ensures at_least_one { WholeWorldsAnswer }
{}

/// What an expression means by what is known it means in each world that knows more; and it looks up there what it looks up here.
pub fn more_knowledge_keeps_the_meaning()
    ensures outcomes { MoreKeepsMeaning }
    ensures lookups { MoreKeepsLookups }
{}

/// Each look-up on the way to an outcome finds an entity, or that there is none.
pub fn lookups_are_loaded()
    ensures { LookupsAreLoaded }
{}

/// The outcomes depend on the store only through the uids that are looked up.
pub fn only_lookups_matter()
    ensures outcomes { OnlyLookupsMatter }
    ensures answers { OnlyLookupsAnswer }
{}

/// An expression without `in`, attributes and tags looks nothing up.
pub fn dereferences_look()
    ensures { DereferencesLook }
{}

/// What a lawful builder makes of an expression means what the expression means.
pub fn built_means_the_same()
    ensures whole { BuiltMeansTheSame }
    ensures conjunction { ConjunctionIsBoth }
    ensures disjunction { DisjunctionIsEither }
{}

/// A policy means what its condition means, which is a truth value or an error.
pub fn policies_mean_truth_values()
    ensures same { PoliciesMeanTruth }
    ensures computed { PolicyMeaningIsAFunction }
{}

/// The test of satisfaction is true exactly where the policy's condition means true. What is satisfied by what is known stays so
/// where more is known.
pub fn satisfaction_is_decided()
    ensures decides { SatisfactionDecides }
    ensures kept { SatisfactionIsKept }
{}

/// A policy is satisfied exactly where each part of its scope and its body mean true; where everything is known, that is where
/// each part of its scope matches the request and its body means true.
pub fn satisfied_policies_match()
    ensures parts { SatisfiedByParts }
    ensures matching { SatisfiedByMatching }
{}

/// The decision is Allow exactly where some permit is satisfied and no forbid is.
pub fn allow_is_earned()
    ensures { AllowIsEarned }
{}

/// The reasons are the ids of the satisfied policies of the effect that decided: permits for Allow, forbids for Deny.
pub fn reasons_are_those_that_decided()
    ensures { ReasonsAreThose }
{}

/// The errors are those of the policies whose condition errs, each with its id and the error.
pub fn errors_are_those_that_err()
    ensures { ErrorsAreThose }
{}

/// Decision, reasons and errors don't depend on the order of the policies, but for the order of reasons and errors.
pub fn order_is_free()
    ensures { OrderIsFree }
{}

/// The slots of a policy are those of its condition.
pub fn slots_are_those_of_the_condition()
    ensures { SlotsOfConditions }
{}

/// Linking refuses exactly where one of its faults is there, and else puts the template's policy, with its bindings, at the end.
/// Adding and linking never use an id twice.
pub fn linking_is_exact()
    ensures exact { LinkingIsExact }
    ensures distinct { IdsStayDistinct }
{}

/// A store without repeated uids is a map, and a part of it is extended by the whole.
pub fn stores_are_maps()
    ensures lookup { LookupIsExact }
    ensures extended { WholeExtendsPartial }
    ensures whole { WholeStoresAreWhole }
{}

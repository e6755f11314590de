//! Laws of the definitions for every kind of expression. Each function's contract is the theorem; its body does nothing.

ghost use Rattle.cedar_typechecker_model.specs.Laws.{TypingIsAFunction, ListsAreTyped, FieldsAreTyped, OneJudgement, FactsAreOfBool, TruthHasNoFacts, MoreFactsKeepTypes, PathsAreConjunctions, PassingDecides, WarningDecides, ImpossibleDecides, IrrelevantDecides, VerdictDecides, UidsAreNamed, TypesAreNamed, KnownTypesDecide, KnownActionsDecide, KnownMembersDecide};
ghost use Rattle.cedar_typechecker_model.specs.OrderLaws.{OrderPassesTheSame, OrderFindsTheSame};
ghost use Rattle.cedar_typechecker_model.specs.LevelLaws.{ViolationsAreListed, CountsAreExact, TargetsAreListed, PolicyViolationsAreListed, LargerLevelsKeep, LargerLevelsPass, LargerLevelsPassPolicies};

/// An expression has a type with facts exactly where the function gives them: so it has one type at most, with one set of facts.
pub fn typing_is_a_function()
    ensures computed { TypingIsAFunction }
    ensures lists { ListsAreTyped }
    ensures fields { FieldsAreTyped }
    ensures at_most_one { OneJudgement }
{}

/// Only an expression of the type of both truth values has facts; one of type True has none.
pub fn facts_are_of_bool()
    ensures others { FactsAreOfBool }
    ensures truth { TruthHasNoFacts }
{}

/// Where more is known, what has a type keeps it, and its facts.
pub fn more_facts_keep_types()
    ensures { MoreFactsKeepTypes }
{}

/// The test of a path has the type and the facts of the conjunction of its tests.
pub fn paths_are_conjunctions()
    ensures { PathsAreConjunctions }
{}

/// The tests of a policy decide whether it passes, whether it is warned of, whether it is impossible, whether it is irrelevant
/// for the types of a request, and what the check in one environment says.
pub fn verdicts_are_decided()
    ensures passes { PassingDecides }
    ensures warned { WarningDecides }
    ensures impossible { ImpossibleDecides }
    ensures irrelevant { IrrelevantDecides }
    ensures check { VerdictDecides }
{}

/// The uids and entity types that are gathered are those that the policy names, and the tests of them decide the scope rules.
pub fn scope_rules_are_decided()
    ensures uids { UidsAreNamed }
    ensures kinds { TypesAreNamed }
    ensures types { KnownTypesDecide }
    ensures actions { KnownActionsDecide }
    ensures members { KnownMembersDecide }
{}

/// The lists of violations have those of the relations and no others, and a target has one count.
pub fn violations_are_listed()
    ensures expressions { ViolationsAreListed }
    ensures counts { CountsAreExact }
    ensures targets { TargetsAreListed }
    ensures policies { PolicyViolationsAreListed }
{}

/// A violation at a larger level is one at the smaller: without violations at a level there are none at a larger one.
pub fn larger_levels_pass()
    ensures each { LargerLevelsKeep }
    ensures expressions { LargerLevelsPass }
    ensures policies { LargerLevelsPassPolicies }
{}

/// Well-formed declarations in another order pass the same policies, and find the same violations of each.
pub fn order_of_declarations_is_free()
    ensures typing { OrderPassesTheSame }
    ensures levels { OrderFindsTheSame }
{}

//! Schemas that answer alike type alike. Each function's contract is the theorem; its body does nothing, or calls the laws that it stands on.

ghost use Rattle.cedar_typechecker_model.specs.AlikeLaws.{TypesAreAlike, CountsAreAlike, EnvironmentsAreAlike, PassingIsAlike, WarningsAreAlike, ImpossibleIsAlike, IrrelevantIsAlike, ViolationsAreAlike, LevelsAreAlike, KnownTypesAreAlike, KnownActionsAreAlike, KnownMembersAreAlike};
ghost use Rattle.cedar_typechecker_model.specs.AskedLaws.{TypesAreAsked, ActionsAreAsked, OthersAreAsked, KindsAreAsked, EnvironmentsAreAsked};
ghost use Rattle.cedar_typechecker_model.specs.SeenLaws.{KeptAreClosed, SeenAnswerAlike, DeclaredDescend, DeclaredAnswerAlike};

use cedar_schema_model::kept_laws::declarations_are_kept;

/// By schemas that answer alike an expression has the same type, facts and violations, and a policy the same environments.
pub fn expressions_are_alike()
    ensures types { TypesAreAlike }
    ensures counts { CountsAreAlike }
    ensures environments { EnvironmentsAreAlike }
{}

/// By schemas that answer alike the same policies pass, are warned of, are impossible, and are irrelevant for the types of a request.
pub fn verdicts_are_alike()
    ensures passing { PassingIsAlike }
    ensures warnings { WarningsAreAlike }
    ensures impossible { ImpossibleIsAlike }
    ensures irrelevant { IrrelevantIsAlike }
{}

/// A policy has the same violations at each level, and none by both schemas or by neither.
pub fn levels_are_alike()
    ensures violations { ViolationsAreAlike }
    ensures none { LevelsAreAlike }
{}

/// By schemas that answer alike the same policies keep each of the scope rules.
pub fn scope_rules_are_alike()
    ensures types { KnownTypesAreAlike }
    ensures actions { KnownActionsAreAlike }
    ensures members { KnownMembersAreAlike }
{}

/// What is kept of a schema, taken as a schema, is closed under descent, and answers as the schema does where what this names as
/// ancestors is declared, as it is of declarations.
pub fn seen_schemas_answer_alike()
    ensures closed { KeptAreClosed }
    ensures alike { SeenAnswerAlike }
    ensures descend { DeclaredDescend }
    ensures declared { DeclaredAnswerAlike }
{
    declarations_are_kept();
}

/// Where what is kept is closed, and nothing is kept twice, one step answers what descends from what. The environments
/// are those of the kept actions.
pub fn what_is_kept_is_asked()
    ensures types { TypesAreAsked }
    ensures actions { ActionsAreAsked }
    ensures others { OthersAreAsked }
    ensures kinds { KindsAreAsked }
    ensures environments { EnvironmentsAreAsked }
{}

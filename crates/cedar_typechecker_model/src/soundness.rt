//! Laws of typing against the meaning. Each function's contract is the theorem; its body does nothing.

ghost use Rattle.cedar_typechecker_model.specs.OfLaws.Simple.{SchemasAreOrderly};
ghost use Rattle.cedar_typechecker_model.specs.Soundness.{TypesAreSimple, TypesAreSound};
ghost use Rattle.cedar_typechecker_model.specs.PolicySoundness.{EnvironmentsCover, PassingIsSound, ImpossibleIsSound};
ghost use Rattle.cedar_typechecker_model.specs.Reach.{LookupsAreInReach, ConditionsAreInReach};

/// The schema of well-formed declarations is orderly, and under an orderly schema each type of an expression in Strict is simple: no
/// union arises, and no record has a name twice.
pub fn types_are_simple()
    ensures schemas { SchemasAreOrderly }
    ensures types { TypesAreSimple }
{}

/// An expression that has a type in Strict means a value of it, or errs by a missing entity, an overflow, a zero divisor or a failed
/// extension function; and where it means true, its facts hold.
pub fn types_are_sound()
    ensures { TypesAreSound }
{}

/// A conforming request has an environment of the policy that fits its bindings, or the policy's condition is false.
pub fn environments_cover()
    ensures { EnvironmentsCover }
{}

/// The condition of a policy that passes means a truth value, or errs in one of those four ways.
pub fn passing_policies_err_as_expected()
    ensures { PassingIsSound }
{}

/// An impossible policy isn't satisfied by any conforming request.
pub fn impossible_policies_are_never_satisfied()
    ensures { ImpossibleIsSound }
{}

/// What a typed expression looks up is in the slice at a level where it has no violation, or is a declared action; the same of the
/// condition of a policy. Entities outside of the slice may be anything.
pub fn lookups_are_in_reach()
    ensures expressions { LookupsAreInReach }
    ensures conditions { ConditionsAreInReach }
{}

//! The scope passes and the scope rules. Each function's contract is the theorem; its body does nothing.

ghost use Rattle.cedar_typechecker_scopes.specs.Laws.{TypesAreChecked, ActionsAreChecked, MembersAreChecked, PassesAreExact};

/// Nothing is wrong with a policy by one of the scope rules exactly where the policy keeps it; the passes, that of the slots among
/// them, find nothing exactly where it keeps all three.
pub fn scope_passes_are_exact()
    ensures types { TypesAreChecked }
    ensures actions { ActionsAreChecked }
    ensures members { MembersAreChecked }
    ensures all { PassesAreExact }
{}

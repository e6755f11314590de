//! Laws of policies and of sets of them. Each function's contract is the theorem; its body does nothing.

ghost use Rattle.cedar_store_policies.specs.SetLaws.{PoliciesAreLinked, IdsAreDistinct};

/// A policy is its template under the policy's id, with what its slots are bound to.
pub fn policies_are_linked_templates()
    ensures { PoliciesAreLinked }
{}

/// No id is repeated in a set, be it a template's or a policy's.
pub fn ids_are_distinct()
    ensures { IdsAreDistinct }
{}

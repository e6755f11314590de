//! How facts are compared and hashed. The function's contract is the theorem; its body does nothing.

ghost use Rattle.std.specs.Prelude.{◌≡◌};
ghost use Rattle.std.specs.Bool.{Decides};
ghost use Rattle.std.specs.Ordering.{is_eq};
ghost use Rattle.cedar_typechecker_environments.specs.Facts.{capability_of, AreHashedAlike};
ghost use Rattle.cedar_typechecker_environments.specs.declared.facts.Capability.{Capability as Fact};

use crate::facts::Capability;
use std::hash::Hash;

/// Facts are equal exactly where the shapes of their expressions are, and the attribute is, if they have one. They are equal where
/// their order finds no difference, and are then hashed alike.
pub fn capabilities_agree()
    ensures order { (a b : Fact) → ⟦<Capability<'static> as PartialEq>⟧.eq a b ≡ is_eq (⟦<Capability<'static> as Ord>⟧.cmp a b) }
    ensures hash { AreHashedAlike ⟦<Capability<'static> as PartialEq>⟧.eq ⟦<Capability<'static> as Hash>⟧.hash_input }
    ensures equality { (a b : Fact) → Decides (⟦<Capability<'static> as PartialEq>⟧.eq a b) (capability_of a ≡ capability_of b) }
{}

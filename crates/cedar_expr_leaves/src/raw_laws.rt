//! How raw names are compared and hashed. The function's contract is the theorem; its body does nothing.

ghost use Rattle.std.specs.Prelude.{◌≡◌};
ghost use Rattle.cedar_expr_model.specs.Name.{name_eq};
ghost use Rattle.cedar_expr_model.specs.UidOrder.{name_cmp};
ghost use Rattle.cedar_expr_leaves.specs.Views.{raw_name_of};
ghost use Rattle.cedar_expr_leaves.specs.declared.raw_name.RawName.{RawName};

use crate::RawName;
use std::hash::Hash;

/// Raw names are ordered by their texts, equal where the model's names are, and then hashed alike: places don't count.
pub fn raw_names_are_compared()
    ensures order { (m n : RawName) → ⟦<RawName as Ord>⟧.cmp m n ≡ name_cmp (raw_name_of m) (raw_name_of n) }
    ensures equality { (m n : RawName) → ⟦<RawName as PartialEq>⟧.eq m n ≡ name_eq (raw_name_of m) (raw_name_of n) }
    ensures hash { (m n : RawName) → raw_name_of m ≡ raw_name_of n → ⟦<RawName as Hash>⟧.hash_input m ≡ ⟦<RawName as Hash>⟧.hash_input n }
{}

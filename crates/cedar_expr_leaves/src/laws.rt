//! How leaves are compared and hashed. Each function's contract is the theorem; its body does nothing.

ghost use Rattle.std.specs.Prelude.{◌≡◌};
ghost use Rattle.std.specs.Ordering.{is_eq};
ghost use Rattle.cedar_expr_model.specs.Order.{literal_cmp};
ghost use Rattle.cedar_expr_model.specs.Shape.{var_cmp, slot_cmp, element_cmp, pattern_cmp};
ghost use Rattle.cedar_expr_leaves.specs.Literals.{literal_of};
ghost use Rattle.cedar_expr_leaves.specs.Patterns.{element_of, pattern_of};
ghost use Rattle.cedar_expr_leaves.specs.Slots.{slot_of};
ghost use Rattle.cedar_expr_leaves.specs.Variables.{var_of};
ghost use Rattle.cedar_expr_leaves.specs.declared.literal.Literal.{Literal};
ghost use Rattle.cedar_expr_leaves.specs.declared.pattern.Pattern.{Pattern};
ghost use Rattle.cedar_expr_leaves.specs.declared.pattern.PatternElem.{PatternElem};
ghost use Rattle.cedar_expr_leaves.specs.declared.slot.SlotId.{SlotId};
ghost use Rattle.cedar_expr_leaves.specs.declared.var.Var.{Var};

use crate::{Literal, Pattern, PatternElem, SlotId, Var};
use std::hash::Hash;

/// Patterns are ordered as the model's, are equal where the order finds no difference, and are then hashed alike.
pub fn patterns_are_compared()
    ensures order { (p q : Pattern) → ⟦<Pattern as Ord>⟧.cmp p q ≡ pattern_cmp (pattern_of p) (pattern_of q) }
    ensures equality { (p q : Pattern) → ⟦<Pattern as PartialEq>⟧.eq p q ≡ is_eq (pattern_cmp (pattern_of p) (pattern_of q)) }
    ensures hash { (p q : Pattern) → pattern_of p ≡ pattern_of q → ⟦<Pattern as Hash>⟧.hash_input p ≡ ⟦<Pattern as Hash>⟧.hash_input q }
{}

/// So are the elements of patterns.
pub fn elements_are_compared()
    ensures order { (a b : PatternElem) → ⟦<PatternElem as Ord>⟧.cmp a b ≡ element_cmp (element_of a) (element_of b) }
    ensures equality { (a b : PatternElem) → ⟦<PatternElem as PartialEq>⟧.eq a b ≡ is_eq (element_cmp (element_of a) (element_of b)) }
    ensures hash { (a b : PatternElem) → element_of a ≡ element_of b → ⟦<PatternElem as Hash>⟧.hash_input a ≡ ⟦<PatternElem as Hash>⟧.hash_input b }
{}

/// So are the names of slots.
pub fn slots_are_compared()
    ensures order { (s t : SlotId) → ⟦<SlotId as Ord>⟧.cmp s t ≡ slot_cmp (slot_of s) (slot_of t) }
    ensures equality { (s t : SlotId) → ⟦<SlotId as PartialEq>⟧.eq s t ≡ is_eq (slot_cmp (slot_of s) (slot_of t)) }
    ensures hash { (s t : SlotId) → slot_of s ≡ slot_of t → ⟦<SlotId as Hash>⟧.hash_input s ≡ ⟦<SlotId as Hash>⟧.hash_input t }
{}

/// So are variables.
pub fn variables_are_compared()
    ensures order { (x y : Var) → ⟦<Var as Ord>⟧.cmp x y ≡ var_cmp (var_of x) (var_of y) }
    ensures equality { (x y : Var) → ⟦<Var as PartialEq>⟧.eq x y ≡ is_eq (var_cmp (var_of x) (var_of y)) }
    ensures hash { (x y : Var) → var_of x ≡ var_of y → ⟦<Var as Hash>⟧.hash_input x ≡ ⟦<Var as Hash>⟧.hash_input y }
{}

/// So are literals: places of uids don't count.
pub fn literals_are_compared()
    ensures order { (p q : Literal) → ⟦<Literal as Ord>⟧.cmp p q ≡ literal_cmp (literal_of p) (literal_of q) }
    ensures equality { (p q : Literal) → ⟦<Literal as PartialEq>⟧.eq p q ≡ is_eq (literal_cmp (literal_of p) (literal_of q)) }
    ensures hash { (p q : Literal) → literal_of p ≡ literal_of q → ⟦<Literal as Hash>⟧.hash_input p ≡ ⟦<Literal as Hash>⟧.hash_input q }
{}

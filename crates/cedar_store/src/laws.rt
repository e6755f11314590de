//! How effects and parts of scopes are compared and hashed, and which refusals are equal. Each function's contract is the theorem; its
//! body does nothing.

ghost use Rattle.std.specs.Prelude.{◌≡◌, true, false};
ghost use Rattle.std.specs.Bool.{Decides};
ghost use Rattle.std.specs.Ordering.{is_eq};
ghost use Rattle.std.specs.declared.cmp.Ordering.TheVariants.{Less};
ghost use Rattle.cedar_expr_leaves.specs.declared.slot.Slot.{Slot as Placed};
ghost use Rattle.cedar_store_parts.specs.Parts.{effect_of, part_slot};
ghost use Rattle.cedar_store_parts.specs.declared.policy_id.Effect.{Effect as Does};
ghost use Rattle.cedar_store_parts.specs.declared.policy_id.Effect.TheVariants.{Permit, Forbid};
ghost use Rattle.cedar_store_parts.specs.declared.constraint.PrincipalOrResource.{PrincipalOrResource as Part};
ghost use Rattle.cedar_store_parts.specs.declared.constraint.PrincipalOrResource.TheVariants.{Principal, Resource};
ghost use Rattle.cedar_store_parts.specs.declared.err.UnexpectedSlotError.TheVariants.{OutOfMemory, FoundSlot};

use cedar_expr_leaves::Slot;
pub use cedar_store_entities::laws::{stores_are_in_range, stores_are_maps, uids_are_uids};
pub use cedar_store_parts::laws::{
    annotations_are_compared, bindings_are_compared, policy_ids_agree, references_are_compared,
    scopes_are_compared, sets_of_annotations_are_compared,
};
pub use cedar_store_parts::record_laws::{
    errors_agree, modes_agree, request_types_agree, warnings_agree,
};
use cedar_store_parts::{Effect, PrincipalOrResource, UnexpectedSlotError};
pub use cedar_store_policies::laws::{ids_are_distinct, policies_are_linked_templates};
use std::hash::Hash;

/// Effects are equal exactly where they are the same, which is where their order finds no difference, and are then hashed alike.
/// To permit comes first.
pub fn effects_are_compared()
    ensures first { ⟦<Effect as Ord>⟧.cmp Permit Forbid ≡ Less }
    ensures order { (a b : Does) → ⟦<Effect as PartialEq>⟧.eq a b ≡ is_eq (⟦<Effect as Ord>⟧.cmp a b) }
    ensures equality { (a b : Does) → Decides (⟦<Effect as PartialEq>⟧.eq a b) (effect_of a ≡ effect_of b) }
    ensures hash { (a b : Does) → ⟦<Effect as PartialEq>⟧.eq a b ≡ true → ⟦<Effect as Hash>⟧.hash_input a ≡ ⟦<Effect as Hash>⟧.hash_input b }
{}

/// Parts of a scope that have a slot are equal exactly where they have the same slot, which is where their order finds no
/// difference, and are then hashed alike. The principal's comes first.
pub fn parts_are_compared()
    ensures first { ⟦<PrincipalOrResource as Ord>⟧.cmp Principal Resource ≡ Less }
    ensures order { (a b : Part) → ⟦<PrincipalOrResource as PartialEq>⟧.eq a b ≡ is_eq (⟦<PrincipalOrResource as Ord>⟧.cmp a b) }
    ensures equality { (a b : Part) → Decides (⟦<PrincipalOrResource as PartialEq>⟧.eq a b) (part_slot a ≡ part_slot b) }
    ensures hash { (a b : Part) → ⟦<PrincipalOrResource as PartialEq>⟧.eq a b ≡ true → ⟦<PrincipalOrResource as Hash>⟧.hash_input a ≡ ⟦<PrincipalOrResource as Hash>⟧.hash_input b }
{}

/// Why a policy is no static one is equal where it is out of memory both times, or a slot both times and these are equal.
pub fn slot_refusals_are_compared()
    ensures memory { ⟦<UnexpectedSlotError as PartialEq>⟧.eq OutOfMemory OutOfMemory ≡ true }
    ensures slots { (s t : Placed) → ⟦<UnexpectedSlotError as PartialEq>⟧.eq (FoundSlot s) (FoundSlot t) ≡ ⟦<Slot as PartialEq>⟧.eq s t }
    ensures first { (s : Placed) → ⟦<UnexpectedSlotError as PartialEq>⟧.eq (FoundSlot s) OutOfMemory ≡ false }
    ensures second { (s : Placed) → ⟦<UnexpectedSlotError as PartialEq>⟧.eq OutOfMemory (FoundSlot s) ≡ false }
{}

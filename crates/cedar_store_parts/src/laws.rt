//! How ids and parts of policies are compared and hashed. Each function's contract is the theorem; its body does nothing.

ghost use Rattle.std.specs.Prelude.{◌≡◌};
ghost use Rattle.std.specs.Bool.{Decides};
ghost use Rattle.std.specs.Str.{bytes_eq};
ghost use Rattle.cedar_expr_model.specs.Order.{text_cmp};
ghost use Rattle.cedar_store_parts.specs.Parts.{id_text, annotation_text, annotations_of, target_of, scope_of, action_scope_of, bindings_of};
ghost use Rattle.cedar_store_parts.specs.declared.policy_id.PolicyID.{PolicyID as Id};
ghost use Rattle.cedar_store_parts.specs.declared.annotation.Annotation.{Annotation as Note};
ghost use Rattle.cedar_store_parts.specs.declared.annotation.Annotations.{Annotations as Notes};
ghost use Rattle.cedar_store_parts.specs.declared.constraint.EntityReference.{EntityReference as Reference};
ghost use Rattle.cedar_store_parts.specs.declared.constraint.PrincipalOrResourceConstraint.{PrincipalOrResourceConstraint as Asked};
ghost use Rattle.cedar_store_parts.specs.declared.constraint.PrincipalConstraint.{PrincipalConstraint as OfPrincipal};
ghost use Rattle.cedar_store_parts.specs.declared.constraint.ResourceConstraint.{ResourceConstraint as OfResource};
ghost use Rattle.cedar_store_parts.specs.declared.constraint.ActionConstraint.{ActionConstraint as OfAction};
ghost use Rattle.cedar_store_parts.specs.declared.slot_env.SlotEnv.{SlotEnv as Bound};

use crate::annotation::{Annotation, Annotations};
use crate::constraint::{
    ActionConstraint, EntityReference, PrincipalConstraint, PrincipalOrResourceConstraint,
    ResourceConstraint,
};
use crate::policy_id::PolicyID;
use crate::slot_env::SlotEnv;
use std::hash::Hash;

/// Ids of policies are ordered by their texts, byte by byte; they are equal where their texts are, and those of one text are
/// hashed alike.
pub fn policy_ids_agree()
    ensures order { (i j : Id) → ⟦<PolicyID as Ord>⟧.cmp i j ≡ text_cmp (id_text i) (id_text j) }
    ensures equality { (i j : Id) → ⟦<PolicyID as PartialEq>⟧.eq i j ≡ bytes_eq (id_text i) (id_text j) }
    ensures hash { (i j : Id) → id_text i ≡ id_text j → ⟦<PolicyID as Hash>⟧.hash_input i ≡ ⟦<PolicyID as Hash>⟧.hash_input j }
{}

/// Annotations are ordered by their texts, byte by byte, are equal where their texts are, and are then hashed alike: places
/// don't count.
pub fn annotations_are_compared()
    ensures order { (a b : Note) → ⟦<Annotation as Ord>⟧.cmp a b ≡ text_cmp (annotation_text a) (annotation_text b) }
    ensures equality { (a b : Note) → ⟦<Annotation as PartialEq>⟧.eq a b ≡ bytes_eq (annotation_text a) (annotation_text b) }
    ensures hash { (a b : Note) → annotation_text a ≡ annotation_text b → ⟦<Annotation as Hash>⟧.hash_input a ≡ ⟦<Annotation as Hash>⟧.hash_input b }
{}

/// The annotations of policies are equal exactly where their names and texts are.
pub fn sets_of_annotations_are_compared()
    ensures { (a b : Notes) → Decides (⟦<Annotations as PartialEq>⟧.eq a b) (annotations_of a ≡ annotations_of b) }
{}

/// What a part of a scope names is equal exactly where it is the same uid, or a slot both times: places don't count.
pub fn references_are_compared()
    ensures { (a b : Reference) → Decides (⟦<EntityReference as PartialEq>⟧.eq a b) (target_of a ≡ target_of b) }
{}

/// What scopes ask of principal or resource is equal exactly where it is the same: places don't count.
pub fn scopes_are_compared()
    ensures either { (a b : Asked) → Decides (⟦<PrincipalOrResourceConstraint as PartialEq>⟧.eq a b) (scope_of a ≡ scope_of b) }
    ensures principal { (a b : OfPrincipal) → Decides (⟦<PrincipalConstraint as PartialEq>⟧.eq a b) (scope_of a.constraint ≡ scope_of b.constraint) }
    ensures resource { (a b : OfResource) → Decides (⟦<ResourceConstraint as PartialEq>⟧.eq a b) (scope_of a.constraint ≡ scope_of b.constraint) }
    ensures action { (a b : OfAction) → Decides (⟦<ActionConstraint as PartialEq>⟧.eq a b) (action_scope_of a ≡ action_scope_of b) }
{}

/// Bindings are equal exactly where each slot is bound to the same uid, or both times to none.
pub fn bindings_are_compared()
    ensures { (a b : Bound) → Decides (⟦<SlotEnv as PartialEq>⟧.eq a b) (bindings_of a ≡ bindings_of b) }
{}

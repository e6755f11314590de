//! How identifiers, names and uids are compared and hashed. Each function's contract is the theorem; its body does nothing.

ghost use Rattle.std.specs.Prelude.{◌≡◌};
ghost use Rattle.std.specs.Str.{bytes_eq};
ghost use Rattle.cedar_expr_model.specs.Name.{name_eq};
ghost use Rattle.cedar_expr_model.specs.Uid.{uid_eq};
ghost use Rattle.cedar_expr_model.specs.UidOrder.{name_cmp, uid_cmp};
ghost use Rattle.cedar_expr_model.specs.Order.{text_cmp};
ghost use Rattle.cedar_expr_names.specs.Views.{id_text, unreserved_id_text, any_id_text, name_of, plain_name_of, type_name_of, eid_text, uid_of};
ghost use Rattle.cedar_expr_names.specs.declared.id.Id.{Id};
ghost use Rattle.cedar_expr_names.specs.declared.unreserved_id.UnreservedId.{UnreservedId};
ghost use Rattle.cedar_expr_names.specs.declared.any_id.AnyId.{AnyId};
ghost use Rattle.cedar_expr_names.specs.declared.internal_name.InternalName.{InternalName};
ghost use Rattle.cedar_expr_names.specs.declared.name.Name.{Name};
ghost use Rattle.cedar_expr_names.specs.declared.entity.EntityType.{EntityType};
ghost use Rattle.cedar_expr_names.specs.declared.entity.Eid.{Eid};
ghost use Rattle.cedar_expr_names.specs.declared.entity.EntityUID.{EntityUID};

use cedar_expr_names::{AnyId, Eid, EntityType, EntityUID, Id, InternalName, Name, UnreservedId};
use std::hash::Hash;

/// Identifiers of each kind, and ids of entities, are ordered by their texts, byte by byte.
pub fn texts_are_ordered()
    ensures ids { (i j : Id) → ⟦<Id as Ord>⟧.cmp i j ≡ text_cmp (id_text i) (id_text j) }
    ensures unreserved_ids { (i j : UnreservedId) → ⟦<UnreservedId as Ord>⟧.cmp i j ≡ text_cmp (unreserved_id_text i) (unreserved_id_text j) }
    ensures any_ids { (i j : AnyId) → ⟦<AnyId as Ord>⟧.cmp i j ≡ text_cmp (any_id_text i) (any_id_text j) }
    ensures eids { (i j : Eid) → ⟦<Eid as Ord>⟧.cmp i j ≡ text_cmp (eid_text i) (eid_text j) }
{}

/// They are equal where their texts are.
pub fn texts_are_equal()
    ensures ids { (i j : Id) → ⟦<Id as PartialEq>⟧.eq i j ≡ bytes_eq (id_text i) (id_text j) }
    ensures unreserved_ids { (i j : UnreservedId) → ⟦<UnreservedId as PartialEq>⟧.eq i j ≡ bytes_eq (unreserved_id_text i) (unreserved_id_text j) }
    ensures any_ids { (i j : AnyId) → ⟦<AnyId as PartialEq>⟧.eq i j ≡ bytes_eq (any_id_text i) (any_id_text j) }
    ensures eids { (i j : Eid) → ⟦<Eid as PartialEq>⟧.eq i j ≡ bytes_eq (eid_text i) (eid_text j) }
{}

/// Those of one text are hashed alike.
pub fn texts_are_hashed()
    ensures ids { (i j : Id) → id_text i ≡ id_text j → ⟦<Id as Hash>⟧.hash_input i ≡ ⟦<Id as Hash>⟧.hash_input j }
    ensures unreserved_ids { (i j : UnreservedId) → unreserved_id_text i ≡ unreserved_id_text j → ⟦<UnreservedId as Hash>⟧.hash_input i ≡ ⟦<UnreservedId as Hash>⟧.hash_input j }
    ensures any_ids { (i j : AnyId) → any_id_text i ≡ any_id_text j → ⟦<AnyId as Hash>⟧.hash_input i ≡ ⟦<AnyId as Hash>⟧.hash_input j }
    ensures eids { (i j : Eid) → eid_text i ≡ eid_text j → ⟦<Eid as Hash>⟧.hash_input i ≡ ⟦<Eid as Hash>⟧.hash_input j }
{}

/// Names and entity types are ordered by their texts, and uids by those of their types and then by their ids.
pub fn names_are_ordered()
    ensures internal { (m n : InternalName) → ⟦<InternalName as Ord>⟧.cmp m n ≡ name_cmp (name_of m) (name_of n) }
    ensures plain { (m n : Name) → ⟦<Name as Ord>⟧.cmp m n ≡ name_cmp (plain_name_of m) (plain_name_of n) }
    ensures types { (s t : EntityType) → ⟦<EntityType as Ord>⟧.cmp s t ≡ name_cmp (type_name_of s) (type_name_of t) }
    ensures uids { (u v : EntityUID) → ⟦<EntityUID as Ord>⟧.cmp u v ≡ uid_cmp (uid_of u) (uid_of v) }
{}

/// They are equal where the model's are: places don't count.
pub fn names_are_equal()
    ensures internal { (m n : InternalName) → ⟦<InternalName as PartialEq>⟧.eq m n ≡ name_eq (name_of m) (name_of n) }
    ensures plain { (m n : Name) → ⟦<Name as PartialEq>⟧.eq m n ≡ name_eq (plain_name_of m) (plain_name_of n) }
    ensures types { (s t : EntityType) → ⟦<EntityType as PartialEq>⟧.eq s t ≡ name_eq (type_name_of s) (type_name_of t) }
    ensures uids { (u v : EntityUID) → ⟦<EntityUID as PartialEq>⟧.eq u v ≡ uid_eq (uid_of u) (uid_of v) }
{}

/// Equal ones are hashed alike.
pub fn names_are_hashed()
    ensures internal { (m n : InternalName) → name_of m ≡ name_of n → ⟦<InternalName as Hash>⟧.hash_input m ≡ ⟦<InternalName as Hash>⟧.hash_input n }
    ensures plain { (m n : Name) → plain_name_of m ≡ plain_name_of n → ⟦<Name as Hash>⟧.hash_input m ≡ ⟦<Name as Hash>⟧.hash_input n }
    ensures types { (s t : EntityType) → type_name_of s ≡ type_name_of t → ⟦<EntityType as Hash>⟧.hash_input s ≡ ⟦<EntityType as Hash>⟧.hash_input t }
    ensures uids { (u v : EntityUID) → uid_of u ≡ uid_of v → ⟦<EntityUID as Hash>⟧.hash_input u ≡ ⟦<EntityUID as Hash>⟧.hash_input v }
{}

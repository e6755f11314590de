//! What values, entities and residual records are found to be.

ghost use Rattle.std.specs.Prelude.{◌≡◌, IfOk, option_map};
ghost use Rattle.cedar_expr_names.specs.Views.{uid_of};
ghost use Rattle.cedar_expr_trees.specs.Trees.{tree_of, named, field_trees};
ghost use Rattle.cedar_expr_model.specs.Builder.{tree_fields};
ghost use Rattle.cedar_expr_values.specs.Extensions.{extension_of};
ghost use Rattle.cedar_expr_values.specs.Values.{bare, made};
ghost use Rattle.cedar_store_model.specs.Reads.{uid_of as value_uid};
ghost use Rattle.cedar_evaluator_model.specs.Evaluation.{tree_named};
ghost use Rattle.cedar_evaluator_model.specs.Steps.{made_named, kind_of_value, kind_of_unknown};
ghost use Rattle.cedar_expr_names.specs.Views.{type_name_of};
ghost use Rattle.cedar_evaluator_reads.specs.Scopes.{store_of};
ghost use Rattle.cedar_evaluator_reads.specs.Seen.{IsFound, IsSeenAs, IsRecord, record_fields};

use crate::knowledge::V;
use cedar_expr_leaves::Literal;
use cedar_expr_names::{EntityType, EntityUID};
use cedar_expr_trees::{Expr, ExprKind, Type};
use cedar_expr_values::ValueKind;
use cedar_store_entities::{Dereference, Entities, Entity};
use std::alloc::{AllocError, Global};
use std::collections::BTreeMap;
use std::rc::{Rc, RcStr};

/// What a value is, where it is asked for an attribute.
#[derive(Drop)]
pub enum Seen<'a> {
    /// An entity.
    Entity(&'a Rc<EntityUID>),
    /// A record.
    Record(&'a BTreeMap<RcStr, V>),
    /// Neither.
    Neither,
}

/// What the value is.
pub fn seen_as(v: &V) -> Seen<'_>
    ensures { IsSeenAs (made extension_of v.now) result }
{
    match v.value_kind() {
        ValueKind::Lit(Literal::EntityUID(uid)) => Seen::Entity(uid),
        ValueKind::Record(fields) => Seen::Record(fields.as_map()),
        _ => Seen::Neither,
    }
}

/// The uid that the value is.
pub fn as_entity(v: &V) -> Option<&EntityUID>
    ensures { option_map (λ u. uid_of u.now) result ≡ value_uid (bare extension_of v.now) }
{
    match v.value_kind() {
        ValueKind::Lit(Literal::EntityUID(uid)) => Some(uid),
        _ => None,
    }
}

/// The entity type of the value.
pub fn entity_kind(v: &V) -> Option<&EntityType>
    ensures { option_map (λ k. type_name_of k.now) result ≡ kind_of_value (made extension_of v.now) }
{
    match as_entity(v) {
        Some(uid) => Some(uid.entity_type()),
        None => None,
    }
}

/// What the store answers for the uid.
pub fn look_up<'a>(
    alloc: Global,
    entities: &'a Entities,
    uid: &EntityUID,
) -> Result<Dereference<'a, Entity>, AllocError>
    ensures { IfOk result (IsFound (store_of entities.now (uid_of uid.now)) (uid_of uid.now)) }
{
    entities.entity(alloc, uid)
}

/// The field of a record.
pub fn field<'a>(fields: &'a BTreeMap<RcStr, V>, name: &str) -> Option<&'a V>
    ensures { made_named name.now (record_fields fields.now) ≡ option_map (λ v. made extension_of v.now) result }
{
    fields.get(name)
}

/// The record that the residual is.
pub fn record_of(r: &Expr) -> Option<&BTreeMap<RcStr, Expr>>
    ensures { IsRecord (tree_of r.now) result }
{
    match r.expr_kind() {
        ExprKind::Record(fields) => Some(fields),
        ExprKind::Lit(_) | ExprKind::Var(_) | ExprKind::Slot(_) => None,
        ExprKind::Unknown(_) | ExprKind::Set(_) => None,
        ExprKind::If { .. } | ExprKind::And { .. } | ExprKind::Or { .. } => None,
        ExprKind::UnaryApp { .. } | ExprKind::BinaryApp { .. } => None,
        ExprKind::ExtensionFunctionApp { .. } => None,
        ExprKind::GetAttr { .. } | ExprKind::HasAttr { .. } => None,
        ExprKind::ExtHasAttr { .. } | ExprKind::Like { .. } | ExprKind::Is { .. } => None,
    }
}

/// The field of a residual record.
pub fn field_expr<'a>(fields: &'a BTreeMap<RcStr, Expr>, name: &str) -> Option<&'a Expr>
    ensures { tree_named name.now (tree_fields (named (field_trees fields.now.entries))) ≡ option_map (λ e. tree_of e.now) result }
{
    fields.get(name)
}

/// The entity type with which an unknown is annotated.
pub fn annotated(e: &Expr) -> Option<&EntityType>
    ensures { option_map (λ k. type_name_of k.now) result ≡ kind_of_unknown (tree_of e.now) }
{
    match e.expr_kind() {
        ExprKind::Unknown(u) => match &u.type_annotation {
            Some(Type::Entity { ty }) => Some(ty),
            _ => None,
        },
        ExprKind::Lit(_) | ExprKind::Var(_) | ExprKind::Slot(_) => None,
        ExprKind::If { .. } | ExprKind::And { .. } | ExprKind::Or { .. } => None,
        ExprKind::UnaryApp { .. } | ExprKind::BinaryApp { .. } => None,
        ExprKind::ExtensionFunctionApp { .. } => None,
        ExprKind::GetAttr { .. } | ExprKind::HasAttr { .. } => None,
        ExprKind::ExtHasAttr { .. } | ExprKind::Like { .. } | ExprKind::Is { .. } => None,
        ExprKind::Set(_) | ExprKind::Record(_) => None,
    }
}

//! `in`: whether an entity is another, or one of a set, or below it.

ghost use Rattle.std.specs.Prelude.{◌≡◌, false, option_map, is_some, ◌||◌};
ghost use Rattle.std.specs.List.{list_any, list_all};
ghost use Rattle.std.specs.Slice.Iter.{iter_rest};
ghost use Rattle.cedar_expr_names.specs.Views.{uid_of};
ghost use Rattle.cedar_expr_model.specs.Uid.{uid_eq};
ghost use Rattle.cedar_expr_values.specs.Extensions.{extension_of};
ghost use Rattle.cedar_expr_values.specs.Values.{bare, made};
ghost use Rattle.cedar_store_model.specs.Reads.{is_in_some, uids_in, uid_of as value_uid};
ghost use Rattle.cedar_evaluator_model.specs.Steps.{left_of, in_found, in_of};
ghost use Rattle.cedar_evaluator_errors.specs.Outcomes.{Leaves, Gives};
ghost use Rattle.cedar_evaluator_reads.specs.Scopes.{scope_seen};
ghost use Rattle.cedar_evaluator_reads.specs.Ancestors.{ancestors_of, is_below_value};

use crate::knowledge::{Knowledge, Left, V};
use crate::leaves::truth;
use crate::seen::as_entity;
use crate::type_errors::{no_entity, no_set};
use cedar_evaluator_errors::EvaluationError;
use cedar_expr_leaves::{BinaryOp, Literal};
use cedar_expr_names::EntityUID;
use cedar_expr_partial::{FromValue, PartialValue};
use cedar_expr_trees::Expr;
use cedar_expr_values::ValueKind;
use cedar_store_entities::{Dereference, Entity};
use std::alloc::Global;
use std::slice::Iter;

impl<T> Knowledge<'_, T> {
    /// `in` of two values. Errors: `TypeError` where the first is no entity, or the second neither an entity nor a set of entities.
    pub fn within(&self, alloc: Global, v: &V, w: &V) -> Result<Left, EvaluationError>
        ensures { Leaves (in_of (scope_seen self.now) (made extension_of v.now) (made extension_of w.now)) result }
    {
        match v.value_kind() {
            ValueKind::Lit(Literal::EntityUID(uid)) => self.entity_within(alloc, uid, w),
            _ => Err(no_entity(alloc, v)),
        }
    }

    // `in` of an entity.
    fn entity_within(&self, alloc: Global, uid: &EntityUID, w: &V) -> Result<Left, EvaluationError>
        ensures { Leaves (in_found (uid_of uid.now) (made extension_of w.now) ((scope_seen self.now).store (uid_of uid.now))) result }
    {
        match self.look_up(alloc, uid)? {
            Dereference::Data(entity) => {
                Ok(PartialValue::Value(found_within(alloc, uid, Some(entity), w)?))
            }
            Dereference::NoSuchEntity => {
                Ok(PartialValue::Value(found_within(alloc, uid, None, w)?))
            }
            Dereference::Residual(e) => {
                let w = Expr::from_value(alloc, w)?;
                Ok(PartialValue::Residual(Expr::binary_app(alloc, BinaryOp::In, e, w)?))
            }
        }
    }
}

// `in` of an entity that was looked up.
fn found_within(
    alloc: Global,
    uid: &EntityUID,
    entity: Option<&Entity>,
    w: &V,
) -> Result<V, EvaluationError>
    ensures { Gives (left_of (is_in_some (ancestors_of entity.entry) (uid_of uid.now) (uids_in (bare extension_of w.now)))) result }
{
    match w.value_kind() {
        ValueKind::Lit(Literal::EntityUID(other)) => Ok(truth(is_below(uid, entity, other))),
        ValueKind::Set(members) => {
            let members = members.authoritative();
            if are_entities(members.iter()) {
                Ok(truth(is_below_some(uid, entity, members.iter())))
            } else {
                Err(no_entity_among(alloc, members.iter(), w))
            }
        }
        _ => Err(no_set(alloc, w)),
    }
}

// Whether the uid is the other, or has it as a recorded ancestor.
fn is_below(uid: &EntityUID, entity: Option<&Entity>, other: &EntityUID) -> bool
    ensures { result ≡ (uid_eq (uid_of uid.now) (uid_of other.now) || list_any (uid_eq (uid_of other.now)) (ancestors_of entity.entry)) }
{
    uid.same(other) || has_ancestor(entity, other)
}

// Whether the uid is a recorded ancestor. A missing entity has none.
fn has_ancestor(entity: Option<&Entity>, uid: &EntityUID) -> bool
    ensures { result ≡ list_any (uid_eq (uid_of uid.now)) (ancestors_of entity.entry) }
{
    match entity {
        Some(entity) => entity.is_descendant_of(uid),
        None => false,
    }
}

// Whether each value is an entity.
fn are_entities(mut values: Iter<'_, V>) -> bool
    ensures { result ≡ list_all (λ v. is_some (value_uid (bare extension_of v))) (iter_rest values.entry) }
{
    values.all(|v| as_entity(v).is_some())
}

// The refusal of the first value that is no entity, or else of this one.
fn no_entity_among(alloc: Global, values: Iter<'_, V>, other: &V) -> EvaluationError
    ensures { StopsWith wrong_type result }
{
    for v in values {
        if as_entity(v).is_none() {
            return no_entity(alloc, v);
        }
    }
    no_entity(alloc, other)
}

ghost use Rattle.cedar_store_model.specs.Outcome.{wrong_type};
ghost use Rattle.cedar_evaluator_reads.specs.Errors.{StopsWith};

// Whether the uid is one of these entities, or has one as a recorded ancestor.
fn is_below_some(uid: &EntityUID, entity: Option<&Entity>, mut values: Iter<'_, V>) -> bool
    ensures { result ≡ list_any (λ v. is_below_value (uid_of uid.now) (ancestors_of entity.entry) (bare extension_of v)) (iter_rest values.entry) }
{
    values.any(|v| is_below_value(uid, entity, v))
}

// Whether the uid is this entity, or has it as a recorded ancestor. A value that is no entity is none.
fn is_below_value(uid: &EntityUID, entity: Option<&Entity>, v: &V) -> bool
    ensures { result ≡ is_below_value (uid_of uid.now) (ancestors_of entity.entry) (bare extension_of v.now) }
{
    match as_entity(v) {
        Some(other) => is_below(uid, entity, other),
        None => false,
    }
}

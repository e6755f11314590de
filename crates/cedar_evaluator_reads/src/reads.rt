//! Attributes and tags of values, and whether they are there.

ghost use Rattle.std.specs.Prelude.{◌≡◌, IfOk, option_map};
ghost use Rattle.std.specs.Option.{option_map_or};
ghost use Rattle.std.specs.Rc.{rc_str_bytes};
ghost use Rattle.cedar_expr_names.specs.Views.{uid_of};
ghost use Rattle.cedar_expr_model.specs.Made.{made_prim};
ghost use Rattle.cedar_expr_model.specs.Value.{entity};
ghost use Rattle.cedar_expr_model.specs.ValueParts.{left};
ghost use Rattle.cedar_expr_model.specs.Tree.{get_attr, has_attr};
ghost use Rattle.cedar_expr_trees.specs.Trees.{tree_of};
ghost use Rattle.cedar_expr_values.specs.Extensions.{extension_of};
ghost use Rattle.cedar_expr_values.specs.Values.{made};
ghost use Rattle.cedar_store_entities.specs.Views.{part_seen};
ghost use Rattle.cedar_store_model.specs.Outcome.{missing_field};
ghost use Rattle.cedar_evaluator_model.specs.Scope.{residual, value_left};
ghost use Rattle.cedar_evaluator_model.specs.Steps.{errs, made_named, part_left, tag_left, attribute_of, test_of, get_tag_found, has_tag_found, tag_of};
ghost use Rattle.cedar_evaluator_errors.specs.Outcomes.{Leaves};
ghost use Rattle.cedar_evaluator_reads.specs.Scopes.{scope_seen};
ghost use Rattle.cedar_evaluator_reads.specs.Seen.{IsFound, record_fields};

use crate::knowledge::{Knowledge, Left, V};
use crate::leaves::{copied, truth};
use crate::missing::{no_such_attribute, no_such_entity, no_such_field, no_such_tag};
use crate::seen::{Seen, field, look_up, seen_as};
use crate::type_errors::{no_entity, no_record, type_error_single};
use cedar_evaluator_errors::EvaluationError;
use cedar_expr_leaves::Literal;
use cedar_expr_names::{EntityUID, Loc};
use cedar_expr_partial::PartialValue;
use cedar_expr_trees::{Expr, ExprKind};
use cedar_expr_values::{ExtValue, Type, ValueKind};
use cedar_store_entities::{Dereference, Entity};
use std::alloc::{AllocError, Global};
use std::collections::BTreeMap;
use std::rc::{Rc, RcStr};

/// What a tag holds.
pub fn tag_part(part: &PartialValue<ExtValue>) -> Result<Left, EvaluationError>
    ensures { Leaves (tag_left (part_seen part.now)) result }
{
    match part {
        PartialValue::Value(v) => copied(v),
        PartialValue::Residual(e) => Ok(PartialValue::Residual(e.clone()?)),
    }
}

// The expression as it is.
fn as_it_is(e: &Expr) -> Result<Left, EvaluationError>
    ensures { Leaves (residual (tree_of e.now)) result }
{
    Ok(PartialValue::Residual(e.clone()?))
}

// The field of a record.
fn field_value(
    alloc: Global,
    fields: &BTreeMap<RcStr, V>,
    attr: &RcStr,
) -> Result<Left, EvaluationError>
    ensures { Leaves (option_map_or value_left (made_named (rc_str_bytes attr.now) (record_fields fields.now)) (errs missing_field)) result }
{
    match field(fields, attr.as_str()) {
        Some(v) => copied(v),
        None => no_such_field(alloc, fields, attr),
    }
}

/// A residual that asks for an attribute.
pub fn get_left(alloc: Global, e: Expr, attr: &RcStr) -> Result<Left, EvaluationError>
    ensures { Leaves (residual (get_attr (tree_of e) (rc_str_bytes attr.now))) result }
{
    Ok(PartialValue::Residual(Expr::get_attr(alloc, e, attr.clone()?)?))
}

/// A residual that asks whether an attribute is there.
pub fn has_left(alloc: Global, e: Expr, attr: &RcStr) -> Result<Left, EvaluationError>
    ensures { Leaves (residual (has_attr (tree_of e) (rc_str_bytes attr.now))) result }
{
    Ok(PartialValue::Residual(Expr::has_attr(alloc, e, attr.clone()?)?))
}

impl<T> Knowledge<'_, T> {
    /// What the store answers for the uid.
    #[tactic(auto, unfolding(crate::specs::Scopes::scope_seen))]
    pub fn look_up(
        &self,
        alloc: Global,
        uid: &EntityUID,
    ) -> Result<Dereference<'_, Entity>, AllocError>
        ensures { IfOk result (IsFound ((scope_seen self.now).store (uid_of uid.now)) (uid_of uid.now)) }
    {
        look_up(alloc, self.entities, uid)
    }

    // What an attribute holds.
    fn part(&self, alloc: Global, part: &PartialValue<ExtValue>) -> Result<Left, EvaluationError>
        ensures { Leaves (part_left (scope_seen self.now) (part_seen part.now)) result }
    {
        match part {
            PartialValue::Value(v) => copied(v),
            PartialValue::Residual(e) => self.residual_part(alloc, e),
        }
    }

    // What an attribute that isn't a value yet holds.
    fn residual_part(&self, alloc: Global, e: &Expr) -> Result<Left, EvaluationError>
        ensures { Leaves (part_left (scope_seen self.now) (left (tree_of e.now))) result }
    {
        match e.expr_kind() {
            ExprKind::Unknown(u) => self.unknown(alloc, u),
            ExprKind::Lit(_) | ExprKind::Var(_) | ExprKind::Slot(_) => as_it_is(e),
            ExprKind::If { .. } | ExprKind::And { .. } | ExprKind::Or { .. } => as_it_is(e),
            ExprKind::UnaryApp { .. } | ExprKind::BinaryApp { .. } => as_it_is(e),
            ExprKind::ExtensionFunctionApp { .. } => as_it_is(e),
            ExprKind::GetAttr { .. } | ExprKind::HasAttr { .. } => as_it_is(e),
            ExprKind::ExtHasAttr { .. } | ExprKind::Like { .. } | ExprKind::Is { .. } => {
                as_it_is(e)
            }
            ExprKind::Set(_) | ExprKind::Record(_) => as_it_is(e),
        }
    }

    /// An attribute of a value. Errors: `EntityDoesNotExist`, at the value's place, `EntityAttrDoesNotExist`,
    /// `RecordAttrDoesNotExist`, and `TypeError` where the value has no attributes.
    pub fn attribute(&self, alloc: Global, attr: &RcStr, v: &V) -> Result<Left, EvaluationError>
        ensures { Leaves (attribute_of (scope_seen self.now) (rc_str_bytes attr.now) (made extension_of v.now)) result }
    {
        match seen_as(v) {
            Seen::Entity(uid) => self.entity_attribute(alloc, attr, uid, v.source_loc()),
            Seen::Record(fields) => field_value(alloc, fields, attr),
            Seen::Neither => Err(no_record(alloc, v)),
        }
    }

    // An attribute of an entity.
    fn entity_attribute(
        &self,
        alloc: Global,
        attr: &RcStr,
        uid: &Rc<EntityUID>,
        place: Option<Loc>,
    ) -> Result<Left, EvaluationError>
        ensures { Leaves (attribute_of (scope_seen self.now) (rc_str_bytes attr.now) (made_prim (entity (uid_of uid.now.value)))) result }
    {
        match self.look_up(alloc, uid)? {
            Dereference::Data(entity) => match entity.get(attr.as_str()) {
                Some(part) => self.part(alloc, part),
                None => no_such_attribute(alloc, uid, entity, attr),
            },
            Dereference::NoSuchEntity => no_such_entity(uid, place),
            Dereference::Residual(e) => get_left(alloc, e, attr),
        }
    }

    /// Whether a value has an attribute. Errors: `TypeError` where the value has no attributes.
    pub fn test(&self, alloc: Global, attr: &RcStr, v: &V) -> Result<Left, EvaluationError>
        ensures { Leaves (test_of (scope_seen self.now) (rc_str_bytes attr.now) (made extension_of v.now)) result }
    {
        match seen_as(v) {
            Seen::Entity(uid) => self.entity_test(alloc, attr, uid),
            Seen::Record(fields) => {
                Ok(PartialValue::Value(truth(field(fields, attr.as_str()).is_some())))
            }
            Seen::Neither => Err(no_record(alloc, v)),
        }
    }

    // Whether an entity has an attribute.
    fn entity_test(
        &self,
        alloc: Global,
        attr: &RcStr,
        uid: &EntityUID,
    ) -> Result<Left, EvaluationError>
        ensures { Leaves (test_of (scope_seen self.now) (rc_str_bytes attr.now) (made_prim (entity (uid_of uid.now)))) result }
    {
        match self.look_up(alloc, uid)? {
            Dereference::Data(entity) => {
                Ok(PartialValue::Value(truth(entity.get(attr.as_str()).is_some())))
            }
            Dereference::NoSuchEntity => Ok(PartialValue::Value(truth(false))),
            Dereference::Residual(e) => has_left(alloc, e, attr),
        }
    }

    // A tag of an entity.
    fn entity_tag(
        &self,
        alloc: Global,
        tag: &RcStr,
        uid: &Rc<EntityUID>,
        place: Option<Loc>,
    ) -> Result<Left, EvaluationError>
        ensures { Leaves (get_tag_found (uid_of uid.now.value) (rc_str_bytes tag.now) ((scope_seen self.now).store (uid_of uid.now.value))) result }
    {
        match self.look_up(alloc, uid)? {
            Dereference::Data(entity) => match entity.get_tag(tag.as_str()) {
                Some(part) => tag_part(part),
                None => no_such_tag(alloc, uid, entity, tag),
            },
            Dereference::NoSuchEntity => no_such_entity(uid, place),
            Dereference::Residual(e) => {
                let name = Expr::val(Literal::String(tag.clone()?));
                Ok(PartialValue::Residual(Expr::get_tag(alloc, e, name)?))
            }
        }
    }

    // Whether an entity has a tag.
    fn entity_has_tag(
        &self,
        alloc: Global,
        tag: &RcStr,
        uid: &EntityUID,
    ) -> Result<Left, EvaluationError>
        ensures { Leaves (has_tag_found (uid_of uid.now) (rc_str_bytes tag.now) ((scope_seen self.now).store (uid_of uid.now))) result }
    {
        match self.look_up(alloc, uid)? {
            Dereference::Data(entity) => {
                Ok(PartialValue::Value(truth(entity.get_tag(tag.as_str()).is_some())))
            }
            Dereference::NoSuchEntity => Ok(PartialValue::Value(truth(false))),
            Dereference::Residual(e) => {
                let name = Expr::val(Literal::String(tag.clone()?));
                Ok(PartialValue::Residual(Expr::has_tag(alloc, e, name)?))
            }
        }
    }

    /// The tag of an entity. Errors: `EntityDoesNotExist`, at the entity's place, `EntityAttrDoesNotExist`, and `TypeError` where the
    /// first is no entity or the second no text.
    pub fn tag(&self, alloc: Global, v: &V, w: &V) -> Result<Left, EvaluationError>
        ensures { Leaves (tag_of get_tag_found (scope_seen self.now) (made extension_of v.now) (made extension_of w.now)) result }
    {
        match (v.value_kind(), w.value_kind()) {
            (ValueKind::Lit(Literal::EntityUID(uid)), ValueKind::Lit(Literal::String(tag))) => {
                self.entity_tag(alloc, tag, uid, v.source_loc())
            }
            (ValueKind::Lit(Literal::EntityUID(_)), _) => {
                Err(type_error_single(alloc, Type::String, w))
            }
            _ => Err(no_entity(alloc, v)),
        }
    }

    /// Whether an entity has a tag. Errors: `TypeError` where the first is no entity or the second no text.
    pub fn has_tag(&self, alloc: Global, v: &V, w: &V) -> Result<Left, EvaluationError>
        ensures { Leaves (tag_of has_tag_found (scope_seen self.now) (made extension_of v.now) (made extension_of w.now)) result }
    {
        match (v.value_kind(), w.value_kind()) {
            (ValueKind::Lit(Literal::EntityUID(uid)), ValueKind::Lit(Literal::String(tag))) => {
                self.entity_has_tag(alloc, tag, uid)
            }
            (ValueKind::Lit(Literal::EntityUID(_)), _) => {
                Err(type_error_single(alloc, Type::String, w))
            }
            _ => Err(no_entity(alloc, v)),
        }
    }
}

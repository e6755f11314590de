//! Paths of attributes.

ghost use Rattle.std.specs.Prelude.{◌≡◌, ◌∷◌, map, option_map, IfOk};
ghost use Rattle.std.specs.Rc.{rc_str_bytes};
ghost use Rattle.cedar_expr_names.specs.Views.{uid_of};
ghost use Rattle.cedar_expr_model.specs.Builder.{path_test};
ghost use Rattle.cedar_expr_model.specs.Made.{made_prim};
ghost use Rattle.cedar_expr_model.specs.Value.{entity};
ghost use Rattle.cedar_expr_trees.specs.Trees.{tree_of};
ghost use Rattle.cedar_expr_values.specs.Extensions.{extension_of};
ghost use Rattle.cedar_expr_values.specs.Values.{made};
ghost use Rattle.cedar_store_entities.specs.Views.{part_seen};
ghost use Rattle.cedar_evaluator_model.specs.Scope.{residual};
ghost use Rattle.cedar_evaluator_errors.specs.Outcomes.{Leaves, left_seen};
ghost use Rattle.cedar_evaluator_reads.specs.Paths.{Goes, first_name, other_names, path_left, path_from, path_through, path_in_part};
ghost use Rattle.cedar_evaluator_reads.specs.Scopes.{scope_seen};

use crate::knowledge::{Knowledge, Left, V};
use crate::leaves::truth;
use crate::seen::{Seen, field, seen_as};
use crate::type_errors::no_record;
use cedar_evaluator_errors::EvaluationError;
use cedar_expr_names::EntityUID;
use cedar_expr_partial::PartialValue;
use cedar_expr_trees::{Expr, ExprKind, NonEmpty};
use cedar_expr_values::ExtValue;
use cedar_store_entities::Dereference;
use std::alloc::{AllocError, Global};
use std::rc::{Rc, RcStr};

/// What a step along a path finds.
#[derive(Drop)]
pub enum Step<'a> {
    /// The value of the attribute: the path goes on.
    On(&'a V),
    /// What is left of the whole.
    Done(Left),
}

// A path that stays.
fn path_stays(alloc: Global, r: Expr, attrs: &Rc<NonEmpty<RcStr>>) -> Result<Left, EvaluationError>
    ensures { Leaves (residual (path_test (tree_of r) (first_name attrs.now.value) (other_names attrs.now.value))) result }
{
    if attrs.tail.is_empty() {
        return Ok(PartialValue::Residual(Expr::has_attr(alloc, r, attrs.head.clone()?)?));
    }
    let expr = Rc::new(alloc, r)?;
    let attrs = attrs.clone()?;
    Ok(PartialValue::Residual(Expr::new(ExprKind::ExtHasAttr { expr, attrs }, None, ())))
}

// These names, copied.
fn names_copied(alloc: Global, names: &[RcStr]) -> Result<Vec<RcStr>, AllocError>
    ensures { IfOk result (λ v. map rc_str_bytes v.items ≡ map rc_str_bytes names.now) }
{
    let mut copies = Vec::with_capacity(alloc, names.len())?;
    for name in names {
        copies.push(name.clone()?)?;
    }
    Ok(copies)
}

// The rest of a path that stays.
fn rest_stays(
    alloc: Global,
    r: Expr,
    first: &RcStr,
    rest: &[RcStr],
) -> Result<Left, EvaluationError>
    ensures { Leaves (residual (path_test (tree_of r) (rc_str_bytes first.now) (map rc_str_bytes rest.now))) result }
{
    let head = first.clone()?;
    let tail = names_copied(alloc, rest)?;
    Ok(PartialValue::Residual(Expr::extended_has_attr(alloc, r, NonEmpty { head, tail })?))
}

impl<T> Knowledge<'_, T> {
    /// Whether a path of attributes is there. Errors: `TypeError` where a value on the way has no attributes.
    pub fn path_left(
        &self,
        alloc: Global,
        arg: Left,
        attrs: &Rc<NonEmpty<RcStr>>,
    ) -> Result<Left, EvaluationError>
        ensures { Leaves (path_left (scope_seen self.now) attrs.now.value (left_seen arg)) result }
    {
        match arg {
            PartialValue::Value(v) => self.path(alloc, &attrs.head, attrs.tail.as_slice(), &v),
            PartialValue::Residual(r) => path_stays(alloc, r, attrs),
        }
    }

    // Whether a path of attributes of a value is there.
    fn path<'a>(
        &'a self,
        alloc: Global,
        first: &'a RcStr,
        others: &'a [RcStr],
        v: &'a V,
    ) -> Result<Left, EvaluationError>
        ensures { Leaves (path_from self.now first.now others.now (made extension_of v.now)) result }
    {
        let mut name = first;
        let mut rest = others;
        let mut value = v;
        while let Some((next, after)) = rest.split_first() {
            match self.path_step(alloc, name, rest, next, after, value)? {
                Step::On(found) => value = found,
                Step::Done(left) => return Ok(left),
            }
            name = next;
            rest = after;
        }
        self.test(alloc, name, value)
    }

    // One step of a path that goes on.
    fn path_step<'a>(
        &'a self,
        alloc: Global,
        name: &RcStr,
        rest: &[RcStr],
        next: &RcStr,
        after: &[RcStr],
        v: &'a V,
    ) -> Result<Step<'a>, EvaluationError>
        requires { rest.now ≡ next.now ∷ after.now }
        ensures { Goes (path_through self.now name.now next.now after.now (made extension_of v.now)) (path_from self.now next.now after.now) result }
    {
        match seen_as(v) {
            Seen::Entity(uid) => self.entity_step(alloc, name, rest, next, after, uid),
            Seen::Record(fields) => match field(fields, name.as_str()) {
                Some(found) => Ok(Step::On(found)),
                None => Ok(Step::Done(PartialValue::Value(truth(false)))),
            },
            Seen::Neither => Err(no_record(alloc, v)),
        }
    }

    // A step at an entity.
    fn entity_step<'a>(
        &'a self,
        alloc: Global,
        name: &RcStr,
        rest: &[RcStr],
        next: &RcStr,
        after: &[RcStr],
        uid: &EntityUID,
    ) -> Result<Step<'a>, EvaluationError>
        requires { rest.now ≡ next.now ∷ after.now }
        ensures { Goes (path_through self.now name.now next.now after.now (made_prim (entity (uid_of uid.now)))) (path_from self.now next.now after.now) result }
    {
        match self.look_up(alloc, uid)? {
            Dereference::Data(entity) => {
                self.part_step(alloc, next, after, entity.get(name.as_str()))
            }
            Dereference::NoSuchEntity => Ok(Step::Done(PartialValue::Value(truth(false)))),
            Dereference::Residual(e) => Ok(Step::Done(rest_stays(alloc, e, name, rest)?)),
        }
    }

    // A step to what an attribute holds.
    fn part_step<'a>(
        &'a self,
        alloc: Global,
        next: &RcStr,
        after: &[RcStr],
        found: Option<&'a PartialValue<ExtValue>>,
    ) -> Result<Step<'a>, EvaluationError>
        ensures { Goes (path_in_part self.now next.now after.now (option_map (λ p. part_seen p.now) found.entry)) (path_from self.now next.now after.now) result }
    {
        match found {
            Some(PartialValue::Value(v)) => Ok(Step::On(v)),
            Some(PartialValue::Residual(e)) => {
                Ok(Step::Done(rest_stays(alloc, e.clone()?, next, after)?))
            }
            None => Ok(Step::Done(PartialValue::Value(truth(false)))),
        }
    }
}

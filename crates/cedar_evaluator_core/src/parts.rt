//! What is left where several parts are evaluated already.

ghost use Rattle.std.specs.Prelude.{◌≡◌, map, IfOk};
ghost use Rattle.std.specs.Vec.Iter.{into_iter_items};
ghost use Rattle.cedar_expr_model.specs.Made.{made_set};
ghost use Rattle.cedar_expr_values.specs.Extensions.{extension_of};
ghost use Rattle.cedar_expr_values.specs.Values.{made};
ghost use Rattle.cedar_evaluator_model.specs.Scope.{value_left};
ghost use Rattle.cedar_evaluator_model.specs.Steps.{pieces, made_members};
ghost use Rattle.cedar_evaluator_errors.specs.Outcomes.{Leaves};
ghost use Rattle.cedar_evaluator_requests.specs.Parts.{set_of_parts};
ghost use Rattle.cedar_evaluator_core.specs.Gathered.{parts_of, names_in, IsParted};

use crate::records::{record_expr, record_value};
use cedar_evaluator_errors::EvaluationError;
use cedar_evaluator_reads::{Left, V};
use cedar_expr_partial::{PartialValue, split};
use cedar_expr_trees::Expr;
use cedar_expr_values::Value;
use either::Either;
use std::alloc::{AllocError, Global};
use std::collections::BTreeMap;
use std::rc::RcStr;
use std::vec::IntoIter;

/// Parts that all are values, or their expressions.
#[derive(Drop)]
pub enum Parted {
    /// Each is a value.
    Values(Vec<V>),
    /// One is none.
    Exprs(Vec<Expr>),
}

// All that an iterator has left.
fn all_of<T: Drop>(alloc: Global, items: IntoIter<T>) -> Result<Vec<T>, AllocError>
    ensures { IfOk result (λ v. v.items ≡ into_iter_items items) }
{
    let mut all = Vec::with_capacity(alloc, items.len())?;
    for item in items {
        all.push(item)?;
    }
    Ok(all)
}

/// The parts: values where each is one, else the expressions of all.
pub fn part_up(alloc: Global, parts: Vec<Left>) -> Result<Parted, AllocError>
    ensures { IfOk result (IsParted (parts_of parts.items)) }
{
    match split(alloc, parts)? {
        Either::Left(values) => Ok(Parted::Values(all_of(alloc, values)?)),
        Either::Right(exprs) => Ok(Parted::Exprs(all_of(alloc, exprs)?)),
    }
}

/// The set of these: a value where each is one.
pub fn set_left(alloc: Global, parts: Vec<Left>) -> Result<Left, EvaluationError>
    ensures { Leaves (set_of_parts (parts_of parts.items)) result }
{
    match part_up(alloc, parts)? {
        Parted::Values(values) => set_value(alloc, values),
        Parted::Exprs(exprs) => Ok(PartialValue::Residual(Expr::set(alloc, exprs)?)),
    }
}

// The set of these values.
#[tactic(auto, using(crate::proofs::Gathered::members_made))]
fn set_value(alloc: Global, values: Vec<V>) -> Result<Left, EvaluationError>
    ensures { Leaves (value_left (made_set (made_members (map (made extension_of) values.items)))) result }
{
    Ok(PartialValue::Value(Value::set(alloc, values, None)?))
}

ghost use Rattle.cedar_evaluator_model.specs.Steps.{record_left};

/// The record of these, under the names of these fields: a value where each is one.
pub fn record_left(
    alloc: Global,
    fields: &BTreeMap<RcStr, Expr>,
    parts: Vec<Left>,
) -> Result<Left, EvaluationError>
    ensures { Leaves (record_left (names_in fields.now.entries) (pieces (parts_of parts.items))) result }
{
    match part_up(alloc, parts)? {
        Parted::Values(values) => record_value(alloc, fields, values),
        Parted::Exprs(exprs) => record_expr(alloc, fields, exprs),
    }
}

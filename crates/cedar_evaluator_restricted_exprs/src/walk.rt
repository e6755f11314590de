//! The walk along a restricted expression.

ghost use Rattle.std.specs.Prelude.{◌≡◌, true, map};
ghost use Rattle.std.specs.Map.{values_of};
ghost use Rattle.cedar_expr_model.specs.Builder.{trees};
ghost use Rattle.cedar_expr_model.specs.Made.{made_prim};
ghost use Rattle.cedar_expr_model.specs.Parts.{listed, listed_fields};
ghost use Rattle.cedar_expr_model.specs.Restricted.{is_restricted};
ghost use Rattle.cedar_expr_leaves.specs.Literals.{literal_of};
ghost use Rattle.cedar_expr_trees.specs.Trees.{tree_of};
ghost use Rattle.cedar_evaluator_model.specs.Scope.{value_left};
ghost use Rattle.cedar_evaluator_model.specs.Evaluation.{evaluated};
ghost use Rattle.cedar_evaluator_model.specs.Functions.{Functions, left_of_restricted};
ghost use Rattle.cedar_evaluator_requests.specs.Fields.{fields_in, fields_tree};
ghost use Rattle.cedar_evaluator_restricted_exprs.specs.Answers.{ForFunctions};
ghost use Rattle.cedar_evaluator_restricted_exprs.specs.Lefts.{Leaves};
ghost use Rattle.cedar_evaluator_restricted_exprs.specs.Levels.{LeavesLevel, PiecesWithin, call_of, set_of};
ghost use Rattle.cedar_evaluator_restricted_exprs.specs.Restricted.{are_restricted, have_restricted};

use crate::fault::RestrictedFault;
use crate::fields::{fields_of, next_field};
use crate::table::{FunctionCalls, Left};
use crate::value_parts::{call_left, record_left, set_left};
use cedar_expr_leaves::Literal;
use cedar_expr_names::Name;
use cedar_expr_partial::PartialValue;
use cedar_expr_trees::{Expr, ExprKind};
use cedar_expr_values::Value;
use std::alloc::Global;
use std::collections::BTreeMap;
use std::rc::RcStr;

// How deep a restricted expression may nest.
const DEPTH: u32 = 512;

/// What is left of a restricted expression: a value, or an expression where an unknown stands in it. Errors: `Stopped` where a function
/// is missing, doesn't take its arguments or fails, or where the expression nests deeper than 512, and `OutOfMemory`.
pub fn evaluate<T: FunctionCalls>(
    alloc: Global,
    functions: &T,
    e: &Expr,
) -> Result<Left, RestrictedFault>
    requires { is_restricted (tree_of e.now) ≡ true }
    ensures { (x : Functions) → T.agrees functions.now x → Leaves (left_of_restricted x (tree_of e.now)) result }
{
    walk(alloc, functions, DEPTH, e)
}

// What is left of the expression, which may nest as deep as the limit. Of one that isn't restricted nothing is said.
#[cycle(walk)]
fn walk<T: FunctionCalls>(
    alloc: Global,
    functions: &T,
    limit: u32,
    e: &Expr,
) -> Result<Left, RestrictedFault>
    ensures { ForFunctions (T.agrees functions.now) (λ s. is_restricted (tree_of e.now) ≡ true → Leaves (evaluated s limit (tree_of e.now)) result) }
{
    if limit == 0 {
        return Err(RestrictedFault::Stopped);
    }
    level(alloc, functions, limit - 1, e)
}

// One level.
#[cycle(walk)]
fn level<T: FunctionCalls>(
    alloc: Global,
    functions: &T,
    deeper: u32,
    e: &Expr,
) -> Result<Left, RestrictedFault>
    ensures { ForFunctions (T.agrees functions.now) (λ s. is_restricted (tree_of e.now) ≡ true → LeavesLevel s deeper (tree_of e.now) result) }
{
    match e.expr_kind() {
        ExprKind::Lit(literal) => literal_value(literal),
        ExprKind::Unknown(_) => Ok(PartialValue::Residual(e.clone()?)),
        ExprKind::ExtensionFunctionApp { fn_name, args } => {
            called(alloc, functions, deeper, fn_name, args.as_slice())
        }
        ExprKind::Set(members) => set(alloc, functions, deeper, members.as_slice()),
        ExprKind::Record(fields) => record(alloc, functions, deeper, fields),
        ExprKind::Var(_)
        | ExprKind::Slot(_)
        | ExprKind::If { .. }
        | ExprKind::And { .. }
        | ExprKind::Or { .. }
        | ExprKind::UnaryApp { .. }
        | ExprKind::BinaryApp { .. }
        | ExprKind::GetAttr { .. }
        | ExprKind::HasAttr { .. }
        | ExprKind::ExtHasAttr { .. }
        | ExprKind::Like { .. }
        | ExprKind::Is { .. } => Err(RestrictedFault::Stopped),
    }
}

// The value of a literal.
fn literal_value(literal: &Literal) -> Result<Left, RestrictedFault>
    ensures { Leaves (value_left (made_prim (literal_of literal.now))) result }
{
    Ok(PartialValue::Value(Value::from(literal.clone()?)))
}

// A call.
#[cycle(walk)]
fn called<T: FunctionCalls>(
    alloc: Global,
    functions: &T,
    deeper: u32,
    name: &Name,
    args: &[Expr],
) -> Result<Left, RestrictedFault>
    ensures { ForFunctions (T.agrees functions.now) (λ s. are_restricted (map tree_of args.now) ≡ true → LeavesLevel s deeper (call_of name.now args.now) result) }
{
    let parts = pieces(alloc, functions, deeper, args)?;
    call_left(alloc, functions, name, parts)
}

// A set.
#[cycle(walk)]
fn set<T: FunctionCalls>(
    alloc: Global,
    functions: &T,
    deeper: u32,
    members: &[Expr],
) -> Result<Left, RestrictedFault>
    ensures { ForFunctions (T.agrees functions.now) (λ s. are_restricted (map tree_of members.now) ≡ true → LeavesLevel s deeper (set_of members.now) result) }
{
    let parts = pieces(alloc, functions, deeper, members)?;
    set_left(alloc, parts)
}

// What each of these leaves.
#[cycle(walk)]
fn pieces<T: FunctionCalls>(
    alloc: Global,
    functions: &T,
    deeper: u32,
    exprs: &[Expr],
) -> Result<Vec<Left>, RestrictedFault>
    ensures { ForFunctions (T.agrees functions.now) (λ s. are_restricted (map tree_of exprs.now) ≡ true → PiecesWithin s deeper (listed (trees (map tree_of exprs.now))) result) }
{
    let mut values = Vec::with_capacity(alloc, exprs.len())?;
    for e in exprs {
        values.push(walk(alloc, functions, deeper, e)?)?;
    }
    Ok(values)
}

// A record.
#[cycle(walk)]
fn record<T: FunctionCalls>(
    alloc: Global,
    functions: &T,
    deeper: u32,
    fields: &BTreeMap<RcStr, Expr>,
) -> Result<Left, RestrictedFault>
    ensures { ForFunctions (T.agrees functions.now) (λ s. have_restricted fields.now.entries ≡ true → LeavesLevel s deeper (fields_tree fields.now.entries) result) }
{
    let parts = field_pieces(alloc, functions, deeper, fields)?;
    record_left(alloc, fields, parts)
}

// What the fields of a record leave, in the order of their names.
#[cycle(walk)]
fn field_pieces<T: FunctionCalls>(
    alloc: Global,
    functions: &T,
    deeper: u32,
    fields: &BTreeMap<RcStr, Expr>,
) -> Result<Vec<Left>, RestrictedFault>
    ensures { ForFunctions (T.agrees functions.now) (λ s. have_restricted fields.now.entries ≡ true → PiecesWithin s deeper (values_of (listed_fields (fields_in fields.now.entries))) result) }
{
    let mut values = Vec::with_capacity(alloc, fields.len())?;
    let mut left = fields_of(fields);
    while let Some(e) = next_field(&mut left) {
        values.push(walk(alloc, functions, deeper, e)?)?;
    }
    Ok(values)
}

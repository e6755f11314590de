//! The walk along an expression, within a limit on its depth.

ghost use Rattle.std.specs.Prelude.{map};
ghost use Rattle.std.specs.Map.{values_of};
ghost use Rattle.std.specs.Rc.{rc_str_bytes};
ghost use Rattle.cedar_expr_model.specs.Builder.{trees};
ghost use Rattle.cedar_expr_model.specs.Parts.{listed, listed_fields};
ghost use Rattle.cedar_expr_leaves.specs.Operators.{unary_op_of, binary_op_of};
ghost use Rattle.cedar_expr_leaves.specs.Patterns.{pattern_of};
ghost use Rattle.cedar_expr_model.specs.Tree.{choice, both, either, unary, binary, like, is_type, has_attr, has_path, get_attr, call, set_literal};
ghost use Rattle.cedar_expr_names.specs.Views.{plain_name_of, type_name_of};
ghost use Rattle.cedar_expr_trees.specs.Trees.{tree_of, kind_tree};
ghost use Rattle.cedar_evaluator_requests.specs.Fields.{fields_in, fields_tree};
ghost use Rattle.cedar_evaluator_reads.specs.Paths.{first_name, other_names};
ghost use Rattle.cedar_evaluator_core.specs.Walked.{LeavesWithin, LeavesLevel, LeavesField, BestWithin, PiecesWithin};

use crate::after::{
    Truth, and_after, and_stays, choice_stays, or_after, or_stays, placed, settled, truth_after,
};
use crate::calls::call_left;
use crate::fields::{fields_of, next_field};
use crate::gathering::{members_of, room, room_for_fields, with_next};
use crate::lending::{Lent, value_lent};
use crate::parts::{record_left, set_left};
use crate::rebuilt::{expr_of, get_of, given_up, is_left, like_left, unary_left};
use crate::tested::tested;
use cedar_evaluator_errors::EvaluationError;
use cedar_evaluator_errors::evaluation_errors::RecursionLimitError;
use cedar_evaluator_operators::FunctionTable;
use cedar_evaluator_operators::binary::binary_left;
use cedar_evaluator_reads::leaves::literal_value;
use cedar_evaluator_reads::missing::no_such_field;
use cedar_evaluator_reads::seen::{field_expr, record_of};
use cedar_evaluator_reads::{Knowledge, Left};
use cedar_expr_leaves::{BinaryOp, NonEmpty, Pattern, UnaryOp};
use cedar_expr_names::{EntityType, Loc, Name};
use cedar_expr_partial::PartialValue;
use cedar_expr_trees::{Expr, ExprKind};
use std::alloc::Global;
use std::collections::BTreeMap;
use std::rc::{Rc, RcStr};

/// What is left of the expression, which may nest as deep as the limit. What is left takes the expression's place, and so does an error
/// without a place. Errors: those of the steps, and `RecursionLimit`.
#[cycle(walk)]
pub fn walk<T: FunctionTable>(
    alloc: Global,
    known: &Knowledge<'_, T>,
    limit: u32,
    e: &Expr,
) -> Result<Left, EvaluationError>
    ensures { LeavesWithin T.table T.answers_as known.now limit (tree_of e.now) result }
{
    let source_loc = e.source_loc();
    if limit == 0 {
        return Err(EvaluationError::RecursionLimit(RecursionLimitError { source_loc }));
    }
    placed(
        level(alloc, known, limit - 1, e.expr_kind(), source_loc),
        source_loc,
    )
}

// What is left of a part of which a truth value is wanted: most are found without a copy.
#[cycle(walk)]
fn part<T: FunctionTable>(
    alloc: Global,
    known: &Knowledge<'_, T>,
    limit: u32,
    e: &Expr,
) -> Result<Left, EvaluationError>
    ensures { LeavesWithin T.table T.answers_as known.now limit (tree_of e.now) result }
{
    match value_lent(alloc, &*known, limit, &*e) {
        Some(Lent::Truth(b)) => settled(b),
        _ => walk(alloc, known, limit, e),
    }
}

// One level.
#[cycle(walk)]
fn level<T: FunctionTable>(
    alloc: Global,
    known: &Knowledge<'_, T>,
    deeper: u32,
    kind: &ExprKind,
    loc: Option<Loc>,
) -> Result<Left, EvaluationError>
    ensures { LeavesLevel T.table T.answers_as known.now deeper (kind_tree kind.now) result }
{
    match kind {
        ExprKind::Lit(literal) => literal_value(literal),
        ExprKind::Var(v) => known.variable(alloc, *v),
        ExprKind::Slot(s) => known.slot(*s),
        ExprKind::Unknown(u) => known.unknown(alloc, u),
        ExprKind::If {
            test_expr,
            then_expr,
            else_expr,
        } => choice(alloc, known, deeper, test_expr, then_expr, else_expr),
        ExprKind::And { left, right } => both(alloc, known, deeper, left, right),
        ExprKind::Or { left, right } => either(alloc, known, deeper, left, right),
        ExprKind::UnaryApp { op, arg } => unary(alloc, known, deeper, *op, arg, loc),
        ExprKind::Like { expr, pattern } => like(alloc, known, deeper, expr, pattern),
        ExprKind::Is { expr, entity_type } => is_type(alloc, known, deeper, expr, entity_type),
        ExprKind::BinaryApp { op, arg1, arg2 } => {
            binary(alloc, known, deeper, *op, arg1, arg2, loc)
        }
        ExprKind::ExtensionFunctionApp { fn_name, args } => {
            called(alloc, known, deeper, fn_name, members_of(args))
        }
        ExprKind::GetAttr { expr, attr } => attribute(alloc, known, deeper, expr, attr),
        ExprKind::HasAttr { expr, attr } => has_attr(alloc, known, deeper, expr, attr),
        ExprKind::ExtHasAttr { expr, attrs } => has_path(alloc, known, deeper, expr, attrs),
        ExprKind::Set(members) => set(alloc, known, deeper, members_of(members)),
        ExprKind::Record(fields) => record(alloc, known, deeper, fields),
    }
}

// An operator of one operand.
#[cycle(walk)]
fn unary<T: FunctionTable>(
    alloc: Global,
    known: &Knowledge<'_, T>,
    deeper: u32,
    op: UnaryOp,
    arg: &Expr,
    loc: Option<Loc>,
) -> Result<Left, EvaluationError>
    ensures { LeavesLevel T.table T.answers_as known.now deeper (unary (unary_op_of op) (tree_of arg.now)) result }
{
    match walk(alloc, known, deeper, arg) {
        Ok(arg) => unary_left(alloc, op, arg, loc),
        Err(error) => Err(error),
    }
}

// A pattern.
#[cycle(walk)]
fn like<T: FunctionTable>(
    alloc: Global,
    known: &Knowledge<'_, T>,
    deeper: u32,
    arg: &Expr,
    pattern: &Pattern,
) -> Result<Left, EvaluationError>
    ensures { LeavesLevel T.table T.answers_as known.now deeper (like (tree_of arg.now) (pattern_of pattern.now)) result }
{
    match walk(alloc, known, deeper, arg) {
        Ok(arg) => like_left(alloc, arg, pattern),
        Err(error) => Err(error),
    }
}

// A test of the entity type.
#[cycle(walk)]
fn is_type<T: FunctionTable>(
    alloc: Global,
    known: &Knowledge<'_, T>,
    deeper: u32,
    arg: &Expr,
    kind: &EntityType,
) -> Result<Left, EvaluationError>
    ensures { LeavesLevel T.table T.answers_as known.now deeper (is_type (tree_of arg.now) (type_name_of kind.now)) result }
{
    match walk(alloc, known, deeper, arg) {
        Ok(arg) => is_left(alloc, arg, kind),
        Err(error) => Err(error),
    }
}

// An operator of two operands.
#[cycle(walk)]
fn binary<T: FunctionTable>(
    alloc: Global,
    known: &Knowledge<'_, T>,
    deeper: u32,
    op: BinaryOp,
    first: &Expr,
    second: &Expr,
    loc: Option<Loc>,
) -> Result<Left, EvaluationError>
    ensures { LeavesLevel T.table T.answers_as known.now deeper (binary (binary_op_of op) (tree_of first.now) (tree_of second.now)) result }
{
    match walk(alloc, known, deeper, first) {
        Ok(first) => match walk(alloc, known, deeper, second) {
            Ok(second) => binary_left(alloc, known, op, first, second, loc),
            Err(error) => Err(error),
        },
        Err(error) => Err(error),
    }
}

// The presence of an attribute.
#[cycle(walk)]
fn has_attr<T: FunctionTable>(
    alloc: Global,
    known: &Knowledge<'_, T>,
    deeper: u32,
    arg: &Expr,
    attr: &RcStr,
) -> Result<Left, EvaluationError>
    ensures { LeavesLevel T.table T.answers_as known.now deeper (has_attr (tree_of arg.now) (rc_str_bytes attr.now)) result }
{
    match walk(alloc, known, deeper, arg) {
        Ok(arg) => tested(alloc, known, arg, attr),
        Err(error) => Err(error),
    }
}

// The presence of a path of attributes.
#[cycle(walk)]
fn has_path<T: FunctionTable>(
    alloc: Global,
    known: &Knowledge<'_, T>,
    deeper: u32,
    arg: &Expr,
    attrs: &Rc<NonEmpty<RcStr>>,
) -> Result<Left, EvaluationError>
    ensures { LeavesLevel T.table T.answers_as known.now deeper (has_path (tree_of arg.now) (first_name attrs.now.value) (other_names attrs.now.value)) result }
{
    match walk(alloc, known, deeper, arg) {
        Ok(arg) => known.path_left(alloc, arg, attrs),
        Err(error) => Err(error),
    }
}

// `if`.
#[cycle(walk)]
fn choice<T: FunctionTable>(
    alloc: Global,
    known: &Knowledge<'_, T>,
    deeper: u32,
    test: &Expr,
    first: &Expr,
    last: &Expr,
) -> Result<Left, EvaluationError>
    ensures { LeavesLevel T.table T.answers_as known.now deeper (choice (tree_of test.now) (tree_of first.now) (tree_of last.now)) result }
{
    match truth_after(alloc, part(alloc, known, deeper, test)) {
        Truth::Holds => walk(alloc, known, deeper, first),
        Truth::Fails => walk(alloc, known, deeper, last),
        Truth::Open(r) => match attempt(alloc, known, deeper, first) {
            Ok(first) => choice_stays(alloc, r, first, attempt(alloc, known, deeper, last)),
            Err(error) => Err(error),
        },
        Truth::Stops(error) => Err(error),
    }
}

// `and`.
#[cycle(walk)]
fn both<T: FunctionTable>(
    alloc: Global,
    known: &Knowledge<'_, T>,
    deeper: u32,
    left: &Expr,
    right: &Expr,
) -> Result<Left, EvaluationError>
    ensures { LeavesLevel T.table T.answers_as known.now deeper (both (tree_of left.now) (tree_of right.now)) result }
{
    match truth_after(alloc, part(alloc, known, deeper, left)) {
        Truth::Holds => and_after(alloc, part(alloc, known, deeper, right)),
        Truth::Fails => settled(false),
        Truth::Open(r) => and_stays(alloc, r, attempt(alloc, known, deeper, right)),
        Truth::Stops(error) => Err(error),
    }
}

// `or`.
#[cycle(walk)]
fn either<T: FunctionTable>(
    alloc: Global,
    known: &Knowledge<'_, T>,
    deeper: u32,
    left: &Expr,
    right: &Expr,
) -> Result<Left, EvaluationError>
    ensures { LeavesLevel T.table T.answers_as known.now deeper (either (tree_of left.now) (tree_of right.now)) result }
{
    match truth_after(alloc, part(alloc, known, deeper, left)) {
        Truth::Holds => settled(true),
        Truth::Fails => or_after(alloc, part(alloc, known, deeper, right)),
        Truth::Open(r) => or_stays(alloc, r, attempt(alloc, known, deeper, right)),
        Truth::Stops(error) => Err(error),
    }
}

// A call.
#[cycle(walk)]
fn called<T: FunctionTable>(
    alloc: Global,
    known: &Knowledge<'_, T>,
    deeper: u32,
    name: &Name,
    args: &[Expr],
) -> Result<Left, EvaluationError>
    ensures { LeavesLevel T.table T.answers_as known.now deeper (call (plain_name_of name.now) (trees (map tree_of args.now))) result }
{
    match pieces(alloc, known, deeper, args) {
        Ok(parts) => call_left(alloc, known, name, parts),
        Err(error) => Err(error),
    }
}

// A set.
#[cycle(walk)]
fn set<T: FunctionTable>(
    alloc: Global,
    known: &Knowledge<'_, T>,
    deeper: u32,
    members: &[Expr],
) -> Result<Left, EvaluationError>
    ensures { LeavesLevel T.table T.answers_as known.now deeper (set_literal (trees (map tree_of members.now))) result }
{
    match pieces(alloc, known, deeper, members) {
        Ok(parts) => set_left(alloc, parts),
        Err(error) => Err(error),
    }
}

// What each of these leaves.
#[cycle(walk)]
fn pieces<T: FunctionTable>(
    alloc: Global,
    known: &Knowledge<'_, T>,
    deeper: u32,
    exprs: &[Expr],
) -> Result<Vec<Left>, EvaluationError>
    ensures { PiecesWithin T.table T.answers_as known.now deeper (listed (trees (map tree_of exprs.now))) result }
{
    let mut parts = room(alloc, exprs.len())?;
    for e in exprs {
        parts = with_next(parts, walk(alloc, known, deeper, e))?;
    }
    Ok(parts)
}

// A record.
#[cycle(walk)]
fn record<T: FunctionTable>(
    alloc: Global,
    known: &Knowledge<'_, T>,
    deeper: u32,
    fields: &BTreeMap<RcStr, Expr>,
) -> Result<Left, EvaluationError>
    ensures { LeavesLevel T.table T.answers_as known.now deeper (fields_tree fields.now.entries) result }
{
    match field_pieces(alloc, known, deeper, fields) {
        Ok(parts) => record_left(alloc, fields, parts),
        Err(error) => Err(error),
    }
}

// What the fields of a record leave, in the order of their names.
#[cycle(walk)]
fn field_pieces<T: FunctionTable>(
    alloc: Global,
    known: &Knowledge<'_, T>,
    deeper: u32,
    fields: &BTreeMap<RcStr, Expr>,
) -> Result<Vec<Left>, EvaluationError>
    ensures { PiecesWithin T.table T.answers_as known.now deeper (values_of (listed_fields (fields_in fields.now.entries))) result }
{
    let mut parts = room_for_fields(alloc, fields)?;
    let mut left = fields_of(fields);
    while let Some(e) = next_field(&mut left) {
        parts = with_next(parts, walk(alloc, known, deeper, e))?;
    }
    Ok(parts)
}

// An attribute.
#[cycle(walk)]
fn attribute<T: FunctionTable>(
    alloc: Global,
    known: &Knowledge<'_, T>,
    deeper: u32,
    e: &Expr,
    attr: &RcStr,
) -> Result<Left, EvaluationError>
    ensures { LeavesLevel T.table T.answers_as known.now deeper (get_attr (tree_of e.now) (rc_str_bytes attr.now)) result }
{
    match walk(alloc, known, deeper, e)? {
        PartialValue::Value(v) => known.attribute(alloc, attr, &v),
        PartialValue::Residual(r) => attribute_left(alloc, known, deeper, &r, attr),
    }
}

// An attribute of a residual: one of a record that may be projected is evaluated again.
#[cycle(walk)]
fn attribute_left<T: FunctionTable>(
    alloc: Global,
    known: &Knowledge<'_, T>,
    deeper: u32,
    r: &Expr,
    attr: &RcStr,
) -> Result<Left, EvaluationError>
    ensures { LeavesField T.table T.answers_as known.now deeper (rc_str_bytes attr.now) (tree_of r.now) result }
{
    match record_of(r) {
        None => get_of(alloc, r, attr),
        Some(fields) => match field_expr(fields, attr.as_str()) {
            None => no_such_field(alloc, fields, attr),
            Some(field) => {
                if r.is_projectable() {
                    walk(alloc, known, deeper, field)
                } else {
                    get_of(alloc, r, attr)
                }
            }
        },
    }
}

// What best effort leaves of an expression: where it stops, the expression as it was.
#[cycle(walk)]
fn attempt<T: FunctionTable>(
    alloc: Global,
    known: &Knowledge<'_, T>,
    deeper: u32,
    e: &Expr,
) -> Result<Expr, EvaluationError>
    ensures { BestWithin T.table T.answers_as known.now deeper (tree_of e.now) result }
{
    match walk(alloc, known, deeper, e) {
        Ok(left) => expr_of(alloc, left),
        Err(error) => given_up(e, error),
    }
}

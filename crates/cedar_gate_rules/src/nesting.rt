//! How deep a condition nests.

ghost use Rattle.std.specs.Prelude.{◌≡◌, nat_le};
ghost use Rattle.std.specs.BTreeMap.{values};
ghost use Rattle.std.specs.List.{list_all};
ghost use Rattle.cedar_expr_model.specs.Tree.{nesting};
ghost use Rattle.cedar_expr_trees.specs.Trees.{tree_of};

use crate::fields::{fields_of, next_field};
use cedar_expr_trees::{Expr, ExprKind};
use std::collections::BTreeMap;
use std::rc::RcStr;

/// Whether the expression nests within the limit. It is not walked deeper than the limit.
#[cycle(nesting)]
#[tactic(auto, using(crate::proofs::Depth::within_one_more, crate::proofs::Depth::within_both, crate::proofs::Depth::zero_within))]
pub fn nests_within<T>(e: &Expr<T>, limit: u32) -> bool
    ensures { result ≡ nat_le (nesting (tree_of e.now)) limit }
{
    if limit == 0 {
        return false;
    }
    match e.expr_kind() {
        ExprKind::Lit(_) | ExprKind::Var(_) | ExprKind::Slot(_) | ExprKind::Unknown(_) => true,
        ExprKind::If {
            test_expr,
            then_expr,
            else_expr,
        } => {
            nests_within(test_expr, limit - 1)
                && nests_within(then_expr, limit - 1)
                && nests_within(else_expr, limit - 1)
        }
        ExprKind::And { left, right } | ExprKind::Or { left, right } => {
            nests_within(left, limit - 1) && nests_within(right, limit - 1)
        }
        ExprKind::UnaryApp { arg, .. } => nests_within(arg, limit - 1),
        ExprKind::BinaryApp { arg1, arg2, .. } => {
            nests_within(arg1, limit - 1) && nests_within(arg2, limit - 1)
        }
        ExprKind::GetAttr { expr, .. }
        | ExprKind::HasAttr { expr, .. }
        | ExprKind::ExtHasAttr { expr, .. }
        | ExprKind::Like { expr, .. }
        | ExprKind::Is { expr, .. } => nests_within(expr, limit - 1),
        ExprKind::ExtensionFunctionApp { args, .. } => all_nest_within(args.as_slice(), limit - 1),
        ExprKind::Set(members) => all_nest_within(members.as_slice(), limit - 1),
        ExprKind::Record(fields) => fields_nest_within(fields, limit - 1),
    }
}

// Whether each of these nests within the limit.
#[cycle(nesting)]
fn all_nest_within<T>(exprs: &[Expr<T>], limit: u32) -> bool
    ensures { result ≡ list_all (λ e. nat_le (nesting (tree_of e)) limit) exprs.now }
{
    for e in exprs {
        if !nests_within(e, limit) {
            return false;
        }
    }
    true
}

// Whether each of these fields nests within the limit.
#[cycle(nesting)]
fn fields_nest_within<T>(fields: &BTreeMap<RcStr, Expr<T>>, limit: u32) -> bool
    ensures { result ≡ list_all (λ e. nat_le (nesting (tree_of e)) limit) (values fields.now) }
{
    let mut left = fields_of(fields);
    while let Some(e) = next_field(&mut left) {
        if !nests_within(e, limit) {
            return false;
        }
    }
    true
}

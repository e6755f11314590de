//! What the shape of an expression feeds a hasher.

ghost use Rattle.std.specs.Prelude.{◌≡◌, ◌++◌, map, fold};
ghost use Rattle.std.specs.Hash as fed;
ghost use Rattle.cedar_expr_model.specs.Builder.{trees, tree_fields};
ghost use Rattle.cedar_expr_trees.specs.Trees.{tree_of, named, field_trees};
ghost use Rattle.cedar_expr_shapes.specs.Hashed.{tree_input, trees_input, count, tree_fields_input, field_count};

use crate::fed::{
    feed_binary, feed_count, feed_literal, feed_name, feed_path, feed_pattern, feed_rank,
    feed_slot, feed_text, feed_type, feed_unary, feed_unknown, feed_var,
};
use crate::fields::{fields_of, next_field};
use cedar_expr_trees::{Expr, ExprKind};
use std::collections::BTreeMap;
use std::hash::Hasher;
use std::rc::RcStr;

// Feeds the hasher an expression: the place of its kind, and then its parts.
#[cycle(feed)]
pub fn feed<T, H: Hasher>(e: &Expr<T>, state: &mut H)
    ensures { state.new ≡ fold H.write state.old (tree_input (tree_of e.now)) }
{
    let kind = e.expr_kind();
    feed_rank(kind, state);
    match kind {
        ExprKind::Lit(literal) => feed_literal(literal, state),
        ExprKind::Var(v) => feed_var(*v, state),
        ExprKind::Slot(s) => feed_slot(*s, state),
        ExprKind::Unknown(u) => feed_unknown(u, state),
        ExprKind::If {
            test_expr,
            then_expr,
            else_expr,
        } => {
            feed(test_expr, state);
            feed(then_expr, state);
            feed(else_expr, state);
        }
        ExprKind::And { left, right } | ExprKind::Or { left, right } => {
            feed(left, state);
            feed(right, state);
        }
        ExprKind::UnaryApp { op, arg } => {
            feed_unary(*op, state);
            feed(arg, state);
        }
        ExprKind::BinaryApp { op, arg1, arg2 } => {
            feed_binary(*op, state);
            feed(arg1, state);
            feed(arg2, state);
        }
        ExprKind::ExtensionFunctionApp { fn_name, args } => {
            feed_name(fn_name, state);
            feed_all(args.as_slice(), state);
        }
        ExprKind::GetAttr { expr, attr } | ExprKind::HasAttr { expr, attr } => {
            feed(expr, state);
            feed_text(attr, state);
        }
        ExprKind::ExtHasAttr { expr, attrs } => {
            feed(expr, state);
            feed_path(attrs, state);
        }
        ExprKind::Like { expr, pattern } => {
            feed(expr, state);
            feed_pattern(pattern, state);
        }
        ExprKind::Is { expr, entity_type } => {
            feed(expr, state);
            feed_type(entity_type, state);
        }
        ExprKind::Set(members) => feed_all(members.as_slice(), state),
        ExprKind::Record(fields) => feed_fields(fields, state),
    }
}

// Feeds the hasher expressions in a row, after their number.
#[cycle(feed)]
fn feed_all<T, H: Hasher>(exprs: &[Expr<T>], state: &mut H)
    ensures { let ts = trees (map tree_of exprs.now) in state.new ≡ fold H.write state.old (fed.usize (count ts) ++ trees_input ts) }
{
    feed_count(exprs.len(), state);
    for e in exprs {
        feed(e, state);
    }
}

// Feeds the hasher fields, after their number.
#[cycle(feed)]
fn feed_fields<T, H: Hasher>(fields: &BTreeMap<RcStr, Expr<T>>, state: &mut H)
    ensures { let fs = tree_fields (named (field_trees fields.now.entries)) in state.new ≡ fold H.write state.old (fed.usize (field_count fs) ++ tree_fields_input fs) }
{
    feed_count(fields.len(), state);
    let mut left = fields_of(fields);
    while let Some((name, e)) = next_field(&mut left) {
        feed_text(name, state);
        feed(e, state);
    }
}

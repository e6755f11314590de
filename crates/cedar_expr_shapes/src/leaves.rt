//! The orders of what stands in expressions beside other expressions.

ghost use Rattle.std.specs.Prelude.{◌≡◌, map};
ghost use Rattle.std.specs.Ordering.{ordering_then};
ghost use Rattle.std.specs.Option.{option_cmp};
ghost use Rattle.std.specs.Cmp.Lexicographic.{slice_cmp};
ghost use Rattle.std.specs.Rc.{rc_str_bytes};
ghost use Rattle.cedar_expr_names.specs.Views.{plain_name_of, type_name_of};
ghost use Rattle.cedar_expr_leaves.specs.Literals.{literal_of};
ghost use Rattle.cedar_expr_leaves.specs.Patterns.{pattern_of};
ghost use Rattle.cedar_expr_leaves.specs.Slots.{slot_of};
ghost use Rattle.cedar_expr_leaves.specs.Variables.{var_of};
ghost use Rattle.cedar_expr_model.specs.Order.{text_cmp, name_order, core_cmp};
ghost use Rattle.cedar_expr_model.specs.Tree.{lit, var, slot, unknown};
ghost use Rattle.cedar_expr_model.specs.Shape.{tree_cmp, pattern_cmp, unary_cmp, binary_cmp};
ghost use Rattle.cedar_expr_leaves.specs.Operators.{unary_op_of, binary_op_of};
ghost use Rattle.cedar_expr_trees.specs.Trees.{kind_tree};
ghost use Rattle.cedar_expr_trees.specs.Unknowns.{unknown_of};

use crate::ranks::{LIT, SLOT, UNKNOWN, VAR, by_kind};
use cedar_expr_trees::{
    BinaryOp, EntityType, ExprKind, Literal, Name, NonEmpty, Pattern, SlotId, UnaryOp, Unknown, Var,
};
use std::cmp::Ordering;
use std::rc::RcStr;

// Names by their texts.
pub fn by_name(left: &Name, right: &Name) -> Ordering
    ensures { result ≡ name_order (plain_name_of left.now) (plain_name_of right.now) }
{
    left.cmp(right)
}

// Entity types by the texts of their names.
pub fn by_type(left: &EntityType, right: &EntityType) -> Ordering
    ensures { result ≡ name_order (type_name_of left.now) (type_name_of right.now) }
{
    left.cmp(right)
}

// Patterns from the first element that differs.
pub fn by_pattern(left: &Pattern, right: &Pattern) -> Ordering
    ensures { result ≡ pattern_cmp (pattern_of left.now) (pattern_of right.now) }
{
    left.cmp(right)
}

// Operators by their places.
pub fn by_unary_op(left: UnaryOp, right: UnaryOp) -> Ordering
    ensures { result ≡ unary_cmp (unary_op_of left) (unary_op_of right) }
{
    left.cmp(&right)
}

pub fn by_binary_op(left: BinaryOp, right: BinaryOp) -> Ordering
    ensures { result ≡ binary_cmp (binary_op_of left) (binary_op_of right) }
{
    left.cmp(&right)
}

// Paths of attributes from the first that differs.
pub fn by_path(left: &NonEmpty<RcStr>, right: &NonEmpty<RcStr>) -> Ordering
    ensures { result ≡ ordering_then (text_cmp (rc_str_bytes left.now.head) (rc_str_bytes right.now.head))
        (slice_cmp text_cmp (map rc_str_bytes left.now.tail.items) (map rc_str_bytes right.now.tail.items)) }
{
    left.cmp(right)
}

// Unknowns by their names, and then by their annotations: one that lacks comes first.
fn by_unknown(left: &Unknown, right: &Unknown) -> Ordering
    ensures { result ≡ ordering_then (text_cmp (unknown_of left.now).name (unknown_of right.now).name)
        (option_cmp core_cmp (unknown_of left.now).annotation (unknown_of right.now).annotation) }
{
    let by_name = left.name.cmp(&right.name);
    if by_name.is_ne() {
        return by_name;
    }
    match (&left.type_annotation, &right.type_annotation) {
        (None, None) => Ordering::Equal,
        (None, Some(_)) => Ordering::Less,
        (Some(_), None) => Ordering::Greater,
        (Some(ty), Some(other)) => ty.order(other),
    }
}

// A literal and another expression.
pub fn literal_compared<T>(left: &Literal, right: &ExprKind<T>) -> Ordering
    ensures { result ≡ tree_cmp (lit (literal_of left.now)) (kind_tree right.now) }
{
    let ExprKind::Lit(other) = right else {
        return by_kind(LIT, right);
    };
    left.order(other)
}

// A variable and another expression.
pub fn variable_compared<T>(left: Var, right: &ExprKind<T>) -> Ordering
    ensures { result ≡ tree_cmp (var (var_of left)) (kind_tree right.now) }
{
    let ExprKind::Var(other) = right else {
        return by_kind(VAR, right);
    };
    left.cmp(other)
}

// A slot and another expression.
pub fn slot_compared<T>(left: SlotId, right: &ExprKind<T>) -> Ordering
    ensures { result ≡ tree_cmp (slot (slot_of left)) (kind_tree right.now) }
{
    let ExprKind::Slot(other) = right else {
        return by_kind(SLOT, right);
    };
    left.cmp(other)
}

// An unknown and another expression.
pub fn unknown_compared<T>(left: &Unknown, right: &ExprKind<T>) -> Ordering
    ensures { result ≡ tree_cmp (unknown (unknown_of left.now).name (unknown_of left.now).annotation) (kind_tree right.now) }
{
    let ExprKind::Unknown(other) = right else {
        return by_kind(UNKNOWN, right);
    };
    by_unknown(left, other)
}

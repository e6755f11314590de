//! The order of expressions by shape.

ghost use Rattle.std.specs.Prelude.{◌≡◌, map};
ghost use Rattle.std.specs.Rc.{rc_str_bytes};
ghost use Rattle.cedar_expr_names.specs.Views.{plain_name_of, type_name_of};
ghost use Rattle.cedar_expr_leaves.specs.Patterns.{pattern_of};
ghost use Rattle.cedar_expr_model.specs.Builder.{trees, tree_fields};
ghost use Rattle.cedar_expr_model.specs.Tree.{unary, call, get_attr, has_attr, has_path, like, is_type, set_literal, record_literal};
ghost use Rattle.cedar_expr_model.specs.Shape.{tree_cmp, trees_cmp, tree_fields_cmp};
ghost use Rattle.cedar_expr_leaves.specs.Operators.{unary_op_of};
ghost use Rattle.cedar_expr_trees.specs.Trees.{tree_of, kind_tree, named, field_trees};

use crate::leaves::{
    by_binary_op, by_name, by_path, by_pattern, by_type, by_unary_op, literal_compared,
    slot_compared, unknown_compared, variable_compared,
};
use crate::ranks::{
    AND, BINARY_APP, CALL, EXT_HAS_ATTR, GET_ATTR, HAS_ATTR, IF, IS, LIKE, OR, RECORD, SET,
    UNARY_APP, by_kind,
};
use cedar_expr_trees::{EntityType, Expr, ExprKind, Name, NonEmpty, Pattern, UnaryOp};
use std::cmp::Ordering;
use std::collections::BTreeMap;
use std::rc::RcStr;

// The order of two expressions by shape.
#[cycle(compare)]
pub fn compared<T, U>(left: &Expr<T>, right: &Expr<U>) -> Ordering
    ensures { result ≡ tree_cmp (tree_of left.now) (tree_of right.now) }
{
    let other = right.expr_kind();
    match left.expr_kind() {
        ExprKind::Lit(literal) => literal_compared(literal, other),
        ExprKind::Var(v) => variable_compared(*v, other),
        ExprKind::Slot(s) => slot_compared(*s, other),
        ExprKind::Unknown(u) => unknown_compared(u, other),
        ExprKind::If {
            test_expr,
            then_expr,
            else_expr,
        } => {
            let ExprKind::If {
                test_expr: test,
                then_expr: yes,
                else_expr: no,
            } = other
            else {
                return by_kind(IF, other);
            };
            let by_test = compared(test_expr, test);
            if by_test.is_ne() {
                return by_test;
            }
            let by_first = compared(then_expr, yes);
            if by_first.is_ne() {
                return by_first;
            }
            compared(else_expr, no)
        }
        ExprKind::And { left: a, right: b } => {
            let ExprKind::And { left: c, right: d } = other else {
                return by_kind(AND, other);
            };
            let by_first = compared(a, c);
            if by_first.is_ne() {
                return by_first;
            }
            compared(b, d)
        }
        ExprKind::Or { left: a, right: b } => {
            let ExprKind::Or { left: c, right: d } = other else {
                return by_kind(OR, other);
            };
            let by_first = compared(a, c);
            if by_first.is_ne() {
                return by_first;
            }
            compared(b, d)
        }
        ExprKind::UnaryApp { op, arg } => unary_compared(arg, *op, other),
        ExprKind::BinaryApp { op, arg1, arg2 } => {
            let ExprKind::BinaryApp {
                op: op2,
                arg1: a,
                arg2: b,
            } = other
            else {
                return by_kind(BINARY_APP, other);
            };
            let by_op = by_binary_op(*op, *op2);
            if by_op.is_ne() {
                return by_op;
            }
            let by_first = compared(arg1, a);
            if by_first.is_ne() {
                return by_first;
            }
            compared(arg2, b)
        }
        ExprKind::ExtensionFunctionApp { fn_name, args } => {
            call_compared(args.as_slice(), fn_name, other)
        }
        ExprKind::GetAttr { expr, attr } => attribute_compared(expr, attr, other),
        ExprKind::HasAttr { expr, attr } => test_compared(expr, attr, other),
        ExprKind::ExtHasAttr { expr, attrs } => path_compared(expr, attrs, other),
        ExprKind::Like { expr, pattern } => like_compared(expr, pattern, other),
        ExprKind::Is { expr, entity_type } => is_compared(expr, entity_type, other),
        ExprKind::Set(members) => set_compared(members.as_slice(), other),
        ExprKind::Record(fields) => record_compared(fields, other),
    }
}

// An operator of one operand and another expression.
#[cycle(compare)]
fn unary_compared<T, U>(arg: &Expr<T>, op: UnaryOp, right: &ExprKind<U>) -> Ordering
    ensures { result ≡ tree_cmp (unary (unary_op_of op) (tree_of arg.now)) (kind_tree right.now) }
{
    let ExprKind::UnaryApp {
        op: other,
        arg: other_arg,
    } = right
    else {
        return by_kind(UNARY_APP, right);
    };
    let by_op = by_unary_op(op, *other);
    if by_op.is_ne() {
        return by_op;
    }
    compared(arg, other_arg)
}

// A call and another expression.
#[cycle(compare)]
fn call_compared<T, U>(args: &[Expr<T>], name: &Name, right: &ExprKind<U>) -> Ordering
    ensures { result ≡ tree_cmp (call (plain_name_of name.now) (trees (map tree_of args.now))) (kind_tree right.now) }
{
    let ExprKind::ExtensionFunctionApp {
        fn_name: other,
        args: other_args,
    } = right
    else {
        return by_kind(CALL, right);
    };
    let by_function = by_name(name, other);
    if by_function.is_ne() {
        return by_function;
    }
    all_compared(args, other_args.as_slice())
}

// The value of an attribute and another expression.
#[cycle(compare)]
fn attribute_compared<T, U>(expr: &Expr<T>, attr: &RcStr, right: &ExprKind<U>) -> Ordering
    ensures { result ≡ tree_cmp (get_attr (tree_of expr.now) (rc_str_bytes attr.now)) (kind_tree right.now) }
{
    let ExprKind::GetAttr {
        expr: other,
        attr: other_attr,
    } = right
    else {
        return by_kind(GET_ATTR, right);
    };
    let by_owner = compared(expr, other);
    if by_owner.is_ne() {
        return by_owner;
    }
    attr.cmp(other_attr)
}

// A test of an attribute and another expression.
#[cycle(compare)]
fn test_compared<T, U>(expr: &Expr<T>, attr: &RcStr, right: &ExprKind<U>) -> Ordering
    ensures { result ≡ tree_cmp (has_attr (tree_of expr.now) (rc_str_bytes attr.now)) (kind_tree right.now) }
{
    let ExprKind::HasAttr {
        expr: other,
        attr: other_attr,
    } = right
    else {
        return by_kind(HAS_ATTR, right);
    };
    let by_owner = compared(expr, other);
    if by_owner.is_ne() {
        return by_owner;
    }
    attr.cmp(other_attr)
}

// A test of a path of attributes and another expression.
#[cycle(compare)]
fn path_compared<T, U>(expr: &Expr<T>, attrs: &NonEmpty<RcStr>, right: &ExprKind<U>) -> Ordering
    ensures { result ≡ tree_cmp (has_path (tree_of expr.now) (rc_str_bytes attrs.now.head) (map rc_str_bytes attrs.now.tail.items)) (kind_tree right.now) }
{
    let ExprKind::ExtHasAttr {
        expr: other,
        attrs: other_attrs,
    } = right
    else {
        return by_kind(EXT_HAS_ATTR, right);
    };
    let by_owner = compared(expr, other);
    if by_owner.is_ne() {
        return by_owner;
    }
    by_path(attrs, other_attrs)
}

// A test of a text against a pattern and another expression.
#[cycle(compare)]
fn like_compared<T, U>(expr: &Expr<T>, pattern: &Pattern, right: &ExprKind<U>) -> Ordering
    ensures { result ≡ tree_cmp (like (tree_of expr.now) (pattern_of pattern.now)) (kind_tree right.now) }
{
    let ExprKind::Like {
        expr: other,
        pattern: other_pattern,
    } = right
    else {
        return by_kind(LIKE, right);
    };
    let by_text = compared(expr, other);
    if by_text.is_ne() {
        return by_text;
    }
    by_pattern(pattern, other_pattern)
}

// A test of an entity's type and another expression.
#[cycle(compare)]
fn is_compared<T, U>(expr: &Expr<T>, ty: &EntityType, right: &ExprKind<U>) -> Ordering
    ensures { result ≡ tree_cmp (is_type (tree_of expr.now) (type_name_of ty.now)) (kind_tree right.now) }
{
    let ExprKind::Is {
        expr: other,
        entity_type: other_type,
    } = right
    else {
        return by_kind(IS, right);
    };
    let by_entity = compared(expr, other);
    if by_entity.is_ne() {
        return by_entity;
    }
    by_type(ty, other_type)
}

// A set and another expression.
#[cycle(compare)]
fn set_compared<T, U>(members: &[Expr<T>], right: &ExprKind<U>) -> Ordering
    ensures { result ≡ tree_cmp (set_literal (trees (map tree_of members.now))) (kind_tree right.now) }
{
    let ExprKind::Set(others) = right else {
        return by_kind(SET, right);
    };
    all_compared(members, others.as_slice())
}

// A record and another expression.
#[cycle(compare)]
fn record_compared<T, U>(fields: &BTreeMap<RcStr, Expr<T>>, right: &ExprKind<U>) -> Ordering
    ensures { result ≡ tree_cmp (record_literal (tree_fields (named (field_trees fields.now.entries)))) (kind_tree right.now) }
{
    let ExprKind::Record(others) = right else {
        return by_kind(RECORD, right);
    };
    fields_compared(fields, others)
}

// Expressions in a row, from the first that differs; where one row begins the other, the shorter comes first.
#[cycle(compare)]
fn all_compared<T, U>(left: &[Expr<T>], right: &[Expr<U>]) -> Ordering
    ensures { result ≡ trees_cmp (trees (map tree_of left.now)) (trees (map tree_of right.now)) }
{
    let mut others = right.iter();
    for e in left {
        let Some(other) = others.next() else {
            return Ordering::Greater;
        };
        let by_one = compared(e, other);
        if by_one.is_ne() {
            return by_one;
        }
    }
    match others.next() {
        Some(_) => Ordering::Less,
        None => Ordering::Equal,
    }
}

// Fields from the first that differs, by name and then by what stands under it.
#[cycle(compare)]
fn fields_compared<T, U>(
    left: &BTreeMap<RcStr, Expr<T>>,
    right: &BTreeMap<RcStr, Expr<U>>,
) -> Ordering
    ensures { result ≡ tree_fields_cmp (tree_fields (named (field_trees left.now.entries))) (tree_fields (named (field_trees right.now.entries))) }
{
    let mut others = right.iter();
    for (name, e) in left.iter() {
        let Some((other_name, other)) = others.next() else {
            return Ordering::Greater;
        };
        let by_field = name.cmp(other_name);
        if by_field.is_ne() {
            return by_field;
        }
        let by_one = compared(e, other);
        if by_one.is_ne() {
            return by_one;
        }
    }
    match others.next() {
        Some(_) => Ordering::Less,
        None => Ordering::Equal,
    }
}

//! How many steps from the request the entity lies that a path leads to from an expression.

ghost use Rattle.std.specs.Prelude.{◌≡◌, max};
ghost use Rattle.std.specs.Rc.{rc_str_bytes};
ghost use Rattle.cedar_typechecker_levels.specs.InRows.{steps_of, steps_in};
ghost use Rattle.cedar_typechecker_levels.specs.Paths.{path_of};

use crate::fields::field_of;
use crate::kinds::{further, is_entity, is_get_tag, may_be_false, may_be_true};
use crate::path::Path;
use cedar_expr_trees::{Expr, ExprKind};
use cedar_schema_types::Type;
use std::collections::BTreeMap;
use std::rc::RcStr;

// The number of steps, up to the number that stands for any greater one.
#[cycle(steps)]
pub(crate) fn steps<'p>(expr: &'p Expr<Option<Type>>, path: &'p Path<'p>) -> u64
    ensures { result ≡ steps_of (path_of path.entry.now) expr.entry.now }
{
    match expr.expr_kind() {
        ExprKind::If {
            test_expr,
            then_expr,
            else_expr,
        } => match (
            may_be_true(test_expr.data()),
            may_be_false(test_expr.data()),
        ) {
            (true, true) => greater(steps(then_expr, path), steps(else_expr, path)),
            (true, false) => greater(steps(then_expr, path), 0),
            (false, true) => greater(0, steps(else_expr, path)),
            (false, false) => 0,
        },
        ExprKind::GetAttr { expr: of, attr } => {
            if is_entity(of.data()) {
                further(steps(of, &Path::End), 1)
            } else {
                steps(of, &Path::Then(attr, path))
            }
        }
        ExprKind::BinaryApp { op, arg1, .. } => {
            if is_get_tag(*op) {
                further(steps(arg1, &Path::End), 1)
            } else {
                0
            }
        }
        ExprKind::Record(fields) => match path.split_first() {
            None => 0,
            Some(split) => steps_in(fields, split.name, &split.others),
        },
        ExprKind::Lit(_) | ExprKind::Var(_) | ExprKind::Slot(_) | ExprKind::Unknown(_) => 0,
        ExprKind::And { .. } | ExprKind::Or { .. } | ExprKind::UnaryApp { .. } => 0,
        ExprKind::ExtensionFunctionApp { .. } | ExprKind::Set(_) => 0,
        ExprKind::HasAttr { .. } | ExprKind::ExtHasAttr { .. } => 0,
        ExprKind::Like { .. } | ExprKind::Is { .. } => 0,
    }
}

// The number of steps from the field of this name, up to the number that stands for any greater one; none where there is no such field.
#[cycle(steps)]
fn steps_in<'p>(
    fields: &'p BTreeMap<RcStr, Expr<Option<Type>>>,
    name: &'p RcStr,
    others: &'p Path<'p>,
) -> u64
    ensures { result ≡ steps_in (rc_str_bytes name.entry.now) (path_of others.entry.now) fields.entry.now.entries }
{
    match field_of(fields, name) {
        Some(e) => steps(e, others),
        None => 0,
    }
}

// The greater of two numbers.
fn greater(a: u64, b: u64) -> u64
    ensures { result ≡ max a b }
{
    a.max(b)
}

//! Copies without types.

ghost use Rattle.std.specs.Prelude.{◌≡◌, None, map, IfOk};
ghost use Rattle.cedar_expr_trees.specs.Trees.{tree_of, kind_tree};
ghost use Rattle.cedar_typechecker_model.specs.Typed.{blank, mark};
ghost use Rattle.cedar_typechecker_answers.specs.Marked.{marks_of, kind_marks, named_tree};

use crate::kinds::{call_kind, record_kind, set_kind};
use cedar_expr_trees::{Expr, ExprKind, Loc};
use cedar_expr_values::fields::field_map;
use cedar_schema_types::Type;
use std::alloc::{AllocError, Global};
use std::collections::BTreeMap;
use std::rc::{Rc, RcStr};

type Untyped = Expr<Option<Type>>;

/// A copy of the expression without types.
#[cycle(untyped)]
pub fn untyped(alloc: Global, expr: &Expr) -> Result<Expr<Option<Type>>, AllocError>
    ensures tree { IfOk result (λ e. tree_of e ≡ tree_of expr.now) }
    ensures blank { IfOk result (λ e. marks_of e ≡ blank (tree_of expr.now)) }
{
    let place = expr.source_loc();
    match expr.expr_kind() {
        ExprKind::Lit(literal) => Ok(of_kind(ExprKind::Lit(literal.clone()?), place)),
        ExprKind::Var(v) => Ok(of_kind(ExprKind::Var(*v), place)),
        ExprKind::Slot(s) => Ok(of_kind(ExprKind::Slot(*s), place)),
        ExprKind::Unknown(u) => Ok(of_kind(ExprKind::Unknown(u.clone()?), place)),
        ExprKind::If {
            test_expr,
            then_expr,
            else_expr,
        } => {
            let test_expr = part(alloc, test_expr)?;
            let then_expr = part(alloc, then_expr)?;
            let else_expr = part(alloc, else_expr)?;
            let kind = ExprKind::If {
                test_expr,
                then_expr,
                else_expr,
            };
            Ok(of_kind(kind, place))
        }
        ExprKind::And { left, right } => {
            let left = part(alloc, left)?;
            let right = part(alloc, right)?;
            Ok(of_kind(ExprKind::And { left, right }, place))
        }
        ExprKind::Or { left, right } => {
            let left = part(alloc, left)?;
            let right = part(alloc, right)?;
            Ok(of_kind(ExprKind::Or { left, right }, place))
        }
        ExprKind::UnaryApp { op, arg } => {
            let arg = part(alloc, arg)?;
            Ok(of_kind(ExprKind::UnaryApp { op: *op, arg }, place))
        }
        ExprKind::BinaryApp { op, arg1, arg2 } => {
            let arg1 = part(alloc, arg1)?;
            let arg2 = part(alloc, arg2)?;
            let kind = ExprKind::BinaryApp {
                op: *op,
                arg1,
                arg2,
            };
            Ok(of_kind(kind, place))
        }
        ExprKind::ExtensionFunctionApp { fn_name, args } => {
            let fn_name = fn_name.clone()?;
            let args = untyped_all(alloc, args.as_slice())?;
            Ok(of_kind(call_kind(alloc, fn_name, args)?, place))
        }
        ExprKind::GetAttr { expr, attr } => {
            let expr = part(alloc, expr)?;
            let attr = attr.clone()?;
            Ok(of_kind(ExprKind::GetAttr { expr, attr }, place))
        }
        ExprKind::HasAttr { expr, attr } => {
            let expr = part(alloc, expr)?;
            let attr = attr.clone()?;
            Ok(of_kind(ExprKind::HasAttr { expr, attr }, place))
        }
        ExprKind::ExtHasAttr { expr, attrs } => {
            let expr = part(alloc, expr)?;
            let attrs = attrs.clone()?;
            Ok(of_kind(ExprKind::ExtHasAttr { expr, attrs }, place))
        }
        ExprKind::Like { expr, pattern } => {
            let expr = part(alloc, expr)?;
            let pattern = pattern.clone()?;
            Ok(of_kind(ExprKind::Like { expr, pattern }, place))
        }
        ExprKind::Is { expr, entity_type } => {
            let expr = part(alloc, expr)?;
            let entity_type = entity_type.clone()?;
            Ok(of_kind(ExprKind::Is { expr, entity_type }, place))
        }
        ExprKind::Set(members) => {
            let members = untyped_all(alloc, members.as_slice())?;
            Ok(of_kind(set_kind(alloc, members)?, place))
        }
        ExprKind::Record(fields) => {
            let fields = untyped_fields(alloc, fields)?;
            Ok(of_kind(record_kind(alloc, fields)?, place))
        }
    }
}

// The expression of this kind without a type.
fn of_kind(kind: ExprKind<Option<Type>>, place: Option<Loc>) -> Untyped
    ensures tree { tree_of result ≡ kind_tree kind }
    ensures blank { marks_of result ≡ mark None (kind_marks kind) }
{
    Expr::new(kind, place, None)
}

// A shared copy of the expression without types, as a part of another.
#[cycle(untyped)]
fn part(alloc: Global, expr: &Expr) -> Result<Rc<Untyped>, AllocError>
    ensures tree { IfOk result (λ e. tree_of e.value ≡ tree_of expr.now) }
    ensures blank { IfOk result (λ e. marks_of e.value ≡ blank (tree_of expr.now)) }
{
    let e = untyped(alloc, expr)?;
    Ok(Rc::new(alloc, e)?)
}

// Copies of these expressions without types.
#[cycle(untyped)]
fn untyped_all(alloc: Global, exprs: &[Expr]) -> Result<Vec<Untyped>, AllocError>
    ensures trees { IfOk result (λ es. map tree_of es.items ≡ map tree_of exprs.now) }
    ensures blank { IfOk result (λ es. map marks_of es.items ≡ map (λ e. blank (tree_of e)) exprs.now) }
{
    let mut all = Vec::with_capacity(alloc, exprs.len())?;
    for e in exprs {
        all.push(untyped(alloc, e)?)?;
    }
    Ok(all)
}

// Copies of these fields without types, by their names.
#[cycle(untyped)]
fn untyped_fields(
    alloc: Global,
    fields: &BTreeMap<RcStr, Expr>,
) -> Result<BTreeMap<RcStr, Untyped>, AllocError>
    ensures trees { IfOk result (λ es. map named_tree es.entries ≡ map named_tree fields.now.entries) }
    ensures blank { IfOk result (λ es. map (λ e. marks_of e.1) es.entries ≡ map (λ e. blank (tree_of e.1)) fields.now.entries) }
{
    let mut all = Vec::with_capacity(alloc, fields.len())?;
    for (name, e) in fields {
        all.push((name.clone()?, untyped(alloc, e)?))?;
    }
    field_map(alloc, all)
}

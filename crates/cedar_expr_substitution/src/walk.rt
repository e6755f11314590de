//! The walk that puts expressions in the place of unknowns and of slots.

ghost use Rattle.std.specs.Prelude.{◌≡◌, true, map, IfOk};
ghost use Rattle.std.specs.Rc.{rc_str_bytes};
ghost use Rattle.cedar_expr_names.specs.Views.{plain_name_of};
ghost use Rattle.cedar_expr_model.specs.Tree.{call, set_literal, record_literal};
ghost use Rattle.cedar_expr_model.specs.Builder.{built, built_list, built_fields, path_test, trees, tree_fields};
ghost use Rattle.cedar_expr_trees.specs.Trees.{tree_of, named, field_trees};
ghost use Rattle.cedar_expr_substitution.specs.Replacing.{replacing};

use crate::replace::Replace;
use cedar_expr_trees::{Expr, ExprKind, Name, NonEmpty};
use cedar_expr_values::fields::field_map;
use std::alloc::{AllocError, Global};
use std::collections::BTreeMap;
use std::rc::{Rc, RcStr};

/// The expression with what is given in the place of unknowns and of slots, made anew through the constructors: what has parts is
/// without a place. Fails only when out of memory.
#[cycle(walk)]
pub fn replaced<R: Replace>(alloc: Global, e: &Expr, by: &R) -> Result<Expr, AllocError>
    ensures { IfOk result (λ r. tree_of r ≡ built (replacing (R.placed by.now) (R.slotted by.now)) (tree_of e.now)) }
{
    match e.expr_kind() {
        ExprKind::Lit(_) | ExprKind::Var(_) => e.clone(),
        ExprKind::Slot(s) => by.slot(*s),
        ExprKind::Unknown(u) => by.unknown(alloc, u),
        ExprKind::If {
            test_expr,
            then_expr,
            else_expr,
        } => {
            let test_expr = replaced(alloc, test_expr, by)?;
            let then_expr = replaced(alloc, then_expr, by)?;
            let else_expr = replaced(alloc, else_expr, by)?;
            Expr::ite(alloc, test_expr, then_expr, else_expr)
        }
        ExprKind::And { left, right } => {
            let left = replaced(alloc, left, by)?;
            let right = replaced(alloc, right, by)?;
            Expr::and(alloc, left, right)
        }
        ExprKind::Or { left, right } => {
            let left = replaced(alloc, left, by)?;
            let right = replaced(alloc, right, by)?;
            Expr::or(alloc, left, right)
        }
        ExprKind::UnaryApp { op, arg } => {
            let arg = replaced(alloc, arg, by)?;
            Expr::unary_app(alloc, *op, arg)
        }
        ExprKind::BinaryApp { op, arg1, arg2 } => {
            let arg1 = replaced(alloc, arg1, by)?;
            let arg2 = replaced(alloc, arg2, by)?;
            Expr::binary_app(alloc, *op, arg1, arg2)
        }
        ExprKind::ExtensionFunctionApp { fn_name, args } => {
            call_replaced(alloc, args.as_slice(), fn_name, by)
        }
        ExprKind::GetAttr { expr, attr } => {
            let expr = replaced(alloc, expr, by)?;
            Expr::get_attr(alloc, expr, attr.clone()?)
        }
        ExprKind::HasAttr { expr, attr } => {
            let expr = replaced(alloc, expr, by)?;
            Expr::has_attr(alloc, expr, attr.clone()?)
        }
        ExprKind::ExtHasAttr { expr, attrs } => {
            let expr = replaced(alloc, expr, by)?;
            path_expr(alloc, expr, attrs)
        }
        ExprKind::Like { expr, pattern } => {
            let expr = replaced(alloc, expr, by)?;
            Expr::like(alloc, expr, pattern.clone()?)
        }
        ExprKind::Is { expr, entity_type } => {
            let expr = replaced(alloc, expr, by)?;
            Expr::is_entity_type(alloc, expr, entity_type.clone()?)
        }
        ExprKind::Set(members) => set_replaced(alloc, members.as_slice(), by),
        ExprKind::Record(fields) => record_replaced(alloc, fields, by),
    }
}

// The test of these attributes, one after the other, shared.
fn path_expr(alloc: Global, expr: Expr, attrs: &Rc<NonEmpty<RcStr>>) -> Result<Expr, AllocError>
    ensures { IfOk result (λ r. tree_of r ≡ path_test (tree_of expr) (rc_str_bytes attrs.now.value.head) (map rc_str_bytes attrs.now.value.tail.items)) }
{
    if attrs.tail.is_empty() {
        return Expr::has_attr(alloc, expr, attrs.head.clone()?);
    }
    let expr = Rc::new(alloc, expr)?;
    let attrs = attrs.clone()?;
    Ok(Expr::new(ExprKind::ExtHasAttr { expr, attrs }, None, ()))
}

// The call of this function on these arguments, with what is given in the place of unknowns and of slots.
#[cycle(walk)]
fn call_replaced<R: Replace>(
    alloc: Global,
    args: &[Expr],
    fn_name: &Name,
    by: &R,
) -> Result<Expr, AllocError>
    ensures { IfOk result (λ r. tree_of r ≡ built (replacing (R.placed by.now) (R.slotted by.now)) (call (plain_name_of fn_name.now) (trees (map tree_of args.now)))) }
{
    let args = all_replaced(alloc, args, by)?;
    Expr::call_extension_fn(alloc, fn_name.clone()?, args)
}

// The set of these members, with what is given in the place of unknowns and of slots.
#[cycle(walk)]
fn set_replaced<R: Replace>(alloc: Global, members: &[Expr], by: &R) -> Result<Expr, AllocError>
    ensures { IfOk result (λ r. tree_of r ≡ built (replacing (R.placed by.now) (R.slotted by.now)) (set_literal (trees (map tree_of members.now)))) }
{
    let members = all_replaced(alloc, members, by)?;
    Expr::set(alloc, members)
}

// The record of these fields, with what is given in the place of unknowns and of slots.
#[cycle(walk)]
fn record_replaced<R: Replace>(
    alloc: Global,
    fields: &BTreeMap<RcStr, Expr>,
    by: &R,
) -> Result<Expr, AllocError>
    ensures { IfOk result (λ r. tree_of r ≡ built (replacing (R.placed by.now) (R.slotted by.now)) (record_literal (tree_fields (named (field_trees fields.now.entries))))) }
{
    let fields = fields_replaced(alloc, fields, by)?;
    record_expr(alloc, fields)
}

// Each of these expressions, with what is given in the place of unknowns and of slots.
#[cycle(walk)]
fn all_replaced<R: Replace>(alloc: Global, exprs: &[Expr], by: &R) -> Result<Vec<Expr>, AllocError>
    ensures { IfOk result (λ rs. map tree_of rs.items ≡ built_list (replacing (R.placed by.now) (R.slotted by.now)) (trees (map tree_of exprs.now))) }
{
    let mut made = Vec::with_capacity(alloc, exprs.len())?;
    for e in exprs {
        made.push(replaced(alloc, e, by)?)?;
    }
    Ok(made)
}

// The expression of each of these fields, by their names, with what is given in the place of unknowns and of slots.
#[cycle(walk)]
fn fields_replaced<R: Replace>(
    alloc: Global,
    fields: &BTreeMap<RcStr, Expr>,
    by: &R,
) -> Result<BTreeMap<RcStr, Expr>, AllocError>
    ensures { IfOk result (λ rs. named (field_trees rs.entries) ≡ built_fields (replacing (R.placed by.now) (R.slotted by.now)) (tree_fields (named (field_trees fields.now.entries)))) }
{
    let mut made = Vec::with_capacity(alloc, fields.len())?;
    for (name, e) in fields {
        made.push((name.clone()?, replaced(alloc, e, by)?))?;
    }
    field_map(alloc, made)
}

// The record of these fields.
fn record_expr(alloc: Global, fields: BTreeMap<RcStr, Expr>) -> Result<Expr, AllocError>
    ensures { IfOk result (λ e. tree_of e ≡ record_literal (tree_fields (named (field_trees fields.entries)))) }
{
    let fields = Rc::new(alloc, fields)?;
    Ok(Expr::record_arc(fields))
}

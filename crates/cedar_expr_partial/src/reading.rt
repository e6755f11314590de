//! Values read from expressions.

ghost use Rattle.std.specs.Prelude.{◌≡◌, true, map, IfOk, IfErr, Err, Some};
ghost use Rattle.cedar_expr_model.specs.Lists.{all_given};
ghost use Rattle.cedar_expr_model.specs.Records.{names_rise};
ghost use Rattle.cedar_expr_model.specs.ValueParts.{value_of_tree};
ghost use Rattle.cedar_expr_trees.specs.Trees.{tree_of, place_of};
ghost use Rattle.cedar_expr_values.specs.Values.{bare, bare_kind, bare_pair, place_of as value_place};
ghost use Rattle.cedar_expr_partial.specs.Parts.{value_shown, field_shown, IsNoValue};
ghost use Rattle.cedar_expr_partial.specs.declared.err.NotValue.TheVariants as fault;

use crate::err::NotValue;
use cedar_expr_trees::{Expr, ExprKind};
use cedar_expr_values::{ExtensionValue, Value, ValueKind};
use std::alloc::Global;
use std::collections::BTreeMap;
use std::rc::RcStr;

// The value that the expression is, at its place.
#[cycle(valued)]
pub fn expr_value<X: ExtensionValue, T>(alloc: Global, expr: &Expr<T>) -> Result<Value<X>, NotValue>
    ensures value { IfOk result (λ v. value_of_tree (tree_of expr.now) ≡ Some (bare X.seen v)) }
    ensures place { IfOk result (λ v. value_place v ≡ place_of expr.now) }
    ensures refused { IfErr result (IsNoValue (value_of_tree (tree_of expr.now))) }
{
    let kind = expr_kind(alloc, expr)?;
    Ok(Value::new(kind, expr.source_loc()))
}

// What the expression is.
#[cycle(valued)]
pub fn expr_kind<X: ExtensionValue, T>(
    alloc: Global,
    expr: &Expr<T>,
) -> Result<ValueKind<X>, NotValue>
    ensures value { IfOk result (λ k. value_of_tree (tree_of expr.now) ≡ Some (bare_kind X.seen k)) }
    ensures refused { IfErr result (IsNoValue (value_of_tree (tree_of expr.now))) }
{
    match expr.expr_kind() {
        ExprKind::Lit(literal) => Ok(ValueKind::Lit(literal.clone()?)),
        ExprKind::Set(members) => {
            let members = member_values(alloc, members.as_slice())?;
            Ok(ValueKind::set(alloc, members)?)
        }
        ExprKind::Record(fields) => {
            let fields = field_values(alloc, fields)?;
            Ok(ValueKind::record(alloc, fields)?)
        }
        ExprKind::Var(_) | ExprKind::Slot(_) | ExprKind::Unknown(_) => no_value(expr),
        ExprKind::If { .. } | ExprKind::And { .. } | ExprKind::Or { .. } => no_value(expr),
        ExprKind::UnaryApp { .. } | ExprKind::BinaryApp { .. } => no_value(expr),
        ExprKind::ExtensionFunctionApp { .. } => no_value(expr),
        ExprKind::GetAttr { .. } | ExprKind::HasAttr { .. } => no_value(expr),
        ExprKind::ExtHasAttr { .. } | ExprKind::Like { .. } | ExprKind::Is { .. } => no_value(expr),
    }
}

// The refusal of an expression that is no value by itself.
fn no_value<X: ExtensionValue, T>(expr: &Expr<T>) -> Result<ValueKind<X>, NotValue>
    ensures { result ≡ Err (fault.NotValue (place_of expr.now)) }
{
    Err(NotValue::NotValue {
        loc: expr.source_loc(),
    })
}

// The values that the members are.
#[cycle(valued)]
fn member_values<X: ExtensionValue, T>(
    alloc: Global,
    members: &[Expr<T>],
) -> Result<Vec<Value<X>>, NotValue>
    ensures value { IfOk result (λ vs. all_given value_shown members.now ≡ Some (map (bare X.seen) vs.items)) }
    ensures refused { IfErr result (IsNoValue (all_given value_shown members.now)) }
{
    let mut values = Vec::with_capacity(alloc, members.len())?;
    for e in members {
        values.push(expr_value(alloc, e)?)?;
    }
    Ok(values)
}

// The values that the fields are, by their names.
#[cycle(valued)]
fn field_values<X: ExtensionValue, T>(
    alloc: Global,
    fields: &BTreeMap<RcStr, Expr<T>>,
) -> Result<Vec<(RcStr, Value<X>)>, NotValue>
    ensures value { IfOk result (λ vs. all_given field_shown fields.now.entries ≡ Some (map (bare_pair X.seen) vs.items)) }
    ensures rising { IfOk result (λ vs. names_rise (map (bare_pair X.seen) vs.items) ≡ true) }
    ensures refused { IfErr result (IsNoValue (all_given field_shown fields.now.entries)) }
{
    let mut values = Vec::with_capacity(alloc, fields.len())?;
    for (name, e) in fields {
        values.push((name.clone()?, expr_value(alloc, e)?))?;
    }
    Ok(values)
}

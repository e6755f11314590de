//! Values written as expressions.

ghost use Rattle.std.specs.Prelude.{◌≡◌, map, IfOk, None};
ghost use Rattle.cedar_expr_leaves.specs.Literals.{literal_of};
ghost use Rattle.cedar_expr_model.specs.Tree.{lit, record_literal};
ghost use Rattle.cedar_expr_model.specs.Builder.{trees, tree_fields};
ghost use Rattle.cedar_expr_model.specs.Made.{written, writtens};
ghost use Rattle.cedar_expr_trees.specs.Trees.{tree_of, place_of, named, field_trees};
ghost use Rattle.cedar_expr_values.specs.Values.{made, made_kind, mades, place_of as value_place};
ghost use Rattle.cedar_expr_partial.specs.Parts.{written_pair};

use crate::extension::ExtensionCall;
use cedar_expr_leaves::Literal;
use cedar_expr_trees::Expr;
use cedar_expr_values::fields::field_map;
use cedar_expr_values::{Set, Value, ValueKind};
use std::alloc::{AllocError, Global};
use std::collections::BTreeMap;
use std::rc::{Rc, RcStr};

// The expression that the value is written as.
#[cycle(written)]
pub fn value_expr<X: ExtensionCall>(alloc: Global, value: &Value<X>) -> Result<Expr, AllocError>
    ensures tree { IfOk result (λ e. tree_of e ≡ written (made X.seen value.now)) }
    ensures place { IfOk result (λ e. place_of e ≡ value_place value.now) }
{
    let e = kind_expr(alloc, value.value_kind())?;
    Ok(e.with_maybe_source_loc(value.source_loc()))
}

// The expression that the kind is written as.
#[cycle(written)]
pub fn kind_expr<X: ExtensionCall>(alloc: Global, kind: &ValueKind<X>) -> Result<Expr, AllocError>
    ensures tree { IfOk result (λ e. tree_of e ≡ written (made_kind X.seen kind.now)) }
    ensures place { IfOk result (λ e. place_of e ≡ None) }
{
    match kind {
        ValueKind::Lit(literal) => Ok(Expr::val(literal.clone()?)),
        ValueKind::Set(members) => {
            let members = member_exprs(alloc, members)?;
            Expr::set(alloc, members)
        }
        ValueKind::Record(fields) => {
            let fields = field_exprs(alloc, fields.as_map())?;
            record_expr(alloc, fields)
        }
        ValueKind::ExtensionValue(value) => {
            let args = literal_exprs(alloc, value.arguments())?;
            Expr::call_extension_fn(alloc, value.called().clone()?, args)
        }
    }
}

// The expressions of the members of a set.
#[cycle(written)]
fn member_exprs<X: ExtensionCall>(alloc: Global, members: &Set<X>) -> Result<Vec<Expr>, AllocError>
    ensures { IfOk result (λ es. trees (map tree_of es.items) ≡ writtens (mades X.seen members.now)) }
{
    let mut exprs = Vec::with_capacity(alloc, members.len())?;
    for member in members.iter() {
        exprs.push(value_expr(alloc, member)?)?;
    }
    Ok(exprs)
}

// The expressions of fields, by their names.
#[cycle(written)]
fn field_exprs<X: ExtensionCall>(
    alloc: Global,
    fields: &BTreeMap<RcStr, Value<X>>,
) -> Result<BTreeMap<RcStr, Expr>, AllocError>
    ensures { IfOk result (λ es. named (field_trees es.entries) ≡ map (written_pair X.seen) fields.now.entries) }
{
    let mut exprs = Vec::with_capacity(alloc, fields.len())?;
    for (name, value) in fields {
        exprs.push((name.clone()?, value_expr(alloc, value)?))?;
    }
    field_map(alloc, exprs)
}

// The record of these fields.
fn record_expr(alloc: Global, fields: BTreeMap<RcStr, Expr>) -> Result<Expr, AllocError>
    ensures tree { IfOk result (λ e. tree_of e ≡ record_literal (tree_fields (named (field_trees fields.entries)))) }
    ensures place { IfOk result (λ e. place_of e ≡ None) }
{
    let fields = Rc::new(alloc, fields)?;
    Ok(Expr::record_arc(fields))
}

// The expressions of literals.
fn literal_exprs(alloc: Global, literals: &[Literal]) -> Result<Vec<Expr>, AllocError>
    ensures { IfOk result (λ es. map tree_of es.items ≡ map lit (map literal_of literals.now)) }
{
    let mut exprs = Vec::with_capacity(alloc, literals.len())?;
    for literal in literals {
        exprs.push(Expr::val(literal.clone()?))?;
    }
    Ok(exprs)
}

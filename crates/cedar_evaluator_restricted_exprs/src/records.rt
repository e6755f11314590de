//! Records whose fields are evaluated already.

ghost use Rattle.std.specs.Prelude.{◌≡◌, true, map, IfOk};
ghost use Rattle.std.specs.List.{zip};
ghost use Rattle.std.specs.Map.{keys_of};
ghost use Rattle.cedar_expr_model.specs.Builder.{tree_fields};
ghost use Rattle.cedar_expr_model.specs.Records.{names_rise};
ghost use Rattle.cedar_expr_model.specs.Tree.{record_literal};
ghost use Rattle.cedar_expr_trees.specs.Trees.{tree_of, named};
ghost use Rattle.cedar_expr_values.specs.Extensions.{extension_of};
ghost use Rattle.cedar_expr_values.specs.Values.{made};
ghost use Rattle.cedar_evaluator_model.specs.Scope.{residual};
ghost use Rattle.cedar_evaluator_requests.specs.Parts.{record_of_values};
ghost use Rattle.cedar_evaluator_restricted_exprs.specs.Lefts.{Leaves, names_in};

use crate::fault::RestrictedFault;
use crate::table::{Left, V};
use cedar_expr_partial::PartialValue;
use cedar_expr_trees::Expr;
use cedar_expr_values::Value;
use cedar_expr_values::fields::field_map;
use std::alloc::{AllocError, Global};
use std::collections::BTreeMap;
use std::rc::{Rc, RcStr};

// The names of these fields, in order, each with the item in its place.
fn with_names<T: Drop>(
    alloc: Global,
    fields: &BTreeMap<RcStr, Expr>,
    items: Vec<T>,
) -> Result<Vec<(RcStr, T)>, AllocError>
    ensures pairs { IfOk result (λ ps. named ps.items ≡ zip (names_in fields.now.entries) items.items) }
    ensures rising { IfOk result (λ ps. names_rise (named ps.items) ≡ true) }
{
    let mut pairs = Vec::with_capacity(alloc, fields.len())?;
    let mut names = fields.keys();
    for item in items {
        if let Some(name) = names.next() {
            pairs.push((name.clone()?, item))?;
        }
    }
    Ok(pairs)
}

/// The record of these values, by the names of these fields.
pub fn record_value(
    alloc: Global,
    fields: &BTreeMap<RcStr, Expr>,
    values: Vec<V>,
) -> Result<Left, RestrictedFault>
    ensures { Leaves (record_of_values (names_in fields.now.entries) (map (made extension_of) values.items)) result }
{
    let pairs = with_names(alloc, fields, values)?;
    Ok(PartialValue::Value(Value::record(alloc, pairs, None)?))
}

/// The record of these expressions, by the names of these fields.
pub fn record_expr(
    alloc: Global,
    fields: &BTreeMap<RcStr, Expr>,
    exprs: Vec<Expr>,
) -> Result<Left, RestrictedFault>
    ensures { Leaves (residual (record_literal (tree_fields (zip (names_in fields.now.entries) (map tree_of exprs.items))))) result }
{
    let pairs = with_names(alloc, fields, exprs)?;
    let fields = field_map(alloc, pairs)?;
    let fields = Rc::new(alloc, fields)?;
    Ok(PartialValue::Residual(Expr::record_arc(fields)))
}

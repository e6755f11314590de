//! Values and contexts: restricted expressions, evaluated where they are read.
ghost use Rattle.std.specs.Prelude.{◌≡◌, true, IfOk, IfErr, is_none};
ghost use Rattle.serde_json.specs.View.{view};
ghost use Rattle.cedar_evaluator_restricted_exprs.specs.Answers.{AgreesWith};
ghost use Rattle.cedar_expr_model.specs.Made.{Made};
ghost use Rattle.cedar_expr_model.specs.Restricted.{is_restricted, feature_here};
ghost use Rattle.cedar_expr_trees.specs.Trees.{tree_of};
ghost use Rattle.cedar_expr_values.specs.Extensions.{extension_of};
ghost use Rattle.cedar_expr_values.specs.Values.{made};
ghost use Rattle.cedar_evaluator_model.specs.Functions.{Functions, left_of_restricted};
ghost use Rattle.cedar_gate_model.specs.ReadingValue.{value_read};
ghost use Rattle.cedar_evaluator_errors.specs.Outcomes.{left_seen};
ghost use Rattle.cedar_gate_expressions.specs.declared.fault.ReadFault.TheVariants.{Unreadable};
ghost use Rattle.cedar_gate_bundles.specs.Reading.{ReadsAs, IsUnreadable, IsStoppedBy};

use crate::lists::ReaderByTable;
use cedar_evaluator_restricted_exprs::{RestrictedFault, evaluate};
use cedar_expr_functions::Extensions;
use cedar_expr_partial::PartialValue;
use cedar_expr_trees::{Expr, ExprKind};
use cedar_expr_values::{ExtValue, Value as CedarValue};
use cedar_gate_expressions::{ReadFault, Version, read_expression};
use serde_json::Value;
use std::alloc::{AllocError, Global};

/// What is left of a restricted expression, evaluated by the functions of the table: a value, or an expression where an unknown
/// stands in it. Refuses one whose evaluation stops.
pub(crate) fn evaluated(
    alloc: Global,
    table: &Extensions<'_>,
    e: &Expr,
) -> Result<PartialValue<ExtValue>, ReadFault>
    requires { is_restricted (tree_of e.now) ≡ true }
    ensures left { IfOk result (λ p. (x : Functions) → AgreesWith table.now x → left_of_restricted x (tree_of e.now) ≡ left_seen p) }
    ensures stopped { IfErr result (λ f. IsStoppedBy table.now (tree_of e.now) f) }
{
    match evaluate(alloc, table, e) {
        Ok(left) => Ok(left),
        Err(RestrictedFault::Stopped) => Err(ReadFault::Unreadable),
        Err(RestrictedFault::OutOfMemory) => Err(ReadFault::OutOfMemory),
    }
}

/// Whether the expression is restricted: whether it has literals, unknowns, calls, sets and records alone.
pub(crate) fn is_restricted(alloc: Global, e: &Expr) -> Result<bool, AllocError>
    ensures { IfOk result (λ b. b ≡ is_restricted (tree_of e.now)) }
{
    for part in e.subexpressions(alloc)? {
        if !may_stand(part) {
            return Ok(false);
        }
    }
    Ok(true)
}

// Whether the expression, apart from what is in it, may stand in a restricted one.
fn may_stand(e: &Expr) -> bool
    ensures { result ≡ is_none (feature_here (tree_of e.now)) }
{
    match e.expr_kind() {
        ExprKind::Lit(_)
        | ExprKind::Unknown(_)
        | ExprKind::ExtensionFunctionApp { .. }
        | ExprKind::Set(_)
        | ExprKind::Record(_) => true,
        ExprKind::Var(_)
        | ExprKind::Slot(_)
        | ExprKind::If { .. }
        | ExprKind::And { .. }
        | ExprKind::Or { .. }
        | ExprKind::UnaryApp { .. }
        | ExprKind::BinaryApp { .. }
        | ExprKind::GetAttr { .. }
        | ExprKind::HasAttr { .. }
        | ExprKind::ExtHasAttr { .. }
        | ExprKind::Like { .. }
        | ExprKind::Is { .. } => false,
    }
}

/// Reads a value.
#[tactic(auto, using(crate::proofs::Parted::stopped_value))]
pub(crate) fn read_value(
    alloc: Global,
    table: &Extensions<'_>,
    value: &Value,
) -> Result<CedarValue<ExtValue>, ReadFault>
    ensures ok { IfOk result (λ v. ReadsAs table.now (λ x. value_read x (view value.now)) (made extension_of v)) }
    ensures unreadable { IfErr result (λ f. IsUnreadable table.now (λ x. value_read x (view value.now)) f) }
{
    let e = read_expression(alloc, Version::Second, value)?;
    if !is_restricted(alloc, &e)? {
        return Err(ReadFault::Unreadable);
    }
    match evaluated(alloc, table, &e)? {
        PartialValue::Value(v) => Ok(v),
        PartialValue::Residual(_) => Err(ReadFault::Unreadable),
    }
}

/// Reads values.
pub(crate) struct Values;

impl ReaderByTable for Values {
    type Item = CedarValue<ExtValue>;

    ghost Meaning = { Made };

    ghost reading = { value_read };

    ghost seen = { made extension_of };

    fn read(
        &self,
        alloc: Global,
        table: &Extensions<'_>,
        value: &Value,
    ) -> Result<CedarValue<ExtValue>, ReadFault> {
        read_value(alloc, table, value)
    }
}

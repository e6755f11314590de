//! The context that is left of a record.

ghost use Rattle.std.specs.Prelude.{◌≡◌, true, IfOk, option_map};
ghost use Rattle.cedar_expr_model.specs.Restricted.{is_restricted};
ghost use Rattle.cedar_expr_model.specs.Unknowns.{has_unknown};
ghost use Rattle.cedar_expr_trees.specs.Trees.{tree_of};
ghost use Rattle.cedar_expr_values.specs.Extensions.{extension_of};
ghost use Rattle.cedar_expr_values.specs.Values.{made};
ghost use Rattle.cedar_evaluator_model.specs.Reauthorize.{context_from};
ghost use Rattle.cedar_evaluator_model.specs.Scope.{value_left, residual};
ghost use Rattle.cedar_evaluator_requests.specs.Views.{context_of};
ghost use Rattle.cedar_evaluator_restricted_exprs.specs.Contexts.{IsOfRecord, IsContextOf, IsContextLeft};
ghost use Rattle.cedar_evaluator_errors.specs.Outcomes.{left_seen};

use crate::borrowed::BorrowedRestrictedExpr;
use crate::table::{Left, V};
use cedar_evaluator_errors::RestrictedExpressionError;
use cedar_evaluator_requests::{Context, RestrictedFields};
use cedar_expr_partial::PartialValue;
use cedar_expr_trees::{Expr, ExprKind};
use cedar_expr_values::ValueKind;
use std::alloc::{AllocError, Global};

/// The context that is left of a record: one of values, or one in which an unknown stands; none of what isn't left of a record. Fails only
/// out of memory.
#[tactic(auto, using(crate::proofs::OfRecord::residual_made, crate::proofs::OfRecord::value_made, crate::proofs::OfRecord::some_made))]
pub fn context_left(alloc: Global, left: &Left) -> Result<Option<Context>, AllocError>
    ensures context { IfOk result (λ c. IsOfRecord (left_seen left.now) → option_map context_of c ≡ context_from (left_seen left.now)) }
    ensures some { IfOk result (IsContextOf (left_seen left.now)) }
{
    match left {
        PartialValue::Value(v) => context_of_value(v),
        PartialValue::Residual(e) => context_of_expr(alloc, e),
    }
}

// The context that a value is.
fn context_of_value(v: &V) -> Result<Option<Context>, AllocError>
    ensures { IfOk result (λ c. option_map context_of c ≡ context_from (value_left (made extension_of v.now))) }
{
    match v.value_kind() {
        ValueKind::Record(fields) => Ok(Some(Context::Value(fields.clone()?))),
        ValueKind::Lit(_) | ValueKind::Set(_) | ValueKind::ExtensionValue(_) => Ok(None),
    }
}

// The context that an expression is, if it is restricted and an unknown stands in it.
#[tactic(auto, using(crate::proofs::OfRecord::some_made))]
fn context_of_expr(alloc: Global, e: &Expr) -> Result<Option<Context>, AllocError>
    ensures some { IfOk result (IsContextOf (residual (tree_of e.now))) }
    ensures context { IfOk result (IsContextLeft (tree_of e.now)) }
{
    if !e.contains_unknown() {
        return Ok(None);
    }
    match BorrowedRestrictedExpr::new(alloc, e) {
        Ok(_restricted) => context_of_restricted(e),
        Err(RestrictedExpressionError::OutOfMemory) => Err(AllocError),
        Err(RestrictedExpressionError::InvalidRestrictedExpression(_)) => Ok(None),
    }
}

// The context that an expression is, which is restricted and has an unknown.
fn context_of_restricted(e: &Expr) -> Result<Option<Context>, AllocError>
    requires restricted { is_restricted (tree_of e.now) ≡ true }
    requires unfinished { has_unknown (tree_of e.now) ≡ true }
    ensures { IfOk result (λ c. option_map context_of c ≡ context_from (residual (tree_of e.now))) }
{
    match e.expr_kind() {
        ExprKind::Record(fields) => {
            let fields = RestrictedFields::new(fields.clone()?);
            Ok(Some(Context::RestrictedResidual(fields)))
        }
        ExprKind::Lit(_)
        | ExprKind::Var(_)
        | ExprKind::Slot(_)
        | ExprKind::Unknown(_)
        | ExprKind::If { .. }
        | ExprKind::And { .. }
        | ExprKind::Or { .. }
        | ExprKind::UnaryApp { .. }
        | ExprKind::BinaryApp { .. }
        | ExprKind::ExtensionFunctionApp { .. }
        | ExprKind::GetAttr { .. }
        | ExprKind::HasAttr { .. }
        | ExprKind::ExtHasAttr { .. }
        | ExprKind::Like { .. }
        | ExprKind::Is { .. }
        | ExprKind::Set(_) => Ok(None),
    }
}

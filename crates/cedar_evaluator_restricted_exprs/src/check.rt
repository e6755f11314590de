//! Whether an expression is restricted.

ghost use Rattle.std.specs.Prelude.{◌≡◌, true, IfOk, IfErr, OnOk, option_map};
ghost use Rattle.cedar_expr_model.specs.Restricted.{is_restricted, feature_here};
ghost use Rattle.cedar_expr_leaves.specs.Operators.{unary_op_of, binary_op_of};
ghost use Rattle.cedar_expr_model.specs.Texts.{unary_text, binary_text};
ghost use Rattle.cedar_expr_trees.specs.Trees.{tree_of};
ghost use Rattle.cedar_evaluator_restricted_exprs.specs.Refused.{feature_text, Refuses};

use cedar_evaluator_errors::{InvalidRestrictedExpressionError, RestrictedExpressionError};
use cedar_expr_leaves::{BinaryOp, UnaryOp};
use cedar_expr_trees::{Expr, ExprKind};
use std::alloc::Global;
use std::rc::RcStr;

/// Refuses an expression that isn't restricted.
///
/// # Errors
/// `InvalidRestrictedExpression` with the first part that mustn't stand there, a node before its children and children in order, and
/// what it is; `OutOfMemory`.
#[tactic(auto, using(crate::proofs::Parted::found_here, crate::proofs::Parted::passed_here, crate::proofs::Parted::passed_on, crate::proofs::Parted::refused_is_not))]
pub(crate) fn refuse_unrestricted(alloc: Global, e: &Expr) -> Result<(), RestrictedExpressionError>
    ensures restricted { OnOk result (is_restricted (tree_of e.now) ≡ true) }
    ensures refused { IfErr result (Refuses (tree_of e.now)) }
{
    for part in e.subexpressions(alloc)? {
        if let Some(feature) = feature(part) {
            let feature = RcStr::from_str(alloc, feature)?;
            let expr = part.clone()?;
            return Err(RestrictedExpressionError::InvalidRestrictedExpression(
                InvalidRestrictedExpressionError { feature, expr },
            ));
        }
    }
    Ok(())
}

// What an expression is, apart from what stands in it, where it mustn't stand in a restricted one.
fn feature(e: &Expr) -> Option<&'static str>
    ensures { option_map (λ s. s.now) result ≡ option_map feature_text (feature_here (tree_of e.now)) }
{
    match e.expr_kind() {
        ExprKind::Lit(_)
        | ExprKind::Unknown(_)
        | ExprKind::ExtensionFunctionApp { .. }
        | ExprKind::Set(_)
        | ExprKind::Record(_) => None,
        ExprKind::Var(_) => Some("variables"),
        ExprKind::Slot(_) => Some("template slots"),
        ExprKind::If { .. } => Some("if-then-else"),
        ExprKind::And { .. } => Some("&&"),
        ExprKind::Or { .. } => Some("||"),
        ExprKind::UnaryApp { op, .. } => Some(unary(*op)),
        ExprKind::BinaryApp { op, .. } => Some(binary(*op)),
        ExprKind::GetAttr { .. } => Some("attribute accesses"),
        ExprKind::HasAttr { .. } | ExprKind::ExtHasAttr { .. } => Some("'has'"),
        ExprKind::Like { .. } => Some("'like'"),
        ExprKind::Is { .. } => Some("'is'"),
    }
}

// The text of an operator of one operand.
fn unary(op: UnaryOp) -> &'static str
    ensures { result.now ≡ unary_text (unary_op_of op) }
{
    match op {
        UnaryOp::Not => "!",
        UnaryOp::Neg => "-",
        UnaryOp::IsEmpty => "isEmpty",
    }
}

// The text of an operator of two operands.
fn binary(op: BinaryOp) -> &'static str
    ensures { result.now ≡ binary_text (binary_op_of op) }
{
    match op {
        BinaryOp::Eq => "==",
        BinaryOp::Less => "<",
        BinaryOp::LessEq => "<=",
        BinaryOp::Add => "+",
        BinaryOp::Sub => "-",
        BinaryOp::Mul => "*",
        BinaryOp::Rem => "%",
        BinaryOp::In => "in",
        BinaryOp::Contains => "contains",
        BinaryOp::ContainsAll => "containsAll",
        BinaryOp::ContainsAny => "containsAny",
        BinaryOp::GetTag => "getTag",
        BinaryOp::HasTag => "hasTag",
    }
}

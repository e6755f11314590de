//! The type that an expression shows by itself.

ghost use Rattle.std.specs.Prelude.{◌≡◌, option_map, option_and_then, find, IfOk};
ghost use Rattle.cedar_expr_names.specs.Views.{plain_name_of};
ghost use Rattle.cedar_expr_model.specs.Name.{name_eq};
ghost use Rattle.cedar_expr_model.specs.Evident.{unary_core, binary_core, agreed};
ghost use Rattle.cedar_expr_values.specs.Types.{core_of};
ghost use Rattle.cedar_expr_leaves.specs.Operators.{unary_op_of, binary_op_of};
ghost use Rattle.cedar_expr_trees.specs.Trees.{tree_of};
ghost use Rattle.cedar_expr_functions.specs.Tables.{functions_of};
ghost use Rattle.cedar_expr_functions.specs.Calls.{type_shown, result_of};

use crate::{ExtensionFunctionLookupError, Extensions};
use cedar_expr_names::Name;
use cedar_expr_trees::{BinaryOp, Expr, ExprKind, UnaryOp};
use cedar_expr_values::{StaticallyTyped, Type};
use std::alloc::AllocError;

// The type that the expression shows.
pub fn shown_type<T>(expr: &Expr<T>, table: &Extensions<'_>) -> Result<Option<Type>, AllocError>
    ensures { IfOk result (λ t. option_map core_of t ≡ type_shown (functions_of table.now) (tree_of expr.now)) }
{
    match expr.expr_kind() {
        ExprKind::Lit(literal) => Ok(Some(literal.type_of()?)),
        ExprKind::Unknown(u) => match &u.type_annotation {
            Some(ty) => Ok(Some(ty.clone()?)),
            None => Ok(None),
        },
        ExprKind::If {
            then_expr,
            else_expr,
            ..
        } => {
            let yes = shown_type(then_expr, table)?;
            let no = shown_type(else_expr, table)?;
            Ok(agreed(yes, no))
        }
        ExprKind::UnaryApp { op, .. } => Ok(Some(unary_type(*op))),
        ExprKind::BinaryApp { op, .. } => Ok(binary_type(*op)),
        ExprKind::ExtensionFunctionApp { fn_name, .. } => result_type(fn_name, table),
        ExprKind::And { .. } | ExprKind::Or { .. } => Ok(Some(Type::Bool)),
        ExprKind::HasAttr { .. } | ExprKind::ExtHasAttr { .. } => Ok(Some(Type::Bool)),
        ExprKind::Like { .. } | ExprKind::Is { .. } => Ok(Some(Type::Bool)),
        ExprKind::Set(_) => Ok(Some(Type::Set)),
        ExprKind::Record(_) => Ok(Some(Type::Record)),
        ExprKind::Var(_) | ExprKind::Slot(_) | ExprKind::GetAttr { .. } => Ok(None),
    }
}

// The type on which two agree.
fn agreed(yes: Option<Type>, no: Option<Type>) -> Option<Type>
    ensures { option_map core_of result ≡ agreed (option_map core_of yes) (option_map core_of no) }
{
    let a = yes?;
    let b = no?;
    if a.same(&b) { Some(a) } else { None }
}

// The type of what an operator of one operand gives.
fn unary_type(op: UnaryOp) -> Type
    ensures { core_of result ≡ unary_core (unary_op_of op) }
{
    match op {
        UnaryOp::Neg => Type::Long,
        UnaryOp::Not | UnaryOp::IsEmpty => Type::Bool,
    }
}

// The type of what an operator of two operands gives: what a tag holds shows none.
fn binary_type(op: BinaryOp) -> Option<Type>
    ensures { option_map core_of result ≡ binary_core (binary_op_of op) }
{
    match op {
        BinaryOp::Add | BinaryOp::Sub | BinaryOp::Mul | BinaryOp::Rem => Some(Type::Long),
        BinaryOp::GetTag => None,
        BinaryOp::Eq | BinaryOp::Less | BinaryOp::LessEq | BinaryOp::In => Some(Type::Bool),
        BinaryOp::Contains | BinaryOp::ContainsAll | BinaryOp::ContainsAny => Some(Type::Bool),
        BinaryOp::HasTag => Some(Type::Bool),
    }
}

// The type of what the function of this name gives, where there is one and it has a result type.
fn result_type(name: &Name, table: &Extensions<'_>) -> Result<Option<Type>, AllocError>
    ensures { IfOk result (λ t. option_map core_of t ≡ result_of (functions_of table.now) (plain_name_of name.now)) }
{
    let function = match table.func(name) {
        Ok(f) => f,
        Err(ExtensionFunctionLookupError::OutOfMemory) => return Err(AllocError),
        Err(ExtensionFunctionLookupError::FuncDoesNotExist(_)) => return Ok(None),
    };
    match function.return_type() {
        Some(ty) => Ok(Some(ty.clone()?)),
        None => Ok(None),
    }
}

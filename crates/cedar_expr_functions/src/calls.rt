//! Calls in an expression, checked one after the other.

ghost use Rattle.std.specs.Prelude.{◌≡◌, None, IfErr, OnOk};
ghost use Rattle.cedar_expr_names.specs.Views.{plain_name_of};
ghost use Rattle.cedar_expr_trees.specs.Trees.{tree_of};
ghost use Rattle.cedar_expr_functions.specs.Tables.{functions_of};
ghost use Rattle.cedar_expr_functions.specs.Calls.{wrong_call, first_wrong_call, wrong_by_name, IsWrongCall};

use crate::check_err::ExprValidationError;
use crate::{ExtensionFunctionLookupError, Extensions};
use cedar_expr_names::Name;
use cedar_expr_trees::{Expr, ExprKind};
use std::alloc::Global;

// Refuses the first wrong call of the expression.
pub fn check_calls<T>(
    alloc: Global,
    expr: &Expr<T>,
    table: &Extensions<'_>,
) -> Result<(), ExprValidationError>
    ensures none { OnOk result (first_wrong_call (functions_of table.now) (tree_of expr.now) ≡ None) }
    ensures refused { IfErr result (IsWrongCall (first_wrong_call (functions_of table.now) (tree_of expr.now))) }
{
    for e in expr.subexpressions(alloc)? {
        check_call(e, table)?;
    }
    Ok(())
}

// Refuses the expression where it is a wrong call itself.
fn check_call<T>(expr: &Expr<T>, table: &Extensions<'_>) -> Result<(), ExprValidationError>
    ensures none { OnOk result (wrong_call (functions_of table.now) (tree_of expr.now) ≡ None) }
    ensures refused { IfErr result (IsWrongCall (wrong_call (functions_of table.now) (tree_of expr.now))) }
{
    match expr.expr_kind() {
        ExprKind::ExtensionFunctionApp { fn_name, args } => {
            check_named(fn_name, args.as_slice().len(), table)
        }
        ExprKind::Lit(_) | ExprKind::Var(_) | ExprKind::Slot(_) | ExprKind::Unknown(_) => Ok(()),
        ExprKind::If { .. } | ExprKind::And { .. } | ExprKind::Or { .. } => Ok(()),
        ExprKind::UnaryApp { .. } | ExprKind::BinaryApp { .. } => Ok(()),
        ExprKind::GetAttr { .. } | ExprKind::HasAttr { .. } => Ok(()),
        ExprKind::ExtHasAttr { .. } | ExprKind::Like { .. } | ExprKind::Is { .. } => Ok(()),
        ExprKind::Set(_) | ExprKind::Record(_) => Ok(()),
    }
}

// Refuses a call of this name with so many arguments where it is wrong.
fn check_named(name: &Name, count: usize, table: &Extensions<'_>) -> Result<(), ExprValidationError>
    ensures none { OnOk result (wrong_by_name (functions_of table.now) (plain_name_of name.now) count ≡ None) }
    ensures refused { IfErr result (IsWrongCall (wrong_by_name (functions_of table.now) (plain_name_of name.now) count)) }
{
    let function = match table.func(name) {
        Ok(f) => f,
        Err(ExtensionFunctionLookupError::OutOfMemory) => {
            return Err(ExprValidationError::OutOfMemory);
        }
        Err(ExtensionFunctionLookupError::FuncDoesNotExist(e)) => {
            return Err(ExprValidationError::FuncDoesNotExist {
                function_name: e.name,
            });
        }
    };
    if function.takes_count(count) {
        return Ok(());
    }
    Err(ExprValidationError::WrongNumArguments {
        function_name: name.clone()?,
        expected: function.arg_types().len(),
        actual: count,
    })
}

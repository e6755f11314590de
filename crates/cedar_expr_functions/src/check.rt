//! The checks of an expression.

ghost use Rattle.std.specs.Prelude.{◌≡◌, List, true, option_map, IfOk, IfErr, OnOk};
ghost use Rattle.cedar_expr_model.specs.Name.{Name as ModelName};
ghost use Rattle.cedar_expr_model.specs.Value.{V};
ghost use Rattle.cedar_expr_model.specs.Tree.{Tree};
ghost use Rattle.cedar_expr_model.specs.Table.{Called};
ghost use Rattle.cedar_expr_model.specs.Evident.{evident_type, has_valid_calls};
ghost use Rattle.cedar_expr_values.specs.Types.{core_of};
ghost use Rattle.cedar_expr_trees.specs.Trees.{tree_of};
ghost use Rattle.cedar_expr_functions.specs.Tables.{table_of};
ghost use Rattle.cedar_expr_functions.specs.Calls.{RefusesExpression};

use crate::Extensions;
use crate::calls::check_calls;
use crate::check_err::ExprValidationError;
use crate::evident::shown_type;
use cedar_expr_trees::Expr;
use cedar_expr_values::Type;
use std::alloc::{AllocError, Global};

/// What can be checked against a table of extension functions.
pub trait CheckExpr {
    /// The expression.
    ghost tree: { Self → Tree };

    /// Whether each call names a function of the table and has a right count of arguments. Refuses the first that doesn't, a node
    /// before its children, and children in order, and fails when out of memory.
    fn try_validate(&self, alloc: Global, table: &Extensions<'_>) -> Result<(), ExprValidationError>
        ensures valid { (answers : ModelName → List V → Called) → OnOk result (has_valid_calls (table_of table.now answers) (tree self.now) ≡ true) }
        ensures refused { (answers : ModelName → List V → Called) → IfErr result (RefusesExpression (table_of table.now answers) (tree self.now)) };

    /// The type that the expression shows by itself: that of a literal, an operator, a test, a set or a record, of a choice where
    /// both branches agree, of a call the result of its function, of an unknown its annotation. Variables, slots, attributes and
    /// tags show none. Fails only when out of memory.
    fn try_type_of(&self, table: &Extensions<'_>) -> Result<Option<Type>, AllocError>
        ensures { (answers : ModelName → List V → Called) → IfOk result (λ t. option_map core_of t ≡ evident_type (table_of table.now answers) (tree self.now)) };
}

impl<T> CheckExpr for Expr<T> {
    ghost tree = { tree_of };

    fn try_validate(
        &self,
        alloc: Global,
        table: &Extensions<'_>,
    ) -> Result<(), ExprValidationError> {
        check_calls(alloc, self, table)
    }

    fn try_type_of(&self, table: &Extensions<'_>) -> Result<Option<Type>, AllocError> {
        shown_type(self, table)
    }
}

//! Copies of kinds of expressions: the same parts, which are shared.

ghost use Rattle.std.specs.Prelude.{◌≡◌, ◌++◌, IfOk};
ghost use Rattle.std.specs.Rc.{rc_str_bytes};
ghost use Rattle.cedar_expr_names.specs.Views.{type_name_of};
ghost use Rattle.cedar_expr_leaves.specs.Patterns.{pattern_of};
ghost use Rattle.cedar_expr_model.specs.Tree.{choice, both, either, binary, get_attr, has_attr, like, is_type};
ghost use Rattle.cedar_expr_leaves.specs.Operators.{binary_op_of};
ghost use Rattle.cedar_expr_trees.specs.Positions.{below, positions};
ghost use Rattle.cedar_expr_trees.specs.Trees.{tree_of, kind_tree};

use crate::expr::{Expr, ExprKind};
use cedar_expr_leaves::{BinaryOp, Pattern};
use cedar_expr_names::EntityType;
use std::alloc::AllocError;
use std::rc::{Rc, RcStr};

// A choice between the same parts.
pub fn choice_of<T: Drop>(
    test: &Rc<Expr<T>>,
    first: &Rc<Expr<T>>,
    last: &Rc<Expr<T>>,
) -> Result<ExprKind<T>, AllocError>
    ensures tree { IfOk result (λ k. kind_tree k ≡ choice (tree_of test.now.value) (tree_of first.now.value) (tree_of last.now.value)) }
    ensures parts { IfOk result (λ k. below k ≡ positions test.now.value ++ (positions first.now.value ++ positions last.now.value)) }
{
    Ok(ExprKind::If {
        test_expr: test.clone()?,
        then_expr: first.clone()?,
        else_expr: last.clone()?,
    })
}

// `and` of the same parts.
pub fn and_of<T: Drop>(left: &Rc<Expr<T>>, right: &Rc<Expr<T>>) -> Result<ExprKind<T>, AllocError>
    ensures tree { IfOk result (λ k. kind_tree k ≡ both (tree_of left.now.value) (tree_of right.now.value)) }
    ensures parts { IfOk result (λ k. below k ≡ positions left.now.value ++ positions right.now.value) }
{
    Ok(ExprKind::And {
        left: left.clone()?,
        right: right.clone()?,
    })
}

// `or` of the same parts.
pub fn or_of<T: Drop>(left: &Rc<Expr<T>>, right: &Rc<Expr<T>>) -> Result<ExprKind<T>, AllocError>
    ensures tree { IfOk result (λ k. kind_tree k ≡ either (tree_of left.now.value) (tree_of right.now.value)) }
    ensures parts { IfOk result (λ k. below k ≡ positions left.now.value ++ positions right.now.value) }
{
    Ok(ExprKind::Or {
        left: left.clone()?,
        right: right.clone()?,
    })
}

// The binary operator on these two parts, which are shared.
pub fn binary_of<T: Drop>(
    op: BinaryOp,
    arg1: &Rc<Expr<T>>,
    arg2: &Rc<Expr<T>>,
) -> Result<ExprKind<T>, AllocError>
    ensures tree { IfOk result (λ k. kind_tree k ≡ binary (binary_op_of op) (tree_of arg1.now.value) (tree_of arg2.now.value)) }
    ensures parts { IfOk result (λ k. below k ≡ positions arg1.now.value ++ positions arg2.now.value) }
{
    Ok(ExprKind::BinaryApp {
        op,
        arg1: arg1.clone()?,
        arg2: arg2.clone()?,
    })
}

// The attribute of this name of this part, which is shared.
pub fn attribute_of<T: Drop>(expr: &Rc<Expr<T>>, attr: &RcStr) -> Result<ExprKind<T>, AllocError>
    ensures tree { IfOk result (λ k. kind_tree k ≡ get_attr (tree_of expr.now.value) (rc_str_bytes attr.now)) }
    ensures parts { IfOk result (λ k. below k ≡ positions expr.now.value) }
{
    Ok(ExprKind::GetAttr {
        expr: expr.clone()?,
        attr: attr.clone()?,
    })
}

// A test of the same attribute of the same part.
pub fn test_of<T: Drop>(expr: &Rc<Expr<T>>, attr: &RcStr) -> Result<ExprKind<T>, AllocError>
    ensures tree { IfOk result (λ k. kind_tree k ≡ has_attr (tree_of expr.now.value) (rc_str_bytes attr.now)) }
    ensures parts { IfOk result (λ k. below k ≡ positions expr.now.value) }
{
    Ok(ExprKind::HasAttr {
        expr: expr.clone()?,
        attr: attr.clone()?,
    })
}

// The test of this part, which is shared, against this pattern.
pub fn like_of<T: Drop>(expr: &Rc<Expr<T>>, pattern: &Pattern) -> Result<ExprKind<T>, AllocError>
    ensures tree { IfOk result (λ k. kind_tree k ≡ like (tree_of expr.now.value) (pattern_of pattern.now)) }
    ensures parts { IfOk result (λ k. below k ≡ positions expr.now.value) }
{
    Ok(ExprKind::Like {
        expr: expr.clone()?,
        pattern: pattern.clone()?,
    })
}

// The test of this part, which is shared, for this entity type.
pub fn is_of<T: Drop>(
    expr: &Rc<Expr<T>>,
    entity_type: &EntityType,
) -> Result<ExprKind<T>, AllocError>
    ensures tree { IfOk result (λ k. kind_tree k ≡ is_type (tree_of expr.now.value) (type_name_of entity_type.now)) }
    ensures parts { IfOk result (λ k. below k ≡ positions expr.now.value) }
{
    Ok(ExprKind::Is {
        expr: expr.clone()?,
        entity_type: entity_type.clone()?,
    })
}

//! Laws of shapes. Each function's contract is the theorem; its body does nothing.

ghost use Rattle.std.specs.Prelude.{◌≡◌, true};
ghost use Rattle.std.specs.Cmp.{IsEquivalence, IsTotalOrder};
ghost use Rattle.cedar_expr_model.specs.Shape.{tree_cmp, tree_eq};
ghost use Rattle.cedar_expr_trees.specs.Trees.{tree_of};
ghost use Rattle.cedar_expr_trees.specs.declared.expr.Expr.{Expr as CodeExpr};
ghost use Rattle.cedar_expr_shapes.specs.Compared.{EqualByOrder, EqualByTrees, HashedAlike};

use cedar_expr_trees::Expr;
use std::hash::Hash;

/// The order of shapes is total, it finds no difference exactly between equal ones, equality is an equivalence, and equal
/// shapes feed a hasher alike.
pub fn shapes_agree()
    ensures order { IsTotalOrder tree_cmp }
    ensures equality { IsEquivalence tree_eq }
    ensures equal_by_order { EqualByOrder }
    ensures hash { HashedAlike }
{}

/// Expressions are equal exactly where their trees are, and the data of their subexpressions one after the other: places don't
/// count.
pub fn expressions_are_their_trees_and_data<T: Hash>()
    ensures { EqualByTrees ⟦<Expr<T> as PartialEq>⟧.eq T.eq }
{}

/// So expressions whose data say nothing are equal exactly where their trees are, and are then hashed alike.
pub fn expressions_are_their_trees()
    ensures equality { (e f : CodeExpr (Unit {0})) → ⟦<Expr<()> as PartialEq>⟧.eq e f ≡ tree_eq (tree_of e) (tree_of f) }
    ensures hash { (e f : CodeExpr (Unit {0})) → tree_eq (tree_of e) (tree_of f) ≡ true → ⟦<Expr<()> as Hash>⟧.hash_input e ≡ ⟦<Expr<()> as Hash>⟧.hash_input f }
{}

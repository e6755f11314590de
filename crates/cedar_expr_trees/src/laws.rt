//! Laws of expressions. Each function's contract is the theorem; its body does nothing.

ghost use Rattle.std.specs.Cmp.{IsEquivalence};
ghost use Rattle.cedar_expr_trees.specs.ExprLaws.{EqualByParts, HashedIfEqual};

use crate::expr::{Expr, ExprKind};
use std::hash::Hash;

/// Expressions are equal where their kinds and their data are: places don't count. The expressions in kinds are compared by the
/// same. Equal ones are hashed alike.
pub fn expressions_are_compared<T: Hash>()
    ensures equality { EqualByParts ⟦<Expr<T> as PartialEq>⟧.eq ⟦<ExprKind<T> as PartialEq>⟧.eq T.eq }
    ensures equivalence { IsEquivalence ⟦<Expr<T> as PartialEq>⟧.eq }
    ensures hash { HashedIfEqual ⟦<Expr<T> as PartialEq>⟧.eq ⟦<Expr<T> as Hash>⟧.hash_input }
{}

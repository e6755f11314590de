//! Expressions told apart by their shape alone: by what they are but for places and data.

ghost use Rattle.std.specs.Prelude.{◌≡◌, fold};
ghost use Rattle.cedar_expr_model.specs.Shape.{tree_cmp, tree_eq};
ghost use Rattle.cedar_expr_trees.specs.Trees.{tree_of};
ghost use Rattle.cedar_expr_shapes.specs.Hashed.{tree_input};

use crate::compare::compared;
use crate::hashed::feed;
use cedar_expr_trees::Expr;
use std::alloc::AllocError;
use std::borrow::Cow;
use std::cmp::Ordering;
use std::hash::{Hash, Hasher};

/// What has the shape of an expression. Places and data don't count.
pub trait ExprShape {
    ghost use Rattle.cedar_expr_model.specs.Tree.{Tree};

    /// The bare tree.
    ghost shape: { Self → Tree };

    /// Whether both have one shape.
    fn eq_shape<U>(&self, other: &Expr<U>) -> bool
        ensures { result ≡ tree_eq (shape self.now) (tree_of other.now) };

    /// The order of the two shapes: by kind, and in one kind by the parts from the first that differs.
    fn cmp_shape<U>(&self, other: &Expr<U>) -> Ordering
        ensures { result ≡ tree_cmp (shape self.now) (tree_of other.now) };

    /// Feeds the hasher the shape: those of one shape feed it alike.
    fn hash_shape<H: Hasher>(&self, state: &mut H)
        ensures { state.new ≡ fold H.write state.old (tree_input (shape self.now)) };
}

impl<T> ExprShape for Expr<T> {
    ghost shape = { tree_of };

    fn eq_shape<U>(&self, other: &Expr<U>) -> bool {
        compared(self, other).is_eq()
    }

    fn cmp_shape<U>(&self, other: &Expr<U>) -> Ordering {
        compared(self, other)
    }

    fn hash_shape<H: Hasher>(&self, state: &mut H) {
        feed(self, state)
    }
}

/// An expression, borrowed or owned, that is compared, ordered and hashed by its shape alone.
#[derive(Drop)]
#[derive_where(Debug; T)]
pub struct ExprShapeOnly<'a, T = ()> {
    expr: Cow<'a, Expr<T>>,
}

impl<'a, T> ExprShapeOnly<'a, T> {
    ghost use Rattle.cedar_expr_shapes.specs.Shapes.{shape_of};

    /// The shape of an expression that is borrowed.
    pub fn new_from_borrowed(expr: &'a Expr<T>) -> ExprShapeOnly<'a, T>
        ensures { shape_of result ≡ tree_of expr.entry.now }
    {
        ExprShapeOnly {
            expr: Cow::Borrowed(expr),
        }
    }

    /// The shape of an expression that is handed over.
    pub fn new_from_owned(expr: Expr<T>) -> ExprShapeOnly<'a, T>
        ensures { shape_of result ≡ tree_of expr }
    {
        ExprShapeOnly {
            expr: Cow::Owned(expr),
        }
    }
}

impl<'a, T: Clone + Drop> Clone for ExprShapeOnly<'a, T> {
    ghost use Rattle.cedar_expr_shapes.specs.Shapes.{shape_of};

    ghost is_clone = { λ e copy. shape_of copy ≡ shape_of e };

    /// A copy. An expression that is borrowed stays borrowed; of one that is owned the parts are shared.
    fn clone(&self) -> Result<ExprShapeOnly<'a, T>, AllocError> {
        match &self.expr {
            Cow::Borrowed(e) => Ok(ExprShapeOnly::new_from_borrowed(*e)),
            Cow::Owned(e) => Ok(ExprShapeOnly::new_from_owned(e.clone()?)),
        }
    }
}

impl<'a, T> PartialEq for ExprShapeOnly<'a, T> {
    ghost use Rattle.std.specs.Cmp.{on_per, partial_equiv_from_equiv};
    ghost use Rattle.cedar_expr_shapes.specs.Compared.{trees_are_equal};
    ghost use Rattle.cedar_expr_shapes.specs.Shapes.{shape_of};

    ghost eq = { λ a b. tree_eq (shape_of a) (shape_of b) };

    ghost laws = { on_per shape_of (partial_equiv_from_equiv trees_are_equal) };

    fn eq(&self, other: &ExprShapeOnly<'a, T>) -> bool {
        self.expr.eq_shape(&other.expr)
    }
}

impl<'a, T> Eq for ExprShapeOnly<'a, T> {
    ghost use Rattle.std.specs.Cmp.{on_equiv};
    ghost use Rattle.cedar_expr_shapes.specs.Compared.{trees_are_equal};
    ghost use Rattle.cedar_expr_shapes.specs.Shapes.{shape_of};

    ghost laws = { on_equiv shape_of trees_are_equal };
}

impl<'a, T> PartialOrd for ExprShapeOnly<'a, T> {
    ghost use Rattle.std.specs.Prelude.{Some, refl};
    ghost use Rattle.std.specs.Cmp.{on_po, po};
    ghost use Rattle.cedar_expr_shapes.specs.Compared.{trees_are_ordered};
    ghost use Rattle.cedar_expr_shapes.specs.Shapes.{shape_of};

    ghost partial_cmp = { λ a b. Some (tree_cmp (shape_of a) (shape_of b)) };

    ghost laws = { on_po shape_of (po trees_are_ordered (λ t u. refl)) };

    fn partial_cmp(&self, other: &ExprShapeOnly<'a, T>) -> Option<Ordering> {
        Some(self.cmp(other))
    }
}

impl<'a, T> Ord for ExprShapeOnly<'a, T> {
    ghost use Rattle.std.specs.Prelude.{refl};
    ghost use Rattle.std.specs.Cmp.{on_total};
    ghost use Rattle.cedar_expr_shapes.specs.Compared.{trees_are_ordered};
    ghost use Rattle.cedar_expr_shapes.specs.Shapes.{shape_of};

    ghost cmp = { λ a b. tree_cmp (shape_of a) (shape_of b) };

    ghost total = { on_total shape_of trees_are_ordered };

    ghost matches_partial_cmp = { λ a b. refl };

    ghost matches_eq = { λ a b. refl };

    fn cmp(&self, other: &ExprShapeOnly<'a, T>) -> Ordering {
        self.expr.cmp_shape(&other.expr)
    }
}

impl<'a, T> Hash for ExprShapeOnly<'a, T> {
    ghost use Rattle.cedar_expr_shapes.specs.Compared.{trees_are_hashed};
    ghost use Rattle.cedar_expr_shapes.specs.Shapes.{shape_of};

    ghost hash_input = { λ a. tree_input (shape_of a) };

    ghost respects_eq = { λ a b. trees_are_hashed (shape_of a) (shape_of b) };

    fn hash<H: Hasher>(&self, state: &mut H) {
        self.expr.hash_shape(state)
    }
}

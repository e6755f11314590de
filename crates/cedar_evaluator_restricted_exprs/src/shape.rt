//! Restricted expressions compared by their shape alone.

use crate::borrowed::BorrowedRestrictedExpr;
use cedar_expr_shapes::ExprShapeOnly;
use std::alloc::AllocError;

/// A restricted expression that is borrowed, compared and hashed by its shape alone: places and data don't count.
#[derive(Debug, PartialEq, Eq, Hash, Drop)]
pub struct RestrictedExprShapeOnly<'a>(ExprShapeOnly<'a>);

impl<'a> RestrictedExprShapeOnly<'a> {
    ghost use Rattle.std.specs.Prelude.{◌≡◌};
    ghost use Rattle.cedar_evaluator_restricted_exprs.specs.Shapes.{restricted_shape};
    ghost use Rattle.cedar_evaluator_restricted_exprs.specs.Views.{borrowed_of};

    /// The shape of a restricted expression.
    pub fn new(e: BorrowedRestrictedExpr<'a>) -> RestrictedExprShapeOnly<'a>
        ensures { restricted_shape result ≡ borrowed_of e.entry }
    {
        RestrictedExprShapeOnly(ExprShapeOnly::new_from_borrowed(e.expr()))
    }
}

impl<'a> Clone for RestrictedExprShapeOnly<'a> {
    ghost use Rattle.std.specs.Prelude.{◌≡◌};
    ghost use Rattle.cedar_evaluator_restricted_exprs.specs.Shapes.{restricted_shape};

    ghost is_clone = { λ r copy. restricted_shape copy ≡ restricted_shape r };

    fn clone(&self) -> Result<RestrictedExprShapeOnly<'a>, AllocError> {
        Ok(RestrictedExprShapeOnly(self.0.clone()?))
    }
}

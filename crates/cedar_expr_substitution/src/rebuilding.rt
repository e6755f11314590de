//! Building an expression anew, through any builder.

ghost use Rattle.std.specs.Prelude.{◌≡◌, IfOk, IfErr};
ghost use Rattle.std.specs.declared.result.Result.TheVariants.{Ok};
ghost use Rattle.cedar_expr_model.specs.Tree.{Tree};
ghost use Rattle.cedar_expr_trees.specs.Trees.{tree_of};
ghost use Rattle.cedar_expr_builders.specs.Refusing.{built_or_refused, refusal, IsRefusal};

use crate::build::build_with;
use crate::unknowns::KeepUnknowns;
use cedar_expr_builders::BuildFault;
use cedar_expr_builders::expr_builder::ExprBuilder;
use cedar_expr_trees::Expr;
use std::alloc::{AllocError, Global};
use std::convert::Infallible;

/// What a builder can build anew.
pub trait Rebuild {
    /// The tree that is built anew.
    ghost tree: { Self → Tree };

    /// What the builder makes of the expression, each part at its place, with default data. Refuses what the builder refuses
    /// first, children in order and the fields of a record by their names, and fails when out of memory.
    fn try_into_expr<B: ExprBuilder>(
        &self,
        alloc: Global,
    ) -> Result<B::Expr, BuildFault<B::BuildError>>
        ensures made { IfOk result (λ r. built_or_refused B.steps B.refuses (tree self.now) ≡ Ok (B.means r)) }
        ensures refused { IfErr result (λ f. IsRefusal B.says (refusal (built_or_refused B.steps B.refuses (tree self.now))) f) };

    /// What a builder that has no refusals makes of the expression, each part at its place, with default data.
    fn into_expr<B: ExprBuilder<BuildError = Infallible>>(
        &self,
        alloc: Global,
    ) -> Result<B::Expr, AllocError>
        ensures { IfOk result (λ r. built_or_refused B.steps B.refuses (tree self.now) ≡ Ok (B.means r)) }
    {
        match self.try_into_expr::<B>(alloc) {
            Ok(e) => Ok(e),
            Err(BuildFault::OutOfMemory) => Err(AllocError),
            Err(BuildFault::Refused(never)) => match never {},
        }
    }
}

impl<T> Rebuild for Expr<T> {
    ghost tree = { tree_of };

    fn try_into_expr<B: ExprBuilder>(
        &self,
        alloc: Global,
    ) -> Result<B::Expr, BuildFault<B::BuildError>> {
        build_with::<B, T, KeepUnknowns>(alloc, self, &KeepUnknowns)
    }
}

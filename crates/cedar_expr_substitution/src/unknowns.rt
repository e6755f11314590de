//! What is built in the place of unknowns.

ghost use Rattle.std.specs.Prelude.{◌≡◌, Option, IfOk, IfErr};
ghost use Rattle.std.specs.declared.result.Result.TheVariants.{Ok};
ghost use Rattle.cedar_expr_model.specs.Name.{Text};
ghost use Rattle.cedar_expr_model.specs.Tree.{CoreType, Tree, unknown};
ghost use Rattle.cedar_expr_trees.specs.Unknowns.{unknown_of};
ghost use Rattle.cedar_expr_builders.specs.Refusing.{built_or_refused};
ghost use Rattle.cedar_expr_substitution.specs.Outcome.{Refuses};

use cedar_expr_builders::BuildFault;
use cedar_expr_builders::expr_builder::ExprBuilder;
use cedar_expr_trees::Unknown;
use std::alloc::Global;

/// Puts expressions in the place of unknowns.
pub trait BuildUnknown {
    /// The expression in the place of the unknown of this name and annotation.
    ghost placed: { Self → Text → Option CoreType → Tree };

    /// What the builder makes of the expression in the place of the unknown. Refuses what the builder refuses first, and fails
    /// when out of memory.
    fn build_unknown<B: ExprBuilder>(
        &self,
        alloc: Global,
        builder: B,
        unknown: &Unknown,
    ) -> Result<B::Expr, BuildFault<B::BuildError>>
        ensures made { IfOk result (λ r. built_or_refused B.steps B.refuses (placed self.now (unknown_of unknown.now).name (unknown_of unknown.now).annotation) ≡ Ok (B.means r)) }
        ensures refused { IfErr result (λ f. Refuses B.says (built_or_refused B.steps B.refuses (placed self.now (unknown_of unknown.now).name (unknown_of unknown.now).annotation)) f) };
}

/// Leaves unknowns as they are.
#[derive(Debug, Drop)]
pub struct KeepUnknowns;

impl BuildUnknown for KeepUnknowns {
    ghost placed = { λ k n a. unknown n a };

    fn build_unknown<B: ExprBuilder>(
        &self,
        alloc: Global,
        builder: B,
        unknown: &Unknown,
    ) -> Result<B::Expr, BuildFault<B::BuildError>> {
        Ok(builder.unknown(alloc, unknown.clone()?)?)
    }
}

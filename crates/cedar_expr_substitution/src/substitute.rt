//! Values in the place of unknowns.

ghost use Rattle.std.specs.Prelude.{◌≡◌, None, IfOk, IfErr, OnOk};
ghost use Rattle.std.specs.declared.result.Result.TheVariants.{Ok};
ghost use Rattle.cedar_expr_model.specs.Tree.{Tree};
ghost use Rattle.cedar_expr_model.specs.Substitution.{substituted, mismatch, mismatch_at, built_under};
ghost use Rattle.cedar_expr_trees.specs.Trees.{tree_of};
ghost use Rattle.cedar_expr_trees.specs.Unknowns.{unknown_of};
ghost use Rattle.cedar_expr_builders.specs.Refusing.{refusing, refusal, IsRefusal};
ghost use Rattle.cedar_expr_substitution.specs.Bound.{bindings_of, IsMismatch};

use crate::bound::Bound;
use crate::build_with;
use crate::err::SubstitutionError;
use crate::walk::replaced;
use cedar_expr_builders::BuildFault;
use cedar_expr_builders::expr_builder::ExprBuilder;
use cedar_expr_partial::ExtensionCall;
use cedar_expr_trees::{Expr, Unknown};
use cedar_expr_values::{StaticallyTyped, Value};
use std::alloc::{AllocError, Global};
use std::collections::HashMap;
use std::rc::RcStr;

/// What values can be put into.
pub trait Substitute {
    /// The tree that they are put into.
    ghost tree: { Self → Tree };

    /// The expression with the values of these bindings in the place of the unknowns that they bind, made anew through the
    /// constructors. Annotations are not asked. Fails only when out of memory.
    fn substitute<X: ExtensionCall>(
        &self,
        alloc: Global,
        bindings: &HashMap<RcStr, Value<X>>,
    ) -> Result<Expr, AllocError>
        ensures { IfOk result (λ e. tree_of e ≡ substituted (bindings_of X.seen bindings.now) (tree self.now)) };

    /// The expression with the values of these bindings in the place of the unknowns that they bind, made anew through the constructors.
    /// Refuses the leftmost bound unknown that is annotated and isn't bound to a value of its annotation, children in order and the fields
    /// of a record by their names.
    fn substitute_typed<X: ExtensionCall>(
        &self,
        alloc: Global,
        bindings: &HashMap<RcStr, Value<X>>,
    ) -> Result<Expr, SubstitutionError>
        ensures made { IfOk result (λ e. tree_of e ≡ substituted (bindings_of X.seen bindings.now) (tree self.now)) }
        ensures fits { OnOk result (mismatch (bindings_of X.seen bindings.now) (tree self.now) ≡ None) }
        ensures refused { IfErr result (λ f. IsMismatch (mismatch (bindings_of X.seen bindings.now) (tree self.now)) f) };

    /// What the builder makes of the expression under these bindings. That means what it makes of the expression itself, but of
    /// each bound unknown what it makes of its value. Refuses what the builder then refuses first, and fails when out of memory.
    fn substitute_into_expr<B: ExprBuilder, X: ExtensionCall>(
        &self,
        alloc: Global,
        bindings: &HashMap<RcStr, Value<X>>,
    ) -> Result<B::Expr, BuildFault<B::BuildError>>
        ensures made { IfOk result (λ r. built_under (refusing B.steps B.refuses) (bindings_of X.seen bindings.now) (tree self.now) ≡ Ok (B.means r)) }
        ensures refused { IfErr result (λ f. IsRefusal B.says (refusal (built_under (refusing B.steps B.refuses) (bindings_of X.seen bindings.now) (tree self.now))) f) };
}

impl Substitute for Expr {
    ghost tree = { tree_of };

    fn substitute<X: ExtensionCall>(
        &self,
        alloc: Global,
        bindings: &HashMap<RcStr, Value<X>>,
    ) -> Result<Expr, AllocError> {
        replaced(alloc, self, &Bound::new(bindings))
    }

    fn substitute_typed<X: ExtensionCall>(
        &self,
        alloc: Global,
        bindings: &HashMap<RcStr, Value<X>>,
    ) -> Result<Expr, SubstitutionError> {
        ask_annotations(alloc, self, bindings)?;
        Ok(self.substitute(alloc, bindings)?)
    }

    fn substitute_into_expr<B: ExprBuilder, X: ExtensionCall>(
        &self,
        alloc: Global,
        bindings: &HashMap<RcStr, Value<X>>,
    ) -> Result<B::Expr, BuildFault<B::BuildError>> {
        build_with::<B, (), Bound<'_, X>>(alloc, self, &Bound::new(bindings))
    }
}

// Refuses the leftmost unknown that is bound to a value of another type than its annotation.
fn ask_annotations<X: ExtensionCall>(
    alloc: Global,
    e: &Expr,
    bindings: &HashMap<RcStr, Value<X>>,
) -> Result<(), SubstitutionError>
    ensures fits { OnOk result (mismatch (bindings_of X.seen bindings.now) (tree_of e.now) ≡ None) }
    ensures refused { IfErr result (λ f. IsMismatch (mismatch (bindings_of X.seen bindings.now) (tree_of e.now)) f) }
{
    for u in e.unknowns(alloc)? {
        ask_annotation(u, bindings)?;
    }
    Ok(())
}

// Refuses an unknown that is bound to a value of another type than its annotation.
fn ask_annotation<X: ExtensionCall>(
    u: &Unknown,
    bindings: &HashMap<RcStr, Value<X>>,
) -> Result<(), SubstitutionError>
    ensures fits { OnOk result (mismatch_at (unknown_of u.now).name (unknown_of u.now).annotation (bindings_of X.seen bindings.now (unknown_of u.now).name) ≡ None) }
    ensures refused { IfErr result (λ f. IsMismatch (mismatch_at (unknown_of u.now).name (unknown_of u.now).annotation (bindings_of X.seen bindings.now (unknown_of u.now).name)) f) }
{
    let (Some(expected), Some(value)) = (&u.type_annotation, bindings.get(u.name.as_str())) else {
        return Ok(());
    };
    let actual = value.type_of()?;
    if expected.same(&actual) {
        return Ok(());
    }
    Err(SubstitutionError::TypeError {
        name: u.name.clone()?,
        expected: expected.clone()?,
        actual,
    })
}

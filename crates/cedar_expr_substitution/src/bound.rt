//! Unknowns that are bound to values.

ghost use Rattle.std.specs.Prelude.{◌≡◌, IfOk};
ghost use Rattle.cedar_expr_model.specs.Made.{written};
ghost use Rattle.cedar_expr_model.specs.Substitution.{substituted};
ghost use Rattle.cedar_expr_model.specs.Tree.{unknown, slot};
ghost use Rattle.cedar_expr_trees.specs.Trees.{tree_of};
ghost use Rattle.cedar_expr_trees.specs.Unknowns.{unknown_of};
ghost use Rattle.cedar_expr_substitution.specs.Bound.{bindings_of, placed_by};

use crate::replace::Replace;
use crate::{BuildUnknown, KeepUnknowns, build_with};
use cedar_expr_builders::BuildFault;
use cedar_expr_builders::expr_builder::ExprBuilder;
use cedar_expr_leaves::SlotId;
use cedar_expr_partial::{ExtensionCall, FromValue};
use cedar_expr_trees::{Expr, Unknown};
use cedar_expr_values::{ExtensionValue, Value};
use std::alloc::{AllocError, Global};
use std::collections::HashMap;
use std::rc::RcStr;

/// The values of unknowns, by their names. It puts the expression that a value is written as in the place of each unknown that is
/// bound, and leaves the others.
#[derive(Drop)]
pub struct Bound<'a, X: ExtensionValue> {
    bindings: &'a HashMap<RcStr, Value<X>>,
}

impl<'a, X: ExtensionCall> Bound<'a, X> {
    ghost use Rattle.cedar_expr_substitution.specs.Bound.{bound_by};

    /// The unknowns that are bound by this map.
    pub fn new(bindings: &'a HashMap<RcStr, Value<X>>) -> Bound<'a, X>
        ensures { bound_by X.seen result ≡ bindings_of X.seen bindings.entry.now }
    {
        Bound { bindings }
    }
}

impl<X: ExtensionCall> BuildUnknown for Bound<'_, X> {
    ghost use Rattle.cedar_expr_substitution.specs.Bound.{bound_by};

    ghost placed = { λ b. placed_by (bound_by X.seen b) };

    fn build_unknown<B: ExprBuilder>(
        &self,
        alloc: Global,
        builder: B,
        unknown: &Unknown,
    ) -> Result<B::Expr, BuildFault<B::BuildError>> {
        match self.bindings.get(unknown.name.as_str()) {
            Some(value) => {
                let e = Expr::from_value(alloc, value)?;
                build_with::<B, (), KeepUnknowns>(alloc, &e, &KeepUnknowns)
            }
            None => KeepUnknowns.build_unknown(alloc, builder, unknown),
        }
    }
}

impl<X: ExtensionCall> Replace for Bound<'_, X> {
    ghost use Rattle.cedar_expr_substitution.specs.Bound.{bound_by};

    ghost placed = { λ b n a. substituted (bound_by X.seen b) (unknown n a) };

    ghost slotted = { λ b s. slot s };

    fn unknown(&self, alloc: Global, u: &Unknown) -> Result<Expr, AllocError> {
        value_of(alloc, u, self.bindings)
    }

    fn slot(&self, s: SlotId) -> Result<Expr, AllocError> {
        Ok(Expr::slot(s))
    }
}

// The expression of the value that the unknown is bound to, or the unknown.
fn value_of<X: ExtensionCall>(
    alloc: Global,
    u: &Unknown,
    bindings: &HashMap<RcStr, Value<X>>,
) -> Result<Expr, AllocError>
    ensures { IfOk result (λ r. tree_of r ≡ substituted (bindings_of X.seen bindings.now) (unknown (unknown_of u.now).name (unknown_of u.now).annotation)) }
{
    match bindings.get(u.name.as_str()) {
        Some(value) => Expr::from_value(alloc, value),
        None => Ok(Expr::unknown(u.clone()?)),
    }
}

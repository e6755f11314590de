//! Conditions, typed.

ghost use Rattle.std.specs.Prelude.{◌≡◌, true, is_some, None, IfOk, MatchOption};
ghost use Rattle.cedar_expr_trees.specs.Trees.{tree_of, data_of};
ghost use Rattle.cedar_typechecker_policies.specs.Conditions.{IsTypedIfAny};
ghost use Rattle.cedar_typechecker_environments.specs.Settings.{setting_of};

use cedar_expr_trees::Expr;
use cedar_schema_types::Type;
use cedar_typechecker_answers::{Faults, TypecheckAnswer};
use cedar_typechecker_environments::{CapabilitySet, TypingSchema, World};
use cedar_typechecker_operators::typecheck;
use std::alloc::{AllocError, Global};

// The expression, if it has a type.
fn with_type(expr: Expr<Option<Type>>) -> Option<Expr<Option<Type>>>
    ensures { MatchOption result (data_of expr ≡ None) (λ e. (e ≡ expr) × (is_some (data_of expr) ≡ true)) }
{
    if expr.data().is_some() {
        Some(expr)
    } else {
        None
    }
}

/// The condition with the types of its parts, if it has one itself. If it has none, what is wrong with it is appended to the faults.
pub(crate) fn typed_condition<S: TypingSchema>(
    alloc: Global,
    world: &World<'_, S>,
    faults: &mut Faults,
    condition: &Expr,
) -> Result<Option<Expr<Option<Type>>>, AllocError>
    ensures { IfOk result (IsTypedIfAny (setting_of S.schema S.table world.now) (tree_of condition.now)) }
{
    let none = CapabilitySet::new(alloc);
    match typecheck(alloc, world, &none, faults, condition)? {
        TypecheckAnswer::Fail { .. } => Ok(None),
        TypecheckAnswer::Success { expr_type, .. } => Ok(with_type(expr_type)),
    }
}

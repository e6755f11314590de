//! Answers made, read and handed on.

ghost use Rattle.std.specs.Prelude.{◌≡◌, false, None};
ghost use Rattle.std.specs.Option.{option_map_or};
ghost use Rattle.cedar_expr_trees.specs.Trees.{data_of};
ghost use Rattle.cedar_typechecker_environments.specs.Facts.{facts_of};
ghost use Rattle.cedar_typechecker_model.specs.Facts.{no_facts};
ghost use Rattle.cedar_typechecker_answers.specs.Answers.{seen, typed_at};
ghost use Rattle.cedar_typechecker_answers.specs.Surface.{has_type, held, root_type, MapsFacts};

use crate::answer::TypecheckAnswer;
use crate::faults::no_type;
use cedar_expr_trees::Expr;
use cedar_schema_types::Type;
use cedar_typechecker_environments::CapabilitySet;
use std::alloc::{AllocError, Global};

impl<'a> TypecheckAnswer<'a> {
    /// The expression has a type, and gives no facts.
    pub fn success(alloc: Global, expr_type: Expr<Option<Type>>) -> TypecheckAnswer<'a>
        ensures { seen result ≡ typed_at expr_type no_facts (data_of expr_type) }
    {
        TypecheckAnswer::success_with_capability(expr_type, CapabilitySet::new(alloc))
    }

    /// The expression has a type, and these facts hold where it is true.
    pub fn success_with_capability(
        expr_type: Expr<Option<Type>>,
        expr_capability: CapabilitySet<'a>,
    ) -> TypecheckAnswer<'a>
        ensures { seen result ≡ typed_at expr_type (facts_of expr_capability.entry) (data_of expr_type) }
    {
        TypecheckAnswer::Success {
            expr_type,
            expr_capability,
        }
    }

    /// The expression has no type.
    pub fn fail(expr_type: Expr<Option<Type>>) -> TypecheckAnswer<'a>
        ensures { seen result ≡ None }
    {
        TypecheckAnswer::Fail {
            expr_recovery_type: Some(expr_type),
        }
    }

    /// Whether the expression that the answer holds is annotated with this type.
    pub fn contains_type(&self, ty: &Type) -> bool
        ensures { result ≡ option_map_or (λ t. ⟦<Type as PartialEq>⟧.eq t ty.now) (root_type self.now) false }
    {
        let held = match self {
            TypecheckAnswer::Success { expr_type, .. } => Some(expr_type),
            TypecheckAnswer::Fail { expr_recovery_type } => expr_recovery_type.as_ref(),
        };
        match held {
            Some(e) => is_annotated(e, ty),
            None => false,
        }
    }

    /// The expression that the answer holds, if any.
    pub fn into_typed_expr(self) -> Option<Expr<Option<Type>>>
        ensures { result ≡ held self.entry }
    {
        match self {
            TypecheckAnswer::Success { expr_type, .. } => Some(expr_type),
            TypecheckAnswer::Fail { expr_recovery_type } => expr_recovery_type,
        }
    }

    /// Whether the expression has a type.
    pub fn typechecked(&self) -> bool
        ensures { result ≡ has_type self.now }
    {
        match self {
            TypecheckAnswer::Success { .. } => true,
            TypecheckAnswer::Fail { .. } => false,
        }
    }

    /// The answer with what the function makes of its facts. One without type stays as it is.
    pub fn map_capability<F: FnOnce(CapabilitySet<'a>) -> CapabilitySet<'a> + Drop>(
        self,
        f: F,
    ) -> TypecheckAnswer<'a>
        requires { F.IsAlwaysCallable f }
        ensures { MapsFacts (λ c d. F.post f c d) self.entry result }
    {
        match self {
            TypecheckAnswer::Success {
                expr_type,
                expr_capability,
            } => TypecheckAnswer::Success {
                expr_type,
                expr_capability: f(expr_capability),
            },
            TypecheckAnswer::Fail { expr_recovery_type } => TypecheckAnswer::Fail {
                expr_recovery_type,
            },
        }
    }

    /// The answer that the expression has no type.
    pub fn into_fail(self) -> TypecheckAnswer<'a>
        ensures fails { seen result ≡ None }
        ensures expression { held result ≡ held self.entry }
    {
        TypecheckAnswer::Fail {
            expr_recovery_type: self.into_typed_expr(),
        }
    }
}

// Whether the expression is annotated with this type.
fn is_annotated(e: &Expr<Option<Type>>, ty: &Type) -> bool
    ensures { result ≡ option_map_or (λ t. ⟦<Type as PartialEq>⟧.eq t ty.now) (data_of e.now) false }
{
    match e.data() {
        Some(own) => own == ty,
        None => false,
    }
}

//! What typing answers of an expression.

ghost use Rattle.std.specs.Prelude.{◌≡◌, None, option_map, IfOk};
ghost use Rattle.cedar_expr_trees.specs.Trees.{kind_tree};
ghost use Rattle.cedar_schema_types.specs.Types.{type_of};
ghost use Rattle.cedar_typechecker_model.specs.Typing.{plain};
ghost use Rattle.cedar_typechecker_model.specs.Typed.{noted};
ghost use Rattle.cedar_typechecker_answers.specs.Marked.{kind_marks};
ghost use Rattle.cedar_typechecker_answers.specs.Answers.{seen, judgement_seen};

use crate::faults::{Faults, TypingErrorKind, failed};
use cedar_expr_names::Loc;
use cedar_expr_trees::{Expr, ExprKind};
use cedar_schema_types::Type;
use cedar_typechecker_environments::CapabilitySet;
use std::alloc::{AllocError, Global};

/// What typing answers of an expression.
#[derive(Drop)]
pub enum TypecheckAnswer<'a> {
    /// It has a type.
    Success {
        /// The expression, with its type and those of its parts that typing reached.
        expr_type: Expr<Option<Type>>,
        /// What holds where it is true.
        expr_capability: CapabilitySet<'a>,
    },
    /// It has none.
    Fail {
        /// The expression, with a type that it should have, where something is known of that.
        expr_recovery_type: Option<Expr<Option<Type>>>,
    },
}

/// A type, and what holds where the expression is true.
#[derive(Drop)]
pub struct Judged<'a> {
    /// The type.
    pub ty: Type,
    /// What holds.
    pub known: CapabilitySet<'a>,
}

/// The answer of an expression of this kind by its type, if it has one, without facts. If it has none, this is what is wrong.
pub fn plain_node<'a>(
    alloc: Global,
    faults: &mut Faults,
    kind: ExprKind<Option<Type>>,
    place: Option<Loc>,
    ty: Option<Type>,
    wrong: TypingErrorKind,
) -> Result<TypecheckAnswer<'a>, AllocError>
    ensures { IfOk result (λ a. seen a ≡ noted (kind_tree kind) (kind_marks kind) (plain (option_map type_of ty))) }
{
    match ty {
        Some(ty) => Ok(TypecheckAnswer::Success {
            expr_type: Expr::new(kind, place, Some(ty)),
            expr_capability: CapabilitySet::new(alloc),
        }),
        None => failed(faults, wrong, place),
    }
}

/// The answer of an expression of this kind by its judgement, if it has one. If it has none, this is what is wrong.
pub fn judged_node<'a>(
    faults: &mut Faults,
    kind: ExprKind<Option<Type>>,
    place: Option<Loc>,
    judged: Option<Judged<'a>>,
    wrong: TypingErrorKind,
) -> Result<TypecheckAnswer<'a>, AllocError>
    ensures { IfOk result (λ a. seen a ≡ noted (kind_tree kind) (kind_marks kind) (option_map judgement_seen judged.entry)) }
{
    match judged {
        Some(Judged { ty, known }) => Ok(TypecheckAnswer::Success {
            expr_type: Expr::new(kind, place, Some(ty)),
            expr_capability: known,
        }),
        None => failed(faults, wrong, place),
    }
}

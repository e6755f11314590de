//! Why expressions have no type.

ghost use Rattle.std.specs.Prelude.{◌≡◌, true, None, IfOk};
ghost use Rattle.cedar_typechecker_answers.specs.Answers.{seen};
ghost use Rattle.cedar_typechecker_answers.specs.Kinds.{is_typing_kind};

use crate::answer::TypecheckAnswer;
use cedar_expr_names::Loc;
use cedar_store_parts::ValidationErrorKind;
use std::alloc::AllocError;
use std::rc::RcStr;

/// The kinds of what typing finds wrong.
#[derive(Debug, Drop, PartialEq, Eq)]
pub enum TypingErrorKind {
    /// An expression hasn't the type that its place takes.
    UnexpectedType,
    /// Expressions that should have one type in common have none.
    IncompatibleTypes,
    /// An attribute isn't declared, or isn't known to be there.
    UnsafeAttributeAccess(RcStr),
    /// A tag isn't known to be there.
    UnsafeTagAccess,
    /// The empty set has no type of its members.
    EmptySetForbidden,
}

impl TypingErrorKind {
    /// The kind among all kinds of what is wrong with a policy.
    pub fn of_policy(self) -> ValidationErrorKind
        ensures { is_typing_kind result ≡ true }
    {
        match self {
            TypingErrorKind::UnexpectedType => ValidationErrorKind::UnexpectedType,
            TypingErrorKind::IncompatibleTypes => ValidationErrorKind::IncompatibleTypes,
            TypingErrorKind::UnsafeAttributeAccess(a) => ValidationErrorKind::UnsafeAttributeAccess(
                a,
            ),
            TypingErrorKind::UnsafeTagAccess => ValidationErrorKind::UnsafeTagAccess,
            TypingErrorKind::EmptySetForbidden => ValidationErrorKind::EmptySetForbidden,
        }
    }
}

/// What is wrong with an expression, and where.
#[derive(Drop)]
pub struct TypeFault {
    /// What is wrong.
    pub kind: TypingErrorKind,
    /// Where.
    pub source_loc: Option<Loc>,
}

/// What was found wrong so far.
pub type Faults = Vec<TypeFault>;

/// The answer of an expression at this place that has no type. The faults say what is wrong with it.
pub fn failed<'a>(
    faults: &mut Faults,
    kind: TypingErrorKind,
    source_loc: Option<Loc>,
) -> Result<TypecheckAnswer<'a>, AllocError>
    ensures { IfOk result (λ a. seen a ≡ None) }
{
    faults.push(TypeFault { kind, source_loc })?;
    Ok(no_type())
}

/// The answer where a part has no type, which the faults report already.
pub fn no_type<'a>() -> TypecheckAnswer<'a>
    ensures { seen result ≡ None }
{
    TypecheckAnswer::Fail {
        expr_recovery_type: None,
    }
}

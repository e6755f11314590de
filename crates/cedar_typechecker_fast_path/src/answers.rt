//! What is told of an expression.

ghost use Rattle.std.specs.Prelude.{option_map};
ghost use Rattle.cedar_schema_types.specs.Types.{type_of};
ghost use Rattle.cedar_typechecker_answers.specs.Answers.{judgement_seen};
ghost use Rattle.cedar_typechecker_model.specs.Typing.{plain};
ghost use Rattle.cedar_typechecker_fast_path.specs.Within.{TellsOf};

use cedar_schema_types::Type;
use cedar_typechecker_answers::Judged;
use cedar_typechecker_environments::CapabilitySet;
use std::alloc::Global;

/// What is told of an expression that has a type and in which nothing reaches further than the level.
#[derive(Drop)]
pub struct Within<'a> {
    /// Its type.
    pub ty: Type,
    /// What holds where it is true.
    pub known: CapabilitySet<'a>,
    /// At most so many steps lead from the request to what it is; none where no step from it is allowed, or where that isn't found.
    pub steps: Option<u32>,
}

/// An expression of this judgement, if there is one, to which at most so many steps lead.
pub(crate) fn judged_within<'a>(
    judged: Option<Judged<'a>>,
    steps: Option<u32>,
) -> Option<Within<'a>>
    ensures { TellsOf (option_map judgement_seen judged.entry) steps result }
{
    match judged {
        Some(Judged { ty, known }) => Some(Within { ty, known, steps }),
        None => None,
    }
}

/// An expression of this type, if there is one, without facts, to which at most so many steps lead.
pub(crate) fn plainly_within<'a>(
    alloc: Global,
    ty: Option<Type>,
    steps: Option<u32>,
) -> Option<Within<'a>>
    ensures { TellsOf (plain (option_map type_of ty)) steps result }
{
    match ty {
        Some(ty) => Some(Within {
            ty,
            known: CapabilitySet::new(alloc),
            steps,
        }),
        None => None,
    }
}

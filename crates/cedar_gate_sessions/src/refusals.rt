//! Refusals of a session by their numbers.

ghost use Rattle.cedar_expr_model.specs.Name.{Text};
ghost use Rattle.cedar_expr_model.specs.Made.{Made};
ghost use Rattle.cedar_gate_model.specs.Session.{Setup, State, Supplied};
ghost use Rattle.cedar_gate_runs.specs.Refusals.{IsSupplyRefusal, IsBindRefusal, IsAnswerRefusal};
ghost use Rattle.cedar_gate_sessions.specs.Faults.{IsSupplyFault, IsBindFault, IsAnswerFault};

use crate::faults::{AnswerFault, SupplyFault};
use cedar_gate_openings::BindFault;
use cedar_gate_runs::Refusal;

/// The refusal of a supply.
pub(crate) fn refused_supply(fault: SupplyFault) -> Refusal
    ensures { (x : Setup) (s : State) (ps : Supplied) → IsSupplyFault x s ps fault → IsSupplyRefusal x s ps result }
{
    match fault {
        SupplyFault::OutOfMemory => Refusal::OutOfMemory,
        SupplyFault::NotWanted => Refusal::Numbered(1),
        SupplyFault::Lacking => Refusal::Numbered(2),
        SupplyFault::Repeated => Refusal::Numbered(3),
        SupplyFault::WrongEntity => Refusal::Numbered(4),
    }
}

/// The refusal of a binding.
pub(crate) fn refused_binding(fault: BindFault) -> Refusal
    ensures { (x : Setup) (s : State) (n : Text) (m : Made) → IsBindFault x s n m fault → IsBindRefusal x s n m result }
{
    match fault {
        BindFault::OutOfMemory => Refusal::OutOfMemory,
        BindFault::NotOpen => Refusal::Numbered(1),
        BindFault::AgainstAnnotation => Refusal::Numbered(2),
        BindFault::NoEntityOrRecord => Refusal::Numbered(3),
        BindFault::ContextFails => Refusal::Numbered(4),
    }
}

/// The refusal to answer.
pub(crate) fn refused_answer(fault: AnswerFault) -> Refusal
    ensures { (x : Setup) (s : State) → IsAnswerFault x s fault → IsAnswerRefusal x s result }
{
    match fault {
        AnswerFault::OutOfMemory => Refusal::OutOfMemory,
        AnswerFault::NotBound => Refusal::Numbered(1),
        AnswerFault::StillWanted => Refusal::Numbered(2),
        AnswerFault::NotConforming => Refusal::Numbered(3),
    }
}

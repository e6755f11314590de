//! What several parts leave, gathered while each is evaluated.

ghost use Rattle.std.specs.Prelude.{◌≡◌, true, [], IfOk, IfErr};
ghost use Rattle.cedar_evaluator_model.specs.Scope.{Left as ModelLeft};
ghost use Rattle.cedar_evaluator_errors.specs.Outcomes.{Leaves, is_memory};
ghost use Rattle.cedar_evaluator_core.specs.Gathered.{IsLonger};

use cedar_evaluator_errors::EvaluationError;
use cedar_evaluator_reads::Left;
use cedar_expr_trees::Expr;
use std::alloc::Global;
use std::collections::BTreeMap;
use std::rc::{Rc, RcStr};

// The arguments of a call, or the members of a set.
pub(crate) fn members_of(row: &Rc<Vec<Expr>>) -> &[Expr]
    ensures { result.now ≡ row.now.value.items }
{
    row.as_slice()
}

// Room for what so many parts leave.
pub(crate) fn room(alloc: Global, count: usize) -> Result<Vec<Left>, EvaluationError>
    ensures empty { IfOk result (λ v. v.items ≡ []) }
    ensures memory { IfErr result (λ e. is_memory e ≡ true) }
{
    Ok(Vec::with_capacity(alloc, count)?)
}

// Room for what these fields leave.
pub(crate) fn room_for_fields(
    alloc: Global,
    fields: &BTreeMap<RcStr, Expr>,
) -> Result<Vec<Left>, EvaluationError>
    ensures empty { IfOk result (λ v. v.items ≡ []) }
    ensures memory { IfErr result (λ e. is_memory e ≡ true) }
{
    room(alloc, fields.len())
}

// What these parts left, and what the next one did.
pub(crate) fn with_next(
    mut parts: Vec<Left>,
    next: Result<Left, EvaluationError>,
) -> Result<Vec<Left>, EvaluationError>
    ensures { (l : ModelLeft) → Leaves l next → IsLonger parts.items l result }
{
    parts.push(next?)?;
    Ok(parts)
}

//! What is wrong with a policy.

ghost use Rattle.std.specs.Prelude.{◌≡◌, false, IfOk, OnOk};
ghost use Rattle.cedar_expr_model.specs.Lists.{is_nil};
ghost use Rattle.cedar_store_parts.specs.Parts.{id_text};
ghost use Rattle.cedar_typechecker_policies.specs.Checks.{AreErrorsOf};

use cedar_expr_names::Loc;
use cedar_store_parts::{PolicyID, ValidationError};
use cedar_typechecker_answers::{Faults, TypeFault, TypingErrorKind};
use std::alloc::{AllocError, Global};

// Appends the fault to the errors, as one of the policy.
#[tactic(auto, using(crate::proofs::Wrong::one_more, crate::proofs::Wrong::some_there))]
fn add_error(
    errors: &mut Vec<ValidationError>,
    policy_id: &PolicyID,
    fault: TypeFault,
) -> Result<(), AllocError>
    ensures kept { OnOk result (AreErrorsOf (id_text policy_id.now) errors.old.items → AreErrorsOf (id_text policy_id.now) errors.new.items) }
    ensures some { OnOk result (is_nil errors.new.items ≡ false) }
{
    let TypeFault { kind, source_loc } = fault;
    let policy_id = policy_id.clone()?;
    let kind = kind.of_policy();
    errors.push(ValidationError {
        policy_id,
        source_loc,
        kind,
    })?;
    Ok(())
}

// These faults, as errors of the policy.
fn errors_by(
    alloc: Global,
    policy_id: &PolicyID,
    faults: Faults,
) -> Result<Vec<ValidationError>, AllocError>
    ensures { IfOk result (λ es. AreErrorsOf (id_text policy_id.now) es.items) }
{
    let mut errors = Vec::new(alloc);
    for fault in faults {
        add_error(&mut errors, policy_id, fault)?;
    }
    Ok(errors)
}

// What is wrong with the policy, by these faults; where there are none, that its condition at this place is of another type than that
// of truth values.
pub(crate) fn errors_of(
    alloc: Global,
    policy_id: &PolicyID,
    mut faults: Faults,
    source_loc: Option<Loc>,
) -> Result<Vec<ValidationError>, AllocError>
    ensures policy { IfOk result (λ es. AreErrorsOf (id_text policy_id.now) es.items) }
    ensures some { IfOk result (λ es. is_nil es.items ≡ false) }
{
    let kind = TypingErrorKind::UnexpectedType;
    let last = faults.pop().unwrap_or(TypeFault { kind, source_loc });
    let mut errors = errors_by(alloc, policy_id, faults)?;
    add_error(&mut errors, policy_id, last)?;
    Ok(errors)
}

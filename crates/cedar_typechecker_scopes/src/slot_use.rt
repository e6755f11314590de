//! How a part of a policy's scope uses its slot.

ghost use Rattle.std.specs.Prelude.{◌≡◌};
ghost use Rattle.cedar_schema_model.specs.Environment as model;
ghost use Rattle.cedar_store_parts.specs.Parts.{target_of, scope_of};
ghost use Rattle.cedar_typechecker_model.specs.Verdicts.{target_use, scope_use};
ghost use Rattle.cedar_typechecker_scopes.specs.Uses.{use_of};

use cedar_store_parts::{EntityReference, PrincipalOrResourceConstraint};

/// How a part of a scope uses its slot.
#[derive(Clone, Copy, Debug, PartialEq, Eq)]
pub enum SlotUse {
    /// Not at all.
    NoSlot,

    /// It compares its variable with it.
    Equal,

    /// It asks whether its variable is in it.
    Inside,
}

impl SlotUse {
    /// How the constraint uses the slot of its variable.
    pub fn of_constraint(constraint: &PrincipalOrResourceConstraint) -> SlotUse
        ensures { use_of result ≡ scope_use (scope_of constraint.now) }
    {
        match constraint {
            PrincipalOrResourceConstraint::Any | PrincipalOrResourceConstraint::Is(_) => {
                SlotUse::NoSlot
            }
            PrincipalOrResourceConstraint::Eq(target) => used_by(target, SlotUse::Equal),
            PrincipalOrResourceConstraint::In(target)
            | PrincipalOrResourceConstraint::IsIn(_, target) => used_by(target, SlotUse::Inside),
        }
    }
}

// This use, if the target is the slot.
fn used_by(target: &EntityReference, used: SlotUse) -> SlotUse
    ensures { use_of result ≡ target_use (use_of used) (target_of target.now) }
{
    match target {
        EntityReference::EUID(_) => SlotUse::NoSlot,
        EntityReference::Slot(_) => used,
    }
}

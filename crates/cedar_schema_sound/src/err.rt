//! Why a built schema is refused.

ghost use Rattle.std.specs.Prelude.{◌≡◌, Some, IfOk};
ghost use Rattle.cedar_expr_names.specs.Views.{type_name_of, uid_of};
ghost use Rattle.cedar_schema_model.specs.Unsound.{type_left_out, action_left_out};
ghost use Rattle.cedar_schema_sound.specs.Refusals.{refusal};
ghost use Rattle.cedar_schema_sound.specs.Views.{fault_seen};

use crate::unsound::Unsound;
use cedar_expr_names::{EntityType, EntityUID, Name};
use std::alloc::AllocError;
use thiserror::Error;

/// Why a built schema is refused: there is no memory, or what is wrong with it.
#[derive(Debug, Drop, Error)]
pub enum UnsoundSchemaError {
    /// There is no memory for the refusal.
    #[error("out of memory")]
    OutOfMemory,

    /// An entity type that is referred to, or descends from another, isn't declared.
    #[error("entity type `{0}` is not declared")]
    UndeclaredType(EntityType),

    /// An extension type isn't known.
    #[error("unknown extension type `{0}`")]
    UnknownExtensionType(Name),

    /// An entity type has the last name of the types of actions.
    #[error("entity type `{0}` has the name of the types of actions")]
    TypeNamedAction(EntityType),

    /// From an entity type another descends, and from that a third that doesn't descend from the first.
    #[error("entity type `{left_out}` is left out of what descends from `{ancestor}`")]
    TypeLeftOut {
        /// The first.
        ancestor: EntityType,
        /// The third.
        left_out: EntityType,
    },

    /// An action that descends from another isn't declared.
    #[error("action `{0}` is not declared")]
    UndeclaredAction(EntityUID),

    /// The type of an action has another last name than the types of actions.
    #[error("action `{0}` has a type that is not one of actions")]
    ActionOfOtherType(EntityUID),

    /// The context of an action isn't a closed record.
    #[error("the context of action `{0}` is not a closed record")]
    ContextNotClosedRecord(EntityUID),

    /// An action descends from itself.
    #[error("action `{0}` descends from itself")]
    ActionBelowItself(EntityUID),

    /// From an action another descends, and from that a third that doesn't descend from the first.
    #[error("action `{left_out}` is left out of what descends from `{ancestor}`")]
    ActionLeftOut {
        /// The first.
        ancestor: EntityUID,
        /// The third.
        left_out: EntityUID,
    },
}

impl UnsoundSchemaError {
    // The error that tells of a copy of this. Fails only when out of memory.
    pub(crate) fn of_unsound(unsound: Unsound<'_>) -> Result<UnsoundSchemaError, AllocError>
        ensures { IfOk result (λ e. refusal e ≡ Some (fault_seen unsound.entry)) }
    {
        match unsound {
            Unsound::UndeclaredType(ty) => Ok(UnsoundSchemaError::UndeclaredType(ty.clone()?)),
            Unsound::UnknownExtensionType(name) => {
                Ok(UnsoundSchemaError::UnknownExtensionType(name.clone()?))
            }
            Unsound::TypeNamedAction(ty) => Ok(UnsoundSchemaError::TypeNamedAction(ty.clone()?)),
            Unsound::TypeLeftOut { ancestor, left_out } => type_left_out(ancestor, left_out),
            Unsound::UndeclaredAction(uid) => Ok(UnsoundSchemaError::UndeclaredAction(
                uid.clone()?,
            )),
            Unsound::ActionOfOtherType(uid) => Ok(UnsoundSchemaError::ActionOfOtherType(
                uid.clone()?,
            )),
            Unsound::ContextNotClosedRecord(uid) => {
                Ok(UnsoundSchemaError::ContextNotClosedRecord(uid.clone()?))
            }
            Unsound::ActionBelowItself(uid) => Ok(UnsoundSchemaError::ActionBelowItself(
                uid.clone()?,
            )),
            Unsound::ActionLeftOut { ancestor, left_out } => action_left_out(ancestor, left_out),
        }
    }
}

// The error that tells of an entity type that is left out.
fn type_left_out(
    ancestor: &EntityType,
    left_out: &EntityType,
) -> Result<UnsoundSchemaError, AllocError>
    ensures { IfOk result (λ e. refusal e ≡ Some (type_left_out (type_name_of ancestor.now) (type_name_of left_out.now))) }
{
    let ancestor = ancestor.clone()?;
    let left_out = left_out.clone()?;
    Ok(UnsoundSchemaError::TypeLeftOut { ancestor, left_out })
}

// The error that tells of an action that is left out.
fn action_left_out(
    ancestor: &EntityUID,
    left_out: &EntityUID,
) -> Result<UnsoundSchemaError, AllocError>
    ensures { IfOk result (λ e. refusal e ≡ Some (action_left_out (uid_of ancestor.now) (uid_of left_out.now))) }
{
    let ancestor = ancestor.clone()?;
    let left_out = left_out.clone()?;
    Ok(UnsoundSchemaError::ActionLeftOut { ancestor, left_out })
}

impl From<AllocError> for UnsoundSchemaError {
    ghost use Rattle.cedar_schema_sound.specs.declared.err.UnsoundSchemaError.TheVariants.{OutOfMemory};

    ghost from_gives = { λ _ e. e ≡ OutOfMemory };

    fn from(_error: AllocError) -> UnsoundSchemaError {
        UnsoundSchemaError::OutOfMemory
    }
}

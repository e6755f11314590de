//! Why no schema is built.

ghost use Rattle.std.specs.Prelude.{◌≡◌};
ghost use Rattle.cedar_schema_builder.specs.Faults.{schema_error_number};

use cedar_expr_leaves::ConditionalName;
use cedar_expr_names::{EntityUID, InternalName, Name, ReservedNameError};
use std::rc::RcStr;
use thiserror::Error;

/// Why no schema is built of fragments.
#[derive(Debug, Drop, Error)]
pub enum SchemaError {
    /// There is no memory for it.
    #[error("out of memory")]
    OutOfMemory,

    /// An entity type is declared twice.
    #[error("duplicate entity type `{ty}`")]
    DuplicateEntityType {
        /// The entity type.
        ty: InternalName,
    },

    /// A common type is declared twice.
    #[error("duplicate common type `{name}`")]
    DuplicateCommonType {
        /// The common type.
        name: InternalName,
    },

    /// An action is declared twice.
    #[error("duplicate action `{uid}`")]
    DuplicateAction {
        /// The action.
        uid: EntityUID,
    },

    /// None of the types that a name may stand for is declared.
    #[error("failed to resolve type: {}", .undefined_type.raw())]
    TypeNotDefined {
        /// The name.
        undefined_type: ConditionalName,
    },

    /// None of the actions that a parent may stand for is declared.
    #[error("failed to resolve action: {}::\"{id}\"", .ty.raw())]
    ActionNotDefined {
        /// The name of the parent's type.
        ty: ConditionalName,
        /// The parent's id.
        id: RcStr,
    },

    /// A common type uses itself, by way of others or straight.
    #[error("cycle in common type references: {name}")]
    CycleInCommonTypeReferences {
        /// The common type.
        name: InternalName,
    },

    /// An action descends from itself.
    #[error("cycle in action hierarchy containing `{uid}`")]
    CycleInActionHierarchy {
        /// The action.
        uid: EntityUID,
    },

    /// An entity type has the last name that is left to the types of actions.
    #[error("entity type `{name}` is declared as the type of actions")]
    ActionEntityTypeDeclared {
        /// The entity type.
        name: InternalName,
    },

    /// The context of an action is no record.
    #[error("context of `{uid}` is not a record")]
    ContextNotRecord {
        /// The action.
        uid: EntityUID,
    },

    /// A reserved name stands where none may.
    #[error(transparent)]
    ReservedName(ReservedNameError),

    /// A type of a namespace has the last name of a type of the empty namespace.
    #[error("definition of `{shadowing_def}` illegally shadows a type of the empty namespace")]
    TypeShadowing {
        /// The type.
        shadowing_def: InternalName,
    },

    /// An action of a namespace has the id of an action of the empty namespace.
    #[error("definition of `{shadowing_def}` illegally shadows an action of the empty namespace")]
    ActionShadowing {
        /// The action.
        shadowing_def: EntityUID,
    },

    /// A type names an extension type that isn't one of those that are known.
    #[error("unknown extension type `{name}`")]
    UnknownExtensionType {
        /// The extension type.
        name: Name,
    },
}

impl SchemaError {
    /// The number of the refusal: 0 for memory.
    pub fn number(&self) -> u32
        ensures { result ≡ schema_error_number self.now }
    {
        match self {
            SchemaError::OutOfMemory => 0,
            SchemaError::DuplicateEntityType { ty: _ } => 1,
            SchemaError::DuplicateCommonType { name: _ } => 2,
            SchemaError::DuplicateAction { uid: _ } => 3,
            SchemaError::TypeNotDefined { undefined_type: _ } => 4,
            SchemaError::ActionNotDefined { ty: _, id: _ } => 5,
            SchemaError::CycleInCommonTypeReferences { name: _ } => 6,
            SchemaError::CycleInActionHierarchy { uid: _ } => 7,
            SchemaError::ActionEntityTypeDeclared { name: _ } => 8,
            SchemaError::ContextNotRecord { uid: _ } => 9,
            SchemaError::ReservedName(_) => 10,
            SchemaError::TypeShadowing { shadowing_def: _ } => 11,
            SchemaError::ActionShadowing { shadowing_def: _ } => 11,
            SchemaError::UnknownExtensionType { name: _ } => 12,
        }
    }
}

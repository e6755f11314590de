//! What may be wrong with a built schema.

use cedar_expr_names::{EntityType, EntityUID, Name};

/// What may be wrong with a built schema.
#[derive(Debug, Clone, Copy)]
pub enum Unsound<'a> {
    /// An entity type that is referred to, or descends from another, isn't declared.
    UndeclaredType(&'a EntityType),
    /// An extension type isn't known.
    UnknownExtensionType(&'a Name),
    /// An entity type has the last name of the types of actions.
    TypeNamedAction(&'a EntityType),
    /// From an entity type another descends, and from that a third that doesn't descend from the first.
    TypeLeftOut {
        /// The first.
        ancestor: &'a EntityType,
        /// The third.
        left_out: &'a EntityType,
    },
    /// An action that descends from another isn't declared.
    UndeclaredAction(&'a EntityUID),
    /// The type of an action has another last name than the types of actions.
    ActionOfOtherType(&'a EntityUID),
    /// The context of an action isn't a closed record.
    ContextNotClosedRecord(&'a EntityUID),
    /// An action descends from itself.
    ActionBelowItself(&'a EntityUID),
    /// From an action another descends, and from that a third that doesn't descend from the first.
    ActionLeftOut {
        /// The first.
        ancestor: &'a EntityUID,
        /// The third.
        left_out: &'a EntityUID,
    },
}

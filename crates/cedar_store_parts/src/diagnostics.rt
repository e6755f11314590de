//! What validation finds.

use crate::PolicyID;
use cedar_expr_names::{EntityType, EntityUID, Loc, Name};
use std::rc::RcStr;

/// What is wrong with a policy.
#[derive(Drop, Debug, PartialEq, Eq, PartialOrd, Ord, Hash)]
pub struct ValidationError {
    /// The policy's id.
    pub policy_id: PolicyID,

    /// The place of what is wrong.
    pub source_loc: Option<Loc>,

    /// What is wrong there.
    pub kind: ValidationErrorKind,
}

/// The kinds of what is wrong with a policy.
#[derive(Debug, PartialEq, Eq, PartialOrd, Ord, Hash, Drop)]
pub enum ValidationErrorKind {
    /// An entity type isn't declared.
    UnrecognizedEntityType(EntityType),

    /// A uid of an action type is no declared action.
    UnrecognizedActionId(EntityUID),

    /// A uid of an enumerated type is no declared member.
    InvalidEnumEntity(EntityUID),

    /// An expression hasn't the type that its place takes.
    UnexpectedType,

    /// Expressions that should have one type in common have none.
    IncompatibleTypes,

    /// An attribute isn't declared, or isn't known to be there.
    UnsafeAttributeAccess(RcStr),

    /// A tag isn't known to be there.
    UnsafeTagAccess,

    /// The entity's type declares no tags.
    NoTagsAllowed,

    /// No function has this name.
    UndefinedFunction(Name),

    /// A function takes another number of arguments.
    WrongNumberArguments,

    /// The empty set has no type of its members.
    EmptySetForbidden,

    /// A constructor is called on what is no literal.
    NonLitExtConstructor,

    /// A step into the store is deeper than the level allows: it wants this level at least, or, where there is none, no
    /// level allows it.
    EntityDerefLevelViolation(Option<u64>),
}

/// What is odd about a policy.
#[derive(Debug, Drop, PartialEq, Eq, PartialOrd, Ord, Hash)]
pub enum ValidationWarning {
    /// The policy is never satisfied.
    ImpossiblePolicy {
        /// The policy's id.
        policy_id: PolicyID,

        /// The policy's place.
        source_loc: Option<Loc>,
    },

    /// The scope fits no declared action with its types.
    InvalidActionApplication {
        /// The policy's id.
        policy_id: PolicyID,

        /// The policy's place.
        source_loc: Option<Loc>,

        /// Whether it would fit with `in` in the place of `==` in the part of the principal.
        would_in_fix_principal: bool,

        /// Whether it would fit with `in` in the place of `==` in the part of the resource.
        would_in_fix_resource: bool,
    },
}

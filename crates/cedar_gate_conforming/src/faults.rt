//! The faults of entities and requests.

use std::alloc::AllocError;
use thiserror::Error;

/// Why an entity or a request doesn't conform to a schema.
#[derive(Clone, Copy, Debug, PartialEq, Eq, Error)]
pub enum ConformFault {
    /// Out of memory.
    #[error("out of memory")]
    OutOfMemory,
    /// The entity type, or the action, isn't declared.
    #[error("the entity type or the action is not declared")]
    Undeclared,
    /// The action isn't declared for the type of the principal, or of the resource.
    #[error("the action does not apply to the type of the principal or of the resource")]
    NotListed,
    /// The enumerated entity type doesn't have this member.
    #[error("not a member of an enumerated entity type")]
    NoMember,
    /// A required attribute is missing.
    #[error("a required attribute is missing")]
    LacksAttribute,
    /// An attribute isn't declared.
    #[error("an attribute is not declared")]
    UndeclaredAttribute,
    /// The value of an attribute isn't of its type.
    #[error("the value of an attribute is not of its type")]
    AttributeValue,
    /// There are tags where none may be, or the value of one isn't of their type.
    #[error("a tag is not allowed, or not of its type")]
    Tag,
    /// An ancestor may not be one, or is missing.
    #[error("an ancestor is not allowed, or missing")]
    Ancestor,
    /// The context isn't of its type.
    #[error("the context is not of its type")]
    Context,
    /// A part is unknown, or no value yet.
    #[error("a part is unknown or no value yet")]
    OpenPart,
}

impl ConformFault {
    ghost use Rattle.std.specs.Prelude.{◌≡◌, Some, Contains};
    ghost use Rattle.cedar_schema_model.specs.Conforming.{ConformFault as ModelFault, numbered_faults};
    ghost use Rattle.cedar_gate_conforming.specs.Faults.{fault_number, fault_seen};

    /// The number of the fault.
    pub fn number(self) -> u32
        ensures number { result ≡ fault_number self }
        ensures numbered { (f : ModelFault) → fault_seen self ≡ Some f → Contains numbered_faults (result, f) }
    {
        match self {
            ConformFault::OutOfMemory => 0,
            ConformFault::Undeclared => 1,
            ConformFault::NotListed => 2,
            ConformFault::NoMember => 3,
            ConformFault::LacksAttribute => 4,
            ConformFault::UndeclaredAttribute => 5,
            ConformFault::AttributeValue => 6,
            ConformFault::Tag => 7,
            ConformFault::Ancestor => 8,
            ConformFault::Context => 9,
            ConformFault::OpenPart => 10,
        }
    }
}

impl From<AllocError> for ConformFault {
    ghost use Rattle.std.specs.Prelude.{◌≡◌};
    ghost use Rattle.cedar_gate_conforming.specs.declared.faults.ConformFault.TheVariants.{OutOfMemory};

    ghost from_gives = { λ _ e. e ≡ OutOfMemory };

    fn from(_error: AllocError) -> ConformFault {
        ConformFault::OutOfMemory
    }
}

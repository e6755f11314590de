//! The slots of templates.

ghost use Rattle.std.specs.Prelude.{◌≡◌, Some};
ghost use Rattle.cedar_expr_leaves.specs.Slots.{slot_of, slot_text, is_principal, is_resource};
ghost use Rattle.cedar_expr_model.specs.Tree.{principal_slot, resource_slot};

use cedar_expr_names::Loc;
use std::fmt;
use std::fmt::{Display, Formatter, Write};

/// The name of a slot: that of the principal or that of the resource. The principal's comes first.
#[derive(Debug, Clone, Copy, PartialEq, Eq, PartialOrd, Ord, Hash)]
pub struct SlotId(ValidSlotId);

// The slots that there are.
#[derive(Debug, Clone, Copy, PartialEq, Eq, PartialOrd, Ord, Hash)]
enum ValidSlotId {
    Principal,
    Resource,
}

impl SlotId {
    /// The slot of the principal.
    pub fn principal() -> SlotId
        ensures { slot_of result ≡ principal_slot }
    {
        SlotId(ValidSlotId::Principal)
    }

    /// The slot of the resource.
    pub fn resource() -> SlotId
        ensures { slot_of result ≡ resource_slot }
    {
        SlotId(ValidSlotId::Resource)
    }

    /// Whether this is the slot of the principal.
    pub fn is_principal(&self) -> bool
        ensures { result ≡ is_principal (slot_of self.now) }
    {
        matches!(self.0, ValidSlotId::Principal)
    }

    /// Whether this is the slot of the resource.
    pub fn is_resource(&self) -> bool
        ensures { result ≡ is_resource (slot_of self.now) }
    {
        matches!(self.0, ValidSlotId::Resource)
    }
}

impl Display for SlotId {
    ghost output = { λ s. Some (slot_text (slot_of s)) };

    fn fmt<W: Write>(&self, f: &mut Formatter<W>) -> fmt::Result {
        match self.0 {
            ValidSlotId::Principal => f.write_str("?principal"),
            ValidSlotId::Resource => f.write_str("?resource"),
        }
    }
}

/// A slot that stands in a template, at a place.
#[derive(Debug, Clone, Copy, PartialEq, Eq, PartialOrd, Ord, Hash)]
pub struct Slot {
    /// Which slot it is.
    pub id: SlotId,

    /// Where it stands.
    pub loc: Option<Loc>,
}

//! The ids of policies, and their effects.

ghost use Rattle.std.specs.Prelude.{◌≡◌, IfOk, Some};
ghost use Rattle.std.specs.Rc.{rc_str_bytes};
ghost use Rattle.std.specs.Str.{bytes_eq};
ghost use Rattle.cedar_store_parts.specs.Parts.{id_text};

use std::alloc::{AllocError, Global};
use std::fmt;
use std::fmt::{Display, Formatter, Write};
use std::rc::RcStr;

/// The id of a policy: any text.
#[derive(Debug, PartialEq, Eq, PartialOrd, Ord, Hash)]
pub struct PolicyID(RcStr);

// prover: see ARCHITECTURE
impl Drop for PolicyID {
    fn drop(self) {
        let PolicyID(_) = self;
    }
}

impl PolicyID {
    /// The id of a copy of this text. Fails only when out of memory.
    pub fn from_string(alloc: Global, text: &str) -> Result<PolicyID, AllocError>
        ensures { IfOk result (λ id. id_text id ≡ text.now) }
    {
        let text = RcStr::from_str(alloc, text)?;
        Ok(PolicyID(text))
    }

    /// The id of this text, without a copy.
    pub fn from_smolstr(text: RcStr) -> PolicyID
        ensures { id_text result ≡ rc_str_bytes text }
    {
        PolicyID(text)
    }

    /// The text of the id.
    pub fn as_str(&self) -> &str
        ensures { result.now ≡ id_text self.now }
    {
        self.0.as_str()
    }

    /// Whether this is the same id as the other: what `==` answers.
    pub fn same(&self, other: &PolicyID) -> bool
        ensures { result ≡ bytes_eq (id_text self.now) (id_text other.now) }
    {
        self == other
    }
}

impl Clone for PolicyID {
    ghost is_clone = { λ id copy. id_text copy ≡ id_text id };

    /// A copy of the id that shares its text.
    fn clone(&self) -> Result<PolicyID, AllocError> {
        let text = self.0.clone()?;
        Ok(PolicyID(text))
    }
}

impl Display for PolicyID {
    ghost output = { λ id. Some (id_text id) };

    fn fmt<W: Write>(&self, f: &mut Formatter<W>) -> fmt::Result {
        Display::fmt(&self.0, f)
    }
}

/// What a policy does where it is satisfied.
#[derive(Clone, Copy, Debug, PartialEq, Eq, PartialOrd, Ord, Hash)]
pub enum Effect {
    /// It permits.
    Permit,

    /// It forbids.
    Forbid,
}

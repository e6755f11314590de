//! Identifiers that are not reserved.

ghost use Rattle.std.specs.Prelude.{◌≡◌, false, IfOk, IfErr, Some};
ghost use Rattle.std.specs.Str.{bytes_eq};
ghost use Rattle.std.specs.Rc.{rc_str_bytes};
ghost use Rattle.cedar_expr_model.specs.Name.{reserved};
ghost use Rattle.cedar_expr_names.specs.Ids.{id_text};

use crate::{Id, InternalName, NameError, ReservedNameError};
use std::alloc::{AllocError, Global};
use std::fmt;
use std::fmt::{Display, Formatter, Write};
use std::rc::RcStr;

/// An identifier other than the reserved `__cedar`.
#[derive(Debug, PartialEq, Eq, PartialOrd, Ord, Hash)]
pub struct UnreservedId {
    id: Id,
    ghost unreserved: { bytes_eq reserved (id_text id) ≡ false },
}

// prover: see ARCHITECTURE
impl Drop for UnreservedId {
    fn drop(self) {
        let UnreservedId { id: _ } = self;
    }
}

impl UnreservedId {
    ghost use Rattle.cedar_expr_names.specs.Views.{unreserved_id_text};
    ghost use Rattle.cedar_expr_names.specs.Refusals.{RefusesUnreservedIdentifier};

    /// Reads an identifier that is not reserved, which has to be the whole text. Refuses any other text and the reserved
    /// one, and fails when out of memory.
    pub fn from_normalized_str(alloc: Global, text: &str) -> Result<UnreservedId, NameError>
        ensures read { IfOk result (λ u. unreserved_id_text u ≡ text.now) }
        ensures unreserved { IfOk result (λ u. bytes_eq reserved text.now ≡ false) }
        ensures refused { IfErr result (λ e. RefusesUnreservedIdentifier text.now e) }
    {
        let id = Id::from_normalized_str(alloc, text)?;
        UnreservedId::try_from_id(alloc, id)
    }

    /// The identifier, unless it is the reserved one. Fails only when out of memory where there is none for the refusal.
    pub fn try_from_id(alloc: Global, id: Id) -> Result<UnreservedId, NameError>
        ensures made { IfOk result (λ u. unreserved_id_text u ≡ id_text id) }
        ensures unreserved { IfOk result (λ u. bytes_eq reserved (id_text id) ≡ false) }
        ensures refused { IfErr result (λ e. RefusesUnreservedIdentifier (id_text id) e) }
    {
        if id.is_reserved() {
            let name = InternalName::unqualified_name(alloc, id).map_err(
                |_| NameError::OutOfMemory,
            )?;
            return Err(NameError::Reserved(ReservedNameError::new(name)));
        }
        Ok(UnreservedId { id })
    }

    // The identifier, which the caller knows not to be reserved.
    pub(crate) fn new_unchecked(id: Id) -> UnreservedId
        requires { bytes_eq reserved (id_text id) ≡ false }
        ensures { unreserved_id_text result ≡ id_text id }
    {
        UnreservedId { id }
    }

    /// The identifier as one of any kind.
    pub fn as_id(&self) -> &Id
        ensures value { id_text result.now ≡ unreserved_id_text self.now }
        ensures unreserved { bytes_eq reserved (id_text result.now) ≡ false }
    {
        &self.id
    }

    /// The identifier's text.
    pub fn as_str(&self) -> &str
        ensures value { result.now ≡ unreserved_id_text self.now }
        ensures unreserved { bytes_eq reserved result.now ≡ false }
    {
        self.id.as_str()
    }

    /// The identifier's text, without its copy.
    pub fn into_smolstr(self) -> RcStr
        ensures { rc_str_bytes result ≡ unreserved_id_text self }
    {
        self.into_id().into_smolstr()
    }

    // The identifier.
    fn into_id(self) -> Id
        ensures { id_text result ≡ unreserved_id_text self }
    {
        let UnreservedId { id } = self;
        id
    }
}

impl From<UnreservedId> for Id {
    ghost use Rattle.cedar_expr_names.specs.Views.{unreserved_id_text};

    ghost from_gives = { λ u i. id_text i ≡ unreserved_id_text u };

    fn from(value: UnreservedId) -> Id {
        value.into_id()
    }
}

impl Clone for UnreservedId {
    ghost use Rattle.cedar_expr_names.specs.Views.{unreserved_id_text};

    ghost is_clone = { λ u copy. unreserved_id_text copy ≡ unreserved_id_text u };

    fn clone(&self) -> Result<UnreservedId, AllocError> {
        let id = self.id.clone()?;
        Ok(UnreservedId { id })
    }
}

impl Display for UnreservedId {
    ghost use Rattle.cedar_expr_names.specs.Views.{unreserved_id_text};

    ghost output = { λ u. Some (unreserved_id_text u) };

    fn fmt<W: Write>(&self, f: &mut Formatter<W>) -> fmt::Result {
        Display::fmt(&self.id, f)
    }
}

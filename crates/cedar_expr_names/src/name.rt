//! Names that are not reserved.

ghost use Rattle.std.specs.Prelude.{◌≡◌, false};
ghost use Rattle.cedar_expr_model.specs.Name.{is_reserved};
ghost use Rattle.cedar_expr_names.specs.Parts.{name_of};

use crate::{Id, InternalName, Loc, NameError, ReservedNameError, UnreservedId};
use std::alloc::{AllocError, Global};
use std::fmt;
use std::fmt::{Display, Formatter, Write};

/// A name without the reserved part `__cedar`.
#[derive(Debug, PartialEq, Eq, PartialOrd, Ord, Hash)]
pub struct Name {
    internal: InternalName,
    ghost unreserved: { is_reserved (name_of internal) ≡ false },
}

// prover: see ARCHITECTURE
impl Drop for Name {
    fn drop(self) {
        let Name { internal: _ } = self;
    }
}

impl Name {
    ghost use Rattle.std.specs.Prelude.{true, IfOk, IfErr, Some, None};
    ghost use Rattle.std.specs.Str.{bytes_eq};
    ghost use Rattle.cedar_expr_model.specs.Name.{name_eq, name_read, name_text, is_identifier, reserved};
    ghost use Rattle.cedar_expr_model.specs.Names.{is_unqualified, unqualified, qualified};
    ghost use Rattle.cedar_expr_names.specs.Views.{id_text, unreserved_id_text, name_loc, plain_name_of, refused_name_of, plain_name_loc};
    ghost use Rattle.cedar_expr_names.specs.Namespaces.{space_of, plain_space_of};
    ghost use Rattle.cedar_expr_names.specs.Refusals.{RefusesPlainText, RefusesUnreservedIdentifier, RefusesReserved};

    /// Reads a name, which has to be the whole text. Refuses any other text and a reserved name, and fails when out of memory.
    pub fn from_normalized_str(alloc: Global, text: &str) -> Result<Name, NameError>
        ensures read { IfOk result (λ n. name_read text.now ≡ Some (plain_name_of n)) }
        ensures shown { IfOk result (λ n. name_text (plain_name_of n) ≡ text.now) }
        ensures unreserved { IfOk result (λ n. is_reserved (plain_name_of n) ≡ false) }
        ensures place { IfOk result (λ n. plain_name_loc n ≡ None) }
        ensures refused { IfErr result (λ e. RefusesPlainText text.now e) }
    {
        let internal = InternalName::from_normalized_str(alloc, text)?;
        Name::try_from_internal(internal).map_err(NameError::Reserved)
    }

    /// The name, unless it is reserved: then it is handed back in the refusal.
    pub fn try_from_internal(internal: InternalName) -> Result<Name, ReservedNameError>
        ensures made { IfOk result (λ n. plain_name_of n ≡ name_of internal) }
        ensures place { IfOk result (λ n. plain_name_loc n ≡ name_loc internal) }
        ensures unreserved { IfOk result (λ n. is_reserved (name_of internal) ≡ false) }
        ensures reserved { IfErr result (λ e. is_reserved (name_of internal) ≡ true) }
        ensures refused { IfErr result (λ e. refused_name_of e ≡ name_of internal) }
    {
        if internal.is_reserved() {
            return Err(ReservedNameError::new(internal));
        }
        Ok(Name { internal })
    }

    /// A copy of the name, unless it is reserved: then a copy of it is in the refusal. Fails only when out of memory.
    pub fn try_from_borrowed(internal: &InternalName) -> Result<Name, NameError>
        ensures made { IfOk result (λ n. plain_name_of n ≡ name_of internal.now) }
        ensures place { IfOk result (λ n. plain_name_loc n ≡ name_loc internal.now) }
        ensures unreserved { IfOk result (λ n. is_reserved (name_of internal.now) ≡ false) }
        ensures refused { IfErr result (λ e. RefusesReserved (name_of internal.now) e) }
    {
        let internal = internal.clone().map_err(|_| NameError::OutOfMemory)?;
        Name::try_from_internal(internal).map_err(NameError::Reserved)
    }

    /// The name of one identifier, without a path or a place. Fails only when out of memory.
    pub fn unqualified_name(alloc: Global, id: UnreservedId) -> Result<Name, AllocError>
        ensures value { IfOk result (λ n. plain_name_of n ≡ unqualified (unreserved_id_text id)) }
        ensures place { IfOk result (λ n. plain_name_loc n ≡ None) }
    {
        let internal = InternalName::unqualified_name(alloc, Id::from(id))?;
        Ok(Name { internal })
    }

    /// Reads a name of one identifier, which has to be the whole text. Refuses any other text and the reserved one, and
    /// fails when out of memory.
    pub fn parse_unqualified_name(alloc: Global, text: &str) -> Result<Name, NameError>
        ensures read { IfOk result (λ n. plain_name_of n ≡ unqualified text.now) }
        ensures identifies { IfOk result (λ n. is_identifier text.now ≡ true) }
        ensures unreserved { IfOk result (λ n. bytes_eq reserved text.now ≡ false) }
        ensures place { IfOk result (λ n. plain_name_loc n ≡ None) }
        ensures refused { IfErr result (λ e. RefusesUnreservedIdentifier text.now e) }
    {
        let id = UnreservedId::from_normalized_str(alloc, text)?;
        Name::unqualified_name(alloc, id).map_err(|_| NameError::OutOfMemory)
    }

    /// A copy of the name's last identifier. Fails only when out of memory.
    pub fn basename(&self) -> Result<UnreservedId, AllocError>
        ensures { IfOk result (λ u. unreserved_id_text u ≡ (plain_name_of self.now).base) }
    {
        let id = self.internal.basename().clone()?;
        Ok(UnreservedId::new_unchecked(id))
    }

    /// The name's last identifier.
    pub fn basename_as_ref(&self) -> &Id
        ensures value { id_text result.now ≡ (plain_name_of self.now).base }
        ensures unreserved { bytes_eq reserved (id_text result.now) ≡ false }
    {
        self.internal.basename()
    }

    /// Whether the name has no path.
    pub fn is_unqualified(&self) -> bool
        ensures { result ≡ is_unqualified (plain_name_of self.now) }
    {
        self.internal.is_unqualified()
    }

    /// The name's place.
    pub fn loc(&self) -> Option<Loc>
        ensures { result ≡ plain_name_loc self.now }
    {
        self.internal.loc()
    }

    /// The name in a namespace, if there is one; a name that has a namespace stays as it is. Fails only when out of memory.
    pub fn qualify_with(
        &self,
        alloc: Global,
        namespace: Option<&InternalName>,
    ) -> Result<InternalName, AllocError>
        ensures value { IfOk result (λ n. name_of n ≡ qualified (space_of namespace.entry) (plain_name_of self.now)) }
        ensures place { IfOk result (λ n. name_loc n ≡ plain_name_loc self.now) }
    {
        self.internal.qualify_with(alloc, namespace)
    }

    /// The name in a namespace that is not reserved, if there is one; a name that has a namespace stays as it is. Answers
    /// out of memory.
    pub fn qualify_with_name(
        &self,
        alloc: Global,
        namespace: Option<&Name>,
    ) -> Result<Name, AllocError>
        ensures value { IfOk result (λ n. plain_name_of n ≡ qualified (plain_space_of namespace.entry) (plain_name_of self.now)) }
        ensures place { IfOk result (λ n. plain_name_loc n ≡ plain_name_loc self.now) }
    {
        let internal = self.internal.qualify_with_name(alloc, namespace)?;
        Ok(Name { internal })
    }

    /// Whether this is the same name as the other: what `==` answers, which doesn't look at places.
    pub fn same(&self, other: &Name) -> bool
        ensures { result ≡ name_eq (plain_name_of self.now) (plain_name_of other.now) }
    {
        self == other
    }

    /// The name as one of any kind.
    pub fn as_internal(&self) -> &InternalName
        ensures value { name_of result.now ≡ plain_name_of self.now }
        ensures place { name_loc result.now ≡ plain_name_loc self.now }
        ensures unreserved { is_reserved (name_of result.now) ≡ false }
    {
        &self.internal
    }

    // The name as one that may be reserved.
    fn into_internal(self) -> InternalName
        ensures value { name_of result ≡ plain_name_of self }
        ensures place { name_loc result ≡ plain_name_loc self }
    {
        let Name { internal } = self;
        internal
    }
}

impl From<Name> for InternalName {
    ghost use Rattle.cedar_expr_names.specs.Views.{name_loc, plain_name_of, plain_name_loc};

    ghost from_gives = { λ n i. (name_of i ≡ plain_name_of n) × (name_loc i ≡ plain_name_loc n) };

    fn from(value: Name) -> InternalName {
        value.into_internal()
    }
}

impl TryFrom<Name> for UnreservedId {
    type Error = NameError;

    ghost use Rattle.cedar_expr_names.specs.Views.{unreserved_id_text, plain_name_of};
    ghost use Rattle.cedar_expr_names.specs.Namespaces.{GivesBase};

    ghost try_from_gives = { λ n r. GivesBase unreserved_id_text (plain_name_of n) r };

    fn try_from(value: Name) -> Result<UnreservedId, NameError> {
        let id = Id::try_from(value.into_internal())?;
        Ok(UnreservedId::new_unchecked(id))
    }
}

impl Clone for Name {
    ghost use Rattle.cedar_expr_names.specs.Views.{plain_name_of, plain_name_loc};

    ghost is_clone = { λ n copy. (plain_name_of copy ≡ plain_name_of n) × (plain_name_loc copy ≡ plain_name_loc n) };

    fn clone(&self) -> Result<Name, AllocError> {
        let internal = self.internal.clone()?;
        Ok(Name { internal })
    }
}

impl Display for Name {
    ghost use Rattle.std.specs.Prelude.{Some};
    ghost use Rattle.cedar_expr_model.specs.Name.{name_text};
    ghost use Rattle.cedar_expr_names.specs.Views.{plain_name_of};

    ghost output = { λ n. Some (name_text (plain_name_of n)) };

    fn fmt<W: Write>(&self, f: &mut Formatter<W>) -> fmt::Result {
        Display::fmt(&self.internal, f)
    }
}

//! Names as a schema writes them.

ghost use Rattle.std.specs.Prelude.{◌≡◌, [], map, true, IfOk, IfErr, Some, None};
ghost use Rattle.cedar_expr_model.specs.Name.{name_eq, name_read, name_text, is_identifier};
ghost use Rattle.cedar_expr_model.specs.Names.{is_unqualified, unqualified, qualified, possibilities};
ghost use Rattle.cedar_expr_names.specs.Views.{id_text, unreserved_id_text, name_of, name_loc};
ghost use Rattle.cedar_expr_names.specs.Namespaces.{space_of, plain_space_of};
ghost use Rattle.cedar_expr_names.specs.Refusals.{RefusesIdentifier, RefusesText};
ghost use Rattle.cedar_expr_leaves.specs.Views.{raw_name_of, raw_name_loc, possible_names, possible_places, written_name, written_place, referred};

use crate::{ConditionalName, ReferenceType};
use cedar_expr_names::{Id, InternalName, Loc, Name, NameError, UnreservedId};
use std::alloc::{AllocError, Global};
use std::fmt;
use std::fmt::{Display, Formatter, Write};

/// A name of a schema before it is resolved.
#[derive(Debug, PartialEq, Eq, PartialOrd, Ord, Hash, Drop)]
pub struct RawName(InternalName);

impl RawName {
    /// The raw name of one identifier, at a place. Fails only when out of memory.
    pub fn new(alloc: Global, id: Id, loc: Option<Loc>) -> Result<RawName, AllocError>
        ensures base { IfOk result (λ n. (raw_name_of n).base ≡ id_text id) }
        ensures path { IfOk result (λ n. (raw_name_of n).path ≡ []) }
        ensures place { IfOk result (λ n. raw_name_loc n ≡ loc) }
    {
        let internal = InternalName::new(alloc, id, Vec::new(alloc), loc)?;
        Ok(RawName(internal))
    }

    /// The raw name of one identifier that is not reserved, at a place. Fails only when out of memory.
    pub fn new_from_unreserved(
        alloc: Global,
        id: UnreservedId,
        loc: Option<Loc>,
    ) -> Result<RawName, AllocError>
        ensures value { IfOk result (λ n. raw_name_of n ≡ unqualified (unreserved_id_text id)) }
        ensures place { IfOk result (λ n. raw_name_loc n ≡ loc) }
    {
        RawName::new(alloc, Id::from(id), loc)
    }

    /// This name, as one that is not yet resolved.
    pub fn from_name(name: InternalName) -> RawName
        ensures value { raw_name_of result ≡ name_of name }
        ensures place { raw_name_loc result ≡ name_loc name }
    {
        RawName(name)
    }

    /// Reads a raw name, which has to be the whole text. Refuses any other text, and fails when out of memory.
    pub fn from_normalized_str(alloc: Global, text: &str) -> Result<RawName, NameError>
        ensures read { IfOk result (λ n. name_read text.now ≡ Some (raw_name_of n)) }
        ensures shown { IfOk result (λ n. name_text (raw_name_of n) ≡ text.now) }
        ensures place { IfOk result (λ n. raw_name_loc n ≡ None) }
        ensures refused { IfErr result (λ e. RefusesText text.now e) }
    {
        let internal = InternalName::from_normalized_str(alloc, text)?;
        Ok(RawName(internal))
    }

    /// Reads a raw name of one identifier, which has to be the whole text. Refuses any other text, and fails when out of memory.
    pub fn parse_unqualified_name(alloc: Global, text: &str) -> Result<RawName, NameError>
        ensures read { IfOk result (λ n. raw_name_of n ≡ unqualified text.now) }
        ensures identifies { IfOk result (λ n. is_identifier text.now ≡ true) }
        ensures place { IfOk result (λ n. raw_name_loc n ≡ None) }
        ensures refused { IfErr result (λ e. RefusesIdentifier text.now e) }
    {
        let internal = InternalName::parse_unqualified_name(alloc, text)?;
        Ok(RawName(internal))
    }

    /// Whether the name has no path.
    pub fn is_unqualified(&self) -> bool
        ensures { result ≡ is_unqualified (raw_name_of self.now) }
    {
        self.0.is_unqualified()
    }

    /// The name's place.
    pub fn loc(&self) -> Option<Loc>
        ensures { result ≡ raw_name_loc self.now }
    {
        self.0.loc()
    }

    /// The name in a namespace, if there is one; a name that has a namespace stays as it is. Fails only when out of memory.
    pub fn qualify_with(
        self,
        alloc: Global,
        namespace: Option<&InternalName>,
    ) -> Result<InternalName, AllocError>
        ensures value { IfOk result (λ n. name_of n ≡ qualified (space_of namespace.entry) (raw_name_of self)) }
        ensures place { IfOk result (λ n. name_loc n ≡ raw_name_loc self) }
    {
        self.0.qualify_with(alloc, namespace)
    }

    /// The name in a namespace that is not reserved, if there is one; a name that has a namespace stays as it is. Fails only
    /// when out of memory.
    pub fn qualify_with_name(
        self,
        alloc: Global,
        namespace: Option<&Name>,
    ) -> Result<InternalName, AllocError>
        ensures value { IfOk result (λ n. name_of n ≡ qualified (plain_space_of namespace.entry) (raw_name_of self)) }
        ensures place { IfOk result (λ n. name_loc n ≡ raw_name_loc self) }
    {
        self.0.qualify_with_name(alloc, namespace)
    }

    /// What the name may stand for where it is written in this namespace, if there is one: itself in the namespace, and then
    /// itself; a name that has a namespace, itself alone. Fails only when out of memory.
    pub fn conditionally_qualify_with(
        self,
        alloc: Global,
        namespace: Option<&InternalName>,
        reference_type: ReferenceType,
    ) -> Result<ConditionalName, AllocError>
        ensures names { IfOk result (λ c. possible_names c ≡ possibilities (space_of namespace.entry) (raw_name_of self)) }
        ensures places { IfOk result (λ c. possible_places c ≡ map (λ n. raw_name_loc self) (possible_names c)) }
        ensures raw { IfOk result (λ c. written_name c ≡ raw_name_of self) }
        ensures place { IfOk result (λ c. written_place c ≡ raw_name_loc self) }
        ensures referred { IfOk result (λ c. referred c ≡ reference_type) }
    {
        if !self.is_unqualified() {
            return ConditionalName::unconditional(alloc, self.0, reference_type);
        }
        match namespace {
            None => ConditionalName::unconditional(alloc, self.0, reference_type),
            Some(space) => {
                let first = self.0.qualify_with(alloc, Some(space))?;
                ConditionalName::either(alloc, first, self, reference_type)
            }
        }
    }

    /// Whether this is the same raw name as the other: what `==` answers, which doesn't look at places.
    pub fn same(&self, other: &RawName) -> bool
        ensures { result ≡ name_eq (raw_name_of self.now) (raw_name_of other.now) }
    {
        self == other
    }

    /// The raw name as one of any kind.
    pub fn as_internal(&self) -> &InternalName
        ensures value { name_of result.now ≡ raw_name_of self.now }
        ensures place { name_loc result.now ≡ raw_name_loc self.now }
    {
        &self.0
    }
}

impl Clone for RawName {
    ghost is_clone = { λ n copy. (raw_name_of copy ≡ raw_name_of n) × (raw_name_loc copy ≡ raw_name_loc n) };

    fn clone(&self) -> Result<RawName, AllocError> {
        let internal = self.0.clone()?;
        Ok(RawName(internal))
    }
}

impl Display for RawName {
    ghost output = { λ n. Some (name_text (raw_name_of n)) };

    fn fmt<W: Write>(&self, f: &mut Formatter<W>) -> fmt::Result {
        Display::fmt(&self.0, f)
    }
}

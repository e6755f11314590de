//! Names of any kind: identifiers joined by `::`.

ghost use Rattle.std.specs.Prelude.{◌≡◌, map};
ghost use Rattle.std.specs.Rc.{rc_str_bytes};
ghost use Rattle.cedar_expr_model.specs.Name.{joined};
ghost use Rattle.cedar_expr_names.specs.Ids.{id_text};

use crate::byte_order::{text_eq, text_order};
use crate::reading::{any_reserved, copied_parts, joined_text, kept_text, read_part, split_part};
use crate::{Id, Loc, Name, NameError, is_normalized_ident};
use std::alloc::{AllocError, Global};
use std::cmp::Ordering;
use std::fmt;
use std::fmt::{Display, Formatter, Write};
use std::rc::{Rc, RcStr};
use std::slice::Iter;

// What a name is. Texts are compared, in byte order; places don't count.
#[derive(Debug)]
#[derive_where(Hash)]
struct NameParts {
    text: RcStr,
    #[derive_where(skip(Hash))]
    path: Vec<Id>,
    #[derive_where(skip(Hash))]
    id: Id,
    #[derive_where(skip(Hash))]
    loc: Option<Loc>,
    ghost written: { rc_str_bytes text ≡ joined (map id_text path.items) (id_text id) },
}

// prover: see ARCHITECTURE
impl Drop for NameParts {
    fn drop(self) {
        let NameParts {
            text: _,
            path: _,
            id: _,
            loc: _,
        } = self;
    }
}

impl PartialEq for NameParts {
    ghost use Rattle.std.specs.Str.{bytes_eq};
    ghost use Rattle.std.specs.Cmp.{on_per, partial_equiv_from_equiv};
    ghost use Rattle.std.specs.Cmp.Lexicographic.{nat_list_eq_equiv};

    ghost eq = { λ a b. bytes_eq (rc_str_bytes a.text) (rc_str_bytes b.text) };

    ghost laws = { on_per (λ p. rc_str_bytes p.text) (partial_equiv_from_equiv nat_list_eq_equiv) };

    fn eq(&self, other: &NameParts) -> bool {
        text_eq(self.text.as_str(), other.text.as_str())
    }
}

impl Eq for NameParts {
    ghost use Rattle.std.specs.Cmp.{on_equiv};
    ghost use Rattle.std.specs.Cmp.Lexicographic.{nat_list_eq_equiv};

    ghost laws = { on_equiv (λ p. rc_str_bytes p.text) nat_list_eq_equiv };
}

impl PartialOrd for NameParts {
    ghost use Rattle.std.specs.Prelude.{Some};
    ghost use Rattle.std.specs.Ordering.{nat_cmp};
    ghost use Rattle.std.specs.Cmp.{on_po};
    ghost use Rattle.std.specs.Cmp.Lexicographic.{slice_cmp, texts_po};

    ghost partial_cmp = { λ a b. Some (slice_cmp nat_cmp (rc_str_bytes a.text) (rc_str_bytes b.text)) };

    ghost laws = { on_po (λ p. rc_str_bytes p.text) texts_po };

    fn partial_cmp(&self, other: &NameParts) -> Option<Ordering> {
        Some(self.cmp(other))
    }
}

impl Ord for NameParts {
    ghost use Rattle.std.specs.Prelude.{refl};
    ghost use Rattle.std.specs.Ordering.{nat_cmp};
    ghost use Rattle.std.specs.Cmp.{on_total};
    ghost use Rattle.std.specs.Cmp.Lexicographic.{slice_cmp, nat_list_cmp_total, texts_ties};

    ghost cmp = { λ a b. slice_cmp nat_cmp (rc_str_bytes a.text) (rc_str_bytes b.text) };

    ghost total = { on_total (λ p. rc_str_bytes p.text) nat_list_cmp_total };

    ghost matches_partial_cmp = { λ a b. refl };

    ghost matches_eq = { λ a b. texts_ties (rc_str_bytes a.text) (rc_str_bytes b.text) };

    fn cmp(&self, other: &NameParts) -> Ordering {
        text_order(self.text.as_str(), other.text.as_str())
    }
}

/// A name of any kind: a path of identifiers and its base, joined by `::`. Names are compared by their texts, in byte
/// order; places don't count. A clone shares what the name holds.
#[derive(Debug, PartialEq, Eq, PartialOrd, Ord, Hash)]
pub struct InternalName {
    content: Rc<NameParts>,
}

// prover: see ARCHITECTURE
impl Drop for InternalName {
    fn drop(self) {
        let InternalName { content: _ } = self;
    }
}

impl InternalName {
    ghost use Rattle.std.specs.Prelude.{[], true, IfOk, IfErr, Some, None, string_bytes};
    ghost use Rattle.std.specs.Slice.Iter.{iter_rest};
    ghost use Rattle.cedar_expr_model.specs.Name.{name_read, name_text, name_eq, is_identifier, is_reserved};
    ghost use Rattle.cedar_expr_model.specs.Names.{is_unqualified, unqualified, within, qualified, cedar_name};
    ghost use Rattle.cedar_expr_names.specs.Parts.{name_of, name_loc};
    ghost use Rattle.cedar_expr_names.specs.Namespaces.{namespace_text, space_of, plain_space_of};
    ghost use Rattle.cedar_expr_model.specs.UidOrder.{name_cmp};
    ghost use Rattle.cedar_expr_names.specs.Refusals.{RefusesIdentifier, RefusesText};

    /// The name of a base under a path, at a place. Fails only when out of memory.
    pub fn new(
        alloc: Global,
        basename: Id,
        path: Vec<Id>,
        loc: Option<Loc>,
    ) -> Result<InternalName, AllocError>
        ensures base { IfOk result (λ n. (name_of n).base ≡ id_text basename) }
        ensures path { IfOk result (λ n. (name_of n).path ≡ map id_text path.items) }
        ensures place { IfOk result (λ n. name_loc n ≡ loc) }
    {
        let text = kept_text(alloc, path.as_slice(), &basename)?;
        let parts = NameParts {
            text,
            path,
            id: basename,
            loc,
        };
        let content = Rc::new(alloc, parts)?;
        Ok(InternalName { content })
    }

    /// Reads a name, which has to be the whole text. Refuses any other text, and fails when out of memory.
    pub fn from_normalized_str(alloc: Global, text: &str) -> Result<InternalName, NameError>
        ensures read { IfOk result (λ n. name_read text.now ≡ Some (name_of n)) }
        ensures shown { IfOk result (λ n. name_text (name_of n) ≡ text.now) }
        ensures place { IfOk result (λ n. name_loc n ≡ None) }
        ensures refused { IfErr result (λ e. RefusesText text.now e) }
    {
        if is_normalized_ident(text) {
            return match InternalName::of_identifier(alloc, text) {
                Ok(name) => Ok(name),
                Err(AllocError) => Err(NameError::OutOfMemory),
            };
        }
        let mut path = Vec::new(alloc);
        let mut rest = text;
        while let Some((part, next)) = split_part(rest) {
            path = read_part(alloc, path, part)?;
            rest = next;
        }
        let base = Id::from_normalized_str(alloc, rest)?;
        InternalName::new(alloc, base, path, None).map_err(|_| NameError::OutOfMemory)
    }

    // The name that an identifier alone writes. Fails only when out of memory.
    #[tactic(auto, using(crate::proofs::PartByPart::alone, crate::proofs::PartByPart::alone_shown))]
    fn of_identifier(alloc: Global, text: &str) -> Result<InternalName, AllocError>
        requires { is_identifier text.now ≡ true }
        ensures read { IfOk result (λ n. name_read text.now ≡ Some (name_of n)) }
        ensures shown { IfOk result (λ n. name_text (name_of n) ≡ text.now) }
        ensures place { IfOk result (λ n. name_loc n ≡ None) }
    {
        let id = Id::of_text(alloc, text)?;
        let name = InternalName::unqualified_name(alloc, id)?;
        Ok(name)
    }

    /// Reads a name of one identifier, which has to be the whole text. Refuses any other text, and fails when out of memory.
    pub fn parse_unqualified_name(alloc: Global, text: &str) -> Result<InternalName, NameError>
        ensures read { IfOk result (λ n. name_of n ≡ unqualified text.now) }
        ensures identifies { IfOk result (λ n. is_identifier text.now ≡ true) }
        ensures place { IfOk result (λ n. name_loc n ≡ None) }
        ensures refused { IfErr result (λ e. RefusesIdentifier text.now e) }
    {
        let id = Id::from_normalized_str(alloc, text)?;
        InternalName::unqualified_name(alloc, id).map_err(|_| NameError::OutOfMemory)
    }

    /// The reserved name `__cedar`. Fails only when out of memory.
    pub fn cedar(alloc: Global) -> Result<InternalName, AllocError>
        ensures value { IfOk result (λ n. name_of n ≡ cedar_name) }
        ensures place { IfOk result (λ n. name_loc n ≡ None) }
    {
        let id = Id::reserved_id(alloc)?;
        InternalName::unqualified_name(alloc, id)
    }

    /// The name of this base in a namespace, at a place. Fails only when out of memory.
    pub fn type_in_namespace(
        alloc: Global,
        basename: Id,
        namespace: InternalName,
        loc: Option<Loc>,
    ) -> Result<InternalName, AllocError>
        ensures value { IfOk result (λ n. name_of n ≡ within (name_of namespace) (id_text basename)) }
        ensures place { IfOk result (λ n. name_loc n ≡ loc) }
    {
        let path = copied_parts(
            alloc,
            namespace.content.path.as_slice(),
            &namespace.content.id,
        )?;
        InternalName::new(alloc, basename, path, loc)
    }

    /// The name's text, from which it is read back.
    pub fn as_str(&self) -> &str
        ensures value { result.now ≡ name_text (name_of self.now) }
        ensures reads_back { name_read result.now ≡ Some (name_of self.now) }
    {
        self.content.text.as_str()
    }

    /// The name's last identifier.
    pub fn basename(&self) -> &Id
        ensures { id_text result.now ≡ (name_of self.now).base }
    {
        &self.content.id
    }

    /// Whether the name has no path.
    pub fn is_unqualified(&self) -> bool
        ensures { result ≡ is_unqualified (name_of self.now) }
    {
        self.content.path.is_empty()
    }

    /// Goes over the identifiers of the name's path, in order.
    pub fn namespace_components(&self) -> Iter<'_, Id>
        ensures { map id_text (iter_rest result) ≡ (name_of self.now).path }
    {
        self.content.path.iter()
    }

    /// The text of the name's namespace: empty where it has none. Fails only when out of memory.
    pub fn namespace(&self, alloc: Global) -> Result<String, AllocError>
        ensures { IfOk result (λ t. string_bytes t ≡ namespace_text (name_of self.now)) }
    {
        match self.content.path.as_slice() {
            [] => Ok(String::new(alloc)),
            [path @ .., base] => joined_text(alloc, path, base),
        }
    }

    /// The name in a namespace, if there is one; a name that has a namespace stays as it is. Fails only when out of memory.
    pub fn qualify_with(
        &self,
        alloc: Global,
        namespace: Option<&InternalName>,
    ) -> Result<InternalName, AllocError>
        ensures value { IfOk result (λ n. name_of n ≡ qualified (space_of namespace.entry) (name_of self.now)) }
        ensures place { IfOk result (λ n. name_loc n ≡ name_loc self.now) }
    {
        if !self.is_unqualified() {
            return self.clone();
        }
        match namespace {
            None => self.clone(),
            Some(space) => {
                let path = copied_parts(alloc, space.content.path.as_slice(), &space.content.id)?;
                let base = self.content.id.clone()?;
                InternalName::new(alloc, base, path, self.content.loc)
            }
        }
    }

    /// The name in a namespace that is not reserved, if there is one; a name that has a namespace stays as it is. Answers
    /// out of memory.
    pub fn qualify_with_name(
        &self,
        alloc: Global,
        namespace: Option<&Name>,
    ) -> Result<InternalName, AllocError>
        ensures value { IfOk result (λ n. name_of n ≡ qualified (plain_space_of namespace.entry) (name_of self.now)) }
        ensures place { IfOk result (λ n. name_loc n ≡ name_loc self.now) }
    {
        match namespace {
            None => self.qualify_with(alloc, None),
            Some(space) => self.qualify_with(alloc, Some(space.as_internal())),
        }
    }

    /// Whether a part of the name is the reserved `__cedar`.
    pub fn is_reserved(&self) -> bool
        ensures { result ≡ is_reserved (name_of self.now) }
    {
        any_reserved(self.content.path.as_slice()) || self.content.id.is_reserved()
    }

    /// Whether this is the same name as the other: what `==` answers, which doesn't look at places.
    pub fn same(&self, other: &InternalName) -> bool
        ensures { result ≡ name_eq (name_of self.now) (name_of other.now) }
    {
        self == other
    }

    /// The order of this name and the other: what `cmp` answers, that of their texts in byte order.
    pub fn order(&self, other: &InternalName) -> Ordering
        ensures { result ≡ name_cmp (name_of self.now) (name_of other.now) }
    {
        self.cmp(other)
    }

    /// The name's place.
    pub fn loc(&self) -> Option<Loc>
        ensures { result ≡ name_loc self.now }
    {
        self.content.loc
    }

    /// The name of one identifier, without a path or a place. Fails only when out of memory.
    pub fn unqualified_name(alloc: Global, id: Id) -> Result<InternalName, AllocError>
        ensures base { IfOk result (λ n. (name_of n).base ≡ id_text id) }
        ensures path { IfOk result (λ n. (name_of n).path ≡ []) }
        ensures place { IfOk result (λ n. name_loc n ≡ None) }
    {
        InternalName::new(alloc, id, Vec::new(alloc), None)
    }
}

impl TryFrom<InternalName> for Id {
    type Error = NameError;

    ghost use Rattle.cedar_expr_names.specs.Parts.{name_of};
    ghost use Rattle.cedar_expr_names.specs.Namespaces.{GivesBase};

    ghost try_from_gives = { λ n r. GivesBase id_text (name_of n) r };

    fn try_from(value: InternalName) -> Result<Id, NameError> {
        if !value.is_unqualified() {
            return Err(NameError::NotNormalized);
        }
        value.basename().clone().map_err(|_| NameError::OutOfMemory)
    }
}

impl Clone for InternalName {
    ghost use Rattle.cedar_expr_names.specs.Parts.{name_of, name_loc};

    ghost is_clone = { λ n copy. (name_of copy ≡ name_of n) × (name_loc copy ≡ name_loc n) };

    fn clone(&self) -> Result<InternalName, AllocError> {
        let content = self.content.clone()?;
        Ok(InternalName { content })
    }
}

impl Display for InternalName {
    ghost use Rattle.std.specs.Prelude.{Some};
    ghost use Rattle.cedar_expr_model.specs.Name.{name_text};
    ghost use Rattle.cedar_expr_names.specs.Parts.{name_of};

    ghost output = { λ n. Some (name_text (name_of n)) };

    fn fmt<W: Write>(&self, f: &mut Formatter<W>) -> fmt::Result {
        Display::fmt(&self.content.text, f)
    }
}

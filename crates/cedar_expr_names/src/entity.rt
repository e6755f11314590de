//! Entity types, ids and uids.

ghost use Rattle.std.specs.Prelude.{◌≡◌, false, IfOk, IfErr, Some, None};
ghost use Rattle.std.specs.Str.{bytes_eq};
ghost use Rattle.std.specs.Rc.{rc_str_bytes};
ghost use Rattle.cedar_expr_model.specs.Name.{name_read, name_text, name_eq, is_reserved};
ghost use Rattle.cedar_expr_model.specs.Uid.{uid_eq, uid_text, quoted};
ghost use Rattle.cedar_expr_names.specs.Views.{plain_name_of, plain_name_loc, type_name_of, type_loc, eid_text, uid_of, uid_loc};
ghost use Rattle.cedar_expr_model.specs.UidOrder.{name_cmp, uid_cmp};
ghost use Rattle.cedar_expr_names.specs.Refusals.{RefusesPlainText};

use crate::byte_order::{text_eq, text_order};
use crate::{Loc, Name, NameError, Quoted};
use std::alloc::{AllocError, Global};
use std::cmp::Ordering;
use std::fmt;
use std::fmt::{Display, Formatter, Write};
use std::rc::RcStr;

/// The type of an entity: a name that is not reserved.
#[derive(Debug, PartialEq, Eq, PartialOrd, Ord, Hash)]
pub struct EntityType(Name);

// prover: see ARCHITECTURE
impl Drop for EntityType {
    fn drop(self) {
        let EntityType(_) = self;
    }
}

impl EntityType {
    /// The entity type of this name.
    pub fn from_name(name: Name) -> EntityType
        ensures value { type_name_of result ≡ plain_name_of name }
        ensures place { type_loc result ≡ plain_name_loc name }
    {
        EntityType(name)
    }

    /// Reads an entity type, whose name has to be the whole text. Refuses any other text and a reserved name, and fails when out of memory.
    pub fn from_normalized_str(alloc: Global, text: &str) -> Result<EntityType, NameError>
        ensures read { IfOk result (λ t. name_read text.now ≡ Some (type_name_of t)) }
        ensures shown { IfOk result (λ t. name_text (type_name_of t) ≡ text.now) }
        ensures unreserved { IfOk result (λ t. is_reserved (type_name_of t) ≡ false) }
        ensures place { IfOk result (λ t. type_loc t ≡ None) }
        ensures refused { IfErr result (λ e. RefusesPlainText text.now e) }
    {
        let name = Name::from_normalized_str(alloc, text)?;
        Ok(EntityType(name))
    }

    /// Whether this is the same type as the other: what `==` answers, which doesn't look at places.
    pub fn same(&self, other: &EntityType) -> bool
        ensures { result ≡ name_eq (type_name_of self.now) (type_name_of other.now) }
    {
        self == other
    }

    /// The order of this type and the other: what `cmp` answers, that of the texts of their names in byte order.
    pub fn order(&self, other: &EntityType) -> Ordering
        ensures { result ≡ name_cmp (type_name_of self.now) (type_name_of other.now) }
    {
        self.0.cmp(&other.0)
    }

    /// The type's name.
    pub fn name(&self) -> &Name
        ensures value { plain_name_of result.now ≡ type_name_of self.now }
        ensures place { plain_name_loc result.now ≡ type_loc self.now }
    {
        &self.0
    }
}

impl Clone for EntityType {
    ghost is_clone = { λ t copy. (type_name_of copy ≡ type_name_of t) × (type_loc copy ≡ type_loc t) };

    fn clone(&self) -> Result<EntityType, AllocError> {
        let name = self.0.clone()?;
        Ok(EntityType(name))
    }
}

impl Display for EntityType {
    ghost output = { λ t. Some (name_text (type_name_of t)) };

    fn fmt<W: Write>(&self, f: &mut Formatter<W>) -> fmt::Result {
        Display::fmt(&self.0, f)
    }
}

/// The id of an entity: any text.
#[derive(Debug, Hash)]
pub struct Eid(RcStr);

// prover: see ARCHITECTURE
impl Drop for Eid {
    fn drop(self) {
        let Eid(_) = self;
    }
}

impl Eid {
    /// The id of this text.
    pub fn new(text: RcStr) -> Eid
        ensures { eid_text result ≡ rc_str_bytes text }
    {
        Eid(text)
    }

    /// The id of a copy of this text. Fails only when out of memory.
    pub fn from_str(alloc: Global, text: &str) -> Result<Eid, AllocError>
        ensures { IfOk result (λ e. eid_text e ≡ text.now) }
    {
        let text = RcStr::from_str(alloc, text)?;
        Ok(Eid(text))
    }

    /// Whether this is the same id as the other: what `==` answers, which doesn't look at places.
    pub fn same(&self, other: &Eid) -> bool
        ensures { result ≡ bytes_eq (eid_text self.now) (eid_text other.now) }
    {
        self == other
    }

    /// The id's text.
    pub fn as_str(&self) -> &str
        ensures { result.now ≡ eid_text self.now }
    {
        self.0.as_str()
    }
}

impl PartialEq for Eid {
    ghost use Rattle.std.specs.Cmp.{on_per, partial_equiv_from_equiv};
    ghost use Rattle.std.specs.Cmp.Lexicographic.{nat_list_eq_equiv};

    ghost eq = { λ a b. bytes_eq (eid_text a) (eid_text b) };

    ghost laws = { on_per eid_text (partial_equiv_from_equiv nat_list_eq_equiv) };

    fn eq(&self, other: &Eid) -> bool {
        text_eq(self.0.as_str(), other.0.as_str())
    }
}

impl Eq for Eid {
    ghost use Rattle.std.specs.Cmp.{on_equiv};
    ghost use Rattle.std.specs.Cmp.Lexicographic.{nat_list_eq_equiv};

    ghost laws = { on_equiv eid_text nat_list_eq_equiv };
}

impl PartialOrd for Eid {
    ghost use Rattle.std.specs.Ordering.{nat_cmp};
    ghost use Rattle.std.specs.Cmp.{on_po};
    ghost use Rattle.std.specs.Cmp.Lexicographic.{slice_cmp, texts_po};

    ghost partial_cmp = { λ a b. Some (slice_cmp nat_cmp (eid_text a) (eid_text b)) };

    ghost laws = { on_po eid_text texts_po };

    fn partial_cmp(&self, other: &Eid) -> Option<Ordering> {
        Some(text_order(self.0.as_str(), other.0.as_str()))
    }
}

impl Ord for Eid {
    ghost use Rattle.std.specs.Prelude.{refl};
    ghost use Rattle.std.specs.Ordering.{nat_cmp};
    ghost use Rattle.std.specs.Cmp.{on_total};
    ghost use Rattle.std.specs.Cmp.Lexicographic.{slice_cmp, nat_list_cmp_total, texts_ties};

    ghost cmp = { λ a b. slice_cmp nat_cmp (eid_text a) (eid_text b) };

    ghost total = { on_total eid_text nat_list_cmp_total };

    ghost matches_partial_cmp = { λ a b. refl };

    ghost matches_eq = { λ a b. texts_ties (eid_text a) (eid_text b) };

    fn cmp(&self, other: &Eid) -> Ordering {
        text_order(self.0.as_str(), other.0.as_str())
    }
}

impl Clone for Eid {
    ghost is_clone = { λ e copy. eid_text copy ≡ eid_text e };

    fn clone(&self) -> Result<Eid, AllocError> {
        let text = self.0.clone()?;
        Ok(Eid(text))
    }
}

/// The uid of an entity: its type and its id. Uids are compared by the texts of their types and then by their ids, in byte
/// order; places don't count.
#[derive(Debug)]
#[derive_where(PartialEq, Eq, PartialOrd, Ord, Hash)]
pub struct EntityUID {
    entity_type: EntityType,
    eid: Eid,
    #[derive_where(skip(EqHashOrd))]
    loc: Option<Loc>,
}

// prover: see ARCHITECTURE
impl Drop for EntityUID {
    fn drop(self) {
        let EntityUID {
            entity_type: _,
            eid: _,
            loc: _,
        } = self;
    }
}

impl EntityUID {
    /// The uid of a type and an id, at a place.
    pub fn from_components(entity_type: EntityType, eid: Eid, loc: Option<Loc>) -> EntityUID
        ensures kind { (uid_of result).kind ≡ type_name_of entity_type }
        ensures id { (uid_of result).id ≡ eid_text eid }
        ensures place { uid_loc result ≡ loc }
    {
        EntityUID {
            entity_type,
            eid,
            loc,
        }
    }

    /// Whether this is the same entity as the other: what `==` answers, which doesn't look at places.
    pub fn same(&self, other: &EntityUID) -> bool
        ensures { result ≡ uid_eq (uid_of self.now) (uid_of other.now) }
    {
        self == other
    }

    /// The order of this uid and the other: what `cmp` answers, by the texts of their types and then by their ids, in
    /// byte order.
    pub fn order(&self, other: &EntityUID) -> Ordering
        ensures { result ≡ uid_cmp (uid_of self.now) (uid_of other.now) }
    {
        self.cmp(other)
    }

    /// The entity's type.
    pub fn entity_type(&self) -> &EntityType
        ensures { type_name_of result.now ≡ (uid_of self.now).kind }
    {
        &self.entity_type
    }

    /// The entity's id.
    pub fn eid(&self) -> &Eid
        ensures { eid_text result.now ≡ (uid_of self.now).id }
    {
        &self.eid
    }

    /// The uid's place.
    pub fn loc(&self) -> Option<Loc>
        ensures { result ≡ uid_loc self.now }
    {
        self.loc
    }
}

impl Clone for EntityUID {
    ghost is_clone = { λ u copy. (uid_of copy ≡ uid_of u) × (uid_loc copy ≡ uid_loc u) };

    fn clone(&self) -> Result<EntityUID, AllocError> {
        let entity_type = self.entity_type.clone()?;
        let eid = self.eid.clone()?;
        Ok(EntityUID {
            entity_type,
            eid,
            loc: self.loc,
        })
    }
}

impl Display for EntityUID {
    ghost output = { λ u. Some (uid_text (uid_of u)) };

    fn fmt<W: Write>(&self, f: &mut Formatter<W>) -> fmt::Result {
        write!(
            f,
            "{}::{}",
            self.entity_type,
            Quoted::new(self.eid.as_str())
        )
    }
}

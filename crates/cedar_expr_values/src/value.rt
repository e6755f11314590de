//! Values with their places, and sets of them.

mod compared;
mod fed;
mod hashed;
mod keyed;
mod ranges;
mod uids;

ghost use Rattle.std.specs.Prelude.{◌≡◌, map, IfOk};
ghost use Rattle.cedar_expr_model.specs.Made.{made_prim};
ghost use Rattle.cedar_expr_leaves.specs.Literals.{literal_of};
ghost use Rattle.cedar_expr_values.specs.Values.{made};

use self::hashed::hashed;
pub use self::keyed::Keyed;
use crate::extension::ExtensionValue;
use crate::fields::field_map;
use crate::rising::{all_among, in_rising, is_among, none_among};
use crate::types::{StaticallyTyped, Type};
use cedar_expr_leaves::Literal;
use cedar_expr_names::Loc;
use std::alloc::{AllocError, Global};
use std::cmp::Ordering;
use std::collections::{BTreeMap, HashSet};
use std::marker::Model;
use std::rc::{Rc, RcStr};
use std::slice::Iter;

/// A value with its place. Values are compared by what they are; places don't count.
#[derive_where(Debug, PartialEq, Eq, PartialOrd, Ord, Hash; X)]
#[cycle(value)]
pub struct Value<X: ExtensionValue> {
    kind: ValueKind<X>,
    #[derive_where(skip(EqHashOrd))]
    loc: Option<Loc>,
}

// A drop of its own is one step to the proof of a function that may drop a value; a derived one is a step for each field.
impl<X: ExtensionValue> Drop for Value<X> {
    #[cycle(drop)]
    fn drop(self) {
        let Value { kind: _, loc: _ } = self;
    }
}

/// What a value is.
#[derive(Drop)]
#[derive_where(Debug, PartialEq, Eq, PartialOrd, Ord, Hash; X)]
#[cycle(value)]
pub enum ValueKind<X: ExtensionValue> {
    /// A literal.
    Lit(Literal),
    /// A set.
    Set(Set<X>),
    /// A record: values by the names of their fields.
    Record(Record<X>),
    /// An extension value.
    ExtensionValue(Rc<X>),
}

/// A finite set of values. Its members rise, so none is repeated.
#[derive_where(Debug; X)]
#[cycle(value)]
pub struct Set<X: ExtensionValue> {
    members: Rc<Members<X>>,
}

// A drop of its own, so that who owns a set needn't prove what a set keeps.
impl<X: ExtensionValue> Drop for Set<X> {
    #[cycle(drop)]
    fn drop(self) {
        let Set { members: _ } = self;
    }
}

// The members of a set in rising order, and the literals that they are, hashed, where each is one.
#[derive(Drop)]
#[derive_where(Debug; X)]
#[cycle(value)]
struct Members<X: ExtensionValue> {
    values: Vec<Value<X>>,
    literals: Option<HashSet<Literal, Keyed>>,
}

impl<X: ExtensionValue> Model for Set<X> {
    ghost use Rattle.cedar_expr_values.specs.Kept.{KeptSet, coded_kept_set, mades_size};

    ghost Value = { KeptSet };

    ghost coded = { coded_kept_set };

    ghost use Rattle.cedar_expr_values.specs.Inside.{set_inside, MembersRise};
    ghost use Rattle.cedar_expr_values.specs.Hashed.{HashedRight};

    ghost view = { set_inside X.seen };

    ghost invariant = { λ a. MembersRise X.seen a × HashedRight X.seen a.members.value.values.items a.members.value.literals };

    ghost size = { λ s. mades_size s.0 };

    ghost use Rattle.cedar_expr_values.specs.Falls.{set_falls};

    ghost size_decreases = { λ a h. set_falls X.ExtensionValue X.Ord X.PartialEq X.PartialOrd a h.0 };
}

/// The fields of a record: values by the names of their fields, which rise.
#[derive_where(Debug; X)]
#[cycle(value)]
pub struct Record<X: ExtensionValue> {
    fields: Rc<BTreeMap<RcStr, Value<X>>>,
}

// As that of a set.
impl<X: ExtensionValue> Drop for Record<X> {
    #[cycle(drop)]
    fn drop(self) {
        let Record { fields: _ } = self;
    }
}

impl<X: ExtensionValue> Model for Record<X> {
    ghost use Rattle.cedar_expr_values.specs.Kept.{KeptRecord, coded_kept_record, made_fields_size};

    ghost Value = { KeptRecord };

    ghost coded = { coded_kept_record };

    ghost use Rattle.cedar_expr_values.specs.Inside.{record_inside, NamesRise};

    ghost view = { record_inside X.seen };

    ghost invariant = { NamesRise X.seen };

    ghost size = { λ r. made_fields_size r.0 };

    ghost use Rattle.cedar_expr_values.specs.Falls.{record_falls};

    ghost size_decreases = { record_falls X.ExtensionValue X.Ord X.PartialEq X.PartialOrd };
}

impl<X: ExtensionValue> Set<X> {
    ghost use Rattle.std.specs.Prelude.{◌≡◌, true, [], not, length, map, nat_eq, is_some, IfOk, IfSome};
    ghost use Rattle.std.specs.List.{list_all};
    ghost use Rattle.std.specs.Slice.Iter.{iter_rest};
    ghost use Rattle.cedar_expr_model.specs.Value.{prim, values_list};
    ghost use Rattle.cedar_expr_model.specs.Canonical.{are_rising, members_made, is_member, is_subset, is_disjoint};
    ghost use Rattle.cedar_expr_model.specs.Made.{no_mades, bares as model_bares};
    ghost use Rattle.cedar_expr_leaves.specs.Literals.{literal_of};
    ghost use Rattle.cedar_expr_values.specs.Values.{made, made_list, mades, bare, bares, members_as_made};
    ghost use Rattle.cedar_expr_values.specs.Hashed.{all_literals, HoldsLiterals};

    /// The empty set. Fails only when out of memory.
    pub fn empty(alloc: Global) -> Result<Set<X>, AllocError>
        ensures { IfOk result (λ s. mades X.seen s ≡ no_mades) }
    {
        Set::of_members(alloc, Vec::new(alloc))
    }

    /// The set of these values. Of equal ones it keeps the first. Fails only when out of memory.
    pub fn new(alloc: Global, values: Vec<Value<X>>) -> Result<Set<X>, AllocError>
        ensures members { IfOk result (λ s. bares X.seen s ≡ members_made (map (bare X.seen) values.items)) }
        ensures as_made { IfOk result (λ s. mades X.seen s ≡ members_as_made (map (made X.seen) values.items)) }
    {
        let members = in_rising(values)?;
        Set::of_members(alloc, members)
    }

    /// The set of these literals. Fails only when out of memory.
    pub fn from_lits(alloc: Global, literals: Vec<Literal>) -> Result<Set<X>, AllocError>
        ensures members { IfOk result (λ s. bares X.seen s ≡ members_made (map (λ l. prim (literal_of l)) literals.items)) }
        ensures as_made { IfOk result (λ s. mades X.seen s ≡ members_as_made (map (λ l. made_prim (literal_of l)) literals.items)) }
    {
        let values = literal_values(alloc, literals)?;
        Set::new(alloc, values)
    }

    /// How many members the set has.
    pub fn len(&self) -> usize
        ensures { result ≡ length (values_list (bares X.seen self.now)) }
    {
        self.authoritative().len()
    }

    /// Whether the set has no members.
    pub fn is_empty(&self) -> bool
        ensures { result ≡ nat_eq (length (values_list (bares X.seen self.now))) 0 }
    {
        self.authoritative().is_empty()
    }

    /// The members in rising order.
    pub fn iter(&self) -> Iter<'_, Value<X>>
        ensures { mades X.seen self.now ≡ made_list (map (made X.seen) (iter_rest result)) }
    {
        self.authoritative().iter()
    }

    /// Whether the value is a member.
    pub fn contains(&self, value: &Value<X>) -> bool
        ensures { result ≡ is_member (bare X.seen value.now) (bares X.seen self.now) }
    {
        let Some(literals) = self.fast() else {
            return is_among(value, self.authoritative());
        };
        let ValueKind::Lit(literal) = &value.kind else {
            return false;
        };
        literals.contains(literal)
    }

    /// Whether each member is one of the other set's.
    pub fn is_subset(&self, other: &Set<X>) -> bool
        ensures { result ≡ is_subset (bares X.seen self.now) (bares X.seen other.now) }
    {
        let members = self.authoritative();
        let others = other.authoritative();
        if members.len() > others.len() {
            return false;
        }
        if are_few(members.len(), others.len()) {
            other.has_each(members)
        } else {
            all_among(members, others)
        }
    }

    /// Whether no member is one of the other set's.
    pub fn is_disjoint(&self, other: &Set<X>) -> bool
        ensures { result ≡ is_disjoint (bares X.seen self.now) (bares X.seen other.now) }
    {
        let members = self.authoritative();
        let others = other.authoritative();
        if are_few(members.len(), others.len()) {
            other.has_none(members)
        } else if are_few(others.len(), members.len()) {
            self.has_none(others)
        } else {
            none_among(members, others)
        }
    }

    // Whether each of these is a member.
    fn has_each(&self, values: &[Value<X>]) -> bool
        ensures { result ≡ list_all (λ v. is_member (bare X.seen v) (bares X.seen self.now)) values.now }
    {
        for value in values {
            if !self.contains(value) {
                return false;
            }
        }
        true
    }

    // Whether none of these is a member.
    fn has_none(&self, values: &[Value<X>]) -> bool
        ensures { result ≡ list_all (λ v. not (is_member (bare X.seen v) (bares X.seen self.now))) values.now }
    {
        for value in values {
            if self.contains(value) {
                return false;
            }
        }
        true
    }

    // The set of these members, which rise.
    fn of_members(alloc: Global, members: Vec<Value<X>>) -> Result<Set<X>, AllocError>
        requires { are_rising (model_bares (made_list (map (made X.seen) members.items))) ≡ true }
        ensures { IfOk result (λ s. mades X.seen s ≡ made_list (map (made X.seen) members.items)) }
    {
        let literals = hashed(alloc, members.as_slice())?;
        let members = Members {
            values: members,
            literals,
        };
        let members = Rc::new(alloc, members)?;
        Ok(Set { members })
    }

    /// The members in rising order. Who goes over them twice asks for them once.
    pub fn authoritative(&self) -> &[Value<X>]
        ensures { mades X.seen self.now ≡ made_list (map (made X.seen) result.now) }
    {
        self.members.values.as_slice()
    }

    /// The members as literals, hashed, where each is one.
    pub fn fast(&self) -> Option<&HashSet<Literal, Keyed>>
        ensures literals { is_some result ≡ all_literals (bares X.seen self.now) }
        ensures members { IfSome result (λ h. HoldsLiterals h.now (bares X.seen self.now)) }
    {
        match &self.members.literals {
            Some(literals) => Some(literals),
            None => None,
        }
    }
}

// Whether it costs less to look these up among those one by one than to go along both.
fn are_few(these: usize, those: usize) -> bool {
    these < those / 16
}

impl<X: ExtensionValue> Clone for Set<X> {
    ghost use Rattle.std.specs.Prelude.{◌≡◌};
    ghost use Rattle.cedar_expr_values.specs.Extension.{Extension};
    ghost use Rattle.cedar_expr_values.specs.Values.{mades};

    ghost is_clone = { λ s copy. (seen : X → Extension) → mades seen copy ≡ mades seen s };

    /// A copy of the set that shares its members.
    fn clone(&self) -> Result<Set<X>, AllocError> {
        Ok(Set {
            members: self.members.clone()?,
        })
    }
}

impl<X: ExtensionValue> Record<X> {
    ghost use Rattle.std.specs.Prelude.{◌≡◌, map, IfOk};
    ghost use Rattle.std.specs.BTreeMap.{IsOrdered};
    ghost use Rattle.cedar_expr_model.specs.Made.{no_made_fields};
    ghost use Rattle.cedar_expr_model.specs.Records.{in_order};
    ghost use Rattle.cedar_expr_values.specs.Values.{fields_made, made_fields, made_pair};

    /// No fields. Fails only when out of memory.
    pub fn empty(alloc: Global) -> Result<Record<X>, AllocError>
        ensures { IfOk result (λ r. fields_made X.seen r ≡ no_made_fields) }
    {
        Record::new(alloc, Vec::new(alloc))
    }

    /// The fields with these values by name. Of a repeated name the last stands. Fails only when out of memory.
    pub fn new(alloc: Global, pairs: Vec<(RcStr, Value<X>)>) -> Result<Record<X>, AllocError>
        ensures { IfOk result (λ r. fields_made X.seen r ≡ made_fields (in_order (map (made_pair X.seen) pairs.items))) }
    {
        let fields = field_map(alloc, pairs)?;
        let fields = Rc::new(alloc, fields)?;
        Ok(Record { fields })
    }

    /// The values by name.
    pub fn as_map(&self) -> &BTreeMap<RcStr, Value<X>>
        ensures as_made { fields_made X.seen self.now ≡ made_fields (map (made_pair X.seen) result.now.entries) }
        ensures ordered { IsOrdered ⟦<RcStr as Ord>⟧.cmp result.now }
    {
        &self.fields
    }
}

impl<X: ExtensionValue> Clone for Record<X> {
    ghost use Rattle.std.specs.Prelude.{◌≡◌};
    ghost use Rattle.cedar_expr_values.specs.Extension.{Extension};
    ghost use Rattle.cedar_expr_values.specs.Values.{fields_made};

    ghost is_clone = { λ r copy. (seen : X → Extension) → fields_made seen copy ≡ fields_made seen r };

    /// A copy of the fields that shares them.
    fn clone(&self) -> Result<Record<X>, AllocError> {
        Ok(Record {
            fields: self.fields.clone()?,
        })
    }
}

impl<X: ExtensionValue> ValueKind<X> {
    ghost use Rattle.std.specs.Prelude.{◌≡◌, true, map, IfOk};
    ghost use Rattle.cedar_expr_model.specs.Value.{prim};
    ghost use Rattle.cedar_expr_model.specs.Canonical.{set_made};
    ghost use Rattle.cedar_expr_model.specs.Records.{record_made};
    ghost use Rattle.cedar_expr_model.specs.Made.{made_prim, made_set, made_record, no_mades, no_made_fields};
    ghost use Rattle.cedar_expr_leaves.specs.Literals.{literal_of};
    ghost use Rattle.cedar_expr_values.specs.Values.{made, made_kind, fields_made, made_pair, bare, bare_kind, bare_pair, members_as_made, record_as_made};

    /// The empty set. Fails only when out of memory.
    pub fn empty_set(alloc: Global) -> Result<ValueKind<X>, AllocError>
        ensures { IfOk result (λ k. made_kind X.seen k ≡ made_set no_mades) }
    {
        let set = Set::empty(alloc)?;
        Ok(ValueKind::Set(set))
    }

    /// The empty record. Fails only when out of memory.
    pub fn empty_record(alloc: Global) -> Result<ValueKind<X>, AllocError>
        ensures { IfOk result (λ k. made_kind X.seen k ≡ made_record no_made_fields) }
    {
        let fields = Record::empty(alloc)?;
        Ok(ValueKind::Record(fields))
    }

    /// The set of these values. Of equal ones it keeps the first. Fails only when out of memory.
    pub fn set(alloc: Global, values: Vec<Value<X>>) -> Result<ValueKind<X>, AllocError>
        ensures members { IfOk result (λ k. bare_kind X.seen k ≡ set_made (map (bare X.seen) values.items)) }
        ensures as_made { IfOk result (λ k. made_kind X.seen k ≡ made_set (members_as_made (map (made X.seen) values.items))) }
    {
        let set = Set::new(alloc, values)?;
        Ok(ValueKind::Set(set))
    }

    /// The set of these literals. Fails only when out of memory.
    pub fn set_of_lits(alloc: Global, literals: Vec<Literal>) -> Result<ValueKind<X>, AllocError>
        ensures members { IfOk result (λ k. bare_kind X.seen k ≡ set_made (map (λ l. prim (literal_of l)) literals.items)) }
        ensures as_made { IfOk result (λ k. made_kind X.seen k ≡ made_set (members_as_made (map (λ l. made_prim (literal_of l)) literals.items))) }
    {
        let set = Set::from_lits(alloc, literals)?;
        Ok(ValueKind::Set(set))
    }

    /// The record of these values by name. Of a repeated name the last stands. Fails only when out of memory.
    pub fn record(alloc: Global, pairs: Vec<(RcStr, Value<X>)>) -> Result<ValueKind<X>, AllocError>
        ensures fields { IfOk result (λ k. bare_kind X.seen k ≡ record_made (map (bare_pair X.seen) pairs.items)) }
        ensures as_made { IfOk result (λ k. made_kind X.seen k ≡ record_as_made (map (made_pair X.seen) pairs.items)) }
    {
        let fields = Record::new(alloc, pairs)?;
        Ok(ValueKind::Record(fields))
    }

    /// The record of these fields.
    pub fn record_arc(fields: Record<X>) -> ValueKind<X>
        ensures { made_kind X.seen result ≡ made_record (fields_made X.seen fields) }
    {
        ValueKind::Record(fields)
    }
}

impl<X: ExtensionValue> Value<X> {
    ghost use Rattle.std.specs.Prelude.{◌≡◌, ◌↔◌, true, map, IfOk, IsTrue};
    ghost use Rattle.cedar_expr_model.specs.Value.{prim};
    ghost use Rattle.cedar_expr_model.specs.Order.{value_cmp, value_eq};
    ghost use Rattle.cedar_expr_model.specs.Canonical.{set_made};
    ghost use Rattle.cedar_expr_model.specs.Records.{record_made};
    ghost use Rattle.cedar_expr_model.specs.Made.{made_prim, made_set, made_record, no_mades, no_made_fields};
    ghost use Rattle.cedar_expr_leaves.specs.Literals.{literal_of};
    ghost use Rattle.cedar_expr_values.specs.Values.{made, made_kind, fields_made, made_pair, bare, bare_pair, members_as_made, record_as_made, place_of, kind_of};

    /// The empty set, at a place. Fails only when out of memory.
    pub fn empty_set(alloc: Global, loc: Option<Loc>) -> Result<Value<X>, AllocError>
        ensures value { IfOk result (λ v. made X.seen v ≡ made_set no_mades) }
        ensures place { IfOk result (λ v. place_of v ≡ loc) }
    {
        let kind = ValueKind::empty_set(alloc)?;
        Ok(Value::new(kind, loc))
    }

    /// The empty record, at a place. Fails only when out of memory.
    pub fn empty_record(alloc: Global, loc: Option<Loc>) -> Result<Value<X>, AllocError>
        ensures value { IfOk result (λ v. made X.seen v ≡ made_record no_made_fields) }
        ensures place { IfOk result (λ v. place_of v ≡ loc) }
    {
        let kind = ValueKind::empty_record(alloc)?;
        Ok(Value::new(kind, loc))
    }

    /// The set of these values, at a place. Of equal ones it keeps the first. Fails only when out of memory.
    pub fn set(
        alloc: Global,
        values: Vec<Value<X>>,
        loc: Option<Loc>,
    ) -> Result<Value<X>, AllocError>
        ensures members { IfOk result (λ v. bare X.seen v ≡ set_made (map (bare X.seen) values.items)) }
        ensures as_made { IfOk result (λ v. made X.seen v ≡ made_set (members_as_made (map (made X.seen) values.items))) }
        ensures place { IfOk result (λ v. place_of v ≡ loc) }
    {
        let kind = ValueKind::set(alloc, values)?;
        Ok(Value::new(kind, loc))
    }

    /// The set of these literals, at a place. Fails only when out of memory.
    pub fn set_of_lits(
        alloc: Global,
        literals: Vec<Literal>,
        loc: Option<Loc>,
    ) -> Result<Value<X>, AllocError>
        ensures members { IfOk result (λ v. bare X.seen v ≡ set_made (map (λ l. prim (literal_of l)) literals.items)) }
        ensures as_made { IfOk result (λ v. made X.seen v ≡ made_set (members_as_made (map (λ l. made_prim (literal_of l)) literals.items))) }
        ensures place { IfOk result (λ v. place_of v ≡ loc) }
    {
        let kind = ValueKind::set_of_lits(alloc, literals)?;
        Ok(Value::new(kind, loc))
    }

    /// The record of these values by name, at a place. Of a repeated name the last stands. Fails only when out of memory.
    pub fn record(
        alloc: Global,
        pairs: Vec<(RcStr, Value<X>)>,
        loc: Option<Loc>,
    ) -> Result<Value<X>, AllocError>
        ensures fields { IfOk result (λ v. bare X.seen v ≡ record_made (map (bare_pair X.seen) pairs.items)) }
        ensures as_made { IfOk result (λ v. made X.seen v ≡ record_as_made (map (made_pair X.seen) pairs.items)) }
        ensures place { IfOk result (λ v. place_of v ≡ loc) }
    {
        let kind = ValueKind::record(alloc, pairs)?;
        Ok(Value::new(kind, loc))
    }

    /// The record of these fields, at a place.
    pub fn record_arc(fields: Record<X>, loc: Option<Loc>) -> Value<X>
        ensures value { made X.seen result ≡ made_record (fields_made X.seen fields) }
        ensures place { place_of result ≡ loc }
    {
        Value::new(ValueKind::record_arc(fields), loc)
    }

    /// The value of a kind, at a place.
    pub fn new(kind: ValueKind<X>, loc: Option<Loc>) -> Value<X>
        ensures value { made X.seen result ≡ made_kind X.seen kind }
        ensures place { place_of result ≡ loc }
    {
        Value { kind, loc }
    }

    /// The value at this place, or without one.
    pub fn with_maybe_source_loc(self, loc: Option<Loc>) -> Value<X>
        ensures value { made X.seen result ≡ made X.seen self }
        ensures place { place_of result ≡ loc }
    {
        let Value { kind, loc: _ } = self;
        Value::new(kind, loc)
    }

    /// What the value is.
    pub fn value_kind(&self) -> &ValueKind<X>
        ensures value { made_kind X.seen result.now ≡ made X.seen self.now }
        ensures kind { result.now ≡ kind_of self.now }
    {
        &self.kind
    }

    /// Where the value stands in its source, if it stands there.
    pub fn source_loc(&self) -> Option<Loc>
        ensures { result ≡ place_of self.now }
    {
        self.loc
    }

    /// The order of this value and the other: what `cmp` answers.
    pub fn order(&self, other: &Value<X>) -> Ordering
        ensures { result ≡ value_cmp (bare X.seen self.now) (bare X.seen other.now) }
    {
        self.cmp(other)
    }

    /// Whether this is the same value as the other: what `==` answers.
    pub fn same(&self, other: &Value<X>) -> bool
        ensures { result ≡ value_eq (bare X.seen self.now) (bare X.seen other.now) }
    {
        self == other
    }

    /// Whether this is the same value as the other, at the same place.
    pub fn eq_and_same_source_loc(&self, other: &Value<X>) -> bool
        ensures { IsTrue result ↔ (bare X.seen self.now ≡ bare X.seen other.now) × (place_of self.now ≡ place_of other.now) }
    {
        self.same(other) && self.loc == other.loc
    }
}

impl<X: ExtensionValue> From<Literal> for ValueKind<X> {
    ghost use Rattle.std.specs.Prelude.{◌≡◌};
    ghost use Rattle.cedar_expr_model.specs.Made.{made_prim};
    ghost use Rattle.cedar_expr_leaves.specs.Literals.{literal_of};
    ghost use Rattle.cedar_expr_values.specs.Values.{made_kind};

    ghost from_gives = { λ l k. made_kind X.seen k ≡ made_prim (literal_of l) };

    fn from(literal: Literal) -> ValueKind<X> {
        ValueKind::Lit(literal)
    }
}

impl<X: ExtensionValue> From<Literal> for Value<X> {
    ghost use Rattle.std.specs.Prelude.{◌≡◌, None};
    ghost use Rattle.cedar_expr_model.specs.Made.{made_prim};
    ghost use Rattle.cedar_expr_leaves.specs.Literals.{literal_of};
    ghost use Rattle.cedar_expr_values.specs.Values.{made, place_of};

    ghost from_gives = { λ l v. (made X.seen v ≡ made_prim (literal_of l)) × (place_of v ≡ None) };

    fn from(literal: Literal) -> Value<X> {
        Value::new(ValueKind::Lit(literal), None)
    }
}

impl<X: ExtensionValue> Clone for ValueKind<X> {
    ghost use Rattle.std.specs.Prelude.{◌≡◌};
    ghost use Rattle.cedar_expr_values.specs.Extension.{Extension};
    ghost use Rattle.cedar_expr_values.specs.Values.{made_kind};

    ghost is_clone = { λ k copy. (seen : X → Extension) → made_kind seen copy ≡ made_kind seen k };

    /// A copy of the kind that shares its parts.
    fn clone(&self) -> Result<ValueKind<X>, AllocError> {
        match self {
            ValueKind::Lit(literal) => Ok(ValueKind::Lit(literal.clone()?)),
            ValueKind::Set(set) => Ok(ValueKind::Set(set.clone()?)),
            ValueKind::Record(fields) => Ok(ValueKind::Record(fields.clone()?)),
            ValueKind::ExtensionValue(value) => Ok(ValueKind::ExtensionValue(value.clone()?)),
        }
    }
}

impl<X: ExtensionValue> Clone for Value<X> {
    ghost use Rattle.std.specs.Prelude.{◌≡◌};
    ghost use Rattle.cedar_expr_values.specs.Extension.{Extension};
    ghost use Rattle.cedar_expr_values.specs.Values.{made, place_of};

    ghost is_clone = { λ v copy. ((seen : X → Extension) → made seen copy ≡ made seen v) × (place_of copy ≡ place_of v) };

    /// A copy of the value that shares its parts.
    fn clone(&self) -> Result<Value<X>, AllocError> {
        Ok(Value {
            kind: self.kind.clone()?,
            loc: self.loc,
        })
    }
}

impl<X: ExtensionValue> StaticallyTyped for ValueKind<X> {
    ghost use Rattle.cedar_expr_model.specs.Substitution.{core_type_of};
    ghost use Rattle.cedar_expr_values.specs.Values.{bare_kind};

    ghost core_type = { λ k. core_type_of (bare_kind X.seen k) };

    fn type_of(&self) -> Result<Type, AllocError> {
        match self {
            ValueKind::Lit(literal) => literal.type_of(),
            ValueKind::Set(_) => Ok(Type::Set),
            ValueKind::Record(_) => Ok(Type::Record),
            ValueKind::ExtensionValue(value) => Ok(Type::Extension {
                name: value.typename().clone()?,
            }),
        }
    }
}

impl<X: ExtensionValue> StaticallyTyped for Value<X> {
    ghost use Rattle.cedar_expr_model.specs.Substitution.{core_type_of};
    ghost use Rattle.cedar_expr_values.specs.Values.{bare};

    ghost core_type = { λ v. core_type_of (bare X.seen v) };

    fn type_of(&self) -> Result<Type, AllocError> {
        self.kind.type_of()
    }
}

// The values that these literals are.
fn literal_values<X: ExtensionValue>(
    alloc: Global,
    literals: Vec<Literal>,
) -> Result<Vec<Value<X>>, AllocError>
    ensures { IfOk result (λ vs. map (made X.seen) vs.items ≡ map (λ l. made_prim (literal_of l)) literals.items) }
{
    let mut values = Vec::with_capacity(alloc, literals.len())?;
    for literal in literals {
        values.push(Value::new(ValueKind::Lit(literal), None))?;
    }
    Ok(values)
}

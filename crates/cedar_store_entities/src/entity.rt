//! Entities.

ghost use Rattle.std.specs.Prelude.{◌≡◌, ◌++◌, [], map, length, option_map, IfOk, OnOk, OnErr};
ghost use Rattle.std.specs.List.{list_any};
ghost use Rattle.std.specs.Map.{lookup};
ghost use Rattle.std.specs.Rc.{rc_str_bytes};
ghost use Rattle.std.specs.Slice.Iter.{iter_rest};
ghost use Rattle.std.specs.Str.{bytes_eq};
ghost use Rattle.cedar_expr_names.specs.Views.{uid_of};
ghost use Rattle.cedar_expr_model.specs.Uid.{uid_eq};
ghost use Rattle.cedar_expr_model.specs.Records.{in_order};
ghost use Rattle.cedar_expr_partial.specs.Parts.{part_place};
ghost use Rattle.cedar_store_entities.specs.Views.{part_seen, part_pair, value_pair, placed_part, placed_value, names_in, entity_uid, entity_seen, entity_kept, kin_seen, attribute_places, tag_places};
ghost use Rattle.cedar_store_entities.specs.Recorded.{recorded, all_recorded, with_parent, with_indirect, with_parents, with_indirects, is_parent, is_indirect};

use crate::ancestors::Ancestors;
use cedar_expr_names::EntityUID;
use cedar_expr_partial::PartialValue;
use cedar_expr_values::fields::field_map;
use cedar_expr_values::{ExtValue, Value};
use std::alloc::{AllocError, Global};
use std::collections::BTreeMap;
use std::collections::btree_map::{Iter, Keys};
use std::rc::RcStr;
use std::slice;

/// An entity: its uid, its attributes and tags by name, and its recorded ancestors, each once, of which some are its parents.
/// Nothing is said of the ancestors of its ancestors.
pub struct Entity {
    uid: EntityUID,
    attrs: BTreeMap<RcStr, PartialValue<ExtValue>>,
    tags: BTreeMap<RcStr, PartialValue<ExtValue>>,
    ancestors: Ancestors,
}

// A drop of its own is one step to the proof of a function that may drop an entity; a derived one is a step for each field.
impl Drop for Entity {
    fn drop(self) {
        let Entity {
            uid: _,
            attrs: _,
            tags: _,
            ancestors: _,
        } = self;
    }
}

impl Clone for Entity {
    ghost is_clone = { λ e copy. (entity_uid copy ≡ entity_uid e) × (entity_kept copy ≡ entity_kept e) };

    /// A copy of the entity that shares its values.
    fn clone(&self) -> Result<Entity, AllocError> {
        Ok(Entity {
            uid: self.uid.clone()?,
            attrs: self.attrs.clone()?,
            tags: self.tags.clone()?,
            ancestors: self.ancestors.clone()?,
        })
    }
}

impl Entity {
    /// The entity of this uid with these attributes and tags, of a repeated name the last, and with these recorded ancestors,
    /// each once; what is given as both is a parent. Each value keeps its place. Fails only when out of memory.
    pub fn new(
        alloc: Global,
        uid: EntityUID,
        attrs: Vec<(RcStr, Value<ExtValue>)>,
        indirect_ancestors: Vec<EntityUID>,
        parents: Vec<EntityUID>,
        tags: Vec<(RcStr, Value<ExtValue>)>,
    ) -> Result<Entity, AllocError>
        ensures uid { IfOk result (λ e. entity_uid e ≡ uid_of uid) }
        ensures attributes { IfOk result (λ e. (entity_seen e).attributes ≡ in_order (map value_pair attrs.items)) }
        ensures tags { IfOk result (λ e. (entity_seen e).tags ≡ in_order (map value_pair tags.items)) }
        ensures attribute_places { IfOk result (λ e. attribute_places e ≡ in_order (map placed_value attrs.items)) }
        ensures tag_places { IfOk result (λ e. tag_places e ≡ in_order (map placed_value tags.items)) }
        ensures ancestors { IfOk result (λ e. (entity_seen e).ancestors ≡ all_recorded (all_recorded [] (map uid_of indirect_ancestors.items)) (map uid_of parents.items)) }
        ensures kin { IfOk result (λ e. kin_seen e ≡ with_parents (with_indirects [] (map uid_of indirect_ancestors.items)) (map uid_of parents.items)) }
    {
        let attrs = as_partial(alloc, attrs)?;
        let tags = as_partial(alloc, tags)?;
        Entity::new_with_attr_partial_value(alloc, uid, attrs, indirect_ancestors, parents, tags)
    }

    /// The entity of this uid with these attributes and tags, which may be expressions, of a repeated name the last, and with these
    /// recorded ancestors, each once; what is given as both is a parent. Each attribute and tag keeps its place.
    pub fn new_with_attr_partial_value(
        alloc: Global,
        uid: EntityUID,
        attrs: Vec<(RcStr, PartialValue<ExtValue>)>,
        indirect_ancestors: Vec<EntityUID>,
        parents: Vec<EntityUID>,
        tags: Vec<(RcStr, PartialValue<ExtValue>)>,
    ) -> Result<Entity, AllocError>
        ensures uid { IfOk result (λ e. entity_uid e ≡ uid_of uid) }
        ensures attributes { IfOk result (λ e. (entity_seen e).attributes ≡ in_order (map part_pair attrs.items)) }
        ensures tags { IfOk result (λ e. (entity_seen e).tags ≡ in_order (map part_pair tags.items)) }
        ensures attribute_places { IfOk result (λ e. attribute_places e ≡ in_order (map placed_part attrs.items)) }
        ensures tag_places { IfOk result (λ e. tag_places e ≡ in_order (map placed_part tags.items)) }
        ensures ancestors { IfOk result (λ e. (entity_seen e).ancestors ≡ all_recorded (all_recorded [] (map uid_of indirect_ancestors.items)) (map uid_of parents.items)) }
        ensures kin { IfOk result (λ e. kin_seen e ≡ with_parents (with_indirects [] (map uid_of indirect_ancestors.items)) (map uid_of parents.items)) }
    {
        let mut ancestors = Ancestors::new(alloc);
        ancestors.add_indirects(indirect_ancestors)?;
        ancestors.add_parents(parents)?;
        let attrs = field_map(alloc, attrs)?;
        let tags = field_map(alloc, tags)?;
        Ok(Entity {
            uid,
            attrs,
            tags,
            ancestors,
        })
    }

    /// The entity of this uid without attributes, tags and recorded ancestors.
    pub fn with_uid(alloc: Global, uid: EntityUID) -> Entity
        ensures uid { entity_uid result ≡ uid_of uid }
        ensures entity { entity_seen result ≡ record { attributes = []; tags = []; ancestors = [] } }
        ensures kin { kin_seen result ≡ [] }
        ensures attribute_places { attribute_places result ≡ [] }
        ensures tag_places { tag_places result ≡ [] }
    {
        Entity {
            uid,
            attrs: BTreeMap::new(alloc),
            tags: BTreeMap::new(alloc),
            ancestors: Ancestors::new(alloc),
        }
    }

    /// The entity's uid.
    pub fn uid(&self) -> &EntityUID
        ensures { uid_of result.now ≡ entity_uid self.now }
    {
        &self.uid
    }

    /// The attribute of this name, if there is one.
    pub fn get(&self, attr: &str) -> Option<&PartialValue<ExtValue>>
        ensures value { option_map (λ p. part_seen p.now) result ≡ lookup (bytes_eq attr.now) (entity_seen self.now).attributes }
        ensures place { option_map (λ p. part_place p.now) result ≡ lookup (bytes_eq attr.now) (attribute_places self.now) }
    {
        self.attrs.get(attr)
    }

    /// The tag of this name, if there is one.
    pub fn get_tag(&self, tag: &str) -> Option<&PartialValue<ExtValue>>
        ensures value { option_map (λ p. part_seen p.now) result ≡ lookup (bytes_eq tag.now) (entity_seen self.now).tags }
        ensures place { option_map (λ p. part_place p.now) result ≡ lookup (bytes_eq tag.now) (tag_places self.now) }
    {
        self.tags.get(tag)
    }

    /// Goes over the names of the attributes, in their order.
    pub fn keys(&self) -> Keys<'_, RcStr, PartialValue<ExtValue>>
        ensures { map rc_str_bytes result ≡ names_in (entity_seen self.now).attributes }
    {
        self.attrs.keys()
    }

    /// Goes over the names of the tags, in their order.
    pub fn tag_keys(&self) -> Keys<'_, RcStr, PartialValue<ExtValue>>
        ensures { map rc_str_bytes result ≡ names_in (entity_seen self.now).tags }
    {
        self.tags.keys()
    }

    /// Goes over the attributes, in the order of their names.
    pub fn attrs(&self) -> Iter<'_, RcStr, PartialValue<ExtValue>>
        ensures values { map part_pair result ≡ (entity_seen self.now).attributes }
        ensures places { map placed_part result ≡ attribute_places self.now }
    {
        self.attrs.iter()
    }

    /// Goes over the tags, in the order of their names.
    pub fn tags(&self) -> Iter<'_, RcStr, PartialValue<ExtValue>>
        ensures values { map part_pair result ≡ (entity_seen self.now).tags }
        ensures places { map placed_part result ≡ tag_places self.now }
    {
        self.tags.iter()
    }

    /// How many attributes there are.
    pub fn attrs_len(&self) -> usize
        ensures { result ≡ length (entity_seen self.now).attributes }
    {
        self.attrs.len()
    }

    /// How many tags there are.
    pub fn tags_len(&self) -> usize
        ensures { result ≡ length (entity_seen self.now).tags }
    {
        self.tags.len()
    }

    /// Goes over the recorded ancestors, in the order in which they were recorded.
    pub fn ancestors(&self) -> slice::Iter<'_, EntityUID>
        ensures { map uid_of (iter_rest result) ≡ (entity_seen self.now).ancestors }
    {
        self.ancestors.uids()
    }

    /// Whether the uid is a recorded ancestor.
    pub fn is_descendant_of(&self, uid: &EntityUID) -> bool
        ensures { result ≡ list_any (uid_eq (uid_of uid.now)) (entity_seen self.now).ancestors }
    {
        self.ancestors.has(uid)
    }

    /// Whether the uid is recorded as a parent.
    pub fn is_child_of(&self, uid: &EntityUID) -> bool
        ensures { result ≡ is_parent (kin_seen self.now) (uid_of uid.now) }
    {
        match self.ancestors.is_parent(uid) {
            Some(is_parent) => is_parent,
            None => false,
        }
    }

    /// Whether the uid is recorded as an ancestor that is no parent.
    pub fn is_indirect_descendant_of(&self, uid: &EntityUID) -> bool
        ensures { result ≡ is_indirect (kin_seen self.now) (uid_of uid.now) }
    {
        match self.ancestors.is_parent(uid) {
            Some(is_parent) => !is_parent,
            None => false,
        }
    }

    /// Records the uid as a parent, and nothing else: an ancestor more, unless it is recorded. Fails only when out of memory.
    pub fn add_parent(&mut self, uid: EntityUID) -> Result<(), AllocError>
        ensures added { OnOk result (entity_seen self.new ≡ record (entity_seen self.old) { ancestors = recorded (entity_seen self.old).ancestors (uid_of uid) }) }
        ensures kin { OnOk result (kin_seen self.new ≡ with_parent (kin_seen self.old) (uid_of uid)) }
        ensures unchanged { OnErr result (entity_seen self.new ≡ entity_seen self.old) }
        ensures kin_unchanged { OnErr result (kin_seen self.new ≡ kin_seen self.old) }
        ensures uid { entity_uid self.new ≡ entity_uid self.old }
        ensures attribute_places { attribute_places self.new ≡ attribute_places self.old }
        ensures tag_places { tag_places self.new ≡ tag_places self.old }
    {
        self.ancestors.add_parent(uid)
    }

    /// Records the uid as an ancestor that is no parent, unless it is recorded, and nothing else. Fails only when out of memory.
    pub fn add_indirect_ancestor(&mut self, uid: EntityUID) -> Result<(), AllocError>
        ensures added { OnOk result (entity_seen self.new ≡ record (entity_seen self.old) { ancestors = recorded (entity_seen self.old).ancestors (uid_of uid) }) }
        ensures kin { OnOk result (kin_seen self.new ≡ with_indirect (kin_seen self.old) (uid_of uid)) }
        ensures unchanged { OnErr result (entity_seen self.new ≡ entity_seen self.old) }
        ensures kin_unchanged { OnErr result (kin_seen self.new ≡ kin_seen self.old) }
        ensures uid { entity_uid self.new ≡ entity_uid self.old }
        ensures attribute_places { attribute_places self.new ≡ attribute_places self.old }
        ensures tag_places { tag_places self.new ≡ tag_places self.old }
    {
        self.ancestors.add_indirect(uid)
    }
}

// These values as partial ones, by name.
fn as_partial(
    alloc: Global,
    pairs: Vec<(RcStr, Value<ExtValue>)>,
) -> Result<Vec<(RcStr, PartialValue<ExtValue>)>, AllocError>
    ensures values { IfOk result (λ ps. map part_pair ps.items ≡ map value_pair pairs.items) }
    ensures places { IfOk result (λ ps. map placed_part ps.items ≡ map placed_value pairs.items) }
{
    let mut partial = Vec::with_capacity(alloc, pairs.len())?;
    for (name, value) in pairs {
        partial.push((name, PartialValue::Value(value)))?;
    }
    Ok(partial)
}

//! The attributes of records and entities: a map by name.

ghost use Rattle.std.specs.Prelude.{◌≡◌, true, map, option_map, IfOk};
ghost use Rattle.std.specs.Rc.{rc_str_bytes};
ghost use Rattle.cedar_expr_model.specs.Records.{in_order, names_rise};
ghost use Rattle.cedar_schema_model.specs.Types.{attribute_named};
ghost use Rattle.cedar_schema_model.specs.Subtype.{are_named};
ghost use Rattle.cedar_schema_types.specs.Types.{attributes_of, attribute_of};
ghost use Rattle.cedar_schema_types.specs.AttributeLists.{attributes_from, declared_pair, declared_pairs, required_pairs, names_in};

use crate::types::{AttributeType, Attributes, Type};
use cedar_expr_values::fields::field_map;
use std::alloc::{AllocError, Global};
use std::collections::btree_map::{Iter, Keys};
use std::rc::{Rc, RcStr};

impl Attributes {
    /// These attributes. Of a repeated name the last stands. Fails only when out of memory.
    #[tactic(auto, using(crate::proofs::Entries::attributes_are))]
    pub fn with_attributes(
        alloc: Global,
        attrs: Vec<(RcStr, AttributeType)>,
    ) -> Result<Attributes, AllocError>
        ensures { IfOk result (λ a. attributes_of a ≡ attributes_from (in_order (declared_pairs attrs.items))) }
    {
        let attrs = field_map(alloc, attrs)?;
        let attrs = Rc::new(alloc, attrs)?;
        Ok(Attributes { attrs })
    }

    /// Attributes of these types, all of them required. Of a repeated name the last stands. Fails only when out of memory.
    pub fn with_required_attributes(
        alloc: Global,
        required_attrs: Vec<(RcStr, Type)>,
    ) -> Result<Attributes, AllocError>
        ensures { IfOk result (λ a. attributes_of a ≡ attributes_from (in_order (required_pairs required_attrs.items))) }
    {
        let attrs = all_required(alloc, required_attrs)?;
        Attributes::with_attributes(alloc, attrs)
    }

    /// The attributes in the order of their names.
    #[tactic(auto, using(crate::proofs::Entries::attributes_are))]
    pub fn iter(&self) -> Iter<'_, RcStr, AttributeType>
        ensures attributes { attributes_from (declared_pairs result) ≡ attributes_of self.now }
        ensures rising { names_rise (declared_pairs result) ≡ true }
    {
        self.attrs.iter()
    }

    /// The names, in order.
    #[tactic(auto, using(crate::proofs::Entries::attributes_are))]
    pub fn keys(&self) -> Keys<'_, RcStr, AttributeType>
        ensures { map rc_str_bytes result ≡ names_in (attributes_of self.now) }
    {
        self.attrs.keys()
    }

    /// What is declared of the attribute of this name.
    pub fn get_attr(&self, attr: &str) -> Option<&AttributeType>
        ensures { option_map (λ d. attribute_of d.now) result ≡ attribute_named attr.now (attributes_of self.now) }
    {
        self.attrs.get(attr)
    }

    /// Whether each name of these is one of the others.
    #[tactic(auto, using(crate::proofs::Entries::attributes_are))]
    pub fn are_named(&self, others: &Attributes) -> bool
        ensures { result ≡ are_named (attributes_of self.now) (attributes_of others.now) }
    {
        for (name, _) in self.attrs.iter() {
            if others.get_attr(name.as_str()).is_none() {
                return false;
            }
        }
        true
    }
}

impl Clone for Attributes {
    ghost is_clone = { λ a copy. attributes_of copy ≡ attributes_of a };

    /// A copy that shares the attributes.
    fn clone(&self) -> Result<Attributes, AllocError> {
        Ok(Attributes {
            attrs: self.attrs.clone()?,
        })
    }
}

// These types as those of required attributes.
fn all_required(
    alloc: Global,
    types: Vec<(RcStr, Type)>,
) -> Result<Vec<(RcStr, AttributeType)>, AllocError>
    ensures { IfOk result (λ attrs. declared_pairs attrs.items ≡ required_pairs types.items) }
{
    let mut attrs = Vec::with_capacity(alloc, types.len())?;
    for (name, ty) in types {
        attrs.push((name, AttributeType::required_attribute(ty)))?;
    }
    Ok(attrs)
}

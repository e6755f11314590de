//! The annotations of policies.

ghost use Rattle.std.specs.Prelude.{◌≡◌, [], map, option_map, OnOk, OnErr};
ghost use Rattle.std.specs.BTreeMap.{insert_entry};
ghost use Rattle.std.specs.Map.{lookup};
ghost use Rattle.std.specs.Rc.{rc_str_bytes};
ghost use Rattle.std.specs.Str.{bytes_eq};
ghost use Rattle.cedar_expr_names.specs.Views.{any_id_text};
ghost use Rattle.cedar_expr_model.specs.Order.{text_cmp};
ghost use Rattle.cedar_store_parts.specs.Parts.{annotation_text, annotation_pair, annotations_of, annotation_seen, seen_pair, annotations_seen};

use cedar_expr_names::{AnyId, Loc};
use std::alloc::{AllocError, Global};
use std::collections::BTreeMap;
use std::collections::btree_map::Iter;
use std::rc::RcStr;

/// What an annotation says, and where it stands. Equality, order and hash go by the text alone.
#[derive(Debug, Drop)]
#[derive_where(PartialEq, Eq, PartialOrd, Ord, Hash)]
pub struct Annotation {
    /// Its text.
    pub val: RcStr,

    /// Its place.
    #[derive_where(skip(EqHashOrd))]
    pub loc: Option<Loc>,
}

/// The annotations of a policy, by their names.
#[derive(Debug, PartialEq, Eq)]
pub struct Annotations(BTreeMap<AnyId, Annotation>);

// prover: see ARCHITECTURE
impl Drop for Annotations {
    fn drop(self) {
        let Annotations(_) = self;
    }
}

impl Annotations {
    /// No annotations.
    pub fn new(alloc: Global) -> Annotations
        ensures texts { annotations_of result ≡ [] }
        ensures seen { annotations_seen result ≡ [] }
    {
        Annotations(BTreeMap::new(alloc))
    }

    /// Puts one more annotation under a name; one that stood there goes. Fails only when out of memory.
    pub fn insert(&mut self, name: AnyId, annotation: Annotation) -> Result<(), AllocError>
        ensures put { OnOk result (annotations_of self.new ≡ insert_entry text_cmp (annotations_of self.old) (any_id_text name) (annotation_text annotation)) }
        ensures unchanged { OnErr result (annotations_of self.new ≡ annotations_of self.old) }
        ensures seen { OnOk result (annotations_seen self.new ≡ insert_entry text_cmp (annotations_seen self.old) (any_id_text name) (annotation_seen annotation)) }
        ensures seen_unchanged { OnErr result (annotations_seen self.new ≡ annotations_seen self.old) }
    {
        self.0.insert(name, annotation)?;
        Ok(())
    }

    /// The annotation of this name, if there is one.
    pub fn get(&self, name: &AnyId) -> Option<&Annotation>
        ensures text { option_map (λ a. annotation_text a.now) result ≡ lookup (bytes_eq (any_id_text name.now)) (annotations_of self.now) }
        ensures seen { option_map (λ a. annotation_seen a.now) result ≡ lookup (bytes_eq (any_id_text name.now)) (annotations_seen self.now) }
    {
        self.0.get(name)
    }

    /// Goes over the annotations, in the order of their names.
    pub fn iter(&self) -> Iter<'_, AnyId, Annotation>
        ensures texts { map annotation_pair result ≡ annotations_of self.now }
        ensures seen { map seen_pair result ≡ annotations_seen self.now }
    {
        self.0.iter()
    }
}

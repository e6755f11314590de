//! What the common types stand for.

ghost use Rattle.std.specs.Prelude.{◌≡◌, option_map, OnOk, OnErr};
ghost use Rattle.std.specs.BTreeMap.{insert_entry};
ghost use Rattle.std.specs.Option.{option_map_or};
ghost use Rattle.cedar_expr_names.specs.Views.{name_of};
ghost use Rattle.cedar_schema_model.specs.Types.{never};
ghost use Rattle.cedar_schema_types.specs.Types.{type_of};
ghost use Rattle.cedar_schema_resolver.specs.Commons.{common_seen, no_commons, commons_with, common_kept, none_kept, kept_with};

use cedar_expr_names::InternalName;
use cedar_schema_types::Type;
use std::alloc::{AllocError, Global};
use std::collections::BTreeMap;

/// The types that common types stand for, by the names of the common types.
#[derive(Drop)]
pub struct CommonTypes {
    types: BTreeMap<InternalName, Type>,
}

impl CommonTypes {
    /// Without any common type.
    pub fn empty(alloc: Global) -> CommonTypes
        ensures seen { common_seen result ≡ no_commons }
        ensures kept { common_kept result ≡ none_kept }
    {
        CommonTypes {
            types: BTreeMap::new(alloc),
        }
    }

    /// The type that the common type of this name stands for, if there is one.
    pub fn get(&self, name: &InternalName) -> Option<&Type>
        ensures seen { option_map_or (λ t. type_of t.now) result never ≡ common_seen self.now (name_of name.now) }
        ensures kept { option_map (λ t. type_of t.now) result ≡ common_kept self.now (name_of name.now) }
    {
        self.types.get(name)
    }

    /// Takes the common type of this name for one that stands for this type. Fails only when out of memory, and then the types stay.
    pub fn insert(&mut self, name: InternalName, ty: Type) -> Result<(), AllocError>
        ensures inserted { OnOk result (common_seen self.new ≡ commons_with (name_of name) (type_of ty) (common_seen self.old)) }
        ensures kept { OnOk result (common_kept self.new ≡ kept_with (name_of name) (type_of ty) (common_kept self.old)) }
        ensures unchanged { OnErr result (common_seen self.new ≡ common_seen self.old) }
        ensures kept_unchanged { OnErr result (common_kept self.new ≡ common_kept self.old) }
    {
        put(&mut self.types, name, ty)
    }
}

// Puts the value in its place, or in that of one under the same key.
fn put<K: Ord + Drop, V: Drop>(map: &mut BTreeMap<K, V>, key: K, value: V) -> Result<(), AllocError>
    ensures put { OnOk result (map.new.entries ≡ insert_entry K.cmp map.old.entries key value) }
    ensures unchanged { OnErr result (map.new.entries ≡ map.old.entries) }
{
    map.insert(key, value)?;
    Ok(())
}

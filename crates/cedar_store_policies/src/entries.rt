//! Entries of a set of policies, each under an id.

ghost use Rattle.std.specs.Prelude.{◌≡◌, ◌++◌, ◌∷◌, [], false, OnOk, OnErr};
ghost use Rattle.std.specs.List.{list_any};
ghost use Rattle.std.specs.Str.{bytes_eq};
ghost use Rattle.cedar_store_parts.specs.Parts.{id_text};
ghost use Rattle.cedar_store_policies.specs.SetParts.{keys_in};

use cedar_store_parts::PolicyID;
use indexmap::IndexMap;
use std::alloc::AllocError;

// Whether an entry stands under the id.
pub(crate) fn has_key<V>(map: &IndexMap<PolicyID, V>, id: &PolicyID) -> bool
    ensures { result ≡ list_any (bytes_eq (id_text id.now)) (keys_in map.now.entries) }
{
    map.contains_key(id)
}

// Puts one more entry at the end, under an id under which none stands.
pub(crate) fn put<V: Drop>(
    map: &mut IndexMap<PolicyID, V>,
    id: PolicyID,
    value: V,
) -> Result<(), AllocError>
    requires { list_any (bytes_eq (id_text id)) (keys_in map.old.entries) ≡ false }
    ensures put { OnOk result (map.new.entries ≡ map.old.entries ++ (id, value) ∷ []) }
    ensures unchanged { OnErr result (map.new.entries ≡ map.old.entries) }
{
    map.insert(id, value)?;
    Ok(())
}

//! Maps from names to what stands under them.

ghost use Rattle.std.specs.Prelude.{◌≡◌, map, IfOk};
ghost use Rattle.std.specs.BTreeMap.{IsOrdered};
ghost use Rattle.cedar_expr_model.specs.Records.{in_order};
ghost use Rattle.cedar_expr_values.specs.Fields.{by_text};

use std::alloc::{AllocError, Global};
use std::collections::BTreeMap;
use std::rc::RcStr;

/// The map of these pairs. Of a repeated name the last stands. Fails only when out of memory.
pub fn field_map<V: Drop>(
    alloc: Global,
    pairs: Vec<(RcStr, V)>,
) -> Result<BTreeMap<RcStr, V>, AllocError>
    ensures { IfOk result (λ m. map by_text m.entries ≡ in_order (map by_text pairs.items)) }
{
    let mut fields = BTreeMap::new(alloc);
    for (name, value) in pairs {
        fields.insert(name, value)?;
    }
    Ok(fields)
}

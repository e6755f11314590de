//! The types of principals and of resources of all actions.

ghost use Rattle.std.specs.Prelude.{◌≡◌, ◌++◌, map, IfOk, OnOk};
ghost use Rattle.std.specs.Vec.Iter.{into_iter_items};
ghost use Rattle.cedar_expr_names.specs.Views.{type_name_of};
ghost use Rattle.cedar_schema_model.specs.Kept.{kept_principals, kept_resources};
ghost use Rattle.cedar_schema_built.specs.Views.{schema_kept, names_of_types};

use crate::schema::ValidatorSchema;
use cedar_expr_names::EntityType;
use std::alloc::{AllocError, Global};
use std::collections::btree_set::Iter;
use std::vec::IntoIter;

impl ValidatorSchema {
    /// Goes over the types of principals of each action in turn; a type that several have comes once for each. The room is made at
    /// the start. Fails only when out of memory.
    pub fn principals(&self, alloc: Global) -> Result<IntoIter<&EntityType>, AllocError>
        ensures { IfOk result (λ ts. names_of_types (into_iter_items ts) ≡ kept_principals (schema_kept self.entry.now)) }
    {
        let mut found = Vec::new(alloc);
        for action in self.action_ids() {
            add_types(&mut found, action.principals())?;
        }
        Ok(found.into_iter())
    }

    /// Goes over the types of resources of each action in turn; a type that several have comes once for each. The room is made at
    /// the start. Fails only when out of memory.
    pub fn resources(&self, alloc: Global) -> Result<IntoIter<&EntityType>, AllocError>
        ensures { IfOk result (λ ts. names_of_types (into_iter_items ts) ≡ kept_resources (schema_kept self.entry.now)) }
    {
        let mut found = Vec::new(alloc);
        for action in self.action_ids() {
            add_types(&mut found, action.resources())?;
        }
        Ok(found.into_iter())
    }
}

// Puts these types behind those that were found. Fails only when out of memory.
fn add_types<'a>(
    found: &mut Vec<&'a EntityType>,
    types: Iter<'a, EntityType>,
) -> Result<(), AllocError>
    ensures { OnOk result (names_of_types found.new.items ≡ names_of_types found.old.items ++ map type_name_of types.entry) }
{
    for ty in types {
        found.push(ty)?;
    }
    Ok(())
}

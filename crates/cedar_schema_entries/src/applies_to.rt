//! What an action applies to.

ghost use Rattle.std.specs.Prelude.{◌≡◌, map};
ghost use Rattle.std.specs.List.{list_any};
ghost use Rattle.cedar_expr_model.specs.Name.{name_eq};
ghost use Rattle.cedar_expr_names.specs.Views.{type_name_of};
ghost use Rattle.cedar_schema_entries.specs.Views.{applied_seen};

use cedar_expr_names::EntityType;
use std::collections::BTreeSet;
use std::collections::btree_set::Iter;

/// The types of principals and of resources that an action applies to, each once.
#[derive(Debug, PartialEq, Eq)]
pub struct AppliesTo {
    pub(crate) principals: BTreeSet<EntityType>,
    pub(crate) resources: BTreeSet<EntityType>,
}

// prover: see ARCHITECTURE
impl Drop for AppliesTo {
    fn drop(self) {
        let AppliesTo {
            principals: _,
            resources: _,
        } = self;
    }
}

impl AppliesTo {
    /// These types of principals and of resources.
    pub fn new(principals: BTreeSet<EntityType>, resources: BTreeSet<EntityType>) -> AppliesTo
        ensures { applied_seen result ≡ record { principals = map type_name_of principals.keys; resources = map type_name_of resources.keys } }
    {
        AppliesTo {
            principals,
            resources,
        }
    }

    /// Whether the action applies to principals of this type.
    pub fn is_applicable_principal_type(&self, ty: &EntityType) -> bool
        ensures { result ≡ list_any (name_eq (type_name_of ty.now)) (applied_seen self.now).principals }
    {
        self.principals.contains(ty)
    }

    /// Whether the action applies to resources of this type.
    pub fn is_applicable_resource_type(&self, ty: &EntityType) -> bool
        ensures { result ≡ list_any (name_eq (type_name_of ty.now)) (applied_seen self.now).resources }
    {
        self.resources.contains(ty)
    }

    /// Goes over the types of principals, in the order of their names.
    pub fn applicable_principal_types(&self) -> Iter<'_, EntityType>
        ensures { map type_name_of result ≡ (applied_seen self.now).principals }
    {
        self.principals.iter()
    }

    /// Goes over the types of resources, in the order of their names.
    pub fn applicable_resource_types(&self) -> Iter<'_, EntityType>
        ensures { map type_name_of result ≡ (applied_seen self.now).resources }
    {
        self.resources.iter()
    }
}

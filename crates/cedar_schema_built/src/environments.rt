//! The environments of a schema.

ghost use Rattle.std.specs.Prelude.{◌≡◌, ◌++◌, ◌∷◌, [], map, IfOk, OnOk};
ghost use Rattle.std.specs.List.{flat_map};
ghost use Rattle.cedar_expr_names.specs.Views.{type_name_of, uid_of};
ghost use Rattle.cedar_schema_entries.specs.Views.{action_seen};
ghost use Rattle.cedar_schema_model.specs.Kept.{kinds_with, kinds_of, kept_environments};
ghost use Rattle.cedar_schema_built.specs.Views.{schema_kept, request_kind};

use crate::schema::ValidatorSchema;
use cedar_expr_names::{EntityType, EntityUID};
use cedar_schema_entries::ValidatorActionId;
use cedar_store_parts::RequestType;
use std::alloc::{AllocError, Global};

impl ValidatorSchema {
    /// The environments: each action with each of its principal and resource types, in the order in which the schema keeps them. Fails only
    /// when out of memory.
    pub fn unlinked_request_envs(&self, alloc: Global) -> Result<Vec<RequestType>, AllocError>
        ensures { IfOk result (λ rs. map request_kind rs.items ≡ kept_environments (schema_kept self.now)) }
    {
        let mut found = Vec::new(alloc);
        for action in self.action_ids() {
            add_environments(&mut found, action)?;
        }
        Ok(found)
    }
}

/// The types of the requests of an action: each of its principal types with each of its resource types. Fails only when out of memory.
pub fn request_types_of(
    alloc: Global,
    action: &ValidatorActionId,
) -> Result<Vec<RequestType>, AllocError>
    ensures { IfOk result (λ rs. map request_kind rs.items ≡ kinds_of (action_seen action.now)) }
{
    let mut found = Vec::new(alloc);
    add_environments(&mut found, action)?;
    Ok(found)
}

// Appends the environments of the action to those that were found. Fails only when out of memory.
fn add_environments(
    found: &mut Vec<RequestType>,
    action: &ValidatorActionId,
) -> Result<(), AllocError>
    ensures { OnOk result (map request_kind found.new.items ≡ map request_kind found.old.items ++ kinds_of (action_seen action.now)) }
{
    for principal in action.principals() {
        add_kinds(found, action, principal)?;
    }
    Ok(())
}

// Appends the environments of the action with principals of this type to those that were found.
fn add_kinds(
    found: &mut Vec<RequestType>,
    action: &ValidatorActionId,
    principal: &EntityType,
) -> Result<(), AllocError>
    ensures { OnOk result (map request_kind found.new.items ≡ map request_kind found.old.items ++ kinds_with (action_seen action.now).uid (action_seen action.now).applied.resources (type_name_of principal.now)) }
{
    for resource in action.resources() {
        add_kind(found, action.name(), principal, resource)?;
    }
    Ok(())
}

// Appends the environment of the action with a principal and a resource of these types to those that were found.
fn add_kind(
    found: &mut Vec<RequestType>,
    action: &EntityUID,
    principal: &EntityType,
    resource: &EntityType,
) -> Result<(), AllocError>
    ensures { OnOk result (map request_kind found.new.items ≡ map request_kind found.old.items ++ record { principal = type_name_of principal.now; action = uid_of action.now; resource = type_name_of resource.now } ∷ []) }
{
    let kind = RequestType {
        principal: principal.clone()?,
        action: action.clone()?,
        resource: resource.clone()?,
    };
    found.push(kind)?;
    Ok(())
}

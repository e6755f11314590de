//! The environments of actions.

ghost use Rattle.std.specs.Prelude.{◌≡◌, map, IfOk, OnOk};
ghost use Rattle.std.specs.List.{flat_map};
ghost use Rattle.cedar_schema_entries.specs.Views.{action_seen};
ghost use Rattle.cedar_schema_types.specs.Types.{type_of, attributes_of};
ghost use Rattle.cedar_typechecker_environments.specs.Settings.{environment_of, AddsEnvironments};
ghost use Rattle.cedar_typechecker_model.specs.Asked.{environments_kept};
ghost use Rattle.cedar_typechecker_model.specs.Seen.{context_of};

use cedar_expr_names::EntityUID;
use cedar_schema_built::request_types_of;
use cedar_schema_entries::ValidatorActionId;
use cedar_schema_types::{Attributes, Type};
use cedar_typechecker_environments::RequestEnv;
use std::alloc::{AllocError, Global};
use std::collections::btree_map::Values;

// The environments of these actions, in their order: each with each of its types of principals and of resources. Fails only when out of memory.
pub(crate) fn environments_of(
    alloc: Global,
    actions: Values<'_, EntityUID, ValidatorActionId>,
) -> Result<Vec<RequestEnv>, AllocError>
    ensures { IfOk result (λ es. map environment_of es.items ≡ flat_map environments_kept (map action_seen actions.entry)) }
{
    let mut found = Vec::new(alloc);
    for action in actions {
        add_environments(alloc, &mut found, action)?;
    }
    Ok(found)
}

// Appends the environments of the action to those that were found. Fails only when out of memory.
fn add_environments(
    alloc: Global,
    found: &mut Vec<RequestEnv>,
    action: &ValidatorActionId,
) -> Result<(), AllocError>
    ensures { OnOk result (AddsEnvironments found.old found.new (environments_kept (action_seen action.now))) }
{
    let kinds = request_types_of(alloc, action)?;
    for kind in kinds {
        let context = attributes_in(alloc, action.context())?;
        found.push(RequestEnv::of_request_type(kind, context))?;
    }
    Ok(())
}

// The attributes of a record type, which are shared; none of any other. Fails only when out of memory.
fn attributes_in(alloc: Global, ty: &Type) -> Result<Attributes, AllocError>
    ensures { IfOk result (λ as_. attributes_of as_ ≡ context_of (type_of ty.now)) }
{
    match ty {
        Type::Record { attrs, .. } => attrs.clone(),
        Type::Never
        | Type::Bool(_)
        | Type::Long
        | Type::String
        | Type::Entity(_)
        | Type::Set { .. }
        | Type::ExtensionType { .. } => Attributes::with_attributes(alloc, Vec::new(alloc)),
    }
}

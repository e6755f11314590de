//! The environments of policies.

ghost use Rattle.std.specs.Prelude.{◌≡◌, ◌∷◌, [], map, option_map, IfOk, OnOk};
ghost use Rattle.cedar_expr_names.specs.Views.{type_name_of};
ghost use Rattle.cedar_schema_model.specs.Environment.{environments, types_above, slot_types, with_slots, in_slot};
ghost use Rattle.cedar_store_policies.specs.Templates.{template_of};
ghost use Rattle.cedar_typechecker_model.specs.Verdicts.{policy_environments, scope_use};
ghost use Rattle.cedar_typechecker_environments.specs.Settings.{environment_of, AddsEnvironments, slot_type_seen};
ghost use Rattle.cedar_typechecker_scopes.specs.Uses.{use_of, linked_environments, slots_seen, with_each, each_linked};
ghost use Rattle.cedar_typechecker_scopes.specs.Environments.{environments_in, AreOfSchema, AreOfPolicy};

use crate::slot_use::SlotUse;
use cedar_expr_names::EntityType;
use cedar_store_policies::Template;
use cedar_typechecker_environments::{RequestEnv, TypingSchema};
use std::alloc::{AllocError, Global};

/// What the environments are made of.
pub trait SchemaEnvironments: TypingSchema {
    /// Each declared action with each of its principal and resource types, without slots.
    fn environments(&self, alloc: Global) -> Result<Vec<RequestEnv>, AllocError>
        ensures { IfOk result (λ es. map environment_of es.items ≡ environments (Self.schema self.now)) };

    /// The other entity types that this one descends from.
    fn types_above(&self, alloc: Global, ty: &EntityType) -> Result<Vec<EntityType>, AllocError>
        ensures { IfOk result (λ ts. map type_name_of ts.items ≡ types_above (Self.schema self.now) (type_name_of ty.now)) };
}

/// The environments of a policy: those of the schema, with each type that a slot of its scope may take. A slot that is compared has
/// its variable's type, and one after `in` also each type that this descends from. Fails only when out of memory.
pub fn policy_environments<S: SchemaEnvironments>(
    alloc: Global,
    schema: &S,
    template: &Template,
) -> Result<Vec<RequestEnv>, AllocError>
    ensures { IfOk result (λ es. map environment_of es.items ≡ policy_environments (S.schema schema.now) (template_of template.now)) }
{
    let (principal, resource) = slots_used(template);
    let own = schema.environments(alloc)?;
    match (principal, resource) {
        (SlotUse::NoSlot, SlotUse::NoSlot) => Ok(own),
        _ => linked(alloc, schema, own.as_slice(), principal, resource),
    }
}

/// The environments of a policy, by those of the schema.
#[derive(Drop)]
pub enum PolicyEnvironments<'e> {
    /// Those of the schema: the policy's scope has no slot.
    OfSchema(&'e [RequestEnv]),
    /// Those with the types that the slots may take.
    WithSlots(Vec<RequestEnv>),
}

impl PolicyEnvironments<'_> {
    /// The environments, one after the other.
    pub fn as_slice(&self) -> &[RequestEnv]
        ensures { result.now ≡ environments_in self.now }
    {
        match self {
            PolicyEnvironments::OfSchema(envs) => envs,
            PolicyEnvironments::WithSlots(envs) => envs.as_slice(),
        }
    }
}

/// The environments of a policy, where these are the schema's: none is made anew unless the policy's scope has a slot. Fails only when
/// out of memory.
pub fn policy_environments_by<'e, S: SchemaEnvironments>(
    alloc: Global,
    schema: &S,
    own: &'e [RequestEnv],
    template: &Template,
) -> Result<PolicyEnvironments<'e>, AllocError>
    ensures { AreOfSchema (S.schema schema.now) own.entry.now → IfOk result (AreOfPolicy (S.schema schema.now) (template_of template.now)) }
{
    let (principal, resource) = slots_used(template);
    match (principal, resource) {
        (SlotUse::NoSlot, SlotUse::NoSlot) => Ok(PolicyEnvironments::OfSchema(own)),
        _ => Ok(PolicyEnvironments::WithSlots(linked(alloc, schema, own, principal, resource)?)),
    }
}

// How the scope uses its slots, of the principal and of the resource.
fn slots_used(template: &Template) -> (SlotUse, SlotUse)
    ensures principal { use_of result.0 ≡ scope_use (template_of template.now).principal }
    ensures resource { use_of result.1 ≡ scope_use (template_of template.now).resource }
{
    let principal = SlotUse::of_constraint(&template.principal_constraint().constraint);
    let resource = SlotUse::of_constraint(&template.resource_constraint().constraint);
    (principal, resource)
}

// The environments with each of the types that their slots may take.
fn linked<S: SchemaEnvironments>(
    alloc: Global,
    schema: &S,
    envs: &[RequestEnv],
    principal: SlotUse,
    resource: SlotUse,
) -> Result<Vec<RequestEnv>, AllocError>
    ensures { IfOk result (λ es. map environment_of es.items ≡ each_linked (S.schema schema.now) (use_of principal) (use_of resource) envs.now) }
{
    let mut found = Vec::new(alloc);
    add_all(alloc, schema, &mut found, envs, principal, resource)?;
    Ok(found)
}

// Appends each of the environments, with each of the types that its slots may take, to those that were found.
fn add_all<S: SchemaEnvironments>(
    alloc: Global,
    schema: &S,
    found: &mut Vec<RequestEnv>,
    envs: &[RequestEnv],
    principal: SlotUse,
    resource: SlotUse,
) -> Result<(), AllocError>
    ensures { OnOk result (AddsEnvironments found.old found.new (each_linked (S.schema schema.now) (use_of principal) (use_of resource) envs.now)) }
{
    for env in envs {
        add_linked(alloc, schema, found, env, principal, resource)?;
    }
    Ok(())
}

// Appends the environment, with each of the types that its slots may take, to those that were found.
fn add_linked<S: SchemaEnvironments>(
    alloc: Global,
    schema: &S,
    found: &mut Vec<RequestEnv>,
    env: &RequestEnv,
    principal: SlotUse,
    resource: SlotUse,
) -> Result<(), AllocError>
    ensures { OnOk result (AddsEnvironments found.old found.new (linked_environments (S.schema schema.now) (use_of principal) (use_of resource) (environment_of env.now))) }
{
    let principals = slot_types(alloc, schema, principal, &env.principal)?;
    let resources = slot_types(alloc, schema, resource, &env.resource)?;
    add_for_each(found, env, principals.as_slice(), resources.as_slice())
}

// Appends the environment, with each of these types of the principal's slot and each of these of the resource's, to those that were found.
fn add_for_each(
    found: &mut Vec<RequestEnv>,
    env: &RequestEnv,
    principals: &[Option<EntityType>],
    resources: &[Option<EntityType>],
) -> Result<(), AllocError>
    ensures { OnOk result (AddsEnvironments found.old found.new (with_each (environment_of env.now) (slots_seen principals.now) (slots_seen resources.now))) }
{
    for ty in principals {
        add_each(found, env, ty.as_ref(), resources)?;
    }
    Ok(())
}

// Appends the environment, with this type of the principal's slot and each of these of the resource's, to those that were found.
fn add_each(
    found: &mut Vec<RequestEnv>,
    env: &RequestEnv,
    principal: Option<&EntityType>,
    resources: &[Option<EntityType>],
) -> Result<(), AllocError>
    ensures { OnOk result (AddsEnvironments found.old found.new (map (with_slots (environment_of env.now) (slot_type_seen principal.entry)) (slots_seen resources.now))) }
{
    for resource in resources {
        found.push(env.with_slots(principal, resource.as_ref())?)?;
    }
    Ok(())
}

// The types that a slot takes that is used so, by the type of its variable.
fn slot_types<S: SchemaEnvironments>(
    alloc: Global,
    schema: &S,
    used: SlotUse,
    ty: &EntityType,
) -> Result<Vec<Option<EntityType>>, AllocError>
    ensures { IfOk result (λ ts. slots_seen ts.items ≡ slot_types (S.schema schema.now) (use_of used) (type_name_of ty.now)) }
{
    match used {
        SlotUse::NoSlot => one(alloc, None),
        SlotUse::Equal => one(alloc, Some(ty.clone()?)),
        SlotUse::Inside => at_and_above(alloc, schema, ty),
    }
}

// This type of a slot alone.
fn one(alloc: Global, ty: Option<EntityType>) -> Result<Vec<Option<EntityType>>, AllocError>
    ensures { IfOk result (λ ts. slots_seen ts.items ≡ option_map type_name_of ty ∷ []) }
{
    let mut types = Vec::new(alloc);
    types.push(ty)?;
    Ok(types)
}

// The type and those that it descends from.
fn at_and_above<S: SchemaEnvironments>(
    alloc: Global,
    schema: &S,
    ty: &EntityType,
) -> Result<Vec<Option<EntityType>>, AllocError>
    ensures { IfOk result (λ ts. slots_seen ts.items ≡ slot_types (S.schema schema.now) in_slot (type_name_of ty.now)) }
{
    let mut types = one(alloc, Some(ty.clone()?))?;
    for above in schema.types_above(alloc, ty)? {
        types.push(Some(above))?;
    }
    Ok(types)
}

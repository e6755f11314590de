//! Environments.

ghost use Rattle.std.specs.Prelude.{◌≡◌, IfOk, None, option_map, Some};
ghost use Rattle.cedar_expr_names.specs.Views.{type_name_of, uid_of};
ghost use Rattle.cedar_schema_model.specs.Types.{entity_type, record_type, is_closed};
ghost use Rattle.cedar_schema_model.specs.Environment.{with_slots};
ghost use Rattle.cedar_schema_types.specs.Types.{type_of, attributes_of};
ghost use Rattle.cedar_expr_leaves.specs.Slots.{slot_of};
ghost use Rattle.cedar_store_model.specs.Policy.{binding_of};
ghost use Rattle.cedar_store_parts.specs.Parts.{bindings_of};
ghost use Rattle.cedar_store_parts.specs.Views.{kind_of};
ghost use Rattle.cedar_typechecker_environments.specs.Settings.{environment_of, environment_without_slots, request_kind, with_bound_types, slot_type_seen, action_type};

use crate::setting::TypingSchema;
use cedar_expr_leaves::SlotId;
use cedar_expr_names::{EntityType, EntityUID};
use cedar_schema_types::{Attributes, OpenTag, Type};
use cedar_store_parts::{RequestType, SlotEnv};
use std::alloc::{AllocError, Global};

/// The types of the parts of a request; those of the slots are none where there is no slot.
#[derive(Drop)]
pub struct RequestEnv {
    /// The type of the principal.
    pub principal: EntityType,
    /// The action.
    pub action: EntityUID,
    /// The type of the resource.
    pub resource: EntityType,
    /// The attributes of the context.
    pub context: Attributes,
    /// The type of the principal's slot.
    pub principal_slot: Option<EntityType>,
    /// The type of the resource's slot.
    pub resource_slot: Option<EntityType>,
}

impl RequestEnv {
    /// The environment of a request of these types, whose context has these attributes, without slots.
    pub fn of_request_type(kind: RequestType, context: Attributes) -> RequestEnv
        ensures { environment_of result ≡ environment_without_slots (kind_of kind) (attributes_of context) }
    {
        let RequestType {
            principal,
            action,
            resource,
        } = kind;
        RequestEnv {
            principal,
            action,
            resource,
            context,
            principal_slot: None,
            resource_slot: None,
        }
    }

    /// The types of principal and resource, and the action.
    pub fn to_request_type(&self) -> Result<RequestType, AllocError>
        ensures { IfOk result (λ k. kind_of k ≡ request_kind (environment_of self.now)) }
    {
        let principal = self.principal.clone()?;
        let action = self.action.clone()?;
        let resource = self.resource.clone()?;
        Ok(RequestType {
            principal,
            action,
            resource,
        })
    }

    /// The environment with the slots of the types that they are bound to. A slot that isn't bound has no type.
    pub fn link_slot_env(self, slot_env: &SlotEnv) -> Result<RequestEnv, AllocError>
        ensures { IfOk result (λ e. environment_of e ≡ with_bound_types (environment_of self) (bindings_of slot_env.now)) }
    {
        let principal = type_bound(slot_env, SlotId::principal())?;
        let resource = type_bound(slot_env, SlotId::resource())?;
        Ok(self.link(principal, resource))
    }

    /// The environment with slots of these types.
    pub fn link(
        self,
        principal_slot: Option<EntityType>,
        resource_slot: Option<EntityType>,
    ) -> RequestEnv
        ensures { environment_of result ≡ with_slots (environment_of self) (option_map type_name_of principal_slot) (option_map type_name_of resource_slot) }
    {
        let RequestEnv {
            principal,
            action,
            resource,
            context,
            principal_slot: _,
            resource_slot: _,
        } = self;
        RequestEnv {
            principal,
            action,
            resource,
            context,
            principal_slot,
            resource_slot,
        }
    }

    /// A copy of the environment with slots of these types.
    pub fn with_slots(
        &self,
        principal_slot: Option<&EntityType>,
        resource_slot: Option<&EntityType>,
    ) -> Result<RequestEnv, AllocError>
        ensures { IfOk result (λ e. environment_of e ≡ with_slots (environment_of self.now) (slot_type_seen principal_slot.entry) (slot_type_seen resource_slot.entry)) }
    {
        let kind = self.to_request_type()?;
        let context = self.context.clone()?;
        let principal_slot = slot_type(principal_slot)?;
        let resource_slot = slot_type(resource_slot)?;
        Ok(RequestEnv::of_request_type(kind, context).link(principal_slot, resource_slot))
    }

    /// The entity type of the principal.
    pub fn principal_entity_type(&self) -> &EntityType
        ensures { type_name_of result.now ≡ (environment_of self.now).principal }
    {
        &self.principal
    }

    /// The type of the principal.
    pub fn principal_type(&self, alloc: Global) -> Result<Type, AllocError>
        ensures { IfOk result (λ t. type_of t ≡ entity_type (environment_of self.now).principal) }
    {
        let ty = self.principal.clone()?;
        Type::named_entity_reference(alloc, ty)
    }

    /// The action.
    pub fn action_entity_uid(&self) -> &EntityUID
        ensures { uid_of result.now ≡ (environment_of self.now).action }
    {
        &self.action
    }

    /// The type of the action, where the schema declares the action.
    pub fn action_type<S: TypingSchema>(
        &self,
        alloc: Global,
        schema: &S,
    ) -> Result<Option<Type>, AllocError>
        ensures { IfOk result (λ t. option_map type_of t ≡ action_type (S.schema schema.now) (environment_of self.now)) }
    {
        if schema.declares_action(&self.action) {
            let ty = self.action.entity_type().clone()?;
            Ok(Some(Type::named_entity_reference(alloc, ty)?))
        } else {
            Ok(None)
        }
    }

    /// The entity type of the resource.
    pub fn resource_entity_type(&self) -> &EntityType
        ensures { type_name_of result.now ≡ (environment_of self.now).resource }
    {
        &self.resource
    }

    /// The type of the resource.
    pub fn resource_type(&self, alloc: Global) -> Result<Type, AllocError>
        ensures { IfOk result (λ t. type_of t ≡ entity_type (environment_of self.now).resource) }
    {
        let ty = self.resource.clone()?;
        Type::named_entity_reference(alloc, ty)
    }

    /// The type of the context: the closed record of its attributes.
    pub fn context_type(&self) -> Result<Type, AllocError>
        ensures { IfOk result (λ t. type_of t ≡ record_type (environment_of self.now).context is_closed) }
    {
        let attrs = self.context.clone()?;
        Ok(Type::Record {
            attrs,
            open_attributes: OpenTag::ClosedAttributes,
        })
    }

    /// The type of the principal's slot, if there is one.
    pub fn principal_slot(&self) -> Option<&EntityType>
        ensures { slot_type_seen result ≡ (environment_of self.now).principal_slot }
    {
        self.principal_slot.as_ref()
    }

    /// The type of the resource's slot, if there is one.
    pub fn resource_slot(&self) -> Option<&EntityType>
        ensures { slot_type_seen result ≡ (environment_of self.now).resource_slot }
    {
        self.resource_slot.as_ref()
    }
}

impl Clone for RequestEnv {
    ghost is_clone = { λ e copy. environment_of copy ≡ environment_of e };

    /// A copy of the environment.
    fn clone(&self) -> Result<RequestEnv, AllocError> {
        self.with_slots(self.principal_slot.as_ref(), self.resource_slot.as_ref())
    }
}

// The type of the uid that the slot is bound to, if it is bound.
fn type_bound(slot_env: &SlotEnv, slot: SlotId) -> Result<Option<EntityType>, AllocError>
    ensures { IfOk result (λ t. option_map type_name_of t ≡ option_map (λ u. u.kind) (binding_of (bindings_of slot_env.now) (slot_of slot))) }
{
    match slot_env.get(slot) {
        Some(uid) => Ok(Some(uid.entity_type().clone()?)),
        None => Ok(None),
    }
}

// A copy of the type of a slot, if it has one.
fn slot_type(ty: Option<&EntityType>) -> Result<Option<EntityType>, AllocError>
    ensures { IfOk result (λ t. option_map type_name_of t ≡ slot_type_seen ty.entry) }
{
    match ty {
        Some(ty) => Ok(Some(ty.clone()?)),
        None => Ok(None),
    }
}

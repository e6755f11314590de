//! Requests.

ghost use Rattle.std.specs.Prelude.{◌≡◌, option_map, IfOk, IfErr};
ghost use Rattle.cedar_store_parts.specs.Views.{kind_of};
ghost use Rattle.cedar_evaluator_requests.specs.Kinds.{kind_asked};
ghost use Rattle.cedar_evaluator_requests.specs.Schemas.{Passes, Refuses};
ghost use Rattle.cedar_evaluator_requests.specs.Views.{entry_of, request_of, request_by_uids, request_by_entries, context_or_unknown, principal_place, action_place, resource_place, entry_place};

use crate::context::Context;
use crate::entry::EntityUIDEntry;
use crate::schema::{RequestError, RequestSchema};
use cedar_expr_functions::Extensions;
use cedar_expr_names::{EntityUID, Loc};
use cedar_store_parts::RequestType;
use std::alloc::{AllocError, Global};

/// A request: who asks, what is to be done, with what, and what is known beside them. Each may be unknown.
#[derive(Debug)]
pub struct Request {
    principal: EntityUIDEntry,
    action: EntityUIDEntry,
    resource: EntityUIDEntry,
    context: Option<Context>,
}

// prover: see ARCHITECTURE
impl Drop for Request {
    fn drop(self) {
        let Request {
            principal: _,
            action: _,
            resource: _,
            context: _,
        } = self;
    }
}

impl Request {
    /// The request of these uids, each at its place, and this context. The schema is asked of it, if there is one.
    ///
    /// # Errors
    /// `Schema` with what the schema says against it, and `OutOfMemory`.
    pub fn new<S: RequestSchema>(
        alloc: Global,
        principal: (EntityUID, Option<Loc>),
        action: (EntityUID, Option<Loc>),
        resource: (EntityUID, Option<Loc>),
        context: Context,
        schema: Option<&S>,
        extensions: &Extensions<'_>,
    ) -> Result<Request, RequestError<S::Error>>
        ensures request { IfOk result (λ q. request_of q ≡ request_by_uids principal.0 action.0 resource.0 context) }
        ensures principal_place { IfOk result (λ q. principal_place q ≡ principal.1) }
        ensures action_place { IfOk result (λ q. action_place q ≡ action.1) }
        ensures resource_place { IfOk result (λ q. resource_place q ≡ resource.1) }
        ensures passes { IfOk result (λ q. Passes S.passes_request schema.entry (request_of q)) }
        ensures refuses { IfErr result (Refuses S.refuses_request schema.entry (request_by_uids principal.0 action.0 resource.0 context)) }
    {
        let principal = EntityUIDEntry::known(alloc, principal.0, principal.1)?;
        let action = EntityUIDEntry::known(alloc, action.0, action.1)?;
        let resource = EntityUIDEntry::known(alloc, resource.0, resource.1)?;
        Request::new_with_unknowns(
            principal,
            action,
            resource,
            Some(context),
            schema,
            extensions,
        )
    }

    /// The request of these entries and this context; without a context that is unknown. The schema is asked of it, if there is one.
    ///
    /// # Errors
    /// `Schema` with what the schema says against it, and `OutOfMemory`.
    pub fn new_with_unknowns<S: RequestSchema>(
        principal: EntityUIDEntry,
        action: EntityUIDEntry,
        resource: EntityUIDEntry,
        context: Option<Context>,
        schema: Option<&S>,
        extensions: &Extensions<'_>,
    ) -> Result<Request, RequestError<S::Error>>
        ensures request { IfOk result (λ q. request_of q ≡ request_by_entries principal action resource context) }
        ensures principal_place { IfOk result (λ q. principal_place q ≡ entry_place principal) }
        ensures action_place { IfOk result (λ q. action_place q ≡ entry_place action) }
        ensures resource_place { IfOk result (λ q. resource_place q ≡ entry_place resource) }
        ensures passes { IfOk result (λ q. Passes S.passes_request schema.entry (request_of q)) }
        ensures refuses { IfErr result (Refuses S.refuses_request schema.entry (request_by_entries principal action resource context)) }
    {
        let request = Request::new_unchecked(principal, action, resource, context);
        match schema {
            None => Ok(request),
            Some(schema) => match schema.validate_request(&request, extensions) {
                Ok(()) => Ok(request),
                Err(error) => Err(RequestError::Schema(error)),
            },
        }
    }

    /// The request of these entries and this context; without a context that is unknown. No schema is asked.
    pub fn new_unchecked(
        principal: EntityUIDEntry,
        action: EntityUIDEntry,
        resource: EntityUIDEntry,
        context: Option<Context>,
    ) -> Request
        ensures request { request_of result ≡ request_by_entries principal action resource context }
        ensures principal_place { principal_place result ≡ entry_place principal }
        ensures action_place { action_place result ≡ entry_place action }
        ensures resource_place { resource_place result ≡ entry_place resource }
    {
        Request {
            principal,
            action,
            resource,
            context,
        }
    }

    /// Who asks.
    pub fn principal(&self) -> &EntityUIDEntry
        ensures entry { entry_of result.now ≡ (request_of self.now).principal }
        ensures place { entry_place result.now ≡ principal_place self.now }
    {
        &self.principal
    }

    /// What is to be done.
    pub fn action(&self) -> &EntityUIDEntry
        ensures entry { entry_of result.now ≡ (request_of self.now).action }
        ensures place { entry_place result.now ≡ action_place self.now }
    {
        &self.action
    }

    /// What it is to be done with.
    pub fn resource(&self) -> &EntityUIDEntry
        ensures entry { entry_of result.now ≡ (request_of self.now).resource }
        ensures place { entry_place result.now ≡ resource_place self.now }
    {
        &self.resource
    }

    /// What is known beside them, if that is known at all.
    pub fn context(&self) -> Option<&Context>
        ensures { context_or_unknown (option_map (λ c. c.now) result) ≡ (request_of self.now).context }
    {
        self.context.as_ref()
    }

    /// The types of principal and resource, and the action, if all three uids are known.
    pub fn to_request_type(&self) -> Result<Option<RequestType>, AllocError>
        ensures { IfOk result (λ k. option_map kind_of k ≡ kind_asked (request_of self.now)) }
    {
        let Some(principal) = self.principal.uid() else {
            return Ok(None);
        };
        let Some(action) = self.action.uid() else {
            return Ok(None);
        };
        let Some(resource) = self.resource.uid() else {
            return Ok(None);
        };
        let principal = principal.entity_type().clone()?;
        let action = action.clone()?;
        let resource = resource.entity_type().clone()?;
        Ok(Some(RequestType {
            principal,
            action,
            resource,
        }))
    }
}

impl Clone for Request {
    ghost is_clone = { λ q copy. request_of copy ≡ request_of q };

    fn clone(&self) -> Result<Request, AllocError> {
        let principal = self.principal.clone()?;
        let action = self.action.clone()?;
        let resource = self.resource.clone()?;
        let context = match &self.context {
            Some(context) => Some(context.clone()?),
            None => None,
        };
        Ok(Request {
            principal,
            action,
            resource,
            context,
        })
    }
}

//! Requests against a schema.

ghost use Rattle.std.specs.Prelude.{◌≡◌, ◌||◌, None, IfOk, IfErr, OnOk, option_map, is_none};
ghost use Rattle.cedar_evaluator_model.specs.Known.{known_entry};
ghost use Rattle.cedar_evaluator_requests.specs.Views.{entry_of};
ghost use Rattle.cedar_expr_names.specs.Views.{uid_of};
ghost use Rattle.cedar_gate_model.specs.Alike.{ConformsAlike};
ghost use Rattle.cedar_gate_model.specs.Asked.{of_kept_action, is_unlisted, has_wrong_context, is_no_kept_member, has_open_part, kept_request_fault};
ghost use Rattle.cedar_gate_model.specs.First.{first_fault};
ghost use Rattle.cedar_schema_built.specs.Views.{schema_kept};
ghost use Rattle.cedar_schema_entries.specs.Views.{action_seen};
ghost use Rattle.cedar_schema_model.specs.Kept.{kept_action};
ghost use Rattle.cedar_schema_model.specs.Conforming.{where_known, is_not_listed, has_request_fault, RequestConforms};
ghost use Rattle.cedar_schema_model.specs.Schema.{Schema};
ghost use Rattle.cedar_gate_conforming.specs.Faults.{IsFirst, IsThere};
ghost use Rattle.cedar_gate_conforming.specs.Views.{request_seen, action_asked, names_no_kept_member};

use crate::contexts::{is_open, is_wrong_context};
use crate::faults::ConformFault;
use crate::members::is_no_kept_member;
use cedar_evaluator_requests::{EntityUIDEntry, Request};
use cedar_expr_names::EntityUID;
use cedar_gate_model::conforming_laws::first_faults_are_faults;
use cedar_schema_built::ValidatorSchema;
use cedar_schema_entries::ValidatorActionId;
use std::alloc::AllocError;

/// Checks whether the request conforms to the schema: to each by which the same conforms as by what is kept.
///
/// # Errors
/// Out of memory, or the first of its faults.
pub fn check_request(schema: &ValidatorSchema, request: &Request) -> Result<(), ConformFault>
    ensures conforms { (s : Schema) → ConformsAlike s (schema_kept schema.now) → OnOk result (RequestConforms s (request_seen request.now)) }
    ensures refused { (s : Schema) → ConformsAlike s (schema_kept schema.now) → IfErr result (IsThere (has_request_fault s (request_seen request.now))) }
{
    first_faults_are_faults();
    check_kept(schema, request)
}

// Checks whether the request conforms to what the schema keeps. Errors: the first of its faults.
fn check_kept(schema: &ValidatorSchema, request: &Request) -> Result<(), ConformFault>
    ensures none { OnOk result (first_fault (kept_request_fault (schema_kept schema.now) (request_seen request.now)) ≡ None) }
    ensures first { IfErr result (IsFirst (kept_request_fault (schema_kept schema.now) (request_seen request.now))) }
{
    if names_undeclared(schema, request.action()) {
        return Err(ConformFault::Undeclared);
    }
    if is_unlisted(schema, request) {
        return Err(ConformFault::NotListed);
    }
    if names_no_member(schema, request) {
        return Err(ConformFault::NoMember);
    }
    if has_wrong_context(schema, request)? {
        return Err(ConformFault::Context);
    }
    if has_open_part(request) {
        return Err(ConformFault::OpenPart);
    }
    Ok(())
}

// Whether the action is known, and not declared.
fn names_undeclared(schema: &ValidatorSchema, action: &EntityUIDEntry) -> bool
    ensures { result ≡ where_known (known_entry (entry_of action.now)) (λ u. is_none (kept_action (schema_kept schema.now) u)) }
{
    match action.uid() {
        Some(uid) => is_undeclared(schema, uid),
        None => false,
    }
}

// Whether the action isn't declared.
fn is_undeclared(schema: &ValidatorSchema, uid: &EntityUID) -> bool
    ensures { result ≡ is_none (kept_action (schema_kept schema.now) (uid_of uid.now)) }
{
    match schema.get_action_id(uid) {
        Some(_) => false,
        None => true,
    }
}

// The action, where it is known and declared.
fn action_of<'s>(schema: &'s ValidatorSchema, request: &Request) -> Option<&'s ValidatorActionId>
    ensures { option_map (λ a. action_seen a.now) result ≡ action_asked (schema_kept schema.entry.now) (request_seen request.now) }
{
    match request.action().uid() {
        Some(uid) => schema.get_action_id(uid),
        None => None,
    }
}

// Whether the action is known and declared, and doesn't apply to the type of the principal or of the resource.
fn is_unlisted(schema: &ValidatorSchema, request: &Request) -> bool
    ensures { result ≡ of_kept_action (schema_kept schema.now) (request_seen request.now) (is_unlisted (request_seen request.now)) }
{
    match action_of(schema, request) {
        Some(action) => applies_not(action, request),
        None => false,
    }
}

// Whether the action doesn't apply to the type of the principal or of the resource.
fn applies_not(action: &ValidatorActionId, request: &Request) -> bool
    ensures { result ≡ is_unlisted (request_seen request.now) (action_seen action.now) }
{
    refuses_principal(action, request.principal()) || refuses_resource(action, request.resource())
}

// Whether the principal is known, and the action doesn't apply to its type.
fn refuses_principal(action: &ValidatorActionId, principal: &EntityUIDEntry) -> bool
    ensures { result ≡ is_not_listed (action_seen action.now).applied.principals (known_entry (entry_of principal.now)) }
{
    match principal.uid() {
        Some(uid) => !action.is_applicable_principal_type(uid.entity_type()),
        None => false,
    }
}

// Whether the resource is known, and the action doesn't apply to its type.
fn refuses_resource(action: &ValidatorActionId, resource: &EntityUIDEntry) -> bool
    ensures { result ≡ is_not_listed (action_seen action.now).applied.resources (known_entry (entry_of resource.now)) }
{
    match resource.uid() {
        Some(uid) => !action.is_applicable_resource_type(uid.entity_type()),
        None => false,
    }
}

// Whether the principal or the resource is of an enumerated type, and no member.
fn names_no_member(schema: &ValidatorSchema, request: &Request) -> bool
    ensures { result ≡ names_no_kept_member (schema_kept schema.now) (request_seen request.now) }
{
    is_no_entry_member(schema, request.principal())
        || is_no_entry_member(schema, request.resource())
}

// Whether the uid is known, its type enumerated, and its entity no member.
fn is_no_entry_member(schema: &ValidatorSchema, entry: &EntityUIDEntry) -> bool
    ensures { result ≡ is_no_kept_member (schema_kept schema.now) (known_entry (entry_of entry.now)) }
{
    match entry.uid() {
        Some(uid) => is_no_kept_member(schema, uid),
        None => false,
    }
}

// Whether the action is known and declared, and the context a value that isn't of its type. Fails only when out of memory.
fn has_wrong_context(schema: &ValidatorSchema, request: &Request) -> Result<bool, AllocError>
    ensures { IfOk result (λ b. b ≡ of_kept_action (schema_kept schema.now) (request_seen request.now) (has_wrong_context (request_seen request.now))) }
{
    match action_of(schema, request) {
        Some(action) => is_wrong_context(action.context(), request.context()),
        None => Ok(false),
    }
}

// Whether a part isn't known, or no value yet.
fn has_open_part(request: &Request) -> bool
    ensures { result ≡ has_open_part (request_seen request.now) }
{
    lacks_who(request) || lacks_what(request)
}

// Whether the principal or the action isn't known.
fn lacks_who(request: &Request) -> bool
    ensures { result ≡ (is_none (request_seen request.now).principal || is_none (request_seen request.now).action) }
{
    is_unknown(request.principal()) || is_unknown(request.action())
}

// Whether the resource isn't known, or the context is no value yet.
fn lacks_what(request: &Request) -> bool
    ensures { result ≡ (is_none (request_seen request.now).resource || is_none (request_seen request.now).context) }
{
    is_unknown(request.resource()) || is_open(request.context())
}

// Whether the uid isn't known.
fn is_unknown(entry: &EntityUIDEntry) -> bool
    ensures { result ≡ is_none (known_entry (entry_of entry.now)) }
{
    match entry.uid() {
        Some(_) => false,
        None => true,
    }
}

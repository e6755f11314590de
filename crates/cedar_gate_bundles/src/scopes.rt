//! What policies ask of principal, action and resource, and what their slots are bound to.
ghost use Rattle.std.specs.Prelude.{◌≡◌, Option, Some, None, IfOk, IfErr, codes, option_map};
ghost use Rattle.serde_json.specs.View.{view};
ghost use Rattle.cedar_expr_names.specs.Views.{type_name_of, uid_of};
ghost use Rattle.cedar_store_model.specs.Policy.{any, any_action, no_bindings};
ghost use Rattle.cedar_store_parts.specs.Parts.{target_of, scope_of, action_scope_of, bindings_of};
ghost use Rattle.cedar_gate_model.specs.Reading.{if_there, optional};
ghost use Rattle.cedar_gate_model.specs.ReadingForms.{read_as};
ghost use Rattle.cedar_gate_model.specs.ReadingName.{plain_name_read, uid_read};
ghost use Rattle.cedar_gate_model.specs.ReadingPolicy.{target_read, scope_read, action_scope_read, bindings_read};
ghost use Rattle.cedar_gate_expressions.specs.declared.fault.ReadFault.TheVariants.{Unreadable};

use cedar_expr_leaves::SlotId;
use cedar_expr_names::{EntityType, EntityUID};
use cedar_gate_expressions::{
    ReadFault, Reader, SharedUids, has_only, optional, read_list, read_type, read_uid, required,
};
use cedar_store_parts::{
    ActionConstraint, EntityReference, PrincipalOrResourceConstraint, SlotEnv,
};
use serde_json::Value;
use std::alloc::Global;
use std::rc::Rc;

/// Reads what a policy asks of principal or resource: nothing, where the key is missing.
pub(crate) fn optional_scope(
    alloc: Global,
    value: &Value,
    key: &str,
) -> Result<PrincipalOrResourceConstraint, ReadFault>
    ensures ok { IfOk result (λ s. optional key.now scope_read any (view value.now) ≡ Some (scope_of s)) }
    ensures unreadable { IfErr result (λ f. f ≡ Unreadable → optional key.now scope_read any (view value.now) ≡ None) }
{
    match value.get(key) {
        None => Ok(PrincipalOrResourceConstraint::Any),
        Some(member) => read_scope(alloc, member),
    }
}

// Reads what a policy asks of principal or resource.
#[tactic(auto, using(crate::proofs::ScopeForms::eq_only, crate::proofs::ScopeForms::in_only, crate::proofs::ScopeForms::is_only, crate::proofs::ScopeForms::several))]
fn read_scope(alloc: Global, value: &Value) -> Result<PrincipalOrResourceConstraint, ReadFault>
    ensures ok { IfOk result (λ s. scope_read (view value.now) ≡ Some (scope_of s)) }
    ensures unreadable { IfErr result (λ f. f ≡ Unreadable → scope_read (view value.now) ≡ None) }
{
    if has_only(value, &["eq"]) {
        let target = read_target(alloc, required(value, "eq")?)?;
        return Ok(PrincipalOrResourceConstraint::Eq(target));
    }
    if has_only(value, &["in"]) {
        let target = read_target(alloc, required(value, "in")?)?;
        return Ok(PrincipalOrResourceConstraint::In(target));
    }
    if has_only(value, &["is"]) {
        let kind = read_kind(alloc, required(value, "is")?)?;
        return Ok(PrincipalOrResourceConstraint::Is(kind));
    }
    if has_only(value, &["is", "in"]) {
        let kind = read_kind(alloc, required(value, "is")?)?;
        let target = read_target(alloc, required(value, "in")?)?;
        return Ok(PrincipalOrResourceConstraint::IsIn(kind, target));
    }
    Err(ReadFault::Unreadable)
}

// Reads a type, to be shared.
fn read_kind(alloc: Global, value: &Value) -> Result<Rc<EntityType>, ReadFault>
    ensures ok { IfOk result (λ t. plain_name_read (view value.now) ≡ Some (type_name_of t.value)) }
    ensures unreadable { IfErr result (λ f. f ≡ Unreadable → plain_name_read (view value.now) ≡ None) }
{
    let kind = read_type(alloc, value)?;
    Ok(Rc::new(alloc, kind)?)
}

// Reads a target: a uid, or the slot of its own variable.
fn read_target(alloc: Global, value: &Value) -> Result<EntityReference, ReadFault>
    ensures ok { IfOk result (λ t. target_read (view value.now) ≡ Some (target_of t)) }
    ensures unreadable { IfErr result (λ f. f ≡ Unreadable → target_read (view value.now) ≡ None) }
{
    match value {
        Value::String(word) => match word.as_str() {
            "?" => Ok(EntityReference::Slot(None)),
            _ => Err(ReadFault::Unreadable),
        },
        Value::Array(_) => {
            let uid = read_uid(alloc, value)?;
            Ok(EntityReference::EUID(Rc::new(alloc, uid)?))
        }
        Value::Null | Value::Bool(_) | Value::Number(_) | Value::Object(_) => {
            Err(ReadFault::Unreadable)
        }
    }
}

/// Reads what a policy asks of the action: nothing, where the key is missing.
pub(crate) fn optional_action(alloc: Global, value: &Value) -> Result<ActionConstraint, ReadFault>
    ensures ok { IfOk result (λ s. optional (codes "action") action_scope_read any_action (view value.now) ≡ Some (action_scope_of s)) }
    ensures unreadable { IfErr result (λ f. f ≡ Unreadable → optional (codes "action") action_scope_read any_action (view value.now) ≡ None) }
{
    match value.get("action") {
        None => Ok(ActionConstraint::Any),
        Some(member) => read_action_scope(alloc, member),
    }
}

// Reads what a policy asks of the action.
#[tactic(auto, using(crate::proofs::ScopeForms::action_eq, crate::proofs::ScopeForms::action_in))]
fn read_action_scope(alloc: Global, value: &Value) -> Result<ActionConstraint, ReadFault>
    ensures ok { IfOk result (λ s. action_scope_read (view value.now) ≡ Some (action_scope_of s)) }
    ensures unreadable { IfErr result (λ f. f ≡ Unreadable → action_scope_read (view value.now) ≡ None) }
{
    if has_only(value, &["eq"]) {
        let uid = SharedUids.read(alloc, required(value, "eq")?)?;
        return Ok(ActionConstraint::Eq(uid));
    }
    if has_only(value, &["in"]) {
        let uids = read_list(alloc, &SharedUids, required(value, "in")?)?;
        return Ok(ActionConstraint::In(uids));
    }
    Err(ReadFault::Unreadable)
}

/// Reads what the slots of a policy are bound to: nothing, where the key is missing.
pub(crate) fn optional_bindings(alloc: Global, value: &Value) -> Result<SlotEnv, ReadFault>
    ensures ok { IfOk result (λ b. optional (codes "link") bindings_read no_bindings (view value.now) ≡ Some (bindings_of b)) }
    ensures unreadable { IfErr result (λ f. f ≡ Unreadable → optional (codes "link") bindings_read no_bindings (view value.now) ≡ None) }
{
    match value.get("link") {
        None => Ok(SlotEnv::new()),
        Some(member) => read_bindings(alloc, member),
    }
}

// Reads what the slots of a policy are bound to.
fn read_bindings(alloc: Global, value: &Value) -> Result<SlotEnv, ReadFault>
    ensures ok { IfOk result (λ b. bindings_read (view value.now) ≡ Some (bindings_of b)) }
    ensures unreadable { IfErr result (λ f. f ≡ Unreadable → bindings_read (view value.now) ≡ None) }
{
    if !has_only(value, &["?principal", "?resource"]) {
        return Err(ReadFault::Unreadable);
    }
    let principal = optional(alloc, &SharedUids, value, "?principal")?;
    let resource = optional(alloc, &SharedUids, value, "?resource")?;
    Ok(bound(principal, resource))
}

// These bindings.
fn bound(principal: Option<Rc<EntityUID>>, resource: Option<Rc<EntityUID>>) -> SlotEnv
    ensures { bindings_of result ≡ record {
      principal = option_map (λ u. uid_of u.value) principal;
      resource = option_map (λ u. uid_of u.value) resource;
    } }
{
    let mut bindings = SlotEnv::new();
    if let Some(uid) = principal {
        drop(bindings.insert(SlotId::principal(), uid));
    }
    if let Some(uid) = resource {
        drop(bindings.insert(SlotId::resource(), uid));
    }
    bindings
}

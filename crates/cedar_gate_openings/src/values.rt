//! Which values names take.

ghost use Rattle.std.specs.Prelude.{◌≡◌, Some, option_map, IfOk, IfErr, OnOk};
ghost use Rattle.cedar_expr_names.specs.Views.{uid_of};
ghost use Rattle.cedar_expr_values.specs.Extensions.{extension_of};
ghost use Rattle.cedar_expr_values.specs.Values.{bare, made};
ghost use Rattle.cedar_evaluator_requests.specs.Views.{request_of};
ghost use Rattle.cedar_store_model.specs.Reads as reads;
ghost use Rattle.std.specs.List.{list_any};
ghost use Rattle.cedar_evaluator_requests.specs.Views.{entry_of};
ghost use Rattle.cedar_gate_model.specs.Session.{context_unknowns, IsOtherKind};
ghost use Rattle.cedar_gate_openings.specs.Bound.{context_in};
ghost use Rattle.cedar_gate_openings.specs.Values.{takes, is_against_one, IsAgainstOne, IsNoEntity, IsNoContext, is_record, is_other_kind};
ghost use Rattle.cedar_gate_openings.specs.Faults.{IsValueFault, IsEntryFault, IsUnknownFault, IsContextFault};

use crate::asks::{IsAgainst, any_unknown};
use crate::faults::BindFault;
use crate::names::{entry_named, record_of};
use cedar_evaluator_requests::{Context, EntityUIDEntry, Request};
use cedar_expr_leaves::Literal;
use cedar_expr_names::EntityUID;
use cedar_expr_values::{ExtValue, Value, ValueKind};
use std::alloc::{AllocError, Global};
use std::rc::Rc;

/// The values of expressions.
pub type V = Value<ExtValue>;

/// The uid that a value is.
pub fn uid_in(value: &V) -> Option<&Rc<EntityUID>>
    ensures { option_map (λ u. uid_of u.now.value) result ≡ reads.uid_of (bare extension_of value.entry.now) }
{
    match value.value_kind() {
        ValueKind::Lit(Literal::EntityUID(uid)) => Some(uid),
        ValueKind::Lit(Literal::Bool(_) | Literal::Long(_) | Literal::String(_)) => None,
        ValueKind::Set(_) | ValueKind::Record(_) | ValueKind::ExtensionValue(_) => None,
    }
}

// Whether the value is a record.
fn is_record(value: &V) -> bool
    ensures { result ≡ is_record (made extension_of value.now) }
{
    match value.value_kind() {
        ValueKind::Record(_) => true,
        ValueKind::Lit(_) | ValueKind::Set(_) | ValueKind::ExtensionValue(_) => false,
    }
}

// Whether the value is against an annotation of an unknown of this name in the context. Fails only when out of memory.
fn is_against(
    alloc: Global,
    context: Option<&Context>,
    name: &str,
    value: &V,
) -> Result<bool, AllocError>
    ensures { IfOk result (λ b. b ≡ list_any (is_against_one name.now (bare extension_of value.now)) (context_unknowns (context_in context.entry))) }
{
    match context {
        Some(Context::RestrictedResidual(fields)) => {
            any_unknown(alloc, &record_of(fields)?, &IsAgainst { name, value })
        }
        Some(Context::Value(_)) | None => Ok(false),
    }
}

// Whether the value is against no annotation of an unknown of this name. Errors: a fault that is there.
#[tactic(auto, using(crate::proofs::Taken::against_there, crate::proofs::Taken::against_absent))]
fn check_unknowns(
    alloc: Global,
    context: Option<&Context>,
    name: &str,
    value: &V,
) -> Result<(), BindFault>
    ensures fits { OnOk result (IsAgainstOne (context_unknowns (context_in context.entry)) name.now (made extension_of value.now) → ⊥) }
    ensures refused { IfErr result (IsUnknownFault (context_unknowns (context_in context.entry)) name.now (made extension_of value.now)) }
{
    if is_against(alloc, context, name, value)? {
        return Err(BindFault::AgainstAnnotation);
    }
    Ok(())
}

// Whether the uid is of another type than the entry has.
fn is_other_kind(entry: &EntityUIDEntry, uid: &EntityUID) -> bool
    ensures { result ≡ is_other_kind (entry_of entry.now) (uid_of uid.now) }
{
    match entry {
        EntityUIDEntry::Unknown { ty: Some(ty), .. } => !uid.entity_type().same(ty),
        EntityUIDEntry::Unknown { ty: None, .. } | EntityUIDEntry::Known { .. } => false,
    }
}

// Whether the value may stand for the entry. Errors: a fault that is there.
#[tactic(auto, using(crate::proofs::Taken::other_kind, crate::proofs::Taken::same_kind, crate::proofs::Taken::is_entity))]
fn check_entry(entry: &EntityUIDEntry, value: &V) -> Result<(), BindFault>
    ensures kind { OnOk result (IsOtherKind (Some (entry_of entry.now)) (made extension_of value.now) → ⊥) }
    ensures entity { OnOk result (IsNoEntity (Some (entry_of entry.now)) (made extension_of value.now) → ⊥) }
    ensures refused { IfErr result (IsEntryFault (Some (entry_of entry.now)) (made extension_of value.now)) }
{
    match uid_in(value) {
        None => Err(BindFault::NoEntityOrRecord),
        Some(uid) => {
            if is_other_kind(entry, uid) {
                Err(BindFault::AgainstAnnotation)
            } else {
                Ok(())
            }
        }
    }
}

// Whether the value may stand for the entry, if there is one. Errors: a fault that is there.
fn check_variable(entry: Option<&EntityUIDEntry>, value: &V) -> Result<(), BindFault>
    ensures kind { OnOk result (IsOtherKind (option_map (λ e. entry_of e.now) entry.entry) (made extension_of value.now) → ⊥) }
    ensures entity { OnOk result (IsNoEntity (option_map (λ e. entry_of e.now) entry.entry) (made extension_of value.now) → ⊥) }
    ensures refused { IfErr result (IsEntryFault (option_map (λ e. entry_of e.now) entry.entry) (made extension_of value.now)) }
{
    match entry {
        Some(entry) => check_entry(entry, value),
        None => Ok(()),
    }
}

// Whether the value may stand for the context, where that has this name. Errors: a fault that is there.
#[tactic(auto, using(crate::proofs::Taken::no_context, crate::proofs::Taken::other_name, crate::proofs::Taken::has_record))]
fn check_context(name: &str, value: &V) -> Result<(), BindFault>
    ensures fits { OnOk result (IsNoContext name.now (made extension_of value.now) → ⊥) }
    ensures refused { IfErr result (IsContextFault name.now (made extension_of value.now)) }
{
    if name == "context" && !is_record(value) {
        return Err(BindFault::NoEntityOrRecord);
    }
    Ok(())
}

/// Whether the name takes the value.
///
/// # Errors
///
/// 2 the value is against the annotation, 3 a variable gets no entity or `context` no record; or out of memory.
#[tactic(auto, using(crate::proofs::Refused::entry_fault, crate::proofs::Refused::unknown_fault, crate::proofs::Refused::context_fault))]
pub fn check_value(alloc: Global, request: &Request, name: &str, value: &V) -> Result<(), BindFault>
    ensures takes { OnOk result (takes (request_of request.now) name.now (made extension_of value.now)) }
    ensures refused { IfErr result (λ f. IsValueFault (request_of request.now) name.now (made extension_of value.now) f) }
{
    check_variable(entry_named(request, name), value)?;
    check_unknowns(alloc, request.context(), name, value)?;
    check_context(name, value)
}

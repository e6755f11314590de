//! Which names are open.

ghost use Rattle.std.specs.Prelude.{◌≡◌, option_map, IfOk, IfErr, OnOk, true, false};
ghost use Rattle.cedar_expr_model.specs.Parts.{unknowns};
ghost use Rattle.cedar_expr_trees.specs.Trees.{tree_of};
ghost use Rattle.cedar_evaluator_requests.specs.Views.{entry_of, request_of, restricted_tree};
ghost use Rattle.cedar_gate_model.specs.Session as session;
ghost use Rattle.cedar_gate_model.specs.Session.{context_unknowns};
ghost use Rattle.cedar_gate_openings.specs.Bound.{context_in};
ghost use Rattle.cedar_gate_openings.specs.Names.{bound_in, is_open_by, HasOpenBy, is_open_variable, has_open_in, has_open_by};
ghost use Rattle.cedar_gate_openings.specs.Faults.{IsOpenFault, opens, HaveFitNames, IsNameFault};

use crate::asks::{HasQuote, IsNamed, IsUnbound, IsVariable, any_unknown, is_bound};
use crate::faults::OpenFault;
use crate::values::V;
use cedar_evaluator_requests::{Context, EntityUIDEntry, Request, RestrictedFields};
use cedar_expr_trees::Expr;
use std::alloc::{AllocError, Global};
use std::collections::HashMap;
use std::rc::RcStr;

/// The entry of the request for a variable of this name.
pub fn entry_named<'r>(request: &'r Request, name: &str) -> Option<&'r EntityUIDEntry>
    ensures { option_map (λ e. entry_of e.now) result ≡ session.entry_named (request_of request.entry.now) name.entry.now }
{
    match name {
        "principal" => Some(request.principal()),
        "action" => Some(request.action()),
        "resource" => Some(request.resource()),
        _ => None,
    }
}

// The record of these fields. Fails only when out of memory.
pub(crate) fn record_of(fields: &RestrictedFields) -> Result<Expr, AllocError>
    ensures { IfOk result (λ e. tree_of e ≡ restricted_tree fields.now) }
{
    Ok(Expr::record_arc(fields.fields().clone()?))
}

// Whether the entry is there and unknown.
fn is_unknown(entry: Option<&EntityUIDEntry>) -> bool
    ensures { result ≡ session.is_open_entry (option_map (λ e. entry_of e.now) entry.entry) }
{
    match entry {
        None => false,
        Some(EntityUIDEntry::Unknown { .. }) => true,
        Some(EntityUIDEntry::Known { .. }) => false,
    }
}

// Whether the name is open in the context. Fails only when out of memory.
fn is_open_in(alloc: Global, context: Option<&Context>, name: &str) -> Result<bool, AllocError>
    ensures { IfOk result (λ b. b ≡ session.is_open_context (context_in context.entry) name.entry.now) }
{
    match context {
        Some(Context::Value(_)) => Ok(false),
        Some(Context::RestrictedResidual(fields)) => {
            any_unknown(alloc, &record_of(fields)?, &IsNamed { name })
        }
        None => Ok(name == "context"),
    }
}

/// Whether the name was open in the request and isn't bound. Fails only when out of memory.
pub fn is_open(
    alloc: Global,
    request: &Request,
    bound: &HashMap<RcStr, V>,
    name: &str,
) -> Result<bool, AllocError>
    ensures { IfOk result (λ b. b ≡ is_open_by (request_of request.now) (bound_in bound.now) name.now) }
{
    if is_bound(bound, name) {
        return Ok(false);
    }
    if is_unknown(entry_named(request, name)) {
        return Ok(true);
    }
    is_open_in(alloc, request.context(), name)
}

// Whether something of the context isn't bound. Fails only when out of memory.
fn has_open_in(
    alloc: Global,
    context: Option<&Context>,
    bound: &HashMap<RcStr, V>,
) -> Result<bool, AllocError>
    ensures { IfOk result (λ b. b ≡ has_open_in (bound_in bound.now) (context_in context.entry)) }
{
    match context {
        Some(Context::Value(_)) => Ok(false),
        Some(Context::RestrictedResidual(fields)) => {
            any_unknown(alloc, &record_of(fields)?, &IsUnbound { bound })
        }
        None => Ok(!is_bound(bound, "context")),
    }
}

// Whether the variable of this name is open.
fn is_open_variable(request: &Request, bound: &HashMap<RcStr, V>, name: &str) -> bool
    ensures { result ≡ is_open_variable (request_of request.now) (bound_in bound.now) name.now }
{
    !is_bound(bound, name) && is_unknown(entry_named(request, name))
}

// Whether a variable is open, or something of the context. Fails only when out of memory.
fn any_open(alloc: Global, request: &Request, bound: &HashMap<RcStr, V>) -> Result<bool, AllocError>
    ensures { IfOk result (λ b. b ≡ has_open_by (request_of request.now) (bound_in bound.now)) }
{
    if is_open_variable(request, bound, "principal")
        || is_open_variable(request, bound, "action")
        || is_open_variable(request, bound, "resource")
    {
        return Ok(true);
    }
    has_open_in(alloc, request.context(), bound)
}

/// Whether something is open. Fails only when out of memory.
pub fn has_open(
    alloc: Global,
    request: &Request,
    bound: &HashMap<RcStr, V>,
) -> Result<bool, AllocError>
    ensures open { IfOk result (λ b. b ≡ true → HasOpenBy (request_of request.now) (bound_in bound.now)) }
    ensures none { IfOk result (λ b. b ≡ false → HasOpenBy (request_of request.now) (bound_in bound.now) → ⊥) }
{
    any_open(alloc, request, bound)
}

// Whether the names of a context's unknowns are fit. Errors: a fault that is there.
#[tactic(auto, using(crate::proofs::Absent::quoted, crate::proofs::Absent::variable, crate::proofs::Absent::fit_names))]
fn check_fields(alloc: Global, fields: &RestrictedFields) -> Result<(), OpenFault>
    ensures fit { OnOk result (HaveFitNames (unknowns (restricted_tree fields.now))) }
    ensures refused { IfErr result (IsNameFault (unknowns (restricted_tree fields.now))) }
{
    let record = record_of(fields)?;
    if any_unknown(alloc, &record, &HasQuote)? {
        return Err(OpenFault::QuoteInName);
    }
    if any_unknown(alloc, &record, &IsVariable)? {
        return Err(OpenFault::NameOfVariable);
    }
    Ok(())
}

// Whether the names of the unknowns of a context, if it is there, are fit. Errors: a fault that is there.
fn check_context(alloc: Global, context: Option<&Context>) -> Result<(), OpenFault>
    ensures fit { OnOk result (HaveFitNames (context_unknowns (context_in context.entry))) }
    ensures refused { IfErr result (IsNameFault (context_unknowns (context_in context.entry))) }
{
    match context {
        Some(Context::RestrictedResidual(fields)) => check_fields(alloc, fields),
        Some(Context::Value(_)) | None => Ok(()),
    }
}

/// Whether a session may be opened with the request.
///
/// # Errors
///
/// 1 the name of an unknown in the context holds a double quote, 2 it is that of a variable; or out of memory.
pub fn check_names(alloc: Global, request: &Request) -> Result<(), OpenFault>
    ensures opens { OnOk result (opens (request_of request.now)) }
    ensures refused { IfErr result (λ f. IsOpenFault (request_of request.now) f) }
{
    check_context(alloc, request.context())
}

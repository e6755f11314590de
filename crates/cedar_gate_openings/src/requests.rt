//! Requests with what is bound to their names.

ghost use Rattle.std.specs.Prelude.{◌≡◌, true, false, codes, IfOk, option_map};
ghost use Rattle.cedar_expr_values.specs.Extensions.{extension_of};
ghost use Rattle.cedar_expr_values.specs.Values.{made};
ghost use Rattle.cedar_evaluator_requests.specs.Views.{entry_of, context_or_unknown, request_of};
ghost use Rattle.cedar_gate_openings.specs.Names.{bound_in};
ghost use Rattle.cedar_gate_model.specs.RunsAsk.{IsMadeContext};
ghost use Rattle.cedar_gate_openings.specs.Bound.{ByFunctions, IsRequestBy, ContextFailsBy, ContextEvaluatesBy, context_in, fails_with, request_with};
ghost use Rattle.cedar_gate_openings.specs.Requests.{entry_with, bound_context, context_by, fails_by};

use crate::contexts::bound_context;
use crate::{V, uid_in};
use cedar_evaluator_requests::{Context, EntityUIDEntry, Request};
use cedar_expr_functions::Extensions;
use cedar_expr_values::ValueKind;
use std::alloc::{AllocError, Global};
use std::collections::HashMap;
use std::rc::RcStr;

/// The request with what is bound to its names, and whether its context fails to evaluate with that. Errors: out of
/// memory.
pub fn request_now(
    alloc: Global,
    table: &Extensions<'_>,
    start: &Request,
    bound: &HashMap<RcStr, V>,
) -> Result<(Request, bool), AllocError>
    ensures request { IfOk result (λ r. ByFunctions table.now (λ x. request_of r.0 ≡ request_with x bound.now start.now)) }
    ensures failing { IfOk result (λ r. ByFunctions table.now (λ x. r.1 ≡ fails_with x bound.now start.now)) }
    ensures at_state { IfOk result (λ r. ByFunctions table.now (λ x. IsRequestBy x bound.now start.now r.0)) }
    ensures fails { IfOk result (λ r. ByFunctions table.now (λ x. r.1 ≡ true → ContextFailsBy x bound.now start.now)) }
    ensures evaluates { IfOk result (λ r. ByFunctions table.now (λ x. r.1 ≡ false → ContextEvaluatesBy x bound.now start.now)) }
{
    request_with(alloc, table, start, bound)
}

// The request with these values, and whether its context fails to evaluate with them.
#[tactic(auto, using(crate::proofs::States::request_made))]
fn request_with(
    alloc: Global,
    table: &Extensions<'_>,
    start: &Request,
    bound: &HashMap<RcStr, V>,
) -> Result<(Request, bool), AllocError>
    ensures request { IfOk result (λ r. ByFunctions table.now (λ x. request_of r.0 ≡ request_with x bound.now start.now)) }
    ensures failing { IfOk result (λ r. ByFunctions table.now (λ x. r.1 ≡ fails_with x bound.now start.now)) }
{
    let (context, fails) = context_now(alloc, table, start.context(), bound)?;
    let principal = entry_now(start.principal(), bound_to(bound, "principal"))?;
    let action = entry_now(start.action(), bound_to(bound, "action"))?;
    let resource = entry_now(start.resource(), bound_to(bound, "resource"))?;
    let request = Request::new_unchecked(principal, action, resource, context);
    Ok((request, fails))
}

/// The context of a request is made as the definitions say. The body does nothing.
#[tactic(auto, using(crate::proofs::Fitting::made_request))]
pub fn context_is_made(request: &Request)
    ensures { IsMadeContext (request_of request.now).context }
{
    let _request = request;
}

// The value that is bound to the name.
fn bound_to<'b>(bound: &'b HashMap<RcStr, V>, name: &str) -> Option<&'b V>
    ensures { option_map (λ v. made extension_of v.now) result ≡ bound_in bound.entry.now name.entry.now }
{
    bound.get(name)
}

// The entry with what is bound to its name.
fn entry_now(start: &EntityUIDEntry, value: Option<&V>) -> Result<EntityUIDEntry, AllocError>
    ensures { IfOk result (λ e. entry_of e ≡ entry_with (option_map (λ v. made extension_of v.now) value.entry) (entry_of start.now)) }
{
    match (start, value) {
        (EntityUIDEntry::Unknown { loc, .. }, Some(value)) => match uid_in(value) {
            Some(uid) => Ok(EntityUIDEntry::Known {
                euid: uid.clone()?,
                loc: *loc,
            }),
            None => start.clone(),
        },
        (EntityUIDEntry::Unknown { .. }, None) | (EntityUIDEntry::Known { .. }, _) => start.clone(),
    }
}

// The record that the value is, as a context.
fn record_bound(value: Option<&V>) -> Result<Option<Context>, AllocError>
    ensures { IfOk result (λ c. context_or_unknown c ≡ bound_context (option_map (λ v. made extension_of v.now) value.entry)) }
{
    match value {
        None => Ok(None),
        Some(value) => match value.value_kind() {
            ValueKind::Record(fields) => Ok(Some(Context::Value(fields.clone()?))),
            ValueKind::Lit(_) | ValueKind::Set(_) | ValueKind::ExtensionValue(_) => Ok(None),
        },
    }
}

// The context with what is bound, and whether it fails to evaluate.
#[tactic(auto, using(crate::proofs::Records::left_as_context))]
fn context_now(
    alloc: Global,
    table: &Extensions<'_>,
    start: Option<&Context>,
    bound: &HashMap<RcStr, V>,
) -> Result<(Option<Context>, bool), AllocError>
    ensures context { IfOk result (λ r. ByFunctions table.now (λ x. context_or_unknown r.0 ≡ context_by x (bound_in bound.now) (context_in start.entry))) }
    ensures fails { IfOk result (λ r. ByFunctions table.now (λ x. r.1 ≡ fails_by x (bound_in bound.now) (context_in start.entry))) }
{
    match start {
        Some(Context::RestrictedResidual(fields)) => {
            let context = bound_context(alloc, table, fields, bound)?;
            let fails = context.is_none();
            Ok((context, fails))
        }
        Some(Context::Value(fields)) => Ok((Some(Context::Value(fields.clone()?)), false)),
        None => Ok((record_bound(bound_to(bound, "context"))?, false)),
    }
}

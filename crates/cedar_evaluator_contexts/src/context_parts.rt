//! Contexts with values for what is unknown in them.

ghost use Rattle.std.specs.Prelude.{◌≡◌, option_map, IfOk, Some};
ghost use Rattle.cedar_expr_model.specs.Made.{made_record};
ghost use Rattle.cedar_expr_model.specs.Tree.{context};
ghost use Rattle.cedar_expr_values.specs.Extensions.{extension_of};
ghost use Rattle.cedar_expr_values.specs.Values.{made, fields_made};
ghost use Rattle.cedar_evaluator_model.specs.Reauthorize.{Refusal, context_bound, context_substituted, known_already, wrong_value};
ghost use Rattle.cedar_evaluator_contexts.specs.Functions.{ForScopes};
ghost use Rattle.cedar_evaluator_reads.specs.Scopes.{values_in};
ghost use Rattle.cedar_evaluator_requests.specs.Views.{context_or_unknown, request_of};
ghost use Rattle.cedar_evaluator_contexts.specs.Refusals.{refusal_or, Takes};
ghost use Rattle.cedar_evaluator_contexts.specs.ContextParts.{context_lent, fields_in_value, request_context_bound};

use crate::ContextCalls;
use crate::err::ConcretizationError;
use cedar_evaluator_operators::FunctionTable;
use cedar_evaluator_reads::V;
use cedar_evaluator_requests::{Context, Request};
use cedar_expr_values::{ExtValue, Record, ValueKind};
use std::alloc::{AllocError, Global};
use std::collections::HashMap;
use std::rc::RcStr;

// The context of a request with these values for what is unknown in it.
pub(crate) fn context_now<T: FunctionTable>(
    alloc: Global,
    table: &T,
    request: &Request,
    mapping: &HashMap<RcStr, V>,
) -> Result<Option<Context>, ConcretizationError>
    ensures { ForScopes T.table T.answers_as table.now (λ s. Takes context_or_unknown (request_context_bound s (values_in mapping.now) (request_of request.now)) result) }
{
    match context_with(alloc, request.context(), value_for(mapping, "context")) {
        Ok(context) => substituted(alloc, table, context, mapping),
        Err(error) => Err(error),
    }
}

// A context with these values in the place of its unknowns, evaluated. One of values stays, and so does an unknown one.
fn substituted<T: FunctionTable>(
    alloc: Global,
    table: &T,
    context: Option<Context>,
    mapping: &HashMap<RcStr, V>,
) -> Result<Option<Context>, ConcretizationError>
    ensures { ForScopes T.table T.answers_as table.now (λ s. Takes context_or_unknown (context_substituted s (values_in mapping.now) (context_or_unknown context)) result) }
{
    match context {
        None => Ok(None),
        Some(known) => match known.substitute(alloc, mapping, table) {
            Ok(made) => Ok(Some(made)),
            Err(error) => Err(ConcretizationError::from(error)),
        },
    }
}

// The value for this name, where there is one.
pub(crate) fn value_for<'b>(mapping: &'b HashMap<RcStr, V>, name: &str) -> Option<&'b V>
    ensures { option_map (λ v. made extension_of v.now) result ≡ values_in mapping.entry.now name.entry.now }
{
    mapping.get(name)
}

// The context with the value for it, where there is one. Refuses a value that is no record, and one for a context that is known.
fn context_with(
    alloc: Global,
    context: Option<&Context>,
    value: Option<&V>,
) -> Result<Option<Context>, ConcretizationError>
    ensures { Takes context_or_unknown (context_bound (context_lent context.entry) (option_map (λ v. made extension_of v.now) value.entry)) result }
{
    match value {
        None => Ok(copied(context)?),
        Some(value) => context_given(alloc, context, value),
    }
}

// A copy of the context.
fn copied(context: Option<&Context>) -> Result<Option<Context>, AllocError>
    ensures { IfOk result (λ c. context_or_unknown c ≡ context_or_unknown (option_map (λ c. c.now) context.entry)) }
{
    match context {
        None => Ok(None),
        Some(context) => Ok(Some(context.clone()?)),
    }
}

// The context with this value for it.
fn context_given(
    alloc: Global,
    context: Option<&Context>,
    value: &V,
) -> Result<Option<Context>, ConcretizationError>
    ensures { Takes context_or_unknown (context_bound (context_lent context.entry) (Some (made extension_of value.now))) result }
{
    match record_in(value) {
        Some(fields) => context_as(alloc, context, fields, value),
        None => Err(no_record(alloc, value)?),
    }
}

// The context with these fields for it, which are those of the value.
fn context_as(
    alloc: Global,
    context: Option<&Context>,
    fields: &Record<ExtValue>,
    value: &V,
) -> Result<Option<Context>, ConcretizationError>
    ensures { Takes context_or_unknown (context_bound (context_lent context.entry) (Some (made_record (fields_made extension_of fields.now)))) result }
{
    match context {
        None => Ok(Some(Context::Value(fields.clone()?))),
        Some(context) => Err(known_context(alloc, context, value)?),
    }
}

// The fields of a record.
fn record_in(v: &V) -> Option<&Record<ExtValue>>
    ensures { option_map (λ r. fields_made extension_of r.now) result ≡ fields_in_value (made extension_of v.now) }
{
    match v.value_kind() {
        ValueKind::Record(fields) => Some(fields),
        ValueKind::Lit(_) | ValueKind::Set(_) | ValueKind::ExtensionValue(_) => None,
    }
}

// The refusal of a value that is no record.
#[tactic(auto, using(crate::proofs::Bound::wrong_named))]
fn no_record(alloc: Global, value: &V) -> Result<ConcretizationError, AllocError>
    ensures { IfOk result (λ e. (other : Refusal) → refusal_or other e ≡ wrong_value context) }
{
    Ok(ConcretizationError::ValueError {
        id: RcStr::from_str(alloc, "context")?,
        expected_type: "record",
        given_value: value.clone()?,
    })
}

// The refusal of a value for a context that is known.
#[tactic(auto, using(crate::proofs::Bound::known_named))]
fn known_context(
    alloc: Global,
    known: &Context,
    value: &V,
) -> Result<ConcretizationError, AllocError>
    ensures { IfOk result (λ e. (other : Refusal) → refusal_or other e ≡ known_already context) }
{
    Ok(ConcretizationError::VarConfictError {
        id: RcStr::from_str(alloc, "context")?,
        existing_value: known.clone()?.into_partial_value(),
        given_value: value.clone()?,
    })
}

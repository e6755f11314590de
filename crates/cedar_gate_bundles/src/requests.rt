//! Requests, of which parts may be unknown.
ghost use Rattle.std.specs.Prelude.{◌≡◌, Some, None, IfOk, IfErr};
ghost use Rattle.serde_json.specs.Data.{object};
ghost use Rattle.serde_json.specs.View.{view, members_view};
ghost use Rattle.cedar_evaluator_requests.specs.Views.{entry_of, context_of, context_or_unknown, request_of};
ghost use Rattle.cedar_gate_model.specs.ReadingRequest.{entry_read, request_read};
ghost use Rattle.cedar_gate_model.specs.ReadingValue.{context_read, fields_context_read};
ghost use Rattle.cedar_gate_expressions.specs.declared.fault.ReadFault.TheVariants.{Unreadable};
ghost use Rattle.cedar_gate_bundles.specs.Reading.{ReadsAs, IsUnreadable, context_at};

use crate::values::{evaluated, is_restricted};
use cedar_evaluator_requests::{Context, EntityUIDEntry, Request};
use cedar_evaluator_restricted_exprs::context_left;
use cedar_expr_functions::Extensions;
use cedar_expr_trees::Expr;
use cedar_expr_values::Record;
use cedar_gate_expressions::{
    ReadFault, Reader, SharedUids, Version, has_only, read_fields, read_type, required,
};
use serde_json::{Map, Value};
use std::alloc::Global;
use std::rc::Rc;

/// Reads a request. A context that is missing is empty.
pub(crate) fn read_request(
    alloc: Global,
    table: &Extensions<'_>,
    value: &Value,
) -> Result<Request, ReadFault>
    ensures ok { IfOk result (λ q. ReadsAs table.now (λ x. request_read x (view value.now)) (request_of q)) }
    ensures unreadable { IfErr result (λ f. IsUnreadable table.now (λ x. request_read x (view value.now)) f) }
{
    if !has_only(value, &["principal", "action", "resource", "context"]) {
        return Err(ReadFault::Unreadable);
    }
    let principal = read_entry(alloc, required(value, "principal")?)?;
    let action = read_entry(alloc, required(value, "action")?)?;
    let resource = read_entry(alloc, required(value, "resource")?)?;
    let context = optional_context(alloc, table, value)?;
    Ok(Request::new_unchecked(principal, action, resource, context))
}

// Reads a principal, action or resource: a uid, or an unknown one, of a type where that is known.
fn read_entry(alloc: Global, value: &Value) -> Result<EntityUIDEntry, ReadFault>
    ensures ok { IfOk result (λ e. entry_read (view value.now) ≡ Some (entry_of e)) }
    ensures unreadable { IfErr result (λ f. f ≡ Unreadable → entry_read (view value.now) ≡ None) }
{
    match value {
        Value::Array(_) => Ok(EntityUIDEntry::Known {
            euid: SharedUids.read(alloc, value)?,
            loc: None,
        }),
        Value::String(word) => match word.as_str() {
            "unknown" => Ok(EntityUIDEntry::Unknown {
                ty: None,
                loc: None,
            }),
            _ => Err(ReadFault::Unreadable),
        },
        Value::Object(_) => {
            if !has_only(value, &["unknown"]) {
                return Err(ReadFault::Unreadable);
            }
            let ty = Some(read_type(alloc, required(value, "unknown")?)?);
            Ok(EntityUIDEntry::Unknown { ty, loc: None })
        }
        Value::Null | Value::Bool(_) | Value::Number(_) => Err(ReadFault::Unreadable),
    }
}

// Reads the context of a request: an empty one, where it is missing.
fn optional_context(
    alloc: Global,
    table: &Extensions<'_>,
    value: &Value,
) -> Result<Option<Context>, ReadFault>
    ensures ok { IfOk result (λ c. ReadsAs table.now (λ x. context_at x value.now) (context_or_unknown c)) }
    ensures unreadable { IfErr result (λ f. IsUnreadable table.now (λ x. context_at x value.now) f) }
{
    match value.get("context") {
        None => Ok(Some(Context::Value(Record::empty(alloc)?))),
        Some(member) => read_context(alloc, table, member),
    }
}

// Reads a context: unknown, or an object of restricted expressions.
#[tactic(auto, using(crate::proofs::Parted::context_of_object))]
fn read_context(
    alloc: Global,
    table: &Extensions<'_>,
    value: &Value,
) -> Result<Option<Context>, ReadFault>
    ensures ok { IfOk result (λ c. ReadsAs table.now (λ x. context_read x (view value.now)) (context_or_unknown c)) }
    ensures unreadable { IfErr result (λ f. IsUnreadable table.now (λ x. context_read x (view value.now)) f) }
{
    match value {
        Value::String(word) => match word.as_str() {
            "unknown" => Ok(None),
            _ => Err(ReadFault::Unreadable),
        },
        Value::Object(members) => Ok(Some(context_in(alloc, table, members)?)),
        Value::Null | Value::Bool(_) | Value::Number(_) | Value::Array(_) => {
            Err(ReadFault::Unreadable)
        }
    }
}

// The record of restricted expressions, evaluated.
fn context_in(
    alloc: Global,
    table: &Extensions<'_>,
    members: &Map<String, Value>,
) -> Result<Context, ReadFault>
    ensures ok { IfOk result (λ c. ReadsAs table.now (λ x. fields_context_read x (object (members_view members.now.entries))) (context_of c)) }
    ensures unreadable { IfErr result (λ f. IsUnreadable table.now (λ x. fields_context_read x (object (members_view members.now.entries))) f) }
{
    let fields = read_fields(alloc, Version::Second, members)?;
    let record = Expr::record_arc(Rc::new(alloc, fields)?);
    if !is_restricted(alloc, &record)? {
        return Err(ReadFault::Unreadable);
    }
    let left = evaluated(alloc, table, &record)?;
    match context_left(alloc, &left)? {
        Some(context) => Ok(context),
        None => Err(ReadFault::Unreadable),
    }
}

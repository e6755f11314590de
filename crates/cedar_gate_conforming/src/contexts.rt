//! The context of a request against its type.

ghost use Rattle.std.specs.Prelude.{◌≡◌, not, IfOk, is_none};
ghost use Rattle.cedar_expr_model.specs.Made.{bare_fields};
ghost use Rattle.cedar_expr_model.specs.Value.{record_of};
ghost use Rattle.cedar_expr_values.specs.Extensions.{extension_of};
ghost use Rattle.cedar_expr_values.specs.Values.{fields_made};
ghost use Rattle.cedar_schema_model.specs.Conforming.{where_known};
ghost use Rattle.cedar_schema_model.specs.HasType.{has_type};
ghost use Rattle.cedar_schema_types.specs.Types.{type_of};
ghost use Rattle.cedar_gate_conforming.specs.Views.{context_seen};

use cedar_evaluator_requests::Context;
use cedar_expr_values::{ExtValue, Record, Value};
use cedar_schema_joins::typecheck_value;
use cedar_schema_types::Type;
use std::alloc::AllocError;

// Whether the context is a value that isn't of the type. Fails only when out of memory.
pub(crate) fn is_wrong_context(ty: &Type, context: Option<&Context>) -> Result<bool, AllocError>
    ensures { IfOk result (λ b. b ≡ where_known (context_seen context.entry) (λ v. not (has_type v (type_of ty.now)))) }
{
    match context {
        Some(Context::Value(fields)) => is_wrong_record(ty, fields),
        Some(Context::RestrictedResidual(_)) | None => Ok(false),
    }
}

// Whether the record of these fields isn't of the type. Fails only when out of memory.
fn is_wrong_record(ty: &Type, fields: &Record<ExtValue>) -> Result<bool, AllocError>
    ensures { IfOk result (λ b. b ≡ not (has_type (record_of (bare_fields (fields_made extension_of fields.now))) (type_of ty.now))) }
{
    let record: Value<ExtValue> = Value::record_arc(fields.clone()?, None);
    Ok(!typecheck_value(ty, &record))
}

// Whether the context isn't a value yet.
pub(crate) fn is_open(context: Option<&Context>) -> bool
    ensures { result ≡ is_none (context_seen context.entry) }
{
    match context {
        Some(Context::Value(_)) => false,
        Some(Context::RestrictedResidual(_)) | None => true,
    }
}

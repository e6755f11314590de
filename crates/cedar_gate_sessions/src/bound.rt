//! What names are bound to, and the request with it.

ghost use Rattle.std.specs.Prelude.{◌≡◌, Some, None, IfOk, IfErr, OnOk, OnErr};
ghost use Rattle.std.specs.Rc.{rc_str_bytes};
ghost use Rattle.cedar_expr_model.specs.Name.{Text};
ghost use Rattle.cedar_expr_values.specs.Extensions.{extension_of};
ghost use Rattle.cedar_expr_values.specs.Values.{made};
ghost use Rattle.cedar_evaluator_requests.specs.Views.{request_of};
ghost use Rattle.cedar_gate_openings.specs.Bound.{IsRequestBy, ContextFailsBy, ContextEvaluatesBy};
ghost use Rattle.cedar_gate_openings.specs.Names.{bound_in, Rebinds};
ghost use Rattle.cedar_gate_openings.specs.Roots.{known_roots};
ghost use Rattle.cedar_gate_wanted.specs.Wanting.{IsWanting, IsSameLoading, RootsAreAdded, level_of};
ghost use Rattle.cedar_gate_sessions.specs.Faults.{IsContextFault};
ghost use Rattle.cedar_gate_sessions.specs.Gates.{ForEachSetup};

use crate::gates::{GateCalls, Schema};
use cedar_evaluator_requests::Request;
use cedar_gate_openings::{BindFault, V, roots};
use cedar_gate_wanted::Loading;
use std::alloc::{AllocError, Global};
use std::collections::HashMap;
use std::rc::RcStr;

/// Binds the name to the value. Fails only when out of memory, and then all is as before.
pub(crate) fn put_value(
    bound: &mut HashMap<RcStr, V>,
    name: RcStr,
    value: V,
) -> Result<(), AllocError>
    ensures put { OnOk result (Rebinds (rc_str_bytes name) (Some (made extension_of value)) (bound_in bound.old) (bound_in bound.new)) }
    ensures unchanged { OnErr result ((k : Text) → bound_in bound.new k ≡ bound_in bound.old k) }
{
    bound.insert(name, value)?;
    Ok(())
}

/// Takes away what the name is bound to.
pub(crate) fn take_value(bound: &mut HashMap<RcStr, V>, name: &str)
    ensures { Rebinds name.now None (bound_in bound.old) (bound_in bound.new) }
{
    bound.remove(name);
}

/// Adds the roots of the request, as far as they are known. Fails only when out of memory, and then all is as before.
pub(crate) fn add_known_roots<S: Schema>(
    alloc: Global,
    schema: &S,
    request: &Request,
    loading: &mut Loading,
) -> Result<(), AllocError>
    ensures wanting { OnOk result (IsWanting (S.schema schema.now) loading.old → IsWanting (S.schema schema.now) loading.new) }
    ensures kept { OnOk result (RootsAreAdded loading.old loading.new (known_roots (request_of request.now))) }
    ensures rows { loading.new.rows ≡ loading.old.rows }
    ensures level { level_of loading.new ≡ level_of loading.old }
    ensures unchanged { OnErr result (IsSameLoading loading.old loading.new) }
{
    let roots = roots(alloc, request)?;
    loading.add_roots(alloc, schema, roots.as_slice())
}

/// The request with what is bound, of which the known roots are added.
///
/// # Errors
///
/// 4 the context fails to evaluate; or out of memory. All is as before then.
pub(crate) fn request_bound<G: GateCalls>(
    alloc: Global,
    gate: &G,
    start: &Request,
    bound: &HashMap<RcStr, V>,
    loading: &mut Loading,
) -> Result<Request, BindFault>
    ensures now { IfOk result (λ q. ForEachSetup G.suits gate.now (λ x. IsRequestBy x.functions bound.now start.now q)) }
    ensures evaluates { OnOk result (ForEachSetup G.suits gate.now (λ x. ContextEvaluatesBy x.functions bound.now start.now)) }
    ensures wanting { OnOk result (IsWanting (G.schema gate.now) loading.old → IsWanting (G.schema gate.now) loading.new) }
    ensures kept { IfOk result (λ q. RootsAreAdded loading.old loading.new (known_roots (request_of q))) }
    ensures rows { loading.new.rows ≡ loading.old.rows }
    ensures level { level_of loading.new ≡ level_of loading.old }
    ensures refused { IfErr result (IsContextFault (ForEachSetup G.suits gate.now (λ x. ContextFailsBy x.functions bound.now start.now))) }
    ensures unchanged { OnErr result (IsSameLoading loading.old loading.new) }
{
    let made = gate.request_now(alloc, start, bound)?;
    if made.1 {
        return Err(BindFault::ContextFails);
    }
    add_known_roots(alloc, gate, &made.0, loading)?;
    Ok(made.0)
}

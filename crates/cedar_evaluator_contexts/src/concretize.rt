//! Requests with values for what is unknown in them.

ghost use Rattle.std.specs.Prelude.{◌≡◌, option_map, IfOk, None, Some};
ghost use Rattle.cedar_expr_leaves.specs.Variables.{var_of};
ghost use Rattle.cedar_expr_names.specs.Views.{uid_of};
ghost use Rattle.cedar_expr_values.specs.Extensions.{extension_of};
ghost use Rattle.cedar_expr_values.specs.Values.{made};
ghost use Rattle.cedar_evaluator_model.specs.Reauthorize.{Refusal, entry_bound, entry_with, known_already, other_type, wrong_value};
ghost use Rattle.cedar_evaluator_contexts.specs.Functions.{ForScopes};
ghost use Rattle.cedar_evaluator_reads.specs.Scopes.{values_in};
ghost use Rattle.cedar_evaluator_requests.specs.Views.{entry_of, name_of_var};
ghost use Rattle.cedar_evaluator_contexts.specs.Refusals.{refusal_or, Takes, TakesValues};

use crate::context_parts::{context_now, value_for};
use crate::err::ConcretizationError;
use cedar_evaluator_operators::FunctionTable;
use cedar_evaluator_reads::V;
use cedar_evaluator_reads::seen::as_entity;
use cedar_evaluator_requests::entry::variable_name;
use cedar_evaluator_requests::{EntityUIDEntry, Request};
use cedar_expr_leaves::Var;
use cedar_expr_names::{EntityType, EntityUID};
use std::alloc::{AllocError, Global};
use std::collections::HashMap;
use std::rc::RcStr;

/// The request with these values for what is unknown in it, by their names: its entries take theirs, and its context takes a value of its
/// own, or has those of its unknowns put in and is evaluated by the functions of the table. Refuses what `ConcretizationError` lists.
pub fn concretized<T: FunctionTable>(
    alloc: Global,
    table: &T,
    request: &Request,
    mapping: &HashMap<RcStr, V>,
) -> Result<Request, ConcretizationError>
    ensures { ForScopes T.table T.answers_as table.now (λ s. TakesValues s mapping.now request.now result) }
{
    let principal = entry_for(alloc, Var::Principal, request.principal(), mapping)?;
    let action = entry_for(alloc, Var::Action, request.action(), mapping)?;
    let resource = entry_for(alloc, Var::Resource, request.resource(), mapping)?;
    let context = context_now(alloc, table, request, mapping)?;
    Ok(Request::new_unchecked(principal, action, resource, context))
}

// The entry of a variable with the value for it, where there is one.
fn entry_for(
    alloc: Global,
    var: Var,
    entry: &EntityUIDEntry,
    mapping: &HashMap<RcStr, V>,
) -> Result<EntityUIDEntry, ConcretizationError>
    ensures { Takes entry_of (entry_bound (var_of var) (entry_of entry.now) (values_in mapping.now (name_of_var (var_of var)))) result }
{
    entry_now(alloc, var, entry, value_for(mapping, variable_name(var)))
}

// The entry of a variable with this value, where there is one. Refuses a value that is no entity.
fn entry_now(
    alloc: Global,
    var: Var,
    entry: &EntityUIDEntry,
    value: Option<&V>,
) -> Result<EntityUIDEntry, ConcretizationError>
    ensures { Takes entry_of (entry_bound (var_of var) (entry_of entry.now) (option_map (λ v. made extension_of v.now) value.entry)) result }
{
    match value {
        None => Ok(entry.clone()?),
        Some(value) => entry_given(alloc, var, entry, value),
    }
}

// The entry of a variable with this value for it.
fn entry_given(
    alloc: Global,
    var: Var,
    entry: &EntityUIDEntry,
    value: &V,
) -> Result<EntityUIDEntry, ConcretizationError>
    ensures { Takes entry_of (entry_bound (var_of var) (entry_of entry.now) (Some (made extension_of value.now))) result }
{
    match as_entity(value) {
        Some(uid) => entry_known(alloc, var, entry, uid, value),
        None => Err(no_entity(alloc, var, value)?),
    }
}

// The entry of a variable with this uid, which is the value. Refuses an entry that is known, and a uid of another type than is known.
#[tactic(auto, using(crate::proofs::Bound::said))]
fn entry_known(
    alloc: Global,
    var: Var,
    entry: &EntityUIDEntry,
    uid: &EntityUID,
    value: &V,
) -> Result<EntityUIDEntry, ConcretizationError>
    ensures { Takes entry_of (entry_with (var_of var) (uid_of uid.now) (entry_of entry.now)) result }
{
    match entry {
        EntityUIDEntry::Known { .. } => Err(known_entry(alloc, var, entry, value)?),
        EntityUIDEntry::Unknown { ty: None, .. } => {
            Ok(EntityUIDEntry::known(alloc, uid.clone()?, None)?)
        }
        EntityUIDEntry::Unknown { ty: Some(ty), .. } => {
            if ty.same(uid.entity_type()) {
                Ok(EntityUIDEntry::known(alloc, uid.clone()?, None)?)
            } else {
                Err(of_other_type(alloc, var, ty, value)?)
            }
        }
    }
}

// The refusal of a value that is no entity.
#[tactic(auto, using(crate::proofs::Bound::wrong_named))]
fn no_entity(alloc: Global, var: Var, value: &V) -> Result<ConcretizationError, AllocError>
    ensures { IfOk result (λ e. (other : Refusal) → refusal_or other e ≡ wrong_value (var_of var)) }
{
    Ok(ConcretizationError::ValueError {
        id: RcStr::from_str(alloc, variable_name(var))?,
        expected_type: "entity",
        given_value: value.clone()?,
    })
}

// The refusal of a value for an entry that is known.
#[tactic(auto, using(crate::proofs::Bound::known_named))]
fn known_entry(
    alloc: Global,
    var: Var,
    entry: &EntityUIDEntry,
    value: &V,
) -> Result<ConcretizationError, AllocError>
    ensures { IfOk result (λ e. (other : Refusal) → refusal_or other e ≡ known_already (var_of var)) }
{
    Ok(ConcretizationError::VarConfictError {
        id: RcStr::from_str(alloc, variable_name(var))?,
        existing_value: entry.evaluate(alloc, var)?,
        given_value: value.clone()?,
    })
}

// The refusal of an entity of another type than is known.
#[tactic(auto, using(crate::proofs::Bound::type_named))]
fn of_other_type(
    alloc: Global,
    var: Var,
    ty: &EntityType,
    value: &V,
) -> Result<ConcretizationError, AllocError>
    ensures { IfOk result (λ e. (other : Refusal) → refusal_or other e ≡ other_type (var_of var)) }
{
    Ok(ConcretizationError::EntityTypeConfictError {
        id: RcStr::from_str(alloc, variable_name(var))?,
        existing_value: ty.clone()?,
        given_value: value.clone()?,
    })
}

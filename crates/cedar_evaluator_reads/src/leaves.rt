//! Literals, variables, slots and unknowns.

ghost use Rattle.std.specs.Prelude.{◌≡◌, IfOk, if◌then◌else◌, option_map};
ghost use Rattle.std.specs.Option.{option_map_or};
ghost use Rattle.cedar_expr_leaves.specs.Slots.{slot_of};
ghost use Rattle.cedar_expr_leaves.specs.Variables.{var_of};
ghost use Rattle.cedar_expr_leaves.specs.Literals.{literal_of};
ghost use Rattle.cedar_expr_model.specs.Made.{made_prim};
ghost use Rattle.cedar_expr_model.specs.Substitution.{fits_annotation};
ghost use Rattle.cedar_expr_model.specs.Value.{entity, truth as model_truth};
ghost use Rattle.cedar_expr_names.specs.Views.{uid_of};
ghost use Rattle.cedar_expr_trees.specs.Unknowns.{unknown_of};
ghost use Rattle.cedar_expr_values.specs.Extensions.{extension_of};
ghost use Rattle.cedar_expr_values.specs.Values.{bare, made};
ghost use Rattle.cedar_store_model.specs.Outcome.{unlinked_slot, wrong_type};
ghost use Rattle.cedar_store_model.specs.Policy.{binding_of};
ghost use Rattle.cedar_store_parts.specs.Parts.{bindings_of};
ghost use Rattle.cedar_evaluator_model.specs.Scope.{value_left};
ghost use Rattle.cedar_evaluator_model.specs.Steps.{errs, mapped};
ghost use Rattle.cedar_evaluator_model.specs.Evaluation.{entry_left, context_left, variable_left};
ghost use Rattle.cedar_evaluator_errors.specs.Outcomes.{Leaves, left_seen};
ghost use Rattle.cedar_evaluator_requests.specs.Views.{entry_of, context_or_unknown, name_of_var};
ghost use Rattle.cedar_evaluator_reads.specs.Scopes.{values_bound, scope_seen};

use crate::knowledge::{Knowledge, Left, V};
use crate::type_errors::type_error_single;
use cedar_evaluator_errors::EvaluationError;
use cedar_evaluator_errors::evaluation_errors::UnlinkedSlotError;
use cedar_evaluator_requests::{Context, EntityUIDEntry};
use cedar_expr_leaves::{Literal, SlotId, Var};
use cedar_expr_names::EntityUID;
use cedar_expr_partial::PartialValue;
use cedar_expr_trees::{Expr, Unknown};
use cedar_expr_values::{StaticallyTyped, Value};
use cedar_store_parts::SlotEnv;
use std::alloc::{AllocError, Global};
use std::collections::HashMap;
use std::rc::{Rc, RcStr};

/// The value of a literal.
pub fn literal_value(literal: &Literal) -> Result<Left, EvaluationError>
    ensures { Leaves (value_left (made_prim (literal_of literal.now))) result }
{
    Ok(PartialValue::Value(Value::from(literal.clone()?)))
}

/// A truth value.
pub fn truth(b: bool) -> V
    ensures { made extension_of result ≡ made_prim (model_truth b) }
{
    Value::from(Literal::from(b))
}

/// A copy of the value.
pub fn copied(v: &V) -> Result<Left, EvaluationError>
    ensures { Leaves (value_left (made extension_of v.now)) result }
{
    Ok(PartialValue::Value(v.clone()?))
}

// An entity, by its uid.
fn entity_value(uid: &Rc<EntityUID>) -> Result<Left, EvaluationError>
    ensures { Leaves (value_left (made_prim (entity (uid_of uid.now.value)))) result }
{
    Ok(PartialValue::Value(Value::from(Literal::EntityUID(uid.clone()?))))
}

// What the variable of a principal, action or resource is.
fn entry_value(alloc: Global, entry: &EntityUIDEntry, var: Var) -> Result<Left, EvaluationError>
    ensures { Leaves (entry_left (name_of_var (var_of var)) (entry_of entry.now)) result }
{
    Ok(entry.evaluate(alloc, var)?)
}

// What the variable of a context is.
fn context_value(alloc: Global, context: Option<&Context>) -> Result<Left, EvaluationError>
    ensures { Leaves (context_left (context_or_unknown (option_map (λ c. c.now) context.entry))) result }
{
    match context {
        Some(context) => Ok(context.clone()?.into_partial_value()),
        None => {
            let name = RcStr::from_str(alloc, "context")?;
            Ok(PartialValue::Residual(Expr::unknown(Unknown::new_untyped(name))))
        }
    }
}

// What a slot is bound to.
fn slot_value(slots: &SlotEnv, slot: SlotId) -> Result<Left, EvaluationError>
    ensures { Leaves (option_map_or (λ u. value_left (made_prim (entity u))) (binding_of (bindings_of slots.now) (slot_of slot)) (errs unlinked_slot)) result }
{
    match slots.get(slot) {
        Some(uid) => entity_value(uid),
        None => {
            let source_loc = None;
            Err(EvaluationError::UnlinkedSlot(UnlinkedSlotError { slot, source_loc }))
        }
    }
}

// The value that is bound to the name.
fn bound<'a>(unknowns: Option<&'a HashMap<RcStr, V>>, name: &str) -> Option<&'a V>
    ensures { values_bound unknowns.entry name.now ≡ option_map (λ v. made extension_of v.now) result }
{
    match unknowns {
        Some(unknowns) => unknowns.get(name),
        None => None,
    }
}

// What an unknown is bound to, or the unknown.
fn unknown_value(
    alloc: Global,
    unknowns: Option<&HashMap<RcStr, V>>,
    u: &Unknown,
) -> Result<Left, EvaluationError>
    ensures { Leaves (mapped (unknown_of u.now).name (unknown_of u.now).annotation (values_bound unknowns.entry (unknown_of u.now).name)) result }
{
    match bound(unknowns, u.name.as_str()) {
        None => Ok(PartialValue::Residual(Expr::unknown(u.clone()?))),
        Some(v) => fitting(alloc, u, v),
    }
}

// The value that an unknown is bound to, if it is of the type that the unknown is annotated with.
fn fitting(alloc: Global, u: &Unknown, v: &V) -> Result<Left, EvaluationError>
    ensures { Leaves (if fits_annotation (unknown_of u.now).annotation (bare extension_of v.now) then value_left (made extension_of v.now) else errs wrong_type) result }
{
    if fits(u, v)? {
        return copied(v);
    }
    match &u.type_annotation {
        None => copied(v),
        Some(ty) => Err(type_error_single(alloc, ty.clone()?, v)),
    }
}

// Whether the value is of the type that the unknown is annotated with.
fn fits(u: &Unknown, v: &V) -> Result<bool, AllocError>
    ensures { IfOk result (λ b. fits_annotation (unknown_of u.now).annotation (bare extension_of v.now) ≡ b) }
{
    match &u.type_annotation {
        None => Ok(true),
        Some(ty) => Ok(ty.same(&v.type_of()?)),
    }
}

impl<T> Knowledge<'_, T> {
    /// What a variable of the request is.
    #[tactic(auto, unfolding(crate::specs::Scopes::scope_seen))]
    pub fn variable(&self, alloc: Global, v: Var) -> Result<Left, EvaluationError>
        ensures { Leaves (variable_left (scope_seen self.now) (var_of v)) result }
    {
        match v {
            Var::Principal => entry_value(alloc, self.request.principal(), v),
            Var::Action => entry_value(alloc, self.request.action(), v),
            Var::Resource => entry_value(alloc, self.request.resource(), v),
            Var::Context => context_value(alloc, self.request.context()),
        }
    }

    /// What a slot is bound to.
    #[tactic(auto, unfolding(crate::specs::Scopes::scope_seen))]
    pub fn slot(&self, s: SlotId) -> Result<Left, EvaluationError>
        ensures { Leaves (option_map_or (λ u. value_left (made_prim (entity u))) ((scope_seen self.now).slots (slot_of s)) (errs unlinked_slot)) result }
    {
        slot_value(self.slots, s)
    }

    /// What an unknown is bound to, or the unknown.
    #[tactic(auto, unfolding(crate::specs::Scopes::scope_seen))]
    pub fn unknown(&self, alloc: Global, u: &Unknown) -> Result<Left, EvaluationError>
        ensures { Leaves (mapped (unknown_of u.now).name (unknown_of u.now).annotation ((scope_seen self.now).values (unknown_of u.now).name)) result }
    {
        unknown_value(alloc, self.unknowns, u)
    }
}

//! What is left of policies, as policies.

ghost use Rattle.std.specs.Prelude.{◌≡◌, IfOk, OnOk};
ghost use Rattle.cedar_expr_trees.specs.Trees.{tree_of};
ghost use Rattle.cedar_store_parts.specs.Parts.{effect_of};
ghost use Rattle.cedar_store_policies.specs.Policies.{policy_of};
ghost use Rattle.cedar_evaluator_model.specs.Members.{left_policy};
ghost use Rattle.cedar_evaluator_requests.specs.Groups.{noted_as};
ghost use Rattle.cedar_evaluator_requests.specs.Policies.{true_policies, false_policies, residual_policies, listed_policies, Appends};

use crate::groups::ErrorState;
use cedar_expr_leaves::Literal;
use cedar_expr_trees::Expr;
use cedar_store_parts::{Annotations, Effect, PolicyID};
use cedar_store_policies::Policy;
use indexmap::IndexMap;
use std::alloc::{AllocError, Global};
use std::rc::Rc;

// The policy of what is left: it is for any request, and its body, at the place of which it stands, is this expression.
pub(crate) fn policy_left(
    alloc: Global,
    effect: Effect,
    id: &PolicyID,
    annotations: &Rc<Annotations>,
    body: &Rc<Expr>,
) -> Result<Policy, AllocError>
    ensures { IfOk result (λ p. policy_of p ≡ left_policy (effect_of effect) (noted_as id.now annotations.now.value) (tree_of body.now.value)) }
{
    let loc = body.source_loc();
    let body = body.clone()?;
    let annotations = annotations.clone()?;
    Policy::from_when_clause_annos(alloc, effect, body, id.clone()?, loc, annotations)
}

/// Puts the policies of a group of satisfied ones at the end.
pub fn push_true(
    alloc: Global,
    policies: &mut Vec<Policy>,
    effect: Effect,
    group: &IndexMap<PolicyID, Rc<Annotations>>,
) -> Result<(), AllocError>
    ensures { OnOk result (Appends policies.old.items policies.new.items (true_policies effect group.now.entries)) }
{
    let body = Rc::new(alloc, Expr::val(Literal::Bool(true)))?;
    for (id, annotations) in group {
        policies.push(policy_left(alloc, effect, id, annotations, &body)?)?;
    }
    Ok(())
}

/// Puts the policies of a group of false ones at the end.
pub fn push_false(
    alloc: Global,
    policies: &mut Vec<Policy>,
    effect: Effect,
    group: &IndexMap<PolicyID, (ErrorState, Rc<Annotations>)>,
) -> Result<(), AllocError>
    ensures { OnOk result (Appends policies.old.items policies.new.items (false_policies effect group.now.entries)) }
{
    let body = Rc::new(alloc, Expr::val(Literal::Bool(false)))?;
    for (id, kept) in group {
        policies.push(policy_left(alloc, effect, id, &kept.1, &body)?)?;
    }
    Ok(())
}

/// Puts the policies of a group of residual ones at the end, each with what is left of it.
pub fn push_residual(
    alloc: Global,
    policies: &mut Vec<Policy>,
    effect: Effect,
    group: &IndexMap<PolicyID, (Rc<Expr>, Rc<Annotations>)>,
) -> Result<(), AllocError>
    ensures { OnOk result (Appends policies.old.items policies.new.items (residual_policies effect group.now.entries)) }
{
    for (id, kept) in group {
        policies.push(policy_left(alloc, effect, id, &kept.1, &kept.0)?)?;
    }
    Ok(())
}

/// Puts the policies of the groups of an effect at the end: first the satisfied ones, then the false ones, then the residual ones.
pub fn push_all(
    alloc: Global,
    policies: &mut Vec<Policy>,
    effect: Effect,
    satisfied: &IndexMap<PolicyID, Rc<Annotations>>,
    falses: &IndexMap<PolicyID, (ErrorState, Rc<Annotations>)>,
    residuals: &IndexMap<PolicyID, (Rc<Expr>, Rc<Annotations>)>,
) -> Result<(), AllocError>
    ensures { OnOk result (Appends policies.old.items policies.new.items (listed_policies effect satisfied.now.entries falses.now.entries residuals.now.entries)) }
{
    push_true(alloc, policies, effect, satisfied)?;
    push_false(alloc, policies, effect, falses)?;
    push_residual(alloc, policies, effect, residuals)?;
    Ok(())
}

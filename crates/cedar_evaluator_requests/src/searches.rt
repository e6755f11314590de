//! The policies of ids.

ghost use Rattle.cedar_evaluator_requests.specs.Policies.{true_policies, false_policies, residual_policies, searched_policies, Finds};

use crate::groups::ErrorState;
use crate::policies::policy_left;
use cedar_expr_leaves::Literal;
use cedar_expr_trees::Expr;
use cedar_store_parts::{Annotations, Effect, PolicyID};
use cedar_store_policies::Policy;
use indexmap::IndexMap;
use std::alloc::{AllocError, Global};
use std::rc::Rc;

/// The policy of this id in the groups of an effect: residual, true, false.
pub fn policy_in(
    alloc: Global,
    effect: Effect,
    id: &PolicyID,
    residuals: &IndexMap<PolicyID, (Rc<Expr>, Rc<Annotations>)>,
    satisfied: &IndexMap<PolicyID, Rc<Annotations>>,
    falses: &IndexMap<PolicyID, (ErrorState, Rc<Annotations>)>,
) -> Result<Option<Policy>, AllocError>
    ensures { Finds id.now (searched_policies effect residuals.now.entries satisfied.now.entries falses.now.entries) result }
{
    match residual_of(alloc, effect, id, residuals)? {
        Some(policy) => Ok(Some(policy)),
        None => match true_of(alloc, effect, id, satisfied)? {
            Some(policy) => Ok(Some(policy)),
            None => false_of(alloc, effect, id, falses),
        },
    }
}

// The residual policy of this id.
fn residual_of(
    alloc: Global,
    effect: Effect,
    id: &PolicyID,
    group: &IndexMap<PolicyID, (Rc<Expr>, Rc<Annotations>)>,
) -> Result<Option<Policy>, AllocError>
    ensures { Finds id.now (residual_policies effect group.now.entries) result }
{
    match group.get_key_value(id) {
        Some((id, kept)) => Ok(Some(policy_left(alloc, effect, id, &kept.1, &kept.0)?)),
        None => Ok(None),
    }
}

// The satisfied policy of this id.
fn true_of(
    alloc: Global,
    effect: Effect,
    id: &PolicyID,
    group: &IndexMap<PolicyID, Rc<Annotations>>,
) -> Result<Option<Policy>, AllocError>
    ensures { Finds id.now (true_policies effect group.now.entries) result }
{
    match group.get_key_value(id) {
        Some((id, annotations)) => {
            let body = Rc::new(alloc, Expr::val(Literal::Bool(true)))?;
            Ok(Some(policy_left(alloc, effect, id, annotations, &body)?))
        }
        None => Ok(None),
    }
}

// The false policy of this id.
fn false_of(
    alloc: Global,
    effect: Effect,
    id: &PolicyID,
    group: &IndexMap<PolicyID, (ErrorState, Rc<Annotations>)>,
) -> Result<Option<Policy>, AllocError>
    ensures { Finds id.now (false_policies effect group.now.entries) result }
{
    match group.get_key_value(id) {
        Some((id, kept)) => {
            let body = Rc::new(alloc, Expr::val(Literal::Bool(false)))?;
            Ok(Some(policy_left(alloc, effect, id, &kept.1, &body)?))
        }
        None => Ok(None),
    }
}

//! Requests that are authorized, and reauthorized once values are known.

use crate::told::{Made, Told};
use cedar_evaluator::{Authorizer, PartialResponse, ReauthorizationError};
use cedar_evaluator_requests::{Decision, Request, Response};
use cedar_expr_functions::Extensions;
use cedar_expr_values::{ExtValue, Value};
use cedar_gate::{Entry, Step};
use cedar_gate_bundles::{Bundle, Submission};
use cedar_gate_runs::lines::{push_answer, push_entries};
use cedar_store_entities::Entities;
use cedar_store_policies::PolicySet;
use cedar_test_exprs::{both, made};
use std::alloc::Global;
use std::collections::HashMap;
use std::rc::RcStr;

type Values = HashMap<RcStr, Value<ExtValue>>;

// What a request is authorized by.
struct Known<'a, 'e> {
    authorizer: Authorizer<'a, Extensions<'e>>,
    policies: PolicySet,
    store: Entities,
}

// A drop of its own is one step to the proof of a function that owns it.
impl Drop for Known<'_, '_> {
    fn drop(self) {
        let Known {
            authorizer: _,
            policies: _,
            store: _,
        } = self;
    }
}

/// Authorizes the bundle's request by its policies over its store, and reauthorizes what that leaves, for each step that binds, with that
/// value alone. Says the answer, and the decision that is left at first and that behind each step.
pub fn make_calls(
    alloc: Global,
    bundle: Bundle,
    table: &Extensions<'_>,
    told: &mut Told,
) -> Made<()> {
    let Bundle {
        submission,
        request,
        store,
        steps,
    } = bundle;
    let Submission {
        fragments,
        policies,
        level: _,
        limit,
    } = submission;
    drop(fragments);
    let known = Known {
        authorizer: Authorizer::new(table, limit.levels()),
        policies: made(PolicySet::try_from_iter(alloc, policies))?,
        store,
    };
    let answer = answered(alloc, &known, &request, told)?;
    push_answer(&mut told.text, &answer)?;
    let response = left(alloc, &known, &request, told)?;
    say_decision(told, response.decision())?;
    for step in steps.iter() {
        if let Step::Bind(name, value) = step {
            let values = one(alloc, name, value)?;
            let again = again(alloc, &known, &response, &values, told)?;
            say_decision(told, again.decision())?;
        }
    }
    Ok(())
}

fn say_decision(told: &mut Told, decision: Option<Decision>) -> Made<()> {
    let entries = [Entry::Decided(decision)];
    push_entries(&mut told.text, &entries)
}

// The name with its value.
fn one(alloc: Global, name: &RcStr, value: &Value<ExtValue>) -> Made<Values> {
    let (name, value) = both(name.clone(), value.clone())?;
    let mut values = HashMap::new(alloc);
    values.insert(name, value)?;
    Ok(values)
}

// The answer. Out of memory it is asked for again.
fn answered(
    alloc: Global,
    known: &Known<'_, '_>,
    request: &Request,
    told: &mut Told,
) -> Made<Response> {
    let (first, again) = both(request.clone(), request.clone())?;
    match known
        .authorizer
        .is_authorized(alloc, first, &known.policies, &known.store)
    {
        Ok(response) => Ok(response),
        Err(_) => {
            told.say_again("is_authorized")?;
            known
                .authorizer
                .is_authorized(alloc, again, &known.policies, &known.store)
        }
    }
}

// What is left of the policies. Out of memory it is asked for again.
fn left(
    alloc: Global,
    known: &Known<'_, '_>,
    request: &Request,
    told: &mut Told,
) -> Made<PartialResponse> {
    let (first, again) = both(request.clone(), request.clone())?;
    match known
        .authorizer
        .is_authorized_core(alloc, first, &known.policies, &known.store)
    {
        Ok(response) => Ok(response),
        Err(_) => {
            told.say_again("is_authorized_core")?;
            known
                .authorizer
                .is_authorized_core(alloc, again, &known.policies, &known.store)
        }
    }
}

// What is left once these values are known. Out of memory it is asked for again.
fn again(
    alloc: Global,
    known: &Known<'_, '_>,
    response: &PartialResponse,
    values: &Values,
    told: &mut Told,
) -> Made<PartialResponse> {
    match reauthorized(alloc, known, response, values) {
        Ok(response) => Ok(response),
        Err(fault) => {
            if fault.is_out_of_memory() {
                told.say_again("reauthorize")?;
            }
            made(reauthorized(alloc, known, response, values))
        }
    }
}

fn reauthorized(
    alloc: Global,
    known: &Known<'_, '_>,
    response: &PartialResponse,
    values: &Values,
) -> Result<PartialResponse, ReauthorizationError> {
    response.reauthorize(alloc, values, &known.authorizer, &known.store)
}

//! Answers and partial responses.

use crate::authorizer::parts::{Values, condition, request, values};
use crate::fault::Fault;
use cedar_evaluator::{Authorizer, Extensions, PartialResponse};
use cedar_store::{Effect, Entities, Policy, PolicyID, PolicySet};
use std::alloc::{AllocError, Global};

// How deep a condition may nest.
const DEPTH: u32 = 64;

/// What an answer stands on besides policies and a request.
pub struct Setting<'a> {
    /// The store.
    pub entities: Entities,
    /// The functions.
    pub table: Extensions<'a>,
}

// A drop of its own is one step in the proof of a function that holds it.
impl Drop for Setting<'_> {
    fn drop(self) {
        let Setting {
            entities: _,
            table: _,
        } = self;
    }
}

// The id of the policy with this number.
fn id(alloc: Global, n: u32) -> Result<PolicyID, AllocError> {
    let text = format!(in alloc; "p{n}")?;
    PolicyID::from_string(alloc, text.as_str())
}

// The policy with this number, which may have an unknown: a permit.
fn policy(alloc: Global, n: u32, has_unknown: bool) -> Result<Policy, Fault> {
    let id = id(alloc, n)?;
    let body = condition(alloc, n, has_unknown)?;
    Ok(Policy::from_when_clause(alloc, Effect::Permit, body, id, None)?)
}

// Policies.
struct Policies {
    set: PolicySet,
}

// A drop of its own is one step in the proof of a function that holds them.
impl Drop for Policies {
    fn drop(self) {
        let Policies { set: _ } = self;
    }
}

// So many policies, each second one of which may have an unknown.
fn set_of(alloc: Global, size: u32, has_unknowns: bool) -> Result<Policies, Fault> {
    let mut policies = Policies {
        set: PolicySet::new(alloc),
    };
    for n in 0..size {
        let policy = policy(alloc, n, has_unknowns && n % 2 == 0)?;
        policies.set.add(policy)?;
    }
    Ok(policies)
}

// How many of the policies determine the answer.
fn determining(alloc: Global, setting: &Setting<'_>, set: &PolicySet) -> Result<usize, Fault> {
    let authorizer = Authorizer::new(&setting.table, DEPTH);
    let answer = authorizer.is_authorized(alloc, request(alloc)?, set, &setting.entities)?;
    Ok(answer.diagnostics.reason.len())
}

/// How many of so many policies determine the answer.
pub fn authorized(alloc: Global, setting: &Setting<'_>, size: u32) -> Result<usize, Fault> {
    determining(alloc, setting, &set_of(alloc, size, false)?.set)
}

// What is said at first of so many policies, where each second one has an unknown.
fn first(alloc: Global, setting: &Setting<'_>, size: u32) -> Result<PartialResponse, Fault> {
    let policies = set_of(alloc, size, true)?;
    let authorizer = Authorizer::new(&setting.table, DEPTH);
    let request = request(alloc)?;
    Ok(authorizer.is_authorized_core(alloc, request, &policies.set, &setting.entities)?)
}

/// How many of so many policies may determine the answer, where each second one has an unknown.
pub fn half(alloc: Global, setting: &Setting<'_>, size: u32) -> Result<usize, Fault> {
    let response = first(alloc, setting, size)?;
    Ok(response.may_be_determining(alloc)?.len())
}

// The response once these values are known. Where there is no memory for it, it is tried once more.
fn resumed(
    alloc: Global,
    setting: &Setting<'_>,
    response: &PartialResponse,
    values: &Values,
) -> Result<PartialResponse, Fault> {
    let authorizer = Authorizer::new(&setting.table, DEPTH);
    match response.reauthorize(alloc, values, &authorizer, &setting.entities) {
        Ok(made) => Ok(made),
        Err(error) => {
            if error.is_out_of_memory() {
                Ok(response.reauthorize(alloc, values, &authorizer, &setting.entities)?)
            } else {
                Err(Fault::Refused)
            }
        }
    }
}

// How many policies are satisfied by the response once these values are known.
fn satisfied(
    alloc: Global,
    setting: &Setting<'_>,
    response: &PartialResponse,
    values: &Values,
) -> Result<usize, Fault> {
    let response = resumed(alloc, setting, response, values)?;
    Ok(response.definitely_satisfied(alloc)?.len())
}

/// How many of so many policies are satisfied, where each second one has an unknown, once it has its value.
pub fn again(alloc: Global, setting: &Setting<'_>, size: u32) -> Result<usize, Fault> {
    let response = first(alloc, setting, size)?;
    satisfied(alloc, setting, &response, &values(alloc, size)?)
}

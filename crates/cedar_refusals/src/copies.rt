//! Copies of lists that calls take.

use crate::told::Made;
use cedar_gate::Step;
use cedar_store_policies::Policy;
use cedar_test_exprs::both;
use std::alloc::Global;

pub fn policies(alloc: Global, policies: &[Policy]) -> Made<Vec<Policy>> {
    let mut copies = Vec::new(alloc);
    for policy in policies {
        copies.push(policy.clone()?)?;
    }
    Ok(copies)
}

pub fn steps(alloc: Global, steps: &[Step]) -> Made<Vec<Step>> {
    let mut copies = Vec::new(alloc);
    for it in steps {
        copies.push(step(it)?)?;
    }
    Ok(copies)
}

fn step(step: &Step) -> Made<Step> {
    match step {
        Step::Load => Ok(Step::Load),
        Step::Decide => Ok(Step::Decide),
        Step::Bind(name, value) => {
            let (name, value) = both(name.clone(), value.clone())?;
            Ok(Step::Bind(name, value))
        }
    }
}

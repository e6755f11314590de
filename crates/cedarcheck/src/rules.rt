//! The rules that ask no schema: ids, slots, unknowns and nesting.

use crate::findings::Finding;
use crate::subjects::Subject;
use cedar_expr_leaves::Slot;
use cedar_expr_trees::{Expr, ExprKind};
use cedar_gate_rules::nests_within;
use cedar_store_policies::Policy;
use std::alloc::{AllocError, Global};
use std::fmt::Write;

// No JSON that reads nests as deep.
const DEEPEST: u32 = 1024;

/// Adds what these rules say of the policy that is one of these.
pub fn add_plain(
    alloc: Global,
    subject: &Subject<'_>,
    policies: &[Policy],
    limit: u32,
    found: &mut Vec<Finding>,
) -> Result<(), AllocError> {
    if is_repeated(policies, subject) {
        let words = String::from_str(alloc, "repeated id")?;
        subject.add(alloc, found, (3, words), None, "/id")?;
    }
    add_unbound(alloc, subject, found)?;
    add_in_body(alloc, subject, found)?;
    add_unknowns(alloc, subject, found)?;
    add_nesting(alloc, subject, limit, found)
}

// Whether an earlier one of the policies has the id.
fn is_repeated(policies: &[Policy], subject: &Subject<'_>) -> bool {
    let id = subject.policy.id();
    for (number, other) in policies.iter().enumerate() {
        if number < subject.number && other.id().same(id) {
            return true;
        }
    }
    false
}

// Adds each slot that isn't bound.
fn add_unbound(
    alloc: Global,
    subject: &Subject<'_>,
    found: &mut Vec<Finding>,
) -> Result<(), AllocError> {
    for slot in subject.template.slots() {
        if subject.policy.env().get(slot.id).is_none() {
            let words = format!(in alloc; "unbound slot: {}", slot.id)?;
            let part = if slot.id.is_principal() {
                "/principal"
            } else {
                "/resource"
            };
            subject.add(alloc, found, (4, words), slot.loc, part)?;
        }
    }
    Ok(())
}

// Adds each slot that stands in the body.
fn add_in_body(
    alloc: Global,
    subject: &Subject<'_>,
    found: &mut Vec<Finding>,
) -> Result<(), AllocError> {
    let Some(body) = subject.template.non_scope_constraints() else {
        return Ok(());
    };
    for slot in body.slots(alloc)? {
        add_slot(alloc, subject, slot, found)?;
    }
    Ok(())
}

// Adds a slot that stands in the body.
fn add_slot(
    alloc: Global,
    subject: &Subject<'_>,
    slot: Slot,
    found: &mut Vec<Finding>,
) -> Result<(), AllocError> {
    let words = format!(in alloc; "slot outside the scope: {}", slot.id)?;
    subject.add(alloc, found, (5, words), slot.loc, "/when")
}

// Adds each unknown of the condition.
fn add_unknowns(
    alloc: Global,
    subject: &Subject<'_>,
    found: &mut Vec<Finding>,
) -> Result<(), AllocError> {
    for e in subject.template.condition().subexpressions(alloc)? {
        if let ExprKind::Unknown(unknown) = e.expr_kind() {
            let words = format!(in alloc; "unknown in a policy: {unknown}")?;
            subject.add(alloc, found, (6, words), e.source_loc(), "")?;
        }
    }
    Ok(())
}

// Adds that the condition nests deeper than the limit, if it does.
fn add_nesting(
    alloc: Global,
    subject: &Subject<'_>,
    limit: u32,
    found: &mut Vec<Finding>,
) -> Result<(), AllocError> {
    let depth = depth_of(subject.template.condition(), limit);
    if depth > limit {
        let words = format!(in alloc; "nests too deep: {depth} levels, and the limit is {limit}")?;
        subject.add(alloc, found, (7, words), None, "/when")?;
    }
    Ok(())
}

// How deep the expression nests, if deeper than this.
fn depth_of(expr: &Expr, least: u32) -> u32 {
    for depth in least..DEEPEST {
        if nests_within(expr, depth) {
            return depth;
        }
    }
    DEEPEST
}

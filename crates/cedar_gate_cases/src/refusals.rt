//! Rows of a case that the gate refuses: behind the fault, of what reaches too far, each is a violation.

use crate::said::{is_wanted, say_done};
use crate::setup::Made;
use cedar_expr_shapes::ExprShape;
use cedar_gate::{GateFault, PolicyViolation};
use cedar_test_exprs::{expr, say, show};
use std::alloc::{AllocError, Global};
use std::fmt::Write;

/// Whether all rows say what stands in them, of which the first is that of `accept`; what says something else is said.
pub fn hold(alloc: Global, fault: &GateFault, rows: &str, said: &mut String) -> Made<bool> {
    let (first, rest) = rows.split_once('\n').unwrap_or((rows, ""));
    say_fault(alloc, said, fault)?;
    if !is_wanted(said, first)? {
        return Ok(false);
    }
    match fault {
        GateFault::Level(violations) => violations_hold(alloc, violations.as_slice(), rest, said),
        _ => Ok(rest.is_empty()),
    }
}

// Says the number of the gate's fault, and behind it that of the schema's.
fn say_fault(alloc: Global, said: &mut String, fault: &GateFault) -> Made<()> {
    say_done(alloc, said, Some(fault.number()))?;
    match fault {
        GateFault::Schema(error) => {
            say(said, "by")?;
            show(alloc, said, &error.number())
        }
        _ => Ok(()),
    }
}

// Whether there is a row for each violation, and says it.
fn violations_hold(
    alloc: Global,
    violations: &[PolicyViolation],
    rows: &str,
    said: &mut String,
) -> Made<bool> {
    let mut rows = rows.lines();
    for violation in violations {
        let row = rows.next().ok_or(AllocError)?;
        said.clear();
        say_violation(alloc, violation, row, said)?;
        if !is_wanted(said, row)? {
            return Ok(false);
        }
    }
    Ok(rows.next().is_none())
}

// Says which policy reaches too far, what level that needs, and where: the expression of the row, where it is that one.
fn say_violation(
    alloc: Global,
    violation: &PolicyViolation,
    row: &str,
    said: &mut String,
) -> Made<()> {
    let wanted = row.strip_prefix("violation : ").ok_or(AllocError)?;
    let (_, written) = wanted.split_once(" at ").ok_or(AllocError)?;
    say_reach(said, violation.policy_id.as_str(), violation.required)?;
    let written_expr = expr(alloc, written)?;
    say(
        said,
        if violation.expr.eq_shape(&written_expr) {
            written
        } else {
            "another expression"
        },
    )
}

// Says which policy reaches too far, and what level that needs.
fn say_reach(said: &mut String, id: &str, required: Option<u64>) -> Made<()> {
    match required {
        Some(level) => write!(said, "{id} requires {level} at"),
        None => write!(said, "{id} is never admitted at"),
    }
}

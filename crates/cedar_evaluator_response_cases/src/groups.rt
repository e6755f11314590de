//! Commands that make a response by hand.

use crate::desk::{Desk, False, Groups, Left, Made, Noted, Side};
use crate::policies::noted;
use crate::responses;
use crate::said::{lay, put, two};
use cedar_evaluator::{ErrorState, PartialResponse};
use cedar_expr_functions::Extensions;
use cedar_store_policies::PolicyID;
use cedar_test_exprs::{both, read};
use std::alloc::{AllocError, Global};

// Does the command, where it is one of these: `true_permit p`, `false_permit p`, `erred_permit p`, `left_permit p $t`, the same of
// forbids, `groups`, the response of these; or one that `responses` does.
pub fn done(
    desk: &mut Desk,
    table: &Extensions<'_>,
    verb: &str,
    rest: &str,
    wanted: &str,
    said: &mut String,
) -> Made<()> {
    let alloc = desk.known.alloc;
    match verb.split_once('_') {
        Some((kind, "permit")) => grouped(alloc, &mut desk.groups.permits, kind, rest),
        Some((kind, "forbid")) => grouped(alloc, &mut desk.groups.forbids, kind, rest),
        _ => {
            if verb == "groups" {
                let made = response(alloc, &mut desk.groups);
                put(alloc, said, &mut desk.responses, made)
            } else {
                responses::done(desk, table, verb, rest, wanted, said)
            }
        }
    }
}

// Puts a policy in a group.
fn grouped(alloc: Global, side: &mut Side, kind: &str, rest: &str) -> Made<()> {
    let (id, left) = two(rest);
    let entry = noted(alloc, id);
    match kind {
        "true" => lay(&mut side.trues, entry),
        "false" => lay(&mut side.falses, unsatisfied(entry, ErrorState::NoError)),
        "erred" => lay(&mut side.falses, unsatisfied(entry, ErrorState::Error)),
        "left" => lay(&mut side.lefts, residual(alloc, entry, left)),
        _ => Err(AllocError),
    }
}

// The policy as one that isn't satisfied.
fn unsatisfied(entry: Made<Noted>, state: ErrorState) -> Made<(PolicyID, False)> {
    let (id, annotations) = entry?;
    Ok((id, (state, annotations)))
}

// The policy as one of which this expression is left.
fn residual(alloc: Global, entry: Made<Noted>, text: &str) -> Made<(PolicyID, Left)> {
    let ((id, annotations), left) = both(entry, read(alloc, text))?;
    Ok((id, (left, annotations)))
}

// The response of the groups at hand, to a request of which nothing is known.
fn response(alloc: Global, groups: &mut Groups) -> Made<PartialResponse> {
    let mut taken = Groups::new(alloc);
    std::mem::swap(&mut taken, groups);
    taken.into_response(alloc)
}

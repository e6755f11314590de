//! How cases are gone over. A case begins with `#` and what it shows. The lines behind that say what is handed in (`setup.rt`), and the row
//! `accept : done`, or `accept : refused 12`, what the gate says to it. Rows at the gate follow (`at_gate.rt`), and behind `open : done`
//! rows in a session of the request (`in_session.rt`). Of what the gate refuses as reaching too far, each row is a violation
//! (`refusals.rt`): the policy, the level that it requires, and the expression. Expressions and values in rows are those of
//! `cedar_test_exprs`.
//!
//! A line `host WORDS` says over what the case runs (`hosts.rt`): over an honest host of the store, which fails in a round where the words
//! are `fails 2`; or, where they are `answers User::a ..`, over one that answers this in the first round, and nothing in the others.

use crate::hosts::{KeepsRounds, Liar, Shelf, answers};
use crate::setup::{Made, add_negated, bundle, said_by};
use crate::{at_gate, in_session, refusals};
use cedar_evaluator_requests::Request;
use cedar_expr_functions::Extensions;
use cedar_gate::Gate;
use cedar_gate_bundles::{Bundle, Submission};
use cedar_test_exprs::made;
use std::alloc::{AllocError, Global};

/// The first case of the text with a row that says something else, with what it says and that row; nothing where all hold. Of a case that
/// isn't understood nothing is said.
pub fn first_wrong(alloc: Global, table: &Extensions<'_>, text: &str) -> Made<String> {
    for case in text.split('#') {
        let mut said = String::new(alloc);
        if !holds(alloc, table, case, &mut said).unwrap_or(case.is_empty()) {
            let title = case.lines().next().unwrap_or("");
            return format!(in alloc; "{title}: {said}");
        }
    }
    Ok(String::new(alloc))
}

// Whether a case holds. Fails where it isn't understood.
fn holds(alloc: Global, table: &Extensions<'_>, case: &str, said: &mut String) -> Made<bool> {
    let (given, rows) = case.split_once("\naccept").ok_or(AllocError)?;
    let (_, lines) = given.split_once('\n').unwrap_or((given, ""));
    let mut bundle = bundle(alloc, table, lines)?;
    add_negated(alloc, &mut bundle.submission.policies, lines)?;
    over_host(alloc, table, bundle, said_by(lines, "host", ""), rows, said)
}

// Whether the rows of a bundle hold over the host of these words.
fn over_host(
    alloc: Global,
    table: &Extensions<'_>,
    bundle: Bundle,
    words: &str,
    rows: &str,
    said: &mut String,
) -> Made<bool> {
    let Bundle {
        submission,
        request,
        store,
        steps,
    } = bundle;
    drop(steps);
    let mut shelf = Shelf::new(alloc, store, words);
    let Some(words) = words.strip_prefix("answers ") else {
        return judged(alloc, table, (submission, request), &mut shelf, rows, said);
    };
    match answers(alloc, table, &mut shelf, words) {
        Ok(answers) => {
            let mut liar = Liar::new(alloc, answers);
            judged(alloc, table, (submission, request), &mut liar, rows, said)
        }
        Err(AllocError) => Err(AllocError),
    }
}

// Whether the rows hold of what the gate says to what is handed in, and of what is asked of it.
fn judged<H: KeepsRounds>(
    alloc: Global,
    table: &Extensions<'_>,
    handed: (Submission, Request),
    host: &mut H,
    rows: &str,
    said: &mut String,
) -> Made<bool> {
    let (submission, request) = handed;
    let Submission {
        fragments,
        policies,
        level,
        limit,
    } = submission;
    match Gate::accept(alloc, fragments.as_slice(), policies, table, level, limit) {
        Err(fault) => refusals::hold(alloc, &fault, rows, said),
        Ok(gate) => accepted(alloc, &gate, request, host, rows, said),
    }
}

// Whether the rows hold at a gate, and behind `open : done` in a session of the request.
fn accepted<H: KeepsRounds>(
    alloc: Global,
    gate: &Gate<'_, '_, '_>,
    request: Request,
    host: &mut H,
    rows: &str,
    said: &mut String,
) -> Made<bool> {
    let Some((at_the_gate, behind)) = rows.split_once("\nopen : done\n") else {
        return at_gate::hold(alloc, gate, &request, host, rows, said);
    };
    if !at_gate::hold(alloc, gate, &request, host, at_the_gate, said)? {
        return Ok(false);
    }
    let mut session = made(gate.open(alloc, request))?;
    in_session::hold(alloc, &mut session, gate.table(), host, behind, said)
}

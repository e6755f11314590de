//! Commands on contexts, and on what restricted expressions are evaluated to.

use crate::desk::{Desk, Made};
use crate::made::{pairs, restricted};
use crate::requests;
use crate::said::{found_value, left, made, put, same, two};
use cedar_evaluator_contexts::{ContextCalls, RestrictedEvaluator};
use cedar_evaluator_requests::Context;
use cedar_evaluator_restricted_exprs::RestrictedExpr;
use cedar_expr_functions::Extensions;
use cedar_expr_partial::{FromValue, PartialValue};
use cedar_expr_trees::Expr;
use cedar_test_exprs::{both, one, say, show, value, word};
use std::alloc::Global;

// Does the command, where it is one of these: `empty`, `from_expr E`, `from_pairs a E | b E`, `let t V`, `substitute`, or one that `read`
// does.
fn done(
    desk: &mut Desk,
    table: &Extensions<'_>,
    verb: &str,
    rest: &str,
    wanted: &str,
    said: &mut String,
) -> Made<()> {
    let alloc = desk.alloc;
    match verb {
        "empty" => put(alloc, said, &mut desk.contexts, Context::empty(alloc)),
        "from_expr" => {
            let e = restricted(alloc, rest)?;
            let made = Context::from_expr(alloc, e.as_borrowed(), table);
            put(alloc, said, &mut desk.contexts, made)
        }
        "from_pairs" => {
            let made = Context::from_pairs(alloc, pairs(alloc, rest)?, table);
            put(alloc, said, &mut desk.contexts, made)
        }
        "let" => bind(desk, rest),
        "substitute" => {
            let context = one(&mut desk.contexts)?;
            let made = context.substitute(alloc, &desk.unknowns, table);
            put(alloc, said, &mut desk.contexts, made)
        }
        _ => read(desk, table, verb, rest, wanted, said),
    }
}

// A value for an unknown.
fn bind(desk: &mut Desk, text: &str) -> Made<()> {
    let (name, text) = two(text);
    let (name, value) = both(word(desk.alloc, name), value(desk.alloc, text))?;
    desk.unknowns.insert(name, value)?;
    Ok(())
}

// Does the command, where it is one of these: `context`, `whole`, `fields`, or one that `requests` does.
fn read(
    desk: &mut Desk,
    table: &Extensions<'_>,
    verb: &str,
    rest: &str,
    wanted: &str,
    said: &mut String,
) -> Made<()> {
    let alloc = desk.alloc;
    match verb {
        "context" => record(alloc, said, one(&mut desk.contexts)?, wanted),
        "whole" => {
            let e = RestrictedExpr::from_context(alloc, one(&mut desk.contexts)?);
            made(alloc, said, e, wanted)
        }
        "fields" => fields(alloc, said, one(&mut desk.contexts)?),
        _ => requests::done(desk, table, verb, rest, wanted, said),
    }
}

// Does the command, where it is one of these: `interpret E`, `partial_interpret E`, or one that `done` does.
pub fn evaluated(
    desk: &mut Desk,
    table: &Extensions<'_>,
    verb: &str,
    rest: &str,
    wanted: &str,
    said: &mut String,
) -> Made<()> {
    let alloc = desk.alloc;
    let evaluator = RestrictedEvaluator::new(table);
    match verb {
        "interpret" => {
            let e = restricted(alloc, rest)?;
            let found = evaluator.interpret(alloc, e.as_borrowed());
            found_value(alloc, said, found, wanted)
        }
        "partial_interpret" => {
            let e = restricted(alloc, rest)?;
            let found = evaluator.partial_interpret(alloc, e.as_borrowed());
            left(alloc, said, found, wanted)
        }
        _ => done(desk, table, verb, rest, wanted, said),
    }
}

// Says the record of a context, behind `value` or `residual`.
fn record(alloc: Global, said: &mut String, context: Context, wanted: &str) -> Made<()> {
    let found = context.into_partial_value();
    let is_value = matches!(&found, PartialValue::Value(_));
    say(said, if is_value { "value" } else { "residual" })?;
    let record = Expr::from_partial_value(alloc, found)?;
    same(alloc, said, &record, two(wanted).1)
}

// The names of the fields, each with the number or the unknown that stands under it.
fn fields(alloc: Global, said: &mut String, context: Context) -> Made<()> {
    let fields = context.into_iter(alloc)?;
    show(alloc, said, &format!(in alloc; "{fields:?}")?)?;
    for (name, e) in fields {
        say(said, name.as_str())?;
        if let Some(n) = e.as_long() {
            show(alloc, said, &n)?;
        }
        if let Some(u) = e.as_unknown() {
            show(alloc, said, u)?;
        }
    }
    Ok(())
}

//! Commands on restricted expressions.

use crate::contexts;
use crate::desk::{Desk, Made, Part};
use crate::made::{pairs, restricted, several};
use crate::said::{made, same, two};
use cedar_evaluator_restricted_exprs::{
    BorrowedRestrictedExpr, RestrictedElements, RestrictedExpr, RestrictedExpressionError,
};
use cedar_expr_functions::Extensions;
use cedar_expr_trees::Expr;
use cedar_expr_values::{RepresentableExtensionValue, ValueKind};
use cedar_test_exprs::{at, both, expr, literal, name, refused, say, show, tell, value};
use std::alloc::{AllocError, Global};
use std::fmt::Display;

// Does the command, where it is one of these: `restricted E`, `borrowed E`, `part E | P`, `held E`, `copy E`, `type E`, or one that
// `of_parts` does.
pub fn asked(
    desk: &mut Desk,
    table: &Extensions<'_>,
    verb: &str,
    rest: &str,
    wanted: &str,
    said: &mut String,
) -> Made<()> {
    let alloc = desk.alloc;
    match verb {
        "restricted" => refused(alloc, said, RestrictedExpr::new(alloc, expr(alloc, rest)?)),
        "borrowed" => {
            let e = expr(alloc, rest)?;
            refused(alloc, said, BorrowedRestrictedExpr::new(alloc, &e))
        }
        "part" => part(alloc, said, rest, wanted),
        "held" => held(alloc, said, rest),
        "copy" => copy(alloc, said, rest),
        "type" => core_type(alloc, table, said, rest),
        _ => of_parts(desk, table, verb, rest, wanted, said),
    }
}

// Does the command, where it is one of these: `set E | E`, `record a E | b E`, `call f | E`, `of_value V`, `of_kind V`, `of_call f "a`,
// `of_left E`, or one that `contexts` does.
fn of_parts(
    desk: &mut Desk,
    table: &Extensions<'_>,
    verb: &str,
    rest: &str,
    wanted: &str,
    said: &mut String,
) -> Made<()> {
    let alloc = desk.alloc;
    match verb {
        "set" => {
            let set = RestrictedExpr::set(alloc, several(alloc, rest)?);
            made(alloc, said, set, wanted)
        }
        "record" => {
            let record = RestrictedExpr::record(alloc, pairs(alloc, rest)?);
            made(alloc, said, record, wanted)
        }
        "call" => call(alloc, said, rest, wanted),
        "of_value" => {
            let e = RestrictedExpr::from_value(alloc, &value(alloc, rest)?);
            made(alloc, said, e, wanted)
        }
        "of_kind" => {
            let v = value(alloc, rest)?;
            let e = RestrictedExpr::from_value_kind(alloc, v.value_kind());
            made(alloc, said, e, wanted)
        }
        "of_call" => of_call(alloc, said, rest, wanted),
        "of_left" => of_left(alloc, said, rest, wanted),
        _ => contexts::evaluated(desk, table, verb, rest, wanted, said),
    }
}

// Says the part that is wanted, where it is the one that was refused.
fn part(alloc: Global, said: &mut String, text: &str, wanted: &str) -> Made<()> {
    match RestrictedExpr::new(alloc, expr(alloc, text)?) {
        Err(RestrictedExpressionError::InvalidRestrictedExpression(e)) => {
            same(alloc, said, &e.expr, wanted)
        }
        _ => say(said, "nothing is refused"),
    }
}

// Says what stands in a set, in a call, behind its function, or in a record.
fn held(alloc: Global, said: &mut String, text: &str) -> Made<()> {
    let e = restricted(alloc, text)?;
    if let Some(members) = e.as_set_elements() {
        return numbers(alloc, said, members);
    }
    if let Some((called, args)) = e.as_extn_fn_call() {
        show(alloc, said, called)?;
        return numbers(alloc, said, args);
    }
    fields(alloc, said, &e)
}

// Says the fields of a record, each behind its name.
fn fields(alloc: Global, said: &mut String, e: &RestrictedExpr) -> Made<()> {
    for (name, field) in e.as_record_pairs().ok_or(AllocError)? {
        say(said, name.as_str())?;
        show(alloc, said, &field.as_long().ok_or(AllocError)?)?;
    }
    Ok(())
}

// Says the whole numbers that these are.
fn numbers(alloc: Global, said: &mut String, parts: RestrictedElements<'_>) -> Made<()> {
    for part in parts {
        show(alloc, said, &part.as_long().ok_or(AllocError)?)?;
    }
    Ok(())
}

// Whether copies are equal to what was copied, and where the copy is.
fn copy(alloc: Global, said: &mut String, text: &str) -> Made<()> {
    let e = restricted(alloc, text)?;
    let (owned, copy) = both(e.as_borrowed().to_owned(), e.clone())?;
    say_copy(
        alloc,
        said,
        copy == owned,
        *owned == *e.as_borrowed().expr(),
        &owned,
    )
}

// Says both truth values, and where the expression is.
fn say_copy(alloc: Global, said: &mut String, one: bool, other: bool, e: &Expr) -> Made<()> {
    tell(said, one)?;
    tell(said, other)?;
    at(alloc, said, e.source_loc())
}

// The type that the expression shows.
fn core_type(alloc: Global, table: &Extensions<'_>, said: &mut String, text: &str) -> Made<()> {
    let e = restricted(alloc, text)?;
    some(alloc, said, e.as_borrowed().try_type_of(table))
}

// Says what was found, or `none`.
fn some<T: Display + Drop>(alloc: Global, said: &mut String, found: Made<Option<T>>) -> Made<()> {
    match found? {
        Some(it) => show(alloc, said, &it),
        None => say(said, "none"),
    }
}

// The call of the function of this name.
fn call(alloc: Global, said: &mut String, text: &str, wanted: &str) -> Made<()> {
    let (called, args) = text.split_once(" | ").ok_or(AllocError)?;
    let (called, args) = both(name(alloc, called), several(alloc, args))?;
    let call = RestrictedExpr::call_extension_fn(alloc, called, args);
    made(alloc, said, call, wanted)
}

// The call of the function of this name on a literal, which makes a value.
fn of_call(alloc: Global, said: &mut String, text: &str, wanted: &str) -> Made<()> {
    let (called, argument) = two(text);
    let args = vec![in alloc; literal(alloc, argument)?]?;
    let v = value(alloc, "ext=rank/\"7/7")?;
    match v.value_kind() {
        ValueKind::ExtensionValue(x) => {
            let x = RepresentableExtensionValue::new(x.clone()?, name(alloc, called)?, args);
            made(
                alloc,
                said,
                RestrictedExpr::from_representable(alloc, x),
                wanted,
            )
        }
        _ => say(said, "another value"),
    }
}

// The expression of a value, or one that is left. Says why it is refused.
fn of_left(alloc: Global, said: &mut String, text: &str, wanted: &str) -> Made<()> {
    let left = match text.strip_prefix("value ") {
        Some(text) => Part::Value(value(alloc, text)?),
        None => Part::Residual(expr(alloc, text)?),
    };
    let e = RestrictedExpr::try_from_partial_value(alloc, left);
    made(alloc, said, e, wanted)
}

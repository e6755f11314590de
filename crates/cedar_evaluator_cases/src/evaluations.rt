//! Commands on the evaluator of a request.

use crate::desk::{Desk, Made, Part};
use crate::said::{found_value, left, two};
use cedar_evaluator_core::Evaluator;
use cedar_evaluator_errors::EvaluationError;
use cedar_evaluator_operators::{any_entity_type, binary_arith, binary_relation, unary_app};
use cedar_expr_functions::Extensions;
use cedar_expr_leaves::{BinaryOp, UnaryOp};
use cedar_expr_trees::{Expr, ExprKind};
use cedar_test_exprs::{at, both, expr, made, say, show, tell, told, value};
use std::alloc::{AllocError, Global};
use std::rc::RcStr;

// Does the command, where it is one of these: `limit 3`, `left E`, `value E`, `unknowns E`, `at E`, `error E`; or one that `applied` does.
pub fn done(
    desk: &mut Desk,
    table: &Extensions<'_>,
    verb: &str,
    rest: &str,
    wanted: &str,
    said: &mut String,
) -> Made<()> {
    match verb {
        "limit" => limit(desk, rest),
        "left" => left(desk.alloc, said, evaluated(desk, table, rest)?, wanted),
        "value" => wholly(desk, table, rest, wanted, said),
        "unknowns" => open(desk, table, rest, said),
        "at" => placed(desk, table, rest, said),
        "error" => refused(desk, table, rest, said),
        _ => applied(desk.alloc, table, verb, rest, wanted, said),
    }
}

// Does the command, which is one of these: `arith % 7 3`, `unary ! true`, `relation < 1 2`, `any_entity`.
fn applied(
    alloc: Global,
    table: &Extensions<'_>,
    verb: &str,
    rest: &str,
    wanted: &str,
    said: &mut String,
) -> Made<()> {
    match verb {
        "arith" => arithmetic(alloc, rest, wanted, said),
        "unary" => unary(alloc, rest, wanted, said),
        "relation" => relation(alloc, table, rest, wanted, said),
        "any_entity" => told(alloc, said, any_entity_type(alloc)),
        _ => Err(AllocError),
    }
}

// The limit from here on.
fn limit(desk: &mut Desk, text: &str) -> Made<()> {
    desk.limit = made(text.parse::<u32>())?;
    Ok(())
}

// What is left of the expression in the request.
fn evaluated(
    desk: &Desk,
    table: &Extensions<'_>,
    text: &str,
) -> Made<Result<Part, EvaluationError>> {
    let alloc = desk.alloc;
    let (e, request) = both(expr(alloc, text), desk.request())?;
    let evaluator = Evaluator::new(request, &desk.known.store, table, desk.limit);
    let evaluator = evaluator.with_unknowns(&desk.unknowns);
    Ok(evaluator.partial_interpret(alloc, &e, &desk.slots))
}

// Says the value of the expression in the request.
fn wholly(
    desk: &Desk,
    table: &Extensions<'_>,
    text: &str,
    wanted: &str,
    said: &mut String,
) -> Made<()> {
    let alloc = desk.alloc;
    let (e, request) = both(expr(alloc, text), desk.request())?;
    let evaluator = Evaluator::new(request, &desk.known.store, table, desk.limit);
    let found = evaluator.interpret(alloc, &e, &desk.slots);
    found_value(alloc, said, found, wanted)
}

// Says the place of what is left, or of the error.
fn placed(desk: &Desk, table: &Extensions<'_>, text: &str, said: &mut String) -> Made<()> {
    let place = match evaluated(desk, table, text)? {
        Ok(Part::Value(v)) => v.source_loc(),
        Ok(Part::Residual(e)) => e.source_loc(),
        Err(error) => error.source_loc(),
    };
    at(desk.alloc, said, place)
}

// Says what a copy of the error keeps.
fn refused(desk: &Desk, table: &Extensions<'_>, text: &str, said: &mut String) -> Made<()> {
    match evaluated(desk, table, text)? {
        Ok(_) => say(said, "no error"),
        Err(error) => kept(desk.alloc, said, &error.clone()?),
    }
}

// Says the names that are there, how many there are, and whether an attribute was asked for and the other kind is there; or the name of
// the extension.
fn kept(alloc: Global, said: &mut String, error: &EvaluationError) -> Made<()> {
    match error {
        EvaluationError::EntityAttrDoesNotExist(e) => {
            names(said, e.available_attrs_or_tags.as_slice())?;
            show(alloc, said, &e.total_attrs_or_tags)?;
            tell(said, e.was_attr)?;
            tell(said, e.exists_the_other_kind)
        }
        EvaluationError::RecordAttrDoesNotExist(e) => {
            names(said, e.available_attrs.as_slice())?;
            show(alloc, said, &e.total_attrs)
        }
        EvaluationError::FailedExtensionFunctionExecution(e) => {
            say(said, e.extension_name(alloc)?.as_str())
        }
        _ => show(alloc, said, error),
    }
}

// Says the names.
fn names(said: &mut String, names: &[RcStr]) -> Made<()> {
    for name in names {
        say(said, name.as_str())?;
    }
    Ok(())
}

// Says the unknowns of what is left.
fn open(desk: &Desk, table: &Extensions<'_>, text: &str, said: &mut String) -> Made<()> {
    match evaluated(desk, table, text)? {
        Ok(Part::Residual(e)) => unknowns(desk.alloc, said, &e),
        _ => say(said, "no residual"),
    }
}

// Says the unknowns of an expression, each with its type where that is known.
fn unknowns(alloc: Global, said: &mut String, e: &Expr) -> Made<()> {
    for part in e.subexpressions(alloc)? {
        if let ExprKind::Unknown(u) = part.expr_kind() {
            show(alloc, said, u)?;
            if let Some(ty) = &u.type_annotation {
                show(alloc, said, ty)?;
            }
        }
    }
    Ok(())
}

// Says what the operator gives of two values, by its own call.
fn arithmetic(alloc: Global, text: &str, wanted: &str, said: &mut String) -> Made<()> {
    let (op, values) = two(text);
    let (arg1, arg2) = two(values);
    let (arg1, arg2) = both(value(alloc, arg1), value(alloc, arg2))?;
    let found = match op {
        "+" => binary_arith(alloc, BinaryOp::Add, &arg1, &arg2, None),
        "-" => binary_arith(alloc, BinaryOp::Sub, &arg1, &arg2, None),
        "*" => binary_arith(alloc, BinaryOp::Mul, &arg1, &arg2, None),
        "%" => binary_arith(alloc, BinaryOp::Rem, &arg1, &arg2, None),
        _ => return Err(AllocError),
    };
    found_value(alloc, said, found, wanted)
}

// Says what the operator of one operand gives of a value, by its own call.
fn unary(alloc: Global, text: &str, wanted: &str, said: &mut String) -> Made<()> {
    let (op, text) = two(text);
    let arg = value(alloc, text)?;
    let found = match op {
        "!" => unary_app(alloc, UnaryOp::Not, &arg, None),
        "neg" => unary_app(alloc, UnaryOp::Neg, &arg, None),
        "isEmpty" => unary_app(alloc, UnaryOp::IsEmpty, &arg, None),
        _ => return Err(AllocError),
    };
    found_value(alloc, said, found, wanted)
}

// Says whether the relation holds of two values, by its own call.
fn relation(
    alloc: Global,
    table: &Extensions<'_>,
    text: &str,
    wanted: &str,
    said: &mut String,
) -> Made<()> {
    let (op, values) = two(text);
    let (arg1, arg2) = two(values);
    let (arg1, arg2) = both(value(alloc, arg1), value(alloc, arg2))?;
    let found = match op {
        "==" => binary_relation(alloc, BinaryOp::Eq, &arg1, &arg2, table),
        "<" => binary_relation(alloc, BinaryOp::Less, &arg1, &arg2, table),
        "<=" => binary_relation(alloc, BinaryOp::LessEq, &arg1, &arg2, table),
        _ => return Err(AllocError),
    };
    found_value(alloc, said, found, wanted)
}

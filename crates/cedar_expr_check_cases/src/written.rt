//! Values as expressions, and back.

use cedar_expr_partial::*;
use cedar_expr_trees::{Expr, ExprKind};
use cedar_expr_values::{ExtValue, Literal, Loc, RepresentableExtensionValue, Value, ValueKind};
use cedar_test_exprs::{at, both, is, kept, literal, made, name, read, say, show, value};
use std::alloc::{AllocError, Global};
use std::rc::Rc;
use std::vec::IntoIter;

type V = Value<ExtValue>;

// The value, as it is written; the kind and the partial value have to be written so too, the kind at no place.
pub fn write(alloc: Global, said: &mut String, text: &str, wanted: &str) -> Result<(), AllocError> {
    let read = kept(alloc, value(alloc, text))?;
    let of_value = kept(alloc, Expr::from_value(alloc, read.as_ref()));
    let of_kind = kept(alloc, Expr::from_value_kind(alloc, read.value_kind()));
    let ((of_value, of_kind), again) = both(both(of_value, of_kind), value(alloc, text))?;
    if *of_value == *of_kind && of_kind.source_loc().is_none() {
        let part = PartialValue::from(again);
        is(alloc, said, Expr::from_partial_value(alloc, part), wanted)
    } else {
        say(said, "at odds")
    }
}

// The expression, read as a value, and written again; it has to be read as the value's kind too.
pub fn read_again(
    alloc: Global,
    said: &mut String,
    text: &str,
    wanted: &str,
) -> Result<(), AllocError> {
    let e = read(alloc, text)?;
    let value = kept(alloc, V::try_from_expr(alloc, &e));
    let kind: Result<ValueKind<ExtValue>, NotValue> = ValueKind::try_from_expr(alloc, &e);
    let (value, kind) = both(value, kept(alloc, kind))?;
    if *kind == *value.value_kind() {
        is(alloc, said, Expr::from_value(alloc, value.as_ref()), wanted)
    } else {
        say(said, "at odds")
    }
}

// An extension value with a call of the function of the first word with the literal of the second, written.
pub fn given(alloc: Global, text: &str) -> Result<Expr, AllocError> {
    let (function, text) = text.split_once(' ').ok_or(AllocError)?;
    let (argument, text) = text.split_once(' ').ok_or(AllocError)?;
    let args = vec![in alloc; literal(alloc, argument)?]?;
    let value = kept(alloc, value(alloc, text))?;
    let ValueKind::ExtensionValue(it) = value.value_kind() else {
        return Err(AllocError);
    };
    let (it, called) = both(made(it.clone()), name(alloc, function))?;
    let it = RepresentableExtensionValue::new(it, called, args);
    let it = ValueKind::ExtensionValue(Rc::new(alloc, it)?);
    Expr::from_value(alloc, &Value::new(it, None))
}

// Says a literal and its place.
fn literal_at(
    alloc: Global,
    said: &mut String,
    literal: Option<&Literal>,
    place: Option<Loc>,
) -> Result<(), AllocError> {
    match literal {
        Some(literal) => show(alloc, said, literal)?,
        None => say(said, "?")?,
    }
    at(alloc, said, place)
}

// Says the literals that values are, with their places.
pub fn values(alloc: Global, said: &mut String, values: IntoIter<V>) -> Result<(), AllocError> {
    for value in values {
        let literal = match value.value_kind() {
            ValueKind::Lit(literal) => Some(literal),
            _ => None,
        };
        literal_at(alloc, said, literal, value.source_loc())?;
    }
    Ok(())
}

// Says the literals that expressions are, with their places.
pub fn exprs(alloc: Global, said: &mut String, exprs: IntoIter<Expr>) -> Result<(), AllocError> {
    for e in exprs {
        let literal = match e.expr_kind() {
            ExprKind::Lit(literal) => Some(literal),
            _ => None,
        };
        literal_at(alloc, said, literal, e.source_loc())?;
    }
    Ok(())
}

//! Partial values, and values that are written as expressions and read again.

use crate::written;
use cedar_expr_partial::*;
use cedar_expr_trees::{Expr, Unknown};
use cedar_expr_values::{ExtValue, Loc, Value};
use cedar_test_exprs::{at, expr, is, kept, literal, made, parted, read, say, show, value, word};
use either::{Left, Right};
use std::alloc::{AllocError, Global};

type V = Value<ExtValue>;

type Part = PartialValue<ExtValue>;

const ROWS: &str =
    r#"# a value, as it is written, by itself and as a partial value; what of equal members stands first keeps its place
write 7@4 : 7@4
write User::alice : User::alice
write set=0@3 : set=0@3
write 2 1 2 set=3 : 1 2 set=2
write 1 3 set=1 set=1 record=a,b : 1 3 set=1 set=1 record=a,b
write record= : record=
write 1@4 1@6 2@5 set=3@3 : 1@4 2@5 set=2@3
write 1@6 1@4 2@5 set=3@3 : 1@6 2@5 set=2@3
write 2@7 1@6 1@4 set=3@3 : 1@6 2@7 set=2@3
write 2@8 1@6 2@7 set=3@3 : 1@6 2@8 set=2@3
write 1@4 1@6 1@5 record=b,a,c@2 : 1@6 1@4 1@5 record=a,b,c@2
write 1@4 2@6 1@7 record=b,a,b@2 : 2@6 1@7 record=a,b@2
write 1@4 set=1@3 2@5 record=s,u@2 : 1@4 set=1@3 2@5 record=s,u@2
write ext=rank/"07/7 : "07 call=rank/1
write_given rank_of "7 ext=rank/"07/7 : "7 call=rank_of/1
# an expression, read as a value and written again
read 7@4 : 7@4
read User::alice : User::alice
read 1@5 2@4 set=2@3 : 1@5 2@4 set=2@3
read 1@4 set=1@3 2@5 record=s,u@2 : 1@4 set=1@3 2@5 record=s,u@2
read record= : record=
# what is no value, with its place
refuse principal@2 : not a value @2
refuse 1 $u@3 set=2@1 : not a value @3
refuse 1 1@4 !@5 record=a,b@2 : not a value @5
refuse "07 call=rank/1@6 : not a value @6
refuse 7 : none
# a copy of a partial value at the place 8, written
move unknown u : $u@8
move expr 1@3 : 1@8
move value 1@3 : 1@8
move literal 1 : 1@8
# a list is split into values, where all are values, and else into expressions
split : values
split value 1 : values 1 @nowhere
split value 1@3 | value 2@2 : values 1 @3 2 @2
split expr 1 : expressions 1 @nowhere
split value 1 | expr 2 | value 3 | expr 4 : expressions 1 @nowhere 2 @nowhere 3 @nowhere 4 @nowhere
split value 1 | value 2 | value 3 | expr 4 : expressions 1 @nowhere 2 @nowhere 3 @nowhere 4 @nowhere
split expr 1 | value 2 | value 3 : expressions 1 @nowhere 2 @nowhere 3 @nowhere
split value 1@3 | expr 2@2 : expressions 1 @3 2 @2
# texts of refusals
texts : out of memory value contains a residual expression value contains a residual expression
"#;

/// The first row on partial values that says something else, with what it says; nothing where all hold. Fails when out of memory.
pub fn wrong_partial_row(alloc: Global) -> Result<String, AllocError> {
    for row in ROWS.lines() {
        if let Some((verb, rest, wanted)) = parted(row) {
            let mut said = String::new(alloc);
            done(alloc, &mut said, (verb, rest), wanted)?;
            if said.as_str() != wanted {
                return format!(in alloc; "{row}: {said}");
            }
        }
    }
    Ok(String::new(alloc))
}

// Does the command, which has a verb and the rest.
fn done(
    alloc: Global,
    said: &mut String,
    command: (&str, &str),
    wanted: &str,
) -> Result<(), AllocError> {
    let (verb, rest) = command;
    match verb {
        "write" => written::write(alloc, said, rest, wanted),
        "write_given" => is(alloc, said, written::given(alloc, rest), wanted),
        "read" => written::read_again(alloc, said, rest, wanted),
        "refuse" => refuse(alloc, said, rest),
        "move" => is(alloc, said, moved(alloc, rest), wanted),
        "split" => parted_list(alloc, said, rest),
        "texts" => texts(alloc, said),
        _ => Err(AllocError),
    }
}

fn refuse(alloc: Global, said: &mut String, text: &str) -> Result<(), AllocError> {
    let e = read(alloc, text)?;
    match V::try_from_expr(alloc, &e).err() {
        None => say(said, "none"),
        Some(refusal) => {
            show(alloc, said, &refusal)?;
            at(alloc, said, place_of(&refusal))
        }
    }
}

fn place_of(refusal: &NotValue) -> Option<Loc> {
    match refusal {
        NotValue::NotValue { loc } => *loc,
        NotValue::OutOfMemory => None,
    }
}

// The partial value of a word, which says how it is made, and a text.
fn part(alloc: Global, text: &str) -> Result<Part, AllocError> {
    match text.split_once(' ') {
        Some(("unknown", name)) => Ok(Part::unknown(Unknown::new_untyped(word(alloc, name)?))),
        Some(("expr", text)) => Ok(Part::from(expr(alloc, text)?)),
        Some(("value", text)) => Ok(Part::from(value(alloc, text)?)),
        Some(("literal", text)) => Ok(Part::from(literal(alloc, text)?)),
        _ => Err(AllocError),
    }
}

fn moved(alloc: Global, text: &str) -> Result<Expr, AllocError> {
    let part = kept(alloc, part(alloc, text))?;
    let copy = made(Part::clone(&part))?;
    Expr::from_partial_value(alloc, copy.with_maybe_source_loc(Some(Loc::new(8, 8))))
}

fn parts(alloc: Global, text: &str) -> Result<Vec<Part>, AllocError> {
    let mut parts = Vec::new(alloc);
    for text in text.split(" | ") {
        if !text.is_empty() {
            parts.push(part(alloc, text)?)?;
        }
    }
    Ok(parts)
}

fn parted_list(alloc: Global, said: &mut String, text: &str) -> Result<(), AllocError> {
    match split(alloc, parts(alloc, text)?)? {
        Left(values) => {
            say(said, "values")?;
            written::values(alloc, said, values)
        }
        Right(exprs) => {
            say(said, "expressions")?;
            written::exprs(alloc, said, exprs)
        }
    }
}

fn texts(alloc: Global, said: &mut String) -> Result<(), AllocError> {
    show(alloc, said, &NotValue::OutOfMemory)?;
    let fault = ContainsUnknown::new(expr(alloc, "$u")?);
    show(alloc, said, &fault)?;
    show(alloc, said, &PartialValueToValueError::from(fault))
}

//! Values, their types, and extension values.

use cedar_expr_names::Loc;
use cedar_expr_values::*;
use cedar_test_exprs::{at, copied, kept, literal, made, name, say, show, tell, value, word};
use std::alloc::{AllocError, Global};
use std::collections::HashSet;
use std::rc::{Rc, RcStr};

type V = Value<ExtValue>;

type Represented = RepresentableExtensionValue<ExtValue>;

// Does the command.
pub fn done(alloc: Global, said: &mut String, verb: &str, rest: &str) -> Result<(), AllocError> {
    match verb {
        "same" => same(alloc, said, rest),
        "type" => type_of(alloc, said, rest),
        "given" => given(alloc, said, rest),
        "uids" => uids(alloc, said, rest),
        "made" => copy(alloc, said, rest),
        "asked" => asked(alloc, said, rest),
        "sides" => sides(alloc, said, rest),
        "from_literals" => from_literals(alloc, said, rest),
        _ => Err(AllocError),
    }
}

fn same(alloc: Global, said: &mut String, text: &str) -> Result<(), AllocError> {
    let (first, second) = text.split_once(" | ").ok_or(AllocError)?;
    let (first, second) = (value(alloc, first)?, value(alloc, second)?);
    tell(said, first == second)?;
    tell(said, first.same(&second))?;
    tell(said, first.order(&second).is_eq())?;
    tell(said, first.eq_and_same_source_loc(&second))?;
    let mut seen = HashSet::new(alloc);
    seen.insert(first)?;
    tell(said, seen.contains(&second))
}

fn type_of(alloc: Global, said: &mut String, text: &str) -> Result<(), AllocError> {
    let value = kept(alloc, value(alloc, text))?;
    show(alloc, said, &value.type_of()?)?;
    copied(alloc, said, &value.value_kind().type_of()?)
}

// The extension value of a text.
fn ext(alloc: Global, text: &str) -> Result<Rc<ExtValue>, AllocError> {
    match value(alloc, text)?.value_kind() {
        ValueKind::ExtensionValue(it) => made(it.clone()),
        _ => Err(AllocError),
    }
}

// An extension value with a call of the function of the first word with the literal of the second.
fn represented(alloc: Global, text: &str) -> Result<Represented, AllocError> {
    let (function, text) = text.split_once(' ').ok_or(AllocError)?;
    let (argument, text) = text.split_once(' ').ok_or(AllocError)?;
    let args = vec![in alloc; literal(alloc, argument)?]?;
    let function = name(alloc, function)?;
    Ok(RepresentableExtensionValue::new(ext(alloc, text)?, function, args))
}

fn given(alloc: Global, said: &mut String, text: &str) -> Result<(), AllocError> {
    let it = kept(alloc, represented(alloc, text))?;
    let copy = kept(alloc, Represented::clone(&it))?;
    given_shown(alloc, said, &copy)?;
    tell(said, it.equals_extvalue(&copy))?;
    tell(said, it.cmp_extvalue(&copy).is_eq())
}

fn given_shown(alloc: Global, said: &mut String, copy: &Represented) -> Result<(), AllocError> {
    show(alloc, said, copy.func())?;
    for argument in copy.args() {
        show(alloc, said, argument)?;
    }
    show(alloc, said, copy.value().typename())?;
    show(alloc, said, &copy.type_of()?)
}

fn uids(alloc: Global, said: &mut String, text: &str) -> Result<(), AllocError> {
    let value = kept(alloc, value(alloc, text))?;
    let uids = kept(alloc, value.all_literal_uids(alloc))?;
    if uids.is_empty() {
        return say(said, "");
    }
    for uid in uids.iter() {
        show(alloc, said, uid)?;
    }
    Ok(())
}

fn literals(alloc: Global, text: &str) -> Result<Vec<Literal>, AllocError> {
    let mut literals = Vec::new(alloc);
    for word in text.split(' ') {
        literals.push(literal(alloc, word)?)?;
    }
    Ok(literals)
}

fn values(alloc: Global, text: &str) -> Result<Vec<V>, AllocError> {
    let mut values = Vec::new(alloc);
    for word in text.split(' ') {
        values.push(value(alloc, word)?)?;
    }
    Ok(values)
}

// The names and values of a text, as in `b=1 a=2`.
fn pairs(alloc: Global, text: &str) -> Result<Vec<(RcStr, V)>, AllocError> {
    let mut pairs = Vec::new(alloc);
    for pair in text.split(' ') {
        let (name, text) = pair.split_once('=').ok_or(AllocError)?;
        pairs.push((word(alloc, name)?, value(alloc, text)?))?;
    }
    Ok(pairs)
}

// The value that a maker makes of a text, at a place. Each is made by the like-named maker of its kind, and that by that of its set.
fn value_of(alloc: Global, text: &str) -> Result<V, AllocError> {
    let (maker, text) = text.split_once(' ').unwrap_or((text, ""));
    let place = Some(Loc::new(3, 5));
    match maker {
        "empty_set" => Value::empty_set(alloc, place),
        "empty_record" => Value::empty_record(alloc, place),
        "set" => Value::set(alloc, values(alloc, text)?, place),
        "literals" => Value::set_of_lits(alloc, literals(alloc, text)?, place),
        "record" => Value::record(alloc, pairs(alloc, text)?, place),
        _ => Ok(Value::record_arc(Record::new(alloc, pairs(alloc, text)?)?, place)),
    }
}

fn copy(alloc: Global, said: &mut String, text: &str) -> Result<(), AllocError> {
    let value = kept(alloc, value_of(alloc, text))?;
    let copy = kept(alloc, V::clone(&value))?;
    contents(alloc, said, copy.value_kind())?;
    at(alloc, said, copy.source_loc())
}

// The set that the value is.
fn set_in(value: &V) -> Result<&Set<ExtValue>, AllocError> {
    match value.value_kind() {
        ValueKind::Set(set) => Ok(set),
        _ => Err(AllocError),
    }
}

fn asked(alloc: Global, said: &mut String, text: &str) -> Result<(), AllocError> {
    let (held, member) = text.split_once(" | ").ok_or(AllocError)?;
    let (held, member) = (value(alloc, held)?, value(alloc, member)?);
    let set = Set::clone(set_in(&held)?)?;
    show(alloc, said, &set.len())?;
    match set.fast() {
        Some(literals) => show(alloc, said, &literals.len())?,
        None => say(said, "none")?,
    }
    tell(said, set.contains(&member))
}

fn sides(alloc: Global, said: &mut String, text: &str) -> Result<(), AllocError> {
    let (first, second) = text.split_once(" | ").ok_or(AllocError)?;
    let (first, second) = (value(alloc, first)?, value(alloc, second)?);
    let (first, second) = (set_in(&first)?, set_in(&second)?);
    tell(said, first.is_subset(second))?;
    tell(said, second.is_subset(first))?;
    tell(said, first.is_disjoint(second))?;
    tell(said, second.is_disjoint(first))
}

fn from_literals(alloc: Global, said: &mut String, text: &str) -> Result<(), AllocError> {
    let set: Set<ExtValue> = Set::from_lits(alloc, literals(alloc, text)?)?;
    for member in set.authoritative() {
        literal_shown(alloc, said, member)?;
    }
    Ok(())
}

// Says the members of a set, or the fields of a record.
fn contents(
    alloc: Global,
    said: &mut String,
    kind: &ValueKind<ExtValue>,
) -> Result<(), AllocError> {
    match kind {
        ValueKind::Set(members) => {
            for member in members.iter() {
                literal_shown(alloc, said, member)?;
            }
        }
        ValueKind::Record(fields) => {
            for (name, value) in fields.as_map().iter() {
                say(said, name.as_str())?;
                literal_shown(alloc, said, value)?;
            }
        }
        _ => return Err(AllocError),
    }
    if said.is_empty() {
        say(said, "")
    } else {
        Ok(())
    }
}

// Says the literal that a value is.
fn literal_shown(alloc: Global, said: &mut String, value: &V) -> Result<(), AllocError> {
    match value.value_kind() {
        ValueKind::Lit(literal) => show(alloc, said, literal),
        _ => Err(AllocError),
    }
}

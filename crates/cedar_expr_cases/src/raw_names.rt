//! Names within namespaces, and names of a schema before they are resolved.

use crate::names::internal;
use crate::values;
use cedar_expr_leaves::*;
use cedar_expr_names::{InternalName, Name};
use cedar_test_exprs::{kept, made, name, say, show, told};
use std::alloc::{AllocError, Global};

// Does the command, or one of those on values.
pub fn done(alloc: Global, said: &mut String, verb: &str, rest: &str) -> Result<(), AllocError> {
    let (space, text) = rest.split_once(' ').unwrap_or(("", rest));
    match verb {
        "within" => within(alloc, said, space, text),
        "possible" => conditional(alloc, said, possible(alloc, space, text)),
        "alone" => conditional(alloc, said, alone(alloc, text)),
        _ => values::done(alloc, said, verb, rest),
    }
}

fn within(alloc: Global, said: &mut String, space: &str, text: &str) -> Result<(), AllocError> {
    let space = kept(alloc, name(alloc, space))?;
    let name = kept(alloc, name(alloc, text))?;
    of_name(alloc, said, &name, &space)?;
    told(
        alloc,
        said,
        raw(alloc, text)?.qualify_with_name(alloc, Some(&space)),
    )?;
    told(
        alloc,
        said,
        raw(alloc, text)?.qualify_with(alloc, Some(space.as_internal())),
    )
}

fn of_name(alloc: Global, said: &mut String, it: &Name, space: &Name) -> Result<(), AllocError> {
    let (internal, within): (&InternalName, &InternalName) = (
        it.as_internal(),
        space.as_internal(),
    );
    told(alloc, said, it.qualify_with_name(alloc, Some(space)))?;
    told(alloc, said, it.qualify_with(alloc, Some(within)))?;
    told(alloc, said, internal.qualify_with_name(alloc, Some(space)))?;
    told(alloc, said, internal.qualify_with(alloc, Some(within)))
}

fn raw(alloc: Global, text: &str) -> Result<RawName, AllocError> {
    made(RawName::from_normalized_str(alloc, text))
}

// Says the name as it is written, and what it may stand for.
fn conditional(
    alloc: Global,
    said: &mut String,
    made: Result<ConditionalName, AllocError>,
) -> Result<(), AllocError> {
    let name = kept(alloc, made)?;
    show(alloc, said, name.raw())?;
    for name in name.possibilities() {
        say(said, name.as_str())?;
    }
    Ok(())
}

fn possible(alloc: Global, space: &str, text: &str) -> Result<ConditionalName, AllocError> {
    let space = internal(alloc, space)?;
    let kind = ReferenceType::CommonOrEntity;
    raw(alloc, text)?.conditionally_qualify_with(alloc, Some(&space), kind)
}

// A copy of a name that stands for itself alone.
fn alone(alloc: Global, text: &str) -> Result<ConditionalName, AllocError> {
    let name = internal(alloc, text)?;
    ConditionalName::unconditional(alloc, name, ReferenceType::Entity)?.clone()
}

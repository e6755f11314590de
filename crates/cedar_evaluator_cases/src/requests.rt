//! Commands on requests.

use crate::desk::{Desk, Made};
use crate::known;
use crate::said::{lay, left, two};
use cedar_evaluator_requests::{
    EntityUIDEntry, Request, RequestSchema, RequestSchemaAllPass, UnwrapInfallible,
};
use cedar_expr_functions::Extensions;
use cedar_expr_leaves::Var;
use cedar_expr_names::{EntityType, EntityUID, Loc};
use cedar_test_exprs::{both, entity_type, made, one, say, show, tell, uid};
use std::alloc::{AllocError, Global};

// Does the command, where it is one of these: `variable principal User::a`, `request User::a Action::view ?Doc`, the same with
// `asked_of_all`, `new User::a Action::view Doc::d`, `passes`, `kind`; or one that `known` does. Of `?` nothing is known, and of `?Doc` the
// type.
pub fn done(
    desk: &mut Desk,
    table: &Extensions<'_>,
    verb: &str,
    rest: &str,
    wanted: &str,
    said: &mut String,
) -> Made<()> {
    match verb {
        "variable" => variable(desk.alloc, said, rest, wanted),
        "request" => request(desk, rest),
        "asked_of_all" => asked_of_all(desk, table, rest),
        "passes" => passes(desk, table, said),
        "new" => new(desk, table, rest),
        "kind" => kind(desk, said),
        _ => known::done(desk, table, verb, rest, wanted, said),
    }
}

// The entry of a uid, or of what is known of its type.
fn entry(alloc: Global, text: &str) -> Made<EntityUIDEntry> {
    match text.strip_prefix("?") {
        Some("") => Ok(EntityUIDEntry::unknown()),
        Some(of) => Ok(EntityUIDEntry::unknown_with_type(entity_type(alloc, of)?, None)),
        None => EntityUIDEntry::known(alloc, uid(alloc, text)?, Some(Loc::new(4, 4))),
    }
}

// What the variable of an entry is.
fn variable(alloc: Global, said: &mut String, text: &str, wanted: &str) -> Made<()> {
    let (variable, text) = two(text);
    let var = match variable {
        "principal" => Var::Principal,
        "action" => Var::Action,
        _ => Var::Resource,
    };
    left(
        alloc,
        said,
        entry(alloc, text)?.evaluate(alloc, var),
        wanted,
    )
}

// The entries of principal, action and resource.
fn entries(alloc: Global, text: &str) -> Made<(EntityUIDEntry, EntityUIDEntry, EntityUIDEntry)> {
    let (principal, rest) = two(text);
    let (action, resource) = two(rest);
    let entries = both(entry(alloc, principal), entry(alloc, action));
    let ((principal, action), resource) = both(entries, entry(alloc, resource))?;
    Ok((principal, action, resource))
}

// The request of three entries, and of the last context, if there is one.
fn request(desk: &mut Desk, text: &str) -> Made<()> {
    let (principal, action, resource) = entries(desk.alloc, text)?;
    let made = Request::new_unchecked(principal, action, resource, desk.contexts.pop());
    lay(&mut desk.requests, Ok(made))
}

// The same request, of which a schema is asked that never refuses.
fn asked_of_all(desk: &mut Desk, table: &Extensions<'_>, text: &str) -> Made<()> {
    let (principal, action, resource) = entries(desk.alloc, text)?;
    let (context, schema) = (desk.contexts.pop(), Some(&RequestSchemaAllPass));
    let request = Request::new_with_unknowns(principal, action, resource, context, schema, table);
    lay(&mut desk.requests, made(request))
}

// Says that this schema passes the last request.
fn passes(desk: &Desk, table: &Extensions<'_>, said: &mut String) -> Made<()> {
    let request = desk.requests.last().ok_or(AllocError)?;
    let asked = RequestSchemaAllPass.validate_request(request, table);
    asked.unwrap_infallible();
    tell(said, true)
}

// The request of three uids and the last context, of which a schema is asked that never refuses.
fn new(desk: &mut Desk, table: &Extensions<'_>, text: &str) -> Made<()> {
    let alloc = desk.alloc;
    let (principal, rest) = two(text);
    let (action, resource) = two(rest);
    let uids = both(uid(alloc, principal), uid(alloc, action));
    let rest = both(uid(alloc, resource), one(&mut desk.contexts));
    let ((principal, action), (resource, context)) = both(uids, rest)?;
    let (principal, action, resource) = ((principal, None), (action, None), (resource, None));
    let schema = Some(&RequestSchemaAllPass);
    let request = Request::new(alloc, principal, action, resource, context, schema, table);
    lay(&mut desk.requests, made(request))
}

// The types of principal and resource of the last request, and its action.
fn kind(desk: &Desk, said: &mut String) -> Made<()> {
    let request = desk.requests.last().ok_or(AllocError)?;
    match request.to_request_type()? {
        None => say(said, "none"),
        Some(kind) => {
            let of = (&kind.principal, &kind.resource);
            say_kind(desk.alloc, said, of, &kind.action)
        }
    }
}

// Says the first type, the action, and the second type.
fn say_kind(
    alloc: Global,
    said: &mut String,
    of: (&EntityType, &EntityType),
    action: &EntityUID,
) -> Made<()> {
    show(alloc, said, of.0)?;
    show(alloc, said, action)?;
    show(alloc, said, of.1)
}

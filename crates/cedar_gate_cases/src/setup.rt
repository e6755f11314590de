//! What a case hands in: a bundle, written line by line.

use crate::fixtures::{POLICIES, SCHEMAS, STORES, fixture};
use cedar_evaluator_requests::Request;
use cedar_expr_functions::Extensions;
use cedar_expr_leaves::UnaryOp;
use cedar_expr_partial::PartialValue;
use cedar_expr_trees::Expr;
use cedar_expr_values::ExtValue;
use cedar_gate_bundles::{Bundle, read_input};
use cedar_store_entities::Entity;
use cedar_store_parts::{Effect, PolicyID};
use cedar_store_policies::Policy;
use cedar_test_exprs::{both, expr, made, uid, word};
use std::alloc::{AllocError, Global};
use std::fmt::Write;
use std::rc::RcStr;

/// What is made where there is memory.
pub type Made<T> = Result<T, AllocError>;

/// The first word of a text, and what stands behind it.
pub fn parted(text: &str) -> (&str, &str) {
    text.split_once(' ').unwrap_or((text, ""))
}

/// What the line of this word says, or this where there is no such line.
pub fn said_by<'t>(lines: &'t str, word: &str, without: &'t str) -> &'t str {
    for line in lines.lines() {
        let (first, rest) = parted(line);
        if first == word {
            return rest;
        }
    }
    without
}

/// The bundle of what these lines hand in, or an error where one isn't known. A line is `level 2`, `limit 5`, `schema NAME`, `store NAME`,
/// `policies NAME ..`, `permit ID BODY`, `forbid ID BODY`, `request PRINCIPAL ACTION RESOURCE CONTEXT`, `negated TIMES` or `host WORDS`.
/// What none says is level 0, limit 16, the schema `documents`, the store `people`, no policy, and the request of `User::a` to view
/// `Doc::d`.
pub fn bundle(alloc: Global, table: &Extensions<'_>, lines: &str) -> Made<Bundle> {
    let mut text = String::new(alloc);
    push_bundle(&mut text, lines)?;
    made(read_input(alloc, table, text.as_bytes()))
}

fn push_bundle(text: &mut String, lines: &str) -> Made<()> {
    let schema = fixture(SCHEMAS, said_by(lines, "schema", "documents")).ok_or(AllocError)?;
    let store = fixture(STORES, said_by(lines, "store", "people")).ok_or(AllocError)?;
    let level = said_by(lines, "level", "0");
    let limit = said_by(lines, "limit", "16");
    write!(
        text,
        "{{\"version\": 2, \"level\": {level}, \"limit\": {limit}, \"schema\": {schema}, \"store\": {store}, \"request\": "
    )?;
    push_request(
        text,
        said_by(lines, "request", "User::a Action::view Doc::d"),
    )?;
    text.push_str(", \"policies\": [")?;
    push_policies(text, lines)?;
    text.push_str("]}")
}

// The policies that the lines hand in, in their order.
fn push_policies(text: &mut String, lines: &str) -> Made<()> {
    for line in lines.lines() {
        let (word, rest) = parted(line);
        match word {
            "policies" => push_named(text, rest)?,
            "permit" | "forbid" => push_plain(text, word, rest)?,
            "level" | "limit" | "schema" | "store" | "request" | "negated" | "host" => {}
            _ => return Err(AllocError),
        }
    }
    Ok(())
}

// A policy behind those that there are.
fn push_policy(text: &mut String, json: &str) -> Made<()> {
    if !text.ends_with('[') {
        text.push(',')?;
    }
    text.push_str(json)
}

// The policies of these names.
fn push_named(text: &mut String, names: &str) -> Made<()> {
    for name in names.split(' ') {
        push_policy(text, fixture(POLICIES, name).ok_or(AllocError)?)?;
    }
    Ok(())
}

// The policy of this effect, id and body, for any request.
fn push_plain(text: &mut String, effect: &str, rest: &str) -> Made<()> {
    let (id, body) = rest.split_once(' ').unwrap_or((rest, "true"));
    push_policy(text, "")?;
    write!(
        text,
        "{{\"id\": \"{id}\", \"effect\": \"{effect}\", \"when\": {body}}}"
    )
}

// A request: `User::a`, `?` for an unknown and `?User` for one of a type; behind the resource may stand the context's JSON.
fn push_request(text: &mut String, words: &str) -> Made<()> {
    let (principal, rest) = parted(words);
    let (action, rest) = parted(rest);
    let (resource, context) = rest.split_once(' ').unwrap_or((rest, "{}"));
    push_entry(text, "{\"principal\": ", principal)?;
    push_entry(text, ", \"action\": ", action)?;
    push_entry(text, ", \"resource\": ", resource)?;
    write!(text, ", \"context\": {context}}}")
}

// A part of a request, behind this text.
fn push_entry(text: &mut String, before: &str, word: &str) -> Made<()> {
    text.push_str(before)?;
    match (word.strip_prefix("?"), word.rsplit_once("::")) {
        (Some(""), _) => text.push_str("\"unknown\""),
        (Some(name), _) => write!(text, "{{\"unknown\": \"{name}\"}}"),
        (None, Some((name, id))) => write!(text, "[\"{name}\", \"{id}\"]"),
        (None, None) => Err(AllocError),
    }
}

/// Adds the policy of the line `negated TIMES`, if there is one: `p`, which permits where `1 == 1`, negated so often. No bundle nests as
/// deep as a policy may.
pub fn add_negated(alloc: Global, policies: &mut Vec<Policy>, lines: &str) -> Made<()> {
    match said_by(lines, "negated", "").parse::<u32>() {
        Ok(times) => Ok(policies.push(negated(alloc, times)?)?),
        Err(_) => Ok(()),
    }
}

fn negated(alloc: Global, times: u32) -> Made<Policy> {
    let mut condition = expr(alloc, "1 1 ==")?;
    for _ in 0..times {
        condition = Expr::unary_app(alloc, UnaryOp::Not, condition)?;
    }
    let id = PolicyID::from_string(alloc, "p")?;
    Policy::from_when_clause(alloc, Effect::Permit, condition, id, None)
}

/// The entity of this JSON.
pub fn entity(alloc: Global, table: &Extensions<'_>, json: &str) -> Made<Entity> {
    let line = format!(in alloc; "store [{json}]")?;
    let bundle = bundle(alloc, table, line.as_str())?;
    match bundle.store.iter().next() {
        Some(entity) => entity.clone(),
        None => Err(AllocError),
    }
}

/// The entity of a uid with one attribute, of which only the name is known: `Doc::d owner`.
pub fn entity_with_unknown(alloc: Global, words: &str) -> Made<Entity> {
    let (of, attr) = parted(words);
    let (uid, attr) = both(uid(alloc, of), unknown(alloc, attr))?;
    let attrs = vec![in alloc; attr]?;
    let (ancestors, parents, tags) = (Vec::new(alloc), Vec::new(alloc), Vec::new(alloc));
    Entity::new_with_attr_partial_value(alloc, uid, attrs, ancestors, parents, tags)
}

// An attribute of this name, whose value is unknown.
fn unknown(alloc: Global, attr: &str) -> Made<(RcStr, PartialValue<ExtValue>)> {
    let (attr, value) = both(word(alloc, attr), expr(alloc, "$u"))?;
    Ok((attr, PartialValue::Residual(value)))
}

/// The request that the words write.
pub fn request(alloc: Global, table: &Extensions<'_>, words: &str) -> Made<Request> {
    let line = format!(in alloc; "request {words}")?;
    let bundle = bundle(alloc, table, line.as_str())?;
    bundle.request.clone()
}

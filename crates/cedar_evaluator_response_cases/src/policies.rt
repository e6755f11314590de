//! Commands that make policies.

use crate::desk::{Desk, Made, Noted};
use crate::known;
use crate::said::{lay, two};
use cedar_expr_functions::Extensions;
use cedar_expr_names::AnyId;
use cedar_store_policies::{Annotation, Annotations, Effect, Policy, PolicyID, PolicySet};
use cedar_test_exprs::{both, kept, made, read, word};
use std::alloc::Global;

// Does the command, where it is one of these: `permit p principal User::a ==`, `forbid f true`. A note of an id, as in `permit p@q`,
// is the annotation `id`. Or does one that `known` does.
pub fn done(
    desk: &mut Desk,
    table: &Extensions<'_>,
    verb: &str,
    rest: &str,
    wanted: &str,
    said: &mut String,
) -> Made<()> {
    let effect = match verb {
        "permit" => Effect::Permit,
        "forbid" => Effect::Forbid,
        _ => return known::stored(desk, table, verb, rest, wanted, said),
    };
    lay(&mut desk.policies, policy(desk.known.alloc, effect, rest))
}

// The id and the annotations of a text.
pub fn noted(alloc: Global, text: &str) -> Made<Noted> {
    let (id, note) = text.split_once('@').unwrap_or((text, ""));
    let annotations = kept(alloc, annotations(alloc, note));
    both(PolicyID::from_string(alloc, id), annotations)
}

// The annotation `id` of the note, or none where the note is empty.
fn annotations(alloc: Global, note: &str) -> Made<Annotations> {
    let mut annotations = Annotations::new(alloc);
    if !note.is_empty() {
        let name = made(AnyId::from_normalized_str(alloc, "id"));
        let (name, val) = both(name, word(alloc, note))?;
        annotations.insert(name, Annotation { val, loc: None })?;
    }
    Ok(annotations)
}

// The policy of an id and a body.
fn policy(alloc: Global, effect: Effect, text: &str) -> Made<Policy> {
    let (id, body) = two(text);
    let ((id, annotations), body) = both(noted(alloc, id), read(alloc, body))?;
    Policy::from_when_clause_annos(alloc, effect, body, id, None, annotations)
}

// The set of copies of the policies at hand.
pub fn set_of(desk: &Desk) -> Made<PolicySet> {
    let mut set = PolicySet::new(desk.known.alloc);
    for policy in desk.policies.iter() {
        made(set.add(policy.clone()?))?;
    }
    Ok(set)
}

//! Commands on the set of policies.

use crate::desk::{Command, Known, Made, Parts};
use crate::made::{all, two};
use crate::policies::bound;
use crate::seen;
use cedar_expr_leaves::SlotId;
use cedar_store_policies::{Effect, Policy, PolicyID, PolicySet, Template};
use cedar_test_exprs::{one, refused, say, show};

// Does the command: `add_template`, `add_static`, `add`, `link t l`, `listed`, `set`, or one on a policy.
pub fn done(
    parts: &mut Parts,
    known: &mut Known,
    command: Command<'_>,
    said: &mut String,
) -> Made<()> {
    let (verb, rest, _) = command;
    match verb {
        "add_template" => add_template(parts, said),
        "add_static" => add_static(parts, said),
        "add" => add(parts, said),
        "link" => link(parts, rest, said),
        "listed" => listed(parts, said),
        "set" => say_set(&parts.set, said),
        _ => seen::done(parts, known, command, said),
    }
}

fn add_template(parts: &mut Parts, said: &mut String) -> Made<()> {
    let template = one(&mut parts.templates)?;
    refused(parts.alloc, said, parts.set.add_template(template))
}

fn add_static(parts: &mut Parts, said: &mut String) -> Made<()> {
    let policy = one(&mut parts.bare)?;
    refused(parts.alloc, said, parts.set.add_static(policy))
}

fn add(parts: &mut Parts, said: &mut String) -> Made<()> {
    let policy = one(&mut parts.policies)?;
    refused(parts.alloc, said, parts.set.add(policy))
}

// Links the template of the first id under the second, with what the slots are bound to. Of a refusal the number is said first.
fn link(parts: &mut Parts, rest: &str, said: &mut String) -> Made<()> {
    let (of, new) = two(rest);
    let of = PolicyID::from_string(parts.alloc, of)?;
    let new = PolicyID::from_string(parts.alloc, new)?;
    let values = bound(parts);
    let linked = parts.set.link(&of, new, values);
    if let Err(fault) = &linked {
        show(parts.alloc, said, &fault.number())?;
    }
    refused(parts.alloc, said, linked)
}

// Makes the set of the policies at hand.
fn listed(parts: &mut Parts, said: &mut String) -> Made<()> {
    let policies = all(parts.alloc, &mut parts.policies);
    match PolicySet::try_from_iter(parts.alloc, policies) {
        Ok(set) => {
            parts.set = set;
            say(said, "done")
        }
        Err(e) => show(parts.alloc, said, &e),
    }
}

// What stands in the set: its templates, and then its policies.
fn say_set(set: &PolicySet, said: &mut String) -> Made<()> {
    for template in set.templates() {
        say_template(said, template)?;
    }
    for policy in set.policies() {
        say_policy(said, policy)?;
    }
    Ok(())
}

fn effect_text(effect: Effect) -> &'static str {
    match effect {
        Effect::Permit => "permit",
        Effect::Forbid => "forbid",
    }
}

// Its id, its effect, and its slots.
fn say_template(said: &mut String, it: &Template) -> Made<()> {
    say(said, it.id().as_str())?;
    say(said, effect_text(it.effect()))?;
    if it.has_slot(SlotId::principal()) {
        say(said, "?principal")?;
    }
    if it.has_slot(SlotId::resource()) {
        say(said, "?resource")?;
    }
    said.push(';')
}

// Its id, its template's, its effect, what its slots are bound to, and its annotations.
pub fn say_policy(said: &mut String, it: &Policy) -> Made<()> {
    say(said, it.id().as_str())?;
    say(said, "of")?;
    say(said, it.template().id().as_str())?;
    say(said, effect_text(it.effect()))?;
    say_bound(said, it, SlotId::principal(), "?principal")?;
    say_bound(said, it, SlotId::resource(), "?resource")?;
    for (name, note) in it.annotations() {
        say(said, name.as_str())?;
        say(said, note.val.as_str())?;
    }
    said.push(';')
}

fn say_bound(said: &mut String, it: &Policy, slot: SlotId, text: &str) -> Made<()> {
    match it.env().get(slot) {
        Some(uid) => {
            say(said, text)?;
            say(said, uid.eid().as_str())
        }
        None => Ok(()),
    }
}

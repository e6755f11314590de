//! Templates that are linked.

use crate::told::{Made, Told};
use cedar_expr_leaves::SlotId;
use cedar_gate_runs::lines::push_numbered;
use cedar_store_cases::template;
use cedar_store_parts::{LinkingError, PolicyID, SlotEnv};
use cedar_store_policies::PolicySet;
use cedar_test_exprs::{kept, made, uid};
use std::alloc::{AllocError, Global};
use std::fmt::Write;

/// Puts the template `p`, whose scope is the first row, into a set, and makes the call of each further row: `p l User::a Doc::d` links the
/// template `p` under the id `l`, the slots bound to these. Says what each call comes to, and the policies of the set behind it.
pub fn make_calls(alloc: Global, rows: &str, told: &mut Told) -> Made<()> {
    let (scope, links) = rows.split_once('\n').ok_or(AllocError)?;
    let mut set = PolicySet::new(alloc);
    made(set.add_template(template(alloc, scope, "true")?))?;
    for row in links.lines() {
        link(alloc, &mut set, row, told)?;
    }
    Ok(())
}

// The ids of the policies in the set.
fn listed(alloc: Global, set: &PolicySet) -> Made<String> {
    let mut ids = String::new(alloc);
    for policy in set.policies() {
        write!(ids, " {}", policy.id().as_str())?;
    }
    Ok(ids)
}

fn bind(alloc: Global, env: &mut SlotEnv, slot: SlotId, bound: Option<&str>) -> Made<()> {
    if let Some(bound) = bound {
        let _before = env.insert(slot, kept(alloc, uid(alloc, bound))?);
    }
    Ok(())
}

// Links a template as the row says. Out of memory it is linked again.
fn link(alloc: Global, set: &mut PolicySet, row: &str, told: &mut Told) -> Made<()> {
    let mut words = row.split(' ');
    let template = PolicyID::from_string(alloc, words.next().unwrap_or(""))?;
    let id = PolicyID::from_string(alloc, words.next().unwrap_or(""))?;
    let mut env = SlotEnv::new();
    bind(alloc, &mut env, SlotId::principal(), words.next())?;
    bind(alloc, &mut env, SlotId::resource(), words.next())?;
    let before = listed(alloc, set)?;
    let mut linked = set.link(&template, id.clone()?, env.clone()?);
    if let Err(LinkingError::OutOfMemory) = linked {
        let after = listed(alloc, set)?;
        told.say_refused("link", after.as_str() == before.as_str())?;
        linked = set.link(&template, id, env);
    }
    match linked {
        Ok(()) => told.say("linked")?,
        Err(fault) => push_numbered(&mut told.text, "link", fault.number())?,
    }
    let after = listed(alloc, set)?;
    writeln!(told.text, "set:{after}")
}

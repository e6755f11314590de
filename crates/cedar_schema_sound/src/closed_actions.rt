//! Whether each action is closed: what descends from it is declared, and has what descends from it in turn among the same.
//!
//! Of those that descend from an action, and from which fewer do, the one is taken from which the most descend. What descends from
//! both needs no look of its own if that one is closed, and it is known of it first, since fewer descend from it. In a chain or a tree
//! this takes a few look-ups for each descendant that is kept; to go over the descendants of each descendant would take as many times
//! more as the chain is long.

ghost use Rattle.std.specs.Prelude.{◌≡◌, ◌<◌, ◌↔◌, IsTrue, IfSome, length, true, false};
ghost use Rattle.std.specs.List.{list_all};
ghost use Rattle.cedar_schema_entries.specs.Views.{action_seen};
ghost use Rattle.cedar_schema_built.specs.Views.{schema_kept};
ghost use Rattle.cedar_schema_sound.specs.Closed.{is_action_closed, IsActionBelow, IsActionClosedAfter};

use crate::actions::{left_out, unsound_at, unsound_below};
use cedar_schema_built::ValidatorSchema;
use cedar_schema_entries::ValidatorActionId;

// Whether fewer actions descend from this one than from the other.
fn has_fewer(action: &ValidatorActionId, other: &ValidatorActionId) -> bool
    ensures { IsTrue result ↔ (length (action_seen action.now).descendants < length (action_seen other.now).descendants) }
{
    action.descendants().len() < other.descendants().len()
}

// Whether more actions descend from this one than from the other, if there is another.
fn has_more(action: &ValidatorActionId, other: Option<&ValidatorActionId>) -> bool
    ensures { IfSome other.entry (λ o. IsTrue result ↔ (length (action_seen o.now).descendants < length (action_seen action.now).descendants)) }
{
    match other {
        Some(other) => has_fewer(other, action),
        None => true,
    }
}

// Of the actions that descend from this one, and from which fewer do, one from which the most do.
fn broadest_below<'a>(
    schema: &'a ValidatorSchema,
    action: &ValidatorActionId,
) -> Option<&'a ValidatorActionId>
    ensures { IfSome result (λ t. IsActionBelow (schema_kept schema.entry.now) (action_seen action.now) (action_seen t.now)) }
{
    let mut broadest = None;
    for descendant in action.descendants() {
        if let Some(below) = schema.get_action_id(descendant)
            && has_fewer(below, action)
            && has_more(below, broadest)
        {
            broadest = Some(below);
        }
    }
    broadest
}

// Whether the action is closed, if this one below it is: what descends from that too is passed over.
fn is_closed_over(
    schema: &ValidatorSchema,
    action: &ValidatorActionId,
    below: &ValidatorActionId,
) -> bool
    requires { IsActionBelow (schema_kept schema.now) (action_seen action.now) (action_seen below.now) }
    ensures closed { result ≡ true → is_action_closed (schema_kept schema.now) (action_seen below.now) ≡ true → is_action_closed (schema_kept schema.now) (action_seen action.now) ≡ true }
    ensures amiss { result ≡ false → is_action_closed (schema_kept schema.now) (action_seen action.now) ≡ false }
{
    if left_out(action, below).is_some() {
        return false;
    }
    for descendant in action.descendants() {
        if !below.has_descendant(descendant) && unsound_at(schema, action, descendant).is_some() {
            return false;
        }
    }
    true
}

// Whether the action is closed, if each is from which fewer descend.
fn is_closed(schema: &ValidatorSchema, action: &ValidatorActionId) -> bool
    ensures closed { result ≡ true → IsActionClosedAfter (schema_kept schema.now) (action_seen action.now) }
    ensures amiss { result ≡ false → is_action_closed (schema_kept schema.now) (action_seen action.now) ≡ false }
{
    match broadest_below(schema, action) {
        Some(below) => is_closed_over(schema, action, below),
        None => unsound_below(schema, action).is_none(),
    }
}

// Whether each action is closed.
pub(crate) fn are_actions_closed(schema: &ValidatorSchema) -> bool
    ensures { result ≡ list_all (is_action_closed (schema_kept schema.now)) (schema_kept schema.now).actions }
{
    for action in schema.action_ids() {
        if !is_closed(schema, action) {
            return false;
        }
    }
    true
}

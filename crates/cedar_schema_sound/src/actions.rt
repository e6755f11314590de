//! Whether an action of a built schema is what it has to be.

ghost use Rattle.std.specs.Prelude.{◌≡◌, List, option_map, map, true};
ghost use Rattle.std.specs.Option.{option_or};
ghost use Rattle.cedar_expr_names.specs.Views.{type_name_of, uid_of};
ghost use Rattle.cedar_expr_model.specs.Lists.{first_found};
ghost use Rattle.cedar_schema_entries.specs.Views.{action_seen};
ghost use Rattle.cedar_schema_built.specs.Views.{schema_kept};
ghost use Rattle.cedar_schema_model.specs.Unsound.{type_fault, applied_fault, context_fault, descendants_fault, action_among, action_below_fault, action_fault};
ghost use Rattle.cedar_schema_sound.specs.Closed.{is_action_closed};
ghost use Rattle.cedar_schema_sound.specs.Views.{fault_seen, names_known};

use crate::known::{is_action_type, undeclared, unknown_in_attributes};
use crate::unsound::Unsound;
use cedar_expr_names::{EntityType, EntityUID, Name};
use cedar_schema_built::ValidatorSchema;
use cedar_schema_entries::ValidatorActionId;
use cedar_schema_types::{OpenTag, Type};
use std::collections::BTreeSet;
use std::collections::btree_set::Iter;

// What is wrong with the action, if anything is. Where it is known to be closed, what descends from it isn't looked at.
pub(crate) fn unsound_action<'a>(
    schema: &'a ValidatorSchema,
    extension_types: &BTreeSet<Name>,
    action: &'a ValidatorActionId,
    closed: bool,
) -> Option<Unsound<'a>>
    requires { closed ≡ true → is_action_closed (schema_kept schema.now) (action_seen action.now) ≡ true }
    ensures { option_map fault_seen result ≡ action_fault (names_known extension_types.now) (schema_kept schema.entry.now) (action_seen action.entry.now) }
{
    if !is_action_type(action.name().entity_type()) {
        return Some(Unsound::ActionOfOtherType(action.name()));
    }
    if let Some(unsound) = undeclared_for(schema, action) {
        return Some(unsound);
    }
    if let Some(unsound) = unsound_context(schema, extension_types, action) {
        return Some(unsound);
    }
    unsound_descendants(schema, action, closed)
}

// The first type that it applies to and that isn't declared: of principals, and then of resources.
fn undeclared_for<'a>(
    schema: &ValidatorSchema,
    action: &'a ValidatorActionId,
) -> Option<Unsound<'a>>
    ensures { option_map fault_seen result ≡ applied_fault (schema_kept schema.now) (action_seen action.entry.now) }
{
    if let Some(unsound) = undeclared_of(schema, action.principals()) {
        return Some(unsound);
    }
    undeclared_of(schema, action.resources())
}

// The first of these entity types that isn't declared.
fn undeclared_of<'a>(schema: &ValidatorSchema, types: Iter<'a, EntityType>) -> Option<Unsound<'a>>
    ensures { option_map fault_seen result ≡ first_found (type_fault (schema_kept schema.now)) (map type_name_of types.entry) }
{
    for ty in types {
        if let Some(unsound) = undeclared(schema, ty) {
            return Some(unsound);
        }
    }
    None
}

// What is wrong with its context.
fn unsound_context<'a>(
    schema: &ValidatorSchema,
    extension_types: &BTreeSet<Name>,
    action: &'a ValidatorActionId,
) -> Option<Unsound<'a>>
    ensures { option_map fault_seen result ≡ context_fault (names_known extension_types.now) (schema_kept schema.now) (action_seen action.entry.now).uid (action_seen action.entry.now).context }
{
    match action.context() {
        Type::Record {
            attrs,
            open_attributes: OpenTag::ClosedAttributes,
        } => unknown_in_attributes(schema, extension_types, attrs),
        Type::Record {
            open_attributes: OpenTag::OpenAttributes,
            ..
        }
        | Type::Never
        | Type::Bool(_)
        | Type::Long
        | Type::String
        | Type::Entity(_)
        | Type::Set { .. }
        | Type::ExtensionType { .. } => Some(Unsound::ContextNotClosedRecord(action.name())),
    }
}

// What is wrong with what descends from it: where it is known to be closed, no more than that it descends from itself.
fn unsound_descendants<'a>(
    schema: &'a ValidatorSchema,
    action: &'a ValidatorActionId,
    closed: bool,
) -> Option<Unsound<'a>>
    requires { closed ≡ true → is_action_closed (schema_kept schema.now) (action_seen action.now) ≡ true }
    ensures { option_map fault_seen result ≡ descendants_fault (schema_kept schema.entry.now) (action_seen action.entry.now) }
{
    if action.has_descendant(action.name()) {
        return Some(Unsound::ActionBelowItself(action.name()));
    }
    unsound_unless_closed(schema, action, closed)
}

// What is wrong with those that descend from it: nothing, where it is known to be closed.
fn unsound_unless_closed<'a>(
    schema: &'a ValidatorSchema,
    action: &'a ValidatorActionId,
    closed: bool,
) -> Option<Unsound<'a>>
    requires { closed ≡ true → is_action_closed (schema_kept schema.now) (action_seen action.now) ≡ true }
    ensures { option_map fault_seen result ≡ first_found (action_below_fault (schema_kept schema.entry.now) (action_seen action.entry.now)) (action_seen action.entry.now).descendants }
{
    if closed {
        None
    } else {
        unsound_below(schema, action)
    }
}

// What is wrong with the first of those that descend from it with which something is wrong.
pub(crate) fn unsound_below<'a>(
    schema: &'a ValidatorSchema,
    action: &'a ValidatorActionId,
) -> Option<Unsound<'a>>
    ensures { option_map fault_seen result ≡ first_found (action_below_fault (schema_kept schema.entry.now) (action_seen action.entry.now)) (action_seen action.entry.now).descendants }
{
    for descendant in action.descendants() {
        if let Some(unsound) = unsound_at(schema, action, descendant) {
            return Some(unsound);
        }
    }
    None
}

// What is wrong with one that descends from it.
pub(crate) fn unsound_at<'a>(
    schema: &'a ValidatorSchema,
    action: &'a ValidatorActionId,
    descendant: &'a EntityUID,
) -> Option<Unsound<'a>>
    ensures { option_map fault_seen result ≡ action_below_fault (schema_kept schema.entry.now) (action_seen action.entry.now) (uid_of descendant.entry.now) }
{
    match schema.get_action_id(descendant) {
        Some(below) => left_out(action, below),
        None => Some(Unsound::UndeclaredAction(descendant)),
    }
}

// The first that descends from the other and not from it.
pub(crate) fn left_out<'a>(
    action: &'a ValidatorActionId,
    below: &'a ValidatorActionId,
) -> Option<Unsound<'a>>
    ensures { option_map fault_seen result ≡ first_found (action_among (action_seen action.entry.now)) (action_seen below.entry.now).descendants }
{
    for descendant in below.descendants() {
        if !action.has_descendant(descendant) {
            return Some(Unsound::ActionLeftOut {
                ancestor: action.name(),
                left_out: descendant,
            });
        }
    }
    None
}

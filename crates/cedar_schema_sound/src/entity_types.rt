//! Whether an entity type of a built schema is what it has to be.

ghost use Rattle.std.specs.Prelude.{◌≡◌, option_map, true};
ghost use Rattle.std.specs.Option.{option_or};
ghost use Rattle.cedar_expr_names.specs.Views.{type_name_of};
ghost use Rattle.cedar_expr_model.specs.Lists.{first_found};
ghost use Rattle.cedar_schema_entries.specs.Views.{entity_type_seen};
ghost use Rattle.cedar_schema_built.specs.Views.{schema_kept};
ghost use Rattle.cedar_schema_model.specs.Unsound.{kind_fault, type_among, type_below_fault, entity_type_fault};
ghost use Rattle.cedar_schema_sound.specs.Closed.{is_type_closed};
ghost use Rattle.cedar_schema_sound.specs.Views.{fault_seen, names_known};

use crate::known::{is_action_type, unknown_in_attributes, unknown_in_type};
use crate::unsound::Unsound;
use cedar_expr_names::{EntityType, Name};
use cedar_schema_built::ValidatorSchema;
use cedar_schema_entries::ValidatorEntityType;
use std::collections::BTreeSet;

// What is wrong with the entity type, if anything is. Where it is known to be closed, what descends from it isn't looked at.
pub(crate) fn unsound_type<'a>(
    schema: &'a ValidatorSchema,
    extension_types: &BTreeSet<Name>,
    entity_type: &'a ValidatorEntityType,
    closed: bool,
) -> Option<Unsound<'a>>
    requires { closed ≡ true → is_type_closed (schema_kept schema.now) (entity_type_seen entity_type.now) ≡ true }
    ensures { option_map fault_seen result ≡ entity_type_fault (names_known extension_types.now) (schema_kept schema.entry.now) (entity_type_seen entity_type.entry.now) }
{
    if is_action_type(entity_type.name()) {
        return Some(Unsound::TypeNamedAction(entity_type.name()));
    }
    if let Some(unsound) = unknown_in_kind(schema, extension_types, entity_type) {
        return Some(unsound);
    }
    unsound_unless_closed(schema, entity_type, closed)
}

// What is wrong with its attributes, and then with its tags.
fn unknown_in_kind<'a>(
    schema: &ValidatorSchema,
    extension_types: &BTreeSet<Name>,
    entity_type: &'a ValidatorEntityType,
) -> Option<Unsound<'a>>
    ensures { option_map fault_seen result ≡ kind_fault (names_known extension_types.now) (schema_kept schema.now) (entity_type_seen entity_type.entry.now).kind }
{
    if let Some(unsound) = unknown_in_attributes(
        schema,
        extension_types,
        entity_type.attributes(),
    ) {
        return Some(unsound);
    }
    match entity_type.tag_type() {
        Some(ty) => unknown_in_type(schema, extension_types, ty),
        None => None,
    }
}

// What is wrong with what descends from it: nothing, where it is known to be closed.
fn unsound_unless_closed<'a>(
    schema: &'a ValidatorSchema,
    entity_type: &'a ValidatorEntityType,
    closed: bool,
) -> Option<Unsound<'a>>
    requires { closed ≡ true → is_type_closed (schema_kept schema.now) (entity_type_seen entity_type.now) ≡ true }
    ensures { option_map fault_seen result ≡ first_found (type_below_fault (schema_kept schema.entry.now) (entity_type_seen entity_type.entry.now)) (entity_type_seen entity_type.entry.now).descendants }
{
    if closed {
        None
    } else {
        unsound_below(schema, entity_type)
    }
}

// What is wrong with what descends from it.
pub(crate) fn unsound_below<'a>(
    schema: &'a ValidatorSchema,
    entity_type: &'a ValidatorEntityType,
) -> Option<Unsound<'a>>
    ensures { option_map fault_seen result ≡ first_found (type_below_fault (schema_kept schema.entry.now) (entity_type_seen entity_type.entry.now)) (entity_type_seen entity_type.entry.now).descendants }
{
    for descendant in entity_type.descendants() {
        if let Some(unsound) = unsound_at(schema, entity_type, descendant) {
            return Some(unsound);
        }
    }
    None
}

// What is wrong with one that descends from it.
pub(crate) fn unsound_at<'a>(
    schema: &'a ValidatorSchema,
    entity_type: &'a ValidatorEntityType,
    descendant: &'a EntityType,
) -> Option<Unsound<'a>>
    ensures { option_map fault_seen result ≡ type_below_fault (schema_kept schema.entry.now) (entity_type_seen entity_type.entry.now) (type_name_of descendant.entry.now) }
{
    match schema.get_entity_type(descendant) {
        Some(below) => left_out(entity_type, below),
        None => Some(Unsound::UndeclaredType(descendant)),
    }
}

// The first that descends from the other and not from it.
pub(crate) fn left_out<'a>(
    entity_type: &'a ValidatorEntityType,
    below: &'a ValidatorEntityType,
) -> Option<Unsound<'a>>
    ensures { option_map fault_seen result ≡ first_found (type_among (entity_type_seen entity_type.entry.now)) (entity_type_seen below.entry.now).descendants }
{
    for descendant in below.descendants() {
        if !entity_type.has_descendant_entity_type(descendant) {
            return Some(Unsound::TypeLeftOut {
                ancestor: entity_type.name(),
                left_out: descendant,
            });
        }
    }
    None
}

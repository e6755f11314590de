//! Whether a built schema is what it has to be.

ghost use Rattle.std.specs.Prelude.{◌≡◌, Some, true, option_map, is_none, IfOk, IfErr};
ghost use Rattle.cedar_expr_model.specs.Lists.{first_found};
ghost use Rattle.cedar_schema_built.specs.Views.{schema_kept};
ghost use Rattle.cedar_schema_model.specs.Unsound.{entity_type_fault, action_fault, first_fault, is_sound};
ghost use Rattle.cedar_schema_sound.specs.Views.{fault_seen, names_known};
ghost use Rattle.cedar_schema_sound.specs.Refusals.{Refuses};

use crate::actions::unsound_action;
use crate::closed_actions::are_actions_closed;
use crate::closed_types::are_types_closed;
use crate::entity_types::unsound_type;
use crate::err::UnsoundSchemaError;
use crate::unsound::Unsound;
use cedar_expr_names::Name;
use cedar_schema_built::ValidatorSchema;
use std::collections::BTreeSet;

/// The first that is wrong with the schema, if anything is: with its entity types in the order of their names, and then with its
/// actions in that of their uids. The extension types are those that are known.
pub fn first_unsound<'a>(
    schema: &'a ValidatorSchema,
    extension_types: &BTreeSet<Name>,
) -> Option<Unsound<'a>>
    ensures first { option_map fault_seen result ≡ first_fault (names_known extension_types.now) (schema_kept schema.entry.now) }
    ensures sound { is_none result ≡ is_sound (names_known extension_types.now) (schema_kept schema.entry.now) }
{
    if let Some(unsound) = first_unsound_type(schema, extension_types) {
        return Some(unsound);
    }
    first_unsound_action(schema, extension_types)
}

// The first that is wrong with its entity types.
fn first_unsound_type<'a>(
    schema: &'a ValidatorSchema,
    extension_types: &BTreeSet<Name>,
) -> Option<Unsound<'a>>
    ensures { option_map fault_seen result ≡ first_found (entity_type_fault (names_known extension_types.now) (schema_kept schema.entry.now)) (schema_kept schema.entry.now).types }
{
    let closed = are_types_closed(schema);
    for entity_type in schema.entity_types() {
        if let Some(unsound) = unsound_type(schema, extension_types, entity_type, closed) {
            return Some(unsound);
        }
    }
    None
}

// The first that is wrong with its actions.
fn first_unsound_action<'a>(
    schema: &'a ValidatorSchema,
    extension_types: &BTreeSet<Name>,
) -> Option<Unsound<'a>>
    ensures { option_map fault_seen result ≡ first_found (action_fault (names_known extension_types.now) (schema_kept schema.entry.now)) (schema_kept schema.entry.now).actions }
{
    let closed = are_actions_closed(schema);
    for action in schema.action_ids() {
        if let Some(unsound) = unsound_action(schema, extension_types, action, closed) {
            return Some(unsound);
        }
    }
    None
}

// Refuses a schema that isn't what it has to be, by a copy of what is wrong with it first. Fails only when out of memory.
fn check_sound(
    schema: &ValidatorSchema,
    extension_types: &BTreeSet<Name>,
) -> Result<(), UnsoundSchemaError>
    ensures sound { IfOk result (λ _. is_sound (names_known extension_types.now) (schema_kept schema.now) ≡ true) }
    ensures refused { IfErr result (Refuses (first_fault (names_known extension_types.now) (schema_kept schema.now))) }
{
    match first_unsound(schema, extension_types) {
        None => Ok(()),
        Some(unsound) => Err(UnsoundSchemaError::of_unsound(unsound)?),
    }
}

/// The schema itself, if it is what it has to be, with these extension types known. Refuses any other by what is wrong with it
/// first, and fails when out of memory.
pub fn try_validate(
    schema: ValidatorSchema,
    extension_types: &BTreeSet<Name>,
) -> Result<ValidatorSchema, UnsoundSchemaError>
    ensures same { IfOk result (λ s. s ≡ schema) }
    ensures sound { IfOk result (λ s. is_sound (names_known extension_types.now) (schema_kept s) ≡ true) }
    ensures refused { IfErr result (Refuses (first_fault (names_known extension_types.now) (schema_kept schema))) }
{
    check_sound(&schema, extension_types)?;
    Ok(schema)
}

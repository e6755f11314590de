//! Whether each entity type is closed: what descends from it is declared, and has what descends from it in turn among the same.
//!
//! Of those that descend from an entity type, and from which fewer do, the one is taken from which the most descend. What descends from
//! both needs no look of its own if that one is closed, and it is known of it first, since fewer descend from it. In a chain or a tree
//! this takes a few look-ups for each descendant that is kept; to go over the descendants of each descendant would take as many times
//! more as the chain is long.

ghost use Rattle.std.specs.Prelude.{◌≡◌, ◌<◌, ◌↔◌, IsTrue, IfSome, length, true, false};
ghost use Rattle.std.specs.List.{list_all};
ghost use Rattle.cedar_schema_entries.specs.Views.{entity_type_seen};
ghost use Rattle.cedar_schema_built.specs.Views.{schema_kept};
ghost use Rattle.cedar_schema_sound.specs.Closed.{is_type_closed, IsTypeBelow, IsTypeClosedAfter};

use crate::entity_types::{left_out, unsound_at, unsound_below};
use cedar_schema_built::ValidatorSchema;
use cedar_schema_entries::ValidatorEntityType;

// Whether fewer entity types descend from this one than from the other.
fn has_fewer(entity_type: &ValidatorEntityType, other: &ValidatorEntityType) -> bool
    ensures { IsTrue result ↔ (length (entity_type_seen entity_type.now).descendants < length (entity_type_seen other.now).descendants) }
{
    entity_type.descendants().len() < other.descendants().len()
}

// Whether more entity types descend from this one than from the other, if there is another.
fn has_more(entity_type: &ValidatorEntityType, other: Option<&ValidatorEntityType>) -> bool
    ensures { IfSome other.entry (λ o. IsTrue result ↔ (length (entity_type_seen o.now).descendants < length (entity_type_seen entity_type.now).descendants)) }
{
    match other {
        Some(other) => has_fewer(other, entity_type),
        None => true,
    }
}

// Of the entity types that descend from this one, and from which fewer do, one from which the most do.
fn broadest_below<'a>(
    schema: &'a ValidatorSchema,
    entity_type: &ValidatorEntityType,
) -> Option<&'a ValidatorEntityType>
    ensures { IfSome result (λ t. IsTypeBelow (schema_kept schema.entry.now) (entity_type_seen entity_type.now) (entity_type_seen t.now)) }
{
    let mut broadest = None;
    for descendant in entity_type.descendants() {
        if let Some(below) = schema.get_entity_type(descendant)
            && has_fewer(below, entity_type)
            && has_more(below, broadest)
        {
            broadest = Some(below);
        }
    }
    broadest
}

// Whether the entity type is closed, if this one below it is: what descends from that too is passed over.
fn is_closed_over(
    schema: &ValidatorSchema,
    entity_type: &ValidatorEntityType,
    below: &ValidatorEntityType,
) -> bool
    requires { IsTypeBelow (schema_kept schema.now) (entity_type_seen entity_type.now) (entity_type_seen below.now) }
    ensures closed { result ≡ true → is_type_closed (schema_kept schema.now) (entity_type_seen below.now) ≡ true → is_type_closed (schema_kept schema.now) (entity_type_seen entity_type.now) ≡ true }
    ensures amiss { result ≡ false → is_type_closed (schema_kept schema.now) (entity_type_seen entity_type.now) ≡ false }
{
    if left_out(entity_type, below).is_some() {
        return false;
    }
    for descendant in entity_type.descendants() {
        if !below.has_descendant_entity_type(descendant)
            && unsound_at(schema, entity_type, descendant).is_some()
        {
            return false;
        }
    }
    true
}

// Whether the entity type is closed, if each is from which fewer descend.
fn is_closed(schema: &ValidatorSchema, entity_type: &ValidatorEntityType) -> bool
    ensures closed { result ≡ true → IsTypeClosedAfter (schema_kept schema.now) (entity_type_seen entity_type.now) }
    ensures amiss { result ≡ false → is_type_closed (schema_kept schema.now) (entity_type_seen entity_type.now) ≡ false }
{
    match broadest_below(schema, entity_type) {
        Some(below) => is_closed_over(schema, entity_type, below),
        None => unsound_below(schema, entity_type).is_none(),
    }
}

// Whether each entity type is closed.
pub(crate) fn are_types_closed(schema: &ValidatorSchema) -> bool
    ensures { result ≡ list_all (is_type_closed (schema_kept schema.now)) (schema_kept schema.now).types }
{
    for entity_type in schema.entity_types() {
        if !is_closed(schema, entity_type) {
            return false;
        }
    }
    true
}

//! The tags of an entity against the type that is declared for them.

ghost use Rattle.std.specs.Prelude.{◌≡◌, ◌||◌, is_none};
ghost use Rattle.cedar_gate_model.specs.Asked.{has_wrong_tag};
ghost use Rattle.cedar_schema_model.specs.Conforming.{is_refused};
ghost use Rattle.cedar_store_entities.specs.Views.{bare_part, part_seen, entity_of};
ghost use Rattle.cedar_gate_conforming.specs.Views.{type_seen};

use crate::attributes::is_refused;
use cedar_expr_partial::PartialValue;
use cedar_expr_values::ExtValue;
use cedar_schema_types::Type;
use cedar_store_entities::Entity;

// Whether the entity has a tag where none may be, or one whose value isn't of the type of the tags.
pub(crate) fn has_wrong_tag(tags: Option<&Type>, entity: &Entity) -> bool
    ensures { result ≡ has_wrong_tag (type_seen tags.entry) (entity_of entity.now).tags }
{
    for (_name, part) in entity.tags() {
        if is_wrong_tag(tags, part) {
            return true;
        }
    }
    false
}

// Whether no tag may be there, or this is a value that isn't of the type of the tags.
fn is_wrong_tag(tags: Option<&Type>, part: &PartialValue<ExtValue>) -> bool
    ensures { result ≡ (is_none (type_seen tags.entry) || is_refused (type_seen tags.entry) (bare_part (part_seen part.now))) }
{
    match tags {
        Some(ty) => is_refused(ty, part),
        None => true,
    }
}

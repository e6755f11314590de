//! The declared actions as entities.

ghost use Rattle.std.specs.Prelude.{◌≡◌, map, IfOk};
ghost use Rattle.cedar_gate_model.specs.Alike.{ConformsAlike, AreActionEntities};
ghost use Rattle.cedar_schema_built.specs.Views.{schema_kept};
ghost use Rattle.cedar_schema_model.specs.Schema.{Schema};
ghost use Rattle.cedar_store_entities.specs.Views.{entity_pair};

use cedar_gate_model::conforming_laws::kept_actions_are_entities;
use cedar_schema_built::ValidatorSchema;
use cedar_schema_built::laws::schemas_are_in_order;
use cedar_store_entities::Entity;
use std::alloc::{AllocError, Global};

/// The declared actions as entities, each once, with all actions that it descends from: those of each schema by which the same
/// conforms as by what is kept. Fails only when out of memory.
pub fn actions(alloc: Global, schema: &ValidatorSchema) -> Result<Vec<Entity>, AllocError>
    ensures { (s : Schema) → ConformsAlike s (schema_kept schema.now) → IfOk result (λ es. AreActionEntities s (map entity_pair es.items)) }
{
    kept_actions_are_entities();
    schemas_are_in_order(schema);
    schema.action_entities(alloc)
}

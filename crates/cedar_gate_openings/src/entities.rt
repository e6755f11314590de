//! What entities mention.

ghost use Rattle.std.specs.Prelude.{◌≡◌, ◌++◌, IfOk, OnOk};
ghost use Rattle.cedar_store_model.specs.World.{held};
ghost use Rattle.cedar_store_entities.specs.Views.{entity_of};
ghost use Rattle.cedar_typechecker_model.specs.Slice.{mentioned_by_found};
ghost use Rattle.cedar_gate_openings.specs.Mentions.{uids, mentioned_by_these};

use crate::mentions::add_mentioned;
use cedar_expr_names::EntityUID;
use cedar_expr_partial::PartialValue;
use cedar_expr_values::ExtValue;
use cedar_store_entities::Entity;
use std::alloc::{AllocError, Global};
use std::collections::btree_map::Iter;
use std::rc::RcStr;

/// The uids that the entity mentions: those of its attributes that are values, by their names, and then those of its tags. Fails only when
/// out of memory.
pub fn mentioned_by(alloc: Global, entity: &Entity) -> Result<Vec<EntityUID>, AllocError>
    ensures { IfOk result (λ us. uids us.items ≡ mentioned_by_found (held (entity_of entity.now))) }
{
    let mut mentioned = Vec::new(alloc);
    add_by_parts(entity.attrs(), &mut mentioned)?;
    add_by_parts(entity.tags(), &mut mentioned)?;
    Ok(mentioned)
}

// Adds the uids that these attributes or tags mention.
fn add_by_parts(
    parts: Iter<'_, RcStr, PartialValue<ExtValue>>,
    to: &mut Vec<EntityUID>,
) -> Result<(), AllocError>
    ensures { OnOk result (uids to.new.items ≡ uids to.old.items ++ mentioned_by_these parts.entry) }
{
    for (_name, part) in parts {
        add_by_part(part, to)?;
    }
    Ok(())
}

ghost use Rattle.std.specs.Option.{option_map_or};
ghost use Rattle.std.specs.Prelude.{[]};
ghost use Rattle.cedar_expr_model.specs.ValueParts.{known_value};
ghost use Rattle.cedar_store_entities.specs.Views.{bare_part, part_seen};
ghost use Rattle.cedar_typechecker_model.specs.Slice.{mentioned};

// Adds the uids that an attribute or a tag mentions, if it is a value.
fn add_by_part(part: &PartialValue<ExtValue>, to: &mut Vec<EntityUID>) -> Result<(), AllocError>
    ensures { OnOk result (uids to.new.items ≡ uids to.old.items ++ option_map_or mentioned (known_value (bare_part (part_seen part.now))) []) }
{
    match part {
        PartialValue::Value(value) => add_mentioned(value, to),
        PartialValue::Residual(_) => Ok(()),
    }
}

//! Laws of uids and of stores. Each function's contract is the theorem; its body does nothing, or it reads the store, of which a proof then
//! knows that it keeps to the ranges of its types.

ghost use Rattle.std.specs.Prelude.{◌≡◌, map, true};
ghost use Rattle.cedar_store_model.specs.OfLaws.InRange.{is_part_in_range, are_parts_in_range, is_entity_in_range, is_store_in_range};
ghost use Rattle.cedar_store_entities.specs.StoreLaws.{UidsAreUids, StoresAreMaps, PartialIsLess, PartsAreFinished, UnfinishedIsLess};
ghost use Rattle.cedar_store_entities.specs.Stores.{store_seen};
ghost use Rattle.cedar_store_entities.specs.Views.{part_seen, part_pair, bare_part, entity_of};

use crate::entities::Entities;
use crate::entity::Entity;
use cedar_expr_partial::PartialValue;
use cedar_expr_values::ExtValue;
use cedar_expr_values::laws::values_are_in_range;
use std::collections::btree_map::Iter;
use std::rc::RcStr;

/// Each uid of the code is a uid, so each can stand in a store.
pub fn uids_are_uids()
    ensures { UidsAreUids }
{}

/// No uid is repeated in a store. A partial store knows less than each whole store that has its entities and lacks its absences, also
/// where attributes and tags that aren't values yet have become values there.
pub fn stores_are_maps()
    ensures distinct { StoresAreMaps }
    ensures extended { PartialIsLess }
    ensures parts { PartsAreFinished }
    ensures finished { UnfinishedIsLess }
{}

/// All that a store holds is in range: each value that is an attribute or a tag, their names, and each uid.
pub fn stores_are_in_range(store: &Entities)
    ensures { is_store_in_range (store_seen store.now) ≡ true }
{
    for entity in store.iter() {
        entity_is_in_range(entity);
    }
}

// All that an entity holds is in range.
fn entity_is_in_range(entity: &Entity)
    ensures { is_entity_in_range (entity_of entity.now) ≡ true }
{
    parts_are_in_range(entity.attrs());
    parts_are_in_range(entity.tags());
}

// So are attributes or tags.
fn parts_are_in_range(parts: Iter<'_, RcStr, PartialValue<ExtValue>>)
    ensures { are_parts_in_range (map (λ p. (p.0, bare_part p.1)) (map part_pair parts.entry)) ≡ true }
{
    for (_, part) in parts {
        part_is_in_range(part);
    }
}

// A part that is a value is in range.
fn part_is_in_range(part: &PartialValue<ExtValue>)
    ensures { is_part_in_range (bare_part (part_seen part.now)) ≡ true }
{
    if let PartialValue::Value(value) = part {
        values_are_in_range(value);
    }
}

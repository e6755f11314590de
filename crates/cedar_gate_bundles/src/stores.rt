//! The store of a bundle.
ghost use Rattle.std.specs.Prelude.{IfOk, IfErr, map};
ghost use Rattle.serde_json.specs.View.{view};
ghost use Rattle.cedar_expr_model.specs.Uid.{Uid};
ghost use Rattle.cedar_expr_model.specs.Made.{Made};
ghost use Rattle.cedar_store_model.specs.World as world;
ghost use Rattle.cedar_store_entities.specs.Stores.{store_seen};
ghost use Rattle.cedar_store_entities.specs.Views.{entity_pair};
ghost use Rattle.cedar_gate_model.specs.Reading.{list_of};
ghost use Rattle.cedar_gate_model.specs.ReadingRequest.{entity_read, store_read};
ghost use Rattle.cedar_gate_bundles.specs.Written.{entity_read_made, entity_pair_made, AreWritten, IsStoreWritten};
ghost use Rattle.cedar_gate_expressions.specs.declared.fault.ReadFault.TheVariants.{Unreadable};
ghost use Rattle.cedar_gate_bundles.specs.Reading.{ReadsAs, IsUnreadable, ByFairFunctions};

use crate::lists::{ReaderByTable, optional_pairs, read_list};
use crate::values::Values;
use cedar_expr_functions::Extensions;
use cedar_gate_expressions::{ReadFault, Uids, has_only, optional_list, read_uid, required};
use cedar_store_entities::{Entities, EntitiesError, Entity};
use serde_json::Value;
use std::alloc::Global;

/// Reads a store, in which no uid is repeated.
#[tactic(auto, using(crate::proofs::Parted::store_kept, crate::proofs::Parted::store_repeats))]
pub(crate) fn read_store(
    alloc: Global,
    table: &Extensions<'_>,
    value: &Value,
) -> Result<Entities, ReadFault>
    ensures ok { IfOk result (λ s. ReadsAs table.now (λ x. store_read x (view value.now)) (store_seen s).entities) }
    ensures unreadable { IfErr result (λ f. IsUnreadable table.now (λ x. store_read x (view value.now)) f) }
    ensures store_written { IfOk result (λ s. ByFairFunctions table.now (λ x. IsStoreWritten x.table s)) }
{
    let entities = read_entities(alloc, table, value)?;
    match Entities::from_entities(alloc, entities) {
        Ok(store) => Ok(store),
        Err(EntitiesError::OutOfMemory) => Err(ReadFault::OutOfMemory),
        Err(EntitiesError::Duplicate { .. }) => Err(ReadFault::Unreadable),
    }
}

/// Reads one entity of a store. Its values are evaluated by the functions of the table.
///
/// # Errors
/// `Unreadable` where the value is no entity of a bundle's store, and `OutOfMemory`.
pub fn read_entity(
    alloc: Global,
    table: &Extensions<'_>,
    value: &Value,
) -> Result<Entity, ReadFault>
    ensures ok { IfOk result (λ e. ReadsAs table.now (λ x. entity_read_made x (view value.now)) (entity_pair_made e)) }
    ensures unreadable { IfErr result (λ f. IsUnreadable table.now (λ x. entity_read_made x (view value.now)) f) }
{
    StoredEntities.read(alloc, table, value)
}

// Reads the entities of a store.
fn read_entities(
    alloc: Global,
    table: &Extensions<'_>,
    value: &Value,
) -> Result<Vec<Entity>, ReadFault>
    ensures ok { IfOk result (λ es. ReadsAs table.now (λ x. list_of (entity_read x) (view value.now)) (map entity_pair es.items)) }
    ensures unreadable { IfErr result (λ f. IsUnreadable table.now (λ x. list_of (entity_read x) (view value.now)) f) }
    ensures written { IfOk result (λ es. ByFairFunctions table.now (λ x. AreWritten x.table (map entity_pair_made es.items))) }
{
    read_list(alloc, &StoredEntities, table, value)
}

// Reads entities.
struct StoredEntities;

impl ReaderByTable for StoredEntities {
    type Item = Entity;

    ghost Meaning = { Uid × world.Entity Made };

    ghost reading = { entity_read_made };

    ghost seen = { entity_pair_made };

    #[tactic(auto, using(crate::proofs::Parted::entity_made))]
    fn read(
        &self,
        alloc: Global,
        table: &Extensions<'_>,
        value: &Value,
    ) -> Result<Entity, ReadFault> {
        if !has_only(value, &["uid", "attrs", "tags", "ancestors"]) {
            return Err(ReadFault::Unreadable);
        }
        let uid = read_uid(alloc, required(value, "uid")?)?;
        let attrs = optional_pairs(alloc, &Values, table, value, "attrs")?;
        let tags = optional_pairs(alloc, &Values, table, value, "tags")?;
        let ancestors = optional_list(alloc, &Uids, value, "ancestors")?;
        Ok(Entity::new(alloc, uid, attrs, ancestors, Vec::new(alloc), tags)?)
    }
}

//! What is supplied: whether its entities are right, and what they mention.

ghost use Rattle.std.specs.Prelude.{◌≡◌, ◌++◌, ◌∷◌, [], IfOk, OnOk, map, option_to_list};
ghost use Rattle.std.specs.List.{list_all};
ghost use Rattle.cedar_gate_wanted.specs.Rows.{uids};
ghost use Rattle.cedar_gate_sessions.specs.Entities.{supplied_pair, supplied_of, supplied_entities, missing_of, missing_uids, mentioned_by_this, row_pair, mentions_pair};
ghost use Rattle.cedar_gate_sessions.specs.Loaded.{is_right};

use crate::entities::add_answers;
use crate::faults::SupplyFault;
use crate::gates::Schema;
use cedar_expr_names::EntityUID;
use cedar_gate_openings::mentioned_by;
use cedar_gate_wanted::Loading;
use cedar_store_entities::{Entities, Entity};
use std::alloc::{AllocError, Global};

/// Whether each entity is under its uid and conforms.
pub(crate) fn are_right<S: Schema>(schema: &S, supplied: &[(EntityUID, Option<Entity>)]) -> bool
    ensures { result ≡ list_all (is_right (S.schema schema.now)) (supplied_of supplied.now) }
{
    for pair in supplied {
        if !is_right(schema, pair) {
            return false;
        }
    }
    true
}

// Whether the entity is under its uid and conforms.
fn is_right<S: Schema>(schema: &S, pair: &(EntityUID, Option<Entity>)) -> bool
    ensures { result ≡ is_right (S.schema schema.now) (supplied_pair pair.now) }
{
    match &pair.1 {
        None => true,
        Some(entity) => pair.0.same(entity.uid()) && schema.entity_conforms(entity),
    }
}

/// What a supply is made of.
#[derive(Drop)]
pub(crate) struct Parts {
    /// What each uid mentions.
    pub(crate) rows: Vec<(EntityUID, Vec<EntityUID>)>,
    /// The entities.
    pub(crate) entities: Vec<Entity>,
    /// The uids without an entity.
    pub(crate) missing: Vec<EntityUID>,
}

/// The parts of what is supplied. Fails only when out of memory.
pub(crate) fn parted(
    alloc: Global,
    supplied: Vec<(EntityUID, Option<Entity>)>,
) -> Result<Parts, AllocError>
    ensures rows { IfOk result (λ r. map row_pair r.rows.items ≡ map mentions_pair supplied.items) }
    ensures entities { IfOk result (λ r. r.entities.items ≡ supplied_entities supplied.items) }
    ensures missing { IfOk result (λ r. uids r.missing.items ≡ missing_uids supplied.items) }
{
    let mut parts = Parts {
        rows: Vec::new(alloc),
        entities: Vec::new(alloc),
        missing: Vec::new(alloc),
    };
    for (uid, entity) in supplied {
        put_part(alloc, uid, entity, &mut parts)?;
    }
    Ok(parts)
}

// Appends what the uid mentions to the rows, and the entity to the entities, or else the uid to those without one.
fn put_part(
    alloc: Global,
    uid: EntityUID,
    entity: Option<Entity>,
    parts: &mut Parts,
) -> Result<(), AllocError>
    ensures rows { OnOk result (map row_pair parts.new.rows.items ≡ map row_pair parts.old.rows.items ++ mentions_pair (uid, entity) ∷ []) }
    ensures entities { OnOk result (parts.new.entities.items ≡ parts.old.entities.items ++ option_to_list entity) }
    ensures missing { OnOk result (uids parts.new.missing.items ≡ uids parts.old.missing.items ++ missing_of (uid, entity)) }
{
    let mentioned = mentions(alloc, &entity)?;
    put(&uid, entity, parts)?;
    parts.rows.push((uid, mentioned))?;
    Ok(())
}

// What the entity mentions, if there is one.
fn mentions(alloc: Global, entity: &Option<Entity>) -> Result<Vec<EntityUID>, AllocError>
    ensures { IfOk result (λ us. uids us.items ≡ mentioned_by_this entity.now) }
{
    match entity {
        None => Ok(Vec::new(alloc)),
        Some(entity) => mentioned_by(alloc, entity),
    }
}

// Appends the entity to the entities, or else the uid to those without one.
fn put(uid: &EntityUID, entity: Option<Entity>, parts: &mut Parts) -> Result<(), AllocError>
    ensures rows { parts.new.rows ≡ parts.old.rows }
    ensures entities { OnOk result (parts.new.entities.items ≡ parts.old.entities.items ++ option_to_list entity) }
    ensures missing { OnOk result (uids parts.new.missing.items ≡ uids parts.old.missing.items ++ missing_of (uid.now, entity)) }
{
    match entity {
        None => {
            let copy = uid.clone()?;
            parts.missing.push(copy)?;
            Ok(())
        }
        Some(entity) => {
            parts.entities.push(entity)?;
            Ok(())
        }
    }
}

ghost use Rattle.std.specs.Prelude.{IfErr, OnErr};
ghost use Rattle.cedar_gate_wanted.specs.Supplying.{rows_of, keys_in, IsFilled, AreKeys};
ghost use Rattle.cedar_gate_wanted.specs.Wanting.{IsWanting, IsSameLoading, RootsAreKept, rows_in, wanted_in, level_of};
ghost use Rattle.cedar_gate_sessions.specs.Entities.{AddsAnswers, IsGrown, IsSameStore};
ghost use Rattle.cedar_gate_sessions.specs.Faults.{IsTakingFault};

/// Takes the rows in, and adds the entities to what is loaded, where it records also which uids have none.
///
/// # Errors
///
/// 1 a uid isn't wanted, 2 a wanted one is missing, 3 one is given twice; or out of memory. All is as before then.
pub(crate) fn take_in<S: Schema>(
    alloc: Global,
    schema: &S,
    loading: &mut Loading,
    loaded: &mut Entities,
    parts: Parts,
) -> Result<(), SupplyFault>
    ensures added { OnOk result (AddsAnswers parts.entities.items (uids parts.missing.items) loaded.old loaded.new) }
    ensures stays { OnErr result (IsSameStore loaded.old loaded.new) }
    ensures wanting { OnOk result (IsWanting (S.schema schema.now) loading.old → IsWanting (S.schema schema.now) loading.new) }
    ensures kept { OnOk result (IsWanting (S.schema schema.now) loading.old → RootsAreKept loading.old loading.new) }
    ensures filled { OnOk result (IsFilled (rows_of parts.rows.items) (rows_in loading.old) (rows_in loading.new)) }
    ensures keys { OnOk result (AreKeys (wanted_in loading.old) (keys_in parts.rows.items)) }
    ensures level { level_of loading.new ≡ level_of loading.old }
    ensures refused { IfErr result (IsTakingFault (wanted_in loading.old) (keys_in parts.rows.items)) }
    ensures unchanged { OnErr result (IsSameLoading loading.old loading.new) }
{
    let mark = loaded.mark();
    match take(alloc, schema, loading, loaded, parts) {
        Ok(()) => Ok(()),
        Err(fault) => {
            loaded.reset(mark);
            Err(fault)
        }
    }
}

// Does so, but that what is loaded may have grown where it is refused.
fn take<S: Schema>(
    alloc: Global,
    schema: &S,
    loading: &mut Loading,
    loaded: &mut Entities,
    parts: Parts,
) -> Result<(), SupplyFault>
    ensures added { OnOk result (AddsAnswers parts.entities.items (uids parts.missing.items) loaded.old loaded.new) }
    ensures grown { IsGrown loaded.old loaded.new }
    ensures wanting { OnOk result (IsWanting (S.schema schema.now) loading.old → IsWanting (S.schema schema.now) loading.new) }
    ensures kept { OnOk result (IsWanting (S.schema schema.now) loading.old → RootsAreKept loading.old loading.new) }
    ensures filled { OnOk result (IsFilled (rows_of parts.rows.items) (rows_in loading.old) (rows_in loading.new)) }
    ensures keys { OnOk result (AreKeys (wanted_in loading.old) (keys_in parts.rows.items)) }
    ensures level { level_of loading.new ≡ level_of loading.old }
    ensures refused { IfErr result (IsTakingFault (wanted_in loading.old) (keys_in parts.rows.items)) }
    ensures unchanged { OnErr result (IsSameLoading loading.old loading.new) }
{
    let Parts {
        rows,
        entities,
        missing,
    } = parts;
    add_answers(loaded, entities, missing)?;
    match loading.supply(alloc, schema, rows) {
        Ok(()) => Ok(()),
        Err(unfit) => Err(SupplyFault::from(unfit)),
    }
}

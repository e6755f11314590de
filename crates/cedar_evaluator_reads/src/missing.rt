//! Refusals of attributes, tags and fields that aren't there.

ghost use Rattle.std.specs.Prelude.{◌≡◌, map, IfOk, IfErr};
ghost use Rattle.std.specs.Map.{keys_of};
ghost use Rattle.std.specs.Rc.{rc_str_bytes};
ghost use Rattle.cedar_expr_names.specs.Views.{uid_of};
ghost use Rattle.cedar_store_entities.specs.Views.{entity_seen};
ghost use Rattle.cedar_store_model.specs.Outcome.{missing_attribute_or_tag, missing_entity, missing_field};
ghost use Rattle.cedar_evaluator_model.specs.Steps.{errs};
ghost use Rattle.cedar_evaluator_errors.specs.Outcomes.{Leaves};
ghost use Rattle.cedar_evaluator_reads.specs.Errors.{KeepsPart, KeepsField, lacked_attribute, lacked_tag, lacked_field, first_five};

use crate::knowledge::Left;
use cedar_evaluator_errors::EvaluationError;
use cedar_evaluator_errors::evaluation_errors::{
    EntityAttrDoesNotExistError, EntityDoesNotExistError, RecordAttrDoesNotExistError,
};
use cedar_expr_names::{EntityUID, Loc};
use cedar_store_entities::Entity;
use std::alloc::{AllocError, Global};
use std::collections::BTreeMap;
use std::collections::btree_map::Keys;
use std::rc::{Rc, RcStr};

// At most the first five of these names.
fn first_names<T>(alloc: Global, names: Keys<'_, RcStr, T>) -> Result<Vec<RcStr>, AllocError>
    ensures { IfOk result (λ ns. map rc_str_bytes ns.items ≡ first_five (map rc_str_bytes names.entry)) }
{
    let mut first = Vec::with_capacity(alloc, 5)?;
    for name in names {
        if first.len() == 5 {
            return Ok(first);
        }
        first.push(name.clone()?)?;
    }
    Ok(first)
}

/// The refusal of an entity that doesn't exist, at the place of its uid.
pub fn no_such_entity(uid: &Rc<EntityUID>, place: Option<Loc>) -> Result<Left, EvaluationError>
    ensures { Leaves (errs (missing_entity (uid_of uid.now.value))) result }
{
    let uid = uid.clone()?;
    let source_loc = place;
    Err(EvaluationError::EntityDoesNotExist(EntityDoesNotExistError { uid, source_loc }))
}

/// The refusal of an attribute that is missing in the entity.
pub fn no_such_attribute(
    alloc: Global,
    uid: &Rc<EntityUID>,
    entity: &Entity,
    attr: &RcStr,
) -> Result<Left, EvaluationError>
    ensures left { Leaves (errs missing_attribute_or_tag) result }
    ensures kept { IfErr result (KeepsPart (lacked_attribute (uid_of uid.now.value) (rc_str_bytes attr.now) (entity_seen entity.now))) }
{
    let error = EntityAttrDoesNotExistError {
        entity: uid.clone()?,
        attr_or_tag: attr.clone()?,
        was_attr: true,
        exists_the_other_kind: entity.get_tag(attr.as_str()).is_some(),
        available_attrs_or_tags: first_names(alloc, entity.keys())?,
        total_attrs_or_tags: entity.attrs_len(),
        source_loc: None,
    };
    Err(EvaluationError::EntityAttrDoesNotExist(error))
}

/// The refusal of a tag that is missing in the entity.
pub fn no_such_tag(
    alloc: Global,
    uid: &Rc<EntityUID>,
    entity: &Entity,
    tag: &RcStr,
) -> Result<Left, EvaluationError>
    ensures left { Leaves (errs missing_attribute_or_tag) result }
    ensures kept { IfErr result (KeepsPart (lacked_tag (uid_of uid.now.value) (rc_str_bytes tag.now) (entity_seen entity.now))) }
{
    let error = EntityAttrDoesNotExistError {
        entity: uid.clone()?,
        attr_or_tag: tag.clone()?,
        was_attr: false,
        exists_the_other_kind: entity.get(tag.as_str()).is_some(),
        available_attrs_or_tags: first_names(alloc, entity.tag_keys())?,
        total_attrs_or_tags: entity.tags_len(),
        source_loc: None,
    };
    Err(EvaluationError::EntityAttrDoesNotExist(error))
}

/// The refusal of a field that is missing in the record.
pub fn no_such_field<T>(
    alloc: Global,
    fields: &BTreeMap<RcStr, T>,
    attr: &RcStr,
) -> Result<Left, EvaluationError>
    ensures left { Leaves (errs missing_field) result }
    ensures kept { IfErr result (KeepsField (lacked_field (rc_str_bytes attr.now) (map rc_str_bytes (keys_of fields.now.entries)))) }
{
    let attr = attr.clone()?;
    let available_attrs = first_names(alloc, fields.keys())?;
    let total_attrs = fields.len();
    let source_loc = None;
    let error = RecordAttrDoesNotExistError {
        attr,
        available_attrs,
        total_attrs,
        source_loc,
    };
    Err(EvaluationError::RecordAttrDoesNotExist(error))
}

//! From declarations as they are written to full names, and to names that may stand for one of several.

ghost use Rattle.std.specs.Prelude.{◌≡◌, false, map, option_map, IfOk, IfErr};
ghost use Rattle.std.specs.Rc.{rc_str_bytes};
ghost use Rattle.std.specs.declared.result.Result.TheVariants.{Ok};
ghost use Rattle.cedar_expr_names.specs.Namespaces.{space_of};
ghost use Rattle.cedar_expr_names.specs.Views.{id_text, name_of, name_loc, type_name_of};
ghost use Rattle.cedar_expr_leaves.specs.Views.{raw_name_of};
ghost use Rattle.cedar_schema_model.specs.Reference.{action_word, to_entity};
ghost use Rattle.cedar_schema_decl.specs.Conditional.{conditional_of, conditional_in};
ghost use Rattle.cedar_schema_decl.specs.Definitions.{common_form, commons_form, standard_written, entity_form, entities_form};
ghost use Rattle.cedar_schema_decl.specs.Forms.{record_form, no_field_forms};
ghost use Rattle.cedar_schema_decl.specs.Trees.{type_form};
ghost use Rattle.cedar_schema_fragments.specs.Actions.{parent_form, principals_form, resources_form, context_form, is_elsewhere, action_form, actions_form, under_uid};
ghost use Rattle.cedar_schema_fragments.specs.Qualified.{type_with, entity_with, parent_with, action_with, full_name, common_named, common_qualified, entity_qualified, action_typed, actions_qualified};
ghost use Rattle.cedar_schema_fragments.specs.Refusals.{Refuses};
ghost use Rattle.cedar_schema_fragments.specs.Resolved.{unreserved};
ghost use Rattle.cedar_schema_fragments.specs.Written.{kind_form, principals_written, resources_written, context_written, is_written_elsewhere, action_type_form, commons_known, commons_written, entities_written, action_written, actions_written};

use crate::actions::{ActionFragment, ActionFragmentKind, ActionsDef, ValidatorApplySpec};
use crate::err::FragmentError;
use cedar_expr_leaves::{ConditionalName, NonEmpty, RawName, ReferenceType};
use cedar_expr_names::{Eid, EntityType, EntityUID, Id, InternalName, Loc, Name, NameError};
use cedar_schema_decl::definitions::requalify_standard;
use cedar_schema_decl::json_schema::{
    ActionEntityUID, ActionType, ActionTypeKind, ApplySpec, CommonType,
    EntityType as WrittenEntityType, EntityTypeKind, RecordType, Type, TypeVariant,
};
use cedar_schema_decl::qualify::Within;
use cedar_schema_decl::requalify::{requalify_names, requalify_type};
use cedar_schema_decl::{CommonTypeDefs, EntityTypeFragment, EntityTypesDef};
use std::alloc::{AllocError, Global};
use std::collections::BTreeMap;
use std::rc::RcStr;

// The name of what is declared in a namespace, or in the empty one, under this word, at a place. Fails only when out of memory.
pub(crate) fn full_name(
    alloc: Global,
    namespace: Option<&InternalName>,
    word: Id,
    loc: Option<Loc>,
) -> Result<InternalName, AllocError>
    ensures name { IfOk result (λ n. name_of n ≡ full_name (space_of namespace.entry) (id_text word)) }
    ensures place { IfOk result (λ n. name_loc n ≡ loc) }
{
    match namespace {
        None => InternalName::new(alloc, word, Vec::new(alloc), loc),
        Some(space) => InternalName::type_in_namespace(alloc, word, space.clone()?, loc),
    }
}

// A copy of the name of a namespace, if it has one.
pub(crate) fn copied_space(space: &Option<InternalName>) -> Result<Option<InternalName>, AllocError>
    ensures { IfOk result (λ r. option_map name_of r ≡ option_map name_of space.now) }
{
    match space {
        None => Ok(None),
        Some(name) => Ok(Some(name.clone()?)),
    }
}

// The last name of the type of every action. Fails only when out of memory.
fn action_word(alloc: Global) -> Result<Id, AllocError>
    ensures { IfOk result (λ i. id_text i ≡ action_word) }
{
    match Id::from_normalized_str(alloc, "Action") {
        Ok(word) => Ok(word),
        Err(NameError::OutOfMemory) => Err(AllocError),
        Err(NameError::NotNormalized | NameError::Reserved(_)) => unreachable!(),
    }
}

// The type of the actions of a namespace. Refuses a reserved one.
fn action_type(alloc: Global, namespace: Option<&InternalName>) -> Result<EntityType, FragmentError>
    ensures made { IfOk result (λ t. unreserved (full_name (space_of namespace.entry) action_word) ≡ Ok (type_name_of t)) }
    ensures refused { IfErr result (Refuses (unreserved (full_name (space_of namespace.entry) action_word))) }
{
    let name = full_name(alloc, namespace, action_word(alloc)?, None)?;
    match Name::try_from_internal(name) {
        Ok(name) => Ok(EntityType::from_name(name)),
        Err(reserved) => Err(FragmentError::ReservedName(reserved)),
    }
}

// The names with what each may stand for, where entity types are due.
#[tactic(auto, using(crate::proofs::Qualifying::names_are))]
fn names_in(
    alloc: Global,
    names: &[RawName],
    namespace: Option<&InternalName>,
) -> Result<Vec<ConditionalName>, AllocError>
    ensures { IfOk result (λ r. map conditional_of r.items ≡ map (conditional_in (space_of namespace.entry) to_entity) (map raw_name_of names.now)) }
{
    requalify_names(alloc, names, ReferenceType::Entity, &Within(namespace))
}

// The type with what each name may stand for.
#[tactic(auto, using(crate::proofs::Qualifying::type_is))]
fn type_in(
    alloc: Global,
    ty: &Type<RawName>,
    namespace: Option<&InternalName>,
) -> Result<Type<ConditionalName>, AllocError>
    ensures { IfOk result (λ r. type_form conditional_of r ≡ type_with (conditional_in (space_of namespace.entry)) (type_form raw_name_of ty.now)) }
{
    requalify_type(alloc, ty, &Within(namespace))
}

// A copy of ids, of which there is one at least.
#[tactic(auto, using(crate::proofs::Qualifying::texts_copied))]
fn copied_ids(ids: &NonEmpty<RcStr>) -> Result<NonEmpty<RcStr>, AllocError>
    ensures head { IfOk result (λ r. rc_str_bytes r.head ≡ rc_str_bytes ids.now.head) }
    ensures tail { IfOk result (λ r. map rc_str_bytes r.tail.items ≡ map rc_str_bytes ids.now.tail.items) }
{
    let head = ids.head.clone()?;
    let tail = ids.tail.clone()?;
    Ok(NonEmpty { head, tail })
}

// The standard entity type of these parents, attributes and tags, with what each name may stand for.
fn standard_in(
    alloc: Global,
    parents: &[RawName],
    attributes: &RecordType<RawName>,
    tags: &Option<Type<RawName>>,
    namespace: Option<&InternalName>,
) -> Result<EntityTypeFragment<ConditionalName>, AllocError>
    ensures { IfOk result (λ r. entity_form conditional_of r ≡ entity_with (conditional_in (space_of namespace.entry)) (standard_written raw_name_of parents.now attributes.now tags.now)) }
{
    requalify_standard(alloc, parents, attributes, tags, &Within(namespace))
}

// What is declared of an entity type, with what each name may stand for.
fn kind_in(
    alloc: Global,
    kind: &EntityTypeKind<RawName>,
    namespace: Option<&InternalName>,
) -> Result<EntityTypeFragment<ConditionalName>, AllocError>
    ensures { IfOk result (λ r. entity_form conditional_of r ≡ entity_with (conditional_in (space_of namespace.entry)) (kind_form raw_name_of kind.now)) }
{
    match kind {
        EntityTypeKind::Standard {
            member_of_types,
            shape,
            tags,
        } => standard_in(alloc, member_of_types.as_slice(), shape, tags, namespace),
        EntityTypeKind::Enum { choices } => Ok(EntityTypeFragment::Enum(copied_ids(choices)?)),
        EntityTypeKind::External { member_of_types } => {
            let parents = names_in(alloc, member_of_types.as_slice(), namespace)?;
            Ok(EntityTypeFragment::External { parents })
        }
    }
}

// The common type under its full name, with what each name may stand for.
fn common_in(
    alloc: Global,
    word: &Id,
    common: &CommonType<RawName>,
    namespace: Option<&InternalName>,
) -> Result<(InternalName, CommonType<ConditionalName>), AllocError>
    ensures { IfOk result (λ r. (name_of r.0, common_form conditional_of r.1) ≡ common_qualified (space_of namespace.entry) (id_text word.now, common_form raw_name_of common.now)) }
{
    let name = full_name(alloc, namespace, word.clone()?, common.loc)?;
    let ty = type_in(alloc, &common.ty, namespace)?;
    let loc = common.loc;
    Ok((name, CommonType { ty, loc }))
}

// The entity type under its full name, with what each name may stand for.
fn entity_in(
    alloc: Global,
    word: &Id,
    entity: &WrittenEntityType<RawName>,
    namespace: Option<&InternalName>,
) -> Result<(InternalName, EntityTypeFragment<ConditionalName>), AllocError>
    ensures { IfOk result (λ r. (name_of r.0, entity_form conditional_of r.1) ≡ entity_qualified (space_of namespace.entry) (id_text word.now, kind_form raw_name_of entity.now.kind)) }
{
    let name = full_name(alloc, namespace, word.clone()?, entity.loc)?;
    let entity = kind_in(alloc, &entity.kind, namespace)?;
    Ok((name, entity))
}

// The parent of an action with what it may stand for.
fn parent_in(
    alloc: Global,
    parent: &ActionEntityUID<RawName>,
    namespace: Option<&InternalName>,
) -> Result<ActionEntityUID<ConditionalName>, AllocError>
    ensures { IfOk result (λ r. parent_form conditional_of r ≡ parent_with (conditional_in (space_of namespace.entry)) (parent_form raw_name_of parent.now)) }
{
    let ty = parent.ty.clone()?;
    let ty = ty.conditionally_qualify_with(alloc, namespace, ReferenceType::Entity)?;
    let id = parent.id.clone()?;
    Ok(ActionEntityUID { ty, id })
}

// The parents with what each may stand for.
fn parents_in(
    alloc: Global,
    parents: &[ActionEntityUID<RawName>],
    namespace: Option<&InternalName>,
) -> Result<Vec<ActionEntityUID<ConditionalName>>, AllocError>
    ensures { IfOk result (λ r. map (parent_form conditional_of) r.items ≡ map (parent_with (conditional_in (space_of namespace.entry))) (map (parent_form raw_name_of) parents.now)) }
{
    let mut made = Vec::with_capacity(alloc, parents.len())?;
    for parent in parents {
        made.push(parent_in(alloc, parent, namespace)?)?;
    }
    Ok(made)
}

// The type of the record without attributes.
fn empty_record(alloc: Global) -> Type<ConditionalName>
    ensures { type_form conditional_of result ≡ record_form no_field_forms }
{
    let attributes = BTreeMap::new(alloc);
    Type {
        ty: TypeVariant::Record(RecordType { attributes }),
        loc: None,
    }
}

// What an action applies to, and its context, with what each name may stand for.
fn applied_in(
    alloc: Global,
    spec: &ApplySpec<RawName>,
    namespace: Option<&InternalName>,
) -> Result<ActionFragmentKind<ConditionalName, ConditionalName>, AllocError>
    ensures principals { IfOk result (λ r. principals_form conditional_of r ≡ map (conditional_in (space_of namespace.entry) to_entity) (map raw_name_of spec.now.principal_types.items)) }
    ensures resources { IfOk result (λ r. resources_form conditional_of r ≡ map (conditional_in (space_of namespace.entry) to_entity) (map raw_name_of spec.now.resource_types.items)) }
    ensures context { IfOk result (λ r. context_form conditional_of r ≡ type_with (conditional_in (space_of namespace.entry)) (type_form raw_name_of spec.now.context)) }
    ensures elsewhere { IfOk result (λ r. is_elsewhere r ≡ false) }
{
    let principals = names_in(alloc, spec.principal_types.as_slice(), namespace)?;
    let resources = names_in(alloc, spec.resource_types.as_slice(), namespace)?;
    let context = type_in(alloc, &spec.context, namespace)?;
    Ok(ActionFragmentKind::Declared {
        applies_to: ValidatorApplySpec::new(principals, resources),
        context,
    })
}

// What is declared of an action, with what each name may stand for. Where it isn't written what the action applies to, it applies to
// nothing, and its context is the empty record.
fn action_kind_in(
    alloc: Global,
    kind: &ActionTypeKind<RawName>,
    namespace: Option<&InternalName>,
) -> Result<ActionFragmentKind<ConditionalName, ConditionalName>, AllocError>
    ensures principals { IfOk result (λ r. principals_form conditional_of r ≡ map (conditional_in (space_of namespace.entry) to_entity) (principals_written raw_name_of kind.now)) }
    ensures resources { IfOk result (λ r. resources_form conditional_of r ≡ map (conditional_in (space_of namespace.entry) to_entity) (resources_written raw_name_of kind.now)) }
    ensures context { IfOk result (λ r. context_form conditional_of r ≡ type_with (conditional_in (space_of namespace.entry)) (context_written raw_name_of kind.now)) }
    ensures elsewhere { IfOk result (λ r. is_elsewhere r ≡ is_written_elsewhere kind.now) }
{
    match kind {
        ActionTypeKind::Declared {
            applies_to: Some(spec),
        } => applied_in(alloc, spec, namespace),
        ActionTypeKind::Declared { applies_to: None } => Ok(ActionFragmentKind::Declared {
            applies_to: ValidatorApplySpec::new(Vec::new(alloc), Vec::new(alloc)),
            context: empty_record(alloc),
        }),
        ActionTypeKind::External => Ok(ActionFragmentKind::External),
    }
}

// The action with what each name may stand for.
fn action_in(
    alloc: Global,
    action: &ActionType<RawName>,
    namespace: Option<&InternalName>,
) -> Result<ActionFragment<ConditionalName, ConditionalName>, AllocError>
    ensures { IfOk result (λ r. action_form conditional_of conditional_of r ≡ action_with (conditional_in (space_of namespace.entry)) (action_type_form raw_name_of action.now)) }
{
    let parents = parents_in(alloc, action.member_of.as_slice(), namespace)?;
    let kind = action_kind_in(alloc, &action.kind, namespace)?;
    Ok(ActionFragment { parents, kind })
}

// The action of this type and id, with what each name may stand for.
fn action_of_type(
    alloc: Global,
    id: &RcStr,
    action: &ActionType<RawName>,
    namespace: Option<&InternalName>,
    ty: &EntityType,
) -> Result<(EntityUID, ActionFragment<ConditionalName, ConditionalName>), AllocError>
    ensures { IfOk result (λ r. under_uid conditional_of conditional_of r ≡ action_typed (space_of namespace.entry) (type_name_of ty.now) (action_written id.now action.now)) }
{
    let uid = EntityUID::from_components(ty.clone()?, Eid::new(id.clone()?), action.loc);
    let action = action_in(alloc, action, namespace)?;
    Ok((uid, action))
}

// The common types that are written in a namespace, or in the empty one, under their full names, with what each name may stand
// for. Fails only when out of memory.
pub(crate) fn commons_in(
    alloc: Global,
    commons: &BTreeMap<Id, CommonType<RawName>>,
    namespace: Option<&InternalName>,
) -> Result<CommonTypeDefs<ConditionalName>, AllocError>
    ensures { IfOk result (λ r. commons_form conditional_of r ≡ map (common_qualified (space_of namespace.entry)) (commons_written commons.now.entries)) }
{
    let mut defs = Vec::with_capacity(alloc, commons.len())?;
    for (word, common) in commons.iter() {
        defs.push(common_in(alloc, word, common, namespace)?)?;
    }
    Ok(CommonTypeDefs { defs })
}

// The common types under their full names.
pub(crate) fn named_commons(
    alloc: Global,
    commons: BTreeMap<Id, CommonType<ConditionalName>>,
    namespace: Option<&InternalName>,
) -> Result<CommonTypeDefs<ConditionalName>, AllocError>
    ensures { IfOk result (λ r. commons_form conditional_of r ≡ map (common_named (space_of namespace.entry)) (commons_known commons.entries)) }
{
    let mut defs = Vec::with_capacity(alloc, commons.len())?;
    for (word, common) in commons {
        let name = full_name(alloc, namespace, word, common.loc)?;
        defs.push((name, common))?;
    }
    Ok(CommonTypeDefs { defs })
}

// The entity types that are written in a namespace, or in the empty one, under their full names, with what each name may stand
// for. Fails only when out of memory.
pub(crate) fn entities_in(
    alloc: Global,
    entities: &BTreeMap<Id, WrittenEntityType<RawName>>,
    namespace: Option<&InternalName>,
) -> Result<EntityTypesDef<ConditionalName>, AllocError>
    ensures { IfOk result (λ r. entities_form conditional_of r ≡ map (entity_qualified (space_of namespace.entry)) (entities_written entities.now.entries)) }
{
    let mut defs = Vec::with_capacity(alloc, entities.len())?;
    for (word, entity) in entities.iter() {
        defs.push(entity_in(alloc, word, entity, namespace)?)?;
    }
    Ok(EntityTypesDef { defs })
}

// The actions of this type.
fn actions_of_type(
    alloc: Global,
    actions: &BTreeMap<RcStr, ActionType<RawName>>,
    namespace: Option<&InternalName>,
    ty: &EntityType,
) -> Result<ActionsDef<ConditionalName, ConditionalName>, AllocError>
    ensures { IfOk result (λ r. actions_form conditional_of conditional_of r ≡ map (action_typed (space_of namespace.entry) (type_name_of ty.now)) (actions_written actions.now.entries)) }
{
    let mut made = Vec::with_capacity(alloc, actions.len())?;
    for (id, action) in actions.iter() {
        made.push(action_of_type(alloc, id, action, namespace, ty)?)?;
    }
    Ok(ActionsDef { actions: made })
}

// The actions that are written in a namespace, or in the empty one, under their uids, with what each name may stand for. Refuses
// actions of a reserved type, and fails when out of memory.
pub(crate) fn actions_in(
    alloc: Global,
    actions: &BTreeMap<RcStr, ActionType<RawName>>,
    namespace: Option<&InternalName>,
) -> Result<ActionsDef<ConditionalName, ConditionalName>, FragmentError>
    ensures made { IfOk result (λ r. actions_qualified (space_of namespace.entry) (actions_written actions.now.entries) ≡ Ok (actions_form conditional_of conditional_of r)) }
    ensures refused { IfErr result (Refuses (actions_qualified (space_of namespace.entry) (actions_written actions.now.entries))) }
{
    if actions.is_empty() {
        return Ok(ActionsDef::new(alloc));
    }
    let ty = action_type(alloc, namespace)?;
    let actions = actions_of_type(alloc, actions, namespace, &ty)?;
    Ok(actions)
}

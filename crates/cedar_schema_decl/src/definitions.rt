//! Declarations of types under their full names.

ghost use Rattle.std.specs.Prelude.{◌≡◌, [], map, option_map, IfOk, IfErr};
ghost use Rattle.std.specs.declared.result.Result.TheVariants.{Ok};
ghost use Rattle.cedar_expr_names.specs.Views.{name_of};
ghost use Rattle.cedar_schema_decl.specs.Conditional.{conditional_of};
ghost use Rattle.cedar_schema_decl.specs.Defined.{defined_of, resolving};
ghost use Rattle.cedar_schema_decl.specs.Definitions.{common_form, commons_form, standard_written, entity_form, entities_form};
ghost use Rattle.cedar_schema_decl.specs.Refusals.{RefusesBy, Refuses};
ghost use Rattle.cedar_schema_decl.specs.Requalified.{requalified, requalified_entity, under_name, where_there, each};
ghost use Rattle.cedar_schema_decl.specs.Trees.{type_form};

use crate::all_defs::AllDefs;
use crate::err::TypeNotDefinedError;
use crate::json_schema::{CommonType, RecordType, Type};
use crate::requalify::{Requalify, append, requalify_names, requalify_record, requalify_type};
use cedar_expr_leaves::{ConditionalName, NonEmpty, ReferenceType};
use cedar_expr_names::InternalName;
use std::alloc::{AllocError, Global};
use std::rc::RcStr;

/// Common types under their full names.
#[derive(Drop)]
pub struct CommonTypeDefs<N> {
    /// Each with its name.
    pub defs: Vec<(InternalName, CommonType<N>)>,
}

/// Entity types under their full names.
#[derive(Drop)]
pub struct EntityTypesDef<N> {
    /// Each with its name.
    pub defs: Vec<(InternalName, EntityTypeFragment<N>)>,
}

/// What is declared of an entity type.
#[derive(Drop)]
pub enum EntityTypeFragment<N> {
    /// Its entities have these attributes, parents and tags.
    Standard {
        /// The attributes.
        attributes: RecordType<N>,
        /// The types that its entities may be in.
        parents: Vec<N>,
        /// The type of tags, where it has tags.
        tags: Option<Type<N>>,
    },
    /// Its entities have these ids.
    Enum(NonEmpty<RcStr>),
    /// It is declared elsewhere.
    External {
        /// The types that its entities may be in.
        parents: Vec<N>,
    },
}

// The common type with other names in the place of its own.
fn requalify_common<R: Requalify>(
    alloc: Global,
    common: CommonType<R::From>,
    names: &R,
) -> Result<CommonType<R::To>, R::Fault>
    ensures made { IfOk result (λ r. requalified (R.renames names.now) (common_form R.before common) ≡ Ok (common_form R.after r)) }
    ensures refused { IfErr result (RefusesBy R.tells (requalified (R.renames names.now) (common_form R.before common))) }
{
    let ty = requalify_type(alloc, &common.ty, names)?;
    Ok(CommonType {
        ty,
        loc: common.loc,
    })
}

/// The common types with other names in the place of those that they refer to. Refuses the first name in the place of which there
/// is none, and fails when out of memory.
pub fn requalify_commons<R: Requalify>(
    alloc: Global,
    commons: CommonTypeDefs<R::From>,
    names: &R,
) -> Result<CommonTypeDefs<R::To>, R::Fault>
    ensures made { IfOk result (λ r. each (under_name (requalified (R.renames names.now))) (commons_form R.before commons) ≡ Ok (commons_form R.after r)) }
    ensures refused { IfErr result (RefusesBy R.tells (each (under_name (requalified (R.renames names.now))) (commons_form R.before commons))) }
{
    let mut defs = Vec::with_capacity(alloc, commons.defs.len())?;
    for (name, common) in commons.defs {
        append(&mut defs, (name, requalify_common(alloc, common, names)?))?;
    }
    Ok(CommonTypeDefs { defs })
}

// The type, where there is one, with other names in the place of its own.
fn requalify_optional<R: Requalify>(
    alloc: Global,
    ty: &Option<Type<R::From>>,
    names: &R,
) -> Result<Option<Type<R::To>>, R::Fault>
    ensures made { IfOk result (λ r. where_there (requalified (R.renames names.now)) (option_map (type_form R.before) ty.now) ≡ Ok (option_map (type_form R.after) r)) }
    ensures refused { IfErr result (RefusesBy R.tells (where_there (requalified (R.renames names.now)) (option_map (type_form R.before) ty.now))) }
{
    match ty {
        None => Ok(None),
        Some(ty) => {
            let ty = requalify_type(alloc, ty, names)?;
            Ok(Some(ty))
        }
    }
}

/// A standard entity type of these parents, attributes and tags, with other names in the place of those that it refers to. Refuses
/// the first name in the place of which there is none, parents before attributes and these before tags, and fails when out of
/// memory.
pub fn requalify_standard<R: Requalify>(
    alloc: Global,
    parents: &[R::From],
    attributes: &RecordType<R::From>,
    tags: &Option<Type<R::From>>,
    names: &R,
) -> Result<EntityTypeFragment<R::To>, R::Fault>
    ensures made { IfOk result (λ r. requalified_entity (R.renames names.now) (standard_written R.before parents.now attributes.now tags.now) ≡ Ok (entity_form R.after r)) }
    ensures refused { IfErr result (RefusesBy R.tells (requalified_entity (R.renames names.now) (standard_written R.before parents.now attributes.now tags.now))) }
{
    let parents = requalify_names(alloc, parents, ReferenceType::Entity, names)?;
    let attributes = requalify_record(alloc, attributes, names)?;
    let tags = requalify_optional(alloc, tags, names)?;
    Ok(EntityTypeFragment::Standard {
        attributes,
        parents,
        tags,
    })
}

// The entity type with other names in the place of those that it refers to. Refuses the first name in the place of which there
// is none, parents before attributes and these before tags, and fails when out of memory.
fn requalify_entity<R: Requalify>(
    alloc: Global,
    entity: EntityTypeFragment<R::From>,
    names: &R,
) -> Result<EntityTypeFragment<R::To>, R::Fault>
    ensures made { IfOk result (λ r. requalified_entity (R.renames names.now) (entity_form R.before entity) ≡ Ok (entity_form R.after r)) }
    ensures refused { IfErr result (RefusesBy R.tells (requalified_entity (R.renames names.now) (entity_form R.before entity))) }
{
    match entity {
        EntityTypeFragment::Standard {
            attributes,
            parents,
            tags,
        } => requalify_standard(alloc, parents.as_slice(), &attributes, &tags, names),
        EntityTypeFragment::Enum(choices) => Ok(EntityTypeFragment::Enum(choices)),
        EntityTypeFragment::External { parents } => {
            let names = requalify_names(alloc, parents.as_slice(), ReferenceType::Entity, names)?;
            Ok(EntityTypeFragment::External { parents: names })
        }
    }
}

/// The entity types with other names in the place of those that they refer to. Refuses the first name in the place of which there
/// is none, and fails when out of memory.
pub fn requalify_entities<R: Requalify>(
    alloc: Global,
    entities: EntityTypesDef<R::From>,
    names: &R,
) -> Result<EntityTypesDef<R::To>, R::Fault>
    ensures made { IfOk result (λ r. each (under_name (requalified_entity (R.renames names.now))) (entities_form R.before entities) ≡ Ok (entities_form R.after r)) }
    ensures refused { IfErr result (RefusesBy R.tells (each (under_name (requalified_entity (R.renames names.now))) (entities_form R.before entities))) }
{
    let mut defs = Vec::with_capacity(alloc, entities.defs.len())?;
    for (name, entity) in entities.defs {
        append(&mut defs, (name, requalify_entity(alloc, entity, names)?))?;
    }
    Ok(EntityTypesDef { defs })
}

impl<N> EntityTypesDef<N> {
    /// No entity types.
    pub fn new(alloc: Global) -> EntityTypesDef<N>
        ensures { result.defs.items ≡ [] }
    {
        EntityTypesDef {
            defs: Vec::new(alloc),
        }
    }
}

impl CommonTypeDefs<ConditionalName> {
    /// The common types with each name that they refer to replaced by that of the type that it means. Refuses the first name that
    /// means none, and fails when out of memory.
    pub fn fully_qualify_type_references(
        self,
        alloc: Global,
        all_defs: &AllDefs,
    ) -> Result<CommonTypeDefs<InternalName>, TypeNotDefinedError>
        ensures resolved { IfOk result (λ r. each (under_name (requalified (resolving (defined_of all_defs.now)))) (commons_form conditional_of self) ≡ Ok (commons_form name_of r)) }
        ensures refused { IfErr result (Refuses (each (under_name (requalified (resolving (defined_of all_defs.now)))) (commons_form conditional_of self))) }
    {
        requalify_commons(alloc, self, all_defs)
    }
}

impl EntityTypeFragment<ConditionalName> {
    /// The entity type with each name that it refers to replaced by that of the type that it means. Refuses the first name that
    /// means none, parents before attributes and these before tags, and fails when out of memory.
    pub fn fully_qualify_type_references(
        self,
        alloc: Global,
        all_defs: &AllDefs,
    ) -> Result<EntityTypeFragment<InternalName>, TypeNotDefinedError>
        ensures resolved { IfOk result (λ r. requalified_entity (resolving (defined_of all_defs.now)) (entity_form conditional_of self) ≡ Ok (entity_form name_of r)) }
        ensures refused { IfErr result (Refuses (requalified_entity (resolving (defined_of all_defs.now)) (entity_form conditional_of self))) }
    {
        requalify_entity(alloc, self, all_defs)
    }
}

impl EntityTypesDef<ConditionalName> {
    /// The entity types with each name that they refer to replaced by that of the type that it means. Refuses the first name that
    /// means none, and fails when out of memory.
    pub fn fully_qualify_type_references(
        self,
        alloc: Global,
        all_defs: &AllDefs,
    ) -> Result<EntityTypesDef<InternalName>, TypeNotDefinedError>
        ensures resolved { IfOk result (λ r. each (under_name (requalified_entity (resolving (defined_of all_defs.now)))) (entities_form conditional_of self) ≡ Ok (entities_form name_of r)) }
        ensures refused { IfErr result (Refuses (each (under_name (requalified_entity (resolving (defined_of all_defs.now)))) (entities_form conditional_of self))) }
    {
        requalify_entities(alloc, self, all_defs)
    }
}

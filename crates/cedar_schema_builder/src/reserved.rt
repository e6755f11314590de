//! Reserved names that fragments write.

ghost use Rattle.std.specs.Prelude.{◌≡◌, [], ◌∷◌, map, find, IfOk, IfErr};
ghost use Rattle.std.specs.List.{flat_map};
ghost use Rattle.std.specs.declared.result.Result.TheVariants.{Ok};
ghost use Rattle.cedar_expr_model.specs.Name.{is_reserved};
ghost use Rattle.cedar_expr_names.specs.Views.{name_of};
ghost use Rattle.cedar_expr_leaves.specs.Views.{written_name};
ghost use Rattle.cedar_schema_decl.specs.Conditional.{conditional_of};
ghost use Rattle.cedar_schema_decl.specs.Definitions.{common_form, commons_form, entity_form, entities_form, standard_written};
ghost use Rattle.cedar_schema_decl.specs.Trees.{type_form, variant_form, record_fields, attribute_form};
ghost use Rattle.cedar_schema_fragments.specs.Actions.{parent_form, action_form, under_uid, actions_form};
ghost use Rattle.cedar_schema_fragments.specs.Namespaces.{namespace_form, fragment_form};
ghost use Rattle.cedar_schema_fragments.specs.Refusals.{Refuses};
ghost use Rattle.cedar_schema_builder.specs.Checked.{reserved_checked};
ghost use Rattle.cedar_schema_builder.specs.Looking.{name_found};
ghost use Rattle.cedar_schema_builder.specs.WrittenNames.{as_written, parents_as_written, names_in_type, names_in_fields, names_in_common, names_in_entity, names_in_kind, names_in_action_kind, names_in_action, names_of_action, names_in_namespace, names_in};

use crate::looking::{Look, first_among};
use cedar_expr_leaves::ConditionalName;
use cedar_expr_names::{EntityUID, InternalName, ReservedNameError};
use cedar_schema_decl::json_schema::{
    ActionEntityUID, CommonType, RecordType, Type, TypeOfAttribute, TypeVariant,
};
use cedar_schema_decl::{CommonTypeDefs, EntityTypeFragment, EntityTypesDef};
use cedar_schema_fragments::{
    ActionFragment, ActionFragmentKind, ActionsDef, FragmentError, ValidatorNamespaceDef,
    ValidatorSchemaFragment,
};

// Reserved ones among names.
#[derive(Drop)]
struct Names;

// Among the types of parents of actions.
#[derive(Drop)]
struct Parents;

// Among what common types write.
#[derive(Drop)]
struct Commons;

// Among what entity types write.
#[derive(Drop)]
struct Entities;

// Among what actions write.
#[derive(Drop)]
struct Actions;

// Among what namespaces write.
#[derive(Drop)]
struct Namespaces;

// Among what fragments write.
#[derive(Drop)]
struct Fragments;

// The name, if it is reserved.
fn if_reserved(name: &InternalName) -> Option<&InternalName>
    ensures { name_found result ≡ find is_reserved (name_of name.now ∷ []) }
{
    if name.is_reserved() { Some(name) } else { None }
}

// The name as it is written, if it is reserved.
fn if_written_reserved(name: &ConditionalName) -> Option<&InternalName>
    ensures { name_found result ≡ find is_reserved (written_name name.now ∷ []) }
{
    if_reserved(name.raw().as_internal())
}

// The first reserved name that a type writes, if there is one.
#[cycle(reserved)]
fn reserved_in_type(ty: &Type<ConditionalName>) -> Option<&InternalName>
    ensures { name_found result ≡ find is_reserved (names_in_type (type_form conditional_of ty.now)) }
{
    reserved_in_variant(&ty.ty)
}

// The first reserved name in what a type writes, if there is one.
#[cycle(reserved)]
fn reserved_in_variant(ty: &TypeVariant<ConditionalName>) -> Option<&InternalName>
    ensures { name_found result ≡ find is_reserved (names_in_type (variant_form conditional_of ty.now)) }
{
    match ty {
        TypeVariant::String => None,
        TypeVariant::Long => None,
        TypeVariant::Boolean => None,
        TypeVariant::Set { element } => reserved_in_type(element),
        TypeVariant::Record(fields) => reserved_in_record(fields),
        TypeVariant::Entity { name } => if_written_reserved(name),
        TypeVariant::EntityOrCommon { type_name } => if_written_reserved(type_name),
        TypeVariant::CommonTypeRef { type_name } => if_written_reserved(type_name),
        TypeVariant::Extension { name } => if_reserved(name),
    }
}

// The first reserved name that the attributes of a record write, if there is one.
#[cycle(reserved)]
fn reserved_in_record(fields: &RecordType<ConditionalName>) -> Option<&InternalName>
    ensures { name_found result ≡ find is_reserved (names_in_fields (record_fields conditional_of fields.now)) }
{
    for (_, attribute) in fields.attributes.iter() {
        if let Some(name) = reserved_in_attribute(attribute) {
            return Some(name);
        }
    }
    None
}

// The first reserved name that the type of an attribute writes, if there is one.
#[cycle(reserved)]
fn reserved_in_attribute(attribute: &TypeOfAttribute<ConditionalName>) -> Option<&InternalName>
    ensures { name_found result ≡ find is_reserved (names_in_type (attribute_form conditional_of attribute.now).0) }
{
    reserved_in_type(&attribute.ty)
}

impl Look for Names {
    type Part = ConditionalName;

    ghost names = { λ c. written_name c ∷ [] };

    ghost wanted = { is_reserved };

    fn first<'a>(&self, part: &'a ConditionalName) -> Option<&'a InternalName> {
        if_written_reserved(part)
    }
}

impl Look for Parents {
    type Part = ActionEntityUID<ConditionalName>;

    ghost names = { λ p. written_name p.ty ∷ [] };

    ghost wanted = { is_reserved };

    fn first<'a>(&self, part: &'a ActionEntityUID<ConditionalName>) -> Option<&'a InternalName> {
        if_written_reserved(&part.ty)
    }
}

impl Look for Commons {
    type Part = (InternalName, CommonType<ConditionalName>);

    ghost names = { λ e. names_in_common (name_of e.0, common_form conditional_of e.1) };

    ghost wanted = { is_reserved };

    fn first<'a>(
        &self,
        part: &'a (InternalName, CommonType<ConditionalName>),
    ) -> Option<&'a InternalName> {
        if let Some(name) = if_reserved(&part.0) {
            return Some(name);
        }
        reserved_in_type(&part.1.ty)
    }
}

// The first reserved name among these, if there is one.
fn reserved_among(names: &[ConditionalName]) -> Option<&InternalName>
    ensures { name_found result ≡ find is_reserved (as_written (map conditional_of names.now)) }
{
    first_among(names, &Names)
}

// The first reserved name among the types of these parents of actions, if there is one.
fn reserved_among_parents(parents: &[ActionEntityUID<ConditionalName>]) -> Option<&InternalName>
    ensures { name_found result ≡ find is_reserved (parents_as_written (map (parent_form conditional_of) parents.now)) }
{
    first_among(parents, &Parents)
}

// The first reserved name that stands in a standard entity type, if there is one.
#[tactic(auto, using(crate::proofs::Finding::found_before, crate::proofs::Finding::found_after))]
fn reserved_in_standard<'a>(
    parents: &'a [ConditionalName],
    attributes: &'a RecordType<ConditionalName>,
    tags: &'a Option<Type<ConditionalName>>,
) -> Option<&'a InternalName>
    ensures { name_found result ≡ find is_reserved (names_in_kind (standard_written conditional_of parents.now attributes.now tags.now)) }
{
    if let Some(name) = reserved_among(parents) {
        return Some(name);
    }
    if let Some(name) = reserved_in_record(attributes) {
        return Some(name);
    }
    match tags {
        Some(ty) => reserved_in_type(ty),
        None => None,
    }
}

// The first reserved name that is written of an entity type, if there is one.
fn reserved_in_entity(entity: &EntityTypeFragment<ConditionalName>) -> Option<&InternalName>
    ensures { name_found result ≡ find is_reserved (names_in_kind (entity_form conditional_of entity.now)) }
{
    match entity {
        EntityTypeFragment::Standard {
            attributes,
            parents,
            tags,
        } => reserved_in_standard(parents.as_slice(), attributes, tags),
        EntityTypeFragment::Enum(_) => None,
        EntityTypeFragment::External { parents } => reserved_among(parents.as_slice()),
    }
}

impl Look for Entities {
    type Part = (InternalName, EntityTypeFragment<ConditionalName>);

    ghost names = { λ e. names_in_entity (name_of e.0, entity_form conditional_of e.1) };

    ghost wanted = { is_reserved };

    fn first<'a>(
        &self,
        part: &'a (InternalName, EntityTypeFragment<ConditionalName>),
    ) -> Option<&'a InternalName> {
        if let Some(name) = if_reserved(&part.0) {
            return Some(name);
        }
        reserved_in_entity(&part.1)
    }
}

// The first reserved name that stands in what an action applies to or in its context, if there is one.
#[tactic(auto, using(crate::proofs::Finding::found_before, crate::proofs::Finding::found_after))]
fn reserved_in_action_kind(
    kind: &ActionFragmentKind<ConditionalName, ConditionalName>,
) -> Option<&InternalName>
    ensures { name_found result ≡ find is_reserved (names_in_action_kind kind.now) }
{
    match kind {
        ActionFragmentKind::Declared {
            applies_to,
            context,
        } => {
            if let Some(name) = reserved_among(applies_to.principal_apply_spec.as_slice()) {
                return Some(name);
            }
            if let Some(name) = reserved_among(applies_to.resource_apply_spec.as_slice()) {
                return Some(name);
            }
            reserved_in_type(context)
        }
        ActionFragmentKind::External => None,
    }
}

// The first reserved name that is written of an action, if there is one.
#[tactic(auto, using(crate::proofs::Finding::found_before, crate::proofs::Finding::found_after))]
fn reserved_in_action(
    action: &ActionFragment<ConditionalName, ConditionalName>,
) -> Option<&InternalName>
    ensures { name_found result ≡ find is_reserved (names_of_action (action_form conditional_of conditional_of action.now)) }
{
    if let Some(name) = reserved_among_parents(action.parents.as_slice()) {
        return Some(name);
    }
    reserved_in_action_kind(&action.kind)
}

impl Look for Actions {
    type Part = (EntityUID, ActionFragment<ConditionalName, ConditionalName>);

    ghost names = { λ e. names_in_action (under_uid conditional_of conditional_of e) };

    ghost wanted = { is_reserved };

    fn first<'a>(
        &self,
        part: &'a (EntityUID, ActionFragment<ConditionalName, ConditionalName>),
    ) -> Option<&'a InternalName> {
        if let Some(name) = if_reserved(part.0.entity_type().name().as_internal()) {
            return Some(name);
        }
        reserved_in_action(&part.1)
    }
}

// The first reserved name that these common types write, if there is one.
fn reserved_in_commons(commons: &CommonTypeDefs<ConditionalName>) -> Option<&InternalName>
    ensures { name_found result ≡ find is_reserved (flat_map names_in_common (commons_form conditional_of commons.now)) }
{
    first_among(commons.defs.as_slice(), &Commons)
}

// The first reserved name that these entity types write, if there is one.
fn reserved_in_entities(entities: &EntityTypesDef<ConditionalName>) -> Option<&InternalName>
    ensures { name_found result ≡ find is_reserved (flat_map names_in_entity (entities_form conditional_of entities.now)) }
{
    first_among(entities.defs.as_slice(), &Entities)
}

// The first reserved name that these actions write, if there is one.
fn reserved_in_actions(
    actions: &ActionsDef<ConditionalName, ConditionalName>,
) -> Option<&InternalName>
    ensures { name_found result ≡ find is_reserved (flat_map names_in_action (actions_form conditional_of conditional_of actions.now)) }
{
    first_among(actions.actions.as_slice(), &Actions)
}

impl Look for Namespaces {
    type Part = ValidatorNamespaceDef<ConditionalName, ConditionalName>;

    ghost names = { λ n. names_in_namespace (namespace_form conditional_of conditional_of n) };

    ghost wanted = { is_reserved };

    #[tactic(auto, using(crate::proofs::Finding::found_before, crate::proofs::Finding::found_after))]
    fn first<'a>(
        &self,
        part: &'a ValidatorNamespaceDef<ConditionalName, ConditionalName>,
    ) -> Option<&'a InternalName> {
        if let Some(name) = reserved_in_commons(&part.common_types) {
            return Some(name);
        }
        if let Some(name) = reserved_in_entities(&part.entity_types) {
            return Some(name);
        }
        reserved_in_actions(&part.actions)
    }
}

impl Look for Fragments {
    type Part = ValidatorSchemaFragment<ConditionalName, ConditionalName>;

    ghost names = { λ f. flat_map names_in_namespace (fragment_form conditional_of conditional_of f) };

    ghost wanted = { is_reserved };

    fn first<'a>(
        &self,
        part: &'a ValidatorSchemaFragment<ConditionalName, ConditionalName>,
    ) -> Option<&'a InternalName> {
        first_among(part.0.as_slice(), &Namespaces)
    }
}

/// The first reserved name that these fragments write, if there is one: of a declaration or in one, as it is written there.
pub fn first_reserved_name(
    fragments: &[ValidatorSchemaFragment<ConditionalName, ConditionalName>],
) -> Option<&InternalName>
    ensures { name_found result ≡ find is_reserved (names_in fragments.now) }
{
    first_among(fragments, &Fragments)
}

/// Checks that these fragments write no reserved name. Refuses the first that is one, and fails when out of memory.
pub fn check_reserved(
    fragments: &[ValidatorSchemaFragment<ConditionalName, ConditionalName>],
) -> Result<(), FragmentError>
    ensures passed { IfOk result (λ r. reserved_checked fragments.now ≡ Ok r) }
    ensures refused { IfErr result (Refuses (reserved_checked fragments.now)) }
{
    match first_reserved_name(fragments) {
        Some(name) => Err(FragmentError::ReservedName(ReservedNameError::new(name.clone()?))),
        None => Ok(()),
    }
}

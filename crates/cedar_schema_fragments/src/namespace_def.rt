//! What is declared in a namespace, and in the namespaces of a fragment, under full names.

ghost use Rattle.std.specs.Prelude.{◌≡◌, map, option_map, IfOk, IfErr};
ghost use Rattle.std.specs.declared.result.Result.TheVariants.{Ok};
ghost use Rattle.cedar_expr_model.specs.Name.{Name, Text};
ghost use Rattle.cedar_expr_names.specs.Namespaces.{space_of};
ghost use Rattle.cedar_expr_names.specs.Views.{id_text, name_of, type_name_of, uid_of};
ghost use Rattle.cedar_schema_decl.specs.Conditional.{Conditional, conditional_of};
ghost use Rattle.cedar_schema_decl.specs.Defined.{defined_of, resolving};
ghost use Rattle.cedar_schema_decl.specs.Definitions.{common_form, commons_form, entities_form};
ghost use Rattle.cedar_schema_decl.specs.Requalified.{requalified, requalified_entity, under_name, each};
ghost use Rattle.cedar_schema_fragments.specs.Iterators.{names_left, spaces_left};
ghost use Rattle.cedar_schema_fragments.specs.Marked.{common_names, entity_names, action_uids};
ghost use Rattle.cedar_schema_fragments.specs.Namespaces.{NamespaceForm, namespace_form, fragment_form};
ghost use Rattle.cedar_schema_fragments.specs.Qualified.{commons_namespace, common_namespace, namespace_qualified};
ghost use Rattle.cedar_schema_fragments.specs.Refusals.{Refuses};
ghost use Rattle.cedar_schema_fragments.specs.Resolved.{of_types, commons_resolved, entities_resolved, namespace_resolved, fragment_resolved};
ghost use Rattle.cedar_schema_fragments.specs.Written.{commons_known, written_namespace, written_fragment};

use crate::actions::{ActionFragment, ActionsDef};
use crate::declared_names::{DeclaredNames, DeclaredNamespaces};
use crate::err::FragmentError;
use crate::naming::{actions_in, commons_in, copied_space, entities_in, full_name, named_commons};
use crate::resolving::{Resolve, resolve_each};
use cedar_expr_leaves::{ConditionalName, RawName};
use cedar_expr_names::{EntityType, EntityUID, Id, InternalName, Loc};
use cedar_schema_decl::json_schema::{CommonType, Fragment, NamespaceDefinition};
use cedar_schema_decl::{AllDefs, CommonTypeDefs, EntityTypeFragment, EntityTypesDef};
use std::alloc::{AllocError, Global};
use std::collections::BTreeMap;

/// What is declared in one namespace, under full names.
#[derive(Drop)]
pub struct ValidatorNamespaceDef<N, A> {
    /// The namespace. Without a name it is the empty one.
    pub namespace: Option<InternalName>,
    /// The common types.
    pub common_types: CommonTypeDefs<N>,
    /// The entity types.
    pub entity_types: EntityTypesDef<N>,
    /// The actions.
    pub actions: ActionsDef<N, A>,
    /// The place of the definition.
    pub loc: Option<Loc>,
}

/// What is declared in each namespace of a fragment, under full names.
#[derive(Drop)]
pub struct ValidatorSchemaFragment<N, A>(
    /// The namespaces.
    pub Vec<ValidatorNamespaceDef<N, A>>,
);

// All that is declared, for namespaces.
#[derive(Drop)]
struct Namespaces<'a>(&'a AllDefs);

impl<N, A> ValidatorNamespaceDef<N, A> {
    /// Goes over the names of all entity types that are declared, in order.
    pub fn all_declared_entity_type_names(
        &self,
    ) -> DeclaredNames<'_, InternalName, EntityTypeFragment<N>>
        ensures { map name_of (names_left result) ≡ entity_names self.now.entity_types }
    {
        DeclaredNames::new(self.entity_types.defs.as_slice())
    }

    /// Goes over the names of all common types that are declared, in order.
    pub fn all_declared_common_type_names(&self) -> DeclaredNames<'_, InternalName, CommonType<N>>
        ensures { map name_of (names_left result) ≡ common_names self.now.common_types }
    {
        DeclaredNames::new(self.common_types.defs.as_slice())
    }

    /// Goes over the uids of all actions that are declared, in order.
    pub fn all_declared_action_names(&self) -> DeclaredNames<'_, EntityUID, ActionFragment<N, A>>
        ensures { map uid_of (names_left result) ≡ action_uids self.now.actions }
    {
        DeclaredNames::new(self.actions.actions.as_slice())
    }

    /// The name of the namespace. The empty one has none.
    pub fn namespace(&self) -> Option<&InternalName>
        ensures { space_of result ≡ option_map name_of self.now.namespace }
    {
        self.namespace.as_ref()
    }
}

impl<N, A> ValidatorSchemaFragment<N, A> {
    /// Goes over the names of the namespaces, in order. The empty one has none.
    pub fn namespaces(&self) -> DeclaredNamespaces<'_, N, A>
        ensures { spaces_left result ≡ map (λ n. option_map name_of n.namespace) self.now.0.items }
    {
        DeclaredNamespaces::new(self.0.as_slice())
    }

    /// The fragment of these namespaces.
    pub fn from_namespaces(
        namespaces: Vec<ValidatorNamespaceDef<N, A>>,
    ) -> ValidatorSchemaFragment<N, A>
        ensures { result.0 ≡ namespaces }
    {
        ValidatorSchemaFragment(namespaces)
    }
}

// The common types with each name replaced by that of the type that it means.
fn resolved_commons(
    alloc: Global,
    commons: CommonTypeDefs<ConditionalName>,
    all_defs: &AllDefs,
) -> Result<CommonTypeDefs<InternalName>, FragmentError>
    ensures resolved { IfOk result (λ r. of_types (commons_resolved (defined_of all_defs.now) (commons_form conditional_of commons)) ≡ Ok (commons_form name_of r)) }
    ensures refused { IfErr result (Refuses (of_types (commons_resolved (defined_of all_defs.now) (commons_form conditional_of commons)))) }
{
    match commons.fully_qualify_type_references(alloc, all_defs) {
        Ok(commons) => Ok(commons),
        Err(error) => Err(FragmentError::from(error)),
    }
}

// The entity types with each name replaced by that of the type that it means.
fn resolved_entities(
    alloc: Global,
    entities: EntityTypesDef<ConditionalName>,
    all_defs: &AllDefs,
) -> Result<EntityTypesDef<InternalName>, FragmentError>
    ensures resolved { IfOk result (λ r. of_types (entities_resolved (defined_of all_defs.now) (entities_form conditional_of entities)) ≡ Ok (entities_form name_of r)) }
    ensures refused { IfErr result (Refuses (of_types (entities_resolved (defined_of all_defs.now) (entities_form conditional_of entities)))) }
{
    match entities.fully_qualify_type_references(alloc, all_defs) {
        Ok(entities) => Ok(entities),
        Err(error) => Err(FragmentError::from(error)),
    }
}

impl ValidatorNamespaceDef<ConditionalName, ConditionalName> {
    /// What is declared in a namespace, which is the empty one where it has no name, under full names, with what each name may
    /// stand for. Refuses actions of a reserved type, and fails when out of memory.
    pub fn from_namespace_definition(
        alloc: Global,
        namespace: Option<InternalName>,
        definition: NamespaceDefinition<RawName>,
    ) -> Result<ValidatorNamespaceDef<ConditionalName, ConditionalName>, FragmentError>
        ensures made { IfOk result (λ r. namespace_qualified (written_namespace namespace definition) ≡ Ok (namespace_form conditional_of conditional_of r)) }
        ensures refused { IfErr result (Refuses (namespace_qualified (written_namespace namespace definition))) }
    {
        ValidatorNamespaceDef::from_lent_definition(alloc, &namespace, &definition)
    }

    /// As `from_namespace_definition`, of a definition that is lent.
    pub fn from_lent_definition(
        alloc: Global,
        namespace: &Option<InternalName>,
        definition: &NamespaceDefinition<RawName>,
    ) -> Result<ValidatorNamespaceDef<ConditionalName, ConditionalName>, FragmentError>
        ensures made { IfOk result (λ r. namespace_qualified (written_namespace namespace.now definition.now) ≡ Ok (namespace_form conditional_of conditional_of r)) }
        ensures refused { IfErr result (Refuses (namespace_qualified (written_namespace namespace.now definition.now))) }
    {
        let name = copied_space(namespace)?;
        let space = namespace.as_ref();
        let common_types = commons_in(alloc, &definition.common_types, space)?;
        let entity_types = entities_in(alloc, &definition.entity_types, space)?;
        let actions = actions_in(alloc, &definition.actions, space)?;
        Ok(ValidatorNamespaceDef {
            namespace: name,
            common_types,
            entity_types,
            actions,
            loc: definition.loc,
        })
    }

    /// A namespace, which is the empty one where it has no name, that declares these common types alone, under full names. Fails only
    /// when out of memory.
    pub fn from_common_type_defs(
        alloc: Global,
        namespace: Option<InternalName>,
        defs: BTreeMap<Id, CommonType<ConditionalName>>,
    ) -> Result<ValidatorNamespaceDef<ConditionalName, ConditionalName>, AllocError>
        ensures { IfOk result (λ r. namespace_form conditional_of conditional_of r ≡ commons_namespace (option_map name_of namespace) (commons_known defs.entries)) }
    {
        let common_types = named_commons(alloc, defs, namespace.as_ref())?;
        Ok(ValidatorNamespaceDef {
            namespace,
            common_types,
            entity_types: EntityTypesDef::new(alloc),
            actions: ActionsDef::new(alloc),
            loc: None,
        })
    }

    /// A namespace, which is the empty one where it has no name, that declares this common type alone, under its full name. Fails only
    /// when out of memory.
    pub fn from_common_type_def(
        alloc: Global,
        namespace: Option<InternalName>,
        def: (Id, CommonType<ConditionalName>),
    ) -> Result<ValidatorNamespaceDef<ConditionalName, ConditionalName>, AllocError>
        ensures { IfOk result (λ r. namespace_form conditional_of conditional_of r ≡ common_namespace (option_map name_of namespace) (id_text def.0, common_form conditional_of def.1)) }
    {
        let (word, common) = def;
        let name = full_name(alloc, namespace.as_ref(), word, common.loc)?;
        let mut defs = Vec::new(alloc);
        defs.push((name, common))?;
        Ok(ValidatorNamespaceDef {
            namespace,
            common_types: CommonTypeDefs { defs },
            entity_types: EntityTypesDef::new(alloc),
            actions: ActionsDef::new(alloc),
            loc: None,
        })
    }

    /// The namespace with each name replaced by that of the type that it means, and each parent of an action by the action that it
    /// means. Refuses the first that means none, of common types, entity types and actions in this order, or a principal or
    /// resource type that is reserved, and fails when out of memory.
    pub fn fully_qualify_type_references(
        self,
        alloc: Global,
        all_defs: &AllDefs,
    ) -> Result<ValidatorNamespaceDef<InternalName, EntityType>, FragmentError>
        ensures resolved { IfOk result (λ r. namespace_resolved (defined_of all_defs.now) (namespace_form conditional_of conditional_of self) ≡ Ok (namespace_form name_of type_name_of r)) }
        ensures refused { IfErr result (Refuses (namespace_resolved (defined_of all_defs.now) (namespace_form conditional_of conditional_of self))) }
    {
        let common_types = resolved_commons(alloc, self.common_types, all_defs)?;
        let entity_types = resolved_entities(alloc, self.entity_types, all_defs)?;
        let actions = self.actions.fully_qualify_type_references(alloc, all_defs)?;
        Ok(ValidatorNamespaceDef {
            namespace: self.namespace,
            common_types,
            entity_types,
            actions,
            loc: self.loc,
        })
    }
}

impl<'a> Resolve for Namespaces<'a> {
    type From = ValidatorNamespaceDef<ConditionalName, ConditionalName>;

    type To = ValidatorNamespaceDef<InternalName, EntityType>;

    ghost Before = { NamespaceForm Conditional (Conditional × Text) };

    ghost After = { NamespaceForm Name (Name × Text) };

    ghost before = { namespace_form conditional_of conditional_of };

    ghost after = { namespace_form name_of type_name_of };

    ghost resolves = { λ n. namespace_resolved (defined_of n.0.now) };

    fn resolve(
        &self,
        alloc: Global,
        part: ValidatorNamespaceDef<ConditionalName, ConditionalName>,
    ) -> Result<ValidatorNamespaceDef<InternalName, EntityType>, FragmentError> {
        part.fully_qualify_type_references(alloc, self.0)
    }
}

impl ValidatorSchemaFragment<ConditionalName, ConditionalName> {
    /// What is declared in each namespace of a fragment as it is written, under full names, with what each name may stand for.
    /// Refuses actions of a reserved type, and fails when out of memory.
    pub fn from_schema_fragment(
        alloc: Global,
        fragment: Fragment<RawName>,
    ) -> Result<ValidatorSchemaFragment<ConditionalName, ConditionalName>, FragmentError>
        ensures made { IfOk result (λ r. each namespace_qualified (written_fragment fragment) ≡ Ok (fragment_form conditional_of conditional_of r)) }
        ensures refused { IfErr result (Refuses (each namespace_qualified (written_fragment fragment))) }
    {
        ValidatorSchemaFragment::from_lent_fragment(alloc, &fragment)
    }

    /// As `from_schema_fragment`, of a fragment that is lent.
    pub fn from_lent_fragment(
        alloc: Global,
        fragment: &Fragment<RawName>,
    ) -> Result<ValidatorSchemaFragment<ConditionalName, ConditionalName>, FragmentError>
        ensures made { IfOk result (λ r. each namespace_qualified (written_fragment fragment.now) ≡ Ok (fragment_form conditional_of conditional_of r)) }
        ensures refused { IfErr result (Refuses (each namespace_qualified (written_fragment fragment.now))) }
    {
        let mut namespaces = Vec::with_capacity(alloc, fragment.0.len())?;
        for (space, definition) in fragment.0.iter() {
            let namespace = ValidatorNamespaceDef::from_lent_definition(alloc, space, definition)?;
            namespaces.push(namespace)?;
        }
        Ok(ValidatorSchemaFragment(namespaces))
    }

    /// The fragment with each name replaced by that of the type that it means, and each parent of an action by the action that it
    /// means. Refuses the first that means none, namespace by namespace, or a principal or resource type that is reserved, and
    /// fails when out of memory.
    pub fn fully_qualify_type_references(
        self,
        alloc: Global,
        all_defs: &AllDefs,
    ) -> Result<ValidatorSchemaFragment<InternalName, EntityType>, FragmentError>
        ensures resolved { IfOk result (λ r. fragment_resolved (defined_of all_defs.now) (fragment_form conditional_of conditional_of self) ≡ Ok (fragment_form name_of type_name_of r)) }
        ensures refused { IfErr result (Refuses (fragment_resolved (defined_of all_defs.now) (fragment_form conditional_of conditional_of self))) }
    {
        let namespaces = resolve_each(alloc, self.0, &Namespaces(all_defs))?;
        Ok(ValidatorSchemaFragment(namespaces))
    }
}

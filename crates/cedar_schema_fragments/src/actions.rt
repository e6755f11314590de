//! Declarations of actions under their uids.

ghost use Rattle.std.specs.Prelude.{◌≡◌, [], map, find, IfOk, IfErr};
ghost use Rattle.std.specs.List.{list_any};
ghost use Rattle.std.specs.Option.{option_copied};
ghost use Rattle.std.specs.Rc.{rc_str_bytes};
ghost use Rattle.std.specs.Slice.Iter.{iter_rest};
ghost use Rattle.std.specs.declared.result.Result.TheVariants.{Ok};
ghost use Rattle.cedar_expr_model.specs.Name.{Name, Text, name_eq};
ghost use Rattle.cedar_expr_model.specs.Uid.{Uid};
ghost use Rattle.cedar_expr_names.specs.Views.{name_of, type_name_of, uid_of};
ghost use Rattle.cedar_schema_decl.specs.Conditional.{Conditional, conditional_of};
ghost use Rattle.cedar_schema_decl.specs.Defined.{defined_of, is_defined_action, resolving};
ghost use Rattle.cedar_schema_decl.specs.Forms.{ActionForm};
ghost use Rattle.cedar_schema_decl.specs.Requalified.{requalified};
ghost use Rattle.cedar_schema_decl.specs.Trees.{type_form};
ghost use Rattle.cedar_schema_fragments.specs.Actions.{applied_form, applies_form, parent_form, context_form, is_elsewhere, action_form, under_uid, actions_form};
ghost use Rattle.cedar_schema_fragments.specs.Refusals.{Refuses};
ghost use Rattle.cedar_schema_fragments.specs.Resolved.{of_types, entity_resolved, applied_resolved, parent_resolved, context_resolved, kind_resolved, action_resolved, actions_resolved, with_uid};

use crate::err::FragmentError;
use crate::resolving::{Resolve, resolve_each};
use cedar_expr_leaves::ConditionalName;
use cedar_expr_names::{Eid, EntityType, EntityUID, InternalName, Name};
use cedar_schema_decl::json_schema::{ActionEntityUID, Type};
use cedar_schema_decl::{AllDefs, resolve};
use std::alloc::{AllocError, Global};
use std::rc::RcStr;
use std::slice::Iter;

/// The types of principals and of resources that an action applies to.
#[derive(Drop)]
pub struct ValidatorApplySpec<N> {
    /// The types of principals.
    pub principal_apply_spec: Vec<N>,
    /// The types of resources.
    pub resource_apply_spec: Vec<N>,
}

/// What is declared of an action.
#[derive(Drop)]
pub struct ActionFragment<N, A> {
    /// The actions that it is in.
    pub parents: Vec<ActionEntityUID<N>>,
    /// What else is declared of it.
    pub kind: ActionFragmentKind<N, A>,
}

/// What is declared of an action beside the actions that it is in.
#[derive(Drop)]
pub enum ActionFragmentKind<N, A> {
    /// It is declared here.
    Declared {
        /// What it applies to.
        applies_to: ValidatorApplySpec<A>,
        /// The type of its context.
        context: Type<N>,
    },
    /// It is declared elsewhere.
    External,
}

/// Actions under their uids.
#[derive(Drop)]
pub struct ActionsDef<N, A> {
    /// Each with its uid.
    pub actions: Vec<(EntityUID, ActionFragment<N, A>)>,
}

// The entity types that are declared, for names of these.
#[derive(Drop)]
struct EntityTypes<'a>(&'a AllDefs);

// The actions that are declared, for parents of actions.
#[derive(Drop)]
struct Parents<'a>(&'a AllDefs);

// All that is declared, for actions under their uids.
#[derive(Drop)]
struct Actions<'a>(&'a AllDefs);

impl<N> ValidatorApplySpec<N> {
    /// These types of principals and of resources.
    pub fn new(principal_apply_spec: Vec<N>, resource_apply_spec: Vec<N>) -> ValidatorApplySpec<N>
        ensures principals { result.principal_apply_spec ≡ principal_apply_spec }
        ensures resources { result.resource_apply_spec ≡ resource_apply_spec }
    {
        ValidatorApplySpec {
            principal_apply_spec,
            resource_apply_spec,
        }
    }
}

impl ValidatorApplySpec<EntityType> {
    /// Whether the action applies to principals of this type.
    pub fn is_applicable_principal_type(&self, ty: &EntityType) -> bool
        ensures { result ≡ list_any (name_eq (type_name_of ty.now)) (map type_name_of self.now.principal_apply_spec.items) }
    {
        self.applicable_principal_types().any(|t| ty.same(t))
    }

    /// Whether the action applies to resources of this type.
    pub fn is_applicable_resource_type(&self, ty: &EntityType) -> bool
        ensures { result ≡ list_any (name_eq (type_name_of ty.now)) (map type_name_of self.now.resource_apply_spec.items) }
    {
        self.applicable_resource_types().any(|t| ty.same(t))
    }

    /// Goes over the types of principals, in the order in which they stand.
    pub fn applicable_principal_types(&self) -> Iter<'_, EntityType>
        ensures { iter_rest result ≡ self.now.principal_apply_spec.items }
    {
        self.principal_apply_spec.iter()
    }

    /// Goes over the types of resources, in the order in which they stand.
    pub fn applicable_resource_types(&self) -> Iter<'_, EntityType>
        ensures { iter_rest result ≡ self.now.resource_apply_spec.items }
    {
        self.resource_apply_spec.iter()
    }
}

impl<N, A> ActionsDef<N, A> {
    /// No actions.
    pub fn new(alloc: Global) -> ActionsDef<N, A>
        ensures { result.actions.items ≡ [] }
    {
        ActionsDef {
            actions: Vec::new(alloc),
        }
    }
}

impl ValidatorApplySpec<ConditionalName> {
    /// The types with each name replaced by the entity type that it means. Refuses the first name that means none, or means a
    /// reserved name, principals before resources, and fails when out of memory.
    pub fn fully_qualify_type_references(
        self,
        alloc: Global,
        all_defs: &AllDefs,
    ) -> Result<ValidatorApplySpec<EntityType>, FragmentError>
        ensures resolved { IfOk result (λ r. applied_resolved (defined_of all_defs.now) (applied_form conditional_of self) ≡ Ok (applied_form type_name_of r)) }
        ensures refused { IfErr result (Refuses (applied_resolved (defined_of all_defs.now) (applied_form conditional_of self))) }
    {
        let principals = resolve_each(alloc, self.principal_apply_spec, &EntityTypes(all_defs))?;
        let resources = resolve_each(alloc, self.resource_apply_spec, &EntityTypes(all_defs))?;
        Ok(ValidatorApplySpec {
            principal_apply_spec: principals,
            resource_apply_spec: resources,
        })
    }
}

impl<'a> Resolve for EntityTypes<'a> {
    type From = ConditionalName;

    type To = EntityType;

    ghost Before = { Conditional };

    ghost After = { Name };

    ghost before = { conditional_of };

    ghost after = { type_name_of };

    ghost resolves = { λ t. entity_resolved (defined_of t.0.now) };

    fn resolve(&self, _alloc: Global, part: ConditionalName) -> Result<EntityType, FragmentError> {
        let name = resolved_name(&part, self.0)?;
        match Name::try_from_internal(name) {
            Ok(name) => Ok(EntityType::from_name(name)),
            Err(reserved) => Err(FragmentError::ReservedName(reserved)),
        }
    }
}

// The name of the type that a name means. Refuses a name that means none, and fails when out of memory.
fn resolved_name(name: &ConditionalName, all_defs: &AllDefs) -> Result<InternalName, FragmentError>
    ensures resolved { IfOk result (λ n. of_types (resolving (defined_of all_defs.now) (conditional_of name.now).kind (conditional_of name.now)) ≡ Ok (name_of n)) }
    ensures refused { IfErr result (Refuses (of_types (resolving (defined_of all_defs.now) (conditional_of name.now).kind (conditional_of name.now)))) }
{
    match resolve(name, all_defs) {
        Ok(found) => Ok(found),
        Err(error) => Err(FragmentError::from(error)),
    }
}

impl<'a> Resolve for Parents<'a> {
    type From = ActionEntityUID<ConditionalName>;

    type To = ActionEntityUID<InternalName>;

    ghost Before = { Conditional × Text };

    ghost After = { Name × Text };

    ghost before = { parent_form conditional_of };

    ghost after = { parent_form name_of };

    ghost resolves = { λ p. parent_resolved (defined_of p.0.now) };

    fn resolve(
        &self,
        _alloc: Global,
        part: ActionEntityUID<ConditionalName>,
    ) -> Result<ActionEntityUID<InternalName>, FragmentError> {
        let names = part.ty.possibilities();
        match first_action(names.as_slice(), &part.id, self.0)? {
            Some(ty) => {
                let ty = ty.clone()?;
                Ok(ActionEntityUID { ty, id: part.id })
            }
            None => Err(FragmentError::ActionNotDefined {
                ty: part.ty,
                id: part.id,
            }),
        }
    }
}

// The first of these names with which, as its type, an action of this id is declared. Fails only when out of memory.
fn first_action<'a>(
    names: &'a [InternalName],
    id: &RcStr,
    all_defs: &AllDefs,
) -> Result<Option<&'a InternalName>, AllocError>
    ensures { IfOk result (λ f. option_copied f ≡ find (λ n. is_defined_action (defined_of all_defs.now) (record { kind = name_of n; id = rc_str_bytes id.now })) names.now) }
{
    for name in names {
        if is_action(name, id, all_defs)? {
            return Ok(Some(name));
        }
    }
    Ok(None)
}

// Whether an action of this type and id is declared. Fails only when out of memory.
fn is_action(name: &InternalName, id: &RcStr, all_defs: &AllDefs) -> Result<bool, AllocError>
    ensures { IfOk result (λ b. b ≡ is_defined_action (defined_of all_defs.now) (record { kind = name_of name.now; id = rc_str_bytes id.now })) }
{
    match Name::try_from_internal(name.clone()?) {
        Err(_) => Ok(false),
        Ok(name) => {
            let ty = EntityType::from_name(name);
            let uid = EntityUID::from_components(ty, Eid::new(id.clone()?), None);
            Ok(all_defs.is_defined_as_action(&uid))
        }
    }
}

// The type of a context with each name replaced by that of the type that it means.
fn resolved_context(
    alloc: Global,
    context: Type<ConditionalName>,
    all_defs: &AllDefs,
) -> Result<Type<InternalName>, FragmentError>
    ensures resolved { IfOk result (λ r. of_types (requalified (resolving (defined_of all_defs.now)) (type_form conditional_of context)) ≡ Ok (type_form name_of r)) }
    ensures refused { IfErr result (Refuses (of_types (requalified (resolving (defined_of all_defs.now)) (type_form conditional_of context)))) }
{
    match context.fully_qualify_type_references(alloc, all_defs) {
        Ok(context) => Ok(context),
        Err(error) => Err(FragmentError::from(error)),
    }
}

// The kind of an action with each name replaced by that of the type that it means. Refuses the first that means none, of
// principals, resources and context in this order, or a principal or resource type that is reserved, and fails when out of memory.
fn resolved_kind(
    alloc: Global,
    kind: ActionFragmentKind<ConditionalName, ConditionalName>,
    all_defs: &AllDefs,
) -> Result<ActionFragmentKind<InternalName, EntityType>, FragmentError>
    ensures applied { IfOk result (λ k. applied_resolved (defined_of all_defs.now) (applies_form conditional_of kind) ≡ Ok (applies_form type_name_of k)) }
    ensures context { IfOk result (λ k. context_resolved (defined_of all_defs.now) (context_form conditional_of kind) ≡ Ok (context_form name_of k)) }
    ensures placed { IfOk result (λ k. is_elsewhere k ≡ is_elsewhere kind) }
    ensures refused { IfErr result (Refuses (kind_resolved (defined_of all_defs.now) kind)) }
{
    match kind {
        ActionFragmentKind::External => Ok(ActionFragmentKind::External),
        ActionFragmentKind::Declared {
            applies_to,
            context,
        } => match applies_to.fully_qualify_type_references(alloc, all_defs) {
            Ok(applies_to) => match resolved_context(alloc, context, all_defs) {
                Ok(context) => Ok(ActionFragmentKind::Declared {
                    applies_to,
                    context,
                }),
                Err(error) => {
                    drop(applies_to);
                    Err(error)
                }
            },
            Err(error) => {
                drop(context);
                Err(error)
            }
        },
    }
}

impl ActionFragment<ConditionalName, ConditionalName> {
    /// The action with each name replaced by that of the type that it means, and each parent by the action that it means. Refuses
    /// the first that means none, of principals, resources, context and parents in this order, or a principal or resource type that
    /// is reserved, and fails when out of memory.
    pub fn fully_qualify_type_references(
        self,
        alloc: Global,
        all_defs: &AllDefs,
    ) -> Result<ActionFragment<InternalName, EntityType>, FragmentError>
        ensures resolved { IfOk result (λ r. action_resolved (defined_of all_defs.now) (action_form conditional_of conditional_of self) ≡ Ok (action_form name_of type_name_of r)) }
        ensures refused { IfErr result (Refuses (action_resolved (defined_of all_defs.now) (action_form conditional_of conditional_of self))) }
    {
        let ActionFragment { parents, kind } = self;
        match resolved_kind(alloc, kind, all_defs) {
            Ok(kind) => match resolve_each(alloc, parents, &Parents(all_defs)) {
                Ok(parents) => Ok(ActionFragment { parents, kind }),
                Err(error) => {
                    drop(kind);
                    Err(error)
                }
            },
            Err(error) => {
                drop(parents);
                Err(error)
            }
        }
    }
}

impl<'a> Resolve for Actions<'a> {
    type From = (EntityUID, ActionFragment<ConditionalName, ConditionalName>);

    type To = (EntityUID, ActionFragment<InternalName, EntityType>);

    ghost Before = { Uid × ActionForm Conditional (Conditional × Text) };

    ghost After = { Uid × ActionForm Name (Name × Text) };

    ghost before = { under_uid conditional_of conditional_of };

    ghost after = { under_uid name_of type_name_of };

    ghost resolves = { λ a. with_uid (action_resolved (defined_of a.0.now)) };

    fn resolve(
        &self,
        alloc: Global,
        part: (EntityUID, ActionFragment<ConditionalName, ConditionalName>),
    ) -> Result<(EntityUID, ActionFragment<InternalName, EntityType>), FragmentError> {
        let (uid, action) = part;
        let action = action.fully_qualify_type_references(alloc, self.0)?;
        Ok((uid, action))
    }
}

impl ActionsDef<ConditionalName, ConditionalName> {
    /// The actions with each name replaced by that of the type that it means, and each parent by the action that it means. Refuses
    /// the first that means none, or a principal or resource type that is reserved, and fails when out of memory.
    pub fn fully_qualify_type_references(
        self,
        alloc: Global,
        all_defs: &AllDefs,
    ) -> Result<ActionsDef<InternalName, EntityType>, FragmentError>
        ensures resolved { IfOk result (λ r. actions_resolved (defined_of all_defs.now) (actions_form conditional_of conditional_of self) ≡ Ok (actions_form name_of type_name_of r)) }
        ensures refused { IfErr result (Refuses (actions_resolved (defined_of all_defs.now) (actions_form conditional_of conditional_of self))) }
    {
        let actions = resolve_each(alloc, self.actions, &Actions(all_defs))?;
        Ok(ActionsDef { actions })
    }
}

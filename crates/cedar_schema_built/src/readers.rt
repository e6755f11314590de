//! What is read from a built schema.

ghost use Rattle.std.specs.Prelude.{◌≡◌, map, option_map, is_some};
ghost use Rattle.cedar_expr_names.specs.Views.{type_name_of, uid_of};
ghost use Rattle.cedar_schema_types.specs.Types.{type_of};
ghost use Rattle.cedar_schema_entries.specs.Views.{entity_type_seen, action_seen};
ghost use Rattle.cedar_schema_built.specs.LocatedViews.{common_listed, space_listed};
ghost use Rattle.cedar_schema_model.specs.Kept.{kept_type, kept_action, kept_ancestors, kept_groups, kept_actions_for, elsewhere};
ghost use Rattle.cedar_schema_built.specs.Iterators.{ancestors_left, groups_left, actions_left, unresolved_left};
ghost use Rattle.cedar_schema_built.specs.Listed.{schema_listed};
ghost use Rattle.cedar_schema_built.specs.Views.{schema_kept};

use crate::iterators::{ActionGroups, ActionsFor, Ancestors};
use crate::schema::ValidatorSchema;
use crate::unresolved::UnresolvedDeclarations;
use crate::{LocatedCommonType, LocatedNamespace};
use cedar_expr_names::{EntityType, EntityUID, InternalName};
use cedar_schema_entries::{ValidatorActionId, ValidatorEntityType};
use cedar_schema_types::Type;
use std::collections::btree_map::{Keys, Values};
use std::collections::btree_set::Iter;

impl ValidatorSchema {
    /// The entity type of this name.
    pub fn get_entity_type(&self, ty: &EntityType) -> Option<&ValidatorEntityType>
        ensures { option_map (λ t. entity_type_seen t.now) result ≡ kept_type (schema_kept self.now) (type_name_of ty.now) }
    {
        self.entity_types.get(ty)
    }

    /// The action of this uid.
    pub fn get_action_id(&self, action: &EntityUID) -> Option<&ValidatorActionId>
        ensures { option_map (λ a. action_seen a.now) result ≡ kept_action (schema_kept self.now) (uid_of action.now) }
    {
        self.action_ids.get(action)
    }

    /// Goes over the entity types, in the order of their names.
    pub fn entity_types(&self) -> Values<'_, EntityType, ValidatorEntityType>
        ensures { map entity_type_seen result ≡ (schema_kept self.now).types }
    {
        self.entity_types.values()
    }

    /// Goes over the names of the entity types, in their order.
    pub fn entity_type_names(&self) -> Keys<'_, EntityType, ValidatorEntityType>
        ensures { map type_name_of result ≡ map (λ t. t.name) (schema_kept self.now).types }
    {
        self.entity_types.keys()
    }

    /// Goes over the actions, in the order of their uids.
    pub fn action_ids(&self) -> Values<'_, EntityUID, ValidatorActionId>
        ensures { map action_seen result ≡ (schema_kept self.now).actions }
    {
        self.action_ids.values()
    }

    /// Goes over the uids of the actions, in their order.
    pub fn actions(&self) -> Keys<'_, EntityUID, ValidatorActionId>
        ensures { map uid_of result ≡ map (λ a. a.uid) (schema_kept self.now).actions }
    {
        self.action_ids.keys()
    }

    /// Goes over the common types that the fragments of the schema declare, in the order of their names.
    pub fn common_types(&self) -> Values<'_, InternalName, LocatedCommonType>
        ensures { map common_listed result ≡ (schema_listed self.now).commons }
    {
        self.names.common_types.values()
    }

    /// Goes over the namespaces in which the fragments of the schema declare anything, in the order of their names.
    pub fn namespaces(&self) -> Values<'_, InternalName, LocatedNamespace>
        ensures { map space_listed result ≡ (schema_listed self.now).spaces }
    {
        self.names.namespaces.values()
    }

    /// Goes over the types of principals that the action of this uid applies to, if it is declared.
    pub fn principals_for_action(&self, action: &EntityUID) -> Option<Iter<'_, EntityType>>
        ensures { option_map (λ ts. map type_name_of ts) result ≡ option_map (λ a. a.applied.principals) (kept_action (schema_kept self.now) (uid_of action.now)) }
    {
        match self.get_action_id(action) {
            Some(action) => Some(action.principals()),
            None => None,
        }
    }

    /// Goes over the types of resources that the action of this uid applies to, if it is declared.
    pub fn resources_for_action(&self, action: &EntityUID) -> Option<Iter<'_, EntityType>>
        ensures { option_map (λ ts. map type_name_of ts) result ≡ option_map (λ a. a.applied.resources) (kept_action (schema_kept self.now) (uid_of action.now)) }
    {
        match self.get_action_id(action) {
            Some(action) => Some(action.resources()),
            None => None,
        }
    }

    /// The type of the context of the action of this uid, if it is declared.
    pub fn context_type(&self, action: &EntityUID) -> Option<&Type>
        ensures { option_map (λ t. type_of t.now) result ≡ option_map (λ a. a.context) (kept_action (schema_kept self.now) (uid_of action.now)) }
    {
        match self.get_action_id(action) {
            Some(action) => Some(action.context()),
            None => None,
        }
    }

    /// Goes over the entity types that this one descends from, in the order of their names, if it is declared.
    pub fn ancestors<'a>(&'a self, ty: &EntityType) -> Option<Ancestors<'a>>
        ensures { option_map ancestors_left result ≡ option_map (λ t. kept_ancestors (schema_kept self.entry.now) (type_name_of ty.entry.now)) (kept_type (schema_kept self.entry.now) (type_name_of ty.entry.now)) }
    {
        match self.get_entity_type(ty) {
            Some(_) => Some(Ancestors::new(self.ancestors.get(ty))),
            None => None,
        }
    }

    /// Goes over the actions that some action descends from, in the order of their uids.
    pub fn action_groups(&self) -> ActionGroups<'_>
        ensures { groups_left result ≡ kept_groups (schema_kept self.now) }
    {
        ActionGroups::new(self.action_ids())
    }

    /// Goes over the actions that apply to principals and resources of these types, in the order of their uids.
    pub fn actions_for_principal_and_resource<'a>(
        &'a self,
        principal_type: &'a EntityType,
        resource_type: &'a EntityType,
    ) -> ActionsFor<'a>
        ensures { actions_left result ≡ kept_actions_for (schema_kept self.entry.now) (type_name_of principal_type.entry.now) (type_name_of resource_type.entry.now) }
    {
        ActionsFor::new(self.action_ids(), principal_type, resource_type)
    }

    /// Goes over what is declared elsewhere: entity types, and then actions.
    pub fn unresolved_declarations(&self) -> UnresolvedDeclarations<'_>
        ensures { unresolved_left result ≡ elsewhere (schema_kept self.now) }
    {
        UnresolvedDeclarations::new(self.entity_types(), self.action_ids())
    }
}

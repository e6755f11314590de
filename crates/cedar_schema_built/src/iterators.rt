//! Iterators over some of the entity types or actions of a schema.

use cedar_expr_names::{EntityType, EntityUID};
use cedar_schema_entries::ValidatorActionId;
use std::collections::btree_map::Values;
use std::slice::Iter;

/// Goes over the names of those entity types that one descends from.
#[derive(Drop)]
pub struct Ancestors<'a> {
    row: Option<Iter<'a, EntityType>>,
}

/// Goes over the uids of those actions that some action descends from.
#[derive(Drop)]
pub struct ActionGroups<'a> {
    actions: Values<'a, EntityUID, ValidatorActionId>,
}

/// Goes over the uids of those actions that apply to principals and resources of two types.
#[derive(Drop)]
pub struct ActionsFor<'a> {
    actions: Values<'a, EntityUID, ValidatorActionId>,
    principal: &'a EntityType,
    resource: &'a EntityType,
}

impl<'a> Ancestors<'a> {
    ghost use Rattle.std.specs.Prelude.{◌≡◌, [], map};
    ghost use Rattle.std.specs.Option.{option_map_or};
    ghost use Rattle.cedar_expr_names.specs.Views.{type_name_of};
    ghost use Rattle.cedar_schema_built.specs.Iterators.{ancestors_left};

    // Those of the row, none without one.
    pub(crate) fn new(row: Option<&'a Vec<EntityType>>) -> Ancestors<'a>
        ensures { ancestors_left result ≡ option_map_or (λ r. map type_name_of r.now.items) row.entry [] }
    {
        match row {
            Some(row) => Ancestors {
                row: Some(row.iter()),
            },
            None => Ancestors { row: None },
        }
    }
}

impl<'a> ActionGroups<'a> {
    ghost use Rattle.std.specs.Prelude.{◌≡◌, map, not};
    ghost use Rattle.std.specs.List.{filter};
    ghost use Rattle.cedar_expr_model.specs.Lists.{is_nil};
    ghost use Rattle.cedar_schema_entries.specs.Views.{action_seen};
    ghost use Rattle.cedar_schema_built.specs.Iterators.{groups_left};

    // Those of these actions that some action descends from.
    pub(crate) fn new(actions: Values<'a, EntityUID, ValidatorActionId>) -> ActionGroups<'a>
        ensures { groups_left result ≡ map (λ a. a.uid) (filter (λ a. not (is_nil a.descendants)) (map action_seen actions.entry)) }
    {
        ActionGroups { actions }
    }
}

impl<'a> ActionsFor<'a> {
    ghost use Rattle.std.specs.Prelude.{◌≡◌, map};
    ghost use Rattle.std.specs.List.{filter};
    ghost use Rattle.cedar_expr_names.specs.Views.{type_name_of};
    ghost use Rattle.cedar_schema_entries.specs.Views.{action_seen};
    ghost use Rattle.cedar_schema_model.specs.Kept.{applies_to};
    ghost use Rattle.cedar_schema_built.specs.Iterators.{actions_left};

    // Those of these actions that apply to principals and resources of these types.
    pub(crate) fn new(
        actions: Values<'a, EntityUID, ValidatorActionId>,
        principal: &'a EntityType,
        resource: &'a EntityType,
    ) -> ActionsFor<'a>
        ensures { actions_left result ≡ map (λ a. a.uid) (filter (applies_to (type_name_of principal.entry.now) (type_name_of resource.entry.now)) (map action_seen actions.entry)) }
    {
        ActionsFor {
            actions,
            principal,
            resource,
        }
    }
}

impl<'a> Iterator for Ancestors<'a> {
    type Item = &'a EntityType;

    ghost use Rattle.std.specs.Iterator.{YieldsFirstBy, item_count};
    ghost use Rattle.cedar_expr_names.specs.Views.{type_name_of};
    ghost use Rattle.cedar_schema_built.specs.Iterators.{ancestors_left};

    ghost next_gives = { YieldsFirstBy (λ t. type_name_of t.now) ancestors_left };

    ghost remaining = { item_count ancestors_left };

    fn next(&mut self) -> Option<&'a EntityType> {
        match &mut self.row {
            Some(row) => row.next(),
            None => None,
        }
    }
}

impl<'a> Iterator for ActionGroups<'a> {
    type Item = &'a EntityUID;

    ghost use Rattle.std.specs.Iterator.{YieldsFirstBy, item_count};
    ghost use Rattle.cedar_expr_names.specs.Views.{uid_of};
    ghost use Rattle.cedar_schema_built.specs.Iterators.{groups_left};

    ghost next_gives = { YieldsFirstBy (λ u. uid_of u.now) groups_left };

    ghost remaining = { item_count groups_left };

    fn next(&mut self) -> Option<&'a EntityUID> {
        while let Some(action) = self.actions.next() {
            if action.is_group() {
                return Some(action.name());
            }
        }
        None
    }
}

impl<'a> Iterator for ActionsFor<'a> {
    type Item = &'a EntityUID;

    ghost use Rattle.std.specs.Iterator.{YieldsFirstBy, item_count};
    ghost use Rattle.cedar_expr_names.specs.Views.{uid_of};
    ghost use Rattle.cedar_schema_built.specs.Iterators.{actions_left};

    ghost next_gives = { YieldsFirstBy (λ u. uid_of u.now) actions_left };

    ghost remaining = { item_count actions_left };

    fn next(&mut self) -> Option<&'a EntityUID> {
        while let Some(action) = self.actions.next() {
            if applies(action, self.principal, self.resource) {
                return Some(action.name());
            }
        }
        None
    }
}

ghost use Rattle.std.specs.Prelude.{◌≡◌};
ghost use Rattle.cedar_expr_names.specs.Views.{type_name_of};
ghost use Rattle.cedar_schema_entries.specs.Views.{action_seen};
ghost use Rattle.cedar_schema_model.specs.Kept.{applies_to};

// Whether the action applies to principals and resources of these types.
fn applies(action: &ValidatorActionId, principal: &EntityType, resource: &EntityType) -> bool
    ensures { result ≡ applies_to (type_name_of principal.now) (type_name_of resource.now) (action_seen action.now) }
{
    action.is_applicable_principal_type(principal) && action.is_applicable_resource_type(resource)
}

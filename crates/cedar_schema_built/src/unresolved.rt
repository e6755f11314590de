//! What is declared elsewhere.

use crate::schema::ValidatorSchema;
use cedar_expr_names::{EntityType, EntityUID};
use cedar_schema_entries::{ValidatorActionId, ValidatorEntityType};
use std::collections::btree_map::Values;
use std::fmt;
use std::fmt::{Display, Formatter, Write};
use thiserror::Error;

/// An entity type or an action that is declared elsewhere.
#[derive(Debug, Clone, Copy)]
pub enum UnresolvedDeclaration<'a> {
    /// An entity type.
    EntityType(&'a EntityType),
    /// An action.
    Action(&'a EntityUID),
}

impl<'a> Display for UnresolvedDeclaration<'a> {
    fn fmt<W: Write>(&self, f: &mut Formatter<W>) -> fmt::Result {
        match self {
            UnresolvedDeclaration::EntityType(ty) => write!(f, "entity type `{ty}`"),
            UnresolvedDeclaration::Action(uid) => write!(f, "action `{uid}`"),
        }
    }
}

/// Why a schema isn't complete: this is declared elsewhere.
#[derive(Debug, Clone, Copy, Error)]
#[error("{declaration} is declared elsewhere")]
pub struct UnresolvedExternalError<'a> {
    /// What is declared elsewhere.
    pub declaration: UnresolvedDeclaration<'a>,
}

impl<'a> UnresolvedExternalError<'a> {
    ghost use Rattle.std.specs.Prelude.{◌≡◌};
    ghost use Rattle.cedar_schema_model.specs.WellFormed.{schema_number, unresolved_external};

    /// The number of the refusal, which goes on from those of `SchemaError`.
    pub fn number(&self) -> u32
        ensures { result ≡ schema_number unresolved_external }
    {
        13
    }
}

/// Goes over what is declared elsewhere: entity types in the order of their names, and then actions in that of their uids.
#[derive(Drop)]
pub struct UnresolvedDeclarations<'a> {
    types: Values<'a, EntityType, ValidatorEntityType>,
    actions: Values<'a, EntityUID, ValidatorActionId>,
}

impl<'a> UnresolvedDeclarations<'a> {
    ghost use Rattle.std.specs.Prelude.{◌≡◌, ◌++◌, map};
    ghost use Rattle.cedar_schema_entries.specs.Views.{entity_type_seen, action_seen};
    ghost use Rattle.cedar_schema_model.specs.Kept.{types_elsewhere, actions_elsewhere};
    ghost use Rattle.cedar_schema_built.specs.Iterators.{unresolved_left};

    // Those of these types and actions that are declared elsewhere.
    pub(crate) fn new(
        types: Values<'a, EntityType, ValidatorEntityType>,
        actions: Values<'a, EntityUID, ValidatorActionId>,
    ) -> UnresolvedDeclarations<'a>
        ensures { unresolved_left result ≡ types_elsewhere (map entity_type_seen types.entry) ++ actions_elsewhere (map action_seen actions.entry) }
    {
        UnresolvedDeclarations { types, actions }
    }
}

impl<'a> Iterator for UnresolvedDeclarations<'a> {
    type Item = UnresolvedDeclaration<'a>;

    ghost use Rattle.std.specs.Iterator.{YieldsFirstBy, item_count};
    ghost use Rattle.cedar_schema_built.specs.Views.{unresolved_seen};
    ghost use Rattle.cedar_schema_built.specs.Iterators.{unresolved_left};

    ghost next_gives = { YieldsFirstBy unresolved_seen unresolved_left };

    ghost remaining = { item_count unresolved_left };

    fn next(&mut self) -> Option<UnresolvedDeclaration<'a>> {
        while let Some(entity_type) = self.types.next() {
            if entity_type.is_external() {
                return Some(UnresolvedDeclaration::EntityType(entity_type.name()));
            }
        }
        while let Some(action) = self.actions.next() {
            if action.is_external() {
                return Some(UnresolvedDeclaration::Action(action.name()));
            }
        }
        None
    }
}

ghost use Rattle.std.specs.Prelude.{◌≡◌, [], ◌∷◌, List, IfOk, IfErr};
ghost use Rattle.cedar_expr_model.specs.Lists.{is_nil};
ghost use Rattle.cedar_schema_model.specs.Kept.{Elsewhere, elsewhere, IsFirst};
ghost use Rattle.cedar_schema_built.specs.Views.{schema_kept, unresolved_seen};

impl ValidatorSchema {
    /// Refuses a schema in which something is declared elsewhere, by naming the first that is.
    pub fn check_complete(&self) -> Result<(), UnresolvedExternalError<'_>>
        ensures complete { IfOk result (λ _. elsewhere (schema_kept self.now) ≡ []) }
        ensures refused { IfErr result (λ e. IsFirst (elsewhere (schema_kept self.now)) (unresolved_seen e.declaration)) }
    {
        match self.unresolved_declarations().next() {
            Some(declaration) => Err(UnresolvedExternalError { declaration }),
            None => Ok(()),
        }
    }

    /// Whether nothing is declared elsewhere.
    pub fn is_complete(&self) -> bool
        ensures { result ≡ is_nil (elsewhere (schema_kept self.now)) }
    {
        self.check_complete().is_ok()
    }
}

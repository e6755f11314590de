//! Principals, actions and resources of requests.

ghost use Rattle.std.specs.Prelude.{◌≡◌, None, Some, IfOk, option_map};
ghost use Rattle.cedar_expr_leaves.specs.Variables.{var_of};
ghost use Rattle.cedar_expr_names.specs.Views.{uid_of, uid_loc, type_name_of};
ghost use Rattle.cedar_evaluator_errors.specs.Outcomes.{left_seen};
ghost use Rattle.cedar_evaluator_model.specs.Scope.{uid, unknown_uid};
ghost use Rattle.cedar_evaluator_model.specs.Evaluation.{entry_left};
ghost use Rattle.cedar_expr_partial.specs.Parts.{part_place};
ghost use Rattle.cedar_evaluator_requests.specs.Views.{entry_of, entry_place, entry_uid, entry_type, name_of_var};

use cedar_expr_leaves::{Literal, Var};
use cedar_expr_names::{EntityType, EntityUID, Loc};
use cedar_expr_partial::PartialValue;
use cedar_expr_trees::{Expr, Type, Unknown};
use cedar_expr_values::{ExtValue, Value};
use std::alloc::{AllocError, Global};
use std::rc::{Rc, RcStr};

/// The principal, action or resource of a request: known, or unknown.
#[derive(Debug, Drop)]
pub enum EntityUIDEntry {
    /// A known uid.
    Known {
        /// The uid.
        euid: Rc<EntityUID>,
        /// Its place in the request.
        loc: Option<Loc>,
    },
    /// An unknown uid.
    Unknown {
        /// Its type, if that is known.
        ty: Option<EntityType>,
        /// Its place in the request.
        loc: Option<Loc>,
    },
}

impl Clone for EntityUIDEntry {
    ghost is_clone = { λ e copy. (entry_of copy ≡ entry_of e) × (entry_place copy ≡ entry_place e) };

    fn clone(&self) -> Result<EntityUIDEntry, AllocError> {
        match self {
            EntityUIDEntry::Known { euid, loc } => Ok(EntityUIDEntry::Known {
                euid: euid.clone()?,
                loc: *loc,
            }),
            EntityUIDEntry::Unknown { ty: Some(ty), loc } => Ok(EntityUIDEntry::Unknown {
                ty: Some(ty.clone()?),
                loc: *loc,
            }),
            EntityUIDEntry::Unknown { ty: None, loc } => Ok(EntityUIDEntry::Unknown {
                ty: None,
                loc: *loc,
            }),
        }
    }
}

impl EntityUIDEntry {
    /// The entry of a known uid at this place.
    pub fn known(
        alloc: Global,
        euid: EntityUID,
        loc: Option<Loc>,
    ) -> Result<EntityUIDEntry, AllocError>
        ensures entry { IfOk result (λ e. entry_of e ≡ uid (uid_of euid)) }
        ensures place { IfOk result (λ e. entry_place e ≡ loc) }
    {
        let euid = Rc::new(alloc, euid)?;
        Ok(EntityUIDEntry::Known { euid, loc })
    }

    /// The entry of a known uid at the uid's own place.
    pub fn from_entity_uid(alloc: Global, euid: EntityUID) -> Result<EntityUIDEntry, AllocError>
        ensures entry { IfOk result (λ e. entry_of e ≡ uid (uid_of euid)) }
        ensures place { IfOk result (λ e. entry_place e ≡ uid_loc euid) }
    {
        let loc = euid.loc();
        EntityUIDEntry::known(alloc, euid, loc)
    }

    /// The entry of which nothing is known.
    pub fn unknown() -> EntityUIDEntry
        ensures entry { entry_of result ≡ unknown_uid None }
        ensures place { entry_place result ≡ None }
    {
        EntityUIDEntry::Unknown {
            ty: None,
            loc: None,
        }
    }

    /// The entry of an unknown uid of this type, at this place.
    pub fn unknown_with_type(ty: EntityType, loc: Option<Loc>) -> EntityUIDEntry
        ensures entry { entry_of result ≡ unknown_uid (Some (type_name_of ty)) }
        ensures place { entry_place result ≡ loc }
    {
        EntityUIDEntry::Unknown { ty: Some(ty), loc }
    }

    /// What the variable of this entry is: the uid, or the unknown of the variable's name, annotated with the type that is known. It
    /// takes the entry's place.
    pub fn evaluate(&self, alloc: Global, var: Var) -> Result<PartialValue<ExtValue>, AllocError>
        ensures left { IfOk result (λ p. left_seen p ≡ entry_left (name_of_var (var_of var)) (entry_of self.now)) }
        ensures place { IfOk result (λ p. part_place p ≡ entry_place self.now) }
    {
        match self {
            EntityUIDEntry::Known { euid, loc } => {
                let uid = Literal::EntityUID(euid.clone()?);
                Ok(PartialValue::Value(Value::from(uid).with_maybe_source_loc(*loc)))
            }
            EntityUIDEntry::Unknown { ty: None, loc } => {
                let name = RcStr::from_str(alloc, variable_name(var))?;
                let unknown = Expr::unknown(Unknown::new_untyped(name));
                Ok(PartialValue::Residual(unknown.with_maybe_source_loc(*loc)))
            }
            EntityUIDEntry::Unknown { ty: Some(ty), loc } => {
                let name = RcStr::from_str(alloc, variable_name(var))?;
                let ty = Type::Entity { ty: ty.clone()? };
                let unknown = Expr::unknown(Unknown::new_with_type(name, ty));
                Ok(PartialValue::Residual(unknown.with_maybe_source_loc(*loc)))
            }
        }
    }

    /// The uid, if it is known.
    pub fn uid(&self) -> Option<&EntityUID>
        ensures { option_map (λ u. uid_of u.now) result ≡ entry_uid (entry_of self.now) }
    {
        match self {
            EntityUIDEntry::Known { euid, .. } => Some(euid),
            EntityUIDEntry::Unknown { .. } => None,
        }
    }

    /// The type of the uid, if that is known.
    pub fn get_type(&self) -> Option<&EntityType>
        ensures { option_map (λ t. type_name_of t.now) result ≡ entry_type (entry_of self.now) }
    {
        match self {
            EntityUIDEntry::Known { euid, .. } => Some(euid.entity_type()),
            EntityUIDEntry::Unknown { ty: Some(ty), .. } => Some(ty),
            EntityUIDEntry::Unknown { ty: None, .. } => None,
        }
    }

    /// The place of the uid in the request, if it has one.
    pub fn loc(&self) -> Option<Loc>
        ensures { result ≡ entry_place self.now }
    {
        match self {
            EntityUIDEntry::Known { loc, .. } => *loc,
            EntityUIDEntry::Unknown { loc, .. } => *loc,
        }
    }
}

/// The name of a variable.
pub fn variable_name(var: Var) -> &'static str
    ensures { result.now ≡ name_of_var (var_of var) }
{
    match var {
        Var::Principal => "principal",
        Var::Action => "action",
        Var::Resource => "resource",
        Var::Context => "context",
    }
}

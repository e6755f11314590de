//! What the scope of a policy asks of principal, action and resource.

ghost use Rattle.std.specs.Prelude.{◌≡◌, ◌++◌, [], IfOk, map, option_map};
ghost use Rattle.cedar_expr_names.specs.Views.{uid_of, uid_loc, type_name_of};
ghost use Rattle.cedar_expr_model.specs.Value.{entity};
ghost use Rattle.cedar_expr_model.specs.Tree.{lit, var, binary, equal, is_in, is_type};
ghost use Rattle.cedar_expr_leaves.specs.Slots.{slot_of};
ghost use Rattle.cedar_expr_leaves.specs.Variables.{var_of};
ghost use Rattle.cedar_expr_trees.specs.Trees.{tree_of, place_of};
ghost use Rattle.cedar_store_model.specs.Policy.{any, any_action, target_tree, scope_tree, action_tree};
ghost use Rattle.cedar_store_parts.specs.Parts.{part_var, part_slot, target_of, target_place, target_places, named_places, scope_of, scope_places, scope_named_places, action_scope_of, action_places, filled_target, filled, places_left, places_bound};

use cedar_expr_leaves::{Literal, SlotId, Var};
use cedar_expr_names::{EntityType, EntityUID, Loc};
use cedar_expr_trees::Expr;
use std::alloc::{AllocError, Global};
use std::rc::Rc;

/// A part of the scope that has a slot.
#[derive(Clone, Copy, Debug, PartialEq, Eq, PartialOrd, Ord, Hash)]
pub enum PrincipalOrResource {
    /// The principal's.
    Principal,

    /// The resource's.
    Resource,
}

impl PrincipalOrResource {
    /// The variable of this part.
    pub fn var(self) -> Var
        ensures { var_of result ≡ part_var self }
    {
        match self {
            PrincipalOrResource::Principal => Var::Principal,
            PrincipalOrResource::Resource => Var::Resource,
        }
    }

    /// The slot of this part.
    pub fn slot(self) -> SlotId
        ensures { slot_of result ≡ part_slot self }
    {
        match self {
            PrincipalOrResource::Principal => SlotId::principal(),
            PrincipalOrResource::Resource => SlotId::resource(),
        }
    }
}

/// What a part of a scope names. Two are equal where they name the same; places don't count.
#[derive(Debug, Drop)]
#[derive_where(PartialEq, Eq)]
pub enum EntityReference {
    /// An entity.
    EUID(Rc<EntityUID>),

    /// What the slot of this part is bound to. The slot may have a place.
    Slot(#[derive_where(skip(EqHashOrd))] Option<Loc>),
}

impl EntityReference {
    // What is named, as an expression.
    fn as_expr(&self, slot: SlotId) -> Result<Expr, AllocError>
        ensures tree { IfOk result (λ e. tree_of e ≡ target_tree (slot_of slot) (target_of self.now)) }
        ensures place { IfOk result (λ e. place_of e ≡ target_place self.now) }
    {
        match self {
            EntityReference::EUID(uid) => Ok(Expr::val(Literal::EntityUID(uid.clone()?))),
            EntityReference::Slot(loc) => Ok(Expr::slot(slot).with_maybe_source_loc(*loc)),
        }
    }

    // What is named, with the uid that the slot is bound to, if there is one, in the slot's place.
    fn with_filled_slot(&self, uid: Option<&Rc<EntityUID>>) -> Result<EntityReference, AllocError>
        ensures target { IfOk result (λ r. target_of r ≡ filled_target (option_map (λ u. uid_of u.now.value) uid.entry) (target_of self.now)) }
        ensures places { IfOk result (λ r. target_places r ≡ places_left (option_map (λ u. uid_of u.now.value) uid.entry) (target_places self.now)) }
        ensures named { IfOk result (λ r. named_places r ≡ named_places self.now ++ places_bound (target_places self.now) (option_map (λ u. uid_loc u.now.value) uid.entry)) }
    {
        match (self, uid) {
            (EntityReference::EUID(uid), _) => Ok(EntityReference::EUID(uid.clone()?)),
            (EntityReference::Slot(_), Some(uid)) => Ok(EntityReference::EUID(uid.clone()?)),
            (EntityReference::Slot(loc), None) => Ok(EntityReference::Slot(*loc)),
        }
    }
}

/// What a scope asks of principal or resource.
#[derive(Debug, PartialEq, Eq, Drop)]
pub enum PrincipalOrResourceConstraint {
    /// Nothing.
    Any,

    /// That it is in this entity.
    In(EntityReference),

    /// That it is this entity.
    Eq(EntityReference),

    /// That it is of this type.
    Is(Rc<EntityType>),

    /// That it is of this type and in this entity.
    IsIn(Rc<EntityType>, EntityReference),
}

impl PrincipalOrResourceConstraint {
    /// What the constraint asks, as an expression. Fails only when out of memory.
    pub fn as_expr(&self, alloc: Global, part: PrincipalOrResource) -> Result<Expr, AllocError>
        ensures { IfOk result (λ e. tree_of e ≡ scope_tree (part_var part) (part_slot part) (scope_of self.now)) }
    {
        match self {
            PrincipalOrResourceConstraint::Any => Ok(Expr::val(Literal::Bool(true))),
            PrincipalOrResourceConstraint::In(target) => is_inside(alloc, part, target),
            PrincipalOrResourceConstraint::Eq(target) => is_exactly(alloc, part, target),
            PrincipalOrResourceConstraint::Is(kind) => is_of_kind(alloc, part, kind),
            PrincipalOrResourceConstraint::IsIn(kind, target) => {
                let of_kind = is_of_kind(alloc, part, kind)?;
                let inside = is_inside(alloc, part, target)?;
                Expr::and(alloc, of_kind, inside)
            }
        }
    }

    /// The constraint with the uid that the slot is bound to, if there is one, in the slot's place.
    pub fn with_filled_slot(
        &self,
        uid: Option<&Rc<EntityUID>>,
    ) -> Result<PrincipalOrResourceConstraint, AllocError>
        ensures scope { IfOk result (λ c. scope_of c ≡ filled (option_map (λ u. uid_of u.now.value) uid.entry) (scope_of self.now)) }
        ensures places { IfOk result (λ c. scope_places c ≡ places_left (option_map (λ u. uid_of u.now.value) uid.entry) (scope_places self.now)) }
        ensures named { IfOk result (λ c. scope_named_places c ≡ scope_named_places self.now ++ places_bound (scope_places self.now) (option_map (λ u. uid_loc u.now.value) uid.entry)) }
    {
        match self {
            PrincipalOrResourceConstraint::Any => Ok(PrincipalOrResourceConstraint::Any),
            PrincipalOrResourceConstraint::In(target) => {
                Ok(PrincipalOrResourceConstraint::In(target.with_filled_slot(uid)?))
            }
            PrincipalOrResourceConstraint::Eq(target) => {
                Ok(PrincipalOrResourceConstraint::Eq(target.with_filled_slot(uid)?))
            }
            PrincipalOrResourceConstraint::Is(kind) => {
                Ok(PrincipalOrResourceConstraint::Is(kind.clone()?))
            }
            PrincipalOrResourceConstraint::IsIn(kind, target) => {
                let target = target.with_filled_slot(uid)?;
                Ok(PrincipalOrResourceConstraint::IsIn(kind.clone()?, target))
            }
        }
    }
}

// That the variable of this part is what is named.
fn is_exactly(
    alloc: Global,
    part: PrincipalOrResource,
    target: &EntityReference,
) -> Result<Expr, AllocError>
    ensures { IfOk result (λ e. tree_of e ≡ binary equal (var (part_var part)) (target_tree (part_slot part) (target_of target.now))) }
{
    let target = target.as_expr(part.slot())?;
    Expr::is_eq(alloc, Expr::var(part.var()), target)
}

// That the variable of this part is in what is named.
fn is_inside(
    alloc: Global,
    part: PrincipalOrResource,
    target: &EntityReference,
) -> Result<Expr, AllocError>
    ensures { IfOk result (λ e. tree_of e ≡ binary is_in (var (part_var part)) (target_tree (part_slot part) (target_of target.now))) }
{
    let target = target.as_expr(part.slot())?;
    Expr::is_in(alloc, Expr::var(part.var()), target)
}

// That the variable of this part is of this type.
fn is_of_kind(
    alloc: Global,
    part: PrincipalOrResource,
    kind: &Rc<EntityType>,
) -> Result<Expr, AllocError>
    ensures { IfOk result (λ e. tree_of e ≡ is_type (var (part_var part)) (type_name_of kind.now.value)) }
{
    let kind = EntityType::clone(kind)?;
    Expr::is_entity_type(alloc, Expr::var(part.var()), kind)
}

/// What a scope asks of the principal.
#[derive(Debug, PartialEq, Eq, Drop)]
pub struct PrincipalConstraint {
    /// What it asks.
    pub constraint: PrincipalOrResourceConstraint,
}

impl PrincipalConstraint {
    /// Nothing is asked.
    pub fn any() -> PrincipalConstraint
        ensures scope { scope_of result.constraint ≡ any }
        ensures places { scope_places result.constraint ≡ [] }
        ensures named { scope_named_places result.constraint ≡ [] }
    {
        PrincipalConstraint {
            constraint: PrincipalOrResourceConstraint::Any,
        }
    }
}

/// What a scope asks of the resource.
#[derive(Debug, PartialEq, Eq, Drop)]
pub struct ResourceConstraint {
    /// What it asks.
    pub constraint: PrincipalOrResourceConstraint,
}

impl ResourceConstraint {
    /// Nothing is asked.
    pub fn any() -> ResourceConstraint
        ensures scope { scope_of result.constraint ≡ any }
        ensures places { scope_places result.constraint ≡ [] }
        ensures named { scope_named_places result.constraint ≡ [] }
    {
        ResourceConstraint {
            constraint: PrincipalOrResourceConstraint::Any,
        }
    }
}

/// What a scope asks of the action.
#[derive(Debug, PartialEq, Eq, Drop)]
pub enum ActionConstraint {
    /// Nothing.
    Any,

    /// That it is in one of these actions.
    In(Vec<Rc<EntityUID>>),

    /// That it is this action.
    Eq(Rc<EntityUID>),
}

impl ActionConstraint {
    /// Nothing is asked.
    pub fn any() -> ActionConstraint
        ensures scope { action_scope_of result ≡ any_action }
        ensures places { action_places result ≡ [] }
    {
        ActionConstraint::Any
    }

    /// What the constraint asks, as an expression. Fails only when out of memory.
    pub fn as_expr(&self, alloc: Global) -> Result<Expr, AllocError>
        ensures { IfOk result (λ e. tree_of e ≡ action_tree (action_scope_of self.now)) }
    {
        match self {
            ActionConstraint::Any => Ok(Expr::val(Literal::Bool(true))),
            ActionConstraint::In(uids) => {
                let actions = Expr::set(alloc, written(alloc, uids.as_slice())?)?;
                Expr::is_in(alloc, Expr::var(Var::Action), actions)
            }
            ActionConstraint::Eq(uid) => {
                let uid = Expr::val(Literal::EntityUID(uid.clone()?));
                Expr::is_eq(alloc, Expr::var(Var::Action), uid)
            }
        }
    }
}

// These uids, each as its literal.
fn written(alloc: Global, uids: &[Rc<EntityUID>]) -> Result<Vec<Expr>, AllocError>
    ensures { IfOk result (λ es. map tree_of es.items ≡ map (λ v. lit (entity v)) (map (λ u. uid_of u.value) uids.now)) }
{
    let mut exprs = Vec::new(alloc);
    for uid in uids {
        exprs.push(Expr::val(Literal::EntityUID(uid.clone()?)))?;
    }
    Ok(exprs)
}

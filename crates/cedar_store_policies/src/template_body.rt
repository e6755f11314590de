//! The parts of a template, and what they ask together.

ghost use Rattle.std.specs.Prelude.{◌≡◌, ◌++◌, [], unwrap_or, map, option_map, IfOk, OnOk};
ghost use Rattle.cedar_expr_model.specs.Parts.{slots};
ghost use Rattle.cedar_expr_trees.specs.Positions.{slot_placed};
ghost use Rattle.cedar_expr_trees.specs.Trees.{tree_of};
ghost use Rattle.cedar_store_model.specs.Policy.{condition, scope_tree, body_tree};
ghost use Rattle.cedar_store_parts.specs.Parts.{part_var, part_slot, scope_of, scope_places};
ghost use Rattle.cedar_store_policies.specs.Places.{slots_at, slots_placed, slots_within};
ghost use Rattle.cedar_store_policies.specs.TemplateParts.{made_of, body_places, slot_ids};

use cedar_expr_leaves::{Literal, Slot};
use cedar_expr_names::Loc;
use cedar_expr_trees::Expr;
use cedar_store_parts::{
    ActionConstraint, Annotations, Effect, EntityReference, PolicyID, PrincipalConstraint,
    PrincipalOrResource, PrincipalOrResourceConstraint, ResourceConstraint,
};
use std::alloc::{AllocError, Global};
use std::rc::Rc;

// The parts of a template.
pub(crate) struct TemplateBody {
    pub(crate) id: PolicyID,
    pub(crate) loc: Option<Loc>,
    pub(crate) annotations: Rc<Annotations>,
    pub(crate) effect: Effect,
    pub(crate) principal_constraint: PrincipalConstraint,
    pub(crate) action_constraint: ActionConstraint,
    pub(crate) resource_constraint: ResourceConstraint,
    pub(crate) non_scope_constraint: Option<Rc<Expr>>,
}

// A drop of its own is one step to the proof of a function that may drop a template; a derived one is a step for each field.
impl Drop for TemplateBody {
    fn drop(self) {
        let TemplateBody {
            id: _,
            loc: _,
            annotations: _,
            effect: _,
            principal_constraint: _,
            action_constraint: _,
            resource_constraint: _,
            non_scope_constraint: _,
        } = self;
    }
}

impl TemplateBody {
    // What the parts of the scope ask, and then the body, joined from the right.
    pub(crate) fn condition(&self, alloc: Global) -> Result<Expr, AllocError>
        ensures { IfOk result (λ e. tree_of e ≡ condition (made_of self.now)) }
    {
        let body = match &self.non_scope_constraint {
            None => Expr::val(Literal::Bool(true)),
            Some(body) => Expr::clone(body)?,
        };
        let resource = self
            .resource_constraint
            .constraint
            .as_expr(alloc, PrincipalOrResource::Resource)?;
        let rest = Expr::and(alloc, resource, body)?;
        let action = self.action_constraint.as_expr(alloc)?;
        let rest = Expr::and(alloc, action, rest)?;
        let principal = self
            .principal_constraint
            .constraint
            .as_expr(alloc, PrincipalOrResource::Principal)?;
        Expr::and(alloc, principal, rest)
    }

    // The slots, each occurrence, with their places: those of the scope, and then those of the body.
    pub(crate) fn slots(&self, alloc: Global) -> Result<Vec<Slot>, AllocError>
        ensures places { IfOk result (λ ss. map slot_placed ss.items ≡ slots_placed (body_places self.now)) }
        ensures ids { IfOk result (λ ss. slot_ids ss.items ≡ slots (condition (made_of self.now))) }
    {
        let mut found = Vec::new(alloc);
        let principal = &self.principal_constraint.constraint;
        push_asked(&mut found, PrincipalOrResource::Principal, principal)?;
        let resource = &self.resource_constraint.constraint;
        push_asked(&mut found, PrincipalOrResource::Resource, resource)?;
        push_body(alloc, &mut found, &self.non_scope_constraint)?;
        Ok(found)
    }
}

// Puts the slot of this part of a scope behind those that were found, if one stands there.
fn push_asked(
    found: &mut Vec<Slot>,
    part: PrincipalOrResource,
    asked: &PrincipalOrResourceConstraint,
) -> Result<(), AllocError>
    ensures places { OnOk result (map slot_placed found.new.items ≡ map slot_placed found.old.items ++ slots_at (part_slot part) (scope_places asked.now)) }
    ensures ids { OnOk result (slot_ids found.new.items ≡ slot_ids found.old.items ++ slots (scope_tree (part_var part) (part_slot part) (scope_of asked.now))) }
{
    match asked {
        PrincipalOrResourceConstraint::Any | PrincipalOrResourceConstraint::Is(_) => Ok(()),
        PrincipalOrResourceConstraint::In(target)
        | PrincipalOrResourceConstraint::Eq(target)
        | PrincipalOrResourceConstraint::IsIn(_, target) => match target {
            EntityReference::EUID(_) => Ok(()),
            EntityReference::Slot(loc) => {
                let id = part.slot();
                found.push(Slot { id, loc: *loc })?;
                Ok(())
            }
        },
    }
}

// Puts the slots of a body behind those that were found, each occurrence.
fn push_body(
    alloc: Global,
    found: &mut Vec<Slot>,
    body: &Option<Rc<Expr>>,
) -> Result<(), AllocError>
    ensures places { OnOk result (map slot_placed found.new.items ≡ map slot_placed found.old.items ++ unwrap_or (option_map (λ e. slots_within e.value) body.now) []) }
    ensures ids { OnOk result (slot_ids found.new.items ≡ slot_ids found.old.items ++ slots (body_tree (option_map (λ e. tree_of e.value) body.now))) }
{
    match body {
        None => Ok(()),
        Some(body) => push_slots(alloc, found, body),
    }
}

// Puts the slots of an expression behind those that were found, each occurrence.
fn push_slots(alloc: Global, found: &mut Vec<Slot>, e: &Expr) -> Result<(), AllocError>
    ensures places { OnOk result (map slot_placed found.new.items ≡ map slot_placed found.old.items ++ slots_within e.now) }
    ensures ids { OnOk result (slot_ids found.new.items ≡ slot_ids found.old.items ++ slots (tree_of e.now)) }
{
    for slot in e.slots(alloc)? {
        found.push(slot)?;
    }
    Ok(())
}

//! Policies with the places of their parts.

ghost use Rattle.std.specs.Prelude.{◌≡◌, IfOk, map, option_map};
ghost use Rattle.cedar_expr_names.specs.Views.{uid_of};
ghost use Rattle.cedar_expr_trees.specs.Trees.{tree_of};
ghost use Rattle.cedar_store_parts.specs.Parts.{scope_of, action_scope_of};
ghost use Rattle.cedar_store_policies.specs.Policies.{policy_of, template_behind};
ghost use Rattle.cedar_store_policies.specs.Templates.{template_of};

use crate::findings::{Finding, add};
use cedar_expr_names::{EntityUID, Loc};
use cedar_expr_trees::Expr;
use cedar_gate_places::{Places, Step, placed};
use cedar_store_parts::{
    ActionConstraint, PrincipalConstraint, PrincipalOrResource, PrincipalOrResourceConstraint,
    ResourceConstraint,
};
use cedar_store_policies::{Policy, Template};
use std::alloc::{AllocError, Global};
use std::fmt::Write;
use std::rc::Rc;

/// A policy with its number in the bundle, and its template, of which each part of the body has a place.
#[derive(Drop)]
pub struct Subject<'p> {
    pub policy: &'p Policy,
    pub number: usize,
    pub template: Template,
    places: Places,
}

impl<'p> Subject<'p> {
    /// The policy of this number in the bundle.
    pub fn new(alloc: Global, policy: &'p Policy, number: usize) -> Result<Subject<'p>, AllocError>
        ensures { IfOk result (λ s. template_of s.template ≡ template_behind policy.entry.now) }
    {
        let mut places = Places::new(alloc);
        let body = placed_body(alloc, &mut places, policy)?;
        let template = with_body(alloc, policy.template(), body)?;
        Ok(Subject {
            policy,
            number,
            template,
            places,
        })
    }

    /// Appends the pointer of the policy.
    pub fn push_path(&self, out: &mut String) -> Result<(), AllocError> {
        write!(out, "/policies/{}", self.number)
    }

    /// The parts of the condition, each with where it is in the policy: what the scope asks of principal, action and resource, and the
    /// body.
    pub fn parts(&self, alloc: Global) -> Result<Vec<(&'static str, Expr)>, AllocError> {
        let mut parts = Vec::new(alloc);
        let asked = &self.template.principal_constraint().constraint;
        let principal = asked.as_expr(alloc, PrincipalOrResource::Principal)?;
        parts.push(("/principal", principal))?;
        let action = self.template.action_constraint().as_expr(alloc)?;
        parts.push(("/action", action))?;
        let asked = &self.template.resource_constraint().constraint;
        let resource = asked.as_expr(alloc, PrincipalOrResource::Resource)?;
        parts.push(("/resource", resource))?;
        if let Some(body) = self.template.non_scope_constraints() {
            parts.push(("/when", body.clone()?))?;
        }
        Ok(parts)
    }

    /// The first part of the scope in which one of these faults is, or else the body.
    pub fn scope_blamed(
        &self,
        alloc: Global,
        found: &[Finding],
    ) -> Result<&'static str, AllocError> {
        for part in ["/principal", "/action", "/resource"] {
            if self.is_blamed(alloc, found, part)? {
                return Ok(part);
            }
        }
        match self.template.non_scope_constraints() {
            Some(_) => Ok("/when"),
            None => Ok(""),
        }
    }

    // Whether one of these faults is in this part of the policy.
    fn is_blamed(&self, alloc: Global, found: &[Finding], part: &str) -> Result<bool, AllocError> {
        let path = self.pointer_in(alloc, part)?;
        for one in found {
            if one.path.as_str() == path.as_str() {
                return Ok(true);
            }
        }
        Ok(false)
    }

    // The pointer of this part of the policy.
    fn pointer_in(&self, alloc: Global, part: &str) -> Result<String, AllocError> {
        let mut path = String::new(alloc);
        self.push_path(&mut path)?;
        path.push_str(part)?;
        Ok(path)
    }

    // The pointer of the place, or else of this part of the policy.
    fn pointer(&self, alloc: Global, place: Option<Loc>, part: &str) -> Result<String, AllocError> {
        match place {
            Some(place) => {
                let mut path = self.pointer_in(alloc, "/when")?;
                self.places.push_way(alloc, &mut path, place)?;
                Ok(path)
            }
            None => self.pointer_in(alloc, part),
        }
    }

    /// Adds a fault of the policy at this place, or else in this part of the policy.
    pub fn add(
        &self,
        alloc: Global,
        found: &mut Vec<Finding>,
        fault: (u32, String),
        place: Option<Loc>,
        part: &str,
    ) -> Result<(), AllocError> {
        let (number, words) = fault;
        let path = self.pointer(alloc, place, part)?;
        let id = Some(self.policy.id().clone()?);
        let finding = Finding {
            number,
            words,
            id,
            path,
        };
        add(found, finding)
    }
}

// A copy of the policy's body, if it has one, each part with its place.
fn placed_body(
    alloc: Global,
    places: &mut Places,
    policy: &Policy,
) -> Result<Option<Rc<Expr>>, AllocError>
    ensures { IfOk result (λ b. option_map (λ e. tree_of e.value) b ≡ (policy_of policy.now).body) }
{
    match policy.non_scope_constraints() {
        Some(body) => {
            let body = placed(alloc, places, body, Step::Whole)?;
            Ok(Some(Rc::new(alloc, body)?))
        }
        None => Ok(None),
    }
}

// A copy of the template with this body in the place of its own.
fn with_body(
    alloc: Global,
    template: &Template,
    body: Option<Rc<Expr>>,
) -> Result<Template, AllocError>
    ensures { option_map (λ e. tree_of e.value) body ≡ (template_of template.now).body → IfOk result (λ t. template_of t ≡ template_of template.now) }
{
    let constraint = scope_copied(&template.principal_constraint().constraint)?;
    let principal = PrincipalConstraint { constraint };
    let constraint = scope_copied(&template.resource_constraint().constraint)?;
    let resource = ResourceConstraint { constraint };
    let action = action_copied(alloc, template.action_constraint())?;
    let id = template.id().clone()?;
    let annotations = template.annotations_arc().clone()?;
    let effect = template.effect();
    Template::new_shared(
        alloc,
        id,
        None,
        annotations,
        effect,
        principal,
        action,
        resource,
        body,
    )
}

// A copy of what is asked of the principal or of the resource.
#[tactic(auto, using(crate::proofs::Copying::unfilled))]
fn scope_copied(
    asked: &PrincipalOrResourceConstraint,
) -> Result<PrincipalOrResourceConstraint, AllocError>
    ensures { IfOk result (λ c. scope_of c ≡ scope_of asked.now) }
{
    asked.with_filled_slot(None)
}

// A copy of what is asked of the action.
fn action_copied(alloc: Global, asked: &ActionConstraint) -> Result<ActionConstraint, AllocError>
    ensures { IfOk result (λ a. action_scope_of a ≡ action_scope_of asked.now) }
{
    match asked {
        ActionConstraint::Any => Ok(ActionConstraint::Any),
        ActionConstraint::Eq(uid) => Ok(ActionConstraint::Eq(uid.clone()?)),
        ActionConstraint::In(uids) => {
            let uids = uids_copied(alloc, uids.as_slice())?;
            Ok(ActionConstraint::In(uids))
        }
    }
}

// The same uids, which are shared.
fn uids_copied(alloc: Global, uids: &[Rc<EntityUID>]) -> Result<Vec<Rc<EntityUID>>, AllocError>
    ensures { IfOk result (λ us. map (λ u. uid_of u.value) us.items ≡ map (λ u. uid_of u.value) uids.now) }
{
    let mut copied = Vec::new(alloc);
    for uid in uids {
        copied.push(uid.clone()?)?;
    }
    Ok(copied)
}

//! Policies.

ghost use Rattle.std.specs.Prelude.{◌≡◌, ◌++◌, [], Some, IfOk, map, option_map, unwrap_or};
ghost use Rattle.std.specs.Option.{option_map_or};
ghost use Rattle.cedar_expr_trees.specs.Trees.{tree_of};
ghost use Rattle.cedar_store_model.specs.Policy.{any, any_action, no_bindings, condition as asked_by};
ghost use Rattle.cedar_store_model.specs.PolicySet.{linked};
ghost use Rattle.cedar_store_parts.specs.Parts.{id_text, effect_of, annotation_pair, annotations_of, seen_pair, annotations_seen, scope_of, scope_places, scope_named_places, action_scope_of, action_places, bindings_of, binding_places, filled, places_left, places_bound};
ghost use Rattle.cedar_store_policies.specs.Places.{places_made, slots_within, nodes_within};
ghost use Rattle.cedar_store_policies.specs.Policies.{static_of, static_loc, static_places, policy_of, policy_loc, policy_places, policy_bound, template_behind};
ghost use Rattle.cedar_store_policies.specs.Seen.{none_bound};
ghost use Rattle.cedar_store_policies.specs.Templates.{template_of, template_loc, places_of};

use crate::static_policy::StaticPolicy;
use crate::template::Template;
use cedar_expr_leaves::SlotId;
use cedar_expr_names::{AnyId, Loc};
use cedar_expr_trees::Expr;
use cedar_store_parts::{
    ActionConstraint, Annotation, Annotations, Effect, PolicyID, PrincipalConstraint,
    ResourceConstraint, SlotEnv,
};
use std::alloc::{AllocError, Global};
use std::collections::btree_map::Iter;
use std::rc::Rc;

/// A policy: a template, what its slots are bound to, and the id under which it is linked. A policy that isn't linked has
/// its template's id.
pub struct Policy {
    template: Rc<Template>,
    link: Option<PolicyID>,
    values: SlotEnv,
}

// prover: see ARCHITECTURE
impl Drop for Policy {
    fn drop(self) {
        let Policy {
            template: _,
            link: _,
            values: _,
        } = self;
    }
}

impl Policy {
    /// The policy of a template under an id of its own, or under the template's, with these bindings.
    pub fn new(template: Rc<Template>, link: Option<PolicyID>, values: SlotEnv) -> Policy
        ensures policy { policy_of result ≡ linked (template_of template.value) (option_map_or id_text link (template_of template.value).id) (bindings_of values) }
        ensures template { template_behind result ≡ template_of template.value }
        ensures place { policy_loc result ≡ template_loc template.value }
        ensures places { policy_places result ≡ places_of template.value }
        ensures bound { policy_bound result ≡ binding_places values }
    {
        Policy {
            template,
            link,
            values,
        }
    }

    /// The policy of a policy without slots. Fails only when out of memory.
    pub fn from_static_policy(alloc: Global, policy: StaticPolicy) -> Result<Policy, AllocError>
        ensures policy { IfOk result (λ p. policy_of p ≡ static_of policy) }
        ensures template { IfOk result (λ p. template_behind p ≡ static_of policy) }
        ensures place { IfOk result (λ p. policy_loc p ≡ static_loc policy) }
        ensures places { IfOk result (λ p. policy_places p ≡ static_places policy) }
        ensures bound { IfOk result (λ p. policy_bound p ≡ none_bound) }
    {
        let template = Rc::new(alloc, policy.into_template())?;
        Ok(Policy::new(template, None, SlotEnv::new()))
    }

    /// A policy for any request, with this body, at a place. Fails only when out of memory.
    pub fn from_when_clause(
        alloc: Global,
        effect: Effect,
        when: Expr,
        id: PolicyID,
        loc: Option<Loc>,
    ) -> Result<Policy, AllocError>
        ensures policy { IfOk result (λ p. policy_of p ≡ record {
          id = id_text id;
          effect = effect_of effect;
          annotations = [];
          principal = any;
          action = any_action;
          resource = any;
          body = Some (tree_of when);
          bindings = no_bindings;
        }) }
        ensures template { IfOk result (λ p. template_behind p ≡ policy_of p) }
        ensures place { IfOk result (λ p. policy_loc p ≡ loc) }
        ensures places { IfOk result (λ p. policy_places p ≡ record {
          own = loc;
          annotations = [];
          principal = [];
          resource = [];
          body = slots_within when;
          principal_named = [];
          action_named = [];
          resource_named = [];
          nodes = nodes_within when;
        }) }
        ensures bound { IfOk result (λ p. policy_bound p ≡ none_bound) }
    {
        let when = Rc::new(alloc, when)?;
        let annotations = Rc::new(alloc, Annotations::new(alloc))?;
        Policy::from_when_clause_annos(alloc, effect, when, id, loc, annotations)
    }

    /// A policy for any request, with this body and these annotations, which are shared, at a place. Fails only when out of memory.
    pub fn from_when_clause_annos(
        alloc: Global,
        effect: Effect,
        when: Rc<Expr>,
        id: PolicyID,
        loc: Option<Loc>,
        annotations: Rc<Annotations>,
    ) -> Result<Policy, AllocError>
        ensures policy { IfOk result (λ p. policy_of p ≡ record {
          id = id_text id;
          effect = effect_of effect;
          annotations = annotations_of annotations.value;
          principal = any;
          action = any_action;
          resource = any;
          body = Some (tree_of when.value);
          bindings = no_bindings;
        }) }
        ensures template { IfOk result (λ p. template_behind p ≡ policy_of p) }
        ensures place { IfOk result (λ p. policy_loc p ≡ loc) }
        ensures places { IfOk result (λ p. policy_places p ≡ record {
          own = loc;
          annotations = annotations_seen annotations.value;
          principal = [];
          resource = [];
          body = slots_within when.value;
          principal_named = [];
          action_named = [];
          resource_named = [];
          nodes = nodes_within when.value;
        }) }
        ensures bound { IfOk result (λ p. policy_bound p ≡ none_bound) }
    {
        let template = Template::new_shared(
            alloc,
            id,
            loc,
            annotations,
            effect,
            PrincipalConstraint::any(),
            ActionConstraint::any(),
            ResourceConstraint::any(),
            Some(when),
        )?;
        let template = Rc::new(alloc, template)?;
        Ok(Policy::new(template, None, SlotEnv::new()))
    }

    /// The template that the policy is made of.
    pub fn template(&self) -> &Rc<Template>
        ensures template { template_of result.now.value ≡ template_behind self.now }
        ensures places { places_of result.now.value ≡ policy_places self.now }
    {
        &self.template
    }

    /// The policy's id.
    pub fn id(&self) -> &PolicyID
        ensures { id_text result.now ≡ (policy_of self.now).id }
    {
        match &self.link {
            None => self.template.id(),
            Some(id) => id,
        }
    }

    /// The place of the policy's template.
    pub fn loc(&self) -> Option<Loc>
        ensures place { result ≡ policy_loc self.now }
        ensures places { result ≡ (policy_places self.now).own }
    {
        self.template.loc()
    }

    /// What the policy does where it is satisfied.
    pub fn effect(&self) -> Effect
        ensures { effect_of result ≡ (policy_of self.now).effect }
    {
        self.template.effect()
    }

    /// The condition: what the scope asks of principal, action and resource, and then the body, joined from the right.
    pub fn condition(&self) -> &Expr
        ensures { tree_of result.now ≡ asked_by (policy_of self.now) }
    {
        self.template.condition()
    }

    /// What the slots are bound to.
    pub fn env(&self) -> &SlotEnv
        ensures bindings { bindings_of result.now ≡ (policy_of self.now).bindings }
        ensures places { binding_places result.now ≡ policy_bound self.now }
    {
        &self.values
    }

    /// Goes over the annotations, in the order of their names.
    pub fn annotations(&self) -> Iter<'_, AnyId, Annotation>
        ensures texts { map annotation_pair result ≡ (policy_of self.now).annotations }
        ensures places { map seen_pair result ≡ (policy_places self.now).annotations }
    {
        self.template.annotations()
    }

    /// The annotations, shared.
    pub fn annotations_arc(&self) -> &Rc<Annotations>
        ensures texts { annotations_of result.now.value ≡ (policy_of self.now).annotations }
        ensures places { annotations_seen result.now.value ≡ (policy_places self.now).annotations }
    {
        self.template.annotations_arc()
    }

    /// What the scope asks of the principal, with what its slot is bound to in the slot's place. Fails only when out of memory.
    pub fn principal_constraint(&self) -> Result<PrincipalConstraint, AllocError>
        ensures scope { IfOk result (λ c. scope_of c.constraint ≡ filled (policy_of self.now).bindings.principal (policy_of self.now).principal) }
        ensures places { IfOk result (λ c. scope_places c.constraint ≡ places_left (policy_of self.now).bindings.principal (policy_places self.now).principal) }
        ensures named { IfOk result (λ c. scope_named_places c.constraint ≡ (policy_places self.now).principal_named ++ places_bound (policy_places self.now).principal (policy_bound self.now).principal) }
    {
        let bound = self.values.get(SlotId::principal());
        let asked = &self.template.principal_constraint().constraint;
        Ok(PrincipalConstraint {
            constraint: asked.with_filled_slot(bound)?,
        })
    }

    /// What the scope asks of the action.
    pub fn action_constraint(&self) -> &ActionConstraint
        ensures scope { action_scope_of result.now ≡ (policy_of self.now).action }
        ensures places { action_places result.now ≡ (policy_places self.now).action_named }
    {
        self.template.action_constraint()
    }

    /// What the scope asks of the resource, with what its slot is bound to in the slot's place. Fails only when out of memory.
    pub fn resource_constraint(&self) -> Result<ResourceConstraint, AllocError>
        ensures scope { IfOk result (λ c. scope_of c.constraint ≡ filled (policy_of self.now).bindings.resource (policy_of self.now).resource) }
        ensures places { IfOk result (λ c. scope_places c.constraint ≡ places_left (policy_of self.now).bindings.resource (policy_places self.now).resource) }
        ensures named { IfOk result (λ c. scope_named_places c.constraint ≡ (policy_places self.now).resource_named ++ places_bound (policy_places self.now).resource (policy_bound self.now).resource) }
    {
        let bound = self.values.get(SlotId::resource());
        let asked = &self.template.resource_constraint().constraint;
        Ok(ResourceConstraint {
            constraint: asked.with_filled_slot(bound)?,
        })
    }

    /// The body, if there is one.
    pub fn non_scope_constraints(&self) -> Option<&Expr>
        ensures tree { option_map (λ e. tree_of e.now) result ≡ (policy_of self.now).body }
        ensures places { unwrap_or (option_map (λ e. slots_within e.now) result) [] ≡ (policy_places self.now).body }
        ensures nodes { unwrap_or (option_map (λ e. nodes_within e.now) result) [] ≡ (policy_places self.now).nodes }
    {
        self.template.non_scope_constraints()
    }
}

impl Clone for Policy {
    ghost is_clone = { λ p copy. (policy_of copy ≡ policy_of p) × (template_behind copy ≡ template_behind p) × (policy_loc copy ≡ policy_loc p) × (policy_places copy ≡ policy_places p) × (policy_bound copy ≡ policy_bound p) };

    /// A copy of the policy that shares its template.
    fn clone(&self) -> Result<Policy, AllocError> {
        let template = self.template.clone()?;
        let link = match &self.link {
            None => None,
            Some(id) => Some(id.clone()?),
        };
        let values = self.values.clone()?;
        Ok(Policy {
            template,
            link,
            values,
        })
    }
}

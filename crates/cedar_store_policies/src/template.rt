//! Templates.

ghost use Rattle.std.specs.Prelude.{◌≡◌, map};
ghost use Rattle.cedar_expr_model.specs.Parts.{slots as slots_in};
ghost use Rattle.cedar_expr_trees.specs.Positions.{slot_placed};
ghost use Rattle.cedar_expr_trees.specs.Trees.{tree_of};
ghost use Rattle.cedar_store_model.specs.Policy.{condition as asked_by};
ghost use Rattle.cedar_store_policies.specs.Places.{slots_placed};
ghost use Rattle.cedar_store_policies.specs.TemplateParts.{made_of, body_places, slot_ids};
ghost use Rattle.cedar_store_policies.specs.Sets.{tree_set};

use crate::bindings::stands_among;
use crate::template_body::TemplateBody;
use cedar_expr_leaves::{Slot, SlotId};
use cedar_expr_names::{AnyId, Loc};
use cedar_expr_trees::Expr;
use cedar_store_parts::{
    ActionConstraint, Annotation, Annotations, Effect, PolicyID, PrincipalConstraint,
    ResourceConstraint,
};
use std::alloc::{AllocError, Global};
use std::collections::btree_map;
use std::rc::Rc;
use std::slice;

/// A policy in which slots may stand, none of them bound. It keeps its condition.
pub struct Template {
    body: TemplateBody,
    condition: Expr,
    slots: Vec<Slot>,
    ghost joined: { tree_of condition ≡ asked_by (made_of body) } by { tree_set _ _ },
    ghost gathered: { slot_ids slots.items ≡ slots_in (asked_by (made_of body)) },
    ghost placed: { map slot_placed slots.items ≡ slots_placed (body_places body) },
}

// A drop of its own is one step to the proof of a function that may drop a template; a derived one is a step for each field.
impl Drop for Template {
    fn drop(self) {
        let Template {
            body: _,
            condition: _,
            slots: _,
        } = self;
    }
}

impl Template {
    ghost use Rattle.std.specs.Prelude.{[], IfOk, option_map, unwrap_or};
    ghost use Rattle.std.specs.Slice.Iter.{iter_rest};
    ghost use Rattle.cedar_expr_leaves.specs.Slots.{slot_of};
    ghost use Rattle.cedar_store_model.specs.Policy.{has_slot as uses_slot};
    ghost use Rattle.cedar_store_policies.specs.TemplateParts.{template_made};
    ghost use Rattle.cedar_store_parts.specs.Parts.{id_text, effect_of, annotation_pair, annotations_of, seen_pair, annotations_seen, scope_of, scope_places, scope_named_places, action_scope_of, action_places};
    ghost use Rattle.cedar_store_policies.specs.Places.{places_made, slots_within, nodes_within};
    ghost use Rattle.cedar_store_policies.specs.Templates.{template_of, template_loc, places_of};
    ghost use Rattle.cedar_store_policies.specs.Lists.{first_of};

    /// The template of these parts, at a place. Fails only when out of memory.
    pub fn new(
        alloc: Global,
        id: PolicyID,
        loc: Option<Loc>,
        annotations: Annotations,
        effect: Effect,
        principal_constraint: PrincipalConstraint,
        action_constraint: ActionConstraint,
        resource_constraint: ResourceConstraint,
        non_scope_constraint: Option<Expr>,
    ) -> Result<Template, AllocError>
        ensures parts { IfOk result (λ t. template_of t ≡ template_made id effect annotations principal_constraint action_constraint resource_constraint (option_map tree_of non_scope_constraint)) }
        ensures place { IfOk result (λ t. template_loc t ≡ loc) }
        ensures places { IfOk result (λ t. places_of t ≡ places_made loc annotations principal_constraint action_constraint resource_constraint (option_map slots_within non_scope_constraint) (option_map nodes_within non_scope_constraint)) }
    {
        let annotations = Rc::new(alloc, annotations)?;
        let non_scope_constraint = match non_scope_constraint {
            None => None,
            Some(e) => Some(Rc::new(alloc, e)?),
        };
        Template::new_shared(
            alloc,
            id,
            loc,
            annotations,
            effect,
            principal_constraint,
            action_constraint,
            resource_constraint,
            non_scope_constraint,
        )
    }

    /// The template of these parts, at a place; annotations and body are shared. Fails only when out of memory.
    pub fn new_shared(
        alloc: Global,
        id: PolicyID,
        loc: Option<Loc>,
        annotations: Rc<Annotations>,
        effect: Effect,
        principal_constraint: PrincipalConstraint,
        action_constraint: ActionConstraint,
        resource_constraint: ResourceConstraint,
        non_scope_constraint: Option<Rc<Expr>>,
    ) -> Result<Template, AllocError>
        ensures parts { IfOk result (λ t. template_of t ≡ template_made id effect annotations.value principal_constraint action_constraint resource_constraint (option_map (λ e. tree_of e.value) non_scope_constraint)) }
        ensures place { IfOk result (λ t. template_loc t ≡ loc) }
        ensures places { IfOk result (λ t. places_of t ≡ places_made loc annotations.value principal_constraint action_constraint resource_constraint (option_map (λ e. slots_within e.value) non_scope_constraint) (option_map (λ e. nodes_within e.value) non_scope_constraint)) }
    {
        let body = TemplateBody {
            id,
            loc,
            annotations,
            effect,
            principal_constraint,
            action_constraint,
            resource_constraint,
            non_scope_constraint,
        };
        let condition = body.condition(alloc)?;
        let slots = body.slots(alloc)?;
        Ok(Template {
            body,
            condition,
            slots,
        })
    }

    /// The template's id.
    pub fn id(&self) -> &PolicyID
        ensures { id_text result.now ≡ (template_of self.now).id }
    {
        &self.body.id
    }

    /// The template's place.
    pub fn loc(&self) -> Option<Loc>
        ensures place { result ≡ template_loc self.now }
        ensures places { result ≡ (places_of self.now).own }
    {
        self.body.loc
    }

    /// What its policies do where they are satisfied.
    pub fn effect(&self) -> Effect
        ensures { effect_of result ≡ (template_of self.now).effect }
    {
        self.body.effect
    }

    /// Goes over the annotations, in the order of their names.
    pub fn annotations(&self) -> btree_map::Iter<'_, AnyId, Annotation>
        ensures texts { map annotation_pair result ≡ (template_of self.now).annotations }
        ensures places { map seen_pair result ≡ (places_of self.now).annotations }
    {
        self.body.annotations.iter()
    }

    /// The annotations, shared.
    pub fn annotations_arc(&self) -> &Rc<Annotations>
        ensures texts { annotations_of result.now.value ≡ (template_of self.now).annotations }
        ensures places { annotations_seen result.now.value ≡ (places_of self.now).annotations }
    {
        &self.body.annotations
    }

    /// What the scope asks of the principal.
    pub fn principal_constraint(&self) -> &PrincipalConstraint
        ensures scope { scope_of result.now.constraint ≡ (template_of self.now).principal }
        ensures places { scope_places result.now.constraint ≡ (places_of self.now).principal }
        ensures named { scope_named_places result.now.constraint ≡ (places_of self.now).principal_named }
    {
        &self.body.principal_constraint
    }

    /// What the scope asks of the action.
    pub fn action_constraint(&self) -> &ActionConstraint
        ensures scope { action_scope_of result.now ≡ (template_of self.now).action }
        ensures places { action_places result.now ≡ (places_of self.now).action_named }
    {
        &self.body.action_constraint
    }

    /// What the scope asks of the resource.
    pub fn resource_constraint(&self) -> &ResourceConstraint
        ensures scope { scope_of result.now.constraint ≡ (template_of self.now).resource }
        ensures places { scope_places result.now.constraint ≡ (places_of self.now).resource }
        ensures named { scope_named_places result.now.constraint ≡ (places_of self.now).resource_named }
    {
        &self.body.resource_constraint
    }

    /// The body, if there is one.
    pub fn non_scope_constraints(&self) -> Option<&Expr>
        ensures tree { option_map (λ e. tree_of e.now) result ≡ (template_of self.now).body }
        ensures places { unwrap_or (option_map (λ e. slots_within e.now) result) [] ≡ (places_of self.now).body }
        ensures nodes { unwrap_or (option_map (λ e. nodes_within e.now) result) [] ≡ (places_of self.now).nodes }
    {
        match &self.body.non_scope_constraint {
            None => None,
            Some(body) => Some(body),
        }
    }

    /// The condition: what the scope asks of principal, action and resource, and then the body, joined from the right.
    pub fn condition(&self) -> &Expr
        ensures { tree_of result.now ≡ asked_by (template_of self.now) }
    {
        &self.condition
    }

    /// Whether the slot stands in the condition.
    pub fn has_slot(&self, slot: SlotId) -> bool
        ensures { result ≡ uses_slot (template_of self.now) (slot_of slot) }
    {
        stands_among(self.slots.as_slice(), slot)
    }

    // The first slot in the condition, if there is one.
    pub(crate) fn first_slot(&self) -> Option<Slot>
        ensures id { option_map (λ s. slot_of s.id) result ≡ first_of (slots_in (asked_by (template_of self.now))) }
        ensures place { option_map slot_placed result ≡ first_of (slots_placed (places_of self.now)) }
    {
        self.slots.first().copied()
    }

    /// The slots in the condition, each occurrence, with their places.
    pub fn slots(&self) -> slice::Iter<'_, Slot>
        ensures ids { slot_ids (iter_rest result) ≡ slots_in (asked_by (template_of self.now)) }
        ensures places { map slot_placed (iter_rest result) ≡ slots_placed (places_of self.now) }
    {
        self.slots.iter()
    }
}

//! Policies without slots.

ghost use Rattle.std.specs.Prelude.{◌≡◌, true};
ghost use Rattle.cedar_store_model.specs.PolicySet.{is_static};
ghost use Rattle.cedar_store_policies.specs.Templates.{template_of};

use crate::template::Template;
use cedar_expr_names::Loc;
use cedar_expr_trees::Expr;
use cedar_store_parts::{
    ActionConstraint, Annotations, Effect, PolicyID, PrincipalConstraint, ResourceConstraint,
    UnexpectedSlotError,
};
use std::alloc::Global;

/// A policy in which no slot stands.
pub struct StaticPolicy {
    template: Template,
    ghost has_no_slots: { is_static (template_of template) ≡ true },
}

// prover: see ARCHITECTURE
impl Drop for StaticPolicy {
    fn drop(self) {
        let StaticPolicy { template: _ } = self;
    }
}

impl StaticPolicy {
    ghost use Rattle.std.specs.Prelude.{IfOk, IfErr, option_map};
    ghost use Rattle.cedar_expr_trees.specs.Trees.{tree_of};
    ghost use Rattle.cedar_store_parts.specs.Parts.{id_text};
    ghost use Rattle.cedar_store_policies.specs.TemplateParts.{template_made};
    ghost use Rattle.cedar_store_policies.specs.Policies.{static_of, static_loc, static_places};
    ghost use Rattle.cedar_store_policies.specs.Places.{places_made, slots_placed, slots_within, nodes_within};
    ghost use Rattle.cedar_store_policies.specs.Templates.{template_loc, places_of};
    ghost use Rattle.cedar_store_policies.specs.Refusals.{RefusesSlot, RefusesSlotAt};

    /// The policy of these parts, at a place. Refuses a slot in the scope or the body, and fails when out of memory.
    pub fn new(
        alloc: Global,
        id: PolicyID,
        loc: Option<Loc>,
        annotations: Annotations,
        effect: Effect,
        principal_constraint: PrincipalConstraint,
        action_constraint: ActionConstraint,
        resource_constraint: ResourceConstraint,
        non_scope_constraints: Option<Expr>,
    ) -> Result<StaticPolicy, UnexpectedSlotError>
        ensures parts { IfOk result (λ p. static_of p ≡ template_made id effect annotations principal_constraint action_constraint resource_constraint (option_map tree_of non_scope_constraints)) }
        ensures no_slots { IfOk result (λ p. is_static (static_of p) ≡ true) }
        ensures place { IfOk result (λ p. static_loc p ≡ loc) }
        ensures places { IfOk result (λ p. static_places p ≡ places_made loc annotations principal_constraint action_constraint resource_constraint (option_map slots_within non_scope_constraints) (option_map nodes_within non_scope_constraints)) }
        ensures refused { IfErr result (RefusesSlot (template_made id effect annotations principal_constraint action_constraint resource_constraint (option_map tree_of non_scope_constraints))) }
        ensures refused_at { IfErr result (RefusesSlotAt (slots_placed (places_made loc annotations principal_constraint action_constraint resource_constraint (option_map slots_within non_scope_constraints) (option_map nodes_within non_scope_constraints)))) }
    {
        let template = Template::new(
            alloc,
            id,
            loc,
            annotations,
            effect,
            principal_constraint,
            action_constraint,
            resource_constraint,
            non_scope_constraints,
        )?;
        match template.first_slot() {
            None => Ok(StaticPolicy { template }),
            Some(slot) => Err(UnexpectedSlotError::FoundSlot(slot)),
        }
    }

    /// The policy's id.
    pub fn id(&self) -> &PolicyID
        ensures { id_text result.now ≡ (static_of self.now).id }
    {
        self.template.id()
    }

    /// The policy as a template, without a copy.
    pub fn into_template(self) -> Template
        ensures template { template_of result ≡ static_of self }
        ensures place { template_loc result ≡ static_loc self }
        ensures places { places_of result ≡ static_places self }
    {
        let StaticPolicy { template } = self;
        template
    }
}

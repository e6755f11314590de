//! Worked examples of policies and answers, computed. Each function's contract is what comes out; its body does nothing.

ghost use Rattle.std.specs.Prelude.{◌≡◌, Bool, true, false, Option, Some, None, ℤ, pos, codes, [], ◌∷◌};
ghost use Rattle.cedar_expr_model.specs.Value.{Literal, truth, entity, truth_value};
ghost use Rattle.cedar_expr_model.specs.Tree.{Tree, lit, var, slot, both, binary, is_type, set_literal, principal, action, resource, principal_slot, resource_slot, equal, is_in, nesting};
ghost use Rattle.cedar_store_model.specs.Outcome.{val, err, missing_entity, missing_field, wrong_type, overflow, unlinked_slot};
ghost use Rattle.cedar_store_model.specs.Operators.{says};
ghost use Rattle.cedar_store_model.specs.Policy.{Policy, permit, forbid, no_bindings, condition, tree_uses, has_slot, binding_of};
ghost use Rattle.cedar_store_model.specs.AnswerLaws.{scope_uses};
ghost use Rattle.cedar_store_model.specs.PolicySet.{is_static, is_taken, template_of, linked, with_policy, add_policy, add_template, link, has_link_fault, id_present, slot_not_bound, slot_not_of_template, no_template};
ghost use Rattle.cedar_store_model.specs.OfLaws.Distinct.{has_distinct_ids};
ghost use Rattle.cedar_store_model.specs.Answer.{allow, deny, answer_of, policy_outcome, satisfied};
ghost use Rattle.cedar_store_model.specs.Worked.{user, user_a, user_b, team, doc_d, view, edit, plain, number, uid, says_true, two_trees, world, world_without_b, nothing_loaded, a_loaded, principal_open};
ghost use Rattle.cedar_store_model.specs.WorkedPolicies.{too_large, owners_boss, for_a, if_ok, not_if_ok, by_boss, always, if_bad, not_if_bad, never, no_truth, template, to_a, to_team, to_both, linked_l, many_parts, no_edit, empty_set, with_t, with_l, for_joined, for_actions, by_joined, by_parted};

/// Conditions: the parts of the scope and the body, joined from the right; two truth values are joined to their literal.
pub fn worked_conditions()
    ensures of_template { condition linked_l ≡ both (binary is_in (var principal) (slot principal_slot)) says_true }
    ensures its_nesting { nesting (condition linked_l) ≡ 3 }
    ensures of_anything { condition always ≡ says_true }
    ensures of_uid { condition for_a ≡ both (binary equal (var principal) (uid user_a)) says_true }
    ensures of_all { condition many_parts ≡ both (both (is_type (var principal) user) (binary is_in (var principal) (slot principal_slot)))
        (both (binary is_in (var action) (set_literal (two_trees (uid view) (uid edit)))) (both (is_type (var resource) user) (binary equal (var principal) (slot resource_slot)))) }
    ensures of_forbid { condition no_edit ≡ both says_true (both (binary equal (var action) (uid edit)) (both (binary equal (var resource) (slot resource_slot)) says_true)) }
{}

/// Slots: those of the scope, and those of the body.
pub fn worked_slots()
    ensures in_scope { scope_uses template principal_slot ≡ true }
    ensures not_in_scope { scope_uses many_parts resource_slot ≡ false }
    ensures in_body { has_slot many_parts resource_slot ≡ true }
    ensures not_in_body { tree_uses (binary equal (var principal) (slot resource_slot)) principal_slot ≡ false }
    ensures of_resource { has_slot no_edit resource_slot ≡ true }
    ensures not_of_principal { has_slot no_edit principal_slot ≡ false }
    ensures static_policy { is_static for_a ≡ true }
    ensures no_static_policy { is_static template ≡ false }
    ensures linked_is_not_static { is_static linked_l ≡ false }
    ensures bound { binding_of to_a principal_slot ≡ Some user_a }
    ensures unbound { binding_of to_a resource_slot ≡ None }
{}

/// Linking a template, and why it is refused.
pub fn worked_linking()
    ensures links { link with_t (codes "t") (codes "l") to_a ≡ Some with_l }
    ensures no_binding { link with_t (codes "t") (codes "l") no_bindings ≡ None }
    ensures no_binding_fault { has_link_fault with_t (codes "t") (codes "l") no_bindings slot_not_bound ≡ true }
    ensures stray { link with_t (codes "t") (codes "l") to_both ≡ None }
    ensures stray_fault { has_link_fault with_t (codes "t") (codes "l") to_both slot_not_of_template ≡ true }
    ensures again { link with_l (codes "t") (codes "l") to_a ≡ None }
    ensures again_fault { has_link_fault with_l (codes "t") (codes "l") to_a id_present ≡ true }
    ensures template_id { has_link_fault with_t (codes "t") (codes "t") to_a id_present ≡ true }
    ensures from_nothing { link with_t (codes "x") (codes "l") to_a ≡ None }
    ensures from_nothing_fault { has_link_fault with_t (codes "x") (codes "l") to_a no_template ≡ true }
    ensures from_policy { has_link_fault with_l (codes "l") (codes "k") to_a no_template ≡ true }
    ensures bound_fault { has_link_fault with_t (codes "t") (codes "l") to_a slot_not_bound ≡ false }
    ensures no_stray_fault { has_link_fault with_t (codes "t") (codes "l") to_a slot_not_of_template ≡ false }
    ensures no_id_fault { has_link_fault with_t (codes "t") (codes "l") to_a id_present ≡ false }
    ensures template_there { has_link_fault with_t (codes "t") (codes "l") to_a no_template ≡ false }
{}

/// Ids are used once.
pub fn worked_sets()
    ensures added { add_template empty_set template ≡ Some with_t }
    ensures policy_added { add_policy with_t linked_l ≡ Some with_l }
    ensures policy_with_taken_id { add_policy with_l linked_l ≡ None }
    ensures template_with_taken_id { add_template with_l template ≡ None }
    ensures template_with_policy_id { add_template with_l (linked template (codes "l") no_bindings) ≡ None }
    ensures taken { is_taken (codes "l") with_l ≡ true }
    ensures not_taken { is_taken (codes "x") with_l ≡ false }
    ensures found { template_of (codes "t") with_l ≡ Some template }
    ensures no_template { template_of (codes "l") with_l ≡ None }
    ensures distinct { has_distinct_ids with_l ≡ true }
    ensures twice { has_distinct_ids (record empty_set { policies = for_a ∷ always ∷ for_a ∷ [] }) ≡ false }
    ensures twice_across { has_distinct_ids (with_policy with_t template) ≡ false }
{}

/// Answers over the whole store.
pub fn worked_answers()
    ensures allowed { answer_of world (owners_boss ∷ []) ≡ record { decision = allow; reasons = codes "p0" ∷ []; errors = [] } }
    ensures overflows { answer_of world (too_large ∷ []) ≡ record { decision = deny; reasons = []; errors = record { id = codes "p4"; fault = overflow } ∷ [] } }
    ensures absent { answer_of world_without_b (owners_boss ∷ []) ≡ record { decision = deny; reasons = []; errors = record { id = codes "p0"; fault = missing_entity user_b } ∷ [] } }
    ensures by_attribute { answer_of world (if_ok ∷ []) ≡ record { decision = allow; reasons = codes "p6" ∷ []; errors = [] } }
    ensures by_choice { answer_of world (by_boss ∷ []) ≡ record { decision = allow; reasons = codes "p7" ∷ []; errors = [] } }
    ensures by_link { answer_of world (linked_l ∷ []) ≡ record { decision = allow; reasons = codes "l" ∷ []; errors = [] } }
    ensures by_ancestor { satisfied world (linked template (codes "k") to_team) ≡ true }
    ensures not_linked { answer_of world (template ∷ []) ≡ record { decision = deny; reasons = []; errors = record { id = codes "t"; fault = unlinked_slot } ∷ [] } }
    ensures forbidden { answer_of world (owners_boss ∷ for_a ∷ not_if_ok ∷ []) ≡ record { decision = deny; reasons = codes "p2" ∷ []; errors = [] } }
    ensures no_policy { answer_of world [] ≡ record { decision = deny; reasons = []; errors = [] } }
    ensures no_truth_value { answer_of world (no_truth ∷ []) ≡ record { decision = deny; reasons = []; errors = record { id = codes "n"; fault = wrong_type } ∷ [] } }
    ensures errors_kept { answer_of world (always ∷ if_bad ∷ not_if_bad ∷ []) ≡ record { decision = allow; reasons = codes "1" ∷ []; errors = record { id = codes "2"; fault = missing_field } ∷ record { id = codes "3"; fault = missing_field } ∷ [] } }
    ensures forbid_wins { answer_of world (always ∷ if_bad ∷ not_if_bad ∷ never ∷ []) ≡ record { decision = deny; reasons = codes "4" ∷ []; errors = record { id = codes "2"; fault = missing_field } ∷ record { id = codes "3"; fault = missing_field } ∷ [] } }
    ensures in_order { answer_of world (for_a ∷ always ∷ []) ≡ record { decision = allow; reasons = codes "p1" ∷ codes "1" ∷ []; errors = [] } }
    ensures other_action { satisfied world no_edit ≡ false }
    ensures other_resource { satisfied world many_parts ≡ false }
{}

/// Policies where only some is known.
pub fn worked_partial_answers()
    ensures not_known { policy_outcome nothing_loaded linked_l ≡ None }
    ensures known { policy_outcome a_loaded linked_l ≡ Some (says true) }
    ensures without_store { policy_outcome nothing_loaded for_a ≡ Some (says true) }
    ensures open { policy_outcome principal_open for_a ≡ None }
    ensures anything { policy_outcome principal_open always ≡ Some (says true) }
    ensures overflows { policy_outcome principal_open too_large ≡ Some (err overflow) }
    ensures not_satisfied { satisfied nothing_loaded linked_l ≡ false }
{}

/// Uids are told apart by the parts of their types, be these well-formed names or not.
pub fn worked_types()
    ensures the_same { satisfied by_joined for_joined ≡ true }
    ensures another { satisfied by_parted for_joined ≡ false }
    ensures among_actions { satisfied by_parted for_actions ≡ true }
    ensures also_among { satisfied by_joined for_actions ≡ true }
    ensures not_among { satisfied world for_actions ≡ false }
{}

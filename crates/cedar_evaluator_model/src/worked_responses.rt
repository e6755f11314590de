//! Worked examples of partial responses and of reauthorizing, computed. Each function's contract is what comes out; its body does
//! nothing.

ghost use Rattle.std.specs.Prelude.{◌≡◌, Bool, true, false, Some, None, codes, map, [], ◌∷◌};
ghost use Rattle.cedar_expr_model.specs.Value.{text, entity};
ghost use Rattle.cedar_expr_model.specs.Tree.{long_core, principal, action, resource, context, lit, unknown, both, binary, equal, call, no_trees, tree, no_tree_fields, tree_field};
ghost use Rattle.cedar_expr_model.specs.Made.{made_prim, made_set, made_record, no_mades, no_made_fields, made_field};
ghost use Rattle.cedar_store_model.specs.Outcome.{missing_field, wrong_type, extension_failed};
ghost use Rattle.cedar_store_model.specs.Policy.{permit, forbid};
ghost use Rattle.cedar_store_model.specs.Answer.{allow, deny, ids};
ghost use Rattle.cedar_evaluator_model.specs.Scope.{uid, unknown_uid, closed, residual_fields, unknown_context, limit, fault};
ghost use Rattle.cedar_evaluator_model.specs.Response.{no_error, with_error, stops, no_value, noted, request_of, response_of};
ghost use Rattle.cedar_evaluator_model.specs.Members.{decision, must_be_determining, may_be_determining, definitely_satisfied, definitely_errored, nontrivial_residuals, nontrivial_residual_ids, nontrivial_forbids, all_residuals, get, left_policy, concretize, met_limit, decision_in_session, bounds_in_session};
ghost use Rattle.cedar_evaluator_model.specs.Reauthorize.{makes_it, refuses, repeated_id, wrong_value, known_already, other_type, context_stops, entry_bound, context_bound, context_substituted, request_bound, reauthorized};
ghost use Rattle.cedar_evaluator_model.specs.Worked.{user, user_a, user_b, doc_d, rank, number, made_number, made_truth, true_tree, false_tree, unknown_a, unknown_u, scope, bare_scope, value_of, with_context, deep_context};
ghost use Rattle.cedar_evaluator_model.specs.WorkedResponses.{note, test, policy_1, policy_2, policy_3, three, permit_false, permit_unknown, forbid_unknown, with_slot, two, all_1, bad_2, bad_3, all_4, groups, without_forbid, permits_alone, ns_a, ns_b, half, half_scope, no_bound, bound, resource_b, true_and_ten, with_resource, with_all, decided_now, refusal, deep_policy};

/// A satisfied permit with annotations, a false forbid and a residual permit: the groups, no error, and Allow.
pub fn worked_groups()
    ensures decision { decision three ≡ Some allow }
    ensures true_permits { three.true_permits ≡ noted policy_1 ∷ [] }
    ensures residual_permits { three.residual_permits ≡ (note (codes "3"), both true_tree (both true_tree (both true_tree test))) ∷ [] }
    ensures false_forbids { three.false_forbids ≡ (note (codes "2"), no_error) ∷ [] }
    ensures no_forbids { three.true_forbids ≡ [] }
    ensures no_errors { three.errors ≡ [] }
    ensures request { three.request ≡ request_of scope }
    ensures slot { with_slot.residual_permits ≡ (note (codes "s"), both true_tree (both true_tree (both true_tree (both unknown_a (binary equal (lit (entity user_a)) (lit (entity user_a))))))) ∷ [] }
{}

/// Decisions: a satisfied forbid; no permit left; a residual forbid; a residual permit alone.
pub fn worked_decisions()
    ensures forbidden { decision groups ≡ Some deny }
    ensures nothing_permits { decision (response_of scope 16 (permit_false ∷ forbid_unknown ∷ [])) ≡ Some deny }
    ensures forbid_left { decision without_forbid ≡ None }
    ensures permit_left { decision two ≡ None }
    ensures permitted { decision permits_alone ≡ Some allow }
    ensures no_policy { decision (response_of scope 16 []) ≡ Some deny }
{}

/// The policies that must and may determine the decision, the satisfied, those that erred and the residual ones, in their orders.
pub fn worked_members()
    ensures must { ids (must_be_determining groups) ≡ codes "e" ∷ [] }
    ensures must_without { ids (must_be_determining without_forbid) ≡ [] }
    ensures must_permits { ids (must_be_determining permits_alone) ≡ codes "a" ∷ [] }
    ensures may { ids (may_be_determining groups) ≡ codes "e" ∷ codes "h" ∷ [] }
    ensures may_without { ids (may_be_determining without_forbid) ≡ codes "a" ∷ codes "d" ∷ codes "h" ∷ [] }
    ensures satisfied { definitely_satisfied without_forbid ≡ left_policy permit (note (codes "a")) true_tree ∷ [] }
    ensures satisfied_both { ids (definitely_satisfied groups) ≡ codes "a" ∷ codes "e" ∷ [] }
    ensures errored { definitely_errored groups ≡ codes "b" ∷ [] }
    ensures nontrivial { nontrivial_residuals groups ≡ left_policy permit (note (codes "d")) unknown_a ∷ left_policy forbid (note (codes "h")) unknown_a ∷ [] }
    ensures nontrivial_ids { nontrivial_residual_ids groups ≡ codes "d" ∷ codes "h" ∷ [] }
    ensures forbids { nontrivial_forbids groups ≡ left_policy forbid (note (codes "h")) unknown_a ∷ [] }
    ensures all { ids (all_residuals groups) ≡ codes "a" ∷ codes "b" ∷ codes "c" ∷ codes "d" ∷ codes "e" ∷ codes "h" ∷ [] }
    ensures one { get groups (codes "b") ≡ Some (left_policy permit (note (codes "b")) false_tree) }
    ensures one_forbid { get groups (codes "h") ≡ Some (left_policy forbid (note (codes "h")) unknown_a) }
    ensures none { get groups (codes "z") ≡ None }
    ensures residual_first { get (record groups { residual_permits = (note (codes "a"), test) ∷ []; true_forbids = note (codes "a") ∷ [] }) (codes "a") ≡ Some (left_policy permit (note (codes "a")) test) }
{}

/// As an answer each residual is an error: forbids first, then permits, then the errors that were.
pub fn worked_concretize()
    ensures allowed { concretize (response_of bare_scope 16 (all_1 ∷ bad_2 ∷ bad_3 ∷ [])) ≡ record { decision = allow; reasons = codes "1" ∷ []; errors = record { id = codes "2"; cause = stops (fault missing_field) } ∷ record { id = codes "3"; cause = stops (fault missing_field) } ∷ [] } }
    ensures denied { concretize (response_of bare_scope 16 (all_1 ∷ bad_2 ∷ bad_3 ∷ all_4 ∷ [])) ≡ record { decision = deny; reasons = codes "4" ∷ []; errors = record { id = codes "2"; cause = stops (fault missing_field) } ∷ record { id = codes "3"; cause = stops (fault missing_field) } ∷ [] } }
    ensures residuals { concretize without_forbid ≡ record { decision = allow; reasons = []; errors = record { id = codes "h"; cause = no_value unknown_a } ∷ record { id = codes "d"; cause = no_value unknown_a } ∷ [] } }
    ensures nothing { concretize (response_of bare_scope 16 []) ≡ record { decision = deny; reasons = []; errors = [] } }
    ensures number { (concretize (response_of bare_scope 16 (record all_1 { body = Some (number 1) } ∷ []))).errors ≡ record { id = codes "1"; cause = stops (fault wrong_type) } ∷ [] }
{}

/// In a session a policy that met the limit counts as open, even beside a satisfied forbid; bounds are in policy order.
pub fn worked_sessions()
    ensures met { met_limit (response_of (with_context deep_context) 6 (deep_policy ∷ [])) ≡ true }
    ensures not_met { met_limit (response_of (with_context deep_context) 7 (deep_policy ∷ [])) ≡ false }
    ensures as_member { decision (response_of (with_context deep_context) 6 (deep_policy ∷ [])) ≡ Some deny }
    ensures open_ { decision_in_session (response_of (with_context deep_context) 6 (deep_policy ∷ [])) ≡ None }
    ensures beside_forbid { decision_in_session (response_of (with_context deep_context) 6 (deep_policy ∷ all_4 ∷ [])) ≡ None }
    ensures no_bounds { bounds_in_session (deep_policy ∷ []) (response_of (with_context deep_context) 6 (deep_policy ∷ [])) ≡ None }
    ensures decided { decision_in_session (response_of scope 16 (policy_1 ∷ [])) ≡ Some allow }
    ensures bounds { bounds_in_session (forbid_unknown ∷ permit_unknown ∷ all_1 ∷ permit_false ∷ []) (response_of scope 16 (forbid_unknown ∷ permit_unknown ∷ all_1 ∷ permit_false ∷ [])) ≡ Some (record { must = []; may = codes "x" ∷ codes "a" ∷ codes "1" ∷ [] }) }
    ensures bounds_forbid { bounds_in_session (permit_unknown ∷ forbid_unknown ∷ all_4 ∷ []) (response_of scope 16 (permit_unknown ∷ forbid_unknown ∷ all_4 ∷ [])) ≡ Some (record { must = codes "4" ∷ []; may = codes "x" ∷ codes "4" ∷ [] }) }
{}

/// Reauthorizing with a value for the unknown decides; the request of a chain is bound part by part.
pub fn worked_reauthorized()
    ensures denied { decided_now (reauthorized scope 16 (bound (codes "a") (made_truth false) no_bound) two) ≡ Some deny }
    ensures allowed { decided_now (reauthorized scope 16 (bound (codes "a") (made_truth true) no_bound) two) ≡ Some allow }
    ensures unbound { decided_now (reauthorized scope 16 no_bound two) ≡ None }
    ensures number { decided_now (reauthorized scope 16 (bound (codes "a") (made_number 1) no_bound) two) ≡ Some deny }
    ensures half_open { decided_now with_resource ≡ None }
    ensures slot { decided_now (reauthorized scope 16 (bound (codes "a") (made_truth true) no_bound) with_slot) ≡ Some allow }
    ensures chain { decided_now with_all ≡ Some deny }
    ensures repeated { refusal (reauthorized scope 16 no_bound (record groups { residual_forbids = (note (codes "a"), test) ∷ [] })) ≡ Some (repeated_id (codes "a")) }
    ensures known { refusal (reauthorized bare_scope 32 (bound (codes "principal") (made_prim (entity ns_a)) no_bound) half) ≡ Some (known_already principal) }
    ensures no_uid { refusal (reauthorized bare_scope 32 (bound (codes "resource") (made_number 5) no_bound) half) ≡ Some (wrong_value resource) }
    ensures record_known { refusal (reauthorized bare_scope 32 (bound (codes "context") (made_record no_made_fields) no_bound) half) ≡ Some (known_already context) }
{}

/// What binds an entry and a context, and what doesn't.
pub fn worked_bindings()
    ensures entry { entry_bound principal (unknown_uid (Some user)) (Some (made_prim (entity user_a))) ≡ makes_it (uid user_a) }
    ensures entry_untyped { entry_bound principal (unknown_uid None) (Some (made_prim (entity doc_d))) ≡ makes_it (uid doc_d) }
    ensures entry_other { entry_bound principal (unknown_uid (Some user)) (Some (made_prim (entity doc_d))) ≡ refuses (other_type principal) }
    ensures entry_known { entry_bound action (uid user_a) (Some (made_prim (entity user_a))) ≡ refuses (known_already action) }
    ensures entry_number { entry_bound action (uid user_a) (Some (made_number 5)) ≡ refuses (wrong_value action) }
    ensures entry_unbound { entry_bound resource (unknown_uid None) None ≡ makes_it (unknown_uid None) }
    ensures record { context_bound unknown_context (Some (made_record no_made_fields)) ≡ makes_it (closed no_made_fields) }
    ensures record_known { context_bound (closed no_made_fields) (Some (made_record no_made_fields)) ≡ refuses (known_already context) }
    ensures no_record { context_bound (closed no_made_fields) (Some (made_number 5)) ≡ refuses (wrong_value context) }
    ensures unbound { context_bound unknown_context None ≡ makes_it unknown_context }
{}

/// The unknowns of a residual context are replaced, whatever their annotations, and it is evaluated again.
pub fn worked_contexts()
    ensures value { context_substituted scope (value_of (codes "u") (made_number 1)) (residual_fields (tree_field (codes "x") (unknown (codes "u") (Some long_core)) no_tree_fields)) ≡ makes_it (closed (made_field (codes "x") (made_number 1) no_made_fields)) }
    ensures unasked { context_substituted scope (value_of (codes "u") (made_truth true)) (residual_fields (tree_field (codes "x") (unknown (codes "u") (Some long_core)) no_tree_fields)) ≡ makes_it (closed (made_field (codes "x") (made_truth true) no_made_fields)) }
    ensures still_residual { context_substituted scope (value_of (codes "u") (made_truth true)) (residual_fields (tree_field (codes "x") unknown_u (tree_field (codes "y") unknown_a no_tree_fields))) ≡ makes_it (residual_fields (tree_field (codes "x") true_tree (tree_field (codes "y") unknown_a no_tree_fields))) }
    ensures stops { context_substituted scope (value_of (codes "u") (made_prim (text []))) (residual_fields (tree_field (codes "x") (call rank (tree unknown_u no_trees)) no_tree_fields)) ≡ refuses (context_stops (fault (extension_failed rank))) }
    ensures as_it_is { context_substituted scope (value_of (codes "u") (made_number 1)) (closed (made_field (codes "x") (made_truth true) no_made_fields)) ≡ makes_it (closed (made_field (codes "x") (made_truth true) no_made_fields)) }
{}

//! Worked examples of what is known, of completions, and of standing for an expression. Each function's contract is what holds; its
//! body does nothing.

ghost use Rattle.std.specs.Prelude.{◌≡◌, true, false, Some, None, codes, pos, [], ◌∷◌};
ghost use Rattle.cedar_expr_model.specs.Value.{prim, long, text, entity, record_of, no_fields, truth_value};
ghost use Rattle.cedar_expr_model.specs.Tree.{bool_core, long_core, principal, context, principal_slot, lit, var, slot, unknown, get_attr, has_attr, both, unary, negation, no_tree_fields, tree_field};
ghost use Rattle.cedar_expr_model.specs.Made.{made_set, made_record, made_extension, no_mades, made, no_made_fields, made_field};
ghost use Rattle.cedar_store_model.specs.Outcome.{val, err, wrong_type, overflow};
ghost use Rattle.cedar_expr_model.specs.ValueParts.{known, left};
ghost use Rattle.cedar_store_model.specs.World.{held, missing, not_loaded};
ghost use Rattle.cedar_store_model.specs.Meaning.{outcome_of};
ghost use Rattle.cedar_evaluator_model.specs.Scope.{unknown_uid, uid, closed, residual_fields, unknown_context, fault, limit, value_left, residual, stopped};
ghost use Rattle.cedar_evaluator_model.specs.OfLaws.Calls.{Agrees};
ghost use Rattle.cedar_evaluator_model.specs.Steps.{truth_left};
ghost use Rattle.cedar_evaluator_model.specs.Known.{known_world};
ghost use Rattle.cedar_evaluator_model.specs.OfLaws.Whole.{LeavesNothing, NothingUnknown, AllLoaded, AllBoundTo};
ghost use Rattle.cedar_evaluator_model.specs.OfLaws.WellMade.{IsWellMade, AllMadeWell};
ghost use Rattle.cedar_evaluator_model.specs.Completion.{FitsAnnotations};
ghost use Rattle.cedar_evaluator_model.specs.OfLaws.Completing.{EntryMeans, ContextMeans, PartMeans, FoundMeans, Completes};
ghost use Rattle.cedar_evaluator_model.specs.OfLaws.Standing.{StandsFor, IsOutcome, LeavesUnbound, NoLimit};
ghost use Rattle.cedar_evaluator_model.specs.Worked.{user, doc, user_a, user_b, doc_d, number, made_number, made_truth, true_tree, false_tree, unknown_a, unknown_u, rank, entity_d, scope, open_scope, with_value, with_context, deep_context, standing_b};
ghost use Rattle.cedar_evaluator_model.specs.Evaluation.{evaluated};
ghost use Rattle.cedar_expr_model.specs.Uid.{uid_text};
ghost use Rattle.cedar_evaluator_model.specs.WorkedCompletions.{twin, other_twin, TwinsAreNeverOpen, some_loaded, IsCompletable, open_request, completed, bound_slots, other_kind, other_name, whole_scope};

/// What a scope knows as values: known parts, and nothing of the unknown ones.
pub fn worked_known()
    ensures principal { (known_world scope).principal ≡ Some user_a }
    ensures open_principal { (known_world open_scope).principal ≡ None }
    ensures context { (known_world scope).context ≡ Some (record_of no_fields) }
    ensures open_context { (known_world (with_context deep_context)).context ≡ None }
    ensures bound { (known_world (with_value (codes "u") (made_number 7))).unknowns (codes "u") ≡ Some (prim (long (pos 7))) }
    ensures unbound { (known_world scope).unknowns (codes "u") ≡ None }
    ensures attribute { outcome_of (known_world scope) (get_attr (var principal) (codes "boss")) ≡ Some (val (prim (entity user_b))) }
    ensures residual_attribute { outcome_of (known_world scope) (get_attr (var principal) (codes "ok")) ≡ None }
    ensures residual_is_there { outcome_of (known_world scope) (has_attr (var principal) (codes "ok")) ≡ Some (val (truth_value true)) }
    ensures not_loaded { outcome_of (known_world scope) (has_attr (lit (entity user_b)) (codes "ok")) ≡ None }
{}

/// Calls that answer as the table does; unknowns that calls leave; scopes with nothing unknown, and those with something.
pub fn worked_knowledge()
    ensures agree { Agrees scope }
    ensures unbound { LeavesUnbound scope }
    ensures leaves { LeavesNothing scope.table → ⊥ }
    ensures nothing { LeavesNothing whole_scope.table }
    ensures known { NothingUnknown whole_scope }
    ensures unknown_principal { NothingUnknown open_scope → ⊥ }
    ensures loaded { AllLoaded whole_scope }
    ensures some_not { AllLoaded scope → ⊥ }
    ensures bound { AllBoundTo (with_value (codes "u") (made_number 7)) (unknown (codes "u") (Some long_core)) }
    ensures misfit { AllBoundTo (with_value (codes "u") (made_number 7)) (unknown (codes "u") (Some bool_core)) → ⊥ }
    ensures open_ { AllBoundTo scope unknown_u → ⊥ }
{}

/// A world completes an open request where each unknown part is of its type and is what the unknown of its name means.
pub fn worked_completes()
    ensures completes { Completes completed open_request }
    ensures other_kind { Completes other_kind open_request → ⊥ }
    ensures other_name { Completes other_name open_request → ⊥ }
    ensures entry { EntryMeans completed (codes "principal") (unknown_uid None) (Some user_a) }
    ensures entry_of_kind { EntryMeans completed (codes "resource") (unknown_uid (Some doc)) (Some doc_d) }
    ensures entry_of_other_kind { EntryMeans completed (codes "resource") (unknown_uid (Some user)) (Some doc_d) → ⊥ }
    ensures known_entry { EntryMeans completed (codes "principal") (uid user_b) (Some user_a) → ⊥ }
{}

/// Contexts, parts and entities in a completion.
pub fn worked_parts()
    ensures context { ContextMeans completed (residual_fields (tree_field (codes "x") unknown_u no_tree_fields)) (Some (record_of no_fields)) → ⊥ }
    ensures closed { ContextMeans completed (closed no_made_fields) (Some (record_of no_fields)) }
    ensures unknown { ContextMeans completed unknown_context (Some (record_of no_fields)) }
    ensures value { PartMeans completed (Some (known (made_number 1))) (Some (known (prim (long (pos 1))))) }
    ensures residual { PartMeans completed (Some (left unknown_u)) (Some (known (truth_value true))) }
    ensures residual_misfit { PartMeans completed (Some (left (unknown (codes "u") (Some long_core)))) (Some (known (truth_value true))) → ⊥ }
    ensures other_value { PartMeans completed (Some (left unknown_u)) (Some (known (truth_value false))) → ⊥ }
    ensures slot { PartMeans bound_slots (Some (left (slot principal_slot))) (Some (known (prim (entity user_a)))) → ⊥ }
    ensures lacking { PartMeans completed None (Some (known (truth_value true))) → ⊥ }
    ensures missing { FoundMeans completed user_a missing missing }
    ensures lost { FoundMeans completed doc_d (held entity_d) missing → ⊥ }
    ensures not_loaded { FoundMeans completed user_b not_loaded missing }
    ensures misnamed { FoundMeans completed user_a not_loaded missing → ⊥ }
{}

/// Annotations: the unknown `u` means true, which is a truth value and no whole number.
pub fn worked_annotations()
    ensures fits { FitsAnnotations completed (unknown (codes "u") (Some bool_core)) }
    ensures none { FitsAnnotations completed unknown_u }
    ensures misfit { FitsAnnotations completed (both unknown_u (unknown (codes "u") (Some long_core))) → ⊥ }
{}

/// What stands for an expression: its value, its error or another one, an expression of the same meaning; and what doesn't.
pub fn worked_standing()
    ensures value { StandsFor completed unknown_u (truth_left true) }
    ensures other_value { StandsFor completed unknown_u (truth_left false) → ⊥ }
    ensures other_error { StandsFor completed (unary negation (number 1)) (stopped (fault overflow)) }
    ensures no_error { StandsFor completed unknown_u (stopped (fault wrong_type)) → ⊥ }
    ensures limit { StandsFor completed unknown_u (stopped limit) }
    ensures itself { StandsFor completed unknown_u (residual unknown_u) }
    ensures alike { StandsFor completed unknown_u (residual (both true_tree unknown_a)) }
    ensures unlike { StandsFor completed unknown_u (residual (both false_tree unknown_a)) → ⊥ }
    ensures outcome { IsOutcome (val (truth_value true)) (truth_left true) }
    ensures other_outcome { IsOutcome (err wrong_type) (stopped (fault overflow)) → ⊥ }
    ensures limit_met { NoLimit scope 2 (unary negation (unary negation true_tree)) → ⊥ }
    ensures limit_not_met { NoLimit scope 3 (unary negation (unary negation true_tree)) }
{}

/// Well-made values: the call that an extension value is written as answers it, and the members of a set rise.
pub fn worked_well_made()
    ensures literal { IsWellMade scope.table (made_number 1) }
    ensures rank { IsWellMade scope.table (made_extension rank (codes "7") rank (text (codes "7") ∷ [])) }
    ensures other_key { IsWellMade scope.table (made_extension rank (codes "8") rank (text (codes "7") ∷ [])) → ⊥ }
    ensures no_function { IsWellMade whole_scope.table (made_extension rank (codes "7") rank (text (codes "7") ∷ [])) → ⊥ }
    ensures rises { IsWellMade scope.table (made_set (made (made_number 1) (made (made_number 2) no_mades))) }
    ensures falls { IsWellMade scope.table (made_set (made (made_number 2) (made (made_number 1) no_mades))) → ⊥ }
    ensures all { AllMadeWell whole_scope }
    ensures not_all { AllMadeWell (with_context (closed (made_field (codes "x") (made_set (made (made_number 2) (made (made_number 1) no_mades))) no_made_fields))) → ⊥ }
    ensures not_value { AllMadeWell (with_value (codes "u") (made_set (made (made_number 2) (made (made_number 1) no_mades)))) → ⊥ }
{}

/// Two uids of one text are never both open in a scope that a world completes, so of what is no uid a partial store has to say that it
/// is missing.
pub fn worked_twins()
    ensures text { uid_text twin ≡ uid_text other_twin }
    ensures never { TwinsAreNeverOpen }
{}

/// A scope of which one entity is loaded, with an open request and a context with an unknown, has a completion: what is no uid isn't open
/// in it. What is asked of an entity that isn't loaded is residual.
pub fn worked_completable()
    ensures there { IsCompletable some_loaded }
    ensures open { some_loaded.store twin ≡ not_loaded }
    ensures no_uid { some_loaded.store other_twin ≡ missing }
    ensures left { evaluated some_loaded 16 (get_attr (lit (entity user_b)) (codes "ok")) ≡ residual (get_attr standing_b (codes "ok")) }
    ensures context { evaluated some_loaded 16 (get_attr (get_attr (var context) (codes "r")) (codes "s")) ≡ residual unknown_u }
{}

//! Worked examples of acceptance, slices, sessions and lines, computed. Each function's contract is what comes out; its body does
//! nothing.

ghost use Rattle.std.specs.Prelude.{◌≡◌, true, false, Some, None, codes, [], ◌∷◌, ◌++◌, map};
ghost use Rattle.std.specs.List.{list_any};
ghost use Rattle.cedar_expr_model.specs.Uid.{uid_eq};
ghost use Rattle.cedar_expr_model.specs.UidOrder.{are_rising};
ghost use Rattle.cedar_expr_model.specs.Value.{text, long, entity, prim, set_of, record_of, extension, no_values, value, no_fields, field};
ghost use Rattle.cedar_expr_model.specs.Tree.{lit};
ghost use Rattle.cedar_expr_model.specs.Made.{made_record, no_made_fields};
ghost use Rattle.cedar_store_model.specs.World.{held, missing, not_loaded};
ghost use Rattle.cedar_schema_model.specs.DeclWorked.{m, external_x, color_declared, with_type};
ghost use Rattle.cedar_schema_model.specs.WellFormed.{duplicate_entity_type};
ghost use Rattle.cedar_typechecker_model.specs.Worked.{user, doc, user_a, doc_d, view, small, no_table, is_ok, has_nick, nick_is_x, haunted, alice_ok, in_views, in_slot_of, permits_when};
ghost use Rattle.cedar_evaluator_model.specs.Scope.{uid, unknown_uid, unknown_context};
ghost use Rattle.cedar_gate_model.specs.GateLaws.{policy_causes, admits, asked_in, last_rounds, Holds};
ghost use Rattle.cedar_gate_model.specs.Acceptance.{schema, external, repeated_policy, unlinked_slot, slot_outside_scope, unknown_in_policy, nests_too_deep, unknown_entity_type, unknown_action, no_member, ill_typed, reaches_too_far, is_clear_of, is_linked, keeps_slots_in_scope, asks_schema, has_schema, number_of, warnings_of, policies_for, schema_in, extension_types};
ghost use Rattle.cedar_typechecker_model.specs.Slice.{mentioned, mentioned_by_found, near, slice, roots};
ghost use Rattle.cedar_expr_model.specs.Lists.{when};
ghost use Rattle.cedar_gate_model.specs.Moment.{Completes, at_first, is_bound, entry_known, context_known, known_at};
ghost use Rattle.cedar_gate_model.specs.Transcript.{round, bound, decided};
ghost use Rattle.cedar_gate_model.specs.Session.{at_start, value_of, uid_in, entry_now, context_now, whole_store, known_now, world_now, is_open_name, with_bound, OpenFault, BindFault, not_open, against_annotation, no_entity_or_record, context_fails, open_number, quote_in_name, name_of_variable, bind_number, supply_number, SupplyFault, not_wanted, lacking, wrong_entity, answer_number, not_bound, still_wanted, not_conforming, repeated};
ghost use Rattle.cedar_gate_model.specs.Runs.{supplied_by, opening_refused, supply_refused, binding_refused, answer_refused};
ghost use Rattle.cedar_gate_model.specs.Owed.{IsForced};
ghost use Rattle.cedar_evaluator_model.specs.Members.{met_limit};
ghost use Rattle.cedar_gate_model.specs.Lines.{is_answered, is_refused, is_unreadable, is_stopped, warning_lines, entry_lines, answer_lines, end_lines, end_status, refused_line, unreadable_line, Prints};
ghost use Rattle.cedar_store_model.specs.Answer.{allow, deny, reasons_of};
ghost use Rattle.cedar_gate_model.specs.WorkedGate.{user_b, user_z, no_uid, alice, p0, p1, p2, p3, p5, p6, p7, submitted, within, twice_users, slot_in_body, and_unknown, and_edit, and_blue, robot, robots, viewing_by, person, document, staff, without_b, below_z, world_of, by_a, by_some_user, by_anyone, asking, no_context, rank, open_rank, open_named, with_ranks, no_functions, setup_with, text_made, uid_made, number_made, after, lines, p4, by_zero, ranking, answer_with, in_quotes, user_text, good_bundle, far_bundle, open_bundle, nothing_known, nobody_known, after_a_round, after_an_absence, nested_with, reviewed, bounds, by_a_on_b, nobody_there, ordinary, right_supply, with_z, only_d, twice_d, b_for_a, lacks_ok};
ghost use Rattle.cedar_evaluator_model.specs.Known.{known_entry, known_context};

/// Submissions that are accepted, and one that isn't for each fault.
pub fn worked_acceptance()
    ensures level_two { admits (submitted m 2 (p0 ∷ [])) ≡ true }
    ensures level_one { is_clear_of reaches_too_far (submitted m 1 (p0 ∷ [])) ≡ false }
    ensures not_admitted { admits (submitted m 1 (p0 ∷ [])) ≡ false }
    ensures actions_too { is_clear_of reaches_too_far (submitted m 0 (in_views ∷ [])) ≡ false }
    ensures actions_at_one { admits (submitted m 1 (in_views ∷ [])) ≡ true }
    ensures literal_target { is_clear_of reaches_too_far (submitted m 1 (permits_when alice_ok ∷ [])) ≡ false }
    ensures optional { is_clear_of ill_typed (submitted m 1 (permits_when nick_is_x ∷ [])) ≡ false }
    ensures undeclared_type { is_clear_of unknown_entity_type (submitted m 0 (permits_when haunted ∷ [])) ≡ false }
    ensures typed_all_the_same { is_clear_of ill_typed (submitted m 0 (permits_when haunted ∷ [])) ≡ true }
    ensures too_deep { is_clear_of nests_too_deep (within 4 (submitted m 1 (permits_when is_ok ∷ []))) ≡ false }
    ensures just_deep { admits (within 5 (submitted m 1 (permits_when is_ok ∷ []))) ≡ true }
    ensures elsewhere { is_clear_of external (submitted (with_type external_x) 0 (p3 ∷ [])) ≡ false }
    ensures no_fault_of_form { is_clear_of (schema duplicate_entity_type) (submitted (with_type external_x) 0 (p3 ∷ [])) ≡ true }
    ensures no_schema { has_schema (submitted (with_type external_x) 0 (p3 ∷ [])) ≡ false }
    ensures two_users { is_clear_of (schema duplicate_entity_type) (submitted twice_users 0 (p3 ∷ [])) ≡ false }
    ensures no_schema_either { has_schema (submitted twice_users 0 (p3 ∷ [])) ≡ false }
    ensures a_schema { has_schema (submitted m 0 (p3 ∷ [])) ≡ true }
    ensures same_id { is_clear_of repeated_policy (submitted m 0 (p3 ∷ p3 ∷ [])) ≡ false }
    ensures other_ids { is_clear_of repeated_policy (submitted m 0 (p3 ∷ p1 ∷ [])) ≡ true }
    ensures edited { is_clear_of unknown_action (submitted m 0 (permits_when and_edit ∷ [])) ≡ false }
    ensures blue { is_clear_of no_member (submitted (with_type color_declared) 0 (permits_when and_blue ∷ [])) ≡ false }
    ensures unknown { is_clear_of unknown_in_policy (submitted m 0 (permits_when and_unknown ∷ [])) ≡ false }
    ensures numbers { map number_of policy_causes ≡ 2 ∷ 3 ∷ 4 ∷ 5 ∷ 6 ∷ 7 ∷ 8 ∷ 9 ∷ 10 ∷ 11 ∷ 12 ∷ [] }
    ensures number_of_schema { number_of (schema duplicate_entity_type) ≡ 1 }
    ensures asked_of_schema { map asks_schema policy_causes ≡ false ∷ false ∷ false ∷ false ∷ false ∷ false ∷ true ∷ true ∷ true ∷ true ∷ true ∷ [] }
{}

/// Slots are bound, and stand in the scope alone.
pub fn worked_slots()
    ensures linked { is_linked (in_slot_of (Some user_a)) ≡ true }
    ensures unlinked { is_linked (in_slot_of None) ≡ false }
    ensures refused { is_clear_of unlinked_slot (submitted m 1 (in_slot_of None ∷ [])) ≡ false }
    ensures accepted { admits (submitted m 1 (in_slot_of (Some user_a) ∷ [])) ≡ true }
    ensures in_scope { keeps_slots_in_scope (in_slot_of (Some user_a)) ≡ true }
    ensures in_body { keeps_slots_in_scope slot_in_body ≡ false }
    ensures refused_in_body { is_clear_of slot_outside_scope (submitted m 1 (slot_in_body ∷ [])) ≡ false }
    ensures no_slot { is_linked p3 ≡ true }
{}

/// Impossible policies, and those that a request's types ask for.
pub fn worked_warnings()
    ensures warned { warnings_of (submitted m 2 (p0 ∷ p5 ∷ [])) ≡ codes "p5" ∷ [] }
    ensures accepted { admits (submitted m 0 (p5 ∷ [])) ≡ true }
    ensures nothing_for { policies_for (submitted m 0 (p5 ∷ [])) (viewing_by user) ≡ [] }
    ensures not_warned { warnings_of (submitted robots 0 (p6 ∷ p7 ∷ [])) ≡ [] }
    ensures for_users { policies_for (submitted robots 0 (p6 ∷ p7 ∷ [])) (viewing_by user) ≡ codes "p6" ∷ [] }
    ensures for_robots { policies_for (submitted robots 0 (p6 ∷ p7 ∷ [])) (viewing_by robot) ≡ codes "p7" ∷ [] }
    ensures for_documents { policies_for (submitted robots 0 (p6 ∷ p7 ∷ [])) (viewing_by doc) ≡ [] }
{}

/// What a value mentions: itself, or what its fields do; sets and extension values mention nothing.
pub fn worked_mentions()
    ensures itself { mentioned (prim (entity user_a)) ≡ user_a ∷ [] }
    ensures fields { mentioned (record_of (field (codes "x") (prim (entity user_a)) (field (codes "y") (record_of (field (codes "z") (prim (entity doc_d)) no_fields)) no_fields))) ≡ user_a ∷ doc_d ∷ [] }
    ensures set { mentioned (set_of (value (prim (entity user_a)) no_values)) ≡ [] }
    ensures extension_value { mentioned (extension rank (codes "a")) ≡ [] }
    ensures its_text { mentioned (prim (text (codes "a"))) ≡ [] }
    ensures entity { mentioned_by_found (held (person user_b true)) ≡ user_b ∷ [] }
    ensures absent { mentioned_by_found missing ≡ [] }
{}

/// Slices at each level, with repeats, over the whole store; of one that lacks a user; where the principal isn't known.
pub fn worked_slices()
    ensures none { slice small 0 (world_of (Some user_a) staff) ≡ [] }
    ensures roots { slice small 1 (world_of (Some user_a) staff) ≡ user_a ∷ doc_d ∷ [] }
    ensures two { slice small 2 (world_of (Some user_a) staff) ≡ user_a ∷ doc_d ∷ user_a ∷ user_b ∷ [] }
    ensures three { slice small 3 (world_of (Some user_a) staff) ≡ user_a ∷ doc_d ∷ user_a ∷ user_b ∷ user_a ∷ user_a ∷ [] }
    ensures never_z { list_any (uid_eq user_z) (slice small 3 (world_of (Some user_a) staff)) ≡ false }
    ensures without { slice small 3 (world_of (Some user_a) without_b) ≡ user_a ∷ doc_d ∷ user_a ∷ user_b ∷ user_a ∷ [] }
    ensures no_literal { list_any (uid_eq alice) (slice small 1 (world_of (Some user_a) staff)) ≡ false }
    ensures open_principal { slice small 2 (world_of None staff) ≡ doc_d ∷ user_b ∷ [] }
    ensures bound_principal { slice small 2 (world_of (Some user_b) staff) ≡ user_b ∷ doc_d ∷ user_a ∷ user_b ∷ [] }
    ensures further { slice small 3 (world_of None below_z) ≡ doc_d ∷ user_b ∷ user_a ∷ [] }
    ensures shortened { list_any (uid_eq user_z) (slice small 3 (world_of (Some user_b) below_z)) ≡ true }
    ensures not_at_two { list_any (uid_eq user_z) (slice small 2 (world_of (Some user_b) below_z)) ≡ false }
    ensures no_action { slice small 1 (world_of (Some view) staff) ≡ doc_d ∷ [] }
    ensures an_action_is_near { near 1 (world_of (Some view) staff) ≡ view ∷ doc_d ∷ [] }
{}

/// What is known at moments of a session, and what is wanted.
pub fn worked_knowledge()
    ensures at_first { slice small 2 (known_now (setup_with 2 no_functions by_a staff) at_start) ≡ user_a ∷ doc_d ∷ [] }
    ensures after_a_round { slice small 2 (known_now (setup_with 2 no_functions by_a staff) (after [] (doc_d ∷ user_a ∷ []))) ≡ user_a ∷ doc_d ∷ user_a ∷ user_b ∷ [] }
    ensures nothing_open { slice small 2 (known_now (setup_with 2 no_functions (record by_some_user { resource = unknown_uid None }) staff) at_start) ≡ [] }
    ensures after_binding { slice small 2 (known_now (setup_with 2 no_functions by_some_user staff) (after ((codes "principal", uid_made user_b) ∷ []) (doc_d ∷ user_b ∷ []))) ≡ user_b ∷ doc_d ∷ user_a ∷ user_b ∷ [] }
    ensures held_now { (known_now (setup_with 2 no_functions by_a staff) (after [] (user_b ∷ []))).store user_b ≡ held (person user_a true) }
    ensures not_asked { (known_now (setup_with 2 no_functions by_a staff) at_start).store user_b ≡ not_loaded }
    ensures absent_now { (known_now (setup_with 2 no_functions by_a without_b) (after [] (user_b ∷ []))).store user_b ≡ missing }
    ensures absent_at_last { (world_now (setup_with 2 no_functions by_a without_b) (after [] (user_b ∷ []))).store user_b ≡ missing }
    ensures an_action { (known_now (setup_with 2 no_functions by_a ((view, document user_b) ∷ [])) at_start).store view ≡ held (record { attributes = []; tags = []; ancestors = [] }) }
    ensures order { are_rising (doc_d ∷ user_a ∷ user_b ∷ []) ≡ true }
    ensures no_order { are_rising (user_a ∷ doc_d ∷ []) ≡ false }
    ensures no_repeat { are_rising (doc_d ∷ doc_d ∷ []) ≡ false }
    ensures no_uid_now { (known_now (setup_with 2 no_functions by_a staff) at_start).store no_uid ≡ missing }
    ensures no_uid_there { (world_now (setup_with 2 no_functions by_a ((no_uid, person user_a true) ∷ [])) at_start).store no_uid ≡ missing }
{}

/// Names that are open, and bindings that are refused.
pub fn worked_bindings()
    ensures open { is_open_name by_some_user at_start (codes "principal") ≡ true }
    ensures known { is_open_name by_some_user at_start (codes "resource") ≡ false }
    ensures once { is_open_name by_some_user (after ((codes "principal", uid_made user_a) ∷ []) []) (codes "principal") ≡ false }
    ensures unknown { is_open_name (asking (uid user_a) open_rank) at_start (codes "t") ≡ true }
    ensures other_unknown { is_open_name (asking (uid user_a) open_rank) at_start (codes "u") ≡ false }
    ensures fields_alone { is_open_name (asking (uid user_a) open_rank) at_start (codes "context") ≡ false }
    ensures whole_context { is_open_name (asking (uid user_a) unknown_context) at_start (codes "context") ≡ true }
    ensures second_time { BindFault (setup_with 2 no_functions by_some_user staff) (after ((codes "principal", uid_made user_a) ∷ []) []) (codes "principal") (uid_made user_a) not_open }
    ensures other_type { BindFault (setup_with 2 no_functions by_some_user staff) at_start (codes "principal") (uid_made doc_d) against_annotation }
    ensures any_type { BindFault (setup_with 2 no_functions by_anyone staff) at_start (codes "principal") (uid_made doc_d) against_annotation → ⊥ }
    ensures no_entity { BindFault (setup_with 2 no_functions by_some_user staff) at_start (codes "principal") (number_made 5) no_entity_or_record }
    ensures an_entity { BindFault (setup_with 2 no_functions by_anyone staff) at_start (codes "principal") (uid_made doc_d) no_entity_or_record → ⊥ }
    ensures no_record { BindFault (setup_with 2 no_functions (asking (uid user_a) unknown_context) staff) at_start (codes "context") (number_made 5) no_entity_or_record }
    ensures no_rank { BindFault (setup_with 0 with_ranks (asking (uid user_a) open_rank) []) at_start (codes "t") (text_made (codes "abc")) context_fails }
    ensures no_text { BindFault (setup_with 0 with_ranks (asking (uid user_a) open_rank) []) at_start (codes "t") (number_made 5) context_fails }
    ensures a_rank { BindFault (setup_with 0 with_ranks (asking (uid user_a) open_rank) []) at_start (codes "t") (text_made (codes "7")) context_fails → ⊥ }
    ensures bind_numbers { map bind_number (not_open ∷ against_annotation ∷ no_entity_or_record ∷ context_fails ∷ []) ≡ 1 ∷ 2 ∷ 3 ∷ 4 ∷ [] }
    ensures open_numbers { map open_number (quote_in_name ∷ name_of_variable ∷ []) ≡ 1 ∷ 2 ∷ [] }
    ensures supply_numbers { map supply_number (not_wanted ∷ lacking ∷ repeated ∷ wrong_entity ∷ []) ≡ 1 ∷ 2 ∷ 3 ∷ 4 ∷ [] }
    ensures answer_numbers { map answer_number (not_bound ∷ still_wanted ∷ not_conforming ∷ []) ≡ 1 ∷ 2 ∷ 3 ∷ [] }
{}

/// Contexts and entries by now.
pub fn worked_contexts()
    ensures open_context { known_context (context_now with_ranks at_start open_rank) ≡ None }
    ensures evaluated { known_context (context_now with_ranks (after ((codes "t", text_made (codes "7")) ∷ []) []) open_rank) ≡ Some (record_of (field (codes "r") (extension rank (0 ∷ 55 ∷ [])) no_fields)) }
    ensures given { known_context (context_now with_ranks at_start no_context) ≡ Some (record_of no_fields) }
    ensures unknown { known_context (context_now with_ranks at_start unknown_context) ≡ None }
    ensures bound_whole { known_context (context_now with_ranks (after ((codes "context", made_record no_made_fields) ∷ []) []) unknown_context) ≡ Some (record_of no_fields) }
    ensures stays_open { context_now with_ranks at_start open_rank ≡ open_rank }
    ensures as_bound { context_now with_ranks (after ((codes "context", made_record no_made_fields) ∷ []) []) unknown_context ≡ no_context }
    ensures entry { known_entry (entry_now at_start (codes "principal") (uid user_a)) ≡ Some user_a }
    ensures open_entry { known_entry (entry_now at_start (codes "principal") (unknown_uid None)) ≡ None }
    ensures bound_entry { known_entry (entry_now (after ((codes "principal", uid_made user_b) ∷ []) []) (codes "principal") (unknown_uid None)) ≡ Some user_b }
    ensures kept_open { entry_now at_start (codes "principal") (unknown_uid (Some user)) ≡ unknown_uid (Some user) }
    ensures known_at_first { entry_known at_first (codes "principal") (unknown_uid None) ≡ false }
    ensures not_known { context_known at_first open_rank ≡ false }
    ensures known_then { context_known (record at_first { bound = codes "t" ∷ [] }) open_rank ≡ true }
    ensures asked { asked_in (round (doc_d ∷ []) ∷ bound (codes "principal") ∷ round (user_b ∷ []) ∷ []) ≡ doc_d ∷ user_b ∷ [] }
    ensures rounds { last_rounds (round (doc_d ∷ []) ∷ bound (codes "principal") ∷ round (user_b ∷ []) ∷ decided None ∷ []) ≡ (user_b ∷ []) ∷ [] }
    ensures no_rounds { last_rounds (round (doc_d ∷ []) ∷ bound (codes "principal") ∷ []) ≡ [] }
    ensures supplied { supplied_by (setup_with 2 no_functions by_a without_b) (doc_d ∷ user_b ∷ []) ≡ (doc_d, Some (doc_d, document user_b)) ∷ (user_b, None) ∷ [] }
{}

/// Requests that don't open: the name of an unknown has a double quote, or is that of a variable; and one that opens.
pub fn worked_openings()
    ensures quoted_name { OpenFault (asking (uid user_a) (open_named (user_text (codes "a")))) quote_in_name }
    ensures no_quote { OpenFault (asking (uid user_a) (open_named (codes "principal"))) quote_in_name → ⊥ }
    ensures variable { OpenFault (asking (uid user_a) (open_named (codes "principal"))) name_of_variable }
    ensures no_variable { OpenFault (asking (uid user_a) open_rank) name_of_variable → ⊥ }
    ensures nothing_open { OpenFault by_a quote_in_name → ⊥ }
{}

/// Decisions that what is known forces: a forbid of all; a permit of the principal; a permit that needs an entity which was asked for and
/// isn't there; and none, where the only permit isn't known yet.
pub fn worked_owed()
    ensures forbidden { IsForced nobody_known (p3 ∷ []) deny }
    ensures permitted { IsForced nothing_known (p0 ∷ p1 ∷ []) allow }
    ensures permitted_later { IsForced after_a_round (p0 ∷ p1 ∷ p2 ∷ []) allow }
    ensures denied_by_absence { IsForced after_an_absence (p0 ∷ []) deny }
    ensures not_denied { IsForced nothing_known (p0 ∷ []) deny → ⊥ }
    ensures not_allowed { IsForced nothing_known (p0 ∷ []) allow → ⊥ }
    ensures not_yet { IsForced nothing_known (p0 ∷ p1 ∷ p2 ∷ []) allow → ⊥ }
{}

/// The lines of runs: two rounds and an answer; an entity that is missing; an overflow; a zero divisor; a function that fails; decisions; refusals.
pub fn worked_lines()
    ensures rounds { entry_lines 1 (round (doc_d ∷ user_a ∷ []) ∷ bound (codes "x") ∷ round (user_b ∷ []) ∷ []) ≡ lines ((codes "round 1 Doc::" ++ (in_quotes (codes "d") ++ (codes " " ++ user_text (codes "a")))) ∷ (codes "round 2 " ++ user_text (codes "b")) ∷ []) }
    ensures allowed { answer_lines (answer_with no_functions staff (doc_d ∷ user_a ∷ user_b ∷ []) (p0 ∷ [])) ≡ lines (codes "answer Allow" ∷ (codes "reason " ++ in_quotes (codes "p0")) ∷ []) }
    ensures missing_user { answer_lines (answer_with no_functions without_b (doc_d ∷ user_a ∷ user_b ∷ []) (p0 ∷ [])) ≡ lines (codes "answer Deny" ∷ (codes "error " ++ (in_quotes (codes "p0") ++ (codes " missing " ++ user_text (codes "b")))) ∷ []) }
    ensures overflowed { answer_lines (answer_with no_functions staff [] (p4 ∷ [])) ≡ lines (codes "answer Deny" ∷ (codes "error " ++ (in_quotes (codes "p4") ++ codes " overflow")) ∷ []) }
    ensures no_divisor { answer_lines (answer_with no_functions staff [] (by_zero ∷ [])) ≡ lines (codes "answer Deny" ∷ (codes "error " ++ (in_quotes (codes "p") ++ codes " zero")) ∷ []) }
    ensures failed { answer_lines (answer_with with_ranks staff [] (ranking ∷ [])) ≡ lines (codes "answer Deny" ∷ (codes "error " ++ (in_quotes (codes "p") ++ codes " extension rank")) ∷ []) }
    ensures decisions { entry_lines 1 (decided None ∷ round (user_a ∷ []) ∷ decided (Some allow) ∷ decided (Some deny) ∷ []) ≡ lines (codes "decision None" ∷ (codes "round 1 " ++ user_text (codes "a")) ∷ codes "decision Allow" ∷ codes "decision Deny" ∷ []) }
    ensures warning { warning_lines (submitted m 0 (p5 ∷ [])) ≡ lines ((codes "impossible " ++ in_quotes (codes "p5")) ∷ []) }
    ensures no_warning { warning_lines (submitted m 2 (p0 ∷ [])) ≡ [] }
    ensures opening { end_lines (opening_refused quote_in_name) ≡ lines (codes "open 1" ∷ []) }
    ensures supplying { end_lines (supply_refused wrong_entity) ≡ lines (codes "supply 4" ∷ []) }
    ensures binding { end_lines (binding_refused context_fails) ≡ lines (codes "bind 4" ∷ []) }
    ensures answering { end_lines (answer_refused not_conforming) ≡ lines (codes "answer 3" ∷ []) }
    ensures refused { refused_line 12 ≡ lines (codes "refused 12" ∷ []) }
    ensures unreadable { unreadable_line ≡ lines (codes "unreadable" ∷ []) }
{}

/// The whole output of bundles: one that answers, one that the gate refuses, one that is never bound, and one that doesn't read.
pub fn worked_prints()
    ensures answers { Prints no_functions (Some good_bundle) is_answered (lines (codes "answer Allow" ∷ (codes "reason " ++ in_quotes (codes "p")) ∷ [])) }
    ensures refuses { Prints no_functions (Some far_bundle) is_refused (lines (codes "refused 12" ∷ [])) }
    ensures stops { Prints no_functions (Some open_bundle) is_stopped (lines (codes "answer 1" ∷ [])) }
    ensures unreadable { Prints no_functions None is_unreadable (lines (codes "unreadable" ∷ [])) }
    ensures no_refusal { Prints no_functions (Some good_bundle) is_refused (lines (codes "refused 12" ∷ [])) → ⊥ }
    ensures status { end_status (answer_refused not_bound) ≡ is_stopped }
{}

/// A policy that evaluates a field of an open context again meets the limit, and doesn't where the limit is larger or the context is
/// bound.
pub fn worked_limits()
    ensures met { met_limit (nested_with 6 []) ≡ true }
    ensures not_met { met_limit (nested_with 7 []) ≡ false }
    ensures bound_then { met_limit (nested_with 6 ((codes "u", number_made 1) ∷ [])) ≡ false }
{}

/// Bounds that hold in a world, and bounds that don't.
pub fn worked_bounds()
    ensures reasons { reasons_of reviewed (p0 ∷ p1 ∷ p2 ∷ []) ≡ codes "p0" ∷ codes "p1" ∷ [] }
    ensures both_hold { Holds (bounds (codes "p1" ∷ []) (codes "p0" ∷ codes "p1" ∷ [])) reviewed (p0 ∷ p1 ∷ p2 ∷ []) }
    ensures too_much { Holds (bounds (codes "p2" ∷ []) (codes "p0" ∷ codes "p1" ∷ [])) reviewed (p0 ∷ p1 ∷ p2 ∷ []) → ⊥ }
    ensures too_little { Holds (bounds [] (codes "p0" ∷ [])) reviewed (p0 ∷ p1 ∷ p2 ∷ []) → ⊥ }
{}

/// A world that completes a request, and requests that it doesn't complete.
pub fn worked_completions()
    ensures completed { Completes (schema_in good_bundle.submission) no_table 0 by_a_on_b nobody_there }
    ensures of_type { Completes (schema_in good_bundle.submission) no_table 0 (record by_a_on_b { principal = unknown_uid (Some user) }) nobody_there }
    ensures of_other_type { Completes (schema_in good_bundle.submission) no_table 0 (record by_a_on_b { principal = unknown_uid (Some doc) }) nobody_there → ⊥ }
    ensures of_other_uid { Completes (schema_in good_bundle.submission) no_table 0 (record by_a_on_b { principal = uid user_b }) nobody_there → ⊥ }
    ensures not_conforming { Completes small no_table 0 by_a_on_b nobody_there → ⊥ }
{}

/// Supplies that are refused: one too many, one too few, one twice, the entity of another, one that doesn't conform; and a right one.
pub fn worked_supplies()
    ensures stray { SupplyFault ordinary at_start with_z not_wanted }
    ensures short { SupplyFault ordinary at_start only_d lacking }
    ensures doubled { SupplyFault ordinary at_start twice_d repeated }
    ensures swapped { SupplyFault ordinary at_start b_for_a wrong_entity }
    ensures not_conforming_one { SupplyFault ordinary at_start lacks_ok wrong_entity }
    ensures nothing_lacks { SupplyFault ordinary at_start right_supply lacking → ⊥ }
    ensures nothing_twice { SupplyFault ordinary at_start right_supply repeated → ⊥ }
    ensures nothing_wrong { SupplyFault ordinary at_start right_supply wrong_entity → ⊥ }
{}

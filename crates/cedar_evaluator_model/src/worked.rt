//! Worked examples of partial evaluation, computed. Each function's contract is what comes out; its body does nothing.

ghost use Rattle.std.specs.Prelude.{◌≡◌, Bool, true, false, Some, None, codes, [], ◌∷◌};
ghost use Rattle.cedar_expr_model.specs.Value.{long, truth, text, entity};
ghost use Rattle.cedar_expr_model.specs.Tree.{bool_core, long_core, entity_core, principal, action, resource, context, principal_slot, resource_slot, lit, var, slot, unknown, choice, both, either, unary, binary, call, get_attr, has_attr, has_path, like, is_type, set_literal, record_literal, no_trees, tree, no_tree_fields, tree_field, negation, minus, is_empty, equal, less, less_or_equal, plus, times, remainder, is_in, contains, contains_all, get_tag, has_tag};
ghost use Rattle.cedar_expr_model.specs.Made.{made_prim, made_set, made_record, made_extension, no_mades, made, no_made_fields, made_field};
ghost use Rattle.cedar_expr_model.specs.Pattern.{character, wildcard};
ghost use Rattle.cedar_store_model.specs.Outcome.{missing_entity, missing_attribute_or_tag, missing_field, wrong_type, overflow, zero_divisor, extension_failed, no_function, wrong_count, unlinked_slot};
ghost use Rattle.cedar_evaluator_model.specs.Scope.{uid, unknown_uid, closed, residual_fields, unknown_context, limit, fault, value_left, residual, stopped};
ghost use Rattle.cedar_evaluator_model.specs.Steps.{errs, truth_left, made_members};
ghost use Rattle.cedar_evaluator_model.specs.Evaluation.{evaluated};
ghost use Rattle.cedar_evaluator_model.specs.Worked.{user, doc, user_a, user_b, doc_d, view, entity_of, named, number, made_number, made_truth, true_tree, false_tree, unknown_a, unknown_u, rank, later, scope, open_scope, with_value, with_context, deep_context, standing_b};

/// The root has depth 1, and each child one more: `!(!true)` needs 3.
pub fn worked_limit()
    ensures below { evaluated scope 2 (unary negation (unary negation true_tree)) ≡ stopped limit }
    ensures at { evaluated scope 3 (unary negation (unary negation true_tree)) ≡ truth_left true }
    ensures zero { evaluated scope 0 true_tree ≡ stopped limit }
    ensures short_circuit { evaluated scope 2 (both false_tree (unary negation (unary negation true_tree))) ≡ truth_left false }
{}

/// Variables and slots: a known uid, or the unknown of the variable's name, annotated where its type is known.
pub fn worked_variables()
    ensures known { evaluated scope 1 (var principal) ≡ value_left (made_prim (entity user_a)) }
    ensures typed { evaluated open_scope 1 (var principal) ≡ residual (unknown (codes "principal") (Some (entity_core user))) }
    ensures untyped { evaluated open_scope 1 (var resource) ≡ residual (unknown (codes "resource") None) }
    ensures context_known { evaluated scope 1 (var context) ≡ value_left (made_record no_made_fields) }
    ensures context_unknown { evaluated open_scope 1 (var context) ≡ residual (unknown (codes "context") None) }
    ensures slot_unlinked { evaluated scope 1 (slot principal_slot) ≡ errs unlinked_slot }
{}

/// Unknowns with and without values; a value against the annotation is a type error.
pub fn worked_unknowns()
    ensures stays { evaluated scope 1 (unknown (codes "u") (Some long_core)) ≡ residual (unknown (codes "u") (Some long_core)) }
    ensures bound { evaluated (with_value (codes "u") (made_number 7)) 1 (unknown (codes "u") (Some long_core)) ≡ value_left (made_number 7) }
    ensures untyped { evaluated (with_value (codes "u") (made_number 7)) 1 unknown_u ≡ value_left (made_number 7) }
    ensures misfit { evaluated (with_value (codes "u") (made_number 7)) 1 (unknown (codes "u") (Some bool_core)) ≡ errs wrong_type }
    ensures other { evaluated (with_value (codes "u") (made_number 7)) 1 unknown_a ≡ residual unknown_a }
{}

/// `and`, `or` and `if` take what they need; after a residual the rest is evaluated in best effort.
pub fn worked_connectives()
    ensures left_false { evaluated scope 2 (both false_tree (number 1)) ≡ truth_left false }
    ensures right_residual { evaluated scope 2 (both true_tree unknown_u) ≡ residual (both true_tree unknown_u) }
    ensures right_number { evaluated scope 2 (both true_tree (number 1)) ≡ errs wrong_type }
    ensures left_number { evaluated scope 2 (both (number 1) unknown_u) ≡ errs wrong_type }
    ensures left_residual { evaluated scope 3 (both unknown_u (unary negation true_tree)) ≡ residual (both unknown_u false_tree) }
    ensures right_failed { evaluated scope 3 (both unknown_u (unary negation (number 1))) ≡ residual (both unknown_u (unary negation (number 1))) }
    ensures right_too_deep { evaluated scope 2 (both unknown_u (unary negation true_tree)) ≡ residual (both unknown_u (unary negation true_tree)) }
    ensures or_true { evaluated scope 2 (either true_tree (number 1)) ≡ truth_left true }
    ensures or_residual { evaluated scope 2 (either false_tree unknown_u) ≡ residual (either false_tree unknown_u) }
    ensures or_left_residual { evaluated scope 2 (either unknown_u (number 1)) ≡ residual (either unknown_u (number 1)) }
    ensures picks { evaluated scope 2 (choice true_tree unknown_u (number 1)) ≡ residual unknown_u }
    ensures picks_other { evaluated scope 2 (choice false_tree unknown_u (number 1)) ≡ value_left (made_number 1) }
    ensures both_branches { evaluated scope 3 (choice unknown_u (unary negation true_tree) (unary negation (number 1))) ≡ residual (choice unknown_u false_tree (unary negation (number 1))) }
    ensures no_truth { evaluated scope 2 (choice (number 1) true_tree true_tree) ≡ errs wrong_type }
{}

/// An unknown principal of type `User` is no document; of other users it isn't decided.
pub fn worked_types()
    ensures is_other { evaluated open_scope 2 (is_type (var principal) doc) ≡ truth_left false }
    ensures is_same { evaluated open_scope 2 (is_type (var principal) user) ≡ truth_left true }
    ensures is_untyped { evaluated open_scope 2 (is_type (var resource) doc) ≡ residual (is_type (unknown (codes "resource") None) doc) }
    ensures equal_other { evaluated open_scope 2 (binary equal (var principal) (lit (entity doc_d))) ≡ truth_left false }
    ensures other_equal { evaluated open_scope 2 (binary equal (lit (entity doc_d)) (var principal)) ≡ truth_left false }
    ensures equal_unknown { evaluated open_scope 2 (binary equal (unknown (codes "d") (Some (entity_core doc))) (var principal)) ≡ truth_left false }
    ensures equal_same { evaluated open_scope 2 (binary equal (var principal) (lit (entity user_a))) ≡ residual (binary equal (unknown (codes "principal") (Some (entity_core user))) (lit (entity user_a))) }
    ensures equal_number { evaluated open_scope 2 (binary equal (var principal) (number 1)) ≡ residual (binary equal (unknown (codes "principal") (Some (entity_core user))) (number 1)) }
    ensures equal_untyped { evaluated open_scope 2 (binary equal (var resource) (lit (entity user_a))) ≡ residual (binary equal (unknown (codes "resource") None) (lit (entity user_a))) }
    ensures in_stays { evaluated open_scope 2 (binary is_in (var principal) (lit (entity doc_d))) ≡ residual (binary is_in (unknown (codes "principal") (Some (entity_core user))) (lit (entity doc_d))) }
{}

/// Of two operands the first error is the error; with a residual the operator stays.
pub fn worked_operators()
    ensures adds { evaluated scope 2 (binary plus (number 1) (number 2)) ≡ value_left (made_number 3) }
    ensures remains { evaluated scope 2 (binary remainder (number 7) (number 3)) ≡ value_left (made_number 1) }
    ensures divides_by_zero { evaluated scope 2 (binary remainder (number 5) (number 0)) ≡ errs zero_divisor }
    ensures overflows { evaluated scope 2 (binary plus (number 9223372036854775807) (number 1)) ≡ errs overflow }
    ensures first { evaluated scope 3 (binary plus (unary negation (number 1)) (slot principal_slot)) ≡ errs wrong_type }
    ensures second { evaluated scope 3 (binary plus unknown_u (slot principal_slot)) ≡ errs unlinked_slot }
    ensures stays { evaluated scope 2 (binary plus unknown_u (number 2)) ≡ residual (binary plus unknown_u (number 2)) }
    ensures both_stay { evaluated scope 2 (binary less unknown_u unknown_a) ≡ residual (binary less unknown_u unknown_a) }
    ensures not_stays { evaluated scope 2 (unary negation unknown_u) ≡ residual (unary negation unknown_u) }
    ensures like_stays { evaluated scope 2 (like unknown_u (wildcard ∷ [])) ≡ residual (like unknown_u (wildcard ∷ [])) }
    ensures like_number { evaluated scope 2 (like (number 1) (wildcard ∷ character 97 ∷ [])) ≡ errs wrong_type }
    ensures contains_no { evaluated scope 3 (binary contains (set_literal (tree (number 1) no_trees)) (number 2)) ≡ truth_left false }
{}

/// The hierarchy: the left side alone is looked up; where it isn't loaded the test stays, and the right side isn't asked.
pub fn worked_in()
    ensures recorded { evaluated scope 2 (binary is_in (var principal) (var resource)) ≡ truth_left true }
    ensures itself { evaluated scope 2 (binary is_in (var resource) (var resource)) ≡ truth_left true }
    ensures not_recorded { evaluated scope 2 (binary is_in (var resource) (var principal)) ≡ truth_left false }
    ensures missing_left { evaluated scope 2 (binary is_in (lit (entity view)) (var principal)) ≡ truth_left false }
    ensures not_loaded { evaluated scope 2 (binary is_in (lit (entity user_b)) (lit (entity user_b))) ≡ residual (binary is_in standing_b (lit (entity user_b))) }
    ensures right_unasked { evaluated scope 2 (binary is_in (lit (entity user_b)) (number 1)) ≡ residual (binary is_in standing_b (number 1)) }
    ensures right_number { evaluated scope 2 (binary is_in (var principal) (number 1)) ≡ errs wrong_type }
    ensures left_number { evaluated scope 2 (binary is_in (number 1) (var principal)) ≡ errs wrong_type }
{}

/// Attributes of entities: values, residual ones as they are, unknowns alone with their values; what isn't loaded leaves the unknown
/// named by its text.
pub fn worked_attributes()
    ensures value { evaluated scope 2 (get_attr (var principal) (codes "boss")) ≡ value_left (made_prim (entity user_b)) }
    ensures unknown_alone { evaluated scope 2 (get_attr (var principal) (codes "ok")) ≡ residual unknown_u }
    ensures with_its_value { evaluated (with_value (codes "u") (made_truth true)) 2 (get_attr (var principal) (codes "ok")) ≡ truth_left true }
    ensures as_it_is { evaluated (with_value (codes "u") (made_truth true)) 2 (get_attr (var principal) (codes "rest")) ≡ residual (record_literal (tree_field (codes "y") unknown_u no_tree_fields)) }
    ensures lacking { evaluated scope 2 (get_attr (var principal) (codes "nick")) ≡ errs missing_attribute_or_tag }
    ensures missing { evaluated scope 2 (get_attr (lit (entity view)) (codes "ok")) ≡ errs (missing_entity view) }
    ensures not_loaded { evaluated scope 2 (get_attr (lit (entity user_b)) (codes "spoon")) ≡ residual (get_attr standing_b (codes "spoon")) }
    ensures of_number { evaluated scope 2 (get_attr (number 1) (codes "ok")) ≡ errs wrong_type }
    ensures has { evaluated scope 2 (has_attr (var principal) (codes "ok")) ≡ truth_left true }
    ensures has_not { evaluated scope 2 (has_attr (var principal) (codes "nick")) ≡ truth_left false }
    ensures missing_has_not { evaluated scope 2 (has_attr (lit (entity view)) (codes "ok")) ≡ truth_left false }
    ensures not_loaded_has { evaluated scope 2 (has_attr (lit (entity user_b)) (codes "ok")) ≡ residual (has_attr standing_b (codes "ok")) }
    ensures number_has { evaluated scope 2 (has_attr (number 1) (codes "ok")) ≡ errs wrong_type }
{}

/// Tags: a residual tag is left as it is, even an unknown with a value.
pub fn worked_tags()
    ensures value { evaluated scope 2 (binary get_tag (var principal) (lit (text (codes "t")))) ≡ value_left (made_number 1) }
    ensures as_it_is { evaluated (with_value (codes "a") (made_number 1)) 2 (binary get_tag (var principal) (lit (text (codes "later")))) ≡ residual unknown_a }
    ensures lacking { evaluated scope 2 (binary get_tag (var principal) (lit (text (codes "boss")))) ≡ errs missing_attribute_or_tag }
    ensures missing { evaluated scope 2 (binary get_tag (lit (entity view)) (lit (text (codes "t")))) ≡ errs (missing_entity view) }
    ensures not_loaded { evaluated scope 2 (binary get_tag (lit (entity user_b)) (lit (text (codes "t")))) ≡ residual (binary get_tag standing_b (lit (text (codes "t")))) }
    ensures has { evaluated scope 2 (binary has_tag (var principal) (lit (text (codes "later")))) ≡ truth_left true }
    ensures has_not { evaluated scope 2 (binary has_tag (lit (entity view)) (lit (text (codes "t")))) ≡ truth_left false }
    ensures number { evaluated scope 2 (binary has_tag (var principal) (number 1)) ≡ errs wrong_type }
{}

/// Fields of residual records: a projectable record gives the field, evaluated again one deeper; another keeps the access.
pub fn worked_records()
    ensures projected { evaluated scope 3 (get_attr (record_literal (tree_field (codes "x") (number 1) (tree_field (codes "y") unknown_u no_tree_fields))) (codes "x")) ≡ value_left (made_number 1) }
    ensures projected_no { evaluated scope 3 (get_attr (record_literal (tree_field (codes "x") (number 1) (tree_field (codes "y") unknown_u no_tree_fields))) (codes "z")) ≡ errs missing_field }
    ensures kept { evaluated scope 4 (get_attr (record_literal (tree_field (codes "x") (number 1) (tree_field (codes "y") (unary negation unknown_u) no_tree_fields))) (codes "x")) ≡ residual (get_attr (record_literal (tree_field (codes "x") (number 1) (tree_field (codes "y") (unary negation unknown_u) no_tree_fields))) (codes "x")) }
    ensures kept_no { evaluated scope 4 (get_attr (record_literal (tree_field (codes "x") (number 1) (tree_field (codes "y") (unary negation unknown_u) no_tree_fields))) (codes "z")) ≡ errs missing_field }
    ensures has { evaluated scope 3 (has_attr (record_literal (tree_field (codes "y") unknown_u no_tree_fields)) (codes "y")) ≡ truth_left true }
    ensures has_not { evaluated scope 3 (has_attr (record_literal (tree_field (codes "y") unknown_u no_tree_fields)) (codes "z")) ≡ truth_left false }
    ensures has_kept { evaluated scope 4 (has_attr (record_literal (tree_field (codes "y") (unary negation unknown_u) no_tree_fields)) (codes "z")) ≡ residual (has_attr (record_literal (tree_field (codes "y") (unary negation unknown_u) no_tree_fields)) (codes "z")) }
    ensures of_unknown { evaluated scope 2 (get_attr unknown_u (codes "x")) ≡ residual (get_attr unknown_u (codes "x")) }
    ensures field_too_deep { evaluated (with_context deep_context) 2 (get_attr (var context) (codes "r")) ≡ stopped limit }
    ensures field_within { evaluated (with_context deep_context) 3 (get_attr (var context) (codes "r")) ≡ residual (record_literal (tree_field (codes "s") unknown_u no_tree_fields)) }
{}

/// Paths of attributes: `User::"a"` has a boss, who isn't loaded, and a residual `rest`; the document has an owner and a place.
pub fn worked_paths()
    ensures last_residual { evaluated scope 2 (has_path (var resource) (codes "owner") (codes "ok" ∷ [])) ≡ truth_left true }
    ensures last_lacking { evaluated scope 2 (has_path (var resource) (codes "owner") (codes "nick" ∷ [])) ≡ truth_left false }
    ensures first_lacking { evaluated scope 2 (has_path (var resource) (codes "nick") (codes "ok" ∷ [])) ≡ truth_left false }
    ensures of_record { evaluated scope 2 (has_path (var resource) (codes "place") (codes "x" ∷ [])) ≡ truth_left true }
    ensures beyond_value { evaluated scope 2 (has_path (var resource) (codes "place") (codes "x" ∷ codes "y" ∷ [])) ≡ errs wrong_type }
    ensures missing { evaluated scope 2 (has_path (lit (entity view)) (codes "x") (codes "y" ∷ [])) ≡ truth_left false }
    ensures last_not_loaded { evaluated scope 2 (has_path (var principal) (codes "boss") (codes "ok" ∷ [])) ≡ residual (has_attr standing_b (codes "ok")) }
    ensures not_loaded { evaluated scope 2 (has_path (var resource) (codes "owner") (codes "boss" ∷ codes "ok" ∷ codes "x" ∷ [])) ≡ residual (has_path standing_b (codes "ok") (codes "x" ∷ [])) }
    ensures residual_inside { evaluated scope 2 (has_path (var principal) (codes "rest") (codes "y" ∷ codes "z" ∷ [])) ≡ residual (has_path (record_literal (tree_field (codes "y") unknown_u no_tree_fields)) (codes "y") (codes "z" ∷ [])) }
    ensures unknown_inside { evaluated (with_value (codes "u") (made_truth true)) 2 (has_path (var principal) (codes "ok") (codes "y" ∷ [])) ≡ residual (has_attr unknown_u (codes "y")) }
    ensures of_residual { evaluated scope 2 (has_path unknown_u (codes "x") (codes "y" ∷ [])) ≡ residual (has_path unknown_u (codes "x") (codes "y" ∷ [])) }
{}

/// Calls: first the arguments in order; then the function, their count and their types; a residual argument keeps the call.
pub fn worked_calls()
    ensures value { evaluated scope 2 (call rank (tree (lit (text (codes "7"))) no_trees)) ≡ value_left (made_extension rank (codes "7") rank (text (codes "7") ∷ [])) }
    ensures fails { evaluated scope 2 (call rank (tree (lit (text [])) no_trees)) ≡ errs (extension_failed rank) }
    ensures unknown_name { evaluated scope 2 (call doc (tree (number 1) no_trees)) ≡ errs no_function }
    ensures count { evaluated scope 2 (call rank (tree (number 1) (tree (number 2) no_trees))) ≡ errs wrong_count }
    ensures kind { evaluated scope 2 (call rank (tree (number 1) no_trees)) ≡ errs wrong_type }
    ensures stays { evaluated scope 2 (call doc (tree unknown_u no_trees)) ≡ residual (call doc (tree unknown_u no_trees)) }
    ensures argument { evaluated scope 2 (call rank (tree unknown_u (tree (slot resource_slot) no_trees))) ≡ errs unlinked_slot }
    ensures leaves { evaluated scope 2 (call later (tree (lit (text (codes "u"))) no_trees)) ≡ residual unknown_u }
    ensures less { evaluated scope 3 (binary less (call rank (tree (lit (text (codes "7"))) no_trees)) (call rank (tree (lit (text (codes "8"))) no_trees))) ≡ truth_left true }
    ensures argument_written { evaluated scope 3 (binary less (call rank (tree (lit (text (codes "7"))) no_trees)) unknown_u) ≡ residual (binary less (call rank (tree (lit (text (codes "7"))) no_trees)) unknown_u) }
{}

/// Sets and records: of values alone a value, else the expressions that are left, each value written.
pub fn worked_collections()
    ensures set { evaluated scope 2 (set_literal (tree (number 2) (tree (number 1) (tree (number 2) no_trees)))) ≡ value_left (made_set (made (made_number 1) (made (made_number 2) no_mades))) }
    ensures first_of_equal { made_members (made_extension rank (codes "7") rank (text (codes "07") ∷ []) ∷ made_extension rank (codes "7") rank (text (codes "7") ∷ []) ∷ []) ≡ made (made_extension rank (codes "7") rank (text (codes "07") ∷ [])) no_mades }
    ensures set_left { evaluated scope 3 (set_literal (tree (binary plus (number 1) (number 1)) (tree unknown_u no_trees))) ≡ residual (set_literal (tree (number 2) (tree unknown_u no_trees))) }
    ensures set_errs { evaluated scope 2 (set_literal (tree unknown_u (tree (slot principal_slot) no_trees))) ≡ errs unlinked_slot }
    ensures record { evaluated scope 2 (record_literal (tree_field (codes "x") (number 1) no_tree_fields)) ≡ value_left (made_record (made_field (codes "x") (made_number 1) no_made_fields)) }
    ensures record_left { evaluated scope 2 (record_literal (tree_field (codes "x") (number 1) (tree_field (codes "y") unknown_u no_tree_fields))) ≡ residual (record_literal (tree_field (codes "x") (number 1) (tree_field (codes "y") unknown_u no_tree_fields))) }
    ensures record_errs { evaluated scope 2 (record_literal (tree_field (codes "x") (slot principal_slot) (tree_field (codes "y") unknown_u no_tree_fields))) ≡ errs unlinked_slot }
{}

//! Worked examples of the definitions for every kind, computed. Each function's contract is what comes out; its body does nothing.

ghost use Rattle.std.specs.Prelude.{◌≡◌, Bool, true, false, Option, Some, None, ℤ, pos, neg_ℤ, codes, [], ◌∷◌};
ghost use Rattle.cedar_expr_model.specs.Value.{Literal, truth, long, text, entity, V, prim, set_of, record_of, extension, no_values, value, no_fields, field, truth_value};
ghost use Rattle.cedar_expr_model.specs.Pattern.{character, wildcard};
ghost use Rattle.cedar_expr_model.specs.Tree.{Tree, lit, var, slot, unknown, choice, both, either, unary, binary, call, get_attr, has_attr, has_path, like, is_type, set_literal, record_literal, no_trees, tree, no_tree_fields, tree_field, principal, action, resource, context, principal_slot, resource_slot, negation, minus, is_empty, equal, less, less_or_equal, plus, difference, times, remainder, is_in, contains, contains_all, contains_any, get_tag, has_tag, entity_core, nesting};
ghost use Rattle.cedar_store_model.specs.Outcome.{Res, val, err, missing_entity, missing_attribute_or_tag, missing_field, wrong_type, overflow, zero_divisor, extension_failed, no_function, wrong_count, unlinked_slot};
ghost use Rattle.cedar_expr_model.specs.ValueParts.{Part, known, left};
ghost use Rattle.cedar_store_model.specs.World.{Found, held, missing, not_loaded};
ghost use Rattle.cedar_store_model.specs.Operators.{says};
ghost use Rattle.cedar_store_model.specs.Meaning.{outcome_of};
ghost use Rattle.cedar_store_model.specs.Looks.{Looks};
ghost use Rattle.cedar_store_model.specs.Laws.{has_dereference};
ghost use Rattle.cedar_store_model.specs.Knowledge.{holds_values, IsWhole};
ghost use Rattle.cedar_store_model.specs.OfLaws.Extends.{KeepsPart, Extends};
ghost use Rattle.cedar_store_model.specs.Store.{are_distinct, store_of, look_up, stand_in, with_ancestor, with_absence, whole, partial, all_of, some_of, as_open, world_of};
ghost use Rattle.cedar_store_model.specs.Worked.{user, doc, user_a, user_b, user_z, ghost_g, team, no_uid, doc_d, view, edit, number, below_zero, word, uid, says_true, says_false, one_tree, two_trees, uid_value, number_value, ok_of, boss_of, no_field, no_entity, rank, blob, later, pair, plain, rank_of, blob_of, person, unfinished, table, request, entities, without_b, world, world_without_b, bound_world, nothing_loaded, a_loaded, principal_open, a_unfinished};

/// Arithmetic: a result of more than 64 bits is an overflow, and operands must be whole numbers. What a division leaves has the sign of
/// the dividend, and a divisor of zero is an error of its own.
pub fn worked_arithmetic()
    ensures past_the_end { outcome_of world (binary plus (number 9223372036854775807) (number 1)) ≡ Some (err overflow) }
    ensures at_the_end { outcome_of world (binary plus (number 9223372036854775806) (number 1)) ≡ Some (val (number_value 9223372036854775807)) }
    ensures least_negated { outcome_of world (unary minus (below_zero 9223372036854775808)) ≡ Some (err overflow) }
    ensures greatest_negated { outcome_of world (unary minus (number 9223372036854775807)) ≡ Some (val (prim (long (neg_ℤ (pos 9223372036854775807))))) }
    ensures below_the_least { outcome_of world (binary difference (below_zero 9223372036854775808) (number 1)) ≡ Some (err overflow) }
    ensures at_the_least { outcome_of world (binary difference (below_zero 9223372036854775807) (number 1)) ≡ Some (val (prim (long (neg_ℤ (pos 9223372036854775808))))) }
    ensures product { outcome_of world (binary times (below_zero 3) (number 4)) ≡ Some (val (prim (long (neg_ℤ (pos 12))))) }
    ensures large_product { outcome_of world (binary times (number 4294967296) (number 2147483648)) ≡ Some (err overflow) }
    ensures left_below_zero { outcome_of world (binary remainder (below_zero 7) (number 3)) ≡ Some (val (prim (long (neg_ℤ (pos 1))))) }
    ensures left_above_zero { outcome_of world (binary remainder (number 7) (below_zero 3)) ≡ Some (val (number_value 1)) }
    ensures least_divided { outcome_of world (binary remainder (below_zero 9223372036854775808) (below_zero 1)) ≡ Some (val (number_value 0)) }
    ensures divided_by_zero { outcome_of world (binary remainder (number 5) (number 0)) ≡ Some (err zero_divisor) }
    ensures text_divided { outcome_of world (binary remainder (word (codes "a")) (number 0)) ≡ Some (err wrong_type) }
    ensures text_added { outcome_of world (binary plus (word (codes "a")) (number 1)) ≡ Some (err wrong_type) }
    ensures text_negated { outcome_of world (unary minus (word (codes "a"))) ≡ Some (err wrong_type) }
{}

/// Truth values: a conjunction, a disjunction and a choice take only the sides that they need, and ask those for truth values.
pub fn worked_truth()
    ensures false_first { outcome_of world (both says_false no_field) ≡ Some (says false) }
    ensures true_first { outcome_of world (both says_true no_field) ≡ Some (err missing_field) }
    ensures number_right { outcome_of world (both says_true (number 1)) ≡ Some (err wrong_type) }
    ensures number_left { outcome_of world (both (number 1) no_field) ≡ Some (err wrong_type) }
    ensures true_either { outcome_of world (either says_true no_field) ≡ Some (says true) }
    ensures false_either { outcome_of world (either says_false (number 1)) ≡ Some (err wrong_type) }
    ensures either_right { outcome_of world (either says_false says_true) ≡ Some (says true) }
    ensures then_branch { outcome_of world (choice says_true (number 1) no_field) ≡ Some (val (number_value 1)) }
    ensures else_branch { outcome_of world (choice says_false no_field (number 2)) ≡ Some (val (number_value 2)) }
    ensures no_test { outcome_of world (choice (number 1) (number 1) (number 2)) ≡ Some (err wrong_type) }
    ensures negated { outcome_of world (unary negation says_true) ≡ Some (says false) }
    ensures number_negated { outcome_of world (unary negation (number 1)) ≡ Some (err wrong_type) }
{}

/// Attributes: a missing entity, a missing attribute and a missing field are three errors; a test of presence fails at none of them.
pub fn worked_attributes()
    ensures there { outcome_of world (ok_of (var principal)) ≡ Some (says true) }
    ensures no_entity { outcome_of world (ok_of (uid ghost_g)) ≡ Some (err (missing_entity ghost_g)) }
    ensures no_attribute { outcome_of world (get_attr (var principal) (codes "nick")) ≡ Some (err missing_attribute_or_tag) }
    ensures field_there { outcome_of world (get_attr (var context) (codes "n")) ≡ Some (val (number_value 1)) }
    ensures no_field { outcome_of world (get_attr (var context) (codes "none")) ≡ Some (err missing_field) }
    ensures of_number { outcome_of world (get_attr (number 1) (codes "n")) ≡ Some (err wrong_type) }
    ensures has_it { outcome_of world (has_attr (var principal) (codes "ok")) ≡ Some (says true) }
    ensures has_it_not { outcome_of world (has_attr (var principal) (codes "nick")) ≡ Some (says false) }
    ensures ghost_has_not { outcome_of world (has_attr (uid ghost_g) (codes "ok")) ≡ Some (says false) }
    ensures has_field { outcome_of world (has_attr (var context) (codes "n")) ≡ Some (says true) }
    ensures number_has { outcome_of world (has_attr (number 1) (codes "n")) ≡ Some (err wrong_type) }
    ensures no_tag_read { outcome_of world (get_attr (var principal) (codes "size")) ≡ Some (err missing_attribute_or_tag) }
{}

/// A path of attributes is false at the first that is missing; of the last its presence alone is asked.
pub fn worked_paths()
    ensures there { outcome_of world (has_path (var resource) (codes "owner") (codes "boss" ∷ [])) ≡ Some (says true) }
    ensures longer { outcome_of world (has_path (var resource) (codes "owner") (codes "boss" ∷ codes "ok" ∷ [])) ≡ Some (says true) }
    ensures last_missing { outcome_of world (has_path (var resource) (codes "owner") (codes "nick" ∷ [])) ≡ Some (says false) }
    ensures first_missing { outcome_of world (has_path (var resource) (codes "none") (codes "ok" ∷ [])) ≡ Some (says false) }
    ensures from_ghost { outcome_of world (has_path (uid ghost_g) (codes "boss") (codes "ok" ∷ [])) ≡ Some (says false) }
    ensures through_record { outcome_of world (has_path (record_literal (tree_field (codes "u") (var principal) no_tree_fields)) (codes "u") (codes "ok" ∷ [])) ≡ Some (says true) }
    ensures through_truth { outcome_of world (has_path (var principal) (codes "ok") (codes "x" ∷ [])) ≡ Some (err wrong_type) }
    ensures from_number { outcome_of world (has_path (number 1) (codes "ok") (codes "x" ∷ [])) ≡ Some (err wrong_type) }
    ensures last_unread { outcome_of a_unfinished (has_path (record_literal (tree_field (codes "u") (var principal) no_tree_fields)) (codes "u") (codes "ok" ∷ [])) ≡ Some (says true) }
    ensures before_last { outcome_of a_unfinished (has_path (var principal) (codes "ok") (codes "x" ∷ [])) ≡ None }
{}

/// Tags are read as attributes are; their name is a text.
pub fn worked_tags()
    ensures there { outcome_of world (binary get_tag (var principal) (word (codes "size"))) ≡ Some (val (number_value 3)) }
    ensures no_tag { outcome_of world (binary get_tag (var principal) (word (codes "ok"))) ≡ Some (err missing_attribute_or_tag) }
    ensures no_entity { outcome_of world (binary get_tag (uid ghost_g) (word (codes "size"))) ≡ Some (err (missing_entity ghost_g)) }
    ensures name_a_number { outcome_of world (binary get_tag (var principal) (number 1)) ≡ Some (err wrong_type) }
    ensures of_number { outcome_of world (binary get_tag (number 1) (word (codes "size"))) ≡ Some (err wrong_type) }
    ensures has_it { outcome_of world (binary has_tag (var principal) (word (codes "size"))) ≡ Some (says true) }
    ensures has_it_not { outcome_of world (binary has_tag (var principal) (word (codes "ok"))) ≡ Some (says false) }
    ensures ghost_has_not { outcome_of world (binary has_tag (uid ghost_g) (word (codes "size"))) ≡ Some (says false) }
    ensures has_number { outcome_of world (binary has_tag (var principal) (number 1)) ≡ Some (err wrong_type) }
    ensures unfinished { outcome_of a_unfinished (binary get_tag (var principal) (word (codes "size"))) ≡ None }
    ensures unfinished_there { outcome_of a_unfinished (binary has_tag (var principal) (word (codes "size"))) ≡ Some (says true) }
{}

/// `in`: true of the uid itself and of a recorded ancestor, of an entity or of one in a set. A missing left has no ancestors.
pub fn worked_in()
    ensures itself { outcome_of world (binary is_in (var principal) (uid user_a)) ≡ Some (says true) }
    ensures ancestor { outcome_of world (binary is_in (var principal) (uid team)) ≡ Some (says true) }
    ensures other { outcome_of world (binary is_in (var principal) (uid user_b)) ≡ Some (says false) }
    ensures missing_itself { outcome_of world (binary is_in (uid ghost_g) (uid ghost_g)) ≡ Some (says true) }
    ensures missing_other { outcome_of world (binary is_in (uid ghost_g) (uid team)) ≡ Some (says false) }
    ensures in_set { outcome_of world (binary is_in (var principal) (set_literal (two_trees (uid user_b) (uid team)))) ≡ Some (says true) }
    ensures not_in_set { outcome_of world (binary is_in (var principal) (set_literal (two_trees (uid user_b) (uid user_z)))) ≡ Some (says false) }
    ensures in_nothing { outcome_of world (binary is_in (var principal) (set_literal no_trees)) ≡ Some (says false) }
    ensures mixed_set { outcome_of world (binary is_in (var principal) (set_literal (two_trees (uid user_a) (number 1)))) ≡ Some (err wrong_type) }
    ensures in_number { outcome_of world (binary is_in (var principal) (number 1)) ≡ Some (err wrong_type) }
    ensures number_in { outcome_of world (binary is_in (number 1) (uid team)) ≡ Some (err wrong_type) }
    ensures not_known { outcome_of nothing_loaded (binary is_in (var principal) (uid user_a)) ≡ None }
    ensures right_not_loaded { outcome_of a_loaded (binary is_in (var principal) (uid team)) ≡ Some (says true) }
{}

/// Equality never fails. Order is that of whole numbers, and of two values of one extension type that the table lists.
pub fn worked_order()
    ensures same { outcome_of world (binary equal (number 1) (number 1)) ≡ Some (says true) }
    ensures other_kind { outcome_of world (binary equal (number 1) (word (codes "1"))) ≡ Some (says false) }
    ensures same_sets { outcome_of world (binary equal (set_literal (two_trees (number 1) (number 2))) (set_literal (tree (number 2) (two_trees (number 1) (number 2))))) ≡ Some (says true) }
    ensures below { outcome_of world (binary less (below_zero 1) (number 1)) ≡ Some (says true) }
    ensures not_below { outcome_of world (binary less (number 1) (number 1)) ≡ Some (says false) }
    ensures at_most { outcome_of world (binary less_or_equal (number 1) (number 1)) ≡ Some (says true) }
    ensures number_and_text { outcome_of world (binary less (number 1) (word (codes "2"))) ≡ Some (err wrong_type) }
    ensures two_texts { outcome_of world (binary less (word (codes "1")) (word (codes "2"))) ≡ Some (err wrong_type) }
    ensures ranks { outcome_of world (binary less (rank_of (codes "1")) (rank_of (codes "2"))) ≡ Some (says true) }
    ensures ranks_at_most { outcome_of world (binary less_or_equal (rank_of (codes "2")) (rank_of (codes "1"))) ≡ Some (says false) }
    ensures blobs { outcome_of world (binary less (blob_of (codes "1")) (blob_of (codes "2"))) ≡ Some (err wrong_type) }
    ensures rank_and_blob { outcome_of world (binary less (rank_of (codes "1")) (blob_of (codes "2"))) ≡ Some (err wrong_type) }
{}

/// Sets, patterns and tests of a type.
pub fn worked_sets_and_tests()
    ensures contained { outcome_of world (binary contains (set_literal (two_trees (number 1) (number 2))) (number 2)) ≡ Some (says true) }
    ensures not_contained { outcome_of world (binary contains (set_literal (one_tree (number 1))) (number 2)) ≡ Some (says false) }
    ensures no_set { outcome_of world (binary contains (number 1) (number 1)) ≡ Some (err wrong_type) }
    ensures all_contained { outcome_of world (binary contains_all (set_literal (two_trees (number 1) (number 2))) (set_literal (one_tree (number 2)))) ≡ Some (says true) }
    ensures not_all { outcome_of world (binary contains_all (set_literal (one_tree (number 2))) (set_literal (two_trees (number 1) (number 2)))) ≡ Some (says false) }
    ensures all_of_number { outcome_of world (binary contains_all (set_literal no_trees) (number 1)) ≡ Some (err wrong_type) }
    ensures any_contained { outcome_of world (binary contains_any (set_literal (one_tree (number 2))) (set_literal (two_trees (number 1) (number 2)))) ≡ Some (says true) }
    ensures none_contained { outcome_of world (binary contains_any (set_literal (one_tree (number 3))) (set_literal (two_trees (number 1) (number 2)))) ≡ Some (says false) }
    ensures any_of_number { outcome_of world (binary contains_any (number 1) (set_literal no_trees)) ≡ Some (err wrong_type) }
    ensures empty { outcome_of world (unary is_empty (set_literal no_trees)) ≡ Some (says true) }
    ensures not_empty { outcome_of world (unary is_empty (set_literal (one_tree (number 1)))) ≡ Some (says false) }
    ensures empty_number { outcome_of world (unary is_empty (number 1)) ≡ Some (err wrong_type) }
    ensures alike { outcome_of world (like (word (codes "foo bar")) (character 102 ∷ wildcard ∷ wildcard ∷ character 114 ∷ [])) ≡ Some (says true) }
    ensures not_alike { outcome_of world (like (word (codes "a")) []) ≡ Some (says false) }
    ensures number_alike { outcome_of world (like (number 1) (wildcard ∷ [])) ≡ Some (err wrong_type) }
    ensures of_type { outcome_of world (is_type (var principal) user) ≡ Some (says true) }
    ensures of_other_type { outcome_of world (is_type (var principal) doc) ≡ Some (says false) }
    ensures number_of_type { outcome_of world (is_type (number 1) user) ≡ Some (err wrong_type) }
    ensures ghost_of_type { outcome_of nothing_loaded (is_type (uid ghost_g) user) ≡ Some (says false) }
{}

/// Set literals hold each member once, in their order; record literals hold their fields.
pub fn worked_literals()
    ensures members { outcome_of world (set_literal (tree (number 2) (two_trees (number 1) (number 2)))) ≡ Some (val (set_of (value (number_value 1) (value (number_value 2) no_values)))) }
    ensures no_members { outcome_of world (set_literal no_trees) ≡ Some (val (set_of no_values)) }
    ensures fields { outcome_of world (record_literal (tree_field (codes "a") (number 1) (tree_field (codes "b") (var action) no_tree_fields))) ≡ Some (val (record_of (field (codes "a") (number_value 1) (field (codes "b") (uid_value view) no_fields)))) }
    ensures of_context { outcome_of world (var context) ≡ Some (val (record_of (field (codes "n") (number_value 1) no_fields))) }
{}

/// Calls: the arguments come first, then the function is looked up, then their count, their types, and the answer.
pub fn worked_calls()
    ensures answer { outcome_of world (rank_of (codes "1")) ≡ Some (val (extension rank (codes "1"))) }
    ensures failure { outcome_of world (rank_of (codes "x")) ≡ Some (err (extension_failed rank)) }
    ensures unknown_function { outcome_of world (call user no_trees) ≡ Some (err no_function) }
    ensures count { outcome_of world (call rank (two_trees (word (codes "1")) (word (codes "2")))) ≡ Some (err wrong_count) }
    ensures argument_type { outcome_of world (call rank (one_tree (number 1))) ≡ Some (err wrong_type) }
    ensures count_before_type { outcome_of world (call rank (two_trees (number 1) (number 2))) ≡ Some (err wrong_count) }
    ensures arguments_first { outcome_of world (call user (one_tree no_field)) ≡ Some (err missing_field) }
    ensures too_few { outcome_of world (call pair (one_tree (word (codes "1")))) ≡ Some (err wrong_count) }
    ensures further_type { outcome_of world (call pair (tree (word (codes "1")) (two_trees (word (codes "2")) (number 3)))) ≡ Some (err wrong_type) }
    ensures further { outcome_of world (call pair (tree (word (codes "1")) (two_trees (word (codes "2")) (word (codes "3"))))) ≡ Some (err (extension_failed pair)) }
    ensures left_open { outcome_of world (call later no_trees) ≡ None }
    ensures left_bound { outcome_of bound_world (call later no_trees) ≡ Some (val (number_value 5)) }
{}

/// The first error is the outcome: children in order, and operand types after both operands.
pub fn worked_first_errors()
    ensures left_first { outcome_of world (binary plus no_field no_entity) ≡ Some (err missing_field) }
    ensures right_before_types { outcome_of world (binary plus says_true no_entity) ≡ Some (err (missing_entity ghost_g)) }
    ensures right_before_lookup { outcome_of world (binary is_in (number 1) no_field) ≡ Some (err missing_field) }
    ensures members { outcome_of world (set_literal (tree (number 1) (two_trees no_entity no_field))) ≡ Some (err (missing_entity ghost_g)) }
    ensures fields { outcome_of world (record_literal (tree_field (codes "a") no_field (tree_field (codes "b") no_entity no_tree_fields))) ≡ Some (err missing_field) }
    ensures arguments { outcome_of world (call rank (two_trees no_entity no_field)) ≡ Some (err (missing_entity ghost_g)) }
    ensures operand { outcome_of world (ok_of no_field) ≡ Some (err missing_field) }
    ensures test { outcome_of world (choice no_field (number 1) (number 2)) ≡ Some (err missing_field) }
{}

/// Slots without a binding are errors; what is open has no outcome.
pub fn worked_open()
    ensures unlinked { outcome_of world (slot principal_slot) ≡ Some (err unlinked_slot) }
    ensures linked { outcome_of (record world { slots = λ s. Some user_b }) (slot resource_slot) ≡ Some (val (uid_value user_b)) }
    ensures unbound { outcome_of world (unknown (codes "u") None) ≡ None }
    ensures bound { outcome_of bound_world (unknown (codes "u") None) ≡ Some (val (number_value 5)) }
    ensures principal_open { outcome_of principal_open (var principal) ≡ None }
    ensures context_open { outcome_of principal_open (has_attr (var context) (codes "n")) ≡ None }
    ensures resource_known { outcome_of principal_open (var resource) ≡ Some (val (uid_value doc_d)) }
    ensures not_loaded { outcome_of a_loaded (ok_of (var resource)) ≡ None }
    ensures not_loaded_has { outcome_of a_loaded (has_attr (var resource) (codes "ok")) ≡ None }
    ensures loaded { outcome_of a_loaded (ok_of (var principal)) ≡ Some (says true) }
    ensures unfinished { outcome_of a_unfinished (ok_of (var principal)) ≡ None }
    ensures unfinished_there { outcome_of a_unfinished (has_attr (var principal) (codes "ok")) ≡ Some (says true) }
    ensures not_loaded_first { outcome_of principal_open (both no_entity (var principal)) ≡ None }
    ensures first_decides { outcome_of principal_open (both says_false (var principal)) ≡ Some (says false) }
{}

/// Which expressions have a dereference.
pub fn worked_dereferences()
    ensures none { has_dereference (both (is_type (var principal) user) (binary equal (var principal) (uid user_a))) ≡ false }
    ensures attribute { has_dereference (both says_false (ok_of (var principal))) ≡ true }
    ensures inside { has_dereference (binary is_in (var principal) (uid user_a)) ≡ true }
    ensures tag { has_dereference (set_literal (one_tree (binary has_tag (var principal) (word (codes "x"))))) ≡ true }
    ensures argument { has_dereference (call rank (one_tree (has_attr (var context) (codes "n")))) ≡ true }
    ensures path { has_dereference (record_literal (tree_field (codes "a") (has_path (var context) (codes "n") (codes "m" ∷ [])) no_tree_fields)) ≡ true }
    ensures no_lookup { has_dereference (binary contains (set_literal no_trees) (var principal)) ≡ false }
{}

/// Stores: an absent entity is missing in a whole store and not loaded in a partial one, unless its absence is recorded. What is no uid is
/// missing in both, whatever stands under it.
pub fn worked_stores()
    ensures there { look_up (some_of entities []) user_a ≡ held (person user_a true) }
    ensures absent { look_up (all_of entities) ghost_g ≡ missing }
    ensures unloaded { look_up (some_of without_b []) user_b ≡ not_loaded }
    ensures recorded { look_up (some_of without_b (user_b ∷ [])) user_b ≡ missing }
    ensures recorded_for_one { look_up (some_of [] (user_b ∷ [])) user_a ≡ not_loaded }
    ensures recorded_in_a_whole_store { look_up (record (all_of entities) { absent = user_a ∷ [] }) user_a ≡ held (person user_a true) }
    ensures recorded_last { look_up (with_absence (some_of [] (user_a ∷ [])) user_b) user_b ≡ missing }
    ensures no_uid { look_up (some_of without_b []) no_uid ≡ missing }
    ensures no_uid_held { look_up (all_of ((no_uid, person user_a true) ∷ [])) no_uid ≡ missing }
    ensures distinct { are_distinct entities ≡ true }
    ensures repeated { are_distinct ((user_a, person user_a true) ∷ (doc_d, unfinished) ∷ (user_a, unfinished) ∷ []) ≡ false }
    ensures refused { store_of whole ((user_a, person user_a true) ∷ (user_a, person user_a true) ∷ []) ≡ None }
    ensures made { store_of partial without_b ≡ Some (some_of without_b []) }
    ensures empty { store_of whole [] ≡ Some (all_of []) }
    ensures stands_in { stand_in (record { kind = plain (codes "test_entity_type"); id = codes "missing" }) ≡ unknown (codes "test_entity_type::\"missing\"") (Some (entity_core (plain (codes "test_entity_type")))) }
    ensures ancestors { (with_ancestor user_b (person user_a true)).ancestors ≡ team ∷ user_b ∷ [] }
    ensures values { holds_values (person user_a true) ≡ true }
    ensures no_values { holds_values unfinished ≡ false }
{}

/// What is looked up: the left side of `in` alone, and each entity on the way; nothing on a side that isn't taken.
pub fn worked_lookups()
    ensures principal_attribute { Looks world (ok_of (var principal)) user_a }
    ensures on_the_way { Looks world (ok_of (boss_of (uid user_b))) user_b }
    ensures after_true { Looks world (both says_true (ok_of (var principal))) user_a }
    ensures left_alone { Looks world (binary is_in (uid user_a) (uid team)) team → ⊥ }
    ensures not_after_false { Looks world (both says_false (ok_of (var principal))) user_a → ⊥ }
{}

/// What knows more: parts that are values stay, a known absence stays, and what was held stays held.
pub fn worked_knowledge()
    ensures from_nothing { Extends nothing_loaded world }
    ensures not_back { Extends world nothing_loaded → ⊥ }
    ensures absence { Extends world_without_b world → ⊥ }
    ensures same_part { KeepsPart (Some (known (number_value 1))) (Some (known (number_value 1))) }
    ensures lost_part { KeepsPart (Some (known (number_value 1))) None → ⊥ }
    ensures new_part { KeepsPart None (Some (known (number_value 1))) → ⊥ }
    ensures finished_part { KeepsPart (Some (left (number 1))) (Some (known (number_value 2))) }
    ensures unfinished_stays { KeepsPart (Some (left (number 1))) None → ⊥ }
    ensures whole_world { IsWhole (world_of table (λ n. Some (number_value 5)) (as_open request) (all_of entities)) }
    ensures not_whole { IsWhole a_loaded → ⊥ }
    ensures open_is_not_whole { IsWhole principal_open → ⊥ }
{}

//! Worked examples of typing, verdicts and the scope rules, computed. Each function's contract is what comes out; its body does nothing.

ghost use Rattle.std.specs.Prelude.{◌≡◌, true, false, Some, None, [], ◌∷◌, pos, codes};
ghost use Rattle.cedar_expr_model.specs.Value.{truth, long, text, entity};
ghost use Rattle.cedar_expr_model.specs.Tree.{principal, action, resource, context, principal_slot, resource_slot, bool_core, set_core, string_core, lit, var, slot, unknown, choice, both, either, unary, binary, negation, minus, is_empty, equal, less, less_or_equal, plus, difference, times, remainder, is_in, contains, contains_all, contains_any, get_tag, has_tag, call, get_attr, has_attr, has_path, like, is_type, set_literal, record_literal, no_trees, tree, no_tree_fields, tree_field, nesting};
ghost use Rattle.cedar_store_model.specs.Policy.{condition};
ghost use Rattle.cedar_schema_model.specs.Types.{any_bool, only_true, only_false, is_open, is_closed, never, bool_type, long_type, string_type, any_entity, entity_types, entity_type, any_set, set_type, record_type, extension_type, no_attributes, attribute, strict, permissive};
ghost use Rattle.cedar_typechecker_model.specs.Facts.{no_facts, fact, union, intersection, attribute_part, tag_part, part_eq};
ghost use Rattle.cedar_typechecker_model.specs.Typing.{judgement, judged, type_of, type_under, conjoined, disjoined, path_judged};
ghost use Rattle.cedar_typechecker_model.specs.Rules.{literal_type, slot_type, order_type, number_type, sets_type, entity_or_set_kinds, may_be_in, written_uid, written_actions, has_type, get_type, tag_type, set_literal_type, core_as_type, arguments_fit, is_type_type, kinds_are};
ghost use Rattle.cedar_typechecker_model.specs.Levels.{needed, stepped, count, entity_steps, fields_before, violations, target};
ghost use Rattle.cedar_typechecker_model.specs.ScopeRules.{names_known_types, names_known_actions, names_known_members, policy_uids, policy_kinds};
ghost use Rattle.cedar_typechecker_model.specs.Verdicts.{passes, passes_in, is_warned, impossible, irrelevant_for, verdict_of, success, irrelevant, fail, policy_environments, policy_violations, in_mode, strictly};
ghost use Rattle.cedar_typechecker_model.specs.Worked.{user, doc, acting, phantom, user_a, doc_d, phantom_g, view, edit, read, boss, ok, nick, owner, info, size, group, group_g, color, red, blue, rank, small, nothing, no_table, here, loosely, viewing, viewing_types, permits_when, is_ok, the_boss, has_nick, nick_is_x, true_, false_, haunted, owned_by_staff, in_views, in_slot_of, large, ranks, there, info_type, rank_of, ranked, chosen_ok, alice, alice_ok, wrapped, needs, stands};

/// Literals, variables and slots. A uid of a declared type has it, also of an id that nothing declares; a uid of an undeclared
/// type has none; one of an action has its type where the action is declared.
pub fn worked_leaves()
    ensures truth { type_of here true_ ≡ Some (bool_type only_true) }
    ensures untruth { type_of here false_ ≡ Some (bool_type only_false) }
    ensures number { type_of here (lit (long (pos 1))) ≡ Some long_type }
    ensures word { type_of here (lit (text (codes "x"))) ≡ Some string_type }
    ensures uid { type_of here (lit (entity user_a)) ≡ Some (entity_type user) }
    ensures declared_action { type_of here (lit (entity view)) ≡ Some (entity_type acting) }
    ensures other_action { type_of here (lit (entity edit)) ≡ None }
    ensures undeclared { type_of here (lit (entity phantom_g)) ≡ None }
    ensures the_principal { type_of here (var principal) ≡ Some (entity_type user) }
    ensures the_action { type_of here (var action) ≡ Some (entity_type acting) }
    ensures the_resource { type_of here (var resource) ≡ Some (entity_type doc) }
    ensures the_context { type_of here (var context) ≡ Some (record_type no_attributes is_closed) }
    ensures typed_slot { type_of there (slot principal_slot) ≡ Some (entity_type group) }
    ensures free_slot { type_of there (slot resource_slot) ≡ Some any_entity }
    ensures no_unknown { type_of here (unknown (codes "u") (Some bool_core)) ≡ None }
{}

/// Negation of truth values and of numbers.
pub fn worked_unary()
    ensures of_truth { type_of here (unary negation true_) ≡ Some (bool_type only_false) }
    ensures of_untruth { type_of here (unary negation false_) ≡ Some (bool_type only_true) }
    ensures of_bool { type_of here (unary negation is_ok) ≡ Some (bool_type any_bool) }
    ensures no_facts_stay { judgement here no_facts (unary negation has_nick) ≡ judged (bool_type any_bool) no_facts }
    ensures of_number { type_of here (unary negation (lit (long (pos 1)))) ≡ None }
    ensures minus_number { type_of here (unary minus (lit (long (pos 1)))) ≡ Some long_type }
    ensures minus_bool { type_of here (unary minus true_) ≡ None }
    ensures empty_set { type_of here (unary is_empty (set_literal (tree true_ no_trees))) ≡ Some (bool_type any_bool) }
    ensures empty_word { type_of here (unary is_empty (lit (text (codes "x")))) ≡ None }
{}

/// A conjunction: behind False the right side isn't typed; the facts of the left hold on the right, and both hold after.
pub fn worked_and()
    ensures hidden { type_of here haunted ≡ Some (bool_type only_false) }
    ensures not_hidden { type_of here (both true_ (binary equal (lit (entity phantom_g)) (var principal))) ≡ None }
    ensures trues { judgement here no_facts (both true_ true_) ≡ judged (bool_type only_true) no_facts }
    ensures false_right { judgement here no_facts (both has_nick false_) ≡ judged (bool_type only_false) no_facts }
    ensures true_left { type_of here (both true_ is_ok) ≡ Some (bool_type any_bool) }
    ensures true_right { judgement here no_facts (both has_nick true_) ≡ judged (bool_type any_bool) (fact (var principal) (attribute_part nick)) }
    ensures guarded { type_of here (both has_nick nick_is_x) ≡ Some (bool_type any_bool) }
    ensures turned { type_of here (both nick_is_x has_nick) ≡ None }
    ensures after { type_of here (both (both is_ok has_nick) nick_is_x) ≡ Some (bool_type any_bool) }
    ensures nested { type_of here (both has_nick (both is_ok nick_is_x)) ≡ Some (bool_type any_bool) }
    ensures nested_in_or { type_of here (both has_nick (either nick_is_x is_ok)) ≡ Some (bool_type any_bool) }
    ensures nested_in_choice { type_of here (both has_nick (choice is_ok nick_is_x nick_is_x)) ≡ Some (bool_type any_bool) }
    ensures both_facts { type_under here (fact (var resource) (attribute_part nick)) (both has_nick nick_is_x) ≡ Some (bool_type any_bool) }
    ensures number_left { type_of here (both (lit (long (pos 1))) true_) ≡ None }
    ensures number_right { type_of here (both true_ (lit (long (pos 1)))) ≡ None }
{}

/// A disjunction: behind True the right side isn't typed; after it holds what both sides give.
pub fn worked_or()
    ensures hidden { type_of here (either true_ nick_is_x) ≡ Some (bool_type only_true) }
    ensures not_hidden { type_of here (either false_ nick_is_x) ≡ None }
    ensures true_right { judgement here no_facts (either has_nick true_) ≡ judged (bool_type only_true) no_facts }
    ensures false_left { judgement here no_facts (either false_ has_nick) ≡ judged (bool_type any_bool) (fact (var principal) (attribute_part nick)) }
    ensures false_right { judgement here no_facts (either has_nick false_) ≡ judged (bool_type any_bool) (fact (var principal) (attribute_part nick)) }
    ensures falses { type_of here (either false_ false_) ≡ Some (bool_type only_false) }
    ensures one_side { type_of here (both (either has_nick is_ok) nick_is_x) ≡ None }
    ensures both_sides { type_of here (both (either has_nick (both is_ok has_nick)) nick_is_x) ≡ Some (bool_type any_bool) }
    ensures not_for_the_right { type_of here (either has_nick nick_is_x) ≡ None }
    ensures number_right { type_of here (either is_ok (lit (long (pos 1)))) ≡ None }
{}

/// A choice: behind True and False one branch is typed; the test's facts hold in the first; after it holds what both branches give.
pub fn worked_choice()
    ensures guarded { type_of here (choice has_nick nick_is_x true_) ≡ Some (bool_type any_bool) }
    ensures unguarded { type_of here (choice has_nick true_ nick_is_x) ≡ None }
    ensures first { type_of here (choice true_ (lit (long (pos 1))) nick_is_x) ≡ Some long_type }
    ensures second { type_of here (choice false_ nick_is_x (lit (long (pos 1)))) ≡ Some long_type }
    ensures joined { type_of here (choice is_ok true_ false_) ≡ Some (bool_type any_bool) }
    ensures same { type_of here (choice is_ok true_ true_) ≡ Some (bool_type only_true) }
    ensures not_joined { type_of here (choice is_ok (lit (long (pos 1))) true_) ≡ None }
    ensures unions { type_of here (choice is_ok (var principal) (var resource)) ≡ None }
    ensures unions_loosely { type_of loosely (choice is_ok (var principal) (var resource)) ≡ Some (entity_types (doc ∷ user ∷ [])) }
    ensures number_test { type_of here (choice (lit (long (pos 1))) true_ true_) ≡ None }
    ensures test_gives { type_of here (both (choice has_nick true_ false_) nick_is_x) ≡ None }
    ensures both_give { type_of here (both (choice has_nick is_ok has_nick) nick_is_x) ≡ Some (bool_type any_bool) }
    ensures taken_gives { type_of here (both (choice true_ has_nick false_) nick_is_x) ≡ Some (bool_type any_bool) }
    ensures other_gives { type_of here (both (choice false_ false_ has_nick) nick_is_x) ≡ Some (bool_type any_bool) }
{}

/// Equality of uids that are written, of types that differ, and of values.
pub fn worked_equality()
    ensures same { type_of here (binary equal (lit (entity user_a)) (lit (entity user_a))) ≡ Some (bool_type only_true) }
    ensures other { type_of here (binary equal (var action) (lit (entity view))) ≡ Some (bool_type only_true) }
    ensures action_right { type_of there (binary equal (lit (entity read)) (var action)) ≡ Some (bool_type only_false) }
    ensures other_type { type_of here (binary equal (var principal) (lit (entity doc_d))) ≡ Some (bool_type only_false) }
    ensures same_type { type_of here (binary equal (var principal) (lit (entity user_a))) ≡ Some (bool_type any_bool) }
    ensures itself { type_of here (binary equal (var principal) (var principal)) ≡ Some (bool_type any_bool) }
    ensures truths { type_of here (binary equal true_ true_) ≡ Some (bool_type any_bool) }
    ensures mixed { type_of here (binary equal (lit (long (pos 1))) true_) ≡ None }
    ensures mixed_loosely { type_of loosely (binary equal (lit (long (pos 1))) true_) ≡ Some (bool_type any_bool) }
    ensures disjoint_loosely { type_of loosely (binary equal (var principal) (var resource)) ≡ Some (bool_type only_false) }
    ensures with_uid { type_of here (binary equal (lit (entity user_a)) (lit (long (pos 1)))) ≡ None }
{}

/// Order and arithmetic of whole numbers, order of ranks, patterns.
pub fn worked_numbers()
    ensures order { type_of here (binary less (lit (long (pos 1))) (lit (long (pos 2)))) ≡ Some (bool_type any_bool) }
    ensures no_order { type_of here (binary less_or_equal (lit (long (pos 1))) true_) ≡ None }
    ensures ranks_order { type_of there ranked ≡ Some (bool_type any_bool) }
    ensures not_ordered { type_of (strictly large (record ranks { ordered = [] }) there.env) ranked ≡ None }
    ensures rank_and_number { type_of there (binary less (rank_of (codes "1")) (lit (long (pos 1)))) ≡ None }
    ensures sum { type_of here (binary plus (lit (long (pos 9223372036854775807))) (lit (long (pos 1)))) ≡ Some long_type }
    ensures product { type_of here (binary times (lit (long (pos 1))) (lit (text (codes "x")))) ≡ None }
    ensures remains { type_of here (binary remainder (lit (long (pos 5))) (lit (long (pos 0)))) ≡ Some long_type }
    ensures gap { type_of here (binary difference (lit (long (pos 1))) (lit (long (pos 1)))) ≡ Some long_type }
    ensures pattern { type_of here (like (lit (text (codes "x"))) []) ≡ Some (bool_type any_bool) }
    ensures no_pattern { type_of here (like (lit (long (pos 1))) []) ≡ None }
{}

/// Sets: at least one element in Strict, and a common type; members and subsets by the join of their types. Records are closed.
pub fn worked_sets()
    ensures empty { type_of here (set_literal no_trees) ≡ None }
    ensures empty_loosely { type_of loosely (set_literal no_trees) ≡ Some (set_type never) }
    ensures truths { type_of here (set_literal (tree true_ (tree false_ no_trees))) ≡ Some (set_type (bool_type any_bool)) }
    ensures mixed { type_of here (set_literal (tree true_ (tree (lit (long (pos 1))) no_trees))) ≡ None }
    ensures member { type_of here (binary contains (set_literal (tree true_ no_trees)) false_) ≡ Some (bool_type any_bool) }
    ensures no_member { type_of here (binary contains (set_literal (tree true_ no_trees)) (lit (long (pos 1)))) ≡ None }
    ensures no_set { type_of here (binary contains true_ true_) ≡ None }
    ensures subset { type_of here (binary contains_all (set_literal (tree true_ no_trees)) (set_literal (tree false_ no_trees))) ≡ Some (bool_type any_bool) }
    ensures no_subset { type_of here (binary contains_any (set_literal (tree true_ no_trees)) true_) ≡ None }
    ensures other_subset { type_of here (binary contains_any (set_literal (tree true_ no_trees)) (set_literal (tree (lit (long (pos 1))) no_trees))) ≡ None }
    ensures a_record { type_of here (record_literal (tree_field ok is_ok (tree_field owner (var principal) no_tree_fields))) ≡ Some (record_type (attribute ok (bool_type any_bool) true (attribute owner (entity_type user) true no_attributes)) is_closed) }
    ensures bad_record { type_of here (record_literal (tree_field ok is_ok (tree_field owner nick_is_x no_tree_fields))) ≡ None }
    ensures a_name_twice { type_of here (record_literal (tree_field ok is_ok (tree_field owner (var principal) (tree_field ok (lit (long (pos 1))) no_tree_fields)))) ≡ None }
    ensures the_same_twice { type_of here (record_literal (tree_field ok is_ok (tree_field ok is_ok no_tree_fields))) ≡ None }
    ensures no_facts_of_fields { judgement here no_facts (set_literal (tree has_nick no_trees)) ≡ judged (set_type (bool_type any_bool)) no_facts }
{}

/// Membership: of written actions as the declared ones stand, else False where the types exclude it.
pub fn worked_in()
    ensures other_type { type_of here (binary is_in (var principal) (var resource)) ≡ Some (bool_type only_false) }
    ensures same_type { type_of here (binary is_in (var principal) (lit (entity user_a))) ≡ Some (bool_type any_bool) }
    ensures below { type_of there (binary is_in (var principal) (lit (entity group_g))) ≡ Some (bool_type any_bool) }
    ensures above { type_of there (binary is_in (var resource) (var principal)) ≡ Some (bool_type only_false) }
    ensures in_set { type_of there (binary is_in (var principal) (set_literal (tree (lit (entity group_g)) no_trees))) ≡ Some (bool_type any_bool) }
    ensures in_slot { type_of there (binary is_in (var principal) (slot principal_slot)) ≡ Some (bool_type any_bool) }
    ensures action_below { type_of there (binary is_in (var action) (lit (entity read))) ≡ Some (bool_type only_true) }
    ensures action_itself { type_of there (binary is_in (var action) (set_literal (tree (lit (entity view)) no_trees))) ≡ Some (bool_type only_true) }
    ensures action_above { type_of there (binary is_in (lit (entity read)) (lit (entity view))) ≡ Some (bool_type only_false) }
    ensures action_right { type_of there (binary is_in (lit (entity read)) (var action)) ≡ Some (bool_type any_bool) }
    ensures undeclared_action { type_of there (binary is_in (var action) (lit (entity edit))) ≡ None }
    ensures empty_set { type_of here (binary is_in (var action) (set_literal no_trees)) ≡ None }
    ensures no_entity { type_of here (binary is_in (lit (long (pos 1))) (var principal)) ≡ None }
    ensures in_number { type_of here (binary is_in (var principal) (lit (long (pos 1)))) ≡ None }
{}

/// `is`, `has` and attributes.
pub fn worked_attributes()
    ensures is_user { type_of here (is_type (var principal) user) ≡ Some (bool_type only_true) }
    ensures is_doc { type_of here (is_type (var principal) doc) ≡ Some (bool_type only_false) }
    ensures is_open_slot { type_of there (is_type (slot resource_slot) user) ≡ Some (bool_type any_bool) }
    ensures is_number { type_of here (is_type (lit (long (pos 1))) user) ≡ None }
    ensures some_are { kinds_are user (doc ∷ user ∷ []) ≡ any_bool }
    ensures declared { judgement here no_facts (has_attr (var principal) ok) ≡ judged (bool_type any_bool) (fact (var principal) (attribute_part ok)) }
    ensures undeclared { judgement here no_facts (has_attr (var principal) owner) ≡ judged (bool_type only_false) no_facts }
    ensures known_already { type_under here (fact (var principal) (attribute_part nick)) has_nick ≡ Some (bool_type any_bool) }
    ensures field_required { judgement there no_facts (has_attr (get_attr (var principal) info) owner) ≡ judged (bool_type only_true) no_facts }
    ensures field_optional { judgement there no_facts (has_attr (get_attr (var principal) info) size) ≡ judged (bool_type any_bool) (fact (get_attr (var principal) info) (attribute_part size)) }
    ensures field_undeclared { type_of there (has_attr (get_attr (var principal) info) ok) ≡ Some (bool_type only_false) }
    ensures open_field { has_type there (record_type no_attributes is_open) ok ≡ Some any_bool }
    ensures has_of_action { type_of here (has_attr (var action) ok) ≡ Some (bool_type only_false) }
    ensures has_of_number { type_of here (has_attr (lit (long (pos 1))) ok) ≡ None }
    ensures required { type_of here is_ok ≡ Some (bool_type any_bool) }
    ensures optional { type_of here (get_attr (var principal) nick) ≡ None }
    ensures optional_known { type_under here (fact (var principal) (attribute_part nick)) (get_attr (var principal) nick) ≡ Some string_type }
    ensures known_elsewhere { type_under here (fact (var resource) (attribute_part nick)) (get_attr (var principal) nick) ≡ None }
    ensures undeclared_known { type_under here (fact (var principal) (attribute_part owner)) (get_attr (var principal) owner) ≡ None }
    ensures of_slot { type_of there (get_attr (slot resource_slot) boss) ≡ None }
{}

/// Tags: a test of one gives its fact, and a tag needs it for the same expressions.
pub fn worked_tags()
    ensures test { judgement there no_facts (binary has_tag (var principal) (lit (text (codes "t")))) ≡ judged (bool_type any_bool) (fact (var principal) (tag_part (lit (text (codes "t"))))) }
    ensures no_tags { judgement there no_facts (binary has_tag (var resource) (lit (text (codes "t")))) ≡ judged (bool_type only_false) no_facts }
    ensures no_text { type_of there (binary has_tag (var principal) true_) ≡ None }
    ensures no_entity { type_of there (binary has_tag true_ (lit (text (codes "t")))) ≡ None }
    ensures unknown_tag { type_of there (binary get_tag (var principal) (lit (text (codes "t")))) ≡ None }
    ensures known_tag { type_of there (choice (binary has_tag (var principal) (lit (text (codes "t")))) (binary get_tag (var principal) (lit (text (codes "t")))) (lit (text (codes "x")))) ≡ Some string_type }
    ensures other_tag { type_of there (choice (binary has_tag (var principal) (lit (text (codes "u")))) (binary get_tag (var principal) (lit (text (codes "t")))) (lit (text (codes "x")))) ≡ None }
    ensures attribute_is_no_tag { type_under there (fact (var principal) (attribute_part (codes "t"))) (binary get_tag (var principal) (lit (text (codes "t")))) ≡ None }
    ensures tags_of_groups { tag_type there (entity_type group) ≡ None }
{}

/// A path is the conjunction of its tests: it ends at the first that is False, and gives the facts of the others.
pub fn worked_paths()
    ensures one_step { judgement there no_facts (has_path (var principal) boss []) ≡ judgement there no_facts (has_attr (var principal) boss) }
    ensures two_steps { type_of there (has_path (var principal) boss (boss ∷ [])) ≡ Some (bool_type any_bool) }
    ensures first_fact { type_of there (both (has_path (var principal) boss (boss ∷ [])) (is_type (get_attr (var principal) boss) user)) ≡ Some (bool_type any_bool) }
    ensures second_fact { type_of there (both (has_path (var principal) boss (boss ∷ [])) (is_type (get_attr (get_attr (var principal) boss) boss) user)) ≡ Some (bool_type any_bool) }
    ensures no_fact { type_of there (is_type (get_attr (var principal) boss) user) ≡ None }
    ensures ends { judgement there no_facts (has_path (var principal) boss (ok ∷ [])) ≡ judged (bool_type only_false) no_facts }
    ensures ends_early { type_of there (has_path (var principal) ok (ok ∷ [])) ≡ Some (bool_type only_false) }
    ensures through_record { type_of there (has_path (var context) owner (info ∷ owner ∷ [])) ≡ Some (bool_type any_bool) }
    ensures wholly_there { type_of there (has_path (get_attr (var principal) info) owner []) ≡ Some (bool_type only_true) }
    ensures through_text { type_of here (has_path (var principal) nick (ok ∷ [])) ≡ None }
    ensures of_number { type_of here (has_path (lit (long (pos 1))) ok (ok ∷ [])) ≡ None }
{}

/// Calls: the function is in the table, with types that may be typed, and takes these arguments; a constructor takes a literal.
pub fn worked_calls()
    ensures constructed { type_of there (rank_of (codes "10")) ≡ Some (extension_type rank) }
    ensures no_literal { type_of there (call rank (tree (choice (binary equal (var principal) (var principal)) (lit (text (codes "1"))) (lit (text (codes "2")))) no_trees)) ≡ None }
    ensures chosen_loosely { type_of (in_mode permissive large ranks there.env) (call rank (tree (choice (binary equal (var principal) (var principal)) (lit (text (codes "1"))) (lit (text (codes "2")))) no_trees)) ≡ Some (extension_type rank) }
    ensures no_arguments { type_of there (call rank no_trees) ≡ None }
    ensures two_arguments { type_of there (call rank (tree (lit (text (codes "1"))) (tree (lit (text (codes "1"))) no_trees))) ≡ None }
    ensures wrong_argument { type_of there (call rank (tree (lit (long (pos 1))) no_trees)) ≡ None }
    ensures not_there { type_of here (rank_of (codes "10")) ≡ None }
    ensures variadic { type_of there (call (record { path = []; base = codes "below" }) (tree (rank_of (codes "1")) (tree (lit (text (codes "x"))) (tree (lit (text (codes "y"))) no_trees)))) ≡ Some string_type }
    ensures variadic_wrong { type_of there (call (record { path = []; base = codes "below" }) (tree (rank_of (codes "1")) (tree (lit (text (codes "x"))) (tree true_ no_trees)))) ≡ None }
    ensures variadic_short { type_of there (call (record { path = []; base = codes "below" }) (tree (rank_of (codes "1")) no_trees)) ≡ None }
    ensures of_sets { type_of there (call (record { path = []; base = codes "all" }) (tree (set_literal (tree true_ no_trees)) no_trees)) ≡ None }
    ensures sets_are_untyped { core_as_type set_core ≡ None }
{}

/// The verdicts on a policy: what is guarded passes, what isn't doesn't.
pub fn worked_verdicts()
    ensures unguarded { passes small no_table (permits_when nick_is_x) ≡ false }
    ensures guarded { passes small no_table (permits_when (both has_nick nick_is_x)) ≡ true }
    ensures one_side { passes small no_table (permits_when (both (either has_nick is_ok) nick_is_x)) ≡ false }
    ensures beside_false { passes small no_table (permits_when (both (either has_nick false_) nick_is_x)) ≡ true }
    ensures chosen { passes small no_table (permits_when (choice has_nick nick_is_x true_)) ≡ true }
    ensures haunted_passes { passes small no_table (permits_when haunted) ≡ true }
    ensures haunted_warned { is_warned strict small no_table (permits_when haunted) ≡ true }
    ensures haunted_named { names_known_types small (permits_when haunted) ≡ false }
    ensures empty_set { passes small no_table (permits_when (unary is_empty (set_literal no_trees))) ≡ false }
    ensures empty_set_loosely { passes_in permissive small no_table (permits_when (unary is_empty (set_literal no_trees))) ≡ true }
    ensures of_other_type { verdict_of (type_of here (condition (permits_when (is_type (var principal) doc)))) ≡ irrelevant }
    ensures of_other_type_warned { is_warned strict small no_table (permits_when (is_type (var principal) doc)) ≡ true }
    ensures no_schema { passes nothing no_table (permits_when nick_is_x) ≡ true }
    ensures no_schema_warned { is_warned strict nothing no_table (permits_when nick_is_x) ≡ true }
    ensures fails_check { verdict_of (type_of here (condition (permits_when nick_is_x))) ≡ fail }
    ensures passes_check { verdict_of (type_of here (condition (permits_when is_ok))) ≡ success }
    ensures true_check { verdict_of (type_of here true_) ≡ success }
    ensures number { passes small no_table (permits_when (lit (long (pos 1)))) ≡ false }
    ensures overflow { passes small no_table (permits_when (binary equal (binary plus (lit (long (pos 9223372036854775807))) (lit (long (pos 1)))) (lit (long (pos 0))))) ≡ true }
{}

/// Impossible and irrelevant policies: False wherever an environment fits the bindings, or none fits.
pub fn worked_impossible()
    ensures of_other_type { impossible small no_table (permits_when (is_type (var principal) doc)) ≡ true }
    ensures irrelevant_one { irrelevant_for small no_table viewing_types (permits_when (is_type (var principal) doc)) ≡ true }
    ensures irrelevant_elsewhere { irrelevant_for small no_table (record viewing_types { action = edit }) (permits_when is_ok) ≡ true }
    ensures possible { impossible small no_table (permits_when is_ok) ≡ false }
    ensures relevant { irrelevant_for small no_table viewing_types (permits_when is_ok) ≡ false }
    ensures warned_not { is_warned strict small no_table (permits_when is_ok) ≡ false }
    ensures ill_typed { impossible small no_table (permits_when nick_is_x) ≡ false }
    ensures without_schema { impossible nothing no_table (permits_when is_ok) ≡ true }
    ensures slot_fits { impossible small no_table (in_slot_of (Some user_a)) ≡ false }
    ensures slot_unfit { impossible small no_table (in_slot_of (Some doc_d)) ≡ true }
    ensures slot_unbound { impossible small no_table (in_slot_of None) ≡ true }
    ensures slot_unseen { is_warned strict small no_table (in_slot_of (Some doc_d)) ≡ false }
    ensures group_fits { impossible large ranks (in_slot_of (Some group_g)) ≡ false }
    ensures one_type { policy_environments small (in_slot_of None) ≡ record viewing { principal_slot = Some user } ∷ [] }
    ensures both_types { policy_environments large (in_slot_of None) ≡ record there.env { principal_slot = Some user } ∷ record there.env { principal_slot = Some group } ∷ [] }
{}

/// The scope rules reach everything that is written, also where typing doesn't, and what slots are bound to.
pub fn worked_names()
    ensures clear { names_known_types small (permits_when is_ok) ≡ true }
    ensures written { names_known_types small (permits_when (binary equal (lit (entity phantom_g)) (var principal))) ≡ false }
    ensures tested { names_known_types small (permits_when (is_type (var principal) phantom)) ≡ false }
    ensures bound { names_known_types small (in_slot_of (Some phantom_g)) ≡ false }
    ensures action_type { names_known_types small in_views ≡ true }
    ensures no_action_type { names_known_types nothing in_views ≡ false }
    ensures of_a_test_of_actions { names_known_types small (permits_when (is_type (var action) acting)) ≡ true }
    ensures actions_clear { names_known_actions small in_views ≡ true }
    ensures other_action { names_known_actions small (permits_when (both false_ (binary equal (lit (entity edit)) (var action)))) ≡ false }
    ensures bound_action { names_known_actions small (in_slot_of (Some edit)) ≡ false }
    ensures other_uids { names_known_actions small (permits_when haunted) ≡ true }
    ensures member { names_known_members large (permits_when (binary equal (lit (entity red)) (var principal))) ≡ true }
    ensures no_member { names_known_members large (permits_when (both false_ (binary equal (lit (entity blue)) (var principal)))) ≡ false }
    ensures bound_member { names_known_members large (in_slot_of (Some blue)) ≡ false }
    ensures any_id { names_known_members large (in_slot_of (Some user_a)) ≡ true }
    ensures uids { policy_uids (in_slot_of (Some user_a)) ≡ user_a ∷ [] }
    ensures kinds { policy_kinds (permits_when (both haunted (is_type (var principal) doc))) ≡ phantom ∷ doc ∷ [] }
{}

/// How far expressions reach: each step into the store counts one from its target.
pub fn worked_levels()
    ensures owner_short { policy_violations 1 small no_table (permits_when owned_by_staff) ≡ needs (get_attr (get_attr (var resource) owner) boss) 2 ∷ [] }
    ensures owner_reached { policy_violations 2 small no_table (permits_when owned_by_staff) ≡ [] }
    ensures owner_typed { passes small no_table (permits_when owned_by_staff) ≡ true }
    ensures guarded { violations 1 here no_facts (both has_nick nick_is_x) ≡ [] }
    ensures chosen_short { policy_violations 2 small no_table (permits_when chosen_ok) ≡ needs chosen_ok 3 ∷ [] }
    ensures chosen_reached { policy_violations 3 small no_table (permits_when chosen_ok) ≡ [] }
    ensures literal { policy_violations 1 small no_table (permits_when alice_ok) ≡ stands (lit (entity alice)) ∷ [] }
    ensures literal_far { violations 9 here no_facts alice_ok ≡ stands (lit (entity alice)) ∷ [] }
    ensures overflow { violations 0 here no_facts (binary equal (binary plus (lit (long (pos 9223372036854775807))) (lit (long (pos 1)))) (lit (long (pos 0)))) ≡ [] }
    ensures untyped { violations 0 here no_facts haunted ≡ [] }
    ensures of_other_type { violations 0 here no_facts (is_type (var principal) doc) ≡ [] }
    ensures in_views_short { policy_violations 0 small no_table in_views ≡ needs (binary is_in (var action) (set_literal (tree (lit (entity view)) no_trees))) 1 ∷ [] }
    ensures in_views_reached { policy_violations 1 small no_table in_views ≡ [] }
    ensures in_slot_short { policy_violations 0 small no_table (in_slot_of (Some user_a)) ≡ needs (binary is_in (var principal) (slot principal_slot)) 1 ∷ [] }
    ensures in_slot_reached { policy_violations 1 small no_table (in_slot_of (Some user_a)) ≡ [] }
    ensures slot_alone { violations 1 there no_facts (binary is_in (slot principal_slot) (var principal)) ≡ stands (slot principal_slot) ∷ [] }
    ensures wrapped_short { violations 0 here no_facts (get_attr wrapped ok) ≡ needs (get_attr wrapped ok) 1 ∷ [] }
    ensures wrapped_reached { violations 1 here no_facts (get_attr wrapped ok) ≡ [] }
    ensures wrapped_alone { violations 0 here no_facts (is_type wrapped user) ≡ [] }
    ensures ill_typed { policy_violations 0 small no_table (permits_when nick_is_x) ≡ [] }
    ensures ranked_short { violations 0 there no_facts ranked ≡ needs (get_attr (var principal) (codes "r")) 1 ∷ [] }
    ensures nested { nesting (condition (permits_when is_ok)) ≡ 5 }
{}

/// What typing reaches counts: the left of what ends early and the test of a choice, but not what is behind them.
pub fn worked_reach()
    ensures behind_false { violations 0 here no_facts (both false_ is_ok) ≡ [] }
    ensures before_false { violations 0 here no_facts (both is_ok false_) ≡ needs is_ok 1 ∷ [] }
    ensures left_of_false { violations 0 here no_facts (both (both is_ok false_) the_boss) ≡ needs is_ok 1 ∷ [] }
    ensures behind_true { violations 0 here no_facts (either true_ is_ok) ≡ [] }
    ensures left_of_true { violations 0 here no_facts (either (either is_ok true_) the_boss) ≡ needs is_ok 1 ∷ [] }
    ensures both_sides { violations 0 here no_facts (either is_ok (get_attr the_boss ok)) ≡ needs is_ok 1 ∷ needs (get_attr the_boss ok) 2 ∷ [] }
    ensures taken { violations 0 here no_facts (choice true_ is_ok (get_attr the_boss ok)) ≡ needs is_ok 1 ∷ [] }
    ensures test_counts { violations 0 here no_facts (choice (both is_ok false_) the_boss true_) ≡ needs is_ok 1 ∷ [] }
    ensures true_test_counts { violations 0 here no_facts (choice (either is_ok true_) true_ the_boss) ≡ needs is_ok 1 ∷ [] }
    ensures taken_target { violations 1 here no_facts (get_attr (choice true_ (var principal) the_boss) ok) ≡ [] }
    ensures greater_target { violations 1 here no_facts (get_attr (choice is_ok (var principal) the_boss) ok) ≡ needs (get_attr (choice is_ok (var principal) the_boss) ok) 2 ∷ [] }
    ensures guarded_target { violations 1 there no_facts (get_attr (choice (has_attr (var principal) boss) (get_attr (var principal) boss) (var principal)) info) ≡ needs (get_attr (choice (has_attr (var principal) boss) (get_attr (var principal) boss) (var principal)) info) 2 ∷ [] }
    ensures other_fields { violations 1 here no_facts (get_attr (get_attr (record_literal (tree_field nick (get_attr the_boss ok) (tree_field owner (var principal) no_tree_fields))) owner) ok) ≡ needs (get_attr the_boss ok) 2 ∷ [] }
    ensures fields_after { violations 1 here no_facts (get_attr (get_attr (record_literal (tree_field nick (var principal) (tree_field owner (get_attr the_boss ok) no_tree_fields))) nick) ok) ≡ needs (get_attr the_boss ok) 2 ∷ [] }
    ensures nested_fields { violations 1 here no_facts (get_attr (get_attr (get_attr (record_literal (tree_field nick (record_literal (tree_field owner the_boss (tree_field boss is_ok no_tree_fields))) no_tree_fields)) nick) owner) ok) ≡ needs (get_attr (get_attr (get_attr (record_literal (tree_field nick (record_literal (tree_field owner the_boss (tree_field boss is_ok no_tree_fields))) no_tree_fields)) nick) owner) ok) 2 ∷ [] }
    ensures of_set { violations 0 here no_facts (unary is_empty (set_literal (tree is_ok (tree true_ no_trees)))) ≡ needs is_ok 1 ∷ [] }
    ensures of_record { violations 0 here no_facts (record_literal (tree_field ok is_ok no_tree_fields)) ≡ needs is_ok 1 ∷ [] }
    ensures right_of_in { violations 0 here no_facts (binary is_in (var principal) (get_attr (var resource) owner)) ≡ needs (binary is_in (var principal) (get_attr (var resource) owner)) 1 ∷ needs (get_attr (var resource) owner) 1 ∷ [] }
    ensures of_tags { violations 0 there no_facts (both (binary has_tag (var principal) (lit (text (codes "t")))) (like (binary get_tag (var principal) (lit (text (codes "t")))) [])) ≡ needs (binary has_tag (var principal) (lit (text (codes "t")))) 1 ∷ needs (binary get_tag (var principal) (lit (text (codes "t")))) 1 ∷ [] }
    ensures tag_counts { target 0 there no_facts [] (binary get_tag (var principal) (lit (text (codes "t")))) ≡ count 1 [] }
    ensures action_literal { violations 1 here no_facts (binary is_in (lit (entity view)) (lit (entity view))) ≡ [] }
    ensures other_literal { violations 1 here no_facts (binary is_in (lit (entity user_a)) (var principal)) ≡ stands (lit (entity user_a)) ∷ [] }
    ensures known_largest { needed 4294967295 ≡ 4294967295 }
    ensures any_larger { needed 4294967297 ≡ 4294967296 }
{}

/// A path steps once for each entity that it stands on, up to its first test of type False, and counts as one step of so many.
pub fn worked_path_steps()
    ensures two_short { violations 1 there no_facts (has_path (var principal) boss (boss ∷ [])) ≡ needs (has_path (var principal) boss (boss ∷ [])) 2 ∷ [] }
    ensures two_reached { violations 2 there no_facts (has_path (var principal) boss (boss ∷ [])) ≡ [] }
    ensures ends { violations 1 there no_facts (has_path (var principal) ok (boss ∷ [])) ≡ [] }
    ensures ends_there { entity_steps there boss (ok ∷ boss ∷ []) (Some (entity_type user)) ≡ 2 }
    ensures from_record { violations 1 there no_facts (has_path (get_attr (var principal) info) owner (boss ∷ [])) ≡ needs (has_path (get_attr (var principal) info) owner (boss ∷ [])) 2 ∷ [] }
    ensures from_record_reached { violations 2 there no_facts (has_path (get_attr (var principal) info) owner (boss ∷ [])) ≡ [] }
    ensures in_record { violations 0 there no_facts (has_path (get_attr (var principal) info) owner []) ≡ needs (get_attr (var principal) info) 1 ∷ [] }
    ensures through_record { entity_steps there info (owner ∷ boss ∷ []) (Some (entity_type user)) ≡ 2 }
    ensures from_context { violations 0 there no_facts (has_path (var context) owner (boss ∷ [])) ≡ needs (has_path (var context) owner (boss ∷ [])) 1 ∷ [] }
    ensures from_literal { violations 0 here no_facts (has_path (record_literal (tree_field owner (var principal) no_tree_fields)) owner (boss ∷ [])) ≡ needs (has_path (record_literal (tree_field owner (var principal) no_tree_fields)) owner (boss ∷ [])) 1 ∷ [] }
    ensures from_literal_far { violations 1 here no_facts (has_path (record_literal (tree_field owner the_boss no_tree_fields)) owner (boss ∷ [])) ≡ needs (has_path (record_literal (tree_field owner the_boss no_tree_fields)) owner (boss ∷ [])) 2 ∷ [] }
    ensures fields { fields_before there owner (boss ∷ []) (Some info_type) ≡ owner ∷ [] }
    ensures no_fields { fields_before there boss (boss ∷ []) (Some (entity_type user)) ≡ [] }
{}

/// Facts: of an expression and a part, and what two sets of them give together and in common.
pub fn worked_facts()
    ensures itself { fact (var principal) (attribute_part nick) (var principal) (attribute_part nick) ≡ true }
    ensures other_expression { fact (var principal) (attribute_part nick) (var resource) (attribute_part nick) ≡ false }
    ensures other_attribute { fact (var principal) (attribute_part nick) (var principal) (attribute_part ok) ≡ false }
    ensures no_tag { part_eq (attribute_part nick) (tag_part (lit (text nick))) ≡ false }
    ensures a_tag { part_eq (tag_part is_ok) (tag_part is_ok) ≡ true }
    ensures none { no_facts (var principal) (attribute_part nick) ≡ false }
    ensures left { union (fact (var principal) (attribute_part nick)) no_facts (var principal) (attribute_part nick) ≡ true }
    ensures right { union no_facts (fact (var principal) (attribute_part nick)) (var principal) (attribute_part nick) ≡ true }
    ensures in_common { intersection (fact (var principal) (attribute_part nick)) no_facts (var principal) (attribute_part nick) ≡ false }
    ensures same_in_common { intersection (fact (var principal) (attribute_part nick)) (fact (var principal) (attribute_part nick)) (var principal) (attribute_part nick) ≡ true }
{}

/// Arguments are below the types of parameters, and further ones below the last; the kinds of entities of a union.
pub fn worked_parts_of_rules()
    ensures below { arguments_fit (bool_type any_bool ∷ []) (bool_type only_true ∷ []) ≡ true }
    ensures not_below { arguments_fit (long_type ∷ []) (bool_type only_true ∷ []) ≡ false }
    ensures further_ones { arguments_fit (long_type ∷ bool_type any_bool ∷ []) (long_type ∷ bool_type any_bool ∷ long_type ∷ []) ≡ false }
    ensures empty_set_kinds { entity_or_set_kinds (set_type never) ≡ Some (Some []) }
    ensures union_of_tags { tag_type there (entity_types (group ∷ user ∷ [])) ≡ None }
    ensures no_kind { may_be_in large (Some []) None ≡ true }
    ensures unions_related { may_be_in large (Some (color ∷ user ∷ [])) (Some (group ∷ [])) ≡ true }
    ensures unions_apart { may_be_in large (Some (color ∷ group ∷ [])) (Some (user ∷ [])) ≡ false }
    ensures set_of_actions { written_actions there (set_literal (tree (lit (entity read)) (tree (lit (entity view)) no_trees))) ≡ Some (read ∷ view ∷ []) }
    ensures set_of_others { written_actions there (set_literal (tree (lit (entity read)) (tree (lit (entity edit)) no_trees))) ≡ None }
    ensures no_uid { written_uid here (var principal) ≡ None }
{}

//! Worked examples of the definitions for every kind, computed. Each function's contract is what comes out; its body does
//! nothing.

ghost use Rattle.std.specs.Prelude.{◌≡◌, ℕ, ℤ, pos, negsuc, Bool, true, false, Option, Some, None, List, [], ◌∷◌, codes};
ghost use Rattle.std.specs.declared.cmp.Ordering.TheVariants.{Less, Equal, Greater};
ghost use Rattle.cedar_expr_model.specs.Value.{truth, long, text, entity, prim, set_of, record_of, extension, no_values, value, no_fields, field, field_of, values_list};
ghost use Rattle.cedar_expr_model.specs.Order.{text_cmp, name_order, uid_order, literal_cmp, value_cmp, value_eq, core_cmp, core_eq};
ghost use Rattle.cedar_expr_model.specs.SamenessLaws.{Same};
ghost use Rattle.cedar_expr_model.specs.Canonical.{is_canonical, are_rising, set_made, members_made, inserted, is_member, is_subset, is_disjoint};
ghost use Rattle.cedar_expr_model.specs.Records.{in_order, names_rise, record_made, record_tree};
ghost use Rattle.cedar_expr_model.specs.ListLaws.{last_of};
ghost use Rattle.cedar_expr_model.specs.Repeats.{repeated_name};
ghost use Rattle.cedar_expr_model.specs.Pattern.{character, wildcard, matches, matches_text};
ghost use Rattle.cedar_expr_model.specs.Name.{is_word, is_identifier};
ghost use Rattle.cedar_expr_model.specs.Tree.{contains_any, times, remainder, principal, action, resource, context, principal_slot, resource_slot, bool_core, long_core, string_core, set_core, record_core, entity_core, extension_core, negation, minus, is_empty, equal, less, plus, is_in, get_tag, has_tag, lit, var, slot, unknown, choice, both, either, unary, binary, call, get_attr, has_attr, has_path, like, is_type, set_literal, record_literal, no_trees, tree, no_tree_fields, tree_field, nesting};
ghost use Rattle.cedar_expr_model.specs.Builder.{built, tree_builder, conjunction, disjunction, path_test};
ghost use Rattle.cedar_expr_model.specs.BuilderForm.{IsLawful};
ghost use Rattle.cedar_expr_model.specs.OfLaws.Built.{is_built};
ghost use Rattle.cedar_expr_model.specs.Made.{bare, written, made_set, made, no_mades};
ghost use Rattle.cedar_expr_model.specs.Substitution.{substituted, built_under, core_type_of, fits_annotation, mismatch};
ghost use Rattle.cedar_expr_model.specs.Restricted.{offence, is_restricted, has_test, is_test, binary_operator, variables, template_slots, if_then_else, and_operator, unary_operator, attribute_accesses};
ghost use Rattle.cedar_expr_model.specs.Table.{method_style, signature_of, is_ordered, all_typed, takes_count, are_of_types, is_constructor};
ghost use Rattle.cedar_expr_model.specs.OfLaws.Fair.{IsFair};
ghost use Rattle.cedar_expr_model.specs.Repeats.{table_fault, repeated_function, repeated_constructor};
ghost use Rattle.cedar_expr_model.specs.Evident.{evident_type, has_valid_calls};
ghost use Rattle.cedar_expr_model.specs.Parts.{subexpressions, unknowns, slots, unknown_here, slot_here, is_projectable, is_ref, is_ref_set};
ghost use Rattle.cedar_expr_model.specs.Unknowns.{has_unknown};
ghost use Rattle.cedar_expr_model.specs.Shape.{tree_cmp, tree_eq, element_cmp};
ghost use Rattle.cedar_expr_model.specs.Texts.{var_text, unary_text, binary_text, core_text, feature_text, pattern_text};
ghost use Rattle.cedar_expr_model.specs.OfLaws.Represented.{IsRepresented};
ghost use Rattle.cedar_expr_model.specs.Names.{is_unqualified, namespace_of, within, qualified, possibilities, cedar_name, unreserved_read, name_given, reserved_given, nothing_given};
ghost use Rattle.cedar_expr_model.specs.TreeLaws.{is_plain};
ghost use Rattle.cedar_expr_model.specs.Uids.{is_uid};
ghost use Rattle.cedar_expr_model.specs.Ranges.{least_long, greatest_long, is_long, is_character, is_byte, is_in_range};
ghost use Rattle.cedar_expr_model.specs.NameWorked.{awkward_uid};
ghost use Rattle.cedar_expr_model.specs.ValueParts.{value_of_tree, known, left, split, values_alone, with_residuals};
ghost use Rattle.cedar_expr_model.specs.Worked.{plain, user, doc, rank_name, label_name, deep_name, false_name, alice, bob, number, word, flag, one_two, two_one_one, falling, rising, a_then_b, b_then_a, f_to_r, f_and_more, truth_lit, number_lit, named, named_as, two_unknowns, unrestricted, with_principal, rank_of, rank_of_two, lost_call, made_number, made_truth, made_rank, only_x, x_and_y, nothing_bound, number_for_truth, unknown_as, rank_function, label_function, join_function, unknown_function, other_rank_function, other_label_function, worked_table, typed_table, unfair_table, variable_builder, true_rank, feigned_rank};

/// Texts, names and uids in order: a beginning comes first, and names of one text are told apart by their parts.
pub fn worked_orders()
    ensures shorter { text_cmp (codes "a") (codes "ab") ≡ Less }
    ensures by_byte { text_cmp (codes "b") (codes "ab") ≡ Greater }
    ensures empty { text_cmp [] [] ≡ Equal }
    ensures names { name_order doc user ≡ Less }
    ensures by_text { name_order deep_name user ≡ Greater }
    ensures same_text { name_order false_name deep_name ≡ Less }
    ensures same_name { name_order deep_name deep_name ≡ Equal }
    ensures ids { uid_order alice bob ≡ Less }
    ensures same_uid { uid_order bob bob ≡ Equal }
    ensures kinds_first { uid_order alice (record { kind = doc; id = codes "z" }) ≡ Greater }
{}

/// Values in order: truth values, whole numbers, texts, uids, and then sets, records and extension values.
pub fn worked_value_order()
    ensures truths { literal_cmp (truth false) (truth true) ≡ Less }
    ensures negative { literal_cmp (long (negsuc 0)) (long (pos 0)) ≡ Less }
    ensures number_text { literal_cmp (long (pos 9)) (text (codes "0")) ≡ Less }
    ensures uid_text { literal_cmp (entity alice) (text (codes "z")) ≡ Greater }
    ensures literal_set { value_cmp (number 5) (set_of no_values) ≡ Less }
    ensures record_set { value_cmp (record_of no_fields) one_two ≡ Greater }
    ensures longer_set { value_cmp one_two (set_of (value (number 1) no_values)) ≡ Greater }
    ensures by_name { value_cmp (record_of (field (codes "a") (number 9) no_fields)) (record_of (field (codes "b") (number 1) no_fields)) ≡ Less }
    ensures by_field { value_cmp (record_of (field (codes "a") (number 2) no_fields)) (record_of (field (codes "a") (number 1) no_fields)) ≡ Greater }
    ensures by_type { value_cmp (extension doc (9 ∷ [])) (extension rank_name (1 ∷ [])) ≡ Less }
    ensures by_key { value_cmp (extension rank_name (0 ∷ 7 ∷ [])) (extension rank_name (0 ∷ 10 ∷ [])) ≡ Less }
    ensures equal_sets { value_eq one_two two_one_one ≡ true }
    ensures equal_nested { value_eq (set_made (one_two ∷ [])) (set_made (two_one_one ∷ [])) ≡ true }
    ensures number_truth { value_eq (number 1) (flag true) ≡ false }
    ensures other_set { value_eq one_two (set_made (number 1 ∷ [])) ≡ false }
    ensures set_record { value_eq (set_of no_values) (record_of no_fields) ≡ false }
    ensures other_key { value_eq (extension rank_name (7 ∷ [])) (extension rank_name (8 ∷ [])) ≡ false }
    ensures other_type { value_eq (extension rank_name (7 ∷ [])) (extension doc (7 ∷ [])) ≡ false }
{}

/// Sets that are made: of 1, 2, 1 two members; the set of the set of 1, 2 is the set of the set of 2, 1, 1.
pub fn worked_sets()
    ensures two_members { set_made (number 1 ∷ number 2 ∷ number 1 ∷ []) ≡ set_of (value (number 1) (value (number 2) no_values)) }
    ensures same { one_two ≡ two_one_one }
    ensures nested { set_made (one_two ∷ []) ≡ set_made (two_one_one ∷ []) }
    ensures nested_once { set_made (one_two ∷ two_one_one ∷ []) ≡ set_of (value one_two no_values) }
    ensures mixed { set_made (word (codes "x") ∷ number 3 ∷ flag true ∷ []) ≡ set_of (value (flag true) (value (number 3) (value (word (codes "x")) no_values))) }
    ensures empty { set_made [] ≡ set_of no_values }
    ensures back { values_list (members_made (number 2 ∷ number 1 ∷ [])) ≡ number 1 ∷ number 2 ∷ [] }
    ensures first { inserted (number 0) rising ≡ value (number 0) rising }
    ensures between { inserted (number 2) (value (number 1) (value (number 3) no_values)) ≡ value (number 1) (value (number 2) (value (number 3) no_values)) }
    ensures already { inserted (number 2) rising ≡ rising }
    ensures members { values_list rising ≡ number 1 ∷ number 2 ∷ [] }
    ensures no_members { values_list no_values ≡ [] }
    ensures canonical { is_canonical one_two ≡ true }
    ensures not_rising { is_canonical (set_of falling) ≡ false }
    ensures twice { are_rising (value (number 1) (value (number 1) no_values)) ≡ false }
    ensures member_falls { is_canonical (set_of (value (set_of falling) no_values)) ≡ false }
    ensures inside { is_canonical (record_of (field (codes "a") (set_of falling) no_fields)) ≡ false }
    ensures names_fall { is_canonical (record_of b_then_a) ≡ false }
    ensures names_rise { is_canonical (record_of a_then_b) ≡ true }
{}

/// Members, subsets and disjoint sets.
pub fn worked_members()
    ensures member { is_member (number 2) rising ≡ true }
    ensures between { is_member (number 0) rising ≡ false }
    ensures beyond { is_member (number 3) rising ≡ false }
    ensures nested { is_member two_one_one (value one_two no_values) ≡ true }
    ensures none { is_member (number 1) no_values ≡ false }
    ensures subset { is_subset (value (number 2) no_values) rising ≡ true }
    ensures no_subset { is_subset rising (value (number 2) no_values) ≡ false }
    ensures empty_subset { is_subset no_values rising ≡ true }
    ensures disjoint { is_disjoint rising (value (number 3) no_values) ≡ true }
    ensures not_disjoint { is_disjoint rising (value (number 2) no_values) ≡ false }
    ensures empty_disjoint { is_disjoint rising no_values ≡ true }
{}

/// Records: fields by name, pairs in order, repeated names.
pub fn worked_records()
    ensures found { field_of (codes "b") a_then_b ≡ Some (number 2) }
    ensures not_found { field_of (codes "c") a_then_b ≡ None }
    ensures longer_name { field_of (codes "ab") a_then_b ≡ None }
    ensures ordered { record_made ((codes "b", number 2) ∷ (codes "a", number 1) ∷ []) ≡ record_of a_then_b }
    ensures last_stands { record_made ((codes "a", number 1) ∷ (codes "a", number 2) ∷ []) ≡ record_of (field (codes "a") (number 2) no_fields) }
    ensures empty { record_made [] ≡ record_of no_fields }
    ensures rise { names_rise ((codes "a", number 1) ∷ (codes "b", number 2) ∷ []) ≡ true }
    ensures fall { names_rise ((codes "b", number 1) ∷ (codes "a", number 2) ∷ []) ≡ false }
    ensures twice { names_rise ((codes "a", number 1) ∷ (codes "a", number 2) ∷ []) ≡ false }
    ensures last { last_of (codes "a") ((codes "a", number 1) ∷ (codes "a", number 2) ∷ []) ≡ Some (number 2) }
    ensures neither { last_of (codes "b") ((codes "a", number 1) ∷ (codes "a", number 2) ∷ []) ≡ None }
    ensures in_order { in_order ((codes "b", number 2) ∷ (codes "a", number 1) ∷ (codes "b", number 3) ∷ []) ≡ (codes "a", number 1) ∷ (codes "b", number 3) ∷ [] }
    ensures repeats { repeated_name ((codes "a", number 1) ∷ (codes "b", number 1) ∷ (codes "b", number 1) ∷ (codes "a", number 1) ∷ []) ≡ Some (codes "b") }
    ensures equal_values { repeated_name ((codes "a", number 1) ∷ (codes "a", number 1) ∷ []) ≡ Some (codes "a") }
    ensures no_repeat { repeated_name ((codes "a", number 1) ∷ (codes "b", number 1) ∷ []) ≡ None }
{}

/// Patterns: a wildcard stands for any characters, and for none.
pub fn worked_patterns()
    ensures between { matches f_to_r (codes "foo bar") ≡ true }
    ensures nothing_between { matches f_to_r (codes "fr") ≡ true }
    ensures other_end { matches f_to_r (codes "foo bars") ≡ false }
    ensures empty { matches [] [] ≡ true }
    ensures empty_on_a { matches [] (codes "a") ≡ false }
    ensures at_end { matches f_and_more (codes "foo") ≡ true }
    ensures at_very_end { matches f_and_more (codes "f") ≡ true }
    ensures other_start { matches f_and_more (codes "of") ≡ false }
    ensures alone { matches (wildcard ∷ []) [] ≡ true }
    ensures character_alone { matches (character 97 ∷ []) [] ≡ false }
    ensures once { matches (character 97 ∷ []) (codes "aa") ≡ false }
    ensures last_of_many { matches (wildcard ∷ character 97 ∷ []) (codes "aaba") ≡ true }
{}

/// What a lawful builder makes: the literal of two truth values, the plain test of a path of one attribute.
pub fn worked_building()
    ensures true_false { conjunction (truth_lit true) (truth_lit false) ≡ truth_lit false }
    ensures true_true { conjunction (truth_lit true) (truth_lit true) ≡ truth_lit true }
    ensures with_unknown { conjunction (truth_lit true) (named (codes "u")) ≡ both (truth_lit true) (named (codes "u")) }
    ensures with_number { conjunction (number_lit 1) (truth_lit true) ≡ both (number_lit 1) (truth_lit true) }
    ensures false_true { disjunction (truth_lit false) (truth_lit true) ≡ truth_lit true }
    ensures false_false { disjunction (truth_lit false) (truth_lit false) ≡ truth_lit false }
    ensures or_with_variable { disjunction (var principal) (truth_lit true) ≡ either (var principal) (truth_lit true) }
    ensures one_step { path_test (var principal) (codes "x") [] ≡ has_attr (var principal) (codes "x") }
    ensures two_steps { path_test (var principal) (codes "x") (codes "y" ∷ []) ≡ has_path (var principal) (codes "x") (codes "y" ∷ []) }
    ensures inside { built tree_builder (both (both (truth_lit true) (truth_lit true)) (truth_lit false)) ≡ truth_lit false }
    ensures not_folded { built tree_builder (unary negation (truth_lit true)) ≡ unary negation (truth_lit true) }
    ensures no_form { is_built (both (truth_lit true) (truth_lit false)) ≡ false }
    ensures form { is_built (both (var principal) (truth_lit false)) ≡ true }
    ensures one_step_form { is_built (has_path (var principal) (codes "x") []) ≡ false }
    ensures deep_form { is_built (unary negation (either (truth_lit true) (truth_lit true))) ≡ false }
    ensures repeated_field { record_tree ((codes "a", var principal) ∷ (codes "a", number_lit 1) ∷ []) ≡ record_tree ((codes "a", number_lit 1) ∷ []) }
    ensures no_fields { record_tree [] ≡ record_literal no_tree_fields }
    ensures record { record_tree ((codes "b", var principal) ∷ (codes "a", number_lit 1) ∷ []) ≡ with_principal }
{}

/// Nesting: 1 for a leaf, and for a node 1 more than its deepest child.
pub fn worked_nesting()
    ensures leaf { nesting (var principal) ≡ 1 }
    ensures test { nesting (choice (truth_lit true) (unary negation (var principal)) (number_lit 1)) ≡ 3 }
    ensures no_members { nesting (set_literal no_trees) ≡ 1 }
    ensures fields { nesting unrestricted ≡ 3 }
    ensures path { nesting (has_path (get_attr (var principal) (codes "a")) (codes "b") (codes "c" ∷ [])) ≡ 3 }
{}

/// Substitution: the value stands in the place of the unknown, and what is made of it is folded.
pub fn worked_substitution()
    ensures folds { substituted (only_x (made_truth true)) (both (named (codes "x")) (truth_lit true)) ≡ truth_lit true }
    ensures keeps { substituted (only_x (made_truth true)) (both (named (codes "z")) (truth_lit true)) ≡ both (named (codes "z")) (truth_lit true) }
    ensures nothing { substituted nothing_bound (named_as (codes "x") bool_core) ≡ named_as (codes "x") bool_core }
    ensures against_annotation { substituted (only_x (made_number 1)) (named_as (codes "x") bool_core) ≡ number_lit 1 }
    ensures extension { substituted (only_x made_rank) (unary negation (named (codes "x"))) ≡ unary negation (rank_of (codes "7")) }
    ensures record { substituted (x_and_y (made_truth true) (made_truth true)) two_unknowns ≡ record_literal (tree_field (codes "a") (truth_lit true) (tree_field (codes "b") (truth_lit true) no_tree_fields)) }
    ensures two { substituted (x_and_y (made_truth false) (made_truth true)) (either (named (codes "x")) (named (codes "y"))) ≡ truth_lit true }
    ensures written { written (made_set (made made_rank (made (made_number 2) no_mades))) ≡ set_literal (tree (rank_of (codes "7")) (tree (number_lit 2) no_trees)) }
    ensures written_number { written (made_number 1) ≡ number_lit 1 }
    ensures written_rank { written made_rank ≡ rank_of (codes "7") }
    ensures bare_number { bare (made_number 1) ≡ number 1 }
    ensures bare_rank { bare made_rank ≡ extension rank_name (0 ∷ 7 ∷ []) }
    ensures bare { bare (made_set (made made_rank (made (made_number 2) no_mades))) ≡ set_of (value (extension rank_name (0 ∷ 7 ∷ [])) (value (number 2) no_values)) }
{}

/// A mismatch is the leftmost unknown that is bound to a value of another type than its annotation.
pub fn worked_mismatches()
    ensures at_x { mismatch (x_and_y (made_number 1) (made_number 2)) two_unknowns ≡ Some (number_for_truth (codes "x")) }
    ensures at_y { mismatch (x_and_y (made_truth true) (made_number 2)) two_unknowns ≡ Some (number_for_truth (codes "y")) }
    ensures fits { mismatch (x_and_y (made_truth true) (made_truth false)) two_unknowns ≡ None }
    ensures unbound { mismatch nothing_bound two_unknowns ≡ None }
    ensures no_annotation { mismatch (only_x (made_number 1)) (named (codes "x")) ≡ None }
    ensures inside { mismatch (only_x (made_number 1)) (choice (truth_lit true) (var principal) (named_as (codes "x") bool_core)) ≡ Some (number_for_truth (codes "x")) }
{}

/// Core types of values, and annotations.
pub fn worked_core_types()
    ensures truth { core_type_of (flag true) ≡ bool_core }
    ensures uid { core_type_of (prim (entity alice)) ≡ entity_core user }
    ensures set { core_type_of one_two ≡ set_core }
    ensures extension { core_type_of (extension rank_name []) ≡ extension_core rank_name }
    ensures same { core_eq (entity_core user) (entity_core user) ≡ true }
    ensures other_entity { core_eq (entity_core user) (entity_core doc) ≡ false }
    ensures entity_extension { core_eq (entity_core user) (extension_core user) ≡ false }
    ensures plain_types { core_eq bool_core long_core ≡ false }
    ensures fits { fits_annotation (Some long_core) (number 1) ≡ true }
    ensures fits_none { fits_annotation None (number 1) ≡ true }
    ensures fits_not { fits_annotation (Some string_core) (number 1) ≡ false }
{}

/// The first thing that a restricted expression has not.
pub fn worked_restricted()
    ensures first { offence unrestricted ≡ Some variables }
    ensures slot { offence (set_literal (tree (number_lit 1) (tree (slot principal_slot) no_trees))) ≡ Some template_slots }
    ensures node_first { offence (both (var principal) (slot principal_slot)) ≡ Some and_operator }
    ensures operator { offence (rank_of (codes "7")) ≡ None }
    ensures negated { offence (unary negation (truth_lit true)) ≡ Some (unary_operator negation) }
    ensures in_call { offence (call rank_name (tree (get_attr (var principal) (codes "a")) no_trees)) ≡ Some attribute_accesses }
    ensures unknowns { offence two_unknowns ≡ None }
    ensures is { is_restricted two_unknowns ≡ true }
    ensures is_not { is_restricted unrestricted ≡ false }
    ensures is_call { is_restricted (set_literal (tree (rank_of (codes "7")) no_trees)) ≡ true }
{}

/// A table's functions: found by name, the count of arguments, and their types.
pub fn worked_tables()
    ensures found { signature_of worked_table label_name ≡ Some label_function }
    ensures not_found { signature_of worked_table doc ≡ None }
    ensures found_last { signature_of worked_table unknown_function.name ≡ Some unknown_function }
    ensures ordered { is_ordered worked_table rank_name ≡ true }
    ensures not_ordered { is_ordered worked_table label_name ≡ false }
    ensures not_ordered_name { is_ordered worked_table (plain (codes "ranks")) ≡ false }
    ensures none_is_typed { all_typed (record worked_table { functions = [] }) ≡ true }
    ensures all { all_typed typed_table ≡ true }
    ensures not_all { all_typed worked_table ≡ false }
    ensures one { takes_count rank_function 1 ≡ true }
    ensures not_two { takes_count rank_function 2 ≡ false }
    ensures too_few { takes_count join_function 1 ≡ false }
    ensures variadic { takes_count join_function 2 ≡ true }
    ensures variadic_more { takes_count join_function 5 ≡ true }
    ensures types { are_of_types join_function.parameters (word (codes "x") ∷ number 1 ∷ number 2 ∷ []) ≡ true }
    ensures last_type { are_of_types join_function.parameters (word (codes "x") ∷ number 1 ∷ word (codes "y") ∷ []) ≡ false }
    ensures first_type { are_of_types join_function.parameters (number 1 ∷ number 1 ∷ []) ≡ false }
    ensures constructor { is_constructor rank_function ≡ true }
    ensures method { is_constructor (record rank_function { style = method_style }) ≡ false }
    ensures variadic_text { is_constructor (record rank_function { is_variadic = true }) ≡ false }
    ensures plain_result { is_constructor (record rank_function { result = Some string_core }) ≡ false }
    ensures other_argument { is_constructor (record rank_function { parameters = long_core ∷ [] }) ≡ false }
    ensures of_a_rank { is_constructor label_function ≡ false }
    ensures two_texts { is_constructor join_function ≡ false }
    ensures no_result { is_constructor unknown_function ≡ false }
{}

/// The fault of a table: a repeated name comes before a type with two constructors.
pub fn worked_table_faults()
    ensures none { table_fault worked_table.functions ≡ None }
    ensures twice { table_fault (label_function ∷ rank_function ∷ other_label_function ∷ []) ≡ Some (repeated_function label_name) }
    ensures two_constructors { table_fault (rank_function ∷ other_rank_function ∷ []) ≡ Some (repeated_constructor (extension_core rank_name)) }
    ensures both { table_fault (rank_function ∷ other_rank_function ∷ label_function ∷ other_label_function ∷ []) ≡ Some (repeated_function label_name) }
    ensures same_twice { table_fault (rank_function ∷ rank_function ∷ []) ≡ Some (repeated_function rank_name) }
    ensures a_method_too { table_fault (rank_function ∷ record other_rank_function { style = method_style } ∷ []) ≡ None }
    ensures empty { table_fault [] ≡ None }
{}

/// The type that an expression shows by itself, and calls with a right count of arguments.
pub fn worked_evident()
    ensures literal { evident_type worked_table (number_lit 1) ≡ Some long_core }
    ensures uid { evident_type worked_table (lit (entity alice)) ≡ Some (entity_core user) }
    ensures agree { evident_type worked_table (choice (var principal) (number_lit 1) (unary minus (var principal))) ≡ Some long_core }
    ensures disagree { evident_type worked_table (choice (var principal) (number_lit 1) (truth_lit true)) ≡ None }
    ensures half { evident_type worked_table (choice (var principal) (number_lit 1) (var context)) ≡ None }
    ensures called { evident_type worked_table (rank_of (codes "7")) ≡ Some (extension_core rank_name) }
    ensures lost { evident_type worked_table lost_call ≡ None }
    ensures annotated { evident_type worked_table (named_as (codes "x") set_core) ≡ Some set_core }
    ensures not_annotated { evident_type worked_table (named (codes "x")) ≡ None }
    ensures variable { evident_type worked_table (var principal) ≡ None }
    ensures attribute { evident_type worked_table (get_attr (var principal) (codes "a")) ≡ None }
    ensures tag { evident_type worked_table (binary get_tag (var principal) (lit (text (codes "a")))) ≡ None }
    ensures has { evident_type worked_table (binary has_tag (var principal) (lit (text (codes "a")))) ≡ Some bool_core }
    ensures sum { evident_type worked_table (binary plus (var principal) (var principal)) ≡ Some long_core }
    ensures record { evident_type worked_table with_principal ≡ Some record_core }
    ensures valid { has_valid_calls worked_table (set_literal (tree (rank_of (codes "x")) no_trees)) ≡ true }
    ensures wrong_count { has_valid_calls worked_table (unary negation rank_of_two) ≡ false }
    ensures unknown_function { has_valid_calls worked_table (both (truth_lit true) lost_call) ≡ false }
{}

/// The parts of an expression: a node before its children, children in order, each place once.
pub fn worked_parts()
    ensures each { subexpressions (both (unary negation (var principal)) (var principal)) ≡ both (unary negation (var principal)) (var principal) ∷ unary negation (var principal) ∷ var principal ∷ var principal ∷ [] }
    ensures leaf { subexpressions (var context) ≡ var context ∷ [] }
    ensures in_record { subexpressions with_principal ≡ with_principal ∷ number_lit 1 ∷ var principal ∷ [] }
    ensures unknowns { unknowns (both two_unknowns (named_as (codes "x") bool_core)) ≡ unknown_as (codes "x") bool_core ∷ unknown_as (codes "y") bool_core ∷ unknown_as (codes "x") bool_core ∷ [] }
    ensures no_unknowns { unknowns unrestricted ≡ [] }
    ensures slots { slots (both (slot principal_slot) (both (slot resource_slot) (slot principal_slot))) ≡ principal_slot ∷ resource_slot ∷ principal_slot ∷ [] }
    ensures no_slots { slots unrestricted ≡ [] }
    ensures one_slot { slots (slot resource_slot) ≡ resource_slot ∷ [] }
    ensures has { has_unknown (unary negation two_unknowns) ≡ true }
    ensures has_not { has_unknown unrestricted ≡ false }
    ensures has_in_call { has_unknown (call rank_name (tree (named (codes "t")) no_trees)) ≡ true }
    ensures projectable { is_projectable two_unknowns ≡ true }
    ensures variable { is_projectable with_principal ≡ true }
    ensures operator { is_projectable unrestricted ≡ false }
    ensures a_call { is_projectable (set_literal (tree (rank_of (codes "7")) no_trees)) ≡ false }
    ensures a_slot { is_projectable (slot principal_slot) ≡ false }
    ensures reference { is_ref (lit (entity alice)) ≡ true }
    ensures no_ref { is_ref (lit (text (codes "a"))) ≡ false }
    ensures slot_ref { is_ref (slot principal_slot) ≡ false }
    ensures refs { is_ref_set (set_literal (tree (lit (entity alice)) (tree (lit (entity bob)) no_trees))) ≡ true }
    ensures empty_refs { is_ref_set (set_literal no_trees) ≡ true }
    ensures no_refs { is_ref_set (set_literal (tree (lit (entity alice)) (tree (number_lit 1) no_trees))) ≡ false }
    ensures one_ref { is_ref_set (lit (entity alice)) ≡ false }
    ensures a_slot_here { slot_here (slot resource_slot) ≡ Some resource_slot }
    ensures no_slot_here { slot_here (var resource) ≡ None }
    ensures unknown_inside { unknown_here (unary negation (named (codes "x"))) ≡ None }
    ensures an_unknown_here { unknown_here (named_as (codes "x") bool_core) ≡ Some (unknown_as (codes "x") bool_core) }
{}

/// Values of expressions, and lists that are split.
pub fn worked_value_parts()
    ensures set { value_of_tree (set_literal (tree (number_lit 2) (tree (number_lit 1) (tree (number_lit 2) no_trees)))) ≡ Some one_two }
    ensures record { value_of_tree (record_literal (tree_field (codes "a") (number_lit 1) (tree_field (codes "b") (number_lit 2) no_tree_fields))) ≡ Some (record_of a_then_b) }
    ensures variable { value_of_tree with_principal ≡ None }
    ensures a_call { value_of_tree (rank_of (codes "7")) ≡ None }
    ensures an_unknown { value_of_tree (set_literal (tree (named (codes "x")) no_trees)) ≡ None }
    ensures all_known { split (known (made_number 2) ∷ known (made_number 1) ∷ []) ≡ values_alone (made_number 2 ∷ made_number 1 ∷ []) }
    ensures one_residual { split (known (made_number 2) ∷ left (named (codes "x")) ∷ known (made_number 1) ∷ []) ≡ with_residuals (number_lit 2 ∷ named (codes "x") ∷ number_lit 1 ∷ []) }
    ensures empty { split [] ≡ values_alone [] }
{}

/// Names in namespaces, and names with a reserved part.
pub fn worked_namespaces()
    ensures inside { within user (codes "X") ≡ record { path = codes "User" ∷ []; base = codes "X" } }
    ensures qualified { qualified (Some deep_name) user ≡ record { path = codes "a" ∷ codes "b" ∷ []; base = codes "User" } }
    ensures stays { qualified (Some user) deep_name ≡ deep_name }
    ensures no_namespace { qualified None user ≡ user }
    ensures namespace { namespace_of deep_name ≡ Some (plain (codes "a")) }
    ensures no_namespace_of { namespace_of user ≡ None }
    ensures unqualified { is_unqualified user ≡ true }
    ensures is_qualified { is_unqualified deep_name ≡ false }
    ensures deep_namespace { namespace_of (within deep_name (codes "c")) ≡ Some deep_name }
    ensures false_is_unqualified { is_unqualified false_name ≡ true }
    ensures two_meanings { possibilities (Some doc) user ≡ within doc (codes "User") ∷ user ∷ [] }
    ensures one_meaning { possibilities (Some doc) deep_name ≡ deep_name ∷ [] }
    ensures empty_namespace { possibilities None user ≡ user ∷ [] }
    ensures reserved { unreserved_read (codes "__cedar::X") ≡ reserved_given (within cedar_name (codes "X")) }
    ensures given { unreserved_read (codes "a::b") ≡ name_given deep_name }
    ensures nothing { unreserved_read (codes "a::if") ≡ nothing_given }
    ensures keyword { is_identifier (codes "if") ≡ false }
    ensures any_word { is_word (codes "if") ≡ true }
    ensures identifier { is_identifier (codes "iff") ≡ true }
    ensures no_word { is_word (codes "a b") ≡ false }
{}

/// Patterns on texts go by characters, not by bytes: U+00E9 is one character of two bytes.
pub fn worked_text_patterns()
    ensures between { matches_text f_to_r (codes "foo bar") ≡ true }
    ensures other_end { matches_text f_to_r (codes "foo bars") ≡ false }
    ensures one_character { matches_text (character 233 ∷ []) (195 ∷ 169 ∷ []) ≡ true }
    ensures two_bytes { matches_text (character 195 ∷ wildcard ∷ []) (195 ∷ 169 ∷ []) ≡ false }
{}

/// Expressions in order by their shape: by kind, then by the first part that differs.
pub fn worked_shapes()
    ensures kinds { tree_cmp (number_lit 9) (var principal) ≡ Less }
    ensures later_kind { tree_cmp with_principal (set_literal no_trees) ≡ Greater }
    ensures variables { tree_cmp (var context) (var action) ≡ Greater }
    ensures annotations { tree_cmp (named (codes "x")) (named_as (codes "x") bool_core) ≡ Less }
    ensures operators { tree_cmp (unary negation (var resource)) (unary minus (var principal)) ≡ Less }
    ensures shorter { tree_cmp (set_literal (tree (number_lit 1) no_trees)) (set_literal (tree (number_lit 1) (tree (number_lit 0) no_trees))) ≡ Less }
    ensures names { tree_cmp (record_literal (tree_field (codes "b") (number_lit 0) no_tree_fields)) (record_literal (tree_field (codes "a") (number_lit 1) no_tree_fields)) ≡ Greater }
    ensures paths { tree_cmp (has_path (var principal) (codes "a") (codes "b" ∷ [])) (has_path (var principal) (codes "a") (codes "c" ∷ [])) ≡ Less }
    ensures same { tree_eq (both (var principal) unrestricted) (both (var principal) unrestricted) ≡ true }
    ensures order_matters { tree_eq (both (var principal) (var action)) (both (var action) (var principal)) ≡ false }
    ensures kind_matters { tree_eq (both (var principal) (var action)) (either (var principal) (var action)) ≡ false }
    ensures same_value { tree_eq (set_literal (tree (number_lit 1) no_trees)) (set_literal (tree (number_lit 1) (tree (number_lit 1) no_trees))) ≡ false }
    ensures core_types { core_cmp record_core (entity_core user) ≡ Less }
    ensures core_names { core_cmp (entity_core user) (entity_core doc) ≡ Greater }
    ensures no_annotation { tree_cmp (named (codes "y")) (named_as (codes "y") bool_core) ≡ Less }
    ensures elements { element_cmp (character 255) wildcard ≡ Less }
    ensures slots { tree_cmp (slot principal_slot) (slot resource_slot) ≡ Less }
    ensures binary_operators { tree_cmp (binary equal (var resource) (var resource)) (binary less (var principal) (var principal)) ≡ Less }
    ensures unary_operators { tree_cmp (unary is_empty (var resource)) (unary is_empty (var resource)) ≡ Equal }
{}

/// Values in which no extension value stands.
pub fn worked_plain()
    ensures number { is_plain (made_number 1) ≡ true }
    ensures extension { is_plain made_rank ≡ false }
    ensures inside { is_plain (made_set (made (made_number 1) (made made_rank no_mades))) ≡ false }
{}

/// Another lawful builder: whether a variable or an unknown stands in the expression.
pub fn worked_another_builder()
    ensures lawful { IsLawful variable_builder }
    ensures a_variable { built variable_builder unrestricted ≡ true }
    ensures no_variable { built variable_builder (unary negation (rank_of (codes "7"))) ≡ false }
    ensures an_unknown { built variable_builder two_unknowns ≡ true }
    ensures bound { built_under variable_builder (x_and_y (made_truth true) made_rank) two_unknowns ≡ false }
    ensures half_bound { built_under variable_builder (only_x (made_truth true)) two_unknowns ≡ true }
    ensures under_nothing { built_under variable_builder nothing_bound (truth_lit true) ≡ false }
{}

/// Equality as of sets: in any order and however often a member is written.
pub fn worked_sameness()
    ensures turned { Same (set_of falling) (set_of rising) }
    ensures twice { Same (set_of (value (number 1) (value (number 1) no_values))) (set_of (value (number 1) no_values)) }
    ensures records { Same (record_of b_then_a) (record_of a_then_b) }
    ensures fewer { ¬ (Same (set_of rising) (set_of (value (number 1) no_values))) }
    ensures kinds { ¬ (Same (set_of no_values) (record_of no_fields)) }
{}

/// A table whose functions keep to their result types is fair, and one whose constructor gives a number isn't.
pub fn worked_fairness()
    ensures fair { IsFair typed_table }
    ensures unfair { ¬ (IsFair unfair_table) }
{}

/// A value is represented where its calls give it.
pub fn worked_represented()
    ensures rank { IsRepresented typed_table true_rank }
    ensures other_key { ¬ (IsRepresented typed_table feigned_rank) }
    ensures number { IsRepresented typed_table (made_number 1) }
{}

/// Texts of variables, operators, core types, features and patterns.
pub fn worked_texts()
    ensures variable { var_text resource ≡ codes "resource" }
    ensures other_variable { var_text context ≡ codes "context" }
    ensures minus { unary_text minus ≡ codes "-" }
    ensures difference { binary_text is_in ≡ codes "in" }
    ensures not { unary_text negation ≡ codes "!" }
    ensures empty { unary_text is_empty ≡ codes "isEmpty" }
    ensures product { binary_text times ≡ codes "*" }
    ensures remainder { binary_text remainder ≡ codes "%" }
    ensures any { binary_text contains_any ≡ codes "containsAny" }
    ensures set { core_text set_core ≡ codes "set" }
    ensures an_entity { core_text (entity_core deep_name) ≡ codes "(entity of type `a::b`)" }
    ensures an_extension { core_text (extension_core rank_name) ≡ codes "rank" }
    ensures slots { feature_text template_slots ≡ codes "template slots" }
    ensures has { feature_text has_test ≡ codes "'has'" }
    ensures operator { feature_text (binary_operator plus) ≡ codes "+" }
    ensures pattern { pattern_text f_to_r ≡ codes "f**r" }
    ensures star { pattern_text (character 42 ∷ wildcard ∷ []) ≡ 92 ∷ 42 ∷ 42 ∷ [] }
    ensures quote { pattern_text (character 34 ∷ []) ≡ 92 ∷ 34 ∷ [] }
{}

/// What is a uid, and what is none: a type whose name is no name, and an id that isn't a text.
pub fn worked_uids()
    ensures uid { is_uid alice ≡ true }
    ensures awkward { is_uid awkward_uid ≡ true }
    ensures no_name { is_uid (record { kind = record { path = []; base = codes "a::b" }; id = [] }) ≡ false }
    ensures no_text { is_uid (record { kind = user; id = 255 ∷ [] }) ≡ false }
{}

/// The ranges at their bounds: of whole numbers, of characters, which leave out the surrogates, and of bytes.
pub fn worked_ranges()
    ensures least { is_long least_long ≡ true }
    ensures below { is_long (negsuc 9223372036854775808) ≡ false }
    ensures greatest { is_long greatest_long ≡ true }
    ensures above { is_long (pos 9223372036854775808) ≡ false }
    ensures before_surrogates { is_character 0xD7FF ≡ true }
    ensures first_surrogate { is_character 0xD800 ≡ false }
    ensures last_surrogate { is_character 0xDFFF ≡ false }
    ensures after_surrogates { is_character 0xE000 ≡ true }
    ensures last_character { is_character 0x10_FFFF ≡ true }
    ensures no_character { is_character 0x11_0000 ≡ false }
    ensures bytes { is_byte 255 ≡ true }
    ensures no_byte { is_byte 256 ≡ false }
{}

/// Which values are in range, and which aren't: for a number that is too large, bytes that are no text, and a key of more than bytes.
pub fn worked_values_in_range()
    ensures number { is_in_range (set_of (value (prim (long least_long)) no_values)) ≡ true }
    ensures too_large { is_in_range (set_of (value (prim (long (pos 9223372036854775808))) no_values)) ≡ false }
    ensures texts { is_in_range (record_of (field (codes "a") (prim (text (codes "b"))) no_fields)) ≡ true }
    ensures no_text { is_in_range (record_of (field (codes "a") (prim (entity (record { kind = user; id = 255 ∷ [] }))) no_fields)) ≡ false }
    ensures key { is_in_range (extension rank_name (255 ∷ [])) ≡ true }
    ensures no_key { is_in_range (extension rank_name (256 ∷ [])) ≡ false }
{}

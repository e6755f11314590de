//! Worked examples of types, computed. Each function's contract is what comes out; its body does nothing.

ghost use Rattle.std.specs.Prelude.{◌≡◌, true, false, Some, None, codes, [], ◌∷◌};
ghost use Rattle.cedar_expr_model.specs.Value.{extension};
ghost use Rattle.cedar_schema_model.specs.Types.{never, long_type, string_type, any_entity, entity_types, any_set, set_type, extension_type, no_attributes, attribute, strict, permissive};
ghost use Rattle.cedar_schema_model.specs.Subtype.{is_subtype};
ghost use Rattle.cedar_schema_model.specs.OfLaws.Formed.{is_well_formed_type};
ghost use Rattle.cedar_schema_model.specs.TypeLaws.{is_alike, has_no_any_set, is_filled};
ghost use Rattle.cedar_schema_model.specs.HasType.{has_type};
ghost use Rattle.cedar_schema_model.specs.Join.{join, reduce_to_join, are_disjoint};
ghost use Rattle.cedar_schema_model.specs.Lookup.{lookup_attribute, may_have_attribute};
ghost use Rattle.cedar_schema_model.specs.TypeWorked.{plain_name, doc, user, group, color, decimal, ip, bool, always, at_no_time, docs, users, docs_or_users, groups_or_users, all_three, with_a, with_both, closed, opened, one, yes_value, no_value, word, user_a, doc_d, set_one, set_two, nothing, empty, just_a, a_and_b, schema};

/// `never` is below all, True and False below the type of both, every other such type below itself alone.
pub fn worked_simple_subtypes()
    ensures never_below { is_subtype strict never string_type ≡ true }
    ensures none_below_never { is_subtype permissive string_type never ≡ false }
    ensures true_below { is_subtype strict always bool ≡ true }
    ensures not_below_true { is_subtype permissive bool always ≡ false }
    ensures true_and_false { is_subtype permissive always at_no_time ≡ false }
    ensures itself { is_subtype strict long_type long_type ≡ true }
    ensures other { is_subtype permissive long_type string_type ≡ false }
    ensures same_extension { is_subtype strict (extension_type decimal) (extension_type decimal) ≡ true }
    ensures other_extension { is_subtype permissive (extension_type decimal) (extension_type ip) ≡ false }
{}

/// In permissive mode a union is below each larger one and below the type of any entity; in strict mode it is below itself alone.
pub fn worked_union_subtypes()
    ensures larger { is_subtype permissive users docs_or_users ≡ true }
    ensures smaller { is_subtype permissive docs_or_users users ≡ false }
    ensures crossed { is_subtype permissive docs_or_users groups_or_users ≡ false }
    ensures larger_strictly { is_subtype strict users docs_or_users ≡ false }
    ensures itself { is_subtype strict docs_or_users docs_or_users ≡ true }
    ensures any { is_subtype permissive docs_or_users any_entity ≡ true }
    ensures any_strictly { is_subtype strict users any_entity ≡ false }
    ensures any_below_any { is_subtype strict any_entity any_entity ≡ true }
    ensures any_below { is_subtype permissive any_entity all_three ≡ false }
{}

/// A set is below the sets of a greater element type, and below the type of all sets.
pub fn worked_set_subtypes()
    ensures greater { is_subtype strict (set_type always) (set_type bool) ≡ true }
    ensures smaller { is_subtype permissive (set_type bool) (set_type always) ≡ false }
    ensures empty { is_subtype strict (set_type never) (set_type users) ≡ true }
    ensures entities { is_subtype strict (set_type users) (set_type docs_or_users) ≡ false }
    ensures any { is_subtype strict (set_type users) any_set ≡ true }
    ensures any_below_any { is_subtype strict any_set any_set ≡ true }
    ensures any_below { is_subtype permissive any_set (set_type never) ≡ false }
{}

/// A record is below another if it has all the other's attributes, each of a type below and required where the other's is, and is as closed as the other.
pub fn worked_record_subtypes()
    ensures wider { is_subtype permissive (closed (with_a long_type true)) (opened no_attributes) ≡ true }
    ensures wider_strictly { is_subtype strict (closed (with_a long_type true)) (opened no_attributes) ≡ false }
    ensures wider_and_open_strictly { is_subtype strict (opened (with_a long_type true)) (opened no_attributes) ≡ false }
    ensures wider_than_closed { is_subtype permissive (closed (with_a long_type true)) (closed no_attributes) ≡ false }
    ensures narrower { is_subtype permissive (opened no_attributes) (opened (with_a long_type false)) ≡ false }
    ensures required { is_subtype permissive (closed (with_a long_type true)) (closed (with_a long_type false)) ≡ true }
    ensures required_strictly { is_subtype strict (closed (with_a long_type true)) (closed (with_a long_type false)) ≡ false }
    ensures optional { is_subtype permissive (closed (with_a long_type false)) (closed (with_a long_type true)) ≡ false }
    ensures closed_below_open { is_subtype permissive (closed (with_a long_type true)) (opened (with_a long_type true)) ≡ true }
    ensures closed_below_open_strictly { is_subtype strict (closed (with_a long_type true)) (opened (with_a long_type true)) ≡ false }
    ensures open_below_closed { is_subtype permissive (opened (with_a long_type true)) (closed (with_a long_type true)) ≡ false }
    ensures deeper { is_subtype strict (closed (with_a always true)) (closed (with_a bool true)) ≡ true }
    ensures other_type { is_subtype permissive (closed (with_a long_type true)) (closed (with_a string_type true)) ≡ false }
    ensures deeper_strictly { is_subtype strict (closed (with_a users true)) (closed (with_a docs_or_users true)) ≡ false }
{}

/// Unions and the names of attributes rise; a union isn't empty and its names are well-formed.
pub fn worked_well_formed_types()
    ensures rising { is_well_formed_type all_three ≡ true }
    ensures falling { is_well_formed_type (entity_types (user ∷ doc ∷ [])) ≡ false }
    ensures twice { is_well_formed_type (entity_types (user ∷ user ∷ [])) ≡ false }
    ensures none { is_well_formed_type (entity_types []) ≡ false }
    ensures no_name { is_well_formed_type (entity_types (plain_name (codes "1") ∷ [])) ≡ false }
    ensures rising_names { is_well_formed_type (closed (with_both long_type users)) ≡ true }
    ensures falling_names { is_well_formed_type (opened (attribute (codes "b") long_type true (with_a long_type true))) ≡ false }
    ensures inside { is_well_formed_type (set_type (closed (with_a (entity_types []) false))) ≡ false }
{}

/// `any_set` stands nowhere, at the top, or inside.
pub fn worked_without_any_set()
    ensures nowhere { has_no_any_set (closed (with_both (set_type never) any_entity)) ≡ true }
    ensures top { has_no_any_set any_set ≡ false }
    ensures inside { has_no_any_set (set_type (closed (with_both long_type any_set))) ≡ false }
{}

/// Types are alike where records, wherever they are compared, have the same names, flags and openness, and entities the same type.
pub fn worked_alike()
    ensures same { is_alike (closed (with_a users true)) (closed (with_a users true)) ≡ true }
    ensures other_names { is_alike (closed (with_a long_type true)) (closed no_attributes) ≡ false }
    ensures more_names { is_alike (closed no_attributes) (closed (with_a long_type true)) ≡ false }
    ensures other_flags { is_alike (closed (with_a long_type true)) (closed (with_a long_type false)) ≡ false }
    ensures other_openness { is_alike (closed no_attributes) (opened no_attributes) ≡ false }
    ensures deeper { is_alike (set_type (closed (with_a users true))) (set_type (closed (with_a docs true))) ≡ false }
    ensures any { is_alike users any_entity ≡ false }
    ensures any_first { is_alike any_entity users ≡ false }
    ensures not_compared { is_alike (set_type (closed no_attributes)) any_set ≡ true }
{}

/// All parts have values and all attributes are required.
pub fn worked_filled()
    ensures filled { is_filled (closed (with_both (set_type bool) any_set)) ≡ true }
    ensures not_required { is_filled (closed (with_a bool false)) ≡ false }
    ensures no_value { is_filled (set_type never) ≡ false }
{}

/// Literals, sets and extension values of a type.
pub fn worked_simple_values()
    ensures long { has_type one long_type ≡ true }
    ensures not_text { has_type one string_type ≡ false }
    ensures text { has_type word string_type ≡ true }
    ensures true_value { has_type yes_value always ≡ true }
    ensures not_false { has_type yes_value at_no_time ≡ false }
    ensures false_value { has_type no_value at_no_time ≡ true }
    ensures not_true { has_type no_value always ≡ false }
    ensures of_both { has_type yes_value bool ≡ true }
    ensures nothing_of_never { has_type one never ≡ false }
    ensures user { has_type user_a docs_or_users ≡ true }
    ensures no_group { has_type doc_d groups_or_users ≡ false }
    ensures any { has_type doc_d any_entity ≡ true }
    ensures set { has_type (set_two user_a doc_d) (set_type docs_or_users) ≡ true }
    ensures one_other { has_type (set_two user_a doc_d) (set_type users) ≡ false }
    ensures mixed { has_type (set_two one word) any_set ≡ true }
    ensures empty { has_type nothing (set_type never) ≡ true }
    ensures no_set { has_type empty any_set ≡ false }
    ensures extension { has_type (extension decimal (codes "1.0")) (extension_type decimal) ≡ true }
    ensures other_extension { has_type (extension decimal (codes "1.0")) (extension_type ip) ≡ false }
{}

/// A record of a type has the required fields, its declared fields are of their types, and it has no other where the type is closed.
pub fn worked_record_values()
    ensures good { has_type (just_a one) (closed (with_a long_type true)) ≡ true }
    ensures missing { has_type empty (closed (with_a long_type true)) ≡ false }
    ensures optional { has_type empty (closed (with_a long_type false)) ≡ true }
    ensures other_type { has_type (just_a word) (closed (with_a long_type false)) ≡ false }
    ensures other_field { has_type (a_and_b one word) (closed (with_a long_type true)) ≡ false }
    ensures other_field_of_open { has_type (a_and_b one word) (opened (with_a long_type true)) ≡ true }
    ensures other_type_of_open { has_type (a_and_b word one) (opened (with_a long_type true)) ≡ false }
{}

/// Joins of types that aren't records.
pub fn worked_joins()
    ensures greater { join strict always bool ≡ Some bool }
    ensures truths { join strict always at_no_time ≡ Some bool }
    ensures same_truth { join permissive always always ≡ Some always }
    ensures with_never { join strict users never ≡ Some users }
    ensures none { join permissive long_type string_type ≡ None }
    ensures unions { join permissive docs_or_users groups_or_users ≡ Some all_three }
    ensures unions_strictly { join strict docs_or_users groups_or_users ≡ None }
    ensures larger_strictly { join strict users docs_or_users ≡ None }
    ensures same_union { join strict docs_or_users docs_or_users ≡ Some docs_or_users }
    ensures any { join permissive any_entity users ≡ Some any_entity }
    ensures any_strictly { join strict users any_entity ≡ None }
    ensures sets { join strict (set_type always) (set_type at_no_time) ≡ Some (set_type bool) }
    ensures empty_set { join strict (set_type never) (set_type long_type) ≡ Some (set_type long_type) }
    ensures no_set { join permissive (set_type long_type) (set_type string_type) ≡ None }
    ensures all_sets { join strict any_set (set_type long_type) ≡ Some any_set }
    ensures extensions { join permissive (extension_type decimal) (extension_type ip) ≡ None }
{}

/// Joins of records keep the common attributes that join, required where both require them, and are closed where both are and no name was lost.
pub fn worked_record_joins()
    ensures lost { join permissive (closed (with_a long_type true)) (closed no_attributes) ≡ Some (opened no_attributes) }
    ensures lost_strictly { join strict (closed (with_a long_type true)) (closed no_attributes) ≡ None }
    ensures lost_by_the_second { join permissive (closed no_attributes) (closed (with_a long_type true)) ≡ Some (opened no_attributes) }
    ensures kept { join strict (closed (with_a always true)) (closed (with_a at_no_time true)) ≡ Some (closed (with_a bool true)) }
    ensures not_joining { join permissive (closed (with_both always long_type)) (closed (with_both at_no_time string_type)) ≡ Some (opened (with_a bool true)) }
    ensures not_joining_strictly { join strict (closed (with_both always long_type)) (closed (with_both at_no_time string_type)) ≡ None }
    ensures flags { join permissive (closed (with_a long_type true)) (closed (with_a long_type false)) ≡ Some (closed (with_a long_type false)) }
    ensures flags_swapped { join permissive (closed (with_a long_type false)) (closed (with_a long_type true)) ≡ Some (closed (with_a long_type false)) }
    ensures flags_strictly { join strict (closed (with_a long_type true)) (closed (with_a long_type false)) ≡ None }
    ensures openness { join permissive (closed (with_a long_type true)) (opened (with_a long_type true)) ≡ Some (opened (with_a long_type true)) }
    ensures openness_strictly { join strict (closed (with_a long_type true)) (opened (with_a long_type true)) ≡ None }
    ensures deeper { join permissive (closed (with_a users true)) (closed (with_a docs true)) ≡ Some (closed (with_a docs_or_users true)) }
    ensures deeper_strictly { join strict (closed (with_a users true)) (closed (with_a docs true)) ≡ None }
{}

/// The join of several types; of none it is `never`.
pub fn worked_reductions()
    ensures none { reduce_to_join strict [] ≡ Some never }
    ensures one { reduce_to_join strict (long_type ∷ []) ≡ Some long_type }
    ensures several { reduce_to_join permissive (users ∷ docs ∷ groups_or_users ∷ []) ≡ Some all_three }
    ensures several_strictly { reduce_to_join strict (users ∷ docs ∷ groups_or_users ∷ []) ≡ None }
    ensures not_all { reduce_to_join permissive (long_type ∷ long_type ∷ string_type ∷ []) ≡ None }
{}

/// Two unions without common member are disjoint; nothing is said of other types.
pub fn worked_disjoint()
    ensures apart { are_disjoint users docs ≡ true }
    ensures shared { are_disjoint docs_or_users groups_or_users ≡ false }
    ensures any { are_disjoint users any_entity ≡ false }
    ensures others { are_disjoint long_type string_type ≡ false }
{}

/// What a type knows of an attribute.
pub fn worked_lookups()
    ensures one { lookup_attribute schema docs (codes "owner") ≡ Some (record { type = users; is_required = true }) }
    ensures not_by_all { lookup_attribute schema docs_or_users (codes "owner") ≡ None }
    ensures not_by_both { lookup_attribute schema docs_or_users (codes "name") ≡ Some (record { type = string_type; is_required = false }) }
    ensures joined { lookup_attribute schema docs_or_users (codes "flag") ≡ Some (record { type = bool; is_required = true }) }
    ensures not_joining { lookup_attribute schema docs_or_users (codes "rank") ≡ None }
    ensures enumerated { lookup_attribute schema (entity_types (color ∷ [])) (codes "name") ≡ None }
    ensures any { lookup_attribute schema any_entity (codes "name") ≡ None }
    ensures record { lookup_attribute schema (opened (with_a long_type false)) (codes "a") ≡ Some (record { type = long_type; is_required = false }) }
    ensures not_listed { lookup_attribute schema (opened (with_a long_type false)) (codes "b") ≡ None }
{}

/// Which types may have an attribute.
pub fn worked_may_have()
    ensures some_member { may_have_attribute schema docs_or_users (codes "owner") ≡ true }
    ensures no_member { may_have_attribute schema users (codes "owner") ≡ false }
    ensures any { may_have_attribute schema any_entity (codes "owner") ≡ true }
    ensures listed { may_have_attribute schema (closed (with_a long_type false)) (codes "a") ≡ true }
    ensures not_listed { may_have_attribute schema (closed (with_a long_type false)) (codes "b") ≡ false }
    ensures opened_record { may_have_attribute schema (opened (with_a long_type false)) (codes "b") ≡ true }
    ensures no_record { may_have_attribute schema long_type (codes "a") ≡ false }
    ensures nothing { may_have_attribute schema never (codes "a") ≡ true }
{}

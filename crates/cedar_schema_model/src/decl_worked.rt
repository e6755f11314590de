//! Worked examples of declarations, entities and requests, computed. Each function's contract is what comes out; its body does
//! nothing.

ghost use Rattle.std.specs.Prelude.{◌≡◌, Bool, true, false, pos, codes, [], ◌∷◌, Some, None, map};
ghost use Rattle.cedar_expr_model.specs.Value.{truth, long, text, entity, prim, set_of, record_of, extension, no_values, value, no_fields, field};
ghost use Rattle.cedar_schema_model.specs.Types.{any_bool, only_true, is_open, is_closed, never, bool_type, long_type, string_type, any_entity, entity_types, entity_type, any_set, set_type, record_type, extension_type, no_attributes, attribute};
ghost use Rattle.cedar_schema_model.specs.Descent.{descends, action_descends, action_type_descends, type_descends};
ghost use Rattle.cedar_schema_model.specs.DeclLaws.{action_entity};
ghost use Rattle.cedar_schema_model.specs.ActionEntities.{action_entities};
ghost use Rattle.cedar_schema_model.specs.HasType.{has_type};
ghost use Rattle.cedar_schema_model.specs.Schema.{enumerated};
ghost use Rattle.cedar_store_model.specs.Store.{as_open};
ghost use Rattle.cedar_schema_model.specs.Conforming.{undeclared, not_listed, no_member, lacks_attribute, undeclared_attribute, attribute_value, tag, ancestor, context_value, open_part, numbered_faults, conform_faults, has_entity_fault, entity_conforms, has_request_fault, request_conforms};
ghost use Rattle.cedar_schema_model.specs.Environment.{no_slot, equal_slot, in_slot, environments, environments_for, slot_types};
ghost use Rattle.cedar_schema_model.specs.Reference.{action_in};
ghost use Rattle.cedar_schema_model.specs.DeclWorked.{user, doc, group, color, ghost_type, rank, n, user_a, doc_d, view, edit, read, all_actions, user_attributes, m_schema, color_schema, tagged_schema, readers, crossed, squared, boss_a, is_ok, ok_seven, age_one, ok_left, one, made, good_user, request, at};

/// Documents are below users, users below groups, and groups below themselves; nothing is above a group else.
pub fn worked_descent()
    ensures parent { descends tagged_schema user group ≡ true }
    ensures chain { descends tagged_schema doc group ≡ true }
    ensures itself { descends tagged_schema group group ≡ true }
    ensures not_itself { descends tagged_schema user user ≡ false }
    ensures not_back { descends tagged_schema group user ≡ false }
    ensures undeclared { descends tagged_schema ghost_type group ≡ false }
{}

/// Actions descend by their declared parents, and so do their types.
pub fn worked_action_descent()
    ensures chain { action_descends readers view all_actions ≡ true }
    ensures not_back { action_descends readers all_actions view ≡ false }
    ensures not_itself { action_descends readers view view ≡ false }
    ensures types { action_type_descends crossed (action_in n (codes "view")).kind read.kind ≡ true }
    ensures not_types_back { action_type_descends crossed read.kind (action_in n (codes "view")).kind ≡ false }
    ensures same_type { action_type_descends readers view.kind view.kind ≡ true }
    ensures of_entities { action_type_descends tagged_schema user group ≡ false }
    ensures either { type_descends crossed (action_in n (codes "view")).kind read.kind ≡ true }
    ensures either_entities { type_descends tagged_schema user group ≡ true }
    ensures neither { type_descends tagged_schema group user ≡ false }
{}

/// The view action is below reading and all actions, reading below all, and all below none.
pub fn worked_action_entities()
    ensures all { action_entities readers ≡ (view, made [] [] (read ∷ all_actions ∷ [])) ∷ (read, made [] [] (all_actions ∷ [])) ∷ (all_actions, made [] [] []) ∷ [] }
    ensures one { action_entity readers read ≡ Some (made [] [] (all_actions ∷ [])) }
    ensures none { action_entity readers edit ≡ None }
{}

/// The values of types of one part.
pub fn worked_values()
    ensures absent { has_type (prim (entity user_a)) (entity_type user) ≡ true }
    ensures other_type { has_type (prim (entity doc_d)) (entity_type user) ≡ false }
    ensures one_of_two { has_type (prim (entity user_a)) (entity_types (doc ∷ user ∷ [])) ≡ true }
    ensures no_member { has_type (prim (entity (record { kind = color; id = codes "blue" }))) (entity_type color) ≡ true }
    ensures any { has_type (prim (entity doc_d)) any_entity ≡ true }
    ensures no_entity { has_type one any_entity ≡ false }
    ensures truth { has_type (prim (truth false)) (bool_type any_bool) ≡ true }
    ensures true_alone { has_type (prim (truth false)) (bool_type only_true) ≡ false }
    ensures number { has_type one long_type ≡ true }
    ensures no_number { has_type (prim (truth true)) long_type ≡ false }
    ensures word { has_type (prim (text (codes "x"))) string_type ≡ true }
    ensures no_word { has_type one string_type ≡ false }
    ensures extension { has_type (extension rank (codes "k")) (extension_type rank) ≡ true }
    ensures other_extension { has_type (extension rank (codes "k")) (extension_type user) ≡ false }
    ensures nothing { has_type one never ≡ false }
{}

/// The values of types of sets and records.
pub fn worked_nested_values()
    ensures empty_set { has_type (set_of no_values) (set_type long_type) ≡ true }
    ensures each { has_type (set_of (value one no_values)) (set_type long_type) ≡ true }
    ensures one_not { has_type (set_of (value one (value (prim (truth true)) no_values))) (set_type long_type) ≡ false }
    ensures any { has_type (set_of (value one (value (prim (truth true)) no_values))) any_set ≡ true }
    ensures no_set { has_type one any_set ≡ false }
    ensures whole { has_type (record_of (field (codes "boss") (prim (entity user_a)) (field (codes "nick") (prim (text [])) (field (codes "ok") (prim (truth true)) no_fields)))) (record_type user_attributes is_closed) ≡ true }
    ensures optional { has_type (record_of (field (codes "boss") (prim (entity user_a)) (field (codes "ok") (prim (truth true)) no_fields))) (record_type user_attributes is_closed) ≡ true }
    ensures required { has_type (record_of (field (codes "boss") (prim (entity user_a)) no_fields)) (record_type user_attributes is_closed) ≡ false }
    ensures wrong_optional { has_type (record_of (field (codes "boss") (prim (entity user_a)) (field (codes "nick") one (field (codes "ok") (prim (truth true)) no_fields)))) (record_type user_attributes is_closed) ≡ false }
    ensures undeclared { has_type (record_of (field (codes "x") one no_fields)) (record_type no_attributes is_closed) ≡ false }
    ensures opened { has_type (record_of (field (codes "x") one no_fields)) (record_type no_attributes is_open) ≡ true }
    ensures no_record { has_type (set_of no_values) (record_type no_attributes is_open) ≡ false }
{}

/// A user with a boss and a flag conforms; others each have one fault.
pub fn worked_entities()
    ensures good { entity_conforms m_schema user_a good_user ≡ true }
    ensures missing { has_entity_fault m_schema user_a (made (boss_a ∷ []) [] []) lacks_attribute ≡ true }
    ensures besides { has_entity_fault m_schema user_a (made (boss_a ∷ is_ok ∷ age_one ∷ []) [] []) undeclared_attribute ≡ true }
    ensures wrong { has_entity_fault m_schema user_a (made (boss_a ∷ ok_seven ∷ []) [] []) attribute_value ≡ true }
    ensures tagged { has_entity_fault m_schema user_a (made (boss_a ∷ is_ok ∷ []) (age_one ∷ []) []) tag ≡ true }
    ensures below { has_entity_fault m_schema user_a (made (boss_a ∷ is_ok ∷ []) [] (doc_d ∷ [])) ancestor ≡ true }
    ensures unknown_type { has_entity_fault m_schema (record { kind = ghost_type; id = codes "g" }) (made [] [] []) undeclared ≡ true }
    ensures not_member { has_entity_fault color_schema (record { kind = color; id = codes "blue" }) (made [] [] []) no_member ≡ true }
    ensures residual { has_entity_fault m_schema user_a (made (boss_a ∷ ok_left ∷ []) [] []) open_part ≡ true }
    ensures residual_is_there { has_entity_fault m_schema user_a (made (boss_a ∷ ok_left ∷ []) [] []) lacks_attribute ≡ false }
    ensures residual_is_no_value { has_entity_fault m_schema user_a (made (boss_a ∷ ok_left ∷ []) [] []) attribute_value ≡ false }
    ensures good_has_none { map (has_entity_fault m_schema user_a good_user) conform_faults ≡ map (λ f. false) conform_faults }
    ensures refused { entity_conforms m_schema user_a (made (boss_a ∷ []) [] []) ≡ false }
{}

/// Tags, ancestors, members of enumerated types, and actions.
pub fn worked_kinds_of_entities()
    ensures tags { entity_conforms tagged_schema user_a (made (boss_a ∷ is_ok ∷ []) (age_one ∷ []) []) ≡ true }
    ensures wrong_tag { has_entity_fault tagged_schema user_a (made (boss_a ∷ is_ok ∷ []) (is_ok ∷ []) []) tag ≡ true }
    ensures above { entity_conforms tagged_schema user_a (made (boss_a ∷ is_ok ∷ []) [] (record { kind = group; id = codes "g" } ∷ [])) ≡ true }
    ensures member { entity_conforms color_schema (record { kind = color; id = codes "red" }) (made [] [] []) ≡ true }
    ensures member_without_attributes { has_entity_fault color_schema (record { kind = color; id = codes "red" }) (made (is_ok ∷ []) [] []) undeclared_attribute ≡ true }
    ensures member_without_ancestors { has_entity_fault color_schema (record { kind = color; id = codes "red" }) (made [] [] (user_a ∷ [])) ancestor ≡ true }
    ensures declared_action { entity_conforms readers view (made [] [] (all_actions ∷ read ∷ [])) ≡ true }
    ensures fewer_ancestors { has_entity_fault readers view (made [] [] (read ∷ [])) ancestor ≡ true }
    ensures more_ancestors { has_entity_fault readers read (made [] [] (all_actions ∷ view ∷ [])) ancestor ≡ true }
    ensures no_action { has_entity_fault readers edit (made [] [] []) undeclared ≡ true }
    ensures action_without_tags { has_entity_fault readers all_actions (made [] (age_one ∷ []) []) tag ≡ true }
    ensures action_before_type { entity_conforms (record readers { types = record { name = view.kind; parents = []; kind = enumerated [] } ∷ [] }) view (made [] [] (all_actions ∷ read ∷ [])) ≡ true }
{}

/// A request of a user, to view a document, conforms; others each have one fault.
pub fn worked_requests()
    ensures good { request_conforms m_schema (as_open request) ≡ true }
    ensures no_action { has_request_fault m_schema (as_open (record request { action = edit })) undeclared ≡ true }
    ensures principal { has_request_fault m_schema (as_open (record request { principal = doc_d })) not_listed ≡ true }
    ensures resource { has_request_fault m_schema (as_open (record request { resource = user_a })) not_listed ≡ true }
    ensures context { has_request_fault m_schema (as_open (record request { context = field (codes "x") one no_fields })) context_value ≡ true }
    ensures open { has_request_fault m_schema (record (as_open request) { principal = None }) open_part ≡ true }
    ensures open_is_listed { has_request_fault m_schema (record (as_open request) { principal = None }) not_listed ≡ false }
    ensures open_context { request_conforms m_schema (record (as_open request) { context = None }) ≡ false }
    ensures not_member { has_request_fault color_schema (as_open (record request { principal = record { kind = color; id = codes "blue" } })) no_member ≡ true }
    ensures member { has_request_fault color_schema (as_open (record request { principal = record { kind = color; id = codes "red" } })) no_member ≡ false }
    ensures numbers { map (λ n. n.0) numbered_faults ≡ 1 ∷ 2 ∷ 3 ∷ 4 ∷ 5 ∷ 6 ∷ 7 ∷ 8 ∷ 9 ∷ 10 ∷ [] }
{}

/// The environments of one action on one pair of types, of one on two principal and two resource types, and of none.
pub fn worked_environments()
    ensures one_pair { environments m_schema ≡ at user doc None None ∷ [] }
    ensures four { environments squared ≡ at user user None None ∷ at user doc None None ∷ at doc user None None ∷ at doc doc None None ∷ [] }
    ensures nothing { environments readers ≡ [] }
    ensures equal { environments_for m_schema equal_slot no_slot ≡ at user doc (Some user) None ∷ [] }
    ensures both { environments_for m_schema equal_slot equal_slot ≡ at user doc (Some user) (Some doc) ∷ [] }
    ensures below { environments_for tagged_schema in_slot no_slot ≡ at user doc (Some user) None ∷ at user doc (Some group) None ∷ [] }
    ensures below_two { slot_types tagged_schema in_slot doc ≡ Some doc ∷ Some user ∷ Some group ∷ [] }
    ensures itself_once { slot_types tagged_schema in_slot group ≡ Some group ∷ [] }
{}

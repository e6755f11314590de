//! Worked examples of references, of the faults of declarations and of schemas, computed. Each function's contract is what comes
//! out; its body does nothing.

ghost use Rattle.std.specs.Prelude.{◌≡◌, Bool, true, false, codes, [], ◌∷◌, ◌++◌, Some, None, map};
ghost use Rattle.cedar_schema_model.specs.Types.{any_bool, is_closed, never, bool_type, long_type, entity_type, set_type, record_type, extension_type, no_attributes, attribute};
ghost use Rattle.cedar_schema_model.specs.Descent.{descends};
ghost use Rattle.cedar_schema_model.specs.Reference.{name_in, action_in, to_entity, to_common, to_either, meant_common, meant_entity};
ghost use Rattle.cedar_schema_model.specs.Declarations.{bool_expr, long_expr, set_expr, record_expr, reference, extension_expr, no_field_exprs, field_expr, bag, meant, parent_meant};
ghost use Rattle.cedar_schema_model.specs.WellFormed.{duplicate_entity_type, duplicate_common_type, duplicate_action, undeclared_type, undeclared_action, cycle_of_common_types, cycle_of_actions, action_as_entity_type, context_not_record, reserved_name, shadowing, unknown_extension_type, unresolved_external, ill_forms, schema_number, has_schema_fault, well_formed};
ghost use Rattle.cedar_schema_model.specs.Resolved.{common_of, common_within, resolved, schema_of};
ghost use Rattle.cedar_schema_model.specs.BagLaws.{has_rising};
ghost use Rattle.cedar_schema_model.specs.DeclWorked.{user, doc, group, color, ghost_type, rank, n, view, read, all_actions, plain, child, color_declared, external_x, common, act, on_docs, m, user_fragment, doc_fragment, with_type, with_action, with_commons, with_context, m_schema, at_place, two_users, own_first, common_first, nested_users, deep_users, read_above, read_beside, common_named, common_cycle, common_chain, common_alias, action_cycle, ranked, tagged_by, grouped, mixed, mixed_schema, reserved_rank, reserved_ranked};

/// What references mean, written in the namespace `N`.
pub fn worked_references()
    ensures own { meant two_users (at_place n to_entity user) ≡ Some (meant_entity (name_in n (codes "User"))) }
    ensures empty { meant m (at_place n to_entity user) ≡ Some (meant_entity user) }
    ensures from_empty { meant two_users (at_place [] to_entity user) ≡ Some (meant_entity user) }
    ensures absolute { meant two_users (at_place (codes "M" ∷ []) to_entity (name_in n (codes "User"))) ≡ Some (meant_entity (name_in n (codes "User"))) }
    ensures absolute_first { meant nested_users (at_place (codes "M" ∷ []) to_entity (name_in n (codes "User"))) ≡ Some (meant_entity (name_in n (codes "User"))) }
    ensures not_relative { meant deep_users (at_place (codes "M" ∷ []) to_entity (name_in n (codes "User"))) ≡ None }
    ensures not_outward { meant two_users (at_place (codes "N" ∷ codes "M" ∷ []) to_entity user) ≡ Some (meant_entity user) }
    ensures absolute_alone { meant m (at_place [] to_entity (name_in n (codes "User"))) ≡ None }
    ensures own_before_common { meant own_first (at_place n to_either user) ≡ Some (meant_entity (name_in n (codes "User"))) }
    ensures common_before_entity { meant common_first (at_place n to_either user) ≡ Some (meant_common (name_in n (codes "User"))) }
    ensures entity_alone { meant common_first (at_place n to_entity user) ≡ Some (meant_entity (name_in n (codes "User"))) }
    ensures common_alone { meant own_first (at_place n to_common user) ≡ Some (meant_common user) }
    ensures nothing { meant m (at_place n to_entity ghost_type) ≡ None }
    ensures no_common { meant m (at_place [] to_common user) ≡ None }
{}

/// What parents of actions mean.
pub fn worked_parents()
    ensures empty { parent_meant read_above n read ≡ Some read }
    ensures own { parent_meant read_beside n read ≡ Some (action_in n (codes "read")) }
    ensures absolute { parent_meant read_beside [] (action_in n (codes "read")) ≡ Some (action_in n (codes "read")) }
    ensures nothing { parent_meant read_above n all_actions ≡ None }
{}

/// Users and documents, as one fragment and as two, are well-formed; doubled declarations aren't.
pub fn worked_duplicates()
    ensures good { well_formed [] m ≡ true }
    ensures two_fragments { well_formed [] (bag (user_fragment ∷ doc_fragment ∷ [])) ≡ true }
    ensures twice { has_schema_fault [] (bag (user_fragment ∷ m ∷ [])) duplicate_entity_type ≡ true }
    ensures commons { has_schema_fault [] (with_commons (common [] (codes "T") bool_expr ∷ common [] (codes "T") bool_expr ∷ [])) duplicate_common_type ≡ true }
    ensures actions { has_schema_fault [] (bag (doc_fragment ∷ doc_fragment ∷ [])) duplicate_action ≡ true }
    ensures both_kinds { well_formed [] (with_commons (common [] (codes "User") bool_expr ∷ [])) ≡ true }
    ensures refused { well_formed [] (bag (user_fragment ∷ m ∷ [])) ≡ false }
    ensures none { map (has_schema_fault [] m) ill_forms ≡ map (λ f. false) ill_forms }
    ensures numbers { map schema_number (ill_forms ++ unresolved_external ∷ []) ≡ 1 ∷ 2 ∷ 3 ∷ 4 ∷ 5 ∷ 6 ∷ 7 ∷ 8 ∷ 9 ∷ 10 ∷ 11 ∷ 12 ∷ 13 ∷ [] }
{}

/// References to what isn't declared, in each place where one may stand.
pub fn worked_undeclared()
    ensures parent { has_schema_fault [] (with_type (child (codes "Group") (ghost_type ∷ []))) undeclared_type ≡ true }
    ensures tags { has_schema_fault [] (with_type (tagged_by (set_expr (reference to_either ghost_type)))) undeclared_type ≡ true }
    ensures unused { has_schema_fault [] (with_commons (common [] (codes "T") (reference to_entity ghost_type) ∷ [])) undeclared_type ≡ true }
    ensures action_type { has_schema_fault [] (with_context [] (record_expr (field_expr (codes "x") (reference to_entity view.kind) true no_field_exprs))) undeclared_type ≡ true }
    ensures principal { has_schema_fault [] (record m { entities = [] }) undeclared_type ≡ true }
    ensures declared { has_schema_fault [] (with_type (child (codes "Group") (user ∷ []))) undeclared_type ≡ false }
    ensures action { has_schema_fault [] (with_action (act [] (codes "list") (read ∷ []))) undeclared_action ≡ true }
    ensures declared_action { has_schema_fault [] (with_action (act [] (codes "list") (view ∷ []))) undeclared_action ≡ false }
{}

/// Cycles of common types and of actions; one of entity types is none.
pub fn worked_cycles()
    ensures commons { has_schema_fault [] (with_commons common_cycle) cycle_of_common_types ≡ true }
    ensures common_itself { has_schema_fault [] (with_commons (common [] (codes "T") (set_expr (common_named (codes "T"))) ∷ [])) cycle_of_common_types ≡ true }
    ensures chain { has_schema_fault [] (with_commons common_chain) cycle_of_common_types ≡ false }
    ensures actions { has_schema_fault [] action_cycle cycle_of_actions ≡ true }
    ensures action_itself { has_schema_fault [] (with_action (act [] (codes "list") (action_in [] (codes "list") ∷ []))) cycle_of_actions ≡ true }
    ensures groups { well_formed [] grouped ≡ true }
    ensures group_below_itself { descends (schema_of grouped) group group ≡ true }
{}

/// A context is a record, by way of common types too.
pub fn worked_contexts()
    ensures number { has_schema_fault [] (with_context [] long_expr) context_not_record ≡ true }
    ensures of_entity { has_schema_fault [] (with_context [] (reference to_either user)) context_not_record ≡ true }
    ensures of_common { has_schema_fault [] (with_context common_chain (common_named (codes "U"))) context_not_record ≡ false }
    ensures of_alias { well_formed [] (with_context common_alias (common_named (codes "T"))) ≡ true }
    ensures of_set { has_schema_fault [] (with_context common_chain (common_named (codes "T"))) context_not_record ≡ true }
{}

/// Names that are reserved or shadow others, `Action` as an entity type, extension types, and external declarations.
pub fn worked_names()
    ensures action_word { has_schema_fault [] (with_type (plain n (codes "Action"))) action_as_entity_type ≡ true }
    ensures no_action_word { has_schema_fault [] (with_type (plain n (codes "Actions"))) action_as_entity_type ≡ false }
    ensures reserved { has_schema_fault [] (with_type (plain [] (codes "__cedar"))) reserved_name ≡ true }
    ensures reserved_namespace { has_schema_fault [] (with_action (act (codes "A" ∷ codes "__cedar" ∷ []) (codes "go") [])) reserved_name ≡ true }
    ensures reserved_extension { has_schema_fault (reserved_rank ∷ []) reserved_ranked reserved_name ≡ true }
    ensures reserved_extension_alone { map (has_schema_fault (reserved_rank ∷ []) reserved_ranked) (undeclared_type ∷ unknown_extension_type ∷ []) ≡ false ∷ false ∷ [] }
    ensures reserved_parent { has_schema_fault [] (with_action (act [] (codes "list") (action_in (codes "__cedar" ∷ []) (codes "a") ∷ []))) reserved_name ≡ true }
    ensures free_id { has_schema_fault [] (with_action (act [] (codes "__cedar") [])) reserved_name ≡ false }
    ensures shadow { has_schema_fault [] two_users shadowing ≡ true }
    ensures other_kind { has_schema_fault [] own_first shadowing ≡ true }
    ensures of_actions { has_schema_fault [] read_beside shadowing ≡ true }
    ensures other_id { has_schema_fault [] read_above shadowing ≡ false }
    ensures type_and_action { has_schema_fault [] (with_action (act n (codes "User") [])) shadowing ≡ false }
    ensures unknown { has_schema_fault [] ranked unknown_extension_type ≡ true }
    ensures known { well_formed (rank ∷ []) ranked ≡ true }
    ensures external_type { has_schema_fault [] (with_type external_x) unresolved_external ≡ true }
    ensures external_is_formed { well_formed [] (with_type external_x) ≡ true }
    ensures external_action { has_schema_fault [] (with_action (record (act [] (codes "e") []) { is_external = true })) unresolved_external ≡ true }
    ensures complete { has_schema_fault [] m unresolved_external ≡ false }
{}

/// The schema of users and documents, in one fragment or two, and that of declarations of every kind.
pub fn worked_schemas()
    ensures one { schema_of m ≡ m_schema }
    ensures kinds { schema_of mixed ≡ mixed_schema }
    ensures kinds_well_formed { well_formed [] mixed ≡ true }
    ensures two { schema_of (bag (user_fragment ∷ doc_fragment ∷ [])) ≡ m_schema }
    ensures nothing { schema_of (bag []) ≡ record { types = []; actions = [] } }
{}

/// Types with their common types replaced.
pub fn worked_common_types()
    ensures chain { common_of (with_commons common_chain) (name_in [] (codes "T")) ≡ set_type (record_type (attribute (codes "a") long_type true no_attributes) is_closed) }
    ensures too_few { common_within 1 (with_commons common_chain) (name_in [] (codes "T")) ≡ set_type never }
    ensures alias { resolved (with_commons common_alias) [] (common_named (codes "T")) ≡ record_type (attribute (codes "a") long_type true no_attributes) is_closed }
    ensures of_entity { resolved m [] (set_expr (reference to_either user)) ≡ set_type (entity_type user) }
    ensures of_extension { resolved m [] (extension_expr rank) ≡ extension_type rank }
    ensures nothing { resolved m [] (reference to_either ghost_type) ≡ never }
    ensures last_stands { resolved m [] (record_expr (field_expr (codes "a") bool_expr true (field_expr (codes "a") long_expr false no_field_exprs))) ≡ record_type (attribute (codes "a") long_type false no_attributes) is_closed }
    ensures rising { resolved m [] (record_expr (field_expr (codes "b") bool_expr true (field_expr (codes "a") long_expr true no_field_exprs))) ≡ record_type (attribute (codes "a") long_type true (attribute (codes "b") (bool_type any_bool) true no_attributes)) is_closed }
{}

/// Attributes that rise by name, and some that don't.
pub fn worked_rising()
    ensures rising { has_rising (record_type (attribute (codes "a") long_type true (attribute (codes "b") long_type true no_attributes)) is_closed) ≡ true }
    ensures falling { has_rising (record_type (attribute (codes "b") long_type true (attribute (codes "a") long_type true no_attributes)) is_closed) ≡ false }
    ensures twice { has_rising (record_type (attribute (codes "a") long_type true (attribute (codes "a") long_type true no_attributes)) is_closed) ≡ false }
    ensures inside { has_rising (set_type (record_type (attribute (codes "b") long_type true (attribute (codes "a") long_type true no_attributes)) is_closed)) ≡ false }
{}

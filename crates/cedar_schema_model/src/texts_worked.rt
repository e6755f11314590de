//! Worked examples of texts of types, computed. Each function's contract is what comes out; its body does nothing.

ghost use Rattle.std.specs.Prelude.{◌≡◌, [], ◌∷◌, codes};
ghost use Rattle.cedar_schema_model.specs.Types.{never, only_true, bool_type, long_type, any_entity, entity_types, any_set, set_type, record_type, no_attributes, is_open, is_closed, extension_type};
ghost use Rattle.cedar_schema_model.specs.TypeWorked.{bool, docs, doc, user, decimal};
ghost use Rattle.cedar_schema_model.specs.Texts.{type_text};
ghost use Rattle.cedar_schema_model.specs.TextsWorked.{two_attributes};

/// Types without parts.
pub fn worked_plain_texts()
    ensures bool { type_text bool ≡ codes "Bool" }
    ensures yes { type_text (bool_type only_true) ≡ codes "__cedar::internal::True" }
    ensures none { type_text never ≡ codes "__cedar::internal::Never" }
    ensures extension { type_text (extension_type decimal) ≡ codes "decimal" }
    ensures docs { type_text docs ≡ codes "Doc" }
    ensures union { type_text (entity_types (doc ∷ user ∷ [])) ≡ codes "__cedar::internal::Union<Doc, User>" }
    ensures any { type_text any_entity ≡ codes "__cedar::internal::AnyEntity" }
{}

/// Sets and records.
pub fn worked_texts_with_parts()
    ensures sets { type_text (set_type (set_type long_type)) ≡ codes "Set<Set<Long>>" }
    ensures any { type_text any_set ≡ codes "Set<__cedar::internal::Any>" }
    ensures empty { type_text (record_type no_attributes is_closed) ≡ codes "{}" }
    ensures opened { type_text (record_type no_attributes is_open) ≡ codes "__cedar::internal::OpenRecord{}" }
    ensures two { type_text (record_type two_attributes is_closed) ≡ codes "{\"a\": Long, \"b c\"?: Set<__cedar::internal::Any>}" }
{}

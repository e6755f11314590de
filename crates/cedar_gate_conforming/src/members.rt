//! The members of enumerated entity types.

ghost use Rattle.std.specs.Prelude.{◌≡◌};
ghost use Rattle.cedar_expr_names.specs.Views.{uid_of, eid_text};
ghost use Rattle.cedar_gate_model.specs.Asked.{kept_place};
ghost use Rattle.cedar_schema_built.specs.Views.{schema_kept};
ghost use Rattle.cedar_schema_entries.specs.Kinds.{kind_with};
ghost use Rattle.cedar_schema_entries.specs.Views.{entity_type_seen};
ghost use Rattle.cedar_schema_model.specs.Conforming.{of_kind, is_no_member};
ghost use Rattle.cedar_schema_model.specs.Types.{Attributes as ModelAttributes};
ghost use Rattle.cedar_gate_conforming.specs.Views.{is_enumerated, place_of_type};

use cedar_expr_names::{Eid, EntityUID};
use cedar_schema_built::ValidatorSchema;
use cedar_schema_entries::{ValidatorEntityType, ValidatorEntityTypeKind};

// Whether the entity type is enumerated, and the uid's entity is no member.
pub(crate) fn is_no_member(ty: &ValidatorEntityType, uid: &EntityUID) -> bool
    ensures { result ≡ is_no_member (of_kind (entity_type_seen ty.now).kind) (uid_of uid.now).id }
{
    lacks_id(ty.kind(), uid.eid())
}

// Whether an entity type of this kind is enumerated, and doesn't list the id.
fn lacks_id(kind: &ValidatorEntityTypeKind, id: &Eid) -> bool
    ensures { (as_ : ModelAttributes) → result ≡ is_no_member (of_kind (kind_with as_ kind.now)) (eid_text id.now) }
{
    match kind {
        ValidatorEntityTypeKind::Enum(members) => !members.contains(id.as_str()),
        ValidatorEntityTypeKind::Standard(_) | ValidatorEntityTypeKind::External => false,
    }
}

// Whether the entity type is enumerated.
pub(crate) fn is_of_enumerated(ty: &ValidatorEntityType) -> bool
    ensures { result ≡ is_enumerated (entity_type_seen ty.now).kind }
{
    is_enumerated(ty.kind())
}

// Whether an entity type of this kind is enumerated.
fn is_enumerated(kind: &ValidatorEntityTypeKind) -> bool
    ensures { (as_ : ModelAttributes) → result ≡ is_enumerated (kind_with as_ kind.now) }
{
    match kind {
        ValidatorEntityTypeKind::Enum(_) => true,
        ValidatorEntityTypeKind::Standard(_) | ValidatorEntityTypeKind::External => false,
    }
}

// Whether the uid's type is enumerated by the schema, and its entity is no member.
pub(crate) fn is_no_kept_member(schema: &ValidatorSchema, uid: &EntityUID) -> bool
    ensures { result ≡ is_no_member (kept_place (schema_kept schema.now) (uid_of uid.now)) (uid_of uid.now).id }
{
    match schema.get_action_id(uid) {
        Some(_) => false,
        None => is_no_typed_member(schema, uid),
    }
}

// Whether the uid, which is no action's, is of a type that is enumerated by the schema, and its entity is no member.
fn is_no_typed_member(schema: &ValidatorSchema, uid: &EntityUID) -> bool
    ensures { result ≡ is_no_member (place_of_type (schema_kept schema.now) (uid_of uid.now).kind) (uid_of uid.now).id }
{
    match schema.get_entity_type(uid.entity_type()) {
        Some(ty) => is_no_member(ty, uid),
        None => false,
    }
}

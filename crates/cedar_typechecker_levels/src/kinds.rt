//! What the type of a part says of what follows it.

ghost use Rattle.std.specs.Prelude.{◌≡◌, Some};
ghost use Rattle.cedar_expr_leaves.specs.Operators.{binary_op_of};
ghost use Rattle.cedar_schema_types.specs.Types.{type_of};
ghost use Rattle.cedar_schema_types.specs.Unions.{entities_of};
ghost use Rattle.cedar_store_model.specs.Looks.{looks_up};
ghost use Rattle.cedar_typechecker_model.specs.Levels.{is_entity};
ghost use Rattle.cedar_typechecker_model.specs.Reported.{may_be_true, may_be_false, is_get_tag, further_on};
ghost use Rattle.cedar_typechecker_levels.specs.Marked.{type_in};

use cedar_expr_leaves::BinaryOp;
use cedar_schema_types::{BoolType, EntityKind, Type};

// Whether a part of this type was typed and may be true.
pub(crate) fn may_be_true(ty: &Option<Type>) -> bool
    ensures { result ≡ may_be_true (type_in ty.now) }
{
    match ty {
        None => false,
        Some(Type::Bool(BoolType::False)) => false,
        Some(Type::Bool(BoolType::True)) | Some(Type::Bool(BoolType::AnyBool)) => true,
        Some(Type::Entity(kind)) => is_kind(kind),
        Some(Type::Never) | Some(Type::Long) | Some(Type::String) => true,
        Some(Type::Set { .. }) | Some(Type::Record { .. }) => true,
        Some(Type::ExtensionType { .. }) => true,
    }
}

// Whether a part of this type was typed and may be false.
pub(crate) fn may_be_false(ty: &Option<Type>) -> bool
    ensures { result ≡ may_be_false (type_in ty.now) }
{
    match ty {
        None => false,
        Some(Type::Bool(BoolType::True)) => false,
        Some(Type::Bool(BoolType::False)) | Some(Type::Bool(BoolType::AnyBool)) => true,
        Some(Type::Entity(kind)) => is_kind(kind),
        Some(Type::Never) | Some(Type::Long) | Some(Type::String) => true,
        Some(Type::Set { .. }) | Some(Type::Record { .. }) => true,
        Some(Type::ExtensionType { .. }) => true,
    }
}

// Whether the type is one of entities.
pub(crate) fn is_entity(ty: &Option<Type>) -> bool
    ensures { result ≡ is_entity (type_in ty.now) }
{
    match ty {
        Some(ty) => is_entity_type(ty),
        None => false,
    }
}

/// Whether a type that is there is one of entities.
pub fn is_entity_type(ty: &Type) -> bool
    ensures { result ≡ is_entity (Some (type_of ty.now)) }
{
    match ty {
        Type::Entity(kind) => is_kind(kind),
        Type::Never | Type::Bool(_) | Type::Long | Type::String => false,
        Type::Set { .. } | Type::Record { .. } | Type::ExtensionType { .. } => false,
    }
}

// True, of each type of entities.
fn is_kind(kind: &EntityKind) -> bool
    ensures entity { result ≡ is_entity (Some (entities_of kind.now)) }
    ensures is_true { result ≡ may_be_true (Some (entities_of kind.now)) }
    ensures is_false { result ≡ may_be_false (Some (entities_of kind.now)) }
{
    match kind {
        EntityKind::AnyEntity => true,
        EntityKind::Entity(_) => true,
    }
}

/// Whether the operator looks up its first operand.
pub fn looks_up(op: BinaryOp) -> bool
    ensures { result ≡ looks_up (binary_op_of op) }
{
    match op {
        BinaryOp::In | BinaryOp::GetTag | BinaryOp::HasTag => true,
        BinaryOp::Eq | BinaryOp::Less | BinaryOp::LessEq => false,
        BinaryOp::Add | BinaryOp::Sub | BinaryOp::Mul | BinaryOp::Rem => false,
        BinaryOp::Contains | BinaryOp::ContainsAll | BinaryOp::ContainsAny => false,
    }
}

/// Whether the operator gives a tag.
pub fn is_get_tag(op: BinaryOp) -> bool
    ensures { result ≡ is_get_tag (binary_op_of op) }
{
    match op {
        BinaryOp::GetTag => true,
        BinaryOp::In | BinaryOp::HasTag => false,
        BinaryOp::Eq | BinaryOp::Less | BinaryOp::LessEq => false,
        BinaryOp::Add | BinaryOp::Sub | BinaryOp::Mul | BinaryOp::Rem => false,
        BinaryOp::Contains | BinaryOp::ContainsAll | BinaryOp::ContainsAny => false,
    }
}

// So many steps further, up to the number that stands for any greater one.
pub(crate) fn further(steps: u64, more: u64) -> u64
    ensures { result ≡ further_on more steps }
{
    steps.saturating_add(more).min(4_294_967_296)
}

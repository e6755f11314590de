//! Verdicts of types.

ghost use Rattle.std.specs.Prelude.{◌≡◌, false, option_map};
ghost use Rattle.cedar_typechecker_policies.specs.Conditions.{IsVerdictOf};
ghost use Rattle.cedar_schema_types.specs.Types.{type_of};

use cedar_schema_types::{BoolType, Type};

/// What typing says of a condition in an environment.
#[derive(Clone, Copy)]
pub(crate) struct Verdict {
    /// It has a type of truth values.
    pub(crate) is_bool: bool,
    /// It has the type False.
    pub(crate) is_false: bool,
}

/// What this type of a condition says.
pub(crate) fn verdict_of(ty: &Option<Type>) -> Verdict
    ensures { IsVerdictOf (option_map type_of ty.now) result }
{
    match ty {
        Some(Type::Bool(BoolType::False)) => Verdict {
            is_bool: true,
            is_false: true,
        },
        Some(Type::Bool(BoolType::True)) | Some(Type::Bool(BoolType::AnyBool)) => Verdict {
            is_bool: true,
            is_false: false,
        },
        Some(Type::Never) | Some(Type::Long) | Some(Type::String) => no_bool(),
        Some(Type::Entity(_)) => no_bool(),
        Some(Type::Set { .. }) | Some(Type::Record { .. }) => no_bool(),
        Some(Type::ExtensionType { .. }) => no_bool(),
        None => no_bool(),
    }
}

/// What a type of no truth values says, or none.
pub(crate) fn no_bool() -> Verdict
    ensures { result ≡ record { is_bool = false; is_false = false } }
{
    Verdict {
        is_bool: false,
        is_false: false,
    }
}

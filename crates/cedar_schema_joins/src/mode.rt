//! The two ways of typing, as the model has them.

ghost use Rattle.std.specs.Prelude.{◌≡◌};
ghost use Rattle.cedar_schema_model.specs.Subtype.{is_permissive};
ghost use Rattle.cedar_schema_joins.specs.Modes.{mode_of};

use cedar_store_parts::ValidationMode;

// Whether this is the permissive mode.
pub(crate) fn is_permissive(mode: ValidationMode) -> bool
    ensures { result ≡ is_permissive (mode_of mode) }
{
    match mode {
        ValidationMode::Strict => false,
        ValidationMode::Permissive => true,
    }
}

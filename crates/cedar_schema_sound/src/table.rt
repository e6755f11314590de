//! Built schemas checked by the extension types of a table.

ghost use Rattle.std.specs.Prelude.{◌≡◌, IfOk, IfErr};
ghost use Rattle.cedar_schema_model.specs.Kept.{Kept};
ghost use Rattle.cedar_schema_builder.specs.Extensions.{types_given};
ghost use Rattle.cedar_schema_built.specs.Views.{schema_kept};
ghost use Rattle.cedar_schema_model.specs.Sound.{IsSound};
ghost use Rattle.cedar_schema_sound.specs.Refusals.{RefusesBy};

use crate::check::try_validate;
use crate::err::UnsoundSchemaError;
use cedar_expr_functions::Extensions;
use cedar_schema_builder::extension_types;
use cedar_schema_built::ValidatorSchema;
use cedar_schema_model::sound_laws::sound_is_decided;
use std::alloc::Global;

/// Gives back what is as it has to be, by the extension types of a table.
pub trait TryValidate: Sized {
    /// What is kept.
    ghost kept: { Self → Kept };

    /// Gives back what is as it has to be where the extension types are known that the functions of the table give. Refuses any other by
    /// what is wrong with it first.
    fn try_validate(
        self,
        alloc: Global,
        extensions: &Extensions<'_>,
    ) -> Result<Self, UnsoundSchemaError>
        ensures same { IfOk result (λ s. s ≡ self) }
        ensures sound { IfOk result (λ s. IsSound (types_given extensions.now) (kept s)) }
        ensures refused { IfErr result (RefusesBy (types_given extensions.now) (kept self)) };
}

impl TryValidate for ValidatorSchema {
    ghost kept = { schema_kept };

    fn try_validate(
        self,
        alloc: Global,
        extensions: &Extensions<'_>,
    ) -> Result<ValidatorSchema, UnsoundSchemaError> {
        sound_is_decided();
        let types = extension_types(alloc, extensions)?;
        match try_validate(self, &types) {
            Ok(schema) => Ok(schema),
            Err(error) => Err(error),
        }
    }
}

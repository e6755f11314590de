//! Laws of built schemas as typing asks them. Each function's contract is the theorem; its body calls the law that it stands on.

ghost use Rattle.cedar_schema_built.specs.Views.{schema_kept};
ghost use Rattle.cedar_typechecker.specs.Laws.{BuiltAreClosed, BuiltAnswerAlike, SoundIsClosed};

use cedar_schema_built::ValidatorSchema;
use cedar_schema_built::laws::schemas_are_in_order;
use cedar_schema_model::sound_laws::sound_is_decided;
pub use cedar_typechecker_environments::laws::capabilities_agree;
use cedar_typechecker_model::alike_laws::seen_schemas_answer_alike;
pub use cedar_typechecker_scopes::laws::scope_passes_are_exact;

/// What is built of fragments is closed under descent, and answers as the schema of the declarations that they write.
pub fn built_schemas_answer_alike()
    ensures closed { BuiltAreClosed }
    ensures alike { BuiltAnswerAlike }
{
    seen_schemas_answer_alike();
}

/// A schema that is sound is closed under descent: so each that `try_validate` lets pass, one that was made by hand too.
pub fn sound_schemas_are_closed(schema: &ValidatorSchema)
    ensures { SoundIsClosed (schema_kept schema.now) }
{
    schemas_are_in_order(schema);
    sound_is_decided();
}

//! Schemas that are built of fragments. Each function's contract is the theorem; its body calls the laws that it stands on.

ghost use Rattle.cedar_schema_built.specs.Views.{schema_kept};
ghost use Rattle.cedar_schema_sound.specs.OfFragments.{BuiltAreNotRefused, BuiltAreSound, IsBuiltInEachOrder, OrderOfFragmentsIsFree, RefusedInEachOrder};

use cedar_schema_builder::resolved_laws::built_is_the_schema;
use cedar_schema_built::ValidatorSchema;
use cedar_schema_built::laws::schemas_are_in_order;
use cedar_schema_model::decl_laws::{bags_have_no_order, declarations_are_decided};
use cedar_schema_model::sound_laws::{kept_are_sound, sound_is_decided};

/// A schema that is built of fragments is what it has to be, with the same extension types.
pub fn built_schemas_are_sound()
    ensures { BuiltAreSound }
{
    sound_is_decided();
    kept_are_sound();
}

/// A schema that is built of fragments passes `try_validate` by a table whose functions give the same extension types: a refusal says
/// that there was no memory.
pub fn built_schemas_are_not_refused()
    ensures { BuiltAreNotRefused }
{
    sound_is_decided();
    kept_are_sound();
}

/// Declarations in another order, or split among other fragments, give the same entity types and actions, in some order, or a refusal both
/// times.
pub fn order_of_fragments_is_free()
    ensures same { OrderOfFragmentsIsFree }
    ensures refused { RefusedInEachOrder }
{
    built_is_the_schema();
    bags_have_no_order();
    declarations_are_decided();
}

/// Two schemas that are built of the same declarations, in whichever order and in whichever fragments, keep the same: equal entity
/// types and actions in the same order.
pub fn schemas_are_built_in_each_order(schema: &ValidatorSchema, other: &ValidatorSchema)
    ensures { IsBuiltInEachOrder (schema_kept schema.now) (schema_kept other.now) }
{
    order_of_fragments_is_free();
    schemas_are_in_order(schema);
    schemas_are_in_order(other);
}

//! Laws of conformance by what is kept. Each function's contract is the theorem; its body calls the laws that it stands on.

ghost use Rattle.cedar_gate_model.specs.ConformingLaws.{KeptConformAlike, DeclaredConformAlike, KeptActionsAreEntities, FirstIsFault, NoneIsFaultless};

use cedar_schema_model::kept_laws::declarations_are_kept;
use cedar_typechecker_model::alike_laws::seen_schemas_answer_alike;

/// By what is kept of a schema, in which what this names as ancestors is declared, entities and requests have the same faults, and the
/// actions the same ancestors; so it is of the schema of declarations.
pub fn what_is_kept_conforms_alike()
    ensures alike { KeptConformAlike }
    ensures declared { DeclaredConformAlike }
{
    declarations_are_kept();
    seen_schemas_answer_alike();
}

/// The kept actions as entities are those of the schema.
pub fn kept_actions_are_entities()
    ensures { KeptActionsAreEntities }
{}

/// What is found first among the faults is there, and where none is found none is there.
pub fn first_faults_are_faults()
    ensures there { FirstIsFault }
    ensures none { NoneIsFaultless }
{}

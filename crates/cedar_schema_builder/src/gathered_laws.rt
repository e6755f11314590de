//! What checks and refusals say of the declarations that fragments write. Each function's contract is the theorem; its body does
//! nothing but name laws of lower crates.

ghost use Rattle.cedar_schema_builder.specs.GatheredLaws.{NamesAreWritten, ReservedNamesAreFound, ActionTypesAreFound, RefusalsTellFaults, ResolvedAreDeclared};
ghost use Rattle.cedar_schema_builder.specs.GatheredNamed.{RefusalsNameFaults, ReservedNamesAreThere, ActionTypesAreThere};

use cedar_schema_decl::laws::{names_mean_references, resolved_types_are_declared};
use cedar_schema_fragments::laws::written_are_declared;

/// The names in fragments are the written names of their declarations, and a reserved one is found exactly where that fault is
/// there.
pub fn reserved_names_are_written()
    ensures names { NamesAreWritten }
    ensures fault { ReservedNamesAreFound }
{}

/// An entity type under the last name of the types of actions is found exactly where that fault is there.
pub fn action_types_are_found()
    ensures { ActionTypesAreFound }
{}

/// Where resolving is refused, the fault that the refusal reports is there; where nothing is refused, each reference and each parent
/// of an action means something.
pub fn resolving_tells_faults()
    ensures refused { RefusalsTellFaults }
    ensures made { ResolvedAreDeclared }
{
    names_mean_references();
    resolved_types_are_declared();
    written_are_declared();
}

/// What a refusal names is at fault: a name that is written and means nothing, or one that is reserved. So is the reserved name that
/// is found, and the entity type under the last name of the types of actions.
pub fn refusals_name_faults()
    ensures refused { RefusalsNameFaults }
    ensures reserved { ReservedNamesAreThere }
    ensures action_type { ActionTypesAreThere }
{
    names_mean_references();
    resolved_types_are_declared();
    written_are_declared();
}

//! What is built of fragments, by the declarations that they write. Each function's contract is the theorem; its body calls the laws
//! that it stands on.

ghost use Rattle.cedar_schema_builder.specs.Alike.{OrderOfBuiltIsFree};
ghost use Rattle.cedar_schema_builder.specs.ResolvedLaws.{ResolvedFragmentsAreWritten, ResolvedOneByOneAreWritten, ResolvedDeclarationsTellTheSchema, BuiltIsTheSchema, OrderOfDeclarationsIsFree, BuiltAreWellFormed, WrongsAreFaults, ContextsAreFaults, UntoldAreFaults};
ghost use Rattle.cedar_schema_builder.specs.ResolvedNamed.{NamesAreDeclared, ContextsAreNamed};

use cedar_schema_assembly::told_laws::pieces_are_kept;
use cedar_schema_decl::laws::{names_mean_references, resolved_types_are_declared};
use cedar_schema_fragments::laws::{shadowing_is_declared, written_are_declared};
use cedar_schema_model::building_laws::contexts_become_records;
use cedar_schema_resolver::laws::{
    refusals_are_faults, solutions_are_the_common_types, uses_are_declared,
};

/// What comes of fragments once their names are resolved, all at once or each by itself, writes the declarations that they write.
pub fn resolved_fragments_are_written()
    ensures at_once { ResolvedFragmentsAreWritten }
    ensures one_by_one { ResolvedOneByOneAreWritten }
{
    written_are_declared();
}

/// With types of the common types that solve their definitions, resolved entity types and actions describe the schema of the declarations.
pub fn resolved_declarations_tell_the_schema()
    ensures { ResolvedDeclarationsTellTheSchema }
{
    names_mean_references();
    solutions_are_the_common_types();
}

/// What is kept of the schema that is told is what is kept of the schema of the declarations. Of well-formed declarations the same is
/// kept, in whichever order they stand.
pub fn built_is_the_schema()
    ensures declared { BuiltIsTheSchema }
    ensures order { OrderOfDeclarationsIsFree }
    ensures alike { OrderOfBuiltIsFree }
{
    resolved_declarations_tell_the_schema();
    pieces_are_kept();
}

/// Where nothing is wrong with what is resolved, the declarations are well-formed.
pub fn built_are_well_formed()
    ensures { BuiltAreWellFormed }
{
    names_mean_references();
    resolved_types_are_declared();
    solutions_are_the_common_types();
    uses_are_declared();
    contexts_become_records();
    shadowing_is_declared();
    resolved_declarations_tell_the_schema();
}

/// What is wrong with what is resolved is a fault of the declarations, and so are a context that isn't told as a record and what can't
/// be told of a type of theirs.
pub fn refused_are_faults()
    ensures wrong { WrongsAreFaults }
    ensures contexts { ContextsAreFaults }
    ensures untold { UntoldAreFaults }
{
    names_mean_references();
    resolved_types_are_declared();
    solutions_are_the_common_types();
    contexts_become_records();
    shadowing_is_declared();
    refusals_are_faults();
}

/// What stands in what is resolved stands in the declarations under the same names, and so does what is refused of it.
pub fn names_are_declared()
    ensures names { NamesAreDeclared }
    ensures contexts { ContextsAreNamed }
{
    names_mean_references();
    resolved_types_are_declared();
    solutions_are_the_common_types();
    uses_are_declared();
    contexts_become_records();
    refusals_are_faults();
}

//! How the steps of building make a schema. Each function's contract is the theorem; its body calls the laws that it stands on.

ghost use Rattle.cedar_schema_builder.specs.Built.{StepsBuildTheSchema, RefusedStepsNameFaults};
ghost use Rattle.cedar_schema_builder.specs.Extensions.{ExtensionTypesAreASet};
ghost use Rattle.cedar_schema_builder.specs.FormLaws.{FormedAreBuilt, FaultsAreWritten, FormedAreFaultless};
ghost use Rattle.cedar_schema_builder.specs.Named.{NamedAreFaults};

use crate::gathered_laws::{
    action_types_are_found, refusals_name_faults, reserved_names_are_written,
};
use crate::resolved_laws::{
    built_are_well_formed, names_are_declared, resolved_declarations_tell_the_schema,
    resolved_fragments_are_written,
};
use cedar_schema_fragments::laws::written_are_declared;

/// Where names are as they have to be, and what is gathered could be assembled, the declarations are well-formed, and the entity
/// types and actions that are made are those of their schema.
pub fn steps_build_the_schema()
    ensures { StepsBuildTheSchema }
{
    resolved_declarations_tell_the_schema();
    built_are_well_formed();
}

/// What the steps refuse names what is at fault in the declarations that the fragments write.
pub fn refused_steps_name_faults()
    ensures { RefusedStepsNameFaults }
{}

/// Where what an error names is at fault, the fault that it reports is there.
pub fn named_are_faults()
    ensures { NamedAreFaults }
{}

/// Of the extension types only which are known counts: with the same ones the same is built, and the same faults are there.
pub fn extension_types_are_a_set()
    ensures { ExtensionTypesAreASet }
{}

/// What is built of fragments by what their names mean is what is built of the declarations that they write, and what is at fault in
/// the fragments is so in these declarations, under the same name.
pub fn formed_are_built()
    ensures built { FormedAreBuilt }
    ensures faults { FaultsAreWritten }
{
    resolved_fragments_are_written();
    reserved_names_are_written();
    action_types_are_found();
    resolved_declarations_tell_the_schema();
    built_are_well_formed();
    refusals_name_faults();
    written_are_declared();
    names_are_declared();
}

/// In fragments of which a schema is built nothing is at fault that a refusal would name.
pub fn formed_are_faultless()
    ensures { FormedAreFaultless }
{}

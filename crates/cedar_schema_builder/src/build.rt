//! Fragments are built into the entity types and the actions of a schema.

ghost use Rattle.std.specs.Prelude.{IfOk, IfErr};
ghost use Rattle.cedar_schema_decl.specs.Defined.{defined_of};
ghost use Rattle.cedar_schema_fragments.specs.Marked.{HasAll};
ghost use Rattle.cedar_schema_builder.specs.Assembled.{GathersOf, GathersForms, AssemblesOf, NamesFaultOfGathered, IsFaultOfGathered};
ghost use Rattle.cedar_schema_resolver.specs.Meanings.{extensions_seen};
ghost use Rattle.cedar_schema_builder.specs.Built.{types_made, actions_made, AreBuiltOf, IsFaultOf, NamesFaultOf};
ghost use Rattle.cedar_schema_builder.specs.Faults.{Tells};
ghost use Rattle.cedar_schema_builder.specs.FormSteps.{AreNamesFormed, IsFaultOfNames, IsFaultOfSets};
ghost use Rattle.cedar_schema_builder.specs.OfFragments.{AreBuiltOfFormed, IsFaultInFragments};
ghost use Rattle.cedar_schema_builder.specs.Steps.{AreNamed, NamesFaultIn};

use crate::err::SchemaError;
use crate::gathered_laws::{
    action_types_are_found, refusals_name_faults, reserved_names_are_written,
};
use crate::laws::{named_are_faults, refused_steps_name_faults, steps_build_the_schema};
use crate::resolved_laws::{names_are_declared, resolved_fragments_are_written};
use crate::{GatheredDefs, action_entity_type, check_reserved, gather, resolve_all};
use cedar_expr_leaves::ConditionalName;
use cedar_expr_names::Name;
use cedar_schema_assembly::{actions, entity_types};
use cedar_schema_decl::AllDefs;
use cedar_schema_entries::{ValidatorActionId, ValidatorEntityType};
use cedar_schema_fragments::laws::written_are_declared;
use cedar_schema_fragments::{ValidatorSchemaFragment, all_defs};
use cedar_schema_resolver::{TypeResolver, resolve_common_types};
use std::alloc::Global;
use std::collections::BTreeSet;

/// What fragments declare of a schema.
#[derive(Drop)]
pub struct SchemaParts {
    /// The entity types.
    pub entity_types: Vec<ValidatorEntityType>,
    /// The actions.
    pub actions: Vec<ValidatorActionId>,
}

// Refuses a reserved name, and an entity type under the last name of the types of actions. Fails only when out of memory.
fn check_names(
    fragments: &[ValidatorSchemaFragment<ConditionalName, ConditionalName>],
) -> Result<(), SchemaError>
    ensures passed { IfOk result (λ _. AreNamed fragments.now) }
    ensures formed { IfOk result (λ _. AreNamesFormed fragments.now) }
    ensures named { IfErr result (NamesFaultIn fragments.now) }
    ensures at_fault { IfErr result (IsFaultOfNames fragments.now) }
{
    reserved_names_are_written();
    action_types_are_found();
    refusals_name_faults();
    check_reserved(fragments)?;
    match action_entity_type(fragments) {
        Some(name) => {
            let name = name.clone()?;
            Err(SchemaError::ActionEntityTypeDeclared { name })
        }
        None => Ok(()),
    }
}

// All that the fragments declare, with each name resolved. Refuses what shadows and what means nothing, and fails when out of memory.
fn gathered(
    alloc: Global,
    fragments: Vec<ValidatorSchemaFragment<ConditionalName, ConditionalName>>,
    all_defs: &AllDefs,
) -> Result<GatheredDefs, SchemaError>
    requires { HasAll fragments.items (defined_of all_defs.now) }
    ensures gathered { IfOk result (GathersOf fragments.items (defined_of all_defs.now)) }
    ensures formed { IfOk result (GathersForms fragments.items (defined_of all_defs.now)) }
    ensures named { IfErr result (NamesFaultIn fragments.items) }
    ensures at_fault { IfErr result (IsFaultOfSets fragments.items (defined_of all_defs.now)) }
{
    written_are_declared();
    refusals_name_faults();
    resolved_fragments_are_written();
    all_defs.rfc_70_shadowing_checks(alloc)?;
    let resolved = resolve_all(alloc, fragments, all_defs)?;
    let gathered = gather(alloc, resolved)?;
    Ok(gathered)
}

// The entity types and the actions that these declare. Refuses what is at fault in them, and fails when out of memory.
fn assembled(
    alloc: Global,
    gathered: &GatheredDefs,
    all_defs: &AllDefs,
    extension_types: &BTreeSet<Name>,
) -> Result<SchemaParts, SchemaError>
    ensures made { IfOk result (AssemblesOf (defined_of all_defs.now) (extensions_seen extension_types.now) gathered.now) }
    ensures named { IfErr result (NamesFaultOfGathered (defined_of all_defs.now) (extensions_seen extension_types.now) gathered.now) }
    ensures at_fault { IfErr result (IsFaultOfGathered (defined_of all_defs.now) (extensions_seen extension_types.now) gathered.now) }
{
    names_are_declared();
    let commons = resolve_common_types(alloc, &gathered.common_types, all_defs, extension_types)?;
    let resolver = TypeResolver {
        commons: &commons,
        all_defs,
        extension_types,
    };
    let entity_types = entity_types(alloc, &gathered.entity_types, &resolver)?;
    let actions = actions(alloc, &gathered.actions, &resolver)?;
    Ok(SchemaParts {
        entity_types,
        actions,
    })
}

// The entity types and the actions, or a refusal that names what is at fault.
fn named_parts(
    alloc: Global,
    fragments: Vec<ValidatorSchemaFragment<ConditionalName, ConditionalName>>,
    extension_types: &BTreeSet<Name>,
) -> Result<SchemaParts, SchemaError>
    ensures built { IfOk result (λ p. AreBuiltOf (extensions_seen extension_types.now) fragments.items (types_made p) (actions_made p)) }
    ensures formed { IfOk result (λ p. AreBuiltOfFormed (extensions_seen extension_types.now) fragments.items (types_made p) (actions_made p)) }
    ensures named { IfErr result (NamesFaultOf (extensions_seen extension_types.now) fragments.items) }
    ensures at_fault { IfErr result (IsFaultInFragments (extensions_seen extension_types.now) fragments.items) }
{
    steps_build_the_schema();
    refused_steps_name_faults();
    check_names(&fragments)?;
    let all_defs = all_defs::new(alloc, &fragments)?;
    let gathered = gathered(alloc, fragments, &all_defs)?;
    let parts = assembled(alloc, &gathered, &all_defs, extension_types)?;
    Ok(parts)
}

/// The entity types and the actions of the schema that the declarations of these fragments describe, where these are well-formed and
/// the extension types are the ones that are known. Refuses them else, with a fault that is there and under the name of what is at
/// fault, and fails when out of memory. Of fragments that no declarations write it builds what their names mean by what is declared in
/// them, under the same conditions, and refuses them else with what is at fault in them.
pub fn schema_parts(
    alloc: Global,
    fragments: Vec<ValidatorSchemaFragment<ConditionalName, ConditionalName>>,
    extension_types: &BTreeSet<Name>,
) -> Result<SchemaParts, SchemaError>
    ensures built { IfOk result (λ p. AreBuiltOf (extensions_seen extension_types.now) fragments.items (types_made p) (actions_made p)) }
    ensures formed { IfOk result (λ p. AreBuiltOfFormed (extensions_seen extension_types.now) fragments.items (types_made p) (actions_made p)) }
    ensures refused { IfErr result (Tells (IsFaultOf (extensions_seen extension_types.now) fragments.items)) }
    ensures named { IfErr result (NamesFaultOf (extensions_seen extension_types.now) fragments.items) }
    ensures at_fault { IfErr result (IsFaultInFragments (extensions_seen extension_types.now) fragments.items) }
{
    named_are_faults();
    match named_parts(alloc, fragments, extension_types) {
        Ok(parts) => Ok(parts),
        Err(error) => Err(error),
    }
}

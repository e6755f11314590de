//! Written types as types of a schema.

ghost use Rattle.std.specs.Prelude.{◌≡◌, [], ◌∷◌, option_map, IfOk, IfErr};
ghost use Rattle.std.specs.Option.{option_to_list};
ghost use Rattle.cedar_expr_names.specs.Views.{name_of};
ghost use Rattle.cedar_schema_decl.specs.Forms.{record_form};
ghost use Rattle.cedar_schema_decl.specs.Trees.{type_form, record_fields};
ghost use Rattle.cedar_schema_resolver.specs.Meanings.{extensions_seen, setting_of, told, told_fields};
ghost use Rattle.cedar_schema_resolver.specs.Refusals.{AreKnown};
ghost use Rattle.cedar_schema_types.specs.Types.{type_of, attributes_of};
ghost use Rattle.cedar_schema_assembly.specs.Made.{AreAllKnown};
ghost use Rattle.cedar_schema_assembly.specs.Refusals.{TellsAmong, IsOfType, SaysSame};

use crate::err::AssemblyError;
use cedar_expr_names::InternalName;
use cedar_schema_decl::json_schema;
use cedar_schema_decl::json_schema::RecordType;
use cedar_schema_resolver::{ResolveError, TypeResolver};
use cedar_schema_types::{Attributes, Type};
use std::alloc::Global;

// The error of assembly that says what this error of a written type says. The common types are resolved already, so it is none of theirs.
fn of_type(error: ResolveError) -> AssemblyError
    requires { IsOfType error }
    ensures { SaysSame error result }
{
    match error {
        ResolveError::OutOfMemory => AssemblyError::OutOfMemory,
        ResolveError::UnknownExtensionType { name } => AssemblyError::UnknownExtensionType { name },
        ResolveError::ReservedName(error) => AssemblyError::ReservedName(error),
        ResolveError::DuplicateCommonType { name: _ } => unreachable!(),
        ResolveError::CycleInCommonTypeReferences { name: _ } => unreachable!(),
    }
}

/// The type that a written one tells. Refuses an extension type that isn't known and a reserved name, and fails when out of memory.
pub fn told_type(
    alloc: Global,
    ty: &json_schema::Type<InternalName>,
    resolver: &TypeResolver<'_>,
) -> Result<Type, AssemblyError>
    ensures told { IfOk result (λ t. type_of t ≡ told (setting_of resolver.now) (type_form name_of ty.now)) }
    ensures known { IfOk result (λ t. AreKnown (extensions_seen resolver.now.extension_types.now) (type_form name_of ty.now)) }
    ensures refused { IfErr result (TellsAmong (setting_of resolver.now) (type_form name_of ty.now ∷ [])) }
{
    match resolver.try_into_validator_type(alloc, ty) {
        Ok(ty) => Ok(ty),
        Err(error) => Err(of_type(error)),
    }
}

/// The attributes that those of a written record tell, with the same refusals.
pub fn told_attributes(
    alloc: Global,
    fields: &RecordType<InternalName>,
    resolver: &TypeResolver<'_>,
) -> Result<Attributes, AssemblyError>
    ensures told { IfOk result (λ as_. attributes_of as_ ≡ told_fields (setting_of resolver.now) (record_fields name_of fields.now)) }
    ensures known { IfOk result (λ as_. AreKnown (extensions_seen resolver.now.extension_types.now) (record_form (record_fields name_of fields.now))) }
    ensures refused { IfErr result (TellsAmong (setting_of resolver.now) (record_form (record_fields name_of fields.now) ∷ [])) }
{
    match resolver.try_into_validator_attributes(alloc, fields) {
        Ok(attributes) => Ok(attributes),
        Err(error) => Err(of_type(error)),
    }
}

/// The type that a written one tells, where there is one, with the same refusals.
pub fn told_tags(
    alloc: Global,
    tags: &Option<json_schema::Type<InternalName>>,
    resolver: &TypeResolver<'_>,
) -> Result<Option<Type>, AssemblyError>
    ensures told { IfOk result (λ o. option_map type_of o ≡ option_map (told (setting_of resolver.now)) (option_map (type_form name_of) tags.now)) }
    ensures known { IfOk result (λ o. AreAllKnown (extensions_seen resolver.now.extension_types.now) (option_to_list (option_map (type_form name_of) tags.now))) }
    ensures refused { IfErr result (TellsAmong (setting_of resolver.now) (option_to_list (option_map (type_form name_of) tags.now))) }
{
    match tags {
        None => Ok(None),
        Some(ty) => match told_type(alloc, ty, resolver) {
            Ok(ty) => Ok(Some(ty)),
            Err(error) => Err(error),
        },
    }
}

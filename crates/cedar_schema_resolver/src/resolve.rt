//! The types that common types stand for.

ghost use Rattle.std.specs.Prelude.{◌≡◌, ◌<◌, length, IfOk, IfErr};
ghost use Rattle.cedar_expr_names.specs.Views.{name_of};
ghost use Rattle.cedar_schema_decl.specs.Defined.{defined_of};
ghost use Rattle.cedar_schema_decl.specs.Definitions.{common_form};
ghost use Rattle.cedar_schema_resolver.specs.Numbers.{IsAt};
ghost use Rattle.cedar_schema_resolver.specs.Commons.{common_seen, commons_with, common_kept, kept_with};
ghost use Rattle.cedar_schema_resolver.specs.Meanings.{setting, extensions_seen, told};
ghost use Rattle.cedar_schema_resolver.specs.Refusals.{AreKnown, TellsUntold};
ghost use Rattle.cedar_schema_resolver.specs.Solved.{IsSolved, AreKept, TellsUnsolved, TellsUnordered, AreSorted};
ghost use Rattle.cedar_schema_resolver.specs.Uses.{common_forms};

use crate::common_types::CommonTypes;
use crate::err::ResolveError;
use crate::references::with_references;
use crate::resolver::TypeResolver;
use crate::{CycleError, RepeatedError, graph, in_order};
use cedar_expr_names::{InternalName, Name};
use cedar_schema_decl::AllDefs;
use cedar_schema_decl::json_schema::CommonType;
use std::alloc::{AllocError, Global};
use std::collections::BTreeSet;

// The common type of this number.
fn common_at(
    commons: &[(InternalName, CommonType<InternalName>)],
    number: usize,
) -> &(InternalName, CommonType<InternalName>)
    requires { number < length commons.now }
    ensures { IsAt commons.now number result.now }
{
    &commons[number]
}

// The numbers of the common types, each after those that it uses. Refuses one that is declared twice and one that uses itself, and
// fails when out of memory.
fn in_order_of_use(
    alloc: Global,
    commons: &[(InternalName, CommonType<InternalName>)],
    all_defs: &AllDefs,
) -> Result<Vec<usize>, ResolveError>
    ensures sorted { IfOk result (λ is. AreSorted (defined_of all_defs.now) (common_forms commons.now) is.items) }
    ensures refused { IfErr result (TellsUnordered (defined_of all_defs.now) (common_forms commons.now)) }
{
    let nodes = with_references(alloc, commons, all_defs)?;
    let graph = match graph(alloc, &nodes) {
        Ok(graph) => graph,
        Err(RepeatedError::OutOfMemory) => return Err(ResolveError::OutOfMemory),
        Err(RepeatedError::Repeated { number }) => {
            let name = common_at(commons, number).0.clone()?;
            return Err(ResolveError::DuplicateCommonType { name });
        }
    };
    match in_order(alloc, &graph) {
        Ok(order) => Ok(order),
        Err(CycleError::OutOfMemory) => Err(ResolveError::OutOfMemory),
        Err(CycleError::Cycle { node }) => {
            let name = common_at(commons, node).0.clone()?;
            Err(ResolveError::CycleInCommonTypeReferences { name })
        }
    }
}

// The common types with one more, which stands for the type that its definition tells by them.
fn with_type(
    alloc: Global,
    types: CommonTypes,
    common: &(InternalName, CommonType<InternalName>),
    all_defs: &AllDefs,
    extension_types: &BTreeSet<Name>,
) -> Result<CommonTypes, ResolveError>
    ensures made { IfOk result (λ c. common_seen c ≡ commons_with (name_of common.now.0) (told (setting (common_seen types) (defined_of all_defs.now) (extensions_seen extension_types.now)) (common_form name_of common.now.1)) (common_seen types)) }
    ensures kept { IfOk result (λ c. common_kept c ≡ kept_with (name_of common.now.0) (told (setting (common_seen types) (defined_of all_defs.now) (extensions_seen extension_types.now)) (common_form name_of common.now.1)) (common_kept types)) }
    ensures known { IfOk result (λ c. AreKnown (extensions_seen extension_types.now) (common_form name_of common.now.1)) }
    ensures refused { IfErr result (TellsUntold (setting (common_seen types) (defined_of all_defs.now) (extensions_seen extension_types.now)) (common_form name_of common.now.1)) }
{
    let mut types = types;
    let name = common.0.clone()?;
    let resolver = TypeResolver {
        commons: &types,
        all_defs,
        extension_types,
    };
    let ty = match resolver.try_into_validator_type(alloc, &common.1.ty) {
        Ok(ty) => ty,
        Err(error) => return Err(error),
    };
    types.insert(name, ty)?;
    Ok(types)
}

// The types that the common types stand for, told one after the other in this order.
fn types_in_order(
    alloc: Global,
    commons: &[(InternalName, CommonType<InternalName>)],
    order: &[usize],
    all_defs: &AllDefs,
    extension_types: &BTreeSet<Name>,
) -> Result<CommonTypes, ResolveError>
    requires { AreSorted (defined_of all_defs.now) (common_forms commons.now) order.now }
    ensures solved { IfOk result (λ c. IsSolved (setting (common_seen c) (defined_of all_defs.now) (extensions_seen extension_types.now)) (common_forms commons.now)) }
    ensures kept { IfOk result (λ c. AreKept (common_forms commons.now) (common_kept c)) }
    ensures refused { IfErr result (TellsUnsolved (defined_of all_defs.now) (extensions_seen extension_types.now) (common_forms commons.now)) }
{
    let mut types = CommonTypes::empty(alloc);
    for number in order {
        let common = common_at(commons, *number);
        types = with_type(alloc, types, common, all_defs, extension_types)?;
    }
    Ok(types)
}

/// The types that these common types stand for, by their names, each with those that it uses replaced. Refuses one that is declared
/// twice, one that uses itself, an extension type that isn't one of these, and a reserved name of an entity type or an extension
/// type, and fails when out of memory.
pub fn resolve_common_types(
    alloc: Global,
    commons: &[(InternalName, CommonType<InternalName>)],
    all_defs: &AllDefs,
    extension_types: &BTreeSet<Name>,
) -> Result<CommonTypes, ResolveError>
    ensures solved { IfOk result (λ c. IsSolved (setting (common_seen c) (defined_of all_defs.now) (extensions_seen extension_types.now)) (common_forms commons.now)) }
    ensures kept { IfOk result (λ c. AreKept (common_forms commons.now) (common_kept c)) }
    ensures refused { IfErr result (TellsUnsolved (defined_of all_defs.now) (extensions_seen extension_types.now) (common_forms commons.now)) }
{
    match in_order_of_use(alloc, commons, all_defs) {
        Ok(order) => types_in_order(alloc, commons, &order, all_defs, extension_types),
        Err(error) => Err(error),
    }
}

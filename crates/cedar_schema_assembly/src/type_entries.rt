//! The entity types of a schema.

ghost use Rattle.std.specs.Prelude.{◌≡◌, [], ◌∷◌, length, map, option_map, IfOk, IfErr};
ghost use Rattle.std.specs.Rc.{rc_str_bytes};
ghost use Rattle.cedar_expr_names.specs.Views.{name_of, type_name_of};
ghost use Rattle.cedar_schema_decl.specs.Definitions.{entity_form};
ghost use Rattle.cedar_schema_decl.specs.Forms.{standard_form};
ghost use Rattle.cedar_schema_decl.specs.Trees.{type_form, record_fields};
ghost use Rattle.cedar_schema_entries.specs.Views.{entity_type_seen};
ghost use Rattle.cedar_schema_fragments.specs.WrittenDeclarations.{parents_written};
ghost use Rattle.cedar_schema_model.specs.Schema.{standard};
ghost use Rattle.cedar_schema_resolver.specs.Descent.{AreDescendants};
ghost use Rattle.cedar_schema_resolver.specs.Numbers.{seen_nodes};
ghost use Rattle.cedar_schema_resolver.specs.Meanings.{extensions_seen, setting_of, told, told_fields};
ghost use Rattle.cedar_schema_assembly.specs.Told.{types_in};
ghost use Rattle.cedar_schema_assembly.specs.Found.{AreTypesTold, AreTypesKnown};
ghost use Rattle.cedar_schema_assembly.specs.Lists.{IsSetOf, StandOnce, sets_seen};
ghost use Rattle.cedar_schema_assembly.specs.Made.{AreAllKnown, AreMade, IsTypeMade};
ghost use Rattle.cedar_schema_assembly.specs.Refusals.{TellsAmong, TellsType, TellsTypes, TellsTypeTwice};
ghost use Rattle.cedar_schema_assembly.specs.Seen.{type_seen, types_seen, types_above, names_written};

use crate::err::AssemblyError;
use crate::names::{entity_type_of, set_of_types};
use crate::resolved::{told_attributes, told_tags};
use crate::sets::{below, copies, first_repeated, set_of};
use cedar_expr_leaves::NonEmpty;
use cedar_expr_names::{EntityType, InternalName};
use cedar_schema_decl::EntityTypeFragment;
use cedar_schema_decl::json_schema::{RecordType, Type};
use cedar_schema_entries::ValidatorEntityType;
use cedar_schema_resolver::TypeResolver;
use cedar_schema_resolver::hierarchy_laws::descent_is_the_schemas;
use std::alloc::{AllocError, Global};
use std::collections::BTreeSet;
use std::rc::RcStr;

// The names of the parents that are written. Fails only when out of memory.
fn parents_of(
    alloc: Global,
    declared: &EntityTypeFragment<InternalName>,
) -> Result<Vec<InternalName>, AllocError>
    ensures { IfOk result (λ ns. map name_of ns.items ≡ parents_written (entity_form name_of declared.now)) }
{
    match declared {
        EntityTypeFragment::Standard {
            attributes: _,
            parents,
            tags: _,
        } => copies(alloc, parents),
        EntityTypeFragment::Enum(_) => Ok(Vec::new(alloc)),
        EntityTypeFragment::External { parents } => copies(alloc, parents),
    }
}

// Each name with those of its parents. Fails only when out of memory.
fn with_parents(
    alloc: Global,
    declared: &[(InternalName, EntityTypeFragment<InternalName>)],
) -> Result<Vec<(InternalName, Vec<InternalName>)>, AllocError>
    ensures { IfOk result (λ ns. seen_nodes name_of ns.items ≡ types_above (types_seen declared.now)) }
{
    let mut nodes = Vec::with_capacity(alloc, declared.len())?;
    for entry in declared {
        let name = entry.0.clone()?;
        nodes.push((name, parents_of(alloc, &entry.1)?))?;
    }
    Ok(nodes)
}

// What descends from each. Refuses one that is declared twice, and fails when out of memory.
fn types_below(
    alloc: Global,
    declared: &[(InternalName, EntityTypeFragment<InternalName>)],
) -> Result<Vec<BTreeSet<InternalName>>, AssemblyError>
    ensures descendants { IfOk result (λ ss. AreDescendants (types_above (types_seen declared.now)) (sets_seen name_of ss.items)) }
    ensures once { IfOk result (λ ss. StandOnce (names_written (types_seen declared.now))) }
    ensures refused { IfErr result (TellsTypeTwice (names_written (types_seen declared.now))) }
{
    let nodes = with_parents(alloc, declared)?;
    match first_repeated(alloc, &nodes)? {
        Some(name) => {
            let ty = name.clone()?;
            Err(AssemblyError::DuplicateEntityType { ty })
        }
        None => {
            let below = below(alloc, &nodes)?;
            Ok(below)
        }
    }
}

// The standard entity type of this name, with these descendants, and with the attributes and tags that the written ones tell.
fn standard_type(
    alloc: Global,
    name: EntityType,
    below: BTreeSet<EntityType>,
    attributes: &RecordType<InternalName>,
    tags: &Option<Type<InternalName>>,
    resolver: &TypeResolver<'_>,
) -> Result<ValidatorEntityType, AssemblyError>
    ensures made { IfOk result (λ t. entity_type_seen t ≡ record { name = type_name_of name; kind = standard (told_fields (setting_of resolver.now) (record_fields name_of attributes.now)) (option_map (told (setting_of resolver.now)) (option_map (type_form name_of) tags.now)); descendants = map type_name_of below.keys }) }
    ensures known { IfOk result (λ t. AreAllKnown (extensions_seen resolver.now.extension_types.now) (types_in (standard_form [] (record_fields name_of attributes.now) (option_map (type_form name_of) tags.now)))) }
    ensures refused { IfErr result (TellsAmong (setting_of resolver.now) (types_in (standard_form [] (record_fields name_of attributes.now) (option_map (type_form name_of) tags.now)))) }
{
    let attributes = match told_attributes(alloc, attributes, resolver) {
        Ok(attributes) => attributes,
        Err(error) => return Err(error),
    };
    let loc = name.name().loc();
    match told_tags(alloc, tags, resolver) {
        Ok(tags) => Ok(ValidatorEntityType::new_standard(name, below, attributes, tags, loc)),
        Err(error) => Err(error),
    }
}

// The members of an enumeration.
fn members_of(alloc: Global, ids: &NonEmpty<RcStr>) -> Result<BTreeSet<RcStr>, AllocError>
    ensures { IfOk result (λ s. IsSetOf (rc_str_bytes ids.now.head ∷ map rc_str_bytes ids.now.tail.items) (map rc_str_bytes s.keys)) }
{
    let mut members = set_of(alloc, &ids.tail)?;
    members.insert(ids.head.clone()?)?;
    Ok(members)
}

// The entity type that is written, with these descendants.
fn entity_type(
    alloc: Global,
    entry: &(InternalName, EntityTypeFragment<InternalName>),
    below: &BTreeSet<InternalName>,
    resolver: &TypeResolver<'_>,
) -> Result<ValidatorEntityType, AssemblyError>
    ensures made { IfOk result (λ t. IsTypeMade (setting_of resolver.now) (type_seen entry.now) (map name_of below.now.keys) (entity_type_seen t)) }
    ensures refused { IfErr result (TellsType (setting_of resolver.now) (type_seen entry.now) (map name_of below.now.keys)) }
{
    let name = entity_type_of(&entry.0)?;
    let below = set_of_types(alloc, below)?;
    let loc = name.name().loc();
    match &entry.1 {
        EntityTypeFragment::Standard {
            attributes,
            parents: _,
            tags,
        } => match standard_type(alloc, name, below, attributes, tags, resolver) {
            Ok(entity_type) => Ok(entity_type),
            Err(error) => Err(error),
        },
        EntityTypeFragment::Enum(ids) => {
            let members = members_of(alloc, ids)?;
            let entity_type = ValidatorEntityType::new_enum(alloc, name, below, members, loc)?;
            Ok(entity_type)
        }
        EntityTypeFragment::External { parents: _ } => {
            let entity_type = ValidatorEntityType::new_external(alloc, name, below, loc)?;
            Ok(entity_type)
        }
    }
}

// The entity types that are written, each with those that descend from it.
fn assembled(
    alloc: Global,
    declared: &[(InternalName, EntityTypeFragment<InternalName>)],
    below: Vec<BTreeSet<InternalName>>,
    resolver: &TypeResolver<'_>,
) -> Result<Vec<ValidatorEntityType>, AssemblyError>
    requires { AreDescendants (types_above (types_seen declared.now)) (sets_seen name_of below.items) }
    ensures made { IfOk result (λ ts. AreMade (IsTypeMade (setting_of resolver.now)) (types_seen declared.now) (sets_seen name_of below.items) (map entity_type_seen ts.items)) }
    ensures refused { IfErr result (TellsTypes (setting_of resolver.now) (types_seen declared.now)) }
{
    let mut entity_types = Vec::with_capacity(alloc, declared.len())?;
    for (entry, names) in declared.iter().zip(below) {
        entity_types.push(entity_type(alloc, entry, &names, resolver)?)?;
    }
    Ok(entity_types)
}

/// The entity types that resolved declarations tell: each with its attributes and tags as types of a schema, or its
/// members, and with the entity types that descend from it. Refuses one that is declared twice, an extension type that isn't known,
/// and a reserved name of an entity type or an extension type, and fails when out of memory.
pub fn entity_types(
    alloc: Global,
    declared: &[(InternalName, EntityTypeFragment<InternalName>)],
    resolver: &TypeResolver<'_>,
) -> Result<Vec<ValidatorEntityType>, AssemblyError>
    ensures told { IfOk result (λ ts. AreTypesTold (setting_of resolver.now) (types_seen declared.now) (map entity_type_seen ts.items)) }
    ensures known { IfOk result (λ ts. AreTypesKnown (extensions_seen resolver.now.extension_types.now) (types_seen declared.now)) }
    ensures refused { IfErr result (TellsTypes (setting_of resolver.now) (types_seen declared.now)) }
{
    descent_is_the_schemas();
    let below = match types_below(alloc, declared) {
        Ok(below) => below,
        Err(error) => return Err(error),
    };
    match assembled(alloc, declared, below, resolver) {
        Ok(entity_types) => Ok(entity_types),
        Err(error) => Err(error),
    }
}

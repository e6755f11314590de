//! The actions of a schema.

ghost use Rattle.std.specs.Prelude.{◌≡◌, [], ◌∷◌, map, option_map, true, IfOk, IfErr};
ghost use Rattle.cedar_expr_names.specs.Views.{name_of, type_name_of, uid_of};
ghost use Rattle.cedar_schema_model.specs.Contexts.{is_record_type};
ghost use Rattle.cedar_schema_decl.specs.Trees.{type_form};
ghost use Rattle.cedar_schema_entries.specs.Views.{action_seen};
ghost use Rattle.cedar_schema_fragments.specs.Actions.{parent_form};
ghost use Rattle.cedar_schema_fragments.specs.WrittenDeclarations.{as_uid};
ghost use Rattle.cedar_schema_model.specs.Resolved.{attributes_of_record};
ghost use Rattle.cedar_schema_model.specs.Types.{record_type, is_closed};
ghost use Rattle.cedar_schema_resolver.specs.Descent.{AreDescendants};
ghost use Rattle.cedar_schema_resolver.specs.Numbers.{seen_nodes};
ghost use Rattle.cedar_schema_resolver.specs.Meanings.{extensions_seen, setting_of, told};
ghost use Rattle.cedar_schema_resolver.specs.Refusals.{AreKnown};
ghost use Rattle.cedar_schema_types.specs.Types.{type_of};
ghost use Rattle.cedar_schema_assembly.specs.Found.{AreActionsTold, AreContextsKnown, AreContextsRecords, AreApart};
ghost use Rattle.cedar_schema_assembly.specs.Lists.{StandOnce, sets_seen};
ghost use Rattle.cedar_schema_assembly.specs.Made.{AreMade, AsRecord, IsActionMade};
ghost use Rattle.cedar_schema_assembly.specs.Refusals.{TellsReserved, TellsLines, TellsContext, TellsAction, TellsActions};
ghost use Rattle.cedar_schema_assembly.specs.Seen.{action_under_uid, actions_seen, actions_above, kinds_of, uids_written};

use crate::err::AssemblyError;
use crate::names::entity_type_of;
use crate::resolved::told_type;
use crate::sets::{below, first_repeated, has, set_of};
use cedar_expr_names::{Eid, EntityType, EntityUID, InternalName};
use cedar_schema_decl::json_schema;
use cedar_schema_decl::json_schema::ActionEntityUID;
use cedar_schema_entries::{AppliesTo, ValidatorActionId};
use cedar_schema_fragments::{ActionFragment, ActionFragmentKind};
use cedar_schema_resolver::TypeResolver;
use cedar_schema_resolver::hierarchy_laws::descent_is_the_schemas;
use cedar_schema_types::{OpenTag, Type};
use std::alloc::{AllocError, Global};
use std::collections::BTreeSet;

// The uid of a parent. Refuses a reserved name of its type, and fails when out of memory.
fn parent_uid(parent: &ActionEntityUID<InternalName>) -> Result<EntityUID, AssemblyError>
    ensures made { IfOk result (λ u. uid_of u ≡ as_uid (parent_form name_of parent.now)) }
    ensures refused { IfErr result (TellsReserved (name_of parent.now.ty ∷ [])) }
{
    match entity_type_of(&parent.ty) {
        Ok(ty) => {
            let id = Eid::new(parent.id.clone()?);
            Ok(EntityUID::from_components(ty, id, None))
        }
        Err(error) => Err(error),
    }
}

// The uids of parents, with the same refusals.
fn parent_uids(
    alloc: Global,
    parents: &[ActionEntityUID<InternalName>],
) -> Result<Vec<EntityUID>, AssemblyError>
    ensures made { IfOk result (λ us. map uid_of us.items ≡ map as_uid (map (parent_form name_of) parents.now)) }
    ensures refused { IfErr result (TellsReserved (kinds_of (map (parent_form name_of) parents.now))) }
{
    let mut uids = Vec::with_capacity(alloc, parents.len())?;
    for parent in parents {
        uids.push(parent_uid(parent)?)?;
    }
    Ok(uids)
}

// Each uid with those of its parents, with the same refusals.
fn with_parents(
    alloc: Global,
    declared: &[(EntityUID, ActionFragment<InternalName, EntityType>)],
) -> Result<Vec<(EntityUID, Vec<EntityUID>)>, AssemblyError>
    ensures made { IfOk result (λ ns. seen_nodes uid_of ns.items ≡ actions_above (actions_seen declared.now)) }
    ensures refused { IfErr result (TellsLines (actions_seen declared.now)) }
{
    let mut nodes = Vec::with_capacity(alloc, declared.len())?;
    for entry in declared {
        let uid = entry.0.clone()?;
        nodes.push((uid, parent_uids(alloc, &entry.1.parents)?))?;
    }
    Ok(nodes)
}

// What descends from each. Refuses one that is declared twice and a reserved name of a parent's type, and fails when out of memory.
fn actions_below(
    alloc: Global,
    declared: &[(EntityUID, ActionFragment<InternalName, EntityType>)],
) -> Result<Vec<BTreeSet<EntityUID>>, AssemblyError>
    ensures descendants { IfOk result (λ ss. AreDescendants (actions_above (actions_seen declared.now)) (sets_seen uid_of ss.items)) }
    ensures once { IfOk result (λ ss. StandOnce (uids_written (actions_seen declared.now))) }
    ensures refused { IfErr result (TellsLines (actions_seen declared.now)) }
{
    let nodes = match with_parents(alloc, declared) {
        Ok(nodes) => nodes,
        Err(error) => return Err(error),
    };
    match first_repeated(alloc, &nodes)? {
        Some(uid) => {
            let uid = uid.clone()?;
            Err(AssemblyError::DuplicateAction { uid })
        }
        None => {
            let below = below(alloc, &nodes)?;
            Ok(below)
        }
    }
}

// The context as a closed record, if it is one. Fails only when out of memory.
fn as_record(ty: Type) -> Result<Option<Type>, AllocError>
    ensures { IfOk result (λ r. AsRecord (type_of ty) (option_map type_of r)) }
{
    match &ty {
        Type::Record {
            attrs,
            open_attributes: _,
        } => Ok(Some(Type::Record {
            attrs: attrs.clone()?,
            open_attributes: OpenTag::ClosedAttributes,
        })),
        _ => Ok(None),
    }
}

// The type of the context of the action of this uid. Refuses one that is no record, an extension type that isn't known and a
// reserved name, and fails when out of memory.
fn context_type(
    alloc: Global,
    uid: &EntityUID,
    context: &json_schema::Type<InternalName>,
    resolver: &TypeResolver<'_>,
) -> Result<Type, AssemblyError>
    ensures told { IfOk result (λ t. type_of t ≡ record_type (attributes_of_record (told (setting_of resolver.now) (type_form name_of context.now))) is_closed) }
    ensures is_record { IfOk result (λ t. is_record_type (told (setting_of resolver.now) (type_form name_of context.now)) ≡ true) }
    ensures known { IfOk result (λ t. AreKnown (extensions_seen resolver.now.extension_types.now) (type_form name_of context.now)) }
    ensures refused { IfErr result (TellsContext (setting_of resolver.now) (uid_of uid.now) (type_form name_of context.now)) }
{
    match told_type(alloc, context, resolver) {
        Ok(ty) => match as_record(ty)? {
            Some(context) => Ok(context),
            None => {
                let uid = uid.clone()?;
                Err(AssemblyError::ContextNotRecord { uid })
            }
        },
        Err(error) => Err(error),
    }
}

// The action that is written, with these descendants. Refuses one that is among them, and the same contexts.
fn action(
    alloc: Global,
    entry: &(EntityUID, ActionFragment<InternalName, EntityType>),
    below: BTreeSet<EntityUID>,
    resolver: &TypeResolver<'_>,
) -> Result<ValidatorActionId, AssemblyError>
    ensures made { IfOk result (λ k. IsActionMade (setting_of resolver.now) (action_under_uid entry.now) (map uid_of below.keys) (action_seen k)) }
    ensures refused { IfErr result (TellsAction (setting_of resolver.now) (action_under_uid entry.now) (map uid_of below.keys)) }
{
    let uid = entry.0.clone()?;
    if has(&below, &uid) {
        return Err(AssemblyError::CycleInActionHierarchy { uid });
    }
    let loc = uid.loc();
    match &entry.1.kind {
        ActionFragmentKind::Declared {
            applies_to,
            context,
        } => {
            let context = match context_type(alloc, &uid, context, resolver) {
                Ok(context) => context,
                Err(error) => return Err(error),
            };
            let principals = set_of(alloc, &applies_to.principal_apply_spec)?;
            let resources = set_of(alloc, &applies_to.resource_apply_spec)?;
            let applies_to = AppliesTo::new(principals, resources);
            Ok(ValidatorActionId::new_defined(uid, applies_to, below, context, loc))
        }
        ActionFragmentKind::External => {
            let action = ValidatorActionId::new_external(alloc, uid, below, loc)?;
            Ok(action)
        }
    }
}

// The actions that are written, each with those that descend from it.
fn assembled(
    alloc: Global,
    declared: &[(EntityUID, ActionFragment<InternalName, EntityType>)],
    below: Vec<BTreeSet<EntityUID>>,
    resolver: &TypeResolver<'_>,
) -> Result<Vec<ValidatorActionId>, AssemblyError>
    requires { AreDescendants (actions_above (actions_seen declared.now)) (sets_seen uid_of below.items) }
    ensures made { IfOk result (λ ks. AreMade (IsActionMade (setting_of resolver.now)) (actions_seen declared.now) (sets_seen uid_of below.items) (map action_seen ks.items)) }
    ensures refused { IfErr result (TellsActions (setting_of resolver.now) (actions_seen declared.now)) }
{
    descent_is_the_schemas();
    let mut actions = Vec::with_capacity(alloc, declared.len())?;
    for (entry, uids) in declared.iter().zip(below) {
        actions.push(action(alloc, entry, uids, resolver)?)?;
    }
    Ok(actions)
}

/// The actions that resolved declarations tell: each with what it applies to, its context as a type of a schema, and
/// the actions that descend from it. Refuses one that is declared twice, one that descends from itself, a context that is no record,
/// an extension type that isn't known, and a reserved name of a parent's type, of an entity type or of an extension type in a
/// context, and fails when out of memory.
pub fn actions(
    alloc: Global,
    declared: &[(EntityUID, ActionFragment<InternalName, EntityType>)],
    resolver: &TypeResolver<'_>,
) -> Result<Vec<ValidatorActionId>, AssemblyError>
    ensures told { IfOk result (λ ks. AreActionsTold (setting_of resolver.now) (actions_seen declared.now) (map action_seen ks.items)) }
    ensures known { IfOk result (λ ks. AreContextsKnown (extensions_seen resolver.now.extension_types.now) (actions_seen declared.now)) }
    ensures records { IfOk result (λ ks. AreContextsRecords (setting_of resolver.now) (actions_seen declared.now)) }
    ensures apart { IfOk result (λ ks. AreApart (setting_of resolver.now) (actions_seen declared.now)) }
    ensures refused { IfErr result (TellsActions (setting_of resolver.now) (actions_seen declared.now)) }
{
    descent_is_the_schemas();
    let below = match actions_below(alloc, declared) {
        Ok(below) => below,
        Err(error) => return Err(error),
    };
    match assembled(alloc, declared, below, resolver) {
        Ok(actions) => Ok(actions),
        Err(error) => Err(error),
    }
}

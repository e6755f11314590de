//! Fragments of a schema, and what they declare in their namespaces.
ghost use Rattle.std.specs.Prelude.{◌≡◌, Some, None, IfOk, IfErr, OnOk, option_map};
ghost use Rattle.serde_json.specs.View.{view, items_view, members_view};
ghost use Rattle.cedar_gate_model.specs.Reading.{each, each_member};
ghost use Rattle.cedar_gate_model.specs.ReadingSchema.{namespace_named, namespace_read, fragment_read, schema_read};
ghost use Rattle.cedar_schema_model.specs.Declarations.{bag};
ghost use Rattle.cedar_gate_fragments.specs.Written.{space_seen, definition_read, definition_seen, declared_in_fragment, declared_by, AddsDeclared};
ghost use Rattle.cedar_gate_expressions.specs.declared.fault.ReadFault.TheVariants.{Unreadable};

use crate::actions::Actions;
use crate::entity_types::EntityTypes;
use crate::types::CommonTypes;
use cedar_expr_leaves::RawName;
use cedar_expr_names::InternalName;
use cedar_gate_expressions::{ReadFault, has_only, optional_texts, optional_words};
use cedar_schema_decl::json_schema::{Fragment, NamespaceDefinition};
use serde_json::{Map, Value};
use std::alloc::Global;
use std::collections::BTreeMap;

/// Reads a schema: a list of fragments, which are objects of namespaces. Each namespace becomes a fragment of its own, in the
/// order of the list and of the keys; what is declared is the same however it is split.
///
/// # Errors
/// The value is no schema, or out of memory.
pub fn read_schema(alloc: Global, value: &Value) -> Result<Vec<Fragment<RawName>>, ReadFault>
    ensures ok { IfOk result (λ v. schema_read (view value.now) ≡ Some (declared_by v.items)) }
    ensures unreadable { IfErr result (λ f. f ≡ Unreadable → schema_read (view value.now) ≡ None) }
{
    match value {
        Value::Array(items) => read_fragments(alloc, items.as_slice()),
        _ => Err(ReadFault::Unreadable),
    }
}

// Reads each of these fragments, in their order.
#[tactic(auto, using(crate::proofs::Together::nothing_before, crate::proofs::Together::next_fragment, crate::proofs::Together::nothing_more))]
fn read_fragments(alloc: Global, items: &[Value]) -> Result<Vec<Fragment<RawName>>, ReadFault>
    ensures ok { IfOk result (λ v. option_map bag (each fragment_read (items_view items.now)) ≡ Some (declared_by v.items)) }
    ensures unreadable { IfErr result (λ f. f ≡ Unreadable → each fragment_read (items_view items.now) ≡ None) }
{
    let mut fragments = Vec::with_capacity(alloc, items.len())?;
    for item in items {
        add_fragment(alloc, &mut fragments, item)?;
    }
    Ok(fragments)
}

// Reads the namespaces of a fragment, and adds them.
fn add_fragment(
    alloc: Global,
    fragments: &mut Vec<Fragment<RawName>>,
    value: &Value,
) -> Result<(), ReadFault>
    ensures ok { OnOk result (AddsDeclared fragments.old.items fragments.new.items (fragment_read (view value.now))) }
    ensures unreadable { IfErr result (λ f. f ≡ Unreadable → fragment_read (view value.now) ≡ None) }
{
    match value {
        Value::Object(members) => add_namespaces(alloc, fragments, members),
        _ => Err(ReadFault::Unreadable),
    }
}

// Reads these namespaces, and adds them.
#[tactic(auto, using(crate::proofs::Together::nothing_more))]
fn add_namespaces(
    alloc: Global,
    fragments: &mut Vec<Fragment<RawName>>,
    members: &Map<String, Value>,
) -> Result<(), ReadFault>
    ensures ok { OnOk result (AddsDeclared fragments.old.items fragments.new.items (option_map bag (each_member namespace_read (members_view members.now.entries)))) }
    ensures unreadable { IfErr result (λ f. f ≡ Unreadable → each_member namespace_read (members_view members.now.entries) ≡ None) }
{
    for (key, member) in members.iter() {
        let fragment = read_namespace(alloc, key.as_str(), member)?;
        fragments.push(fragment)?;
    }
    Ok(())
}

// Reads a namespace, as a fragment of its own.
#[tactic(auto, using(crate::proofs::Together::namespace_made, crate::proofs::Together::no_name, crate::proofs::Together::no_definition, crate::proofs::Together::fragment_made))]
fn read_namespace(alloc: Global, key: &str, value: &Value) -> Result<Fragment<RawName>, ReadFault>
    ensures ok { IfOk result (λ n. namespace_read key.now (view value.now) ≡ Some (declared_in_fragment n)) }
    ensures unreadable { IfErr result (λ f. f ≡ Unreadable → namespace_read key.now (view value.now) ≡ None) }
{
    if !has_only(value, &["commonTypes", "entityTypes", "actions"]) {
        return Err(ReadFault::Unreadable);
    }
    let space = read_space(alloc, key)?;
    let definition = read_definition(alloc, value)?;
    let mut namespaces = BTreeMap::new(alloc);
    drop(namespaces.insert(space, definition)?);
    Ok(Fragment(namespaces))
}

// Reads the name of a namespace: none, where the text is empty.
#[tactic(auto, using(crate::proofs::Together::space_named))]
fn read_space(alloc: Global, key: &str) -> Result<Option<InternalName>, ReadFault>
    ensures ok { IfOk result (λ n. namespace_named key.now ≡ Some (space_seen n)) }
    ensures unreadable { IfErr result (λ f. f ≡ Unreadable → namespace_named key.now ≡ None) }
{
    match key {
        "" => Ok(None),
        _ => Ok(Some(InternalName::from_normalized_str(alloc, key)?)),
    }
}

// Reads what is declared in a namespace.
fn read_definition(alloc: Global, value: &Value) -> Result<NamespaceDefinition<RawName>, ReadFault>
    ensures ok { IfOk result (λ n. definition_read (view value.now) ≡ Some (definition_seen n)) }
    ensures unreadable { IfErr result (λ f. f ≡ Unreadable → definition_read (view value.now) ≡ None) }
{
    let common_types = optional_words(alloc, &CommonTypes, value, "commonTypes")?;
    let entity_types = optional_words(alloc, &EntityTypes, value, "entityTypes")?;
    let actions = optional_texts(alloc, &Actions, value, "actions")?;
    Ok(NamespaceDefinition {
        common_types,
        entity_types,
        actions,
        loc: None,
    })
}

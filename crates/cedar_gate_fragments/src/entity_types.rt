//! Common types and entity types.
ghost use Rattle.std.specs.Prelude.{◌≡◌, true, List, Option, Some, None, IfOk, IfErr, codes, ◌∷◌, []};
ghost use Rattle.serde_json.specs.View.{view};
ghost use Rattle.cedar_expr_model.specs.Name.{Name};
ghost use Rattle.cedar_schema_model.specs.Declarations.{KindExpr, no_field_exprs};
ghost use Rattle.cedar_gate_model.specs.Reading.{has_only, optional};
ghost use Rattle.cedar_gate_model.specs.ReadingSchema.{attributes_read, standard_read, enumerated_read, kind_read};
ghost use Rattle.cedar_gate_fragments.specs.Types.{fields_seen};
ghost use Rattle.cedar_gate_fragments.specs.Written.{kind_seen, ids_seen, ids_read};
ghost use Rattle.cedar_gate_expressions.specs.declared.fault.ReadFault.TheVariants.{Unreadable};

use crate::types::{WrittenTypes, read_attributes, record_of};
use cedar_expr_leaves::{NonEmpty, RawName};
use cedar_gate_expressions::{
    AnyNames, ReadFault, Reader, Texts, has_only, optional, optional_list, read_each, read_list,
    read_text, required,
};
use cedar_schema_decl::json_schema::{EntityType, EntityTypeKind, RecordType};
use serde_json::Value;
use std::alloc::Global;
use std::collections::BTreeMap;
use std::rc::RcStr;

/// Reads what is declared of an entity type: its parents, attributes and tags, or its ids, or its parents where it is declared
/// elsewhere.
#[tactic(auto, using(crate::proofs::KindForms::as_standard, crate::proofs::KindForms::as_enumerated, crate::proofs::KindForms::as_external))]
pub(crate) fn read_kind(alloc: Global, value: &Value) -> Result<EntityTypeKind<RawName>, ReadFault>
    ensures ok { IfOk result (λ k. kind_read (view value.now) ≡ Some (kind_seen k)) }
    ensures unreadable { IfErr result (λ f. f ≡ Unreadable → kind_read (view value.now) ≡ None) }
{
    if has_only(value, &["parents", "attrs", "tags"]) {
        return read_standard(alloc, value);
    }
    if has_only(value, &["enum"]) {
        let choices = read_ids(alloc, required(value, "enum")?)?;
        return Ok(EntityTypeKind::Enum { choices });
    }
    if has_only(value, &["external"]) {
        let member_of_types = read_list(alloc, &AnyNames, required(value, "external")?)?;
        return Ok(EntityTypeKind::External { member_of_types });
    }
    Err(ReadFault::Unreadable)
}

// Reads a standard entity type, of an object with no other key than those of one.
#[tactic(auto, using(crate::proofs::KindForms::fused))]
fn read_standard(alloc: Global, value: &Value) -> Result<EntityTypeKind<RawName>, ReadFault>
    requires { has_only (codes "parents" ∷ codes "attrs" ∷ codes "tags" ∷ []) (view value.now) ≡ true }
    ensures ok { IfOk result (λ k. standard_read (view value.now) ≡ Some (kind_seen k)) }
    ensures unreadable { IfErr result (λ f. f ≡ Unreadable → standard_read (view value.now) ≡ None) }
{
    let member_of_types = optional_list(alloc, &AnyNames, value, "parents")?;
    let shape = optional_attributes(alloc, value)?;
    let tags = optional(alloc, &WrittenTypes, value, "tags")?;
    Ok(EntityTypeKind::Standard {
        member_of_types,
        shape,
        tags,
    })
}

// Reads the attributes of an entity type: none, where they are missing.
fn optional_attributes(alloc: Global, value: &Value) -> Result<RecordType<RawName>, ReadFault>
    ensures ok { IfOk result (λ r. optional (codes "attrs") attributes_read no_field_exprs (view value.now) ≡ Some (fields_seen r)) }
    ensures unreadable { IfErr result (λ f. f ≡ Unreadable → optional (codes "attrs") attributes_read no_field_exprs (view value.now) ≡ None) }
{
    match value.get("attrs") {
        None => Ok(record_of(BTreeMap::new(alloc))),
        Some(member) => read_attributes(alloc, member),
    }
}

// Reads the ids of an enumerated type, one or more.
#[tactic(auto, using(cedar_gate_expressions::proofs::FewItems::first_rest))]
fn read_ids(alloc: Global, value: &Value) -> Result<NonEmpty<RcStr>, ReadFault>
    ensures ok { IfOk result (λ ids. ids_read (view value.now) ≡ Some (ids_seen ids)) }
    ensures unreadable { IfErr result (λ f. f ≡ Unreadable → ids_read (view value.now) ≡ None) }
{
    match value {
        Value::Array(items) => match items.as_slice() {
            [first, rest @ ..] => {
                let head = read_text(alloc, first)?;
                let tail = read_each(alloc, &Texts, rest)?;
                Ok(NonEmpty { head, tail })
            }
            [] => Err(ReadFault::Unreadable),
        },
        _ => Err(ReadFault::Unreadable),
    }
}

/// Reads entity types, each without its name.
pub(crate) struct EntityTypes;

impl Reader for EntityTypes {
    type Item = EntityType<RawName>;

    ghost Meaning = { List Name × KindExpr };

    ghost reading = { λ _. kind_read };

    ghost seen = { λ t. kind_seen t.kind };

    fn read(&self, alloc: Global, value: &Value) -> Result<EntityType<RawName>, ReadFault> {
        let kind = read_kind(alloc, value)?;
        Ok(EntityType { kind, loc: None })
    }
}

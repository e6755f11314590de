//! Actions.
ghost use Rattle.std.specs.Prelude.{◌≡◌, Some, None, IfOk, IfErr, codes};
ghost use Rattle.serde_json.specs.View.{view, items_view};
ghost use Rattle.cedar_expr_model.specs.Uid.{Uid};
ghost use Rattle.cedar_schema_model.specs.Declarations.{record_expr, no_field_exprs};
ghost use Rattle.cedar_gate_model.specs.Reading.{optional};
ghost use Rattle.cedar_gate_model.specs.ReadingName.{any_name_read, uid_in, declared_uid_read};
ghost use Rattle.cedar_gate_model.specs.ReadingSchema.{type_read};
ghost use Rattle.cedar_gate_fragments.specs.Types.{type_seen};
ghost use Rattle.cedar_gate_fragments.specs.Written.{parent_seen, ActionBody, action_seen, action_body_read};
ghost use Rattle.cedar_gate_expressions.specs.declared.fault.ReadFault.TheVariants.{Unreadable};

use crate::types::{read_type, record_of};
use cedar_expr_leaves::RawName;
use cedar_gate_expressions::{
    AnyNames, ReadFault, Reader, has_only, optional_list, read_any_name, read_text,
};
use cedar_schema_decl::json_schema::{
    ActionEntityUID, ActionType, ActionTypeKind, ApplySpec, Type, TypeVariant,
};
use serde_json::Value;
use std::alloc::Global;
use std::collections::BTreeMap;

/// Reads an action: its parents, what it applies to, and the type of its context.
pub(crate) fn read_action(alloc: Global, value: &Value) -> Result<ActionType<RawName>, ReadFault>
    ensures ok { IfOk result (λ a. action_body_read (view value.now) ≡ Some (action_seen a)) }
    ensures unreadable { IfErr result (λ f. f ≡ Unreadable → action_body_read (view value.now) ≡ None) }
{
    if !has_only(value, &["in", "principals", "resources", "context"]) {
        return Err(ReadFault::Unreadable);
    }
    let member_of = optional_list(alloc, &Parents, value, "in")?;
    let principal_types = optional_list(alloc, &AnyNames, value, "principals")?;
    let resource_types = optional_list(alloc, &AnyNames, value, "resources")?;
    let context = read_context(alloc, value)?;
    let applies_to = Some(ApplySpec {
        principal_types,
        resource_types,
        context,
    });
    Ok(ActionType {
        member_of,
        kind: ActionTypeKind::Declared { applies_to },
        loc: None,
    })
}

// Reads the type of an action's context: that of records without fields, where it is missing.
fn read_context(alloc: Global, value: &Value) -> Result<Type<RawName>, ReadFault>
    ensures ok { IfOk result (λ t. optional (codes "context") type_read (record_expr no_field_exprs) (view value.now) ≡ Some (type_seen t)) }
    ensures unreadable { IfErr result (λ f. f ≡ Unreadable → optional (codes "context") type_read (record_expr no_field_exprs) (view value.now) ≡ None) }
{
    match value.get("context") {
        None => {
            let attributes = BTreeMap::new(alloc);
            Ok(Type {
                ty: TypeVariant::Record(record_of(attributes)),
                loc: None,
            })
        }
        Some(member) => read_type(alloc, member),
    }
}

// Reads the parents of an action.
struct Parents;

impl Reader for Parents {
    type Item = ActionEntityUID<RawName>;

    ghost Meaning = { Uid };

    ghost reading = { λ _. declared_uid_read };

    ghost seen = { parent_seen };

    fn read(&self, alloc: Global, value: &Value) -> Result<ActionEntityUID<RawName>, ReadFault> {
        match value {
            Value::Array(items) => read_parent(alloc, items.as_slice()),
            _ => Err(ReadFault::Unreadable),
        }
    }
}

// Reads the parent of an action of its parts.
#[tactic(auto, using(cedar_gate_expressions::proofs::FewItems::two, cedar_gate_expressions::proofs::UidParts::short_uid, cedar_gate_expressions::proofs::UidParts::long_uid))]
fn read_parent(alloc: Global, items: &[Value]) -> Result<ActionEntityUID<RawName>, ReadFault>
    ensures ok { IfOk result (λ p. uid_in any_name_read (items_view items.now) ≡ Some (parent_seen p)) }
    ensures unreadable { IfErr result (λ f. f ≡ Unreadable → uid_in any_name_read (items_view items.now) ≡ None) }
{
    match items {
        [kind, id] => {
            let ty = read_any_name(alloc, kind)?;
            let id = read_text(alloc, id)?;
            Ok(ActionEntityUID { ty, id })
        }
        [] => Err(ReadFault::Unreadable),
        [_] => Err(ReadFault::Unreadable),
        [_, _, _, ..] => Err(ReadFault::Unreadable),
    }
}

/// Reads actions, each without its id.
pub(crate) struct Actions;

impl Reader for Actions {
    type Item = ActionType<RawName>;

    ghost Meaning = { ActionBody };

    ghost reading = { λ _. action_body_read };

    ghost seen = { action_seen };

    fn read(&self, alloc: Global, value: &Value) -> Result<ActionType<RawName>, ReadFault> {
        read_action(alloc, value)
    }
}

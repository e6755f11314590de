//! Texts, names and uids.
ghost use Rattle.std.specs.Prelude.{◌≡◌, Some, None, IfOk, IfErr};
ghost use Rattle.std.specs.Rc.{rc_str_bytes};
ghost use Rattle.serde_json.specs.Find.{as_str};
ghost use Rattle.serde_json.specs.View.{view, items_view};
ghost use Rattle.cedar_expr_names.specs.Views.{plain_name_of, type_name_of, uid_of};
ghost use Rattle.cedar_expr_leaves.specs.Views.{raw_name_of};
ghost use Rattle.cedar_gate_model.specs.ReadingName.{any_name_read, plain_name_read, uid_from, uid_in, uid_read};
ghost use Rattle.cedar_gate_expressions.specs.declared.fault.ReadFault.TheVariants.{Unreadable};

use crate::fault::ReadFault;
use crate::lists::Reader;
use cedar_expr_leaves::RawName;
use cedar_expr_names::{Eid, EntityType, EntityUID, Name, NameError};
use serde_json::Value;
use std::alloc::Global;
use std::rc::{Rc, RcStr};

impl From<NameError> for ReadFault {
    ghost use Rattle.cedar_gate_expressions.specs.Faults.{names_as};

    ghost from_gives = { λ e fault. fault ≡ names_as e };

    fn from(error: NameError) -> ReadFault {
        match error {
            NameError::OutOfMemory => ReadFault::OutOfMemory,
            NameError::NotNormalized | NameError::Reserved(_) => ReadFault::Unreadable,
        }
    }
}

/// The value as a text.
pub fn text(value: &Value) -> Result<&str, ReadFault>
    ensures ok { IfOk result (λ s. as_str (view value.now) ≡ Some s.now) }
    ensures unreadable { IfErr result (λ f. (f ≡ Unreadable) × (as_str (view value.now) ≡ None)) }
{
    value.as_str().ok_or(ReadFault::Unreadable)
}

/// Reads a text, to be kept.
pub fn read_text(alloc: Global, value: &Value) -> Result<RcStr, ReadFault>
    ensures ok { IfOk result (λ s. as_str (view value.now) ≡ Some (rc_str_bytes s)) }
    ensures unreadable { IfErr result (λ f. f ≡ Unreadable → as_str (view value.now) ≡ None) }
{
    Ok(RcStr::from_str(alloc, text(value)?)?)
}

/// Reads texts.
pub struct Texts;

impl Reader for Texts {
    type Item = RcStr;

    ghost use Rattle.cedar_expr_model.specs.Name.{Text};

    ghost Meaning = { Text };

    ghost reading = { λ _. as_str };

    ghost seen = { rc_str_bytes };

    fn read(&self, alloc: Global, value: &Value) -> Result<RcStr, ReadFault> {
        read_text(alloc, value)
    }
}

/// Reads a name that is not reserved.
pub fn read_name(alloc: Global, value: &Value) -> Result<Name, ReadFault>
    ensures ok { IfOk result (λ n. plain_name_read (view value.now) ≡ Some (plain_name_of n)) }
    ensures unreadable { IfErr result (λ f. f ≡ Unreadable → plain_name_read (view value.now) ≡ None) }
{
    Ok(Name::from_normalized_str(alloc, text(value)?)?)
}

/// Reads a type that is not reserved.
pub fn read_type(alloc: Global, value: &Value) -> Result<EntityType, ReadFault>
    ensures ok { IfOk result (λ t. plain_name_read (view value.now) ≡ Some (type_name_of t)) }
    ensures unreadable { IfErr result (λ f. f ≡ Unreadable → plain_name_read (view value.now) ≡ None) }
{
    Ok(EntityType::from_normalized_str(alloc, text(value)?)?)
}

/// Reads the uid of a type and an id.
pub fn read_uid_from(alloc: Global, kind: &Value, id: &Value) -> Result<EntityUID, ReadFault>
    ensures ok { IfOk result (λ u. uid_from (plain_name_read (view kind.now)) (as_str (view id.now)) ≡ Some (uid_of u)) }
    ensures unreadable { IfErr result (λ f. f ≡ Unreadable
        → uid_from (plain_name_read (view kind.now)) (as_str (view id.now)) ≡ None) }
{
    let kind = read_type(alloc, kind)?;
    let id = Eid::from_str(alloc, text(id)?)?;
    Ok(EntityUID::from_components(kind, id, None))
}

/// Reads a uid: a list of a type and an id.
pub fn read_uid(alloc: Global, value: &Value) -> Result<EntityUID, ReadFault>
    ensures ok { IfOk result (λ u. uid_read (view value.now) ≡ Some (uid_of u)) }
    ensures unreadable { IfErr result (λ f. f ≡ Unreadable → uid_read (view value.now) ≡ None) }
{
    match value {
        Value::Array(items) => read_uid_in(alloc, items.as_slice()),
        _ => Err(ReadFault::Unreadable),
    }
}

// Reads a uid of its parts.
#[tactic(auto, using(crate::proofs::FewItems::two, crate::proofs::UidParts::short_uid, crate::proofs::UidParts::long_uid))]
fn read_uid_in(alloc: Global, items: &[Value]) -> Result<EntityUID, ReadFault>
    ensures ok { IfOk result (λ u. uid_in plain_name_read (items_view items.now) ≡ Some (uid_of u)) }
    ensures unreadable { IfErr result (λ f. f ≡ Unreadable → uid_in plain_name_read (items_view items.now) ≡ None) }
{
    match items {
        [kind, id] => read_uid_from(alloc, kind, id),
        [] => Err(ReadFault::Unreadable),
        [_] => Err(ReadFault::Unreadable),
        [_, _, _, ..] => Err(ReadFault::Unreadable),
    }
}

/// Reads uids that are shared.
pub struct SharedUids;

impl Reader for SharedUids {
    type Item = Rc<EntityUID>;

    ghost use Rattle.cedar_expr_model.specs.Uid.{Uid};

    ghost Meaning = { Uid };

    ghost reading = { λ _. uid_read };

    ghost seen = { λ u. uid_of u.value };

    fn read(&self, alloc: Global, value: &Value) -> Result<Rc<EntityUID>, ReadFault> {
        let uid = read_uid(alloc, value)?;
        Ok(Rc::new(alloc, uid)?)
    }
}

/// Reads uids.
pub struct Uids;

impl Reader for Uids {
    type Item = EntityUID;

    ghost use Rattle.cedar_expr_model.specs.Uid.{Uid};

    ghost Meaning = { Uid };

    ghost reading = { λ _. uid_read };

    ghost seen = { uid_of };

    fn read(&self, alloc: Global, value: &Value) -> Result<EntityUID, ReadFault> {
        read_uid(alloc, value)
    }
}

/// Reads a name of the grammar, a reserved one too.
pub fn read_any_name(alloc: Global, value: &Value) -> Result<RawName, ReadFault>
    ensures ok { IfOk result (λ n. any_name_read (view value.now) ≡ Some (raw_name_of n)) }
    ensures unreadable { IfErr result (λ f. f ≡ Unreadable → any_name_read (view value.now) ≡ None) }
{
    Ok(RawName::from_normalized_str(alloc, text(value)?)?)
}

/// Reads names of the grammar, reserved ones too.
pub struct AnyNames;

impl Reader for AnyNames {
    type Item = RawName;

    ghost use Rattle.cedar_expr_model.specs.Name as model;

    ghost Meaning = { model.Name };

    ghost reading = { λ _. any_name_read };

    ghost seen = { raw_name_of };

    fn read(&self, alloc: Global, value: &Value) -> Result<RawName, ReadFault> {
        read_any_name(alloc, value)
    }
}

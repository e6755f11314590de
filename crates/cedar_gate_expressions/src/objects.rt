//! Objects: which keys they have, and what stands at a key.
ghost use Rattle.std.specs.Prelude.{◌≡◌, Option, Some, None, IfOk, IfErr, List, map};
ghost use Rattle.std.specs.List.{list_any};
ghost use Rattle.std.specs.Str.{bytes_eq};
ghost use Rattle.serde_json.specs.Find.{get};
ghost use Rattle.serde_json.specs.View.{view, members_view};
ghost use Rattle.cedar_gate_model.specs.Reading.{has_only, are_among};
ghost use Rattle.cedar_gate_expressions.specs.Alone.{lone};
ghost use Rattle.cedar_gate_expressions.specs.declared.fault.ReadFault.TheVariants.{Unreadable};

use crate::fault::ReadFault;
use serde_json::{Map, Value};

/// Whether the value is an object that has no other key than these.
pub fn has_only(value: &Value, keys: &[&str]) -> bool
    ensures { result ≡ has_only (map (λ k. k.now) keys.now) (view value.now) }
{
    match value {
        Value::Object(members) => are_among(members, keys),
        _ => false,
    }
}

// Whether each key is one of these.
fn are_among(members: &Map<String, Value>, keys: &[&str]) -> bool
    ensures { result ≡ are_among (map (λ k. k.now) keys.now) (members_view members.now.entries) }
{
    for (key, _) in members.iter() {
        if !is_one_of(key.as_str(), &*keys) {
            return false;
        }
    }
    true
}

// Whether the key is one of these.
fn is_one_of(key: &str, keys: &[&str]) -> bool
    ensures { result ≡ list_any (λ k. bytes_eq k key.now) (map (λ k. k.now) keys.now) }
{
    is_named_by(key, keys)
}

// Whether one of these is the key.
fn is_named_by(key: &str, keys: &[&str]) -> bool
    ensures { result ≡ list_any (λ k. bytes_eq k.now key.now) keys.now }
{
    keys.iter().any(|k| *k == key)
}

/// The value at the key.
pub fn required<'a>(value: &'a Value, key: &str) -> Result<&'a Value, ReadFault>
    ensures ok { IfOk result (λ v. get key.now (view value.now) ≡ Some (view v.now)) }
    ensures unreadable { IfErr result (λ f. (f ≡ Unreadable) × (get key.now (view value.now) ≡ None)) }
{
    value.get(key).ok_or(ReadFault::Unreadable)
}

/// The key and the value of the one member. Refuses an object without members, or with more than one.
pub fn only_member(members: &Map<String, Value>) -> Result<(&str, &Value), ReadFault>
    ensures ok { IfOk result (λ p. lone (members_view members.now.entries) ≡ Some (p.0.now, view p.1.now)) }
    ensures unreadable { IfErr result (λ f. (f ≡ Unreadable) × (lone (members_view members.now.entries) ≡ None)) }
{
    let mut left = members.iter();
    match left.next() {
        None => Err(ReadFault::Unreadable),
        Some((key, value)) => match left.next() {
            None => Ok((key.as_str(), value)),
            Some(_) => Err(ReadFault::Unreadable),
        },
    }
}

//! Lists, read item by item.
ghost use Rattle.std.specs.Prelude.{◌≡◌, Option, Some, None, IfOk, IfErr, map};
ghost use Rattle.serde_json.specs.Data.{Data};
ghost use Rattle.serde_json.specs.View.{view, items_view};
ghost use Rattle.cedar_gate_model.specs.Reading.{each, list_of};
ghost use Rattle.cedar_gate_expressions.specs.declared.fault.ReadFault.TheVariants.{Unreadable};

use crate::fault::ReadFault;
use serde_json::Value;
use std::alloc::Global;

/// What reads JSON values of one form.
pub trait Reader {
    /// What is read.
    type Item: Drop;

    // What it is in the model.
    ghost Meaning: { Type 0 };

    ghost reading: { Self → Data → Option Meaning };

    ghost seen: { Self.Item → Meaning };

    /// Reads the value. Refuses a value of another form.
    fn read(&self, alloc: Global, value: &Value) -> Result<Self::Item, ReadFault>
        ensures ok { IfOk result (λ x. reading self.now (view value.now) ≡ Some (seen x)) }
        ensures unreadable { IfErr result (λ f. f ≡ Unreadable → reading self.now (view value.now) ≡ None) };
}

/// Reads each of these values, in their order. Refuses them where one of them has another form.
#[tactic(auto, using(crate::proofs::Gathered::nothing_before, crate::proofs::Gathered::one_more))]
pub fn read_each<R: Reader>(
    alloc: Global,
    reader: &R,
    items: &[Value],
) -> Result<Vec<R::Item>, ReadFault>
    ensures ok { IfOk result (λ v. each (R.reading reader.now) (items_view items.now) ≡ Some (map R.seen v.items)) }
    ensures unreadable { IfErr result (λ f. f ≡ Unreadable → each (R.reading reader.now) (items_view items.now) ≡ None) }
{
    let mut list = Vec::with_capacity(alloc, items.len())?;
    for item in items {
        list.push(reader.read(alloc, item)?)?;
    }
    Ok(list)
}

/// Reads a list, item by item. Refuses what is no list, and a list where one item has another form.
pub fn read_list<R: Reader>(
    alloc: Global,
    reader: &R,
    value: &Value,
) -> Result<Vec<R::Item>, ReadFault>
    ensures ok { IfOk result (λ v. list_of (R.reading reader.now) (view value.now) ≡ Some (map R.seen v.items)) }
    ensures unreadable { IfErr result (λ f. f ≡ Unreadable → list_of (R.reading reader.now) (view value.now) ≡ None) }
{
    match value {
        Value::Array(items) => read_each(alloc, reader, items.as_slice()),
        _ => Err(ReadFault::Unreadable),
    }
}

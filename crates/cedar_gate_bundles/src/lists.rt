//! Lists and objects, read item by item, where what an item reads as depends on the functions of a table.
ghost use Rattle.std.specs.Prelude.{◌≡◌, true, Option, Some, None, IfOk, IfErr, map};
ghost use Rattle.serde_json.specs.Data.{Data};
ghost use Rattle.serde_json.specs.View.{view, items_view};
ghost use Rattle.cedar_expr_model.specs.Records.{names_rise};
ghost use Rattle.cedar_evaluator_model.specs.Functions.{Functions};
ghost use Rattle.cedar_gate_model.specs.Reading.{each, list_of};
ghost use Rattle.cedar_gate_expressions.specs.Maps.{list_at, texts_at, texts_in, texts_of, texts_seen};
ghost use Rattle.cedar_gate_expressions.specs.declared.fault.ReadFault.TheVariants.{Unreadable};
ghost use Rattle.cedar_gate_bundles.specs.Reading.{ReadsAs, IsUnreadable};

use cedar_expr_functions::Extensions;
use cedar_gate_expressions::ReadFault;
use serde_json::{Map, Value};
use std::alloc::Global;
use std::rc::RcStr;

/// What reads JSON values of one form by the functions of a table.
pub(crate) trait ReaderByTable {
    /// What is read.
    type Item: Drop;

    // What it is in the model.
    ghost Meaning: { Type 0 };

    ghost reading: { Functions → Data → Option Meaning };

    ghost seen: { Self.Item → Meaning };

    /// Reads the value. Refuses a value of another form.
    fn read(
        &self,
        alloc: Global,
        table: &Extensions<'_>,
        value: &Value,
    ) -> Result<Self::Item, ReadFault>
        ensures ok { IfOk result (λ v. ReadsAs table.now (λ x. reading x (view value.now)) (seen v)) }
        ensures unreadable { IfErr result (λ f. IsUnreadable table.now (λ x. reading x (view value.now)) f) };
}

// Reads each of these values, in their order. Refuses them where one of them has another form.
#[tactic(auto, using(cedar_gate_expressions::proofs::Gathered::nothing_before, cedar_gate_expressions::proofs::Gathered::one_more))]
fn read_each<R: ReaderByTable>(
    alloc: Global,
    reader: &R,
    table: &Extensions<'_>,
    items: &[Value],
) -> Result<Vec<R::Item>, ReadFault>
    ensures ok { IfOk result (λ v. ReadsAs table.now (λ x. each (R.reading x) (items_view items.now)) (map R.seen v.items)) }
    ensures unreadable { IfErr result (λ f. IsUnreadable table.now (λ x. each (R.reading x) (items_view items.now)) f) }
{
    let mut list = Vec::with_capacity(alloc, items.len())?;
    for item in items {
        list.push(reader.read(alloc, table, item)?)?;
    }
    Ok(list)
}

/// Reads a list, item by item. Refuses what is no list, and a list where one item has another form.
pub(crate) fn read_list<R: ReaderByTable>(
    alloc: Global,
    reader: &R,
    table: &Extensions<'_>,
    value: &Value,
) -> Result<Vec<R::Item>, ReadFault>
    ensures ok { IfOk result (λ v. ReadsAs table.now (λ x. list_of (R.reading x) (view value.now)) (map R.seen v.items)) }
    ensures unreadable { IfErr result (λ f. IsUnreadable table.now (λ x. list_of (R.reading x) (view value.now)) f) }
{
    match value {
        Value::Array(items) => read_each(alloc, reader, table, items.as_slice()),
        _ => Err(ReadFault::Unreadable),
    }
}

/// Reads the list at the key: an empty one, where the key is missing.
pub(crate) fn optional_list<R: ReaderByTable>(
    alloc: Global,
    reader: &R,
    table: &Extensions<'_>,
    value: &Value,
    key: &str,
) -> Result<Vec<R::Item>, ReadFault>
    ensures ok { IfOk result (λ v. ReadsAs table.now (λ x. list_at key.now (R.reading x) value.now) (map R.seen v.items)) }
    ensures unreadable { IfErr result (λ f. IsUnreadable table.now (λ x. list_at key.now (R.reading x) value.now) f) }
{
    match value.get(key) {
        None => Ok(Vec::new(alloc)),
        Some(member) => read_list(alloc, reader, table, member),
    }
}

/// Reads what stands under any texts in the object at the key, in the order of the texts: nothing, where the key is missing.
/// Refuses a member of another form.
pub(crate) fn optional_pairs<R: ReaderByTable>(
    alloc: Global,
    reader: &R,
    table: &Extensions<'_>,
    value: &Value,
    key: &str,
) -> Result<Vec<(RcStr, R::Item)>, ReadFault>
    ensures ok { IfOk result (λ v. ReadsAs table.now (λ x. texts_at key.now (R.reading x) value.now) (texts_seen R.seen v.items)) }
    ensures rising { IfOk result (λ v. names_rise (texts_seen R.seen v.items) ≡ true) }
    ensures unreadable { IfErr result (λ f. IsUnreadable table.now (λ x. texts_at key.now (R.reading x) value.now) f) }
{
    match value.get(key) {
        None => Ok(Vec::new(alloc)),
        Some(member) => read_pairs(alloc, reader, table, member),
    }
}

// Reads what stands under any texts in an object.
fn read_pairs<R: ReaderByTable>(
    alloc: Global,
    reader: &R,
    table: &Extensions<'_>,
    value: &Value,
) -> Result<Vec<(RcStr, R::Item)>, ReadFault>
    ensures ok { IfOk result (λ v. ReadsAs table.now (λ x. texts_of (R.reading x) value.now) (texts_seen R.seen v.items)) }
    ensures rising { IfOk result (λ v. names_rise (texts_seen R.seen v.items) ≡ true) }
    ensures unreadable { IfErr result (λ f. IsUnreadable table.now (λ x. texts_of (R.reading x) value.now) f) }
{
    match value {
        Value::Object(members) => read_each_pair(alloc, reader, table, members),
        _ => Err(ReadFault::Unreadable),
    }
}

// Reads what stands under any texts, in the order of the keys.
fn read_each_pair<R: ReaderByTable>(
    alloc: Global,
    reader: &R,
    table: &Extensions<'_>,
    members: &Map<String, Value>,
) -> Result<Vec<(RcStr, R::Item)>, ReadFault>
    ensures ok { IfOk result (λ v. ReadsAs table.now (λ x. texts_in (R.reading x) members.now.entries) (texts_seen R.seen v.items)) }
    ensures rising { IfOk result (λ v. names_rise (texts_seen R.seen v.items) ≡ true) }
    ensures unreadable { IfErr result (λ f. IsUnreadable table.now (λ x. texts_in (R.reading x) members.now.entries) f) }
{
    let mut made = Vec::with_capacity(alloc, members.len())?;
    for (key, member) in members.iter() {
        let name = RcStr::from_str(alloc, key.as_str())?;
        let item = reader.read(alloc, table, member)?;
        made.push((name, item))?;
    }
    Ok(made)
}

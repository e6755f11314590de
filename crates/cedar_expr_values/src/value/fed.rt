//! What sets, records and what stands in them feed a hasher.

ghost use Rattle.std.specs.Prelude.{◌≡◌, fold};
ghost use Rattle.cedar_expr_values.specs.KeptOrder.{kept_set, kept_record};
ghost use Rattle.cedar_expr_values.specs.Inputs.{value_input};
ghost use Rattle.cedar_expr_values.specs.Values.{bare};

use super::{Record, Set, Value, ValueKind};
use crate::extension::ExtensionValue;
use std::hash::{Hash, Hasher};

// Feeds the hasher a value.
#[cycle(feed)]
fn feed_value<X: ExtensionValue, H: Hasher>(value: &Value<X>, state: &mut H)
    ensures { state.new ≡ fold H.write state.old (value_input (bare X.seen value.now)) }
{
    match &value.kind {
        ValueKind::Lit(literal) => {
            state.write_u8(0);
            literal.hash(state);
        }
        ValueKind::Set(set) => feed_set(set, state),
        ValueKind::Record(fields) => feed_record(fields, state),
        ValueKind::ExtensionValue(value) => {
            state.write_u8(3);
            value.typename().hash(state);
            value.key_bytes().hash(state);
        }
    }
}

// Feeds the hasher a set: its members in rising order, after their number.
#[cycle(feed)]
pub(super) fn feed_set<X: ExtensionValue, H: Hasher>(set: &Set<X>, state: &mut H)
    ensures { state.new ≡ fold H.write state.old (value_input (kept_set set.now)) }
{
    state.write_u8(1);
    state.write_usize(set.members.values.len());
    for value in set.members.values.iter() {
        feed_value(value, state);
    }
}

// Feeds the hasher a record: its names in rising order with their values, after their number.
#[cycle(feed)]
pub(super) fn feed_record<X: ExtensionValue, H: Hasher>(record: &Record<X>, state: &mut H)
    ensures { state.new ≡ fold H.write state.old (value_input (kept_record record.now)) }
{
    state.write_u8(2);
    state.write_usize(record.fields.len());
    for (name, value) in record.fields.iter() {
        name.hash(state);
        feed_value(value, state);
    }
}

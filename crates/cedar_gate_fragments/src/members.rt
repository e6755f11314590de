//! The members of an object: the only one, or one after the other. A cycle of calls reads members by these functions and not by the
//! map's own iterator, whose proof would be part of the cycle's.

ghost use Rattle.std.specs.Prelude.{◌≡◌, [], ◌∷◌, None, IfSome, IfNone, MatchOption};
ghost use Rattle.std.specs.List.Sorted.{IsStrictlySortedBy};
ghost use Rattle.std.specs.Map.{keys_of};
ghost use Rattle.std.specs.String.{string_cmp};
ghost use Rattle.serde_json.specs.View.{members_view};
ghost use Rattle.cedar_gate_model.specs.ReadingSchema.{type_in};
ghost use Rattle.cedar_gate_fragments.specs.Types.{attribute_in};

use serde_json::{Map, Value};
use std::collections::btree_map::Iter;

/// The members that are still to come.
pub(crate) struct Members<'a> {
    left: Iter<'a, String, Value>,
}

// A drop of its own is one step in the proof of a function that goes over members.
impl<'a> Drop for Members<'a> {
    fn drop(self) {
        let Members { left: _ } = self;
    }
}

/// These members, all of them to come.
pub(crate) fn members_of<'a>(members: &'a Map<String, Value>) -> Members<'a>
    ensures rest { result.left ≡ members.entry.now.entries }
    ensures ordered { IsStrictlySortedBy string_cmp (keys_of members.entry.now.entries) }
{
    Members {
        left: members.iter(),
    }
}

/// The next member with its key, if there is more.
pub(crate) fn next_member<'a>(members: &mut Members<'a>) -> Option<(&'a String, &'a Value)>
    ensures { MatchOption result (members.old.left ≡ []) (λ p. members.old.left ≡ (p.0.now, p.1.now) ∷ members.new.left) }
{
    members.left.next()
}

/// The only member with its key, if there is exactly one: no type and no attribute is written by none or by several.
pub(crate) fn only_member<'a>(members: &'a Map<String, Value>) -> Option<(&'a String, &'a Value)>
    ensures only { IfSome result (λ p. members.entry.now.entries ≡ (p.0.now, p.1.now) ∷ []) }
    ensures no_type { IfNone result (type_in (members_view members.entry.now.entries) ≡ None) }
    ensures no_attribute { IfNone result (attribute_in (members_view members.entry.now.entries) ≡ None) }
{
    let mut left = members.iter();
    match left.next() {
        None => None,
        Some(member) => match left.next() {
            None => Some(member),
            Some(_) => None,
        },
    }
}

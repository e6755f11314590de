//! Sets that gain members for which room was made.

ghost use Rattle.std.specs.Prelude.{◌≤◌, length};
ghost use Rattle.std.specs.HashSet.{spare};
ghost use Rattle.std.specs.Set.{IsUnion};

use std::collections::HashSet;
use std::hash::Hash;

// Puts these into the set, which has room for them.
pub(crate) fn add_all<K: Eq + Hash + Drop>(set: &mut HashSet<K>, mut keys: Vec<K>)
    requires { length keys.items ≤ spare set.old }
    ensures { IsUnion K.eq set.old.keys keys.items set.new.keys }
{
    while let Some(key) = keys.pop() {
        match set.insert(key) {
            Ok(_) => {}
            Err(_) => unreachable!(),
        }
    }
}

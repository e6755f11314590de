//! The fields of a record: the one of a name, or the expressions of several, one after the other.

ghost use Rattle.std.specs.Prelude.{◌≡◌, ◌&&◌, not, IfSome, MatchOption, [], ◌∷◌};
ghost use Rattle.std.specs.BTreeMap.{values};
ghost use Rattle.std.specs.List.{IsAmong};
ghost use Rattle.std.specs.Map.{lookup};
ghost use Rattle.std.specs.Option.{option_copied};
ghost use Rattle.std.specs.Rc.{rc_str_bytes};
ghost use Rattle.std.specs.Str.{bytes_eq};

use cedar_expr_trees::Expr;
use cedar_schema_types::Type;
use std::collections::BTreeMap;
use std::collections::btree_map::Iter;
use std::rc::RcStr;

// The expression of the field of this name, if there is one.
pub(crate) fn field_of<'a>(
    fields: &'a BTreeMap<RcStr, Expr<Option<Type>>>,
    name: &RcStr,
) -> Option<&'a Expr<Option<Type>>>
    ensures value { option_copied result ≡ lookup (λ k. bytes_eq (rc_str_bytes name.now) (rc_str_bytes k)) fields.entry.now.entries }
    ensures member { IfSome result (λ e. IsAmong (values fields.entry.now) e.now) }
{
    for (key, e) in fields {
        if name == key {
            return Some(e);
        }
    }
    None
}

// The fields that are still to come. A cycle of calls goes over fields by this and not by the map's own iterator, whose proof
// would be part of the cycle's.
pub(crate) struct Fields<'a> {
    left: Iter<'a, RcStr, Expr<Option<Type>>>,
}

// A drop of its own is one step in the proof of a function that goes over fields.
impl<'a> Drop for Fields<'a> {
    fn drop(self) {
        let Fields { left: _ } = self;
    }
}

// These fields, all of them to come.
pub(crate) fn fields_of<'a>(fields: &'a BTreeMap<RcStr, Expr<Option<Type>>>) -> Fields<'a>
    ensures { result.left ≡ fields.entry.now.entries }
{
    Fields {
        left: fields.iter(),
    }
}

// The next field with its name, if there is more.
pub(crate) fn next_field<'a>(fields: &mut Fields<'a>) -> Option<(&'a RcStr, &'a Expr<Option<Type>>)>
    ensures { MatchOption result (fields.old.left ≡ []) (λ p. fields.old.left ≡ (p.0.now, p.1.now) ∷ fields.new.left) }
{
    fields.left.next()
}

// Whether this is the first field of the name, which is passed over.
pub(crate) fn is_skipped(is_past: bool, name: &RcStr, key: &RcStr) -> bool
    ensures { result ≡ (not is_past && bytes_eq (rc_str_bytes name.now) (rc_str_bytes key.now)) }
{
    !is_past && name == key
}

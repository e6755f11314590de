//! Laws of values. Each function's contract is the theorem; its body does nothing, or it reads the value, of which a proof then knows that
//! it keeps to the ranges of its types.

ghost use Rattle.std.specs.Prelude.{◌≡◌, true};
ghost use Rattle.std.specs.Ordering.{is_eq};
ghost use Rattle.cedar_expr_model.specs.Order.{core_cmp, core_eq};
ghost use Rattle.cedar_expr_model.specs.Ranges.{is_in_range};
ghost use Rattle.cedar_expr_values.specs.Extension.{extension_cmp};
ghost use Rattle.cedar_expr_values.specs.Extensions.{extension_of};
ghost use Rattle.cedar_expr_values.specs.Types.{core_of};
ghost use Rattle.cedar_expr_values.specs.Values.{bare};
ghost use Rattle.cedar_expr_values.specs.ValueLaws.{OrderedAsBare, EqualAsBare, HashedAsBare, HashedAsSeen, SetsAreTheirMembers, ValuesAreCanonical};
ghost use Rattle.cedar_expr_values.specs.declared.extension.ExtValue.{ExtValue};
ghost use Rattle.cedar_expr_values.specs.declared.types.Type.{«Type» as CoreKind};

use crate::extension::{ExtValue, ExtensionValue};
use crate::types::Type;
use crate::value::Value;
use std::hash::Hash;

/// Values are ordered, and are equal, as the model's values that they are, whatever their places and calls.
pub fn values_are_compared<X: ExtensionValue>()
    ensures order { OrderedAsBare X.seen ⟦<Value<X> as Ord>⟧.cmp }
    ensures equality { EqualAsBare X.seen ⟦<Value<X> as PartialEq>⟧.eq }
{}

/// Values that are the same in the model are hashed alike, whatever their places and calls.
pub fn values_are_hashed<X: ExtensionValue + Hash>()
    ensures { HashedAsBare X.seen ⟦<Value<X> as Hash>⟧.hash_input }
{}

/// Extension values of a table are ordered by their types and keys, are equal where the order finds no difference, and are then
/// hashed alike, whatever the call that makes them.
pub fn extension_values_are_compared()
    ensures order { (x y : ExtValue) → ⟦<ExtValue as Ord>⟧.cmp x y ≡ extension_cmp (extension_of x) (extension_of y) }
    ensures equality { (x y : ExtValue) → ⟦<ExtValue as PartialEq>⟧.eq x y ≡ is_eq (extension_cmp (extension_of x) (extension_of y)) }
    ensures hash { HashedAsSeen extension_of ⟦<ExtValue as Hash>⟧.hash_input }
{}

/// Core types are ordered, and are equal, as the model's, and those that are the same there are hashed alike.
pub fn core_types_are_compared()
    ensures order { (a b : CoreKind) → ⟦<Type as Ord>⟧.cmp a b ≡ core_cmp (core_of a) (core_of b) }
    ensures equality { (a b : CoreKind) → ⟦<Type as PartialEq>⟧.eq a b ≡ core_eq (core_of a) (core_of b) }
    ensures hash { (a b : CoreKind) → core_of a ≡ core_of b → ⟦<Type as Hash>⟧.hash_input a ≡ ⟦<Type as Hash>⟧.hash_input b }
{}

/// Two sets are the same where the same values are their members.
pub fn sets_are_their_members<X: ExtensionValue>()
    ensures { SetsAreTheirMembers X.seen }
{}

/// Every value is canonical: the members of its sets and the names of its records rise, at every nesting.
pub fn values_are_canonical<X: ExtensionValue>()
    ensures { ValuesAreCanonical X.seen }
{}

/// Every value is in range, at every nesting: each whole number in it is one of 64 bits, each text and each name of a field is made of
/// characters, each uid is one, and each extension value has a name for its type and bytes for its key.
pub fn values_are_in_range<X: ExtensionValue>(value: &Value<X>)
    ensures { is_in_range (bare X.seen value.now) ≡ true }
{
    value.value_kind().is_in_range();
}

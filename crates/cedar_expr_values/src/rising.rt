//! Lists in the rising order of their elements.

ghost use Rattle.std.specs.Prelude.{◌≡◌, IfOk};
ghost use Rattle.std.specs.List.Sorted.{IsStrictlySortedBy};
ghost use Rattle.cedar_expr_values.specs.Rising.{in_rising, is_among, all_among, none_among};

use std::alloc::AllocError;
use std::cmp::Ordering;

// The elements in rising order. Of those between which the order finds no difference the first stands.
pub fn in_rising<T: Ord + Drop>(mut values: Vec<T>) -> Result<Vec<T>, AllocError>
    ensures { IfOk result (λ v. v.items ≡ in_rising T.cmp values.items) }
{
    values.sort()?;
    values.dedup();
    Ok(values)
}

// Whether the element stands among these.
pub fn is_among<T: Ord>(value: &T, values: &[T]) -> bool
    ensures { IsStrictlySortedBy T.cmp values.now → result ≡ is_among T.cmp value.now values.now }
{
    values.binary_search(value).is_ok()
}

// Whether each of the one stands among the others: a walk along both lists.
pub fn all_among<T: Ord>(mut left: &[T], mut right: &[T]) -> bool
    ensures { IsStrictlySortedBy T.cmp left.entry.now → result ≡ all_among T.cmp left.entry.now right.entry.now }
{
    while let Some((first, others)) = left.split_first() {
        let Some((second, more)) = right.split_first() else {
            return false;
        };
        match first.cmp(second) {
            Ordering::Less => return false,
            Ordering::Equal => {
                left = others;
                right = more;
            }
            Ordering::Greater => right = more,
        }
    }
    true
}

// Whether none of the one stands among the others: a walk along both lists.
pub fn none_among<T: Ord>(mut left: &[T], mut right: &[T]) -> bool
    ensures { IsStrictlySortedBy T.cmp left.entry.now → result ≡ none_among T.cmp left.entry.now right.entry.now }
{
    while let (Some((first, others)), Some((second, more))) = (
        left.split_first(),
        right.split_first(),
    ) {
        match first.cmp(second) {
            Ordering::Less => left = others,
            Ordering::Equal => return false,
            Ordering::Greater => right = more,
        }
    }
    true
}

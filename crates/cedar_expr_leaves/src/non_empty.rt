//! Lists that are not empty.

ghost use Rattle.std.specs.Prelude.{◌≡◌, []};

use std::alloc::Global;

/// A list of one or more: the first, and those after it.
#[derive(Debug, PartialEq, Eq, PartialOrd, Ord, Hash, Drop)]
pub struct NonEmpty<T> {
    /// The first.
    pub head: T,
    /// Those after it.
    pub tail: Vec<T>,
}

impl<T> NonEmpty<T> {
    /// The list of this one alone.
    pub fn singleton(alloc: Global, head: T) -> NonEmpty<T>
        ensures head { result.head ≡ head }
        ensures tail { result.tail.items ≡ [] }
    {
        NonEmpty {
            head,
            tail: Vec::new(alloc),
        }
    }
}

//! Lists in rising order, gone along side by side.

ghost use Rattle.std.specs.Prelude.{◌≡◌, ◌∷◌, [], IfOk, MatchOption};
ghost use Rattle.std.specs.List.{AllZip};
ghost use Rattle.cedar_typechecker_environments.specs.Merged.{merged, common, left_of_either, left_of_both};

use std::alloc::{AllocError, Global};
use std::cmp::Ordering;

// What is left of two lists.
#[derive(Drop)]
struct Both<'a, K> {
    left: &'a [K],
    right: &'a [K],
}

impl<'a, K: Ord> Both<'a, K> {
    // Takes the least key that either list has from both.
    fn next_of_either(&mut self) -> Option<&'a K>
        ensures { MatchOption result (left_of_either K.cmp self.old ≡ []) (λ k. left_of_either K.cmp self.old ≡ k.now ∷ left_of_either K.cmp self.new) }
    {
        let Some((first, others)) = self.left.split_first() else {
            let Some((second, more)) = self.right.split_first() else {
                return None;
            };
            self.right = more;
            return Some(second);
        };
        let Some((second, more)) = self.right.split_first() else {
            self.left = others;
            return Some(first);
        };
        match first.cmp(second) {
            Ordering::Less => {
                self.left = others;
                Some(first)
            }
            Ordering::Equal => {
                self.left = others;
                self.right = more;
                Some(first)
            }
            Ordering::Greater => {
                self.right = more;
                Some(second)
            }
        }
    }

    // Takes the least key that both lists have from both, and what is below it.
    fn next_of_both(&mut self) -> Option<&'a K>
        ensures { MatchOption result (left_of_both K.cmp self.old ≡ []) (λ k. left_of_both K.cmp self.old ≡ k.now ∷ left_of_both K.cmp self.new) }
    {
        while let Some((first, others)) = self.left.split_first() {
            let Some((second, more)) = self.right.split_first() else {
                return None;
            };
            match first.cmp(second) {
                Ordering::Less => self.left = others,
                Ordering::Equal => {
                    self.left = others;
                    self.right = more;
                    return Some(first);
                }
                Ordering::Greater => self.right = more,
            }
        }
        None
    }
}

// Copies of the keys that either list has, each once, in order.
pub(crate) fn copies_of_either<K: Ord + Clone + Drop>(
    alloc: Global,
    left: &[K],
    right: &[K],
) -> Result<Vec<K>, AllocError>
    ensures { IfOk result (λ v. AllZip K.is_clone (merged K.cmp left.now right.now) v.items) }
{
    let mut both = Both { left, right };
    let mut made = Vec::new(alloc);
    while let Some(key) = both.next_of_either() {
        made.push(key.clone()?)?;
    }
    Ok(made)
}

// Copies of the keys that both lists have, in order.
pub(crate) fn copies_of_both<K: Ord + Clone + Drop>(
    alloc: Global,
    left: &[K],
    right: &[K],
) -> Result<Vec<K>, AllocError>
    ensures { IfOk result (λ v. AllZip K.is_clone (common K.cmp left.now right.now) v.items) }
{
    let mut both = Both { left, right };
    let mut made = Vec::new(alloc);
    while let Some(key) = both.next_of_both() {
        made.push(key.clone()?)?;
    }
    Ok(made)
}

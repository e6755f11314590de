//! Patterns of texts.

ghost use Rattle.std.specs.Prelude.{◌≡◌, length, nat_eq, IfOk, Some};
ghost use Rattle.std.specs.Slice.Iter.{iter_rest};
ghost use Rattle.cedar_expr_model.specs.Pattern.{matches_text};
ghost use Rattle.cedar_expr_model.specs.Texts.{element_text, pattern_text};
ghost use Rattle.cedar_expr_leaves.specs.Patterns.{element_of, elements_of, pattern_of};

use crate::matching::is_matched;
use cedar_expr_names::Escaped;
use std::alloc::{AllocError, Global};
use std::fmt;
use std::fmt::{Display, Formatter, Write};
use std::rc::Rc;
use std::slice::Iter;

/// An element of a pattern. Characters come before wildcards, and stand in the order of their numbers.
#[derive(Debug, Clone, Copy, PartialEq, Eq, PartialOrd, Ord, Hash)]
pub enum PatternElem {
    /// This character.
    Char(char),

    /// Any characters, or none.
    Wildcard,
}

impl Display for PatternElem {
    ghost output = { λ e. Some (element_text (element_of e)) };

    fn fmt<W: Write>(&self, f: &mut Formatter<W>) -> fmt::Result {
        match self {
            PatternElem::Wildcard => f.write_str("*"),
            PatternElem::Char('*') => f.write_str("\\*"),
            PatternElem::Char(c) => Display::fmt(&Escaped::new(*c), f),
        }
    }
}

/// A pattern: characters and wildcards, one after another. Patterns are compared element by element.
#[derive(Debug, PartialEq, Eq, PartialOrd, Ord, Hash)]
pub struct Pattern {
    elems: Rc<Vec<PatternElem>>,
}

// prover: see ARCHITECTURE
impl Drop for Pattern {
    fn drop(self) {
        let Pattern { elems: _ } = self;
    }
}

impl Pattern {
    /// The pattern of these elements. Fails only when out of memory.
    pub fn new(alloc: Global, elems: Vec<PatternElem>) -> Result<Pattern, AllocError>
        ensures { IfOk result (λ p. pattern_of p ≡ elements_of elems.items) }
    {
        let elems = Rc::new(alloc, elems)?;
        Ok(Pattern { elems })
    }

    /// The pattern's elements, in order.
    pub fn get_elems(&self) -> &[PatternElem]
        ensures { elements_of result.now ≡ pattern_of self.now }
    {
        self.elems.as_slice()
    }

    /// Goes over the pattern's elements, in order.
    pub fn iter(&self) -> Iter<'_, PatternElem>
        ensures { elements_of (iter_rest result) ≡ pattern_of self.now }
    {
        self.elems.iter()
    }

    /// How many elements the pattern has.
    pub fn len(&self) -> usize
        ensures { result ≡ length (pattern_of self.now) }
    {
        self.elems.len()
    }

    /// Whether the pattern has no element.
    pub fn is_empty(&self) -> bool
        ensures { result ≡ nat_eq (length (pattern_of self.now)) 0 }
    {
        self.elems.is_empty()
    }

    /// Whether the pattern matches the whole text. Takes no memory, and for n characters and m elements at most n(m + 1) turns.
    pub fn wildcard_match(&self, text: &str) -> bool
        ensures { result ≡ matches_text (pattern_of self.now) text.now }
    {
        is_matched(self.elems.as_slice(), text)
    }
}

impl From<Rc<Vec<PatternElem>>> for Pattern {
    ghost from_gives = { λ elems p. pattern_of p ≡ elements_of elems.value.items };

    fn from(elems: Rc<Vec<PatternElem>>) -> Pattern {
        Pattern { elems }
    }
}

impl Clone for Pattern {
    ghost is_clone = { λ p copy. pattern_of copy ≡ pattern_of p };

    fn clone(&self) -> Result<Pattern, AllocError> {
        let elems = self.elems.clone()?;
        Ok(Pattern { elems })
    }
}

impl Display for Pattern {
    ghost output = { λ p. Some (pattern_text (pattern_of p)) };

    fn fmt<W: Write>(&self, f: &mut Formatter<W>) -> fmt::Result {
        for elem in self.elems.as_slice() {
            Display::fmt(elem, f)?;
        }
        Ok(())
    }
}

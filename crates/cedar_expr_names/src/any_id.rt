//! Identifiers and the words that an identifier may not be.

ghost use Rattle.std.specs.Prelude.{◌≡◌, true, IfOk, IfErr, Some};
ghost use Rattle.std.specs.Rc.{rc_str_bytes};
ghost use Rattle.cedar_expr_model.specs.Name.{is_word};

use crate::NameError;
use crate::id::is_word;
use std::alloc::{AllocError, Global};
use std::fmt;
use std::fmt::{Display, Formatter, Write};
use std::rc::RcStr;

/// An identifier or a word of the expression language: an ASCII letter or underscore, then letters, digits and underscores.
#[derive(Debug, PartialEq, Eq, PartialOrd, Ord, Hash)]
pub struct AnyId {
    text: RcStr,
    ghost is_a_word: { is_word (rc_str_bytes text) ≡ true },
}

// prover: see ARCHITECTURE
impl Drop for AnyId {
    fn drop(self) {
        let AnyId { text: _ } = self;
    }
}

impl AnyId {
    ghost use Rattle.cedar_expr_names.specs.Views.{any_id_text};
    ghost use Rattle.cedar_expr_names.specs.Refusals.{RefusesWord};

    /// Reads an identifier or such a word, which has to be the whole text. Refuses any other text, and fails when out of memory.
    pub fn from_normalized_str(alloc: Global, text: &str) -> Result<AnyId, NameError>
        ensures read { IfOk result (λ i. any_id_text i ≡ text.now) }
        ensures word { IfOk result (λ i. is_word text.now ≡ true) }
        ensures refused { IfErr result (λ e. RefusesWord text.now e) }
    {
        if !is_word(text) {
            return Err(NameError::NotNormalized);
        }
        let text = RcStr::from_str(alloc, text).map_err(|_| NameError::OutOfMemory)?;
        Ok(AnyId { text })
    }

    /// The identifier's text.
    pub fn as_str(&self) -> &str
        ensures value { result.now ≡ any_id_text self.now }
        ensures word { is_word result.now ≡ true }
    {
        self.text.as_str()
    }

    /// The identifier's text, without its copy.
    pub fn into_smolstr(self) -> RcStr
        ensures { rc_str_bytes result ≡ any_id_text self }
    {
        let AnyId { text } = self;
        text
    }
}

impl Clone for AnyId {
    ghost use Rattle.cedar_expr_names.specs.Views.{any_id_text};

    ghost is_clone = { λ i copy. any_id_text copy ≡ any_id_text i };

    fn clone(&self) -> Result<AnyId, AllocError> {
        let text = self.text.clone()?;
        Ok(AnyId { text })
    }
}

impl Display for AnyId {
    ghost use Rattle.cedar_expr_names.specs.Views.{any_id_text};

    ghost output = { λ i. Some (any_id_text i) };

    fn fmt<W: Write>(&self, f: &mut Formatter<W>) -> fmt::Result {
        Display::fmt(&self.text, f)
    }
}

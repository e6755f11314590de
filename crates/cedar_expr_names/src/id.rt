//! Identifiers.

ghost use Rattle.std.specs.Prelude.{◌≡◌, true, IfOk, IfErr, Some, codes};
ghost use Rattle.std.specs.List.{list_all, list_any};
ghost use Rattle.std.specs.Str.{bytes_eq};
ghost use Rattle.std.specs.Rc.{rc_str_bytes};
ghost use Rattle.cedar_expr_model.specs.Name.{is_identifier, is_word, keywords, starts_identifier, continues_identifier, reserved};

use crate::NameError;
use std::alloc::{AllocError, Global};
use std::fmt;
use std::fmt::{Display, Formatter, Write};
use std::rc::RcStr;

/// One identifier: an ASCII letter or underscore, then letters, digits and underscores, and no word of the expression language.
#[derive(Debug, PartialEq, Eq, PartialOrd, Ord, Hash)]
pub struct Id {
    text: RcStr,
    ghost identifies: { is_identifier (rc_str_bytes text) ≡ true },
}

// prover: see ARCHITECTURE
impl Drop for Id {
    fn drop(self) {
        let Id { text: _ } = self;
    }
}

impl Id {
    ghost use Rattle.cedar_expr_names.specs.Parts.{id_text};
    ghost use Rattle.cedar_expr_names.specs.Refusals.{RefusesIdentifier};

    /// Reads an identifier, which has to be the whole text. Refuses any other text, and fails when out of memory.
    pub fn from_normalized_str(alloc: Global, text: &str) -> Result<Id, NameError>
        ensures read { IfOk result (λ i. id_text i ≡ text.now) }
        ensures identifies { IfOk result (λ i. is_identifier text.now ≡ true) }
        ensures refused { IfErr result (λ e. RefusesIdentifier text.now e) }
    {
        if !is_normalized_ident(text) {
            return Err(NameError::NotNormalized);
        }
        let text = RcStr::from_str(alloc, text).map_err(|_| NameError::OutOfMemory)?;
        Ok(Id { text })
    }

    // The identifier of this text, which is one. Fails only when out of memory.
    pub(crate) fn of_text(alloc: Global, text: &str) -> Result<Id, AllocError>
        requires { is_identifier text.now ≡ true }
        ensures { IfOk result (λ i. id_text i ≡ text.now) }
    {
        let text = RcStr::from_str(alloc, text)?;
        Ok(Id { text })
    }

    // The reserved identifier `__cedar`. Fails only when out of memory.
    pub(crate) fn reserved_id(alloc: Global) -> Result<Id, AllocError>
        ensures { IfOk result (λ i. id_text i ≡ reserved) }
    {
        let text = RcStr::from_str(alloc, "__cedar")?;
        Ok(Id { text })
    }

    /// Whether this is the same identifier as the other: what `==` answers, which doesn't look at places.
    pub fn same(&self, other: &Id) -> bool
        ensures { result ≡ bytes_eq (id_text self.now) (id_text other.now) }
    {
        self == other
    }

    /// The identifier's text.
    pub fn as_str(&self) -> &str
        ensures value { result.now ≡ id_text self.now }
        ensures identifies { is_identifier result.now ≡ true }
    {
        self.text.as_str()
    }

    /// The identifier's text, without its copy.
    pub fn into_smolstr(self) -> RcStr
        ensures { rc_str_bytes result ≡ id_text self }
    {
        let Id { text } = self;
        text
    }

    /// Whether this is the reserved identifier `__cedar`.
    pub fn is_reserved(&self) -> bool
        ensures { result ≡ bytes_eq reserved (id_text self.now) }
    {
        "__cedar" == self.text.as_str()
    }
}

impl Clone for Id {
    ghost use Rattle.cedar_expr_names.specs.Parts.{id_text};

    ghost is_clone = { λ i copy. id_text copy ≡ id_text i };

    fn clone(&self) -> Result<Id, AllocError> {
        let text = self.text.clone()?;
        Ok(Id { text })
    }
}

impl Display for Id {
    ghost use Rattle.cedar_expr_names.specs.Parts.{id_text};

    ghost output = { λ i. Some (id_text i) };

    fn fmt<W: Write>(&self, f: &mut Formatter<W>) -> fmt::Result {
        Display::fmt(&self.text, f)
    }
}

/// Whether the text is an identifier: a letter or underscore, then letters, digits and underscores, and no keyword.
pub fn is_normalized_ident(text: &str) -> bool
    ensures { result ≡ is_identifier text.now }
{
    is_word(text) && !is_keyword(text)
}

// Whether the text is letters, digits and underscores, with no digit first.
pub(crate) fn is_word(text: &str) -> bool
    ensures { result ≡ is_word text.now }
{
    match text.as_bytes() {
        [] => false,
        [first, rest @ ..] => starts_identifier(*first) && all_continue(rest),
    }
}

// Whether these bytes may follow in an identifier.
fn all_continue(bytes: &[u8]) -> bool
    ensures { result ≡ list_all continues_identifier bytes.now }
{
    bytes.iter().all(|b| continues_identifier(*b))
}

// Whether the text is a word of the expression language.
fn is_keyword(text: &str) -> bool
    ensures { result ≡ list_any (bytes_eq text.now) keywords }
{
    matches!(
        text,
        "true" | "false" | "if" | "then" | "else" | "in" | "is" | "like" | "has"
    )
}

// Whether an identifier may begin with this byte.
fn starts_identifier(b: u8) -> bool
    ensures { result ≡ starts_identifier b }
{
    b.is_ascii_alphabetic() || b == b'_'
}

// Whether this byte may follow in an identifier.
fn continues_identifier(b: u8) -> bool
    ensures { result ≡ continues_identifier b }
{
    starts_identifier(b) || b.is_ascii_digit()
}

//! Texts in double quotes.

ghost use Rattle.std.specs.Prelude.{◌≡◌, Some};
ghost use Rattle.cedar_expr_model.specs.Uid.{escaped, quoted};
ghost use Rattle.cedar_expr_names.specs.Views.{quoted_text, escaped_char};

use std::fmt;
use std::fmt::{Display, Formatter, Write};

/// A text that is shown in double quotes, escaped: printable ASCII stands as it is, but the double quote and the backslash
/// have a backslash before them; any other character is its number, in lower-case hexadecimal, in `\u{..}`.
#[derive(Debug, Clone, Copy, Drop)]
pub struct Quoted<'a>(&'a str);

impl<'a> Quoted<'a> {
    /// This text, to be shown in quotes.
    pub fn new(text: &'a str) -> Quoted<'a>
        ensures { quoted_text result ≡ text.now }
    {
        Quoted(text)
    }
}

impl<'a> Display for Quoted<'a> {
    ghost output = { λ q. Some (quoted (quoted_text q)) };

    fn fmt<W: Write>(&self, f: &mut Formatter<W>) -> fmt::Result {
        write!(f, "\"")?;
        for c in self.0.chars() {
            write!(f, "{}", Escaped::new(c))?;
        }
        write!(f, "\"")
    }
}

/// A character that is shown as it stands in a quoted text.
#[derive(Debug, Clone, Copy, Drop)]
pub struct Escaped(char);

impl Escaped {
    /// This character, to be shown as in quotes.
    pub fn new(c: char) -> Escaped
        ensures { escaped_char result ≡ c }
    {
        Escaped(c)
    }
}

impl Display for Escaped {
    ghost output = { λ e. Some (escaped (escaped_char e)) };

    fn fmt<W: Write>(&self, f: &mut Formatter<W>) -> fmt::Result {
        match self.0 {
            '"' => write!(f, "\\\""),
            '\\' => write!(f, "\\\\"),
            ' '..='~' => write!(f, "{}", self.0),
            c => write!(f, "\\u{{{:x}}}", c as u32),
        }
    }
}

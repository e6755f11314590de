//! Numbers of ranks, from arguments.

ghost use Rattle.std.specs.Prelude.{◌≡◌};
ghost use Rattle.std.specs.Char.{is_ascii_digit};
ghost use Rattle.std.specs.List.{list_all};
ghost use Rattle.cedargate_functions.specs.Ranks.{writes_rank, rank_read, number_read, number_kept, kept_in};
ghost use Rattle.cedargate_functions.specs.Outcomes.{made_values};

use crate::functions::V;
use cedar_expr_values::{ExtValue, Literal, ValueKind};

// The number that the only argument writes, which is a text of one to four digits.
pub fn number_read(args: &[V]) -> Option<u16>
    ensures { result ≡ number_read (made_values args.now) }
{
    match args {
        [arg] => match arg.value_kind() {
            ValueKind::Lit(Literal::String(text)) => rank_read(text.as_str()),
            _ => None,
        },
        _ => None,
    }
}

// The number in the key of the only argument, which is an extension value with a key of two bytes.
pub fn number_kept(args: &[V]) -> Option<u16>
    ensures { result ≡ number_kept (made_values args.now) }
{
    match args {
        [arg] => match arg.value_kind() {
            ValueKind::ExtensionValue(rank) => kept_in(rank.key()),
            _ => None,
        },
        _ => None,
    }
}

// The number in a key of two bytes, the higher first.
fn kept_in(key: &[u8]) -> Option<u16>
    ensures { result ≡ kept_in key.now }
{
    match key {
        [high, low] => Some(u16::from(*high) * 256 + u16::from(*low)),
        _ => None,
    }
}

// The number that a text of one to four digits writes.
fn rank_read(text: &str) -> Option<u16>
    ensures { result ≡ rank_read text.now }
{
    if !writes_rank(text) {
        return None;
    }
    match text.parse::<u16>() {
        Ok(number) => Some(number),
        Err(_) => None,
    }
}

// Whether the text is one to four digits.
fn writes_rank(text: &str) -> bool
    ensures { result ≡ writes_rank text.now }
{
    if text.is_empty() {
        return false;
    }
    if 4 < text.len() {
        return false;
    }
    are_digits(text.as_bytes())
}

// Whether each byte is a digit.
fn are_digits(bytes: &[u8]) -> bool
    ensures { result ≡ list_all is_ascii_digit bytes.now }
{
    bytes.iter().all(|b| b.is_ascii_digit())
}

//! The order of texts, byte by byte. Names and ids are mostly short: going along their bytes then costs less than reading words of them.

ghost use Rattle.std.specs.Prelude.{◌≡◌};
ghost use Rattle.std.specs.Ordering.{nat_cmp};
ghost use Rattle.std.specs.Str.{bytes_eq};
ghost use Rattle.std.specs.Cmp.Lexicographic.{slice_cmp};

use std::cmp::Ordering;

// The longest text of which the bytes are compared one by one.
const SHORT: usize = 16;

/// The order of two texts: what `cmp` answers.
pub fn text_order(a: &str, b: &str) -> Ordering
    ensures { result ≡ slice_cmp nat_cmp a.now b.now }
{
    if a.len() > SHORT {
        return a.cmp(b);
    }
    byte_order(a.as_bytes(), b.as_bytes())
}

/// Whether two texts are the same: what `==` answers.
pub fn text_eq(a: &str, b: &str) -> bool
    ensures { result ≡ bytes_eq a.now b.now }
{
    if a.len() != b.len() || a.len() > SHORT {
        return a == b;
    }
    byte_order(a.as_bytes(), b.as_bytes()).is_eq()
}

// The order of these bytes and those, one after the other.
fn byte_order(a: &[u8], b: &[u8]) -> Ordering
    ensures { result ≡ slice_cmp nat_cmp a.now b.now }
{
    for i in 0..a.len() {
        if i >= b.len() {
            return Ordering::Greater;
        }
        let (x, y) = (a[i], b[i]);
        if x != y {
            return x.cmp(&y);
        }
    }
    if a.len() < b.len() {
        Ordering::Less
    } else {
        Ordering::Equal
    }
}

//! Expressions as texts.

use crate::constants::{binary, constant, unary};
use crate::naming::{placed, word};
use crate::nodes::{call, has, is, like, record, set};
use crate::one;
use crate::stack::{the_one, two};
use cedar_expr_trees::Expr;
use std::alloc::{AllocError, Global};

/// The expression that the text writes: words with a space between two of them, the operands before their operator. `1 2 + 3 <` is
/// `1 + 2 < 3`. The words:
/// - `true`, `-5`, `"text` (without a space), `User::a`; `principal` and the other variables; `?principal`; `$t`, `$t:Bool`
///   and `$t:User`, unknowns
/// - `!`, `neg`, `isEmpty`; `==`, `<`, `<=`, `+`, `-`, `*`, `in`, `contains`, `containsAll`, `containsAny`, `getTag`, `hasTag`;
///   `&&`, `||`, `if`
/// - `.owner`, an attribute; `has=owner.boss`; `like=a*b`; `is=User`
/// - `set=2`, a set of the last two; `record=a,b`, a record of the last two; `call=f/2`, a call with the last two
///
/// Behind a word may stand the place of what it makes: `1@4` is the number 1 at the place that begins and ends at 4.
///
/// Fails where the text writes no expression, and when out of memory.
pub fn expr(alloc: Global, text: &str) -> Result<Expr, AllocError> {
    let mut made = Vec::new(alloc);
    for word in text.split(' ') {
        let (word, place) = placed(word);
        let next = of_word(alloc, &mut made, word)?;
        made.push(next.with_maybe_source_loc(place))?;
    }
    the_one(made)
}

// The expression that the word makes of the last ones.
fn of_word(alloc: Global, made: &mut Vec<Expr>, text: &str) -> Result<Expr, AllocError> {
    if let Some(op) = unary(text) {
        return Expr::unary_app(alloc, op, one(made)?);
    }
    if let Some(op) = binary(text) {
        let (first, second) = two(made)?;
        return Expr::binary_app(alloc, op, first, second);
    }
    if let Some(attr) = text.strip_prefix(".") {
        let attr = word(alloc, attr)?;
        return Expr::get_attr(alloc, one(made)?, attr);
    }
    match text {
        "&&" | "||" | "if" => joined(alloc, made, text),
        _ => of_parts(alloc, made, text),
    }
}

// The conjunction, the disjunction or the choice of the last ones.
fn joined(alloc: Global, made: &mut Vec<Expr>, text: &str) -> Result<Expr, AllocError> {
    let (first, second) = two(made)?;
    match text {
        "&&" => Expr::and(alloc, first, second),
        "||" => Expr::or(alloc, first, second),
        _ => Expr::ite(alloc, one(made)?, first, second),
    }
}

// The expression of a word that has `=` between its kind and the rest; of any other word a constant.
fn of_parts(alloc: Global, made: &mut Vec<Expr>, text: &str) -> Result<Expr, AllocError> {
    match text.split_once('=') {
        Some(("has", rest)) => has(alloc, made, rest),
        Some(("like", rest)) => like(alloc, made, rest),
        Some(("is", rest)) => is(alloc, made, rest),
        Some(("set", rest)) => set(alloc, made, rest),
        Some(("record", rest)) => record(alloc, made, rest),
        Some(("call", rest)) => call(alloc, made, rest),
        _ => constant(alloc, text),
    }
}

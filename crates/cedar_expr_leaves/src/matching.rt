//! Whether a text matches a pattern: one walk along both, which goes back to the last wildcard where it has to.

ghost use Rattle.std.specs.Prelude.{◌≡◌, ◌∷◌, [], MatchOption};
ghost use Rattle.std.specs.Str.{chars};
ghost use Rattle.cedar_expr_model.specs.Pattern.{matches_text};
ghost use Rattle.cedar_expr_leaves.specs.Patterns.{elements_of};
ghost use Rattle.cedar_expr_leaves.specs.Turns.{IsTurn, AdvancesTo};

use crate::PatternElem;

// What follows a wildcard, and the text at which that was tried last.
#[derive(Clone, Copy)]
pub struct Retry<'a> {
    pub elems: &'a [PatternElem],
    pub from: &'a str,
}

// What the first element of a pattern does with a character.
#[derive(Clone, Copy)]
pub enum Turn<'a> {
    // It is this character, and these elements follow.
    Takes(&'a [PatternElem]),
    // It is a wildcard, and these elements follow.
    Skips(&'a [PatternElem]),
    // It is another character, or there is none.
    Fails,
}

// Whether these elements match the whole text.
pub fn is_matched(pattern: &[PatternElem], text: &str) -> bool
    ensures { result ≡ matches_text (elements_of pattern.now) text.now }
{
    let mut elems = pattern;
    let mut rest = text;
    let mut retry: Option<Retry<'_>> = None;
    while let Some((c, after)) = split_char(rest) {
        match turn_of(elems, c) {
            Turn::Takes(others) => {
                elems = others;
                rest = after;
            }
            Turn::Skips(others) => {
                elems = others;
                retry = Some(Retry {
                    elems: others,
                    from: rest,
                });
            }
            Turn::Fails => {
                let Some(next) = advanced(retry) else {
                    return false;
                };
                elems = next.elems;
                rest = next.from;
                retry = Some(next);
            }
        }
    }
    elems
        .iter()
        .all(|elem| matches!(elem, PatternElem::Wildcard))
}

// The retry one character later, if there is one.
fn advanced<'a>(retry: Option<Retry<'a>>) -> Option<Retry<'a>>
    ensures { AdvancesTo retry.entry result }
{
    let retry = retry?;
    let (_, from) = split_char(retry.from)?;
    Some(Retry {
        elems: retry.elems,
        from,
    })
}

// What the first element does with this character.
fn turn_of<'a>(elems: &'a [PatternElem], c: char) -> Turn<'a>
    ensures { IsTurn elems.entry.now c result }
{
    match elems {
        [PatternElem::Wildcard, others @ ..] => Turn::Skips(others),
        [PatternElem::Char(d), others @ ..] if *d == c => Turn::Takes(others),
        [PatternElem::Char(_), ..] | [] => Turn::Fails,
    }
}

// The first character of a text and the text after it, if there is one.
fn split_char(text: &str) -> Option<(char, &str)>
    ensures { MatchOption result (chars text.now ≡ []) (λ x. chars text.now ≡ x.0 ∷ chars x.1.now) }
{
    let mut rest = text.chars();
    let first = rest.next()?;
    Some((first, rest.as_str()))
}

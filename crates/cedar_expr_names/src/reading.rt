//! Names as texts: their parts, one after another.

ghost use Rattle.std.specs.Prelude.{◌≡◌, ◌++◌, [], ◌∷◌, map, length, true, IfOk, IfErr, MatchOption, ◌<◌, string_bytes};
ghost use Rattle.std.specs.List.{list_any};
ghost use Rattle.std.specs.Str.{bytes_eq};
ghost use Rattle.std.specs.Rc.{rc_str_bytes};
ghost use Rattle.cedar_expr_model.specs.Name.{is_identifier, joined, parts, reserved};
ghost use Rattle.cedar_expr_names.specs.Ids.{id_text};
ghost use Rattle.cedar_expr_names.specs.Refusals.{RefusesIdentifier};

use crate::{Id, NameError};
use std::alloc::{AllocError, Global};
use std::rc::RcStr;

// The text of a name: each part and the double colon that ends it, and then the base.
pub fn joined_text(alloc: Global, path: &[Id], base: &Id) -> Result<String, AllocError>
    ensures { IfOk result (λ t. string_bytes t ≡ joined (map id_text path.now) (id_text base.now)) }
{
    let mut text = String::new(alloc);
    for part in path {
        text.push_str(part.as_str())?;
        text.push_str("::")?;
    }
    text.push_str(base.as_str())?;
    Ok(text)
}

// The text of a name, to be kept. A name without a path shares its base's.
pub fn kept_text(alloc: Global, path: &[Id], base: &Id) -> Result<RcStr, AllocError>
    ensures { IfOk result (λ t. rc_str_bytes t ≡ joined (map id_text path.now) (id_text base.now)) }
{
    match path {
        [] => Ok(base.clone()?.into_smolstr()),
        [_, ..] => Ok(RcStr::from_string(joined_text(alloc, path, base)?)?),
    }
}

// These identifiers and the one that the text is.
pub fn read_part(alloc: Global, mut path: Vec<Id>, text: &str) -> Result<Vec<Id>, NameError>
    ensures read { IfOk result (λ p. map id_text p.items ≡ map id_text path.items ++ text.now ∷ []) }
    ensures identifies { IfOk result (λ p. is_identifier text.now ≡ true) }
    ensures refused { IfErr result (λ e. RefusesIdentifier text.now e) }
{
    let part = Id::from_normalized_str(alloc, text)?;
    path.push(part).map_err(|_| NameError::OutOfMemory)?;
    Ok(path)
}

// Copies of these identifiers, and then of the last.
pub fn copied_parts(alloc: Global, path: &[Id], last: &Id) -> Result<Vec<Id>, AllocError>
    ensures { IfOk result (λ p. map id_text p.items ≡ map id_text path.now ++ id_text last.now ∷ []) }
{
    let mut parts = Vec::new(alloc);
    for part in path {
        parts.push(part.clone()?)?;
    }
    parts.push(last.clone()?)?;
    Ok(parts)
}

// Whether one of these is the reserved identifier.
pub fn any_reserved(parts: &[Id]) -> bool
    ensures { result ≡ list_any (bytes_eq reserved) (map id_text parts.now) }
{
    parts.iter().any(|part| part.is_reserved())
}

// The text before the first double colon and the text after it, if there is one.
pub fn split_part(text: &str) -> Option<(&str, &str)>
    ensures first { MatchOption result (parts text.now ≡ text.now ∷ []) (λ x. parts text.now ≡ x.0.now ∷ parts x.1.now) }
    ensures less { MatchOption result (Unit {0}) (λ x. length x.1.now < length text.now) }
{
    text.split_once("::")
}

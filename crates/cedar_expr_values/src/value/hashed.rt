//! The literals of a set, hashed.

ghost use Rattle.std.specs.Prelude.{◌≡◌, map, IfOk};
ghost use Rattle.cedar_expr_model.specs.Made.{bares};
ghost use Rattle.cedar_expr_values.specs.Values.{made, made_list};
ghost use Rattle.cedar_expr_values.specs.Hashed.{all_literals, HoldsThose, HashedRight};

use super::keyed::Keyed;
use super::{Value, ValueKind};
use crate::extension::ExtensionValue;
use cedar_expr_leaves::Literal;
use std::alloc::{AllocError, Global};
use std::collections::HashSet;
use std::hash::{DefaultHasher, Hash};

// How many literals need no key of their own.
const FEW: usize = 8;

// The literals that these values are, hashed, where each is one. Fails only when out of memory.
pub(super) fn hashed<X: ExtensionValue>(
    alloc: Global,
    values: &[Value<X>],
) -> Result<Option<HashSet<Literal, Keyed>>, AllocError>
    ensures { IfOk result (HashedRight X.seen values.now) }
{
    if !are_literals(values) {
        return Ok(None);
    }
    let literals = literals_among(alloc, values)?;
    Ok(Some(literals))
}

// Whether each of these values is a literal.
fn are_literals<X: ExtensionValue>(values: &[Value<X>]) -> bool
    ensures { result ≡ all_literals (bares (made_list (map (made X.seen) values.now))) }
{
    for value in values {
        let ValueKind::Lit(_) = &value.kind else {
            return false;
        };
    }
    true
}

// The literals among these values, hashed. Fails only when out of memory.
fn literals_among<X: ExtensionValue>(
    alloc: Global,
    values: &[Value<X>],
) -> Result<HashSet<Literal, Keyed>, AllocError>
    ensures { IfOk result (λ h. HoldsThose X.seen h values.now) }
{
    let mut literals = HashSet::with_capacity_and_hasher(alloc, values.len(), key_of(values))?;
    for value in values {
        let ValueKind::Lit(literal) = &value.kind else {
            continue;
        };
        literals.insert(literal.clone()?)?;
    }
    Ok(literals)
}

// The key that the literals among these values come to. A few need none: it costs little if all of them meet in the table.
fn key_of<X: ExtensionValue>(values: &[Value<X>]) -> Keyed {
    let mut hasher = DefaultHasher::new();
    if values.len() > FEW {
        for value in values {
            if let ValueKind::Lit(literal) = &value.kind {
                literal.hash(&mut hasher);
            }
        }
    }
    Keyed::by(&hasher)
}

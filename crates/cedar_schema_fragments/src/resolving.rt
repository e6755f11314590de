//! What stands in the place of each of several parts of a declaration.

ghost use Rattle.std.specs.Prelude.{◌≡◌, map, IfOk, IfErr};
ghost use Rattle.std.specs.declared.result.Result.{Result};
ghost use Rattle.std.specs.declared.result.Result.TheVariants.{Ok};
ghost use Rattle.cedar_schema_decl.specs.Requalified.{each};
ghost use Rattle.cedar_schema_fragments.specs.Refusals.{Refusal, Refuses};

use crate::err::FragmentError;
use std::alloc::Global;

/// Gives a part of one form in the place of each part of another.
pub trait Resolve {
    /// The parts of the first form.
    type From: Drop;

    /// The parts of the second form.
    type To: Drop;

    /// What the parts are, and what stands in the place of one.
    ghost Before: { Type 0 };

    ghost After: { Type 0 };

    ghost before: { Self.From → Before };

    ghost after: { Self.To → After };

    ghost resolves: { Self → Before → Result After Refusal };

    /// The part in the place of this one. Refuses a part in the place of which there is none, and fails when out of memory.
    fn resolve(&self, alloc: Global, part: Self::From) -> Result<Self::To, FragmentError>
        ensures made { IfOk result (λ r. resolves self.now (before part) ≡ Ok (after r)) }
        ensures refused { IfErr result (Refuses (resolves self.now (before part))) };
}

/// What stands in the place of these parts, in order. Refuses the first in the place of which there is none, and fails when out
/// of memory.
pub fn resolve_each<R: Resolve>(
    alloc: Global,
    parts: Vec<R::From>,
    names: &R,
) -> Result<Vec<R::To>, FragmentError>
    ensures made { IfOk result (λ r. each (R.resolves names.now) (map R.before parts.items) ≡ Ok (map R.after r.items)) }
    ensures refused { IfErr result (Refuses (each (R.resolves names.now) (map R.before parts.items))) }
{
    let mut made = Vec::with_capacity(alloc, parts.len())?;
    for part in parts {
        made.push(names.resolve(alloc, part)?)?;
    }
    Ok(made)
}

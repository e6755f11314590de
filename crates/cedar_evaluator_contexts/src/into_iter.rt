//! Iterators over the fields of contexts.

ghost use Rattle.std.specs.Prelude.{◌≡◌, IfOk, Some};
ghost use Rattle.cedar_evaluator_restricted_exprs.specs.Read.{fields_read};
ghost use Rattle.cedar_evaluator_restricted_exprs.specs.Views.{borrowed_of, restricted_pair};

use cedar_evaluator_restricted_exprs::{BorrowedRestrictedExpr, RestrictedExpr};
use std::alloc::{AllocError, Global};
use std::fmt::{Debug, Formatter, Write};
use std::rc::RcStr;
use std::{fmt, vec};

/// Goes over the names of a context's fields, in their order, with what stands under each. `next` takes no memory.
#[derive(Drop)]
pub struct IntoIter {
    pairs: vec::IntoIter<(RcStr, RestrictedExpr)>,
}

impl IntoIter {
    ghost use Rattle.std.specs.Prelude.{unwrap_or, []};
    ghost use Rattle.cedar_evaluator_contexts.specs.Views.{pairs_left};

    // The fields of a record.
    pub(crate) fn new(
        alloc: Global,
        expr: BorrowedRestrictedExpr<'_>,
    ) -> Result<IntoIter, AllocError>
        ensures { IfOk result (λ i. pairs_left i ≡ unwrap_or (fields_read (borrowed_of expr.entry)) []) }
    {
        let mut pairs = Vec::new(alloc);
        if let Some(fields) = expr.as_record_pairs() {
            for (name, field) in fields {
                pairs.push((name.clone()?, field.to_owned()?))?;
            }
        }
        Ok(IntoIter {
            pairs: pairs.into_iter(),
        })
    }
}

impl Iterator for IntoIter {
    type Item = (RcStr, RestrictedExpr);

    ghost use Rattle.std.specs.Iterator.{YieldsFirstBy, item_count};
    ghost use Rattle.cedar_evaluator_contexts.specs.Views.{pairs_left};

    ghost next_gives = { YieldsFirstBy restricted_pair pairs_left };

    ghost remaining = { item_count pairs_left };

    fn next(&mut self) -> Option<(RcStr, RestrictedExpr)> {
        self.pairs.next()
    }
}

impl Debug for IntoIter {
    fn fmt<W: Write>(&self, f: &mut Formatter<W>) -> fmt::Result {
        f.write_str("IntoIter(<context>)")
    }
}

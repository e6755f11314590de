//! Iterators over what stands in a restricted expression.

ghost use Rattle.std.specs.Prelude.{◌≡◌, true, map};
ghost use Rattle.std.specs.Map.{values_of};
ghost use Rattle.std.specs.Slice.Iter.{iter_rest};
ghost use Rattle.cedar_expr_trees.specs.Trees.{tree_of};
ghost use Rattle.cedar_evaluator_restricted_exprs.specs.Read.{are_restricted};

use crate::borrowed::BorrowedRestrictedExpr;
use cedar_expr_trees::Expr;
use std::collections::btree_map;
use std::rc::RcStr;
use std::slice;

/// Goes over the members of a set or the arguments of a call, in order. `next` takes no memory.
#[derive(Drop)]
pub struct RestrictedElements<'a> {
    exprs: slice::Iter<'a, Expr>,
    ghost restricted: { are_restricted (map tree_of (iter_rest exprs)) ≡ true },
}

impl<'a> RestrictedElements<'a> {
    ghost use Rattle.cedar_evaluator_restricted_exprs.specs.Views.{elements_left};

    // All of these.
    pub(crate) fn new(exprs: &'a [Expr]) -> RestrictedElements<'a>
        requires { are_restricted (map tree_of exprs.now) ≡ true }
        ensures { elements_left result ≡ map tree_of exprs.entry.now }
    {
        RestrictedElements {
            exprs: exprs.iter(),
        }
    }
}

impl<'a> Iterator for RestrictedElements<'a> {
    type Item = BorrowedRestrictedExpr<'a>;

    ghost use Rattle.std.specs.Iterator.{YieldsFirstBy, item_count};
    ghost use Rattle.cedar_evaluator_restricted_exprs.specs.Views.{borrowed_of, elements_left};

    ghost next_gives = { YieldsFirstBy borrowed_of elements_left };

    ghost remaining = { item_count elements_left };

    #[tactic(auto, using(crate::proofs::Parted::apart))]
    fn next(&mut self) -> Option<BorrowedRestrictedExpr<'a>> {
        match self.exprs.next() {
            Some(expr) => Some(BorrowedRestrictedExpr::new_unchecked(expr)),
            None => None,
        }
    }
}

/// Goes over the fields of a record, in the order of their names. `next` takes no memory.
#[derive(Drop)]
pub struct RestrictedPairs<'a> {
    fields: btree_map::Iter<'a, RcStr, Expr>,
    ghost restricted: { are_restricted (map tree_of (values_of fields)) ≡ true },
}

impl<'a> RestrictedPairs<'a> {
    ghost use Rattle.cedar_expr_trees.specs.Trees.{named, field_trees};
    ghost use Rattle.cedar_evaluator_restricted_exprs.specs.Views.{pairs_left};

    // All of these.
    pub(crate) fn new(fields: btree_map::Iter<'a, RcStr, Expr>) -> RestrictedPairs<'a>
        requires { are_restricted (map tree_of (values_of fields)) ≡ true }
        ensures { pairs_left result ≡ named (field_trees fields.entry) }
    {
        RestrictedPairs { fields }
    }
}

impl<'a> Iterator for RestrictedPairs<'a> {
    type Item = (&'a RcStr, BorrowedRestrictedExpr<'a>);

    ghost use Rattle.std.specs.Iterator.{YieldsFirstBy, item_count};
    ghost use Rattle.std.specs.Rc.{rc_str_bytes};
    ghost use Rattle.cedar_evaluator_restricted_exprs.specs.Views.{borrowed_of, pairs_left};

    ghost next_gives = { YieldsFirstBy (λ p. (rc_str_bytes p.0.now, borrowed_of p.1)) pairs_left };

    ghost remaining = { item_count pairs_left };

    #[tactic(auto, using(crate::proofs::Parted::apart))]
    fn next(&mut self) -> Option<(&'a RcStr, BorrowedRestrictedExpr<'a>)> {
        match self.fields.next() {
            Some((name, expr)) => Some((name, BorrowedRestrictedExpr::new_unchecked(expr))),
            None => None,
        }
    }
}

//! Restricted expressions.

ghost use Rattle.std.specs.Prelude.{◌≡◌, true};
ghost use Rattle.cedar_expr_model.specs.Restricted.{is_restricted};
ghost use Rattle.cedar_expr_trees.specs.Trees.{tree_of};

use crate::borrowed::BorrowedRestrictedExpr;
use crate::check::refuse_unrestricted;
use crate::parts::{RestrictedElements, RestrictedPairs};
use cedar_evaluator_errors::RestrictedExpressionError;
use cedar_expr_names::{EntityUID, Loc, Name};
use cedar_expr_trees::{Expr, Unknown};
use std::alloc::{AllocError, Global};
use std::convert::AsRef;
use std::ops::Deref;
use std::rc::RcStr;

/// A restricted expression: a literal, an unknown, or a call, a set or a record of such expressions.
#[derive(Debug, PartialEq, Eq, Hash)]
pub struct RestrictedExpr {
    expr: Expr,
    ghost restricted: { is_restricted (tree_of expr) ≡ true },
}

// prover: see ARCHITECTURE
impl Drop for RestrictedExpr {
    fn drop(self) {
        let RestrictedExpr { expr: _ } = self;
    }
}

impl RestrictedExpr {
    ghost use Rattle.std.specs.Prelude.{IfOk, IfErr, option_map, option_and_then};
    ghost use Rattle.std.specs.Rc.{rc_str_bytes};
    ghost use Rattle.cedar_expr_model.specs.Parts.{unknown_here};
    ghost use Rattle.cedar_expr_names.specs.Views.{uid_of, plain_name_of};
    ghost use Rattle.cedar_expr_trees.specs.Trees.{place_of};
    ghost use Rattle.cedar_expr_trees.specs.Unknowns.{unknown_of};
    ghost use Rattle.cedar_evaluator_restricted_exprs.specs.Read.{literal_read, truth_held, long_held, text_held, uid_held, members_read, fields_read, call_read};
    ghost use Rattle.cedar_evaluator_restricted_exprs.specs.Refused.{Refuses};
    ghost use Rattle.cedar_evaluator_restricted_exprs.specs.Views.{borrowed_of, borrowed_place, restricted_of, restricted_place, elements_left, pairs_left};

    /// The restricted expression that this one is.
    ///
    /// # Errors
    /// `InvalidRestrictedExpression` with the first part that mustn't stand in a restricted expression, a node before its children and
    /// children in order, and what it is; `OutOfMemory`.
    pub fn new(alloc: Global, expr: Expr) -> Result<RestrictedExpr, RestrictedExpressionError>
        ensures tree { IfOk result (λ r. restricted_of r ≡ tree_of expr) }
        ensures place { IfOk result (λ r. restricted_place r ≡ place_of expr) }
        ensures refused { IfErr result (Refuses (tree_of expr)) }
    {
        refuse_unrestricted(alloc, &expr)?;
        Ok(RestrictedExpr { expr })
    }

    /// The restricted expression that this one is, which isn't asked again.
    pub fn new_unchecked(expr: Expr) -> RestrictedExpr
        requires { is_restricted (tree_of expr) ≡ true }
        ensures tree { restricted_of result ≡ tree_of expr }
        ensures place { restricted_place result ≡ place_of expr }
    {
        RestrictedExpr { expr }
    }

    /// The expression, without a copy.
    pub fn into_expr(self) -> Expr
        ensures tree { tree_of result ≡ restricted_of self }
        ensures restricted { is_restricted (tree_of result) ≡ true }
        ensures place { place_of result ≡ restricted_place self }
    {
        let RestrictedExpr { expr } = self;
        expr
    }

    /// The expression at this place, or without one.
    pub fn with_maybe_source_loc(self, source_loc: Option<Loc>) -> RestrictedExpr
        ensures tree { restricted_of result ≡ restricted_of self }
        ensures place { restricted_place result ≡ source_loc }
    {
        let expr = self.into_expr().with_maybe_source_loc(source_loc);
        RestrictedExpr { expr }
    }

    /// The expression, borrowed.
    pub fn as_borrowed(&self) -> BorrowedRestrictedExpr<'_>
        ensures tree { borrowed_of result ≡ restricted_of self.entry.now }
        ensures place { borrowed_place result ≡ restricted_place self.entry.now }
    {
        BorrowedRestrictedExpr::new_unchecked(&self.expr)
    }

    /// The truth value, where the expression is one.
    pub fn as_bool(&self) -> Option<bool>
        ensures { result ≡ option_and_then truth_held (literal_read (restricted_of self.now)) }
    {
        self.as_borrowed().as_bool()
    }

    /// The whole number, where the expression is one.
    pub fn as_long(&self) -> Option<i64>
        ensures { result ≡ option_and_then long_held (literal_read (restricted_of self.now)) }
    {
        self.as_borrowed().as_long()
    }

    /// The text, where the expression is one.
    pub fn as_string(&self) -> Option<&RcStr>
        ensures { option_map (λ s. rc_str_bytes s.now) result ≡ option_and_then text_held (literal_read (restricted_of self.entry.now)) }
    {
        self.as_borrowed().as_string()
    }

    /// The uid, where the expression is one.
    pub fn as_euid(&self) -> Option<&EntityUID>
        ensures { option_map (λ u. uid_of u.now) result ≡ option_and_then uid_held (literal_read (restricted_of self.entry.now)) }
    {
        self.as_borrowed().as_euid()
    }

    /// The unknown, where the expression is one.
    pub fn as_unknown(&self) -> Option<&Unknown>
        ensures { option_map (λ u. unknown_of u.now) result ≡ unknown_here (restricted_of self.entry.now) }
    {
        self.as_borrowed().as_unknown()
    }

    /// The members, where the expression is a set.
    pub fn as_set_elements(&self) -> Option<RestrictedElements<'_>>
        ensures { option_map elements_left result ≡ members_read (restricted_of self.entry.now) }
    {
        self.as_borrowed().as_set_elements()
    }

    /// The fields, where the expression is a record.
    pub fn as_record_pairs(&self) -> Option<RestrictedPairs<'_>>
        ensures { option_map pairs_left result ≡ fields_read (restricted_of self.entry.now) }
    {
        self.as_borrowed().as_record_pairs()
    }

    /// The name of the function and the arguments, where the expression is a call.
    pub fn as_extn_fn_call(&self) -> Option<(&Name, RestrictedElements<'_>)>
        ensures { option_map (λ p. (plain_name_of p.0.now, elements_left p.1)) result ≡ call_read (restricted_of self.entry.now) }
    {
        self.as_borrowed().as_extn_fn_call()
    }
}

impl Clone for RestrictedExpr {
    ghost use Rattle.cedar_evaluator_restricted_exprs.specs.Views.{restricted_of, restricted_place};

    ghost is_clone = { λ r copy. (restricted_of copy ≡ restricted_of r) × (restricted_place copy ≡ restricted_place r) };

    fn clone(&self) -> Result<RestrictedExpr, AllocError> {
        self.as_borrowed().to_owned()
    }
}

impl AsRef<Expr> for RestrictedExpr {
    ghost use Rattle.cedar_evaluator_restricted_exprs.specs.Views.{restricted_of};

    fn as_ref(&self) -> &Expr
        ensures { tree_of result.now ≡ restricted_of self.now }
    {
        &self.expr
    }
}

impl Deref for RestrictedExpr {
    type Target = Expr;

    ghost use Rattle.cedar_evaluator_restricted_exprs.specs.Views.{restricted_of};

    ghost deref_gives = { λ r e. tree_of e ≡ restricted_of r };

    fn deref(&self) -> &Expr {
        &self.expr
    }
}

impl From<RestrictedExpr> for Expr {
    ghost use Rattle.cedar_expr_trees.specs.Trees.{place_of};
    ghost use Rattle.cedar_evaluator_restricted_exprs.specs.Views.{restricted_of, restricted_place};

    ghost from_gives = { λ r e. (tree_of e ≡ restricted_of r) × (place_of e ≡ restricted_place r) };

    fn from(r: RestrictedExpr) -> Expr {
        r.into_expr()
    }
}

//! What an expression is, and whether unknowns stand in it.

ghost use Rattle.std.specs.Prelude.{◌≡◌, is_some};
ghost use Rattle.std.specs.BTreeMap.{values};
ghost use Rattle.std.specs.List.{list_all, list_any};
ghost use Rattle.cedar_expr_model.specs.Parts.{is_ref, slot_here, is_ref_set, is_projectable};
ghost use Rattle.cedar_expr_model.specs.Unknowns.{has_unknown};
ghost use Rattle.cedar_expr_trees.specs.Trees.{tree_of};

use crate::expr::{Expr, ExprKind};
use crate::fields::{fields_of, next_field};
use std::collections::BTreeMap;
use std::rc::RcStr;

impl<T> Expr<T> {
    /// Whether the expression is a uid as a literal.
    pub fn is_ref(&self) -> bool
        ensures { result ≡ is_ref (tree_of self.now) }
    {
        match &self.expr_kind {
            ExprKind::Lit(literal) => literal.is_ref(),
            _ => false,
        }
    }

    /// Whether the expression is a slot.
    pub fn is_slot(&self) -> bool
        ensures { result ≡ is_some (slot_here (tree_of self.now)) }
    {
        match &self.expr_kind {
            ExprKind::Slot(_) => true,
            _ => false,
        }
    }

    /// Whether the expression is a set of uids as literals.
    #[tactic(auto, using(crate::proofs::ByParts::ref_trees))]
    pub fn is_ref_set(&self) -> bool
        ensures { result ≡ is_ref_set (tree_of self.now) }
    {
        match &self.expr_kind {
            ExprKind::Set(members) => are_refs(members.as_slice()),
            _ => false,
        }
    }

    /// Whether each part of the expression is a literal, an unknown, a set, a variable or a record.
    #[cycle(projectable)]
    #[tactic(auto, using(crate::proofs::ByParts::projectable_trees))]
    pub fn is_projectable(&self) -> bool
        ensures { result ≡ is_projectable (tree_of self.now) }
    {
        match &self.expr_kind {
            ExprKind::Lit(_) | ExprKind::Var(_) | ExprKind::Unknown(_) => true,
            ExprKind::Set(members) => are_projectable(members.as_slice()),
            ExprKind::Record(fields) => have_projectable(fields),
            _ => false,
        }
    }

    /// Whether an unknown stands in the expression.
    #[cycle(unknowns)]
    #[tactic(auto, using(crate::proofs::ByParts::unknown_trees))]
    pub fn contains_unknown(&self) -> bool
        ensures { result ≡ has_unknown (tree_of self.now) }
    {
        match &self.expr_kind {
            ExprKind::Unknown(_) => true,
            ExprKind::Lit(_) | ExprKind::Var(_) | ExprKind::Slot(_) => false,
            ExprKind::If {
                test_expr,
                then_expr,
                else_expr,
            } => {
                test_expr.contains_unknown()
                    || then_expr.contains_unknown()
                    || else_expr.contains_unknown()
            }
            ExprKind::And { left, right } | ExprKind::Or { left, right } => {
                left.contains_unknown() || right.contains_unknown()
            }
            ExprKind::UnaryApp { arg, .. } => arg.contains_unknown(),
            ExprKind::BinaryApp { arg1, arg2, .. } => {
                arg1.contains_unknown() || arg2.contains_unknown()
            }
            ExprKind::GetAttr { expr, .. }
            | ExprKind::HasAttr { expr, .. }
            | ExprKind::ExtHasAttr { expr, .. }
            | ExprKind::Like { expr, .. }
            | ExprKind::Is { expr, .. } => expr.contains_unknown(),
            ExprKind::ExtensionFunctionApp { args, .. } => any_contains_unknown(args.as_slice()),
            ExprKind::Set(members) => any_contains_unknown(members.as_slice()),
            ExprKind::Record(fields) => any_field_contains_unknown(fields),
        }
    }
}

// Whether each of these is a uid as a literal.
fn are_refs<T>(exprs: &[Expr<T>]) -> bool
    ensures { result ≡ list_all (λ e. is_ref (tree_of e)) exprs.now }
{
    exprs.iter().all(|e| e.is_ref())
}

// Whether each of these is projectable.
#[cycle(projectable)]
fn are_projectable<T>(exprs: &[Expr<T>]) -> bool
    ensures { result ≡ list_all (λ e. is_projectable (tree_of e)) exprs.now }
{
    for e in exprs {
        if !e.is_projectable() {
            return false;
        }
    }
    true
}

// Whether each of these fields is projectable.
#[cycle(projectable)]
fn have_projectable<T>(fields: &BTreeMap<RcStr, Expr<T>>) -> bool
    ensures { result ≡ list_all (λ e. is_projectable (tree_of e)) (values fields.now) }
{
    let mut left = fields_of(fields);
    while let Some(e) = next_field(&mut left) {
        if !e.is_projectable() {
            return false;
        }
    }
    true
}

// Whether an unknown stands in one of these.
#[cycle(unknowns)]
fn any_contains_unknown<T>(exprs: &[Expr<T>]) -> bool
    ensures { result ≡ list_any (λ e. has_unknown (tree_of e)) exprs.now }
{
    for e in exprs {
        if e.contains_unknown() {
            return true;
        }
    }
    false
}

// Whether an unknown stands in one of these fields.
#[cycle(unknowns)]
fn any_field_contains_unknown<T>(fields: &BTreeMap<RcStr, Expr<T>>) -> bool
    ensures { result ≡ list_any (λ e. has_unknown (tree_of e)) (values fields.now) }
{
    let mut left = fields_of(fields);
    while let Some(e) = next_field(&mut left) {
        if e.contains_unknown() {
            return true;
        }
    }
    false
}

//! Iterators over the subexpressions of an expression.

ghost use Rattle.std.specs.Prelude.{◌≡◌, ◌++◌, map, IfOk, OnOk};
ghost use Rattle.std.specs.BTreeMap.{values};
ghost use Rattle.std.specs.List.{flat_map};
ghost use Rattle.cedar_expr_trees.specs.Positions.{positions};

use crate::expr::{Expr, ExprKind, Unknown};
use crate::fields::{fields_of, next_field};
use cedar_expr_leaves::Slot;
use std::alloc::{AllocError, Global};
use std::collections::BTreeMap;
use std::rc::RcStr;
use std::vec::IntoIter;

// As many places as most conditions have, so that room for them is made once.
const MANY: usize = 16;

/// Goes over the subexpressions of an expression, each of its places once: the expression first, a node before its children,
/// and children in order. The room is made at the start.
#[derive(Drop)]
pub struct ExprIterator<'a, T = ()> {
    exprs: IntoIter<&'a Expr<T>>,
}

impl<'a, T> ExprIterator<'a, T> {
    ghost use Rattle.cedar_expr_model.specs.Parts.{subexpressions};
    ghost use Rattle.cedar_expr_trees.specs.Trees.{tree_of};
    ghost use Rattle.cedar_expr_trees.specs.Positions.{exprs_left};

    /// The iterator over the subexpressions of this expression. Fails only when out of memory.
    #[tactic(auto, using(crate::proofs::Walked::trees_of_positions))]
    pub fn new(alloc: Global, expr: &'a Expr<T>) -> Result<ExprIterator<'a, T>, AllocError>
        ensures positions { IfOk result (λ i. exprs_left i ≡ positions expr.entry.now) }
        ensures trees { IfOk result (λ i. map tree_of (exprs_left i) ≡ subexpressions (tree_of expr.entry.now)) }
    {
        let mut exprs = Vec::with_capacity(alloc, MANY)?;
        gather(expr, &mut exprs)?;
        Ok(ExprIterator {
            exprs: exprs.into_iter(),
        })
    }
}

impl<'a, T> Iterator for ExprIterator<'a, T> {
    type Item = &'a Expr<T>;

    ghost use Rattle.std.specs.Iterator.{YieldsFirstRef, item_count};
    ghost use Rattle.cedar_expr_trees.specs.Positions.{exprs_left};

    ghost next_gives = { YieldsFirstRef exprs_left };

    ghost remaining = { item_count exprs_left };

    fn next(&mut self) -> Option<&'a Expr<T>> {
        self.exprs.next()
    }
}

// Puts the subexpressions of an expression behind those that were found.
#[cycle(gather)]
#[tactic(auto, using(crate::proofs::Walked::all_below))]
fn gather<'a, T>(expr: &'a Expr<T>, found: &mut Vec<&'a Expr<T>>) -> Result<(), AllocError>
    ensures { OnOk result (map (λ e. e.now) found.new.items ≡ map (λ e. e.now) found.old.items ++ positions expr.entry.now) }
{
    found.push(expr)?;
    match &expr.expr_kind {
        ExprKind::Lit(_) | ExprKind::Var(_) | ExprKind::Slot(_) | ExprKind::Unknown(_) => Ok(()),
        ExprKind::If {
            test_expr,
            then_expr,
            else_expr,
        } => {
            gather(test_expr, found)?;
            gather(then_expr, found)?;
            gather(else_expr, found)
        }
        ExprKind::And { left, right } | ExprKind::Or { left, right } => {
            gather(left, found)?;
            gather(right, found)
        }
        ExprKind::BinaryApp { arg1, arg2, .. } => {
            gather(arg1, found)?;
            gather(arg2, found)
        }
        ExprKind::UnaryApp { arg, .. } => gather(arg, found),
        ExprKind::GetAttr { expr, .. }
        | ExprKind::HasAttr { expr, .. }
        | ExprKind::ExtHasAttr { expr, .. }
        | ExprKind::Like { expr, .. }
        | ExprKind::Is { expr, .. } => gather(expr, found),
        ExprKind::ExtensionFunctionApp { args, .. } => gather_all(args.as_slice(), found),
        ExprKind::Set(members) => gather_all(members.as_slice(), found),
        ExprKind::Record(fields) => gather_fields(fields, found),
    }
}

// Puts the subexpressions of each of these behind those that were found.
#[cycle(gather)]
fn gather_all<'a, T>(exprs: &'a [Expr<T>], found: &mut Vec<&'a Expr<T>>) -> Result<(), AllocError>
    ensures { OnOk result (map (λ e. e.now) found.new.items ≡ map (λ e. e.now) found.old.items ++ flat_map positions exprs.entry.now) }
{
    for e in exprs {
        gather(e, found)?;
    }
    Ok(())
}

// Puts the subexpressions of each of these fields behind those that were found.
#[cycle(gather)]
fn gather_fields<'a, T>(
    fields: &'a BTreeMap<RcStr, Expr<T>>,
    found: &mut Vec<&'a Expr<T>>,
) -> Result<(), AllocError>
    ensures { OnOk result (map (λ e. e.now) found.new.items ≡ map (λ e. e.now) found.old.items ++ flat_map positions (values fields.entry.now)) }
{
    let mut left = fields_of(fields);
    while let Some(e) = next_field(&mut left) {
        gather(e, found)?;
    }
    Ok(())
}

/// Goes over the slots of an expression, each occurrence, with their places.
#[derive(Drop)]
pub struct Slots<'a, T = ()> {
    exprs: ExprIterator<'a, T>,
}

impl<'a, T> Iterator for Slots<'a, T> {
    type Item = Slot;

    ghost use Rattle.std.specs.Iterator.{YieldsFirstBy, item_count};
    ghost use Rattle.cedar_expr_trees.specs.Positions.{slots_left, slot_placed};

    ghost next_gives = { YieldsFirstBy slot_placed slots_left };

    ghost remaining = { item_count slots_left };

    fn next(&mut self) -> Option<Slot> {
        while let Some(e) = self.exprs.next() {
            if let ExprKind::Slot(id) = &e.expr_kind {
                return Some(Slot {
                    id: *id,
                    loc: e.source_loc,
                });
            }
        }
        None
    }
}

/// Goes over the unknowns of an expression, each occurrence.
#[derive(Drop)]
pub struct Unknowns<'a, T = ()> {
    exprs: ExprIterator<'a, T>,
}

impl<'a, T> Iterator for Unknowns<'a, T> {
    type Item = &'a Unknown;

    ghost use Rattle.std.specs.Iterator.{YieldsFirstBy, item_count};
    ghost use Rattle.cedar_expr_trees.specs.Unknowns.{unknown_of};
    ghost use Rattle.cedar_expr_trees.specs.Positions.{unknowns_left};

    ghost next_gives = { YieldsFirstBy (λ u. unknown_of u.now) unknowns_left };

    ghost remaining = { item_count unknowns_left };

    fn next(&mut self) -> Option<&'a Unknown> {
        while let Some(e) = self.exprs.next() {
            if let ExprKind::Unknown(u) = &e.expr_kind {
                return Some(u);
            }
        }
        None
    }
}

impl<T> Expr<T> {
    ghost use Rattle.std.specs.List.{filter_map};
    ghost use Rattle.cedar_expr_model.specs.Parts.{subexpressions, slots, unknowns};
    ghost use Rattle.cedar_expr_trees.specs.Trees.{tree_of};
    ghost use Rattle.cedar_expr_trees.specs.Positions.{exprs_left, slots_left, unknowns_left, slot_at};

    /// The subexpressions, each place once: a node before its children, and children in order. Fails only when out of memory.
    pub fn subexpressions(&self, alloc: Global) -> Result<ExprIterator<'_, T>, AllocError>
        ensures positions { IfOk result (λ i. exprs_left i ≡ positions self.entry.now) }
        ensures trees { IfOk result (λ i. map tree_of (exprs_left i) ≡ subexpressions (tree_of self.entry.now)) }
    {
        ExprIterator::new(alloc, self)
    }

    /// The slots, each occurrence, with their places. Fails only when out of memory.
    #[tactic(auto, using(crate::proofs::Walked::slots_of_positions))]
    pub fn slots(&self, alloc: Global) -> Result<Slots<'_, T>, AllocError>
        ensures positions { IfOk result (λ i. slots_left i ≡ filter_map slot_at (positions self.entry.now)) }
        ensures slots { IfOk result (λ i. map (λ s. s.0) (slots_left i) ≡ slots (tree_of self.entry.now)) }
    {
        let exprs = ExprIterator::new(alloc, self)?;
        Ok(Slots { exprs })
    }

    /// The unknowns, each occurrence. Fails only when out of memory.
    #[tactic(auto, using(crate::proofs::Walked::unknowns_of_positions))]
    pub fn unknowns(&self, alloc: Global) -> Result<Unknowns<'_, T>, AllocError>
        ensures { IfOk result (λ i. unknowns_left i ≡ unknowns (tree_of self.entry.now)) }
    {
        let exprs = ExprIterator::new(alloc, self)?;
        Ok(Unknowns { exprs })
    }
}

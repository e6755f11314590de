//! Expressions with places: each part has the number of the step that leads to it.

ghost use Rattle.std.specs.Prelude.{◌≡◌, map, IfOk};
ghost use Rattle.cedar_expr_trees.specs.Trees.{tree_of};
ghost use Rattle.cedar_typechecker_answers.specs.Marked.{named_tree};

use crate::pointers::{push_item, push_member};
use cedar_expr_names::Loc;
use cedar_expr_trees::{Expr, ExprKind};
use cedar_expr_values::fields::field_map;
use std::alloc::{AllocError, Global};
use std::collections::BTreeMap;
use std::rc::{Rc, RcStr};

/// How an expression stands in the JSON of the one around it, which is a list.
#[derive(Drop)]
pub enum Step {
    /// Nothing is around it.
    Whole,
    /// It is an item of the list.
    Item {
        /// The number of the place around it.
        of: usize,
        /// The number of the item.
        item: usize,
    },
    /// It is a member of the object that is the second item of the list.
    Field {
        /// The number of the place around it.
        of: usize,
        /// The member's key.
        name: RcStr,
    },
}

/// The places of an expression and of its parts, by their numbers: each is a step from the place around it.
#[derive(Drop)]
pub struct Places {
    steps: Vec<Step>,
}

impl Places {
    /// No places.
    pub fn new(alloc: Global) -> Places {
        let steps = Vec::new(alloc);
        Places { steps }
    }

    // The number of one more place.
    fn add(&mut self, step: Step) -> Result<usize, AllocError> {
        let number = self.steps.len();
        self.steps.push(step)?;
        Ok(number)
    }

    // The numbers of the steps that lead to the place, the last one first.
    fn way(&self, alloc: Global, place: Loc) -> Result<Vec<usize>, AllocError> {
        let mut way = Vec::new(alloc);
        let mut number = place.start();
        for _ in 0..self.steps.len() {
            way.push(number)?;
            match self.steps.get(number) {
                Some(Step::Item { of, .. }) => number = *of,
                Some(Step::Field { of, .. }) => number = *of,
                _ => break,
            }
        }
        Ok(way)
    }

    /// Appends to the pointer of the whole expression what leads from there to the place of a part.
    pub fn push_way(&self, alloc: Global, out: &mut String, place: Loc) -> Result<(), AllocError> {
        let way = self.way(alloc, place)?;
        for number in way.iter().rev() {
            if let Some(step) = self.steps.get(*number) {
                push_step(out, step)?;
            }
        }
        Ok(())
    }
}

// Appends the step to the pointer of the list from which it leads.
fn push_step(out: &mut String, step: &Step) -> Result<(), AllocError> {
    match step {
        Step::Whole => Ok(()),
        Step::Item { item, .. } => push_item(out, *item),
        Step::Field { name, .. } => {
            push_item(out, 1)?;
            push_member(out, name.as_str())
        }
    }
}

/// A copy of the expression, which stands as this step says; the `Loc` of each part is its number among the places. What a builder folded has
/// no parts of its own.
#[cycle(placed)]
pub fn placed(
    alloc: Global,
    places: &mut Places,
    expr: &Expr,
    step: Step,
) -> Result<Expr, AllocError>
    ensures { IfOk result (λ e. tree_of e ≡ tree_of expr.now) }
{
    let here = places.add(step)?;
    let place = Some(Loc::new(here, here));
    match expr.expr_kind() {
        ExprKind::Lit(literal) => Ok(Expr::new(ExprKind::Lit(literal.clone()?), place, ())),
        ExprKind::Var(v) => Ok(Expr::new(ExprKind::Var(*v), place, ())),
        ExprKind::Slot(s) => Ok(Expr::new(ExprKind::Slot(*s), place, ())),
        ExprKind::Unknown(u) => Ok(Expr::new(ExprKind::Unknown(u.clone()?), place, ())),
        ExprKind::If {
            test_expr,
            then_expr,
            else_expr,
        } => {
            let test_expr = part(alloc, places, test_expr, here, 1)?;
            let then_expr = part(alloc, places, then_expr, here, 2)?;
            let else_expr = part(alloc, places, else_expr, here, 3)?;
            let kind = ExprKind::If {
                test_expr,
                then_expr,
                else_expr,
            };
            Ok(Expr::new(kind, place, ()))
        }
        ExprKind::And { left, right } => {
            let left = part(alloc, places, left, here, 1)?;
            let right = part(alloc, places, right, here, 2)?;
            Ok(Expr::new(ExprKind::And { left, right }, place, ()))
        }
        ExprKind::Or { left, right } => {
            let left = part(alloc, places, left, here, 1)?;
            let right = part(alloc, places, right, here, 2)?;
            Ok(Expr::new(ExprKind::Or { left, right }, place, ()))
        }
        ExprKind::UnaryApp { op, arg } => {
            let arg = part(alloc, places, arg, here, 1)?;
            Ok(Expr::new(ExprKind::UnaryApp { op: *op, arg }, place, ()))
        }
        ExprKind::BinaryApp { op, arg1, arg2 } => {
            let arg1 = part(alloc, places, arg1, here, 1)?;
            let arg2 = part(alloc, places, arg2, here, 2)?;
            let kind = ExprKind::BinaryApp {
                op: *op,
                arg1,
                arg2,
            };
            Ok(Expr::new(kind, place, ()))
        }
        ExprKind::ExtensionFunctionApp { fn_name, args } => {
            let fn_name = fn_name.clone()?;
            let args = parts(alloc, places, args.as_slice(), here, 2)?;
            let call = Expr::call_extension_fn(alloc, fn_name, args)?;
            Ok(call.with_maybe_source_loc(place))
        }
        ExprKind::GetAttr { expr, attr } => {
            let expr = part(alloc, places, expr, here, 1)?;
            let attr = attr.clone()?;
            Ok(Expr::new(ExprKind::GetAttr { expr, attr }, place, ()))
        }
        ExprKind::HasAttr { expr, attr } => {
            let expr = part(alloc, places, expr, here, 1)?;
            let attr = attr.clone()?;
            Ok(Expr::new(ExprKind::HasAttr { expr, attr }, place, ()))
        }
        ExprKind::ExtHasAttr { expr, attrs } => {
            let expr = part(alloc, places, expr, here, 1)?;
            let attrs = attrs.clone()?;
            Ok(Expr::new(ExprKind::ExtHasAttr { expr, attrs }, place, ()))
        }
        ExprKind::Like { expr, pattern } => {
            let expr = part(alloc, places, expr, here, 1)?;
            let pattern = pattern.clone()?;
            Ok(Expr::new(ExprKind::Like { expr, pattern }, place, ()))
        }
        ExprKind::Is { expr, entity_type } => {
            let expr = part(alloc, places, expr, here, 1)?;
            let entity_type = entity_type.clone()?;
            Ok(Expr::new(ExprKind::Is { expr, entity_type }, place, ()))
        }
        ExprKind::Set(members) => {
            let members = parts(alloc, places, members.as_slice(), here, 1)?;
            let set = Expr::set(alloc, members)?;
            Ok(set.with_maybe_source_loc(place))
        }
        ExprKind::Record(fields) => {
            let fields = fields_placed(alloc, places, fields, here)?;
            let record = Expr::record_arc(Rc::new(alloc, fields)?);
            Ok(record.with_maybe_source_loc(place))
        }
    }
}

// A shared copy of the expression at this item of the list that has this number.
#[cycle(placed)]
fn part(
    alloc: Global,
    places: &mut Places,
    expr: &Expr,
    of: usize,
    item: usize,
) -> Result<Rc<Expr>, AllocError>
    ensures { IfOk result (λ e. tree_of e.value ≡ tree_of expr.now) }
{
    let e = placed(alloc, places, expr, Step::Item { of, item })?;
    Ok(Rc::new(alloc, e)?)
}

// Copies of the expressions at the items of the list that has this number, from this item on.
#[cycle(placed)]
fn parts(
    alloc: Global,
    places: &mut Places,
    exprs: &[Expr],
    of: usize,
    from: usize,
) -> Result<Vec<Expr>, AllocError>
    ensures { IfOk result (λ es. map tree_of es.items ≡ map tree_of exprs.now) }
{
    let mut all = Vec::with_capacity(alloc, exprs.len())?;
    let mut item = from;
    for e in exprs {
        all.push(placed(alloc, places, e, Step::Item { of, item })?)?;
        item = item.wrapping_add(1);
    }
    Ok(all)
}

// Copies of the fields of the record that has this number, by their names.
#[cycle(placed)]
fn fields_placed(
    alloc: Global,
    places: &mut Places,
    fields: &BTreeMap<RcStr, Expr>,
    of: usize,
) -> Result<BTreeMap<RcStr, Expr>, AllocError>
    ensures { IfOk result (λ es. map named_tree es.entries ≡ map named_tree fields.now.entries) }
{
    let mut all = Vec::with_capacity(alloc, fields.len())?;
    for (name, e) in fields {
        let step = Step::Field {
            of,
            name: name.clone()?,
        };
        all.push((name.clone()?, placed(alloc, places, e, step)?))?;
    }
    field_map(alloc, all)
}

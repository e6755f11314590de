//! The walk that builds an expression anew.

ghost use Rattle.std.specs.Prelude.{◌≡◌, true, map, IfOk, IfErr};
ghost use Rattle.std.specs.declared.result.Result.TheVariants.{Ok};
ghost use Rattle.cedar_expr_model.specs.Builder.{built_list, built_fields, trees, tree_fields};
ghost use Rattle.cedar_expr_model.specs.Records.{names_rise};
ghost use Rattle.cedar_expr_trees.specs.Trees.{tree_of, named, field_trees};
ghost use Rattle.cedar_expr_builders.specs.Refusing.{all_made, fields_made};
ghost use Rattle.cedar_expr_builders.specs.Views.{meant};
ghost use Rattle.cedar_expr_substitution.specs.Outcome.{placing, built_placed, Refuses};
ghost use Rattle.cedar_expr_substitution.specs.Steps.{Means, Tells, two_made, three_made, of_two, of_three};

use crate::gathering::{members_of, room, room_for_fields, three, two, with_field, with_next};
use crate::making;
use crate::unknowns::BuildUnknown;
use cedar_expr_builders::BuildFault;
use cedar_expr_builders::expr_builder::ExprBuilder;
use cedar_expr_trees::{Expr, ExprKind};
use std::alloc::Global;
use std::collections::BTreeMap;
use std::rc::RcStr;

/// What the builder makes of the expression, each part at its place, with default data, and of each unknown what it makes of the
/// expression in its place. Refuses what the builder refuses first, children in order and the fields of a record by their names,
/// and fails when out of memory.
#[cycle(build)]
pub fn build_with<B: ExprBuilder, T, U: BuildUnknown>(
    alloc: Global,
    e: &Expr<T>,
    unknowns: &U,
) -> Result<B::Expr, BuildFault<B::BuildError>>
    ensures made { IfOk result (λ r. built_placed B.steps B.refuses (U.placed unknowns.now) (tree_of e.now) ≡ Ok (B.means r)) }
    ensures refused { IfErr result (λ f. Refuses B.says (built_placed B.steps B.refuses (U.placed unknowns.now) (tree_of e.now)) f) }
{
    match e.expr_kind() {
        ExprKind::Lit(l) => making::literal::<B, T>(alloc, e, l),
        ExprKind::Var(v) => making::variable::<B, T>(alloc, e, *v),
        ExprKind::Slot(s) => making::slot::<B, T>(alloc, e, *s),
        ExprKind::Unknown(u) => making::unknown::<B, T, U>(alloc, e, u, unknowns),
        ExprKind::If {
            test_expr,
            then_expr,
            else_expr,
        } => {
            let parts = build_three::<B, T, U>(alloc, test_expr, then_expr, else_expr, unknowns);
            making::choice::<B, T>(alloc, e, parts)
        }
        ExprKind::And { left, right } => {
            making::both::<B, T>(alloc, e, build_two::<B, T, U>(alloc, left, right, unknowns))
        }
        ExprKind::Or { left, right } => {
            making::either::<B, T>(alloc, e, build_two::<B, T, U>(alloc, left, right, unknowns))
        }
        ExprKind::UnaryApp { op, arg } => {
            making::unary::<B, T>(alloc, e, *op, build_with::<B, T, U>(alloc, arg, unknowns))
        }
        ExprKind::BinaryApp { op, arg1, arg2 } => {
            let parts = build_two::<B, T, U>(alloc, arg1, arg2, unknowns);
            making::binary::<B, T>(alloc, e, *op, parts)
        }
        ExprKind::ExtensionFunctionApp { fn_name, args } => {
            let args = build_all::<B, T, U>(alloc, members_of(args), unknowns);
            making::call::<B, T>(alloc, e, fn_name, args)
        }
        ExprKind::GetAttr { expr, attr } => {
            making::attribute::<B, T>(alloc, e, build_with::<B, T, U>(alloc, expr, unknowns), attr)
        }
        ExprKind::HasAttr { expr, attr } => {
            let expr = build_with::<B, T, U>(alloc, expr, unknowns);
            making::attribute_test::<B, T>(alloc, e, expr, attr)
        }
        ExprKind::ExtHasAttr { expr, attrs } => {
            making::path_test::<B, T>(
                alloc,
                e,
                build_with::<B, T, U>(alloc, expr, unknowns),
                attrs,
            )
        }
        ExprKind::Like { expr, pattern } => {
            let expr = build_with::<B, T, U>(alloc, expr, unknowns);
            making::pattern_match::<B, T>(alloc, e, expr, pattern)
        }
        ExprKind::Is { expr, entity_type } => {
            let expr = build_with::<B, T, U>(alloc, expr, unknowns);
            making::type_test::<B, T>(alloc, e, expr, entity_type)
        }
        ExprKind::Set(members) => {
            let members = build_all::<B, T, U>(alloc, members_of(members), unknowns);
            making::set::<B, T>(alloc, e, members)
        }
        ExprKind::Record(fields) => {
            making::record::<B, T>(alloc, e, build_fields::<B, T, U>(alloc, fields, unknowns))
        }
    }
}

// What the builder makes of these two.
#[cycle(build)]
fn build_two<B: ExprBuilder, T, U: BuildUnknown>(
    alloc: Global,
    left: &Expr<T>,
    right: &Expr<T>,
    unknowns: &U,
) -> Result<(B::Expr, B::Expr), BuildFault<B::BuildError>>
    ensures made { Means (of_two B.means) (two_made (built_placed B.steps B.refuses (U.placed unknowns.now) (tree_of left.now)) (built_placed B.steps B.refuses (U.placed unknowns.now) (tree_of right.now))) result }
    ensures refused { Tells B.says (two_made (built_placed B.steps B.refuses (U.placed unknowns.now) (tree_of left.now)) (built_placed B.steps B.refuses (U.placed unknowns.now) (tree_of right.now))) result }
{
    match build_with::<B, T, U>(alloc, left, unknowns) {
        Ok(first) => two::<B>(first, build_with::<B, T, U>(alloc, right, unknowns)),
        Err(fault) => Err(fault),
    }
}

// What the builder makes of these three.
#[cycle(build)]
fn build_three<B: ExprBuilder, T, U: BuildUnknown>(
    alloc: Global,
    test_expr: &Expr<T>,
    then_expr: &Expr<T>,
    else_expr: &Expr<T>,
    unknowns: &U,
) -> Result<(B::Expr, B::Expr, B::Expr), BuildFault<B::BuildError>>
    ensures made { Means (of_three B.means) (three_made (built_placed B.steps B.refuses (U.placed unknowns.now) (tree_of test_expr.now)) (built_placed B.steps B.refuses (U.placed unknowns.now) (tree_of then_expr.now)) (built_placed B.steps B.refuses (U.placed unknowns.now) (tree_of else_expr.now))) result }
    ensures refused { Tells B.says (three_made (built_placed B.steps B.refuses (U.placed unknowns.now) (tree_of test_expr.now)) (built_placed B.steps B.refuses (U.placed unknowns.now) (tree_of then_expr.now)) (built_placed B.steps B.refuses (U.placed unknowns.now) (tree_of else_expr.now))) result }
{
    match build_two::<B, T, U>(alloc, test_expr, then_expr, unknowns) {
        Ok(parts) => three::<B>(parts, build_with::<B, T, U>(alloc, else_expr, unknowns)),
        Err(fault) => Err(fault),
    }
}

// What the builder makes of each of these.
#[cycle(build)]
fn build_all<B: ExprBuilder, T, U: BuildUnknown>(
    alloc: Global,
    exprs: &[Expr<T>],
    unknowns: &U,
) -> Result<Vec<B::Expr>, BuildFault<B::BuildError>>
    ensures made { Means (λ v. map B.means v.items) (all_made (built_list (placing B.steps B.refuses (U.placed unknowns.now)) (trees (map tree_of exprs.now)))) result }
    ensures refused { Tells B.says (all_made (built_list (placing B.steps B.refuses (U.placed unknowns.now)) (trees (map tree_of exprs.now)))) result }
{
    let mut made = room(alloc, exprs.len())?;
    for e in exprs {
        made = with_next::<B>(made, build_with::<B, T, U>(alloc, e, unknowns))?;
    }
    Ok(made)
}

// What the builder makes of each of these fields, by their names.
#[cycle(build)]
fn build_fields<B: ExprBuilder, T, U: BuildUnknown>(
    alloc: Global,
    fields: &BTreeMap<RcStr, Expr<T>>,
    unknowns: &U,
) -> Result<Vec<(RcStr, B::Expr)>, BuildFault<B::BuildError>>
    ensures made { Means (λ v. named (meant B.means v.items)) (fields_made (built_fields (placing B.steps B.refuses (U.placed unknowns.now)) (tree_fields (named (field_trees fields.now.entries))))) result }
    ensures rising { IfOk result (λ v. names_rise (named v.items) ≡ true) }
    ensures refused { Tells B.says (fields_made (built_fields (placing B.steps B.refuses (U.placed unknowns.now)) (tree_fields (named (field_trees fields.now.entries))))) result }
{
    let mut made = room_for_fields::<B, T>(alloc, fields)?;
    for (name, e) in fields {
        made = with_field::<B>(made, name, build_with::<B, T, U>(alloc, e, unknowns))?;
    }
    Ok(made)
}

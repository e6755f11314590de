//! The walk along a typed expression.

ghost use Rattle.std.specs.Prelude.{◌≡◌, map, OnOk, IfOk};
ghost use Rattle.std.specs.BTreeMap.{values};
ghost use Rattle.std.specs.List.{flat_map};
ghost use Rattle.std.specs.Rc.{rc_str_bytes};
ghost use Rattle.cedar_typechecker_environments.specs.Settings.{setting_of};
ghost use Rattle.cedar_typechecker_levels.specs.InRows.{reported_of, reached_of, others_in, field_reached};
ghost use Rattle.cedar_typechecker_levels.specs.Marked.{typed_violations};
ghost use Rattle.cedar_typechecker_levels.specs.Paths.{path_of};
ghost use Rattle.cedar_typechecker_levels.specs.Views.{violation_of, AddsViolations};

use crate::along::{entity_steps, fields_before};
use crate::fields::{field_of, fields_of, is_skipped, next_field};
use crate::kinds::{further, is_entity, is_get_tag, looks_up, may_be_false, may_be_true};
use crate::level::EntityDerefLevel;
use crate::path::Path;
use crate::steps::steps;
use crate::violation::{LevelViolation, add_literal, add_step, add_target};
use cedar_expr_trees::{Expr, ExprKind};
use cedar_schema_types::Type;
use cedar_typechecker_environments::{TypingSchema, World};
use cedar_typechecker_model::report_laws::reported_are_violations;
use std::alloc::{AllocError, Global};
use std::collections::BTreeMap;
use std::rc::RcStr;

/// The violations of a typed expression at the level: each step into the store that needs a greater level, with the level that it
/// needs, and each uid and slot that is reached from and isn't the action of the environment. What typing didn't reach has none.
pub fn level_violations<'a, S: TypingSchema>(
    alloc: Global,
    world: &World<'_, S>,
    level: EntityDerefLevel,
    expr: &'a Expr<Option<Type>>,
) -> Result<Vec<LevelViolation<'a>>, AllocError>
    ensures { IfOk result (λ vs. map violation_of vs.items ≡ typed_violations level.level (setting_of S.schema S.table world.now) expr.entry.now) }
{
    reported_are_violations();
    let mut found = Vec::new(alloc);
    report(alloc, world, level.level, expr, &mut found)?;
    Ok(found)
}

// Appends the violations of the expression to what was found.
#[cycle(walk)]
fn report<'a, S: TypingSchema>(
    alloc: Global,
    world: &World<'_, S>,
    level: u32,
    expr: &'a Expr<Option<Type>>,
    found: &mut Vec<LevelViolation<'a>>,
) -> Result<(), AllocError>
    ensures { OnOk result (AddsViolations found.old found.new (reported_of level (setting_of S.schema S.table world.now) expr.entry.now)) }
{
    match expr.expr_kind() {
        ExprKind::Lit(_) | ExprKind::Var(_) | ExprKind::Slot(_) | ExprKind::Unknown(_) => Ok(()),
        ExprKind::If {
            test_expr,
            then_expr,
            else_expr,
        } => {
            report(alloc, world, level, test_expr, found)?;
            match (
                may_be_true(test_expr.data()),
                may_be_false(test_expr.data()),
            ) {
                (true, true) => {
                    report(alloc, world, level, then_expr, found)?;
                    report(alloc, world, level, else_expr, found)
                }
                (true, false) => report(alloc, world, level, then_expr, found),
                (false, true) => report(alloc, world, level, else_expr, found),
                (false, false) => Ok(()),
            }
        }
        ExprKind::And { left, right } => {
            report(alloc, world, level, left, found)?;
            if may_be_true(left.data()) {
                report(alloc, world, level, right, found)
            } else {
                Ok(())
            }
        }
        ExprKind::Or { left, right } => {
            report(alloc, world, level, left, found)?;
            if may_be_false(left.data()) {
                report(alloc, world, level, right, found)
            } else {
                Ok(())
            }
        }
        ExprKind::UnaryApp { arg, .. } => report(alloc, world, level, arg, found),
        ExprKind::BinaryApp { op, arg1, arg2 } => {
            if looks_up(*op) {
                let needed = further(steps(arg1, &Path::End), 1);
                add_step(found, expr, needed, level)?;
                reach(alloc, world, level, arg1, &Path::End, found)?;
                report(alloc, world, level, arg2, found)
            } else {
                report(alloc, world, level, arg1, found)?;
                report(alloc, world, level, arg2, found)
            }
        }
        ExprKind::ExtensionFunctionApp { args, .. } => {
            report_all(alloc, world, level, args.as_slice(), found)
        }
        ExprKind::GetAttr { expr: of, .. } => {
            if is_entity(of.data()) {
                let needed = further(steps(of, &Path::End), 1);
                add_step(found, expr, needed, level)?;
                reach(alloc, world, level, of, &Path::End, found)
            } else {
                report(alloc, world, level, of, found)
            }
        }
        ExprKind::HasAttr { expr: of, .. } => {
            if is_entity(of.data()) {
                let needed = further(steps(of, &Path::End), 1);
                add_step(found, expr, needed, level)?;
                reach(alloc, world, level, of, &Path::End, found)
            } else {
                report(alloc, world, level, of, found)
            }
        }
        ExprKind::ExtHasAttr { expr: of, attrs } => {
            let more = entity_steps(alloc, world, of.data(), attrs)?;
            if more == 0 {
                report(alloc, world, level, of, found)
            } else {
                let path = fields_before(alloc, world, of.data(), attrs)?;
                let needed = further(steps(of, &path), more);
                add_step(found, expr, needed, level)?;
                reach(alloc, world, level, of, &path, found)
            }
        }
        ExprKind::Like { expr: of, .. } => report(alloc, world, level, of, found),
        ExprKind::Is { expr: of, .. } => report(alloc, world, level, of, found),
        ExprKind::Set(members) => report_all(alloc, world, level, members.as_slice(), found),
        ExprKind::Record(fields) => report_fields(alloc, world, level, fields, found),
    }
}

// Appends the violations of each of these expressions to what was found.
#[cycle(walk)]
fn report_all<'a, S: TypingSchema>(
    alloc: Global,
    world: &World<'_, S>,
    level: u32,
    exprs: &'a [Expr<Option<Type>>],
    found: &mut Vec<LevelViolation<'a>>,
) -> Result<(), AllocError>
    ensures { OnOk result (AddsViolations found.old found.new (flat_map (reported_of level (setting_of S.schema S.table world.now)) exprs.entry.now)) }
{
    for e in exprs {
        report(alloc, world, level, e, found)?;
    }
    Ok(())
}

// Appends the violations of the expression of each field to what was found.
#[cycle(walk)]
fn report_fields<'a, S: TypingSchema>(
    alloc: Global,
    world: &World<'_, S>,
    level: u32,
    fields: &'a BTreeMap<RcStr, Expr<Option<Type>>>,
    found: &mut Vec<LevelViolation<'a>>,
) -> Result<(), AllocError>
    ensures { OnOk result (AddsViolations found.old found.new (flat_map (reported_of level (setting_of S.schema S.table world.now)) (values fields.entry.now))) }
{
    let mut left = fields_of(fields);
    while let Some((_, e)) = next_field(&mut left) {
        report(alloc, world, level, e, found)?;
    }
    Ok(())
}

// Appends the violations of the expression of each field but the first of this name to what was found.
#[cycle(walk)]
fn report_others<'a, S: TypingSchema>(
    alloc: Global,
    world: &World<'_, S>,
    level: u32,
    fields: &'a BTreeMap<RcStr, Expr<Option<Type>>>,
    name: &RcStr,
    found: &mut Vec<LevelViolation<'a>>,
) -> Result<(), AllocError>
    ensures { OnOk result (AddsViolations found.old found.new (others_in level (setting_of S.schema S.table world.now) (rc_str_bytes name.now) fields.entry.now.entries)) }
{
    let mut left = fields_of(fields);
    let mut is_past = false;
    while let Some((key, e)) = next_field(&mut left) {
        if is_skipped(is_past, name, key) {
            is_past = true;
            continue;
        }
        report(alloc, world, level, e, found)?;
    }
    Ok(())
}

// Appends the violations on the way to what the path leads to from the expression to what was found.
#[cycle(walk)]
fn reach<'a, S: TypingSchema>(
    alloc: Global,
    world: &World<'_, S>,
    level: u32,
    expr: &'a Expr<Option<Type>>,
    path: &Path<'_>,
    found: &mut Vec<LevelViolation<'a>>,
) -> Result<(), AllocError>
    ensures { OnOk result (AddsViolations found.old found.new (reached_of level (setting_of S.schema S.table world.now) (path_of path.now) expr.entry.now)) }
{
    match expr.expr_kind() {
        ExprKind::Lit(literal) => add_literal(world, found, expr, literal),
        ExprKind::Slot(_) => add_target(found, expr),
        ExprKind::If {
            test_expr,
            then_expr,
            else_expr,
        } => {
            report(alloc, world, level, test_expr, found)?;
            match (
                may_be_true(test_expr.data()),
                may_be_false(test_expr.data()),
            ) {
                (true, true) => {
                    reach(alloc, world, level, then_expr, &*path, found)?;
                    reach(alloc, world, level, else_expr, &*path, found)
                }
                (true, false) => reach(alloc, world, level, then_expr, &*path, found),
                (false, true) => reach(alloc, world, level, else_expr, &*path, found),
                (false, false) => Ok(()),
            }
        }
        ExprKind::GetAttr { expr: of, attr } => {
            if is_entity(of.data()) {
                reach(alloc, world, level, of, &Path::End, found)
            } else {
                reach(alloc, world, level, of, &Path::Then(attr, &*path), found)
            }
        }
        ExprKind::BinaryApp { op, arg1, arg2 } => {
            if is_get_tag(*op) {
                report(alloc, world, level, arg2, found)?;
                reach(alloc, world, level, arg1, &Path::End, found)
            } else {
                Ok(())
            }
        }
        ExprKind::Record(fields) => match path.split_first() {
            None => report_fields(alloc, world, level, fields, found),
            Some(split) => {
                report_others(alloc, world, level, fields, split.name, found)?;
                reach_in(
                    alloc,
                    world,
                    level,
                    fields,
                    split.name,
                    &split.others,
                    found,
                )
            }
        },
        ExprKind::Var(_) | ExprKind::Unknown(_) => Ok(()),
        ExprKind::And { .. } | ExprKind::Or { .. } | ExprKind::UnaryApp { .. } => Ok(()),
        ExprKind::ExtensionFunctionApp { .. } | ExprKind::Set(_) => Ok(()),
        ExprKind::HasAttr { .. } | ExprKind::ExtHasAttr { .. } => Ok(()),
        ExprKind::Like { .. } | ExprKind::Is { .. } => Ok(()),
    }
}

// Appends the violations on the way to what the path leads to from the first field of this name, if there is one, to what was found.
#[cycle(walk)]
fn reach_in<'a, S: TypingSchema>(
    alloc: Global,
    world: &World<'_, S>,
    level: u32,
    fields: &'a BTreeMap<RcStr, Expr<Option<Type>>>,
    name: &RcStr,
    others: &Path<'_>,
    found: &mut Vec<LevelViolation<'a>>,
) -> Result<(), AllocError>
    ensures { OnOk result (AddsViolations found.old found.new (field_reached level (setting_of S.schema S.table world.now) name.now others.now fields.entry.now.entries)) }
{
    match field_of(fields, name) {
        Some(e) => reach(alloc, world, level, e, &*others, found),
        None => Ok(()),
    }
}

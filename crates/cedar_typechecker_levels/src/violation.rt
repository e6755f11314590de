//! Violations.

ghost use Rattle.std.specs.Prelude.{◌≡◌, ◌∷◌, [], OnOk, Some, None};
ghost use Rattle.cedar_expr_leaves.specs.Literals.{literal_of};
ghost use Rattle.cedar_expr_model.specs.Tree.{lit};
ghost use Rattle.cedar_expr_trees.specs.Trees.{tree_of};
ghost use Rattle.cedar_typechecker_environments.specs.Settings.{setting_of};
ghost use Rattle.cedar_typechecker_model.specs.Levels.{literal_count};
ghost use Rattle.cedar_typechecker_model.specs.Reported.{too_far};
ghost use Rattle.cedar_typechecker_levels.specs.Views.{AddsViolations};

use cedar_expr_leaves::Literal;
use cedar_expr_trees::Expr;
use cedar_schema_types::Type;
use cedar_typechecker_environments::{TypingSchema, World};
use std::alloc::AllocError;

/// Where an expression reaches too far: the step, or the literal or slot that is reached from, and the level that the step needs, if
/// any level allows it. 4294967296 stands for any greater level.
#[derive(Drop)]
pub struct LevelViolation<'a> {
    /// The expression.
    pub at: &'a Expr<Option<Type>>,
    /// The level that it needs.
    pub required: Option<u64>,
}

// Reports the step, if it needs a greater level.
pub(crate) fn add_step<'a>(
    found: &mut Vec<LevelViolation<'a>>,
    at: &'a Expr<Option<Type>>,
    needed: u64,
    level: u32,
) -> Result<(), AllocError>
    ensures { OnOk result (AddsViolations found.old found.new (too_far level (tree_of at.entry.now) needed)) }
{
    if needed > level as u64 {
        found.push(LevelViolation {
            at,
            required: Some(needed),
        })?;
    }
    Ok(())
}

// Reports what is reached from and is neither the request nor an entity of the store.
pub(crate) fn add_target<'a>(
    found: &mut Vec<LevelViolation<'a>>,
    at: &'a Expr<Option<Type>>,
) -> Result<(), AllocError>
    ensures { OnOk result (AddsViolations found.old found.new (record { at = tree_of at.entry.now; required = None } ∷ [])) }
{
    found.push(LevelViolation { at, required: None })?;
    Ok(())
}

// Reports the literal, if it is a uid other than the action of the environment.
pub(crate) fn add_literal<'a, S: TypingSchema>(
    world: &World<'_, S>,
    found: &mut Vec<LevelViolation<'a>>,
    at: &'a Expr<Option<Type>>,
    literal: &Literal,
) -> Result<(), AllocError>
    requires { tree_of at.now ≡ lit (literal_of literal.now) }
    ensures { OnOk result (AddsViolations found.old found.new (literal_count (setting_of S.schema S.table world.now) (literal_of literal.now)).found) }
{
    match literal {
        Literal::EntityUID(uid) => {
            if uid.same(&world.env.action) {
                Ok(())
            } else {
                add_target(found, at)
            }
        }
        Literal::Bool(_) | Literal::Long(_) | Literal::String(_) => Ok(()),
    }
}

//! Verdicts on conditions by the fast path of typing.

ghost use Rattle.std.specs.Prelude.{◌≡◌, ⊤, IfOk, MatchOption};
ghost use Rattle.cedar_expr_trees.specs.Trees.{tree_of};
ghost use Rattle.cedar_typechecker_environments.specs.Settings.{setting_of};
ghost use Rattle.cedar_typechecker_policies.specs.Fast.{IsClearVerdictIfAny};
ghost use Rattle.cedar_typechecker_policies.specs.Violations.{level_of};

use crate::verdict::{Verdict, verdict_of};
use cedar_expr_trees::Expr;
use cedar_typechecker_environments::{CapabilitySet, TypingSchema, World};
use cedar_typechecker_fast_path::typed_within;
use cedar_typechecker_levels::EntityDerefLevel;
use std::alloc::{AllocError, Global};

// The level, and the greatest where none is given.
fn limit_of(level: Option<EntityDerefLevel>) -> u32
    ensures { MatchOption level ⊤ (λ l. result ≡ l.level) }
{
    match level {
        Some(level) => level.level,
        None => u32::MAX,
    }
}

/// The verdict on the condition, if it is of the type of truth values and has no violation at the level, and if that is found without the tree
/// of the types of its parts. Where no level is given no violation is asked for.
pub(crate) fn clear_verdict<S: TypingSchema>(
    alloc: Global,
    world: &World<'_, S>,
    level: Option<EntityDerefLevel>,
    condition: &Expr,
) -> Result<Option<Verdict>, AllocError>
    ensures { IfOk result (IsClearVerdictIfAny (level_of level) (setting_of S.schema S.table world.now) (tree_of condition.now)) }
{
    let none = CapabilitySet::new(alloc);
    let Some(of) = typed_within(alloc, world, &none, limit_of(level), condition)? else {
        return Ok(None);
    };
    let verdict = verdict_of(&Some(of.ty));
    if !verdict.is_bool {
        return Ok(None);
    }
    Ok(Some(verdict))
}

//! The condition of a policy, typed in one environment, with its verdict and what is wrong with it.

ghost use Rattle.std.specs.Prelude.{◌≡◌, None, IfOk};
ghost use Rattle.cedar_expr_model.specs.Lists.{is_nil};
ghost use Rattle.cedar_expr_model.specs.Tree.{Tree};
ghost use Rattle.cedar_expr_trees.specs.Trees.{tree_of};
ghost use Rattle.cedar_store_parts.specs.Parts.{id_text};
ghost use Rattle.cedar_typechecker_policies.specs.Conditions.{IsTypedIfAny, IsVerdictOf};
ghost use Rattle.cedar_typechecker_environments.specs.Settings.{setting_of};
ghost use Rattle.cedar_typechecker_model.specs.Rules.{Setting};
ghost use Rattle.cedar_typechecker_model.specs.Typing.{type_of};
ghost use Rattle.cedar_typechecker_policies.specs.Checks.{IsChecked, AreErrorsOf};
ghost use Rattle.cedar_typechecker_model.specs.Typed.{typed};

use crate::condition::typed_condition;
use crate::errors::errors_of;
use crate::verdict::{Verdict, no_bool, verdict_of};
use cedar_expr_names::Loc;
use cedar_expr_trees::Expr;
use cedar_schema_types::Type;
use cedar_store_parts::{PolicyID, ValidationError};
use cedar_typechecker_answers::Faults;
use cedar_typechecker_environments::{TypingSchema, World};
use cedar_typechecker_model::typed_laws::typed_as_judged;
use std::alloc::{AllocError, Global};

// A condition, typed in one environment.
#[derive(Drop)]
pub(crate) struct Checked {
    // What its type says.
    pub(crate) verdict: Verdict,
    // The condition with the types of its parts, if it has one itself.
    pub(crate) typed: Option<Expr<Option<Type>>>,
    // What is wrong with it.
    pub(crate) errors: Vec<ValidationError>,
}

// What the type of a condition says, which is here with the types of its parts if it has one itself.
#[tactic(auto, using(crate::proofs::Said::verdict_typed, crate::proofs::Said::verdict_none))]
fn verdict_on(condition: &Option<Expr<Option<Type>>>) -> Verdict
    ensures { (s : Setting) (t : Tree) → IsTypedIfAny s t condition.now → IsVerdictOf (type_of s t) result }
{
    typed_as_judged();
    match condition {
        Some(typed) => verdict_of(typed.data()),
        None => no_bool(),
    }
}

// What is wrong with the policy unless its condition is of the type of truth values.
fn errors_unless(
    alloc: Global,
    is_bool: bool,
    policy_id: &PolicyID,
    faults: Faults,
    place: Option<Loc>,
) -> Result<Vec<ValidationError>, AllocError>
    ensures policy { IfOk result (λ es. AreErrorsOf (id_text policy_id.now) es.items) }
    ensures some { IfOk result (λ es. is_nil es.items ≡ is_bool) }
{
    if is_bool {
        Ok(Vec::new(alloc))
    } else {
        errors_of(alloc, policy_id, faults, place)
    }
}

// This condition of the policy, typed, with its verdict and what is wrong with it.
pub(crate) fn check_condition<S: TypingSchema>(
    alloc: Global,
    world: &World<'_, S>,
    policy_id: &PolicyID,
    condition: &Expr,
) -> Result<Checked, AllocError>
    ensures { IfOk result (IsChecked (setting_of S.schema S.table world.now) (tree_of condition.now) (id_text policy_id.now)) }
{
    let place = condition.source_loc();
    let mut faults = Vec::new(alloc);
    let typed = typed_condition(alloc, world, &mut faults, condition)?;
    let verdict = verdict_on(&typed);
    let errors = errors_unless(alloc, verdict.is_bool, policy_id, faults, place)?;
    Ok(Checked {
        verdict,
        typed,
        errors,
    })
}

//! What typing says of a policy in one environment.

ghost use Rattle.std.specs.Prelude.{◌≡◌, true, IfOk};
ghost use Rattle.cedar_expr_model.specs.Name.{Text};
ghost use Rattle.cedar_expr_model.specs.Tree.{Tree};
ghost use Rattle.cedar_schema_model.specs.Types.{strict};
ghost use Rattle.cedar_store_policies.specs.Templates.{template_of};
ghost use Rattle.cedar_schema_joins.specs.Modes.{mode_of};
ghost use Rattle.cedar_typechecker_environments.specs.Settings.{setting_of};
ghost use Rattle.cedar_typechecker_model.specs.Rules.{Setting};
ghost use Rattle.cedar_typechecker_policies.specs.Checks.{IsChecked, CheckSays, verdict_seen, IsCheckOf, IsVerdictOn};
ghost use Rattle.cedar_typechecker_policies.specs.Sound.{MeansTruthIfPassing};

use crate::checked::{Checked, check_condition};
use cedar_expr_trees::Expr;
use cedar_schema_types::Type;
use cedar_store_parts::ValidationError;
use cedar_store_policies::Template;
use cedar_typechecker_environments::{TypingSchema, World};
use cedar_typechecker_model::typed_laws::typed_as_judged;
use std::alloc::{AllocError, Global};

/// What typing says of a policy in an environment.
#[derive(Drop)]
pub enum PolicyCheck {
    /// The condition is True or Bool. It comes with its type and those of its parts.
    Success(Expr<Option<Type>>),
    /// The condition is False. It comes with its type and those of its parts; nothing is wrong with it.
    Irrelevant(Vec<ValidationError>, Expr<Option<Type>>),
    /// The condition has no type of truth values. It comes with what is wrong with it.
    Fail(Vec<ValidationError>),
}

impl PolicyCheck {
    ghost use Rattle.cedar_typechecker_policies.specs.Checks.{is_irrelevant};

    /// Whether the condition is False.
    pub fn is_irrelevant(&self) -> bool
        ensures { result ≡ is_irrelevant (verdict_seen self.now) }
    {
        match self {
            PolicyCheck::Irrelevant(_, _) => true,
            PolicyCheck::Success(_) | PolicyCheck::Fail(_) => false,
        }
    }
}

// The check of which this is known: without a type there is no verdict but failing.
#[tactic(auto, using(crate::proofs::Said::says_irrelevant, crate::proofs::Said::says_success, crate::proofs::Said::says_fail, crate::proofs::Said::says_untyped))]
fn policy_check(checked: Checked) -> PolicyCheck
    ensures { (s : Setting) (t : Tree) (id : Text) → IsChecked s t id checked → CheckSays s t id result }
{
    typed_as_judged();
    let Checked {
        verdict,
        typed,
        errors,
    } = checked;
    let Some(typed) = typed else {
        return PolicyCheck::Fail(errors);
    };
    if verdict.is_false {
        return PolicyCheck::Irrelevant(errors, typed);
    }
    if verdict.is_bool {
        return PolicyCheck::Success(typed);
    }
    PolicyCheck::Fail(errors)
}

// What typing says of the policy in what it is typed in.
pub(crate) fn check_said<S: TypingSchema>(
    alloc: Global,
    world: &World<'_, S>,
    template: &Template,
) -> Result<PolicyCheck, AllocError>
    ensures { IfOk result (IsCheckOf (setting_of S.schema S.table world.now) (template_of template.now)) }
{
    let checked = check_condition(alloc, world, template.id(), template.condition())?;
    Ok(policy_check(checked))
}

/// What typing says of the policy in an environment, in a mode: that it passes, that it passes and is irrelevant for requests of the
/// environment's types, or that it fails, and why. One that passes in the strict mode means a truth value there, or errs as expected.
pub fn check_in<S: TypingSchema>(
    alloc: Global,
    world: &World<'_, S>,
    template: &Template,
) -> Result<PolicyCheck, AllocError>
    ensures verdict { IfOk result (IsVerdictOn (setting_of S.schema S.table world.now) (template_of template.now)) }
    ensures says { IfOk result (IsCheckOf (setting_of S.schema S.table world.now) (template_of template.now)) }
    ensures sound { mode_of world.now.mode ≡ strict → IfOk result (MeansTruthIfPassing (setting_of S.schema S.table world.now) (template_of template.now)) }
{
    check_said(alloc, world, template)
}

//! What is left of policies.

ghost use Rattle.std.specs.Prelude.{◌≡◌};
ghost use Rattle.std.specs.List.{list_any, zip};
ghost use Rattle.cedar_store_policies.specs.Policies.{policy_of};
ghost use Rattle.cedar_gate_sessions.specs.Bounds.{satisfied_of, open_of};
ghost use Rattle.cedar_gate_sessions.specs.Verdicts.{has_effect, is_satisfied, is_open, is_limit};

use cedar_store_parts::Effect;
use cedar_store_policies::Policy;

/// What is left of a policy.
#[derive(Clone, Copy, Debug, PartialEq, Eq)]
pub enum Verdict {
    /// It is satisfied.
    Satisfied,
    /// It is residual: an expression is left.
    Open,
    /// It is false, or errs.
    Not,
    /// It met the limit on nesting.
    Limit,
}

// Whether the policy has this effect.
pub(crate) fn has_effect(policy: &Policy, effect: Effect) -> bool
    ensures { result ≡ has_effect effect (policy_of policy.now).effect }
{
    match effect {
        Effect::Permit => match policy.effect() {
            Effect::Permit => true,
            Effect::Forbid => false,
        },
        Effect::Forbid => match policy.effect() {
            Effect::Permit => false,
            Effect::Forbid => true,
        },
    }
}

// Whether it is satisfied.
pub(crate) fn is_satisfied(verdict: Verdict) -> bool
    ensures { result ≡ is_satisfied verdict }
{
    match verdict {
        Verdict::Satisfied => true,
        Verdict::Open => false,
        Verdict::Not => false,
        Verdict::Limit => false,
    }
}

// Whether it is residual.
pub(crate) fn is_open(verdict: Verdict) -> bool
    ensures { result ≡ is_open verdict }
{
    match verdict {
        Verdict::Satisfied => false,
        Verdict::Open => true,
        Verdict::Not => false,
        Verdict::Limit => false,
    }
}

// Whether it met the limit.
fn is_limit(verdict: Verdict) -> bool
    ensures { result ≡ is_limit verdict }
{
    match verdict {
        Verdict::Satisfied => false,
        Verdict::Open => false,
        Verdict::Not => false,
        Verdict::Limit => true,
    }
}

// Whether some policy of this effect is satisfied.
pub(crate) fn any_satisfied(effect: Effect, policies: &[Policy], verdicts: &[Verdict]) -> bool
    ensures { result ≡ list_any (satisfied_of effect) (zip policies.now verdicts.now) }
{
    policies.iter().zip(verdicts).any(|(policy, verdict)| has_effect(policy, effect)
        && is_satisfied(*verdict))
}

// Whether some policy of this effect is residual.
pub(crate) fn any_open(effect: Effect, policies: &[Policy], verdicts: &[Verdict]) -> bool
    ensures { result ≡ list_any (open_of effect) (zip policies.now verdicts.now) }
{
    policies.iter().zip(verdicts).any(|(policy, verdict)| has_effect(policy, effect)
        && is_open(*verdict))
}

// Whether some policy met the limit.
pub(crate) fn any_limit(verdicts: &[Verdict]) -> bool
    ensures { result ≡ list_any is_limit verdicts.now }
{
    verdicts.iter().any(|verdict| is_limit(*verdict))
}

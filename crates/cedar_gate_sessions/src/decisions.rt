//! Decisions.

ghost use Rattle.std.specs.Prelude.{◌≡◌, option_map, None, if◌then◌else◌};
ghost use Rattle.cedar_evaluator_requests.specs.Views.{decision_of};
ghost use Rattle.cedar_gate_sessions.specs.Evaluations.{ByVerdicts, decision_over};
ghost use Rattle.cedar_gate_sessions.specs.Verdicts.{decided_by_any};

use crate::kinds::{Verdict, any_limit, any_open, any_satisfied};
use cedar_evaluator_requests::Decision;
use cedar_store_parts::Effect;
use cedar_store_policies::Policy;

/// The decision by what is left of each policy: none where a policy met the limit; else the one that the residual policies can't change.
pub fn decided(policies: &[Policy], verdicts: &[Verdict]) -> Option<Decision>
    ensures { ByVerdicts policies.now verdicts.now (λ s n. option_map decision_of result ≡ decision_over s n policies.now) }
{
    let limit = any_limit(verdicts);
    let permits = any_satisfied(Effect::Permit, policies, verdicts);
    let forbids = any_satisfied(Effect::Forbid, policies, verdicts);
    let open_permits = any_open(Effect::Permit, policies, verdicts);
    let open_forbids = any_open(Effect::Forbid, policies, verdicts);
    by_any(limit, permits, open_permits, forbids, open_forbids)
}

// The decision by whether there are policies that met the limit, satisfied permits, residual ones, satisfied forbids, residual ones.
fn by_any(
    limit: bool,
    permits: bool,
    open_permits: bool,
    forbids: bool,
    open_forbids: bool,
) -> Option<Decision>
    ensures { option_map decision_of result ≡ (if limit then None else decided_by_any permits open_permits forbids open_forbids) }
{
    if limit {
        return None;
    }
    if forbids {
        return Some(Decision::Deny);
    }
    if permits {
        return if open_forbids {
            None
        } else {
            Some(Decision::Allow)
        };
    }
    if open_permits {
        None
    } else {
        Some(Decision::Deny)
    }
}

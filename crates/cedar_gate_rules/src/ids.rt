//! The ids of policies.

ghost use Rattle.std.specs.Prelude.{◌≡◌, IfOk, map, is_none};
ghost use Rattle.std.specs.Str.{bytes_eq};
ghost use Rattle.cedar_expr_model.specs.Repeats.{repeated};
ghost use Rattle.cedar_store_model.specs.Answer.{ids};
ghost use Rattle.cedar_gate_rules.specs.Policies.{policies_of};

use cedar_store_policies::Policy;
use std::alloc::{AllocError, Global};
use std::collections::BTreeSet;

/// Whether no two of these policies have one id. Fails only when out of memory.
pub fn ids_are_distinct(alloc: Global, policies: &[Policy]) -> Result<bool, AllocError>
    ensures { IfOk result (λ b. b ≡ is_none (repeated bytes_eq (ids (policies_of policies.now)))) }
{
    let mut seen: BTreeSet<&str> = BTreeSet::new(alloc);
    for policy in policies {
        if !seen.insert(policy.id().as_str())? {
            return Ok(false);
        }
    }
    Ok(true)
}
